//! Walks through the nodes of a project: it runs their statements, and gives one event after the other.
#![tactic(auto)]

mod clause;
mod deed;
mod ends;
mod evaluate;
mod frames;
mod halt;
mod offer;
mod stored;
mod titles;
mod variables;
mod walk;

pub use ends::FaultAt;
pub use offer::Offer;
pub use titles::{NodeAt, Titles};
pub use variables::{first_other, first_store};
pub use walk::{Seat, Turn, Walk};

//! Host functions: what a function of the game is, a table of them with the tape of their replies, and the ones that come
//! with `yarn`. The rules are those of docs/guide-hosts.md.
#![tactic(auto)]

mod boxes;
mod calls;
mod dice;
mod function;
mod laws;
mod names;
mod range;
mod replies;
mod scripted;
mod table;
mod values;

pub use boxes::HostTable;
pub use dice::Dice;
pub use function::{HostFault, HostFunction};
pub use laws::courses_compose;
pub use range::RandomRange;
pub use scripted::Scripted;
pub use table::{AddFault, AskFault, Table};

#[cfg(test)]
mod guide;
#[cfg(test)]
mod tests;

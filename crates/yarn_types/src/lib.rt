//! Finds the one typing of a project's variables: sets of kinds are narrowed, and variables of one kind joined.
#![tactic(auto)]

mod argument;
mod asking;
mod class;
mod collection;
mod expression;
mod fault;
mod finding;
mod function;
mod inference;
mod kind_set;
mod label;
mod line;
mod name;
mod set;
#[cfg(test)]
mod tests;
mod typed;

pub use fault::TypeFault;
pub use inference::infer_units;
pub use kind_set::KindSet;
pub use line::{Asks, TypeUnit};
pub use set::{Kinds, Meet};
pub use typed::{TypedName, Typing};

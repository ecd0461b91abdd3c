//! Finds the one typing of a project.
#![tactic(auto)]

mod project;
#[cfg(test)]
mod tests;
mod units;

pub use project::infer;
pub use yarn_types::{TypeFault, TypedName, Typing};

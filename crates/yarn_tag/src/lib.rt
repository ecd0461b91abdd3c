//! Files in which each line and each option has an id of its own.
#![tactic(auto)]

mod fault;
pub mod laws;
mod sets;
mod spoken;
mod tag;
mod tagger;

pub use fault::TagFault;
pub use tag::tag_file;

#[cfg(test)]
mod tests;

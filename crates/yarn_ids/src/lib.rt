//! The lines and options of a project under their ids, and files in which each has an id of its own.
#![tactic(auto)]

mod base;
pub mod laws;

pub use base::base_of;
pub use yarn_tag::{TagFault, tag_file};

#[cfg(test)]
mod tests;

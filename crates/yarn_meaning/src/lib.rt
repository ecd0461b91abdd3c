//! What a project means: the values of its expressions, what its statements do, and what it gives from a node on.
#![tactic(auto)]

mod laws;

pub use laws::{base_tells_all, more_begins_with_fewer};

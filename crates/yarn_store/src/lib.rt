//! Stored variables: an ordered list of pairs, and the file that holds one.
#![tactic(auto)]

mod laws;
mod line;
mod number;
mod pair;
mod read;
mod store;
mod write;

pub use laws::lines_are_read;
pub use read::{VarsFault, read_vars};
pub use store::Store;
pub use write::write_vars;

#[cfg(test)]
mod tests;

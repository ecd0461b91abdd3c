//! The lines of a file.
#![tactic(auto)]

mod blanks;
mod file;
mod line;
mod piece;

pub use blanks::{without_blanks, without_blanks_before, without_blanks_behind};
pub use file::{split, split_own};
pub use line::{LineFault, Lines, RawLine};
pub use piece::{first_piece, text_in};

#[cfg(test)]
mod tests;

//! Writes a file in its canonical form.
#![tactic(auto)]

mod contents;
mod lines;
mod print;
mod print_laws;
mod statements;
#[cfg(test)]
mod tests;
mod texts;

pub use print::print_file;
pub use print_laws::{printed_stands, prints_the_same};

//! Plural rules: a file of them, and the category of a whole number.
#![tactic(auto)]

mod default_table;
mod laws;
mod line;
mod lines;
mod parse;
mod read;
mod rule;
mod scan;
mod table;
mod token;

pub use default_table::english;
pub use laws::{english_is_written, file_is_one_thing, line_is_one_thing};
pub use read::{PluralFault, read_plural};
pub use rule::{Category, Listed, Operand, Relation, Rule};
pub use table::{Form, PluralTable};

#[cfg(test)]
mod tests;

//! Commands: what the content of a command is, and how it is written. The rules are those of docs/language.md,
//! "Body lines", "Texts and commands" and "Canonical text".
#![tactic(auto)]

mod assign;
mod command;
mod content;
mod declaration;
mod law;
mod print;
mod read;
#[cfg(test)]
mod tests;
mod word;

pub use command::Command;
pub use content::{may_be_for_game, read_command, read_expression};
pub use law::{commands_are_found, expressions_are_found, one_command};
pub use print::print_command;
pub use read::{Found, Part};

//! The commands of `yarn`.
#![tactic(auto)]

mod check;
mod check_fault;
mod command;
mod format;
pub mod laws;
mod list;
mod message;
mod play;
mod project;
mod read;
mod row;
mod run;
mod status;
mod strings;
mod tag;
mod typing;
mod vars;
mod words;

pub use check::run_check;
pub use command::{Command, CommandKind, read_words};
pub use format::run_format;
pub use list::run_list;
pub use play::run_play;
pub use run::run_yarn;
pub use status::Status;
pub use strings::run_strings;
pub use tag::run_tag;

#[cfg(test)]
mod tests;

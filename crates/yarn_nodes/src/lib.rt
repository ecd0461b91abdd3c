//! The nodes of a file line by line: its headers and the lines of its bodies, and the first line of each kind that a
//! project is refused for. No tree is built here.
#![tactic(auto)]

mod draft;
mod entry;
mod ids;
mod laws;
mod node;
mod noting;
mod reader;
mod structure;
#[cfg(test)]
mod tests;

pub use laws::{
    blocks_are_noted, files_stand, lines_are_noted, misplaced_is_noted, standing_is_read,
    titles_are_noted,
};
pub use node::{FileLines, FileRead, NodeLines, Note, Notes, Titled};
pub use reader::read_lines;
pub use yarn_items::Header;

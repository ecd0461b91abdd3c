//! The rows of a string table.
use yarn_base::{List, Text};

/// A line or an option of the source, as a string table has it: its id, its table text with one
/// hole for each substitution, and where it stands.
#[derive(Debug, Drop)]
pub struct BaseLine {
    pub id: Text,
    /// The number of holes that the text may use.
    pub holes: u8,
    pub text: Text,
    /// The place of its file among the files, from 0.
    pub file: u32,
    /// The place of its node among the nodes of all files, from 0.
    pub node: u32,
    /// The number of its line in the file, from 1.
    pub line: u32,
}

/// Those of all files, in the order of the text.
pub type Base = List<BaseLine>;

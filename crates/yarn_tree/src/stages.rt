//! What a file is on its way to its tree.
use yarn_base::Text;
use yarn_lines::Lines;

/// A file that is cut into lines.
#[derive(Drop)]
pub(crate) struct SplitFile {
    /// Its place among the files, from 0.
    pub number: u32,
    pub name: Text,
    pub lines: Lines,
}

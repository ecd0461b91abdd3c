//! What is read of a file before its trees are built.
ghost use Rattle.std.specs.Prelude.{◌≡◌};
ghost use Rattle.yarn_nodes.specs.Noted.{noted_as};

use yarn_base::{List, Text};
use yarn_blocks::{BodyLines, SharedText};
use yarn_items::Header;

/// A file of the project (docs/language.md, Nodes).
#[derive(Debug, Drop)]
pub struct FileLines {
    pub name: Text,
    /// Its hashtags, without their `#`.
    pub tags: List<Text>,
    pub nodes: List<NodeLines>,
}

/// A node. Lines count from 1.
#[derive(Debug, Drop)]
pub struct NodeLines {
    /// The value of its first header `title`, and empty where it has none.
    pub title: Text,
    pub headers: List<Header>,
    /// The line of its `---`.
    pub line: u32,
    /// The line of its `===`.
    pub end_line: u32,
    /// The lines of its body.
    pub body: BodyLines,
}

/// The title of a node, and the line of its header.
#[derive(Debug, Drop)]
pub struct Titled {
    pub line: u32,
    pub title: SharedText,
}

/// What was read of a file.
#[derive(Debug, Drop)]
pub struct FileRead {
    /// Its place among the files, from 0.
    pub number: u32,
    pub file: FileLines,
    /// The titles of the nodes.
    pub titles: List<Titled>,
    pub notes: Notes,
}

/// The first line of each kind that a project is refused for.
#[derive(Clone, Copy, Debug, PartialEq, Eq)]
pub struct Notes {
    pub bad: Option<u32>,
    pub many_holes: Option<u32>,
    pub misplaced: Option<u32>,
    pub too_deep: Option<u32>,
    pub too_many: Option<u32>,
    pub fraction: Option<u32>,
    pub too_large: Option<u32>,
    pub mistitled: Option<u32>,
}

/// What is noted while lines are read.
#[derive(Clone, Copy, Debug, PartialEq, Eq)]
pub enum Note {
    /// A line that is nothing in its mode.
    Bad,
    /// A line with more than 16 substitutions.
    ManyHoles,
    /// A line that stands where it may not.
    Misplaced,
    /// A line of a statement of depth over 64.
    TooDeep,
    /// The 65th option of a group.
    TooMany,
    /// A number with a fraction.
    Fraction,
    /// A number above 9223372036854775807.
    TooLarge,
    /// A node that isn't titled well.
    Mistitled,
}

impl Notes {
    /// The first line of that kind.
    pub fn line_of(&self, note: Note) -> Option<u32>
        ensures { result ≡ noted_as note self.now }
    {
        match note {
            Note::Bad => self.bad,
            Note::ManyHoles => self.many_holes,
            Note::Misplaced => self.misplaced,
            Note::TooDeep => self.too_deep,
            Note::TooMany => self.too_many,
            Note::Fraction => self.fraction,
            Note::TooLarge => self.too_large,
            Note::Mistitled => self.mistitled,
        }
    }
}

//! The trees of a project.
use crate::body::Body;
use yarn_base::{List, Text};
use yarn_items::Header;

/// The files of a conversation.
#[derive(Debug, Drop)]
pub struct Project {
    pub files: List<File>,
}

/// A file of the project (docs/language.md, Nodes).
#[derive(Debug, Drop)]
pub struct File {
    pub name: Text,
    /// Its hashtags, without their `#`.
    pub tags: List<Text>,
    pub nodes: List<Node>,
}

/// A node. Lines count from 1.
#[derive(Debug, Drop)]
pub struct Node {
    /// The value of its first header `title`, and empty where it has none.
    pub title: Text,
    pub headers: List<Header>,
    /// The line of its `---`.
    pub line: u32,
    /// The line of its `===`.
    pub end_line: u32,
    pub body: Body,
}

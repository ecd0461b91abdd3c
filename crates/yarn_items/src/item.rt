//! The items of lines.
use yarn_base::{List, Text};
use yarn_commands::Command;
use yarn_expr::Expr;

/// Where a line stands: among headers, or between a `---` and a `===`.
#[derive(Clone, Copy, Debug, PartialEq, Eq)]
pub enum Mode {
    InHeaders,
    InBody,
}

/// A header of a node: `key: value`, without the blanks around the value.
#[derive(Debug, Drop)]
pub struct Header {
    pub key: Text,
    pub value: Text,
}

/// What is said by a line, an option or a command for the game.
#[derive(Debug, Drop)]
pub struct Said {
    /// The text as string tables have it, with `{k}` for the substitution at place k, from 0.
    pub text: Text,
    /// The expressions of its substitutions, from the left.
    pub holes: List<Expr>,
    /// Its hashtags, without their `#`.
    pub tags: List<Text>,
}

/// What a line is (docs/language.md, Nodes and Body lines).
#[derive(Debug, Drop)]
pub enum Item {
    /// `#tag` of a file, without its `#`.
    FileTag(Text),
    /// `key: value`.
    Header(Header),
    /// `---`.
    BodyBegins,
    /// `===`.
    NodeEnds,
    /// A line that is said.
    Line(Said),
    /// An option, and its condition.
    Offer(Said, Option<Expr>),
    /// A command that isn't for the game, with its hashtags.
    Command(Command, List<Text>),
    /// A command for the game.
    Game(Said),
}

/// What can't be kept of the number literals of a line. Such a literal stands as 0 in the line's expressions.
#[derive(Clone, Copy, Debug, PartialEq, Eq)]
pub struct Literals {
    /// A number has a fraction, as `1.5`.
    pub fraction: bool,
    /// A number is above 9223372036854775807.
    pub too_large: bool,
}

/// What was found of a line.
#[derive(Debug, Drop)]
pub struct Found {
    pub item: Item,
    pub literals: Literals,
}

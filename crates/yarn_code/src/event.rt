//! What a conversation gives, one after the other.
use yarn_base::{List, Text};
use yarn_value::Value;

/// One thing that a conversation gives.
#[derive(Debug, Drop)]
pub enum Event {
    /// A node begins, of this title.
    NodeStart(Text),
    /// A line is said: its id, and the values of its substitutions in order.
    Line(Text, List<Value>),
    /// The player is to choose one of these.
    Options(List<Choice>),
    /// The answer names no option that can be chosen, and is asked for again.
    Rejected,
    /// A command is given out, of this text.
    Command(Text),
    /// The node of this title ends.
    NodeEnd(Text),
    /// The conversation is over.
    End,
}

/// An option as the player sees it.
#[derive(Debug, Drop)]
pub struct Choice {
    /// The id of its line.
    pub id: Text,
    /// The values of its substitutions in order.
    pub values: List<Value>,
    /// Whether it can be chosen.
    pub available: bool,
}

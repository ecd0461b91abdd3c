//! Marks: the lines of a body without their contents.
/// What a line of a body is to the structure.
#[derive(Clone, Copy, Debug, PartialEq, Eq)]
pub enum Shape {
    Statement,
    Offer,
    If,
    ElseIf,
    Else,
    EndIf,
}

/// A line of a body without its contents: all that the structure stands on.
#[derive(Clone, Copy, Debug, PartialEq, Eq)]
pub struct Mark {
    /// Its line, counted from 1.
    pub line: u32,
    pub indent: u32,
    pub shape: Shape,
}

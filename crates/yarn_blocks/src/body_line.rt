//! A line of a body that is only looked at.

use crate::entry::What;
use crate::tree::Stmt;

/// Where a line of a body stands.
#[derive(Clone, Copy, Debug, PartialEq, Eq)]
pub struct Spot {
    /// Its line, counted from 1.
    pub line: u32,
    pub indent: u32,
    /// Whether its statement is said to be bare.
    pub is_bare: bool,
}

/// What a line of a body is.
#[derive(Clone, Copy)]
pub enum BodyWhat<'a> {
    /// A statement that is one line.
    Statement(&'a Stmt),
    /// Any line.
    Structure(&'a What),
}

/// A line of a body.
#[derive(Clone, Copy)]
pub struct BodyLine<'a> {
    /// Its line, counted from 1.
    pub line: u32,
    pub indent: u32,
    pub what: BodyWhat<'a>,
}

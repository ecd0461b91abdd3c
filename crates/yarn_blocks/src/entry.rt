//! The lines of a body, as they are read one by one.
ghost use Rattle.std.specs.Prelude.{◌≡◌, IfOk};
ghost use Rattle.yarn_blocks.specs.Entries.{mark_of, marks_of, shape_of};

use crate::mark::{Mark, Shape};
use crate::tree::{Head, LineText};
use std::alloc::Global;
use yarn_base::{List, Memory, Text};
use yarn_expr::{BinaryOp, Expr};
use yarn_value::{Kind, Value};

/// A statement that is one line. Each is the variant of `Stmt` with its name.
#[derive(Debug, Drop)]
pub enum Simple {
    Line(LineText),
    Set(Head, Text, Option<BinaryOp>, Expr),
    Declare(Head, Text, Value, Option<Kind>),
    Jump(Head, Text),
    JumpTo(Head, Expr),
    Stop(Head),
    Call(Head, Expr),
    Command(LineText),
}

/// What a line of a body is.
#[derive(Debug, Drop)]
pub enum What {
    Statement(Simple),
    /// An option: its text and its condition.
    Offer(LineText, Option<Expr>),
    If(Head, Expr),
    ElseIf(Head, Expr),
    Else(Head),
    EndIf(Head),
}

/// A line of a body.
#[derive(Debug, Drop)]
pub struct Entry {
    /// Its line, counted from 1.
    pub line: u32,
    pub indent: u32,
    pub what: What,
}

impl What {
    fn shape(&self) -> Shape
        ensures { result ≡ shape_of self.now }
    {
        match self {
            What::Statement(_) => Shape::Statement,
            What::Offer(_, _) => Shape::Offer,
            What::If(_, _) => Shape::If,
            What::ElseIf(_, _) => Shape::ElseIf,
            What::Else(_) => Shape::Else,
            What::EndIf(_) => Shape::EndIf,
        }
    }
}

impl Entry {
    /// The line without its contents.
    pub fn mark(&self) -> Mark
        ensures { result ≡ mark_of self.now }
    {
        Mark {
            line: self.line,
            indent: self.indent,
            shape: self.what.shape(),
        }
    }
}

/// The lines without their contents, as `judge` takes them.
pub fn marks(alloc: Global, entries: &[Entry]) -> Result<List<Mark>, Memory>
    ensures { IfOk result (λ marks. marks ≡ marks_of entries.now) }
{
    let mut marks = Vec::new(alloc);
    for entry in entries {
        marks.push(entry.mark())?;
    }
    Ok(List::from_vec(marks))
}

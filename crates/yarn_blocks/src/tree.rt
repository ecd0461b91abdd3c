//! The statements of a body.
use crate::line_id::LineId;
use yarn_base::{List, Text};
use yarn_expr::{BinaryOp, Expr};
use yarn_value::{Kind, Value};

/// A statement of a body (docs/language.md, Body lines).
#[cycle(tree)]
#[derive(Debug, Drop)]
pub enum Stmt {
    /// A line that is said.
    Line(LineText),
    /// A group of options.
    Options(List<OptionItem>),
    /// An `if` with its clauses, its `else`, and the line of its `endif`.
    If(List<Clause>, Option<ElseClause>, Head),
    /// `<<set $x to e>>`, or with an operator, as `<<set $x += e>>`.
    Set(Head, Text, Option<BinaryOp>, Expr),
    /// `<<declare $x = v>>`, and its `as`.
    Declare(Head, Text, Value, Option<Kind>),
    /// `<<jump Name>>`: the node of that title is next.
    Jump(Head, Text),
    /// `<<jump {e}>>`.
    JumpTo(Head, Expr),
    /// `<<stop>>`
    Stop(Head),
    /// `<<call f(e, ..)>>`
    Call(Head, Expr),
    /// A command for the game. Its id is empty.
    Command(LineText),
}

/// One option of a group.
#[cycle(tree)]
#[derive(Debug, Drop)]
pub struct OptionItem {
    pub text: LineText,
    pub condition: Option<Expr>,
    pub body: List<Stmt>,
}

/// One clause of an `if`: the `if` itself or an `elseif`.
#[cycle(tree)]
#[derive(Debug, Drop)]
pub struct Clause {
    pub head: Head,
    pub condition: Expr,
    pub body: List<Stmt>,
}

/// The `else` of an `if`.
#[cycle(tree)]
#[derive(Debug, Drop)]
pub struct ElseClause {
    pub head: Head,
    pub body: List<Stmt>,
}

/// The line of a command, counted from 1, and its hashtags without their `#`.
#[derive(Debug, Drop)]
pub struct Head {
    pub line: u32,
    pub tags: List<Text>,
}

/// A line that is said, an option's text or a command for the game.
#[derive(Debug, Drop)]
pub struct LineText {
    /// Its line, counted from 1.
    pub line: u32,
    /// The text as string tables have it, with `{k}` for the hole at place k, from 0.
    pub text: Text,
    /// The values that are put in.
    pub holes: List<Expr>,
    /// The id under which string tables know it; empty in a file that is read alone.
    pub id: LineId,
    /// Its hashtags, without their `#`.
    pub tags: List<Text>,
}

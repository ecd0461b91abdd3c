//! What the lines of a project ask of the kinds of its variables.
use yarn_base::{List, Place, Text};
use yarn_expr::{BinaryOp, Expr};
use yarn_value::Kind;

/// What one line asks (docs/language.md, Typing), by reference to the parts of its statement.
#[derive(Clone, Copy, Debug)]
pub enum Asks<'p> {
    /// Each expression has a kind: the substitutions of a line, an option or a command.
    Values(&'p List<Expr>),
    /// The same, and then the condition is a truth: an option with `<<if e>>`.
    ValuesIf(&'p List<Expr>, &'p Expr),
    /// The expression has a kind: `call e`.
    Value(&'p Expr),
    /// The expression is a truth: `if e`, `elseif e`.
    Condition(&'p Expr),
    /// The expression is a text: `jump {e}`.
    Title(&'p Expr),
    /// The variable and what is set are of one kind: `set $x to e`, `set $x += e`.
    Set(&'p Text, Option<BinaryOp>, &'p Expr),
    /// The variable has the kind of its literal, and of the `as` word where there is one.
    Declare(&'p Text, Kind, Option<Kind>),
}

/// A line with what it asks. A clause line and an option line count by themselves.
#[derive(Clone, Copy, Debug)]
pub struct TypeUnit<'p> {
    pub place: Place,
    pub asks: Asks<'p>,
}

//! The tree of an expression.
use yarn_base::{Boxed, List, Text};

/// An operator before its operand.
#[derive(Clone, Copy, Debug, PartialEq, Eq)]
pub enum UnaryOp {
    /// `-`
    Neg,
    /// `not` or `!`
    Not,
}

/// An operator between two operands. The levels are those of docs/language.md, "Tokens and expressions".
#[derive(Clone, Copy, Debug, PartialEq, Eq)]
pub enum BinaryOp {
    /// `*`
    Mul,
    /// `/`
    Div,
    /// `%`
    Rem,
    /// `+`
    Add,
    /// `-`
    Sub,
    /// `<=` or `lte`
    Lte,
    /// `>=` or `gte`
    Gte,
    /// `<` or `lt`
    Lt,
    /// `>` or `gt`
    Gt,
    /// `==`, `is` or `eq`
    Eq,
    /// `!=` or `neq`
    Neq,
    /// `and` or `&&`
    And,
    /// `or` or `||`
    Or,
    /// `xor` or `^`
    Xor,
}

/// An expression. A number is at least 0 where it was read; a variable has its `$`.
#[derive(Debug, Drop, PartialEq, Eq)]
pub enum Expr {
    /// `7`
    Number(i64),
    /// `"seven"`, as what it stands for, without quotes and escapes
    Str(Text),
    /// `true` or `false`
    Truth(bool),
    /// `$seven`
    Variable(Text),
    /// `( e )`
    Group(Boxed<Expr>),
    /// `- e`, `not e`
    Unary(UnaryOp, Boxed<Expr>),
    /// `e + e` and the like, with the left side first
    Binary(BinaryOp, Boxed<Expr>, Boxed<Expr>),
    /// `name(e, ..)`
    Call(Text, List<Expr>),
}

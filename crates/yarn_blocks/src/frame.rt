//! What is open while a body is read.
use crate::held::Held;
use crate::tree::{Clause, Head, LineText};
use yarn_base::List;
use yarn_expr::Expr;

/// What is open, with what was read before it.
#[derive(Drop)]
pub(crate) enum Frame {
    /// An option: its indent, its text and its condition.
    InOption(u32, LineText, Option<Expr>, Held),
    /// A clause of an `if`, with the clauses before it.
    InClause(Head, Expr, List<Clause>, Held),
    /// The `else` of an `if`, with the clauses before it.
    InElse(Head, List<Clause>, Held),
}

/// A frame, with the least indent of a line within it.
#[derive(Drop)]
pub(crate) struct Open {
    pub(crate) low: u64,
    pub(crate) frame: Frame,
}

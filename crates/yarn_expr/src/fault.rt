//! Why a text gives no expression.
/// Why a piece of a text gives no expression. `Fraction` and `NumberTooLarge`, in this order, come only
/// where the piece has a tree. The rules are those of docs/language.md, "Tokens and expressions".
#[derive(Clone, Copy, Debug, PartialEq, Eq)]
pub enum ExprFault {
    /// No tree of a depth of at most 64 has the piece's tokens, as for `1 +`.
    NotExpr,
    /// A number has a fraction, as `1.5`.
    Fraction,
    /// A number is above 9223372036854775807.
    NumberTooLarge,
    /// Memory ran out. The piece may be right.
    Memory,
}

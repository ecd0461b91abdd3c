//! The tokens of an expression.
use yarn_base::Text;

/// One token of docs/language.md, "Tokens and expressions".
#[derive(Debug, Drop)]
pub enum Token {
    /// Digits, as they stand there.
    Number(Text),
    /// Digits, a point and digits, as they stand there.
    Fraction(Text),
    /// A string, as what it stands for, without quotes and escapes.
    Str(Text),
    /// A variable with its `$`.
    Variable(Text),
    /// A name or a reserved word.
    Word(Text),
    /// Any other token.
    Sign(Sign),
}

/// A token that is neither a literal nor a name.
#[derive(Clone, Copy, Debug, PartialEq, Eq)]
pub enum Sign {
    /// `==`
    Equal,
    /// `!=`
    NotEqual,
    /// `<=`
    AtMost,
    /// `>=`
    AtLeast,
    /// `<`
    Less,
    /// `>`
    More,
    /// `&&`
    Both,
    /// `||`
    Either,
    /// `^`
    OneOf,
    /// `!`
    Bang,
    /// `+`
    Plus,
    /// `-`
    Minus,
    /// `*`
    Star,
    /// `/`
    Slash,
    /// `%`
    Percent,
    /// `(`
    Open,
    /// `)`
    Close,
    /// `,`
    Comma,
}

//! The reserved words of an expression.
ghost use Rattle.std.specs.Prelude.{◌≡◌};
ghost use Rattle.yarn_expr.specs.Word.{meaning_of, is_reserved};

use crate::BinaryOp;

/// What a word means in an expression.
#[derive(Clone, Copy, Debug, PartialEq, Eq)]
pub(crate) enum WordMeaning {
    Operator(BinaryOp),
    Negation,
    Literal(bool),
    Name,
}

/// What a word means, by the table of operators.
#[tactic(auto, unfolding(crate::specs::Word::meaning_of))]
pub(crate) fn word_meaning(word: &str) -> WordMeaning
    ensures { result ≡ meaning_of word.now }
{
    match word {
        "lte" => WordMeaning::Operator(BinaryOp::Lte),
        "gte" => WordMeaning::Operator(BinaryOp::Gte),
        "lt" => WordMeaning::Operator(BinaryOp::Lt),
        "gt" => WordMeaning::Operator(BinaryOp::Gt),
        "is" | "eq" => WordMeaning::Operator(BinaryOp::Eq),
        "neq" => WordMeaning::Operator(BinaryOp::Neq),
        "and" => WordMeaning::Operator(BinaryOp::And),
        "or" => WordMeaning::Operator(BinaryOp::Or),
        "xor" => WordMeaning::Operator(BinaryOp::Xor),
        "not" => WordMeaning::Negation,
        "true" => WordMeaning::Literal(true),
        "false" => WordMeaning::Literal(false),
        _ => WordMeaning::Name,
    }
}

/// Whether a word is reserved, so that it can be no function's name. The words are those of docs/language.md, "Tokens
/// and expressions".
pub fn is_reserved(word: &str) -> bool
    ensures { result ≡ is_reserved word.now }
{
    match word_meaning(word) {
        WordMeaning::Operator(_) | WordMeaning::Negation | WordMeaning::Literal(_) => true,
        WordMeaning::Name => false,
    }
}

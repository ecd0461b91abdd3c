//! Answers for the tokens of a piece: the expression, or the first reason why it can't be kept.
ghost use Rattle.std.specs.Prelude.{◌≡◌};
ghost use Rattle.std.specs.List.{list_any};
ghost use Rattle.yarn_expr.specs.Gives.{answer as answer_of};
ghost use Rattle.yarn_expr.specs.Piece.{Answers, answer_to};
ghost use Rattle.yarn_expr.specs.Literal.{is_fraction as fraction_is, is_large as large_is};

use crate::number::number;
use crate::read::read_all;
use crate::refusal::Refusal;
use crate::{Expr, ExprFault, Token};
use std::alloc::Global;

/// The expression that all of the tokens are.
pub(crate) fn answer(alloc: Global, tokens: &[Token]) -> Result<Expr, ExprFault>
    ensures { Answers result (answer_of tokens.now) }
{
    match read_all(alloc, tokens) {
        Ok(expr) => kept(expr, tokens),
        Err(Refusal::NotExpr) => Err(ExprFault::NotExpr),
        Err(Refusal::Memory) => Err(ExprFault::Memory),
    }
}

/// The expression, where its literals can be kept. They are the literals among the tokens.
fn kept(expr: Expr, tokens: &[Token]) -> Result<Expr, ExprFault>
    ensures { result ≡ answer_to expr tokens.now }
{
    if has_fraction(tokens) {
        Err(ExprFault::Fraction)
    } else if has_large(tokens) {
        Err(ExprFault::NumberTooLarge)
    } else {
        Ok(expr)
    }
}

/// Whether one of the tokens is a number with a fraction.
pub fn has_fraction(tokens: &[Token]) -> bool
    ensures { result ≡ list_any fraction_is tokens.now }
{
    tokens.iter().any(is_fraction)
}

/// Whether one of the tokens is a number above 9223372036854775807.
pub fn has_large(tokens: &[Token]) -> bool
    ensures { result ≡ list_any large_is tokens.now }
{
    tokens.iter().any(is_large)
}

fn is_fraction(token: &Token) -> bool
    ensures { result ≡ fraction_is token.now }
{
    match token {
        Token::Fraction(_) => true,
        Token::Number(_) | Token::Str(_) | Token::Variable(_) | Token::Word(_) | Token::Sign(_) =>
            false,
    }
}

fn is_large(token: &Token) -> bool
    ensures { result ≡ large_is token.now }
{
    match token {
        Token::Number(digits) => number(digits.as_str()).is_none(),
        Token::Fraction(_) | Token::Str(_) | Token::Variable(_) | Token::Word(_) | Token::Sign(_) =>
            false,
    }
}

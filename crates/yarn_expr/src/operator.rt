//! What single tokens are to the reader: brackets, commas and operators.
//!
//! A new operator is a line in `sign_operator` or in word.rt and one in `level_of`; its definition is a line in
//! specs/Expression.antt or specs/Word.antt and one in specs/Plain.antt.
ghost use Rattle.std.specs.Prelude.{◌≡◌, MatchOption, Some, None};
ghost use Rattle.yarn_expr.specs.Expression.{binary_of, unary_of, sign_operator as sign_operator_of};
ghost use Rattle.yarn_expr.specs.Plain.{operator_level};
ghost use Rattle.yarn_expr.specs.Reading.{operator_at as operator_of, behind, is_open, is_close, is_comma};

use crate::word::{WordMeaning, word_meaning};
use crate::{BinaryOp, Sign, Token, UnaryOp};

/// What stands behind a `(`.
pub(crate) fn behind_open(tokens: &[Token]) -> Option<&[Token]>
    ensures { MatchOption result (behind is_open tokens.now ≡ None) (λ rest. behind is_open tokens.now ≡ Some rest.now) }
{
    match tokens {
        [Token::Sign(Sign::Open), rest @ ..] => Some(rest),
        _ => None,
    }
}

/// What stands behind a `)`.
pub(crate) fn behind_close(tokens: &[Token]) -> Option<&[Token]>
    ensures { MatchOption result (behind is_close tokens.now ≡ None) (λ rest. behind is_close tokens.now ≡ Some rest.now) }
{
    match tokens {
        [Token::Sign(Sign::Close), rest @ ..] => Some(rest),
        _ => None,
    }
}

/// What stands behind a `,`.
pub(crate) fn behind_comma(tokens: &[Token]) -> Option<&[Token]>
    ensures { MatchOption result (behind is_comma tokens.now ≡ None) (λ rest. behind is_comma tokens.now ≡ Some rest.now) }
{
    match tokens {
        [Token::Sign(Sign::Comma), rest @ ..] => Some(rest),
        _ => None,
    }
}

/// The operator that the token is between two operands.
fn binary_operator(token: &Token) -> Option<BinaryOp>
    ensures { result ≡ binary_of token.now }
{
    match token {
        Token::Word(word) => match word_meaning(word.as_str()) {
            WordMeaning::Operator(op) => Some(op),
            WordMeaning::Negation | WordMeaning::Literal(_) | WordMeaning::Name => None,
        },
        Token::Sign(sign) => sign_operator(*sign),
        Token::Number(_) | Token::Fraction(_) | Token::Str(_) | Token::Variable(_) => None,
    }
}

/// The operator that a sign is between two operands.
fn sign_operator(sign: Sign) -> Option<BinaryOp>
    ensures { result ≡ sign_operator_of sign }
{
    match sign {
        Sign::Star => Some(BinaryOp::Mul),
        Sign::Slash => Some(BinaryOp::Div),
        Sign::Percent => Some(BinaryOp::Rem),
        Sign::Plus => Some(BinaryOp::Add),
        Sign::Minus => Some(BinaryOp::Sub),
        Sign::AtMost => Some(BinaryOp::Lte),
        Sign::AtLeast => Some(BinaryOp::Gte),
        Sign::Less => Some(BinaryOp::Lt),
        Sign::More => Some(BinaryOp::Gt),
        Sign::Equal => Some(BinaryOp::Eq),
        Sign::NotEqual => Some(BinaryOp::Neq),
        Sign::Both => Some(BinaryOp::And),
        Sign::Either => Some(BinaryOp::Or),
        Sign::OneOf => Some(BinaryOp::Xor),
        Sign::Bang | Sign::Open | Sign::Close | Sign::Comma => None,
    }
}

/// The operator that the token is before an operand.
pub(crate) fn unary_operator(token: &Token) -> Option<UnaryOp>
    ensures { result ≡ unary_of token.now }
{
    match token {
        Token::Word(word) => match word_meaning(word.as_str()) {
            WordMeaning::Negation => Some(UnaryOp::Not),
            WordMeaning::Operator(_) | WordMeaning::Literal(_) | WordMeaning::Name => None,
        },
        Token::Sign(Sign::Minus) => Some(UnaryOp::Neg),
        Token::Sign(Sign::Bang) => Some(UnaryOp::Not),
        Token::Sign(_) => None,
        Token::Number(_) | Token::Fraction(_) | Token::Str(_) | Token::Variable(_) => None,
    }
}

/// An operator of the level, and what stands behind it.
pub(crate) fn operator_at(level: usize, tokens: &[Token]) -> Option<(BinaryOp, &[Token])>
    ensures { MatchOption result (operator_of level tokens.now ≡ None) (λ found. operator_of level tokens.now ≡ Some (found.0, found.1.now)) }
{
    let (first, rest) = tokens.split_first()?;
    let op = binary_operator(first)?;
    if level_of(op) == level {
        Some((op, rest))
    } else {
        None
    }
}

/// The level of an operator; 2 is the tightest, and 6 the loosest.
fn level_of(op: BinaryOp) -> usize
    ensures { result ≡ operator_level op }
{
    match op {
        BinaryOp::Mul | BinaryOp::Div | BinaryOp::Rem => 2,
        BinaryOp::Add | BinaryOp::Sub => 3,
        BinaryOp::Lte | BinaryOp::Gte | BinaryOp::Lt | BinaryOp::Gt => 4,
        BinaryOp::Eq | BinaryOp::Neq => 5,
        BinaryOp::And | BinaryOp::Or | BinaryOp::Xor => 6,
    }
}

//! Reads what stands between a variable and its value: the word `to`, or a sign.
ghost use Rattle.std.specs.Prelude.{◌≡◌, MatchOption, IfOk, IfSome, IsUtf8, None, Some};
ghost use Rattle.std.specs.Str.{chars};
ghost use Rattle.yarn_expr.specs.Gives.{Gives};
ghost use Rattle.yarn_commands.specs.Reading.{Assigned as AssignedOf, assignment as assignment_of, sign_at as sign_at_of, operator_sign as operator_sign_of, arithmetic as arithmetic_of, is_to as to_is, to_next as to_next_of};
ghost use Rattle.yarn_expr.specs.Tokens.{next_token as next_of};
ghost use Rattle.yarn_commands.specs.Parts.{assigned_of};

use std::alloc::Global;
use yarn_expr::{BinaryOp, Class, Refusal, Token, cut, first_char, next_token};

/// The operator that sets the variable, and what stands behind the sign or the word.
#[derive(Drop)]
pub(crate) struct Assigned<'a> {
    pub op: Option<BinaryOp>,
    pub rest: &'a str,
}

/// The sign or the word `to` at the front, behind blanks.
#[tactic(auto, unfolding(crate::specs::Reading::assignment))]
pub(crate) fn assignment(alloc: Global, text: &str) -> Result<Assigned<'_>, Refusal>
    ensures exact { Gives assigned_of result (assignment_of (chars text.now)) }
    ensures utf8 { IfOk result (λ assigned. IsUtf8 assigned.rest.now) }
{
    let (_, start) = cut(Class::Blank, text);
    match sign_at(start) {
        Some(assigned) => Ok(assigned),
        None => read_to(alloc, start),
    }
}

fn sign_at(text: &str) -> Option<Assigned<'_>>
    ensures exact { MatchOption result (sign_at_of (chars text.now) ≡ None) (λ assigned. sign_at_of (chars text.now) ≡ Some (assigned_of assigned)) }
    ensures utf8 { IfSome result (λ assigned. IsUtf8 assigned.rest.now) }
{
    let (first, rest) = first_char(text)?;
    if first == '=' {
        Some(Assigned { op: None, rest })
    } else {
        operator_sign(first, rest)
    }
}

/// A sign of an operator and `=`.
fn operator_sign(first: char, text: &str) -> Option<Assigned<'_>>
    ensures exact { MatchOption result (operator_sign_of first (chars text.now) ≡ None) (λ assigned. operator_sign_of first (chars text.now) ≡ Some (assigned_of assigned)) }
    ensures utf8 { IfSome result (λ assigned. IsUtf8 assigned.rest.now) }
{
    let (second, rest) = first_char(text)?;
    if second != '=' {
        return None;
    }
    let op = arithmetic(first)?;
    Some(Assigned { op: Some(op), rest })
}

fn arithmetic(c: char) -> Option<BinaryOp>
    ensures { result ≡ arithmetic_of c }
{
    match c {
        '+' => Some(BinaryOp::Add),
        '-' => Some(BinaryOp::Sub),
        '*' => Some(BinaryOp::Mul),
        '/' => Some(BinaryOp::Div),
        '%' => Some(BinaryOp::Rem),
        _ => None,
    }
}

/// The word `to`.
fn read_to(alloc: Global, text: &str) -> Result<Assigned<'_>, Refusal>
    ensures exact { Gives assigned_of result (to_next_of (next_of (chars text.now))) }
    ensures utf8 { IfOk result (λ assigned. IsUtf8 assigned.rest.now) }
{
    let step = next_token(alloc, text)?;
    if is_to(&step.token) {
        Ok(Assigned {
            op: None,
            rest: step.rest,
        })
    } else {
        Err(Refusal::NotExpr)
    }
}

fn is_to(token: &Token) -> bool
    ensures { result ≡ to_is token.now }
{
    match token {
        Token::Word(word) => word.as_str() == "to",
        Token::Number(_) | Token::Fraction(_) | Token::Str(_) => false,
        Token::Variable(_) | Token::Sign(_) => false,
    }
}

//! Cuts a text into its tokens, the longest one first at each place. Blanks stand between tokens and are dropped.
//!
//! A new sign is a line in `two_signs` or `one_sign`, and one in specs/Tokens.antt.
ghost use Rattle.std.specs.Prelude.{◌≡◌, ◌<◌, ◌++◌, [], ◌∷◌, length, MatchOption, IfSome, IfOk, OnOk, IsUtf8, IsTrue, ◌↔◌, ◌≢◌, Some, None};
ghost use Rattle.std.specs.Str.{chars};
ghost use Rattle.yarn_expr.specs.Tokens.{digit_next, name_next, is_digit as digit_is, behind_point as point_of, number_token, quoted, string_of, variable_token, word_token, two_signs as two_signs_of, one_sign as one_sign_of, sign_token, next_token as next_of, tokens_of, is_escaped as escaped_is};
ghost use Rattle.yarn_expr.specs.Gives.{Gives};
ghost use Rattle.yarn_expr.specs.Steps.{step_of, IsInString};

use crate::refusal::Refusal;
use crate::scan::{Class, cut, first_char, starts_name};
use crate::{Sign, Token};
use std::alloc::Global;
use yarn_base::{List, Memory, Text};

/// A token, and the text after it.
#[derive(Drop)]
pub struct Step<'a> {
    /// The token.
    pub token: Token,
    /// What stands behind it.
    pub rest: &'a str,
}

/// What stands behind a point, if a digit does.
fn behind_point(text: &str) -> Option<&str>
    ensures exact { MatchOption result (point_of (chars text.now) ≡ None) (λ rest. point_of (chars text.now) ≡ Some (chars rest.now)) }
    ensures utf8 { IfSome result (λ rest. IsUtf8 rest.now) }
{
    match first_char(text) {
        Some(('.', rest)) => {
            if begins_with_digit(rest) {
                Some(rest)
            } else {
                None
            }
        }
        _ => None,
    }
}

fn begins_with_digit(text: &str) -> bool
    ensures { result ≡ digit_next (chars text.now) }
{
    match first_char(text) {
        Some((c, _)) => is_digit(c),
        None => false,
    }
}

fn begins_with_name(text: &str) -> bool
    ensures { result ≡ name_next (chars text.now) }
{
    match first_char(text) {
        Some((c, _)) => starts_name(c),
        None => false,
    }
}

fn is_digit(c: char) -> bool
    ensures { result ≡ digit_is c }
{
    c >= '0' && c <= '9'
}

/// The sign that two characters are.
fn two_signs(first: char, second: char) -> Option<Sign>
    ensures { result ≡ two_signs_of first second }
{
    match (first, second) {
        ('=', '=') => Some(Sign::Equal),
        ('!', '=') => Some(Sign::NotEqual),
        ('<', '=') => Some(Sign::AtMost),
        ('>', '=') => Some(Sign::AtLeast),
        ('&', '&') => Some(Sign::Both),
        ('|', '|') => Some(Sign::Either),
        _ => None,
    }
}

/// The sign that one character is.
fn one_sign(c: char) -> Option<Sign>
    ensures { result ≡ one_sign_of c }
{
    match c {
        '<' => Some(Sign::Less),
        '>' => Some(Sign::More),
        '^' => Some(Sign::OneOf),
        '!' => Some(Sign::Bang),
        '+' => Some(Sign::Plus),
        '-' => Some(Sign::Minus),
        '*' => Some(Sign::Star),
        '/' => Some(Sign::Slash),
        '%' => Some(Sign::Percent),
        '(' => Some(Sign::Open),
        ')' => Some(Sign::Close),
        ',' => Some(Sign::Comma),
        _ => None,
    }
}

/// A number at the front, digits or a fraction.
#[tactic(auto, unfolding(crate::specs::Tokens::number_token))]
fn read_number(alloc: Global, text: &str) -> Result<Step<'_>, Memory>
    ensures exact { IfOk result (λ step. step_of step ≡ number_token (chars text.now)) }
    ensures utf8 { IfOk result (λ step. IsUtf8 step.rest.now) }
{
    let (whole, rest) = cut(Class::Digit, text);
    match behind_point(rest) {
        Some(part) => {
            let (digits, after) = cut(Class::Digit, part);
            let spelling = joined(alloc, whole, digits)?;
            Ok(Step {
                token: Token::Fraction(spelling),
                rest: after,
            })
        }
        None => Ok(Step {
            token: Token::Number(Text::from_str(alloc, whole)?),
            rest,
        }),
    }
}

/// Digits, a point, and digits.
fn joined(alloc: Global, whole: &str, digits: &str) -> Result<Text, Memory>
    ensures { IfOk result (λ t. t ≡ whole.now ++ (46 ∷ digits.now)) }
{
    let mut spelling = Text::from_str(alloc, whole)?;
    spelling.push_str(".")?;
    spelling.push_str(digits)?;
    Ok(spelling)
}

/// A word, whose first character stands before the text.
fn read_word(alloc: Global, first: char, text: &str) -> Result<Step<'_>, Memory>
    ensures exact { IfOk result (λ step. step_of step ≡ word_token first (chars text.now)) }
    ensures utf8 { IfOk result (λ step. IsUtf8 step.rest.now) }
{
    let (name, rest) = cut(Class::Name, text);
    let mut spelling = Text::from_str(alloc, "")?;
    spelling.push_char(first)?;
    spelling.push_str(name)?;
    Ok(Step {
        token: Token::Word(spelling),
        rest,
    })
}

/// A variable, behind its `$`.
fn read_variable(alloc: Global, text: &str) -> Result<Step<'_>, Refusal>
    ensures exact { Gives step_of result (variable_token (chars text.now)) }
    ensures utf8 { IfOk result (λ step. IsUtf8 step.rest.now) }
{
    if !begins_with_name(text) {
        return Err(Refusal::NotExpr);
    }
    let (name, rest) = cut(Class::Name, text);
    let mut spelling = Text::from_str(alloc, "$")?;
    spelling.push_str(name)?;
    Ok(Step {
        token: Token::Variable(spelling),
        rest,
    })
}

/// A sign, of two characters if they are one.
fn read_sign(text: &str) -> Option<(Sign, &str)>
    ensures exact { MatchOption result (sign_token (chars text.now) ≡ None) (λ found. sign_token (chars text.now) ≡ Some (record { token = Token.Sign found.0; rest = chars found.1.now })) }
    ensures utf8 { IfSome result (λ found. IsUtf8 found.1.now) }
{
    let (first, rest) = first_char(text)?;
    if let Some((second, after)) = first_char(rest) {
        if let Some(sign) = two_signs(first, second) {
            return Some((sign, after));
        }
    }
    let sign = one_sign(first)?;
    Some((sign, rest))
}

/// What stands next in a string.
#[derive(Drop)]
enum InString<'a> {
    Closed(&'a str),
    Char(char, &'a str),
    Open,
}

/// The next step of a string.
#[tactic(auto, unfolding(crate::specs::Tokens::quoted))]
fn string_step(text: &str) -> InString<'_>
    ensures { IsInString (chars text.now) result }
{
    match first_char(text) {
        None => InString::Open,
        Some((first, rest)) => {
            if first == '"' {
                InString::Closed(rest)
            } else {
                char_step(first, rest)
            }
        }
    }
}

/// The next character of a string that goes on.
#[tactic(auto, unfolding(crate::specs::Tokens::quoted))]
fn char_step(first: char, rest: &str) -> InString<'_>
    requires { first ≢ 34 }
    ensures { IsInString (first ∷ chars rest.now) result }
{
    match first_char(rest) {
        None => InString::Open,
        Some((second, after)) => {
            if first == '\\' && is_escaped(second) {
                InString::Char(second, after)
            } else {
                InString::Char(first, rest)
            }
        }
    }
}

fn is_escaped(c: char) -> bool
    ensures { result ≡ escaped_is c }
{
    c == '"' || c == '\\'
}

/// A string, behind its first quote.
fn read_string(alloc: Global, text: &str) -> Result<Step<'_>, Refusal>
    ensures exact { Gives step_of result (string_of (quoted (chars text.now))) }
    ensures utf8 { IfOk result (λ step. IsUtf8 step.rest.now) }
{
    let mut body = Text::from_str(alloc, "")?;
    let mut rest = text;
    loop {
        match string_step(rest) {
            InString::Closed(after) => {
                return Ok(Step {
                    token: Token::Str(body),
                    rest: after,
                });
            }
            InString::Char(c, after) => {
                body.push_char(c)?;
                rest = after;
            }
            InString::Open => return Err(Refusal::NotExpr),
        }
    }
}

/// The longest token at the front, before which no blank stands.
#[tactic(auto, unfolding(crate::specs::Tokens::next_token))]
pub fn next_token(alloc: Global, text: &str) -> Result<Step<'_>, Refusal>
    ensures exact { Gives step_of result (next_of (chars text.now)) }
    ensures utf8 { IfOk result (λ step. IsUtf8 step.rest.now) }
{
    match first_char(text) {
        None => Err(Refusal::NotExpr),
        Some((first, rest)) => {
            if is_digit(first) {
                let step = read_number(alloc, text)?;
                Ok(step)
            } else if first == '"' {
                read_string(alloc, rest)
            } else if first == '$' {
                read_variable(alloc, rest)
            } else if starts_name(first) {
                let step = read_word(alloc, first, rest)?;
                Ok(step)
            } else {
                sign_step(text)
            }
        }
    }
}

fn sign_step(text: &str) -> Result<Step<'_>, Refusal>
    ensures exact { Gives step_of result (sign_token (chars text.now)) }
    ensures utf8 { IfOk result (λ step. IsUtf8 step.rest.now) }
{
    match read_sign(text) {
        Some((sign, rest)) => Ok(Step {
            token: Token::Sign(sign),
            rest,
        }),
        None => Err(Refusal::NotExpr),
    }
}

fn add(all: &mut List<Token>, token: Token) -> Result<(), Memory>
    ensures { OnOk result (all.new ≡ all.old ++ token ∷ []) }
{
    match all.push(token) {
        Ok(()) => Ok(()),
        Err(_) => Err(Memory),
    }
}

fn is_empty(text: &str) -> bool
    ensures { IsTrue result ↔ (chars text.now ≡ []) }
{
    first_char(text).is_none()
}

/// The tokens of a text.
pub fn tokenize(alloc: Global, text: &str) -> Result<List<Token>, Refusal>
    ensures { Gives (λ all. all) result (tokens_of (chars text.now)) }
{
    let mut all = List::new(alloc);
    let mut rest = text;
    loop {
        let (_, start) = cut(Class::Blank, rest);
        if is_empty(start) {
            return Ok(all);
        }
        let step = next_token(alloc, start)?;
        add(&mut all, step.token)?;
        rest = step.rest;
    }
}

//! Reads the value and the kind of a declare from their tokens.
ghost use Rattle.std.specs.Prelude.{◌≡◌, Some, None, pos, unwrap_or};
ghost use Rattle.yarn_expr.specs.Gives.{Gives};
ghost use Rattle.yarn_expr.specs.Plain.{number_of};
ghost use Rattle.yarn_commands.specs.Command.{literal_of, negative_of, truth_of};
ghost use Rattle.yarn_commands.specs.Reading.{declaration as declaration_of, kind_at as kind_at_of, as_kind as as_kind_of, kind_of_word as kind_of_word_of};

use yarn_base::Text;
use yarn_expr::{Refusal, Sign, Token, number_of_digits};
use yarn_value::{Kind, Value};

/// The value of a declare, and its kind where one is said.
#[derive(Drop)]
pub(crate) struct Declaration {
    pub value: Value,
    pub kind: Option<Kind>,
}

/// A literal, or `-` and a number, and then maybe `as` and a kind.
pub(crate) fn read_declaration(tokens: &[Token]) -> Result<Declaration, Refusal>
    ensures { Gives (λ declaration. declaration) result (declaration_of tokens.now) }
{
    match tokens {
        [Token::Sign(Sign::Minus), number, rest @ ..] => {
            let value = negative(number)?;
            with_kind(value, rest)
        }
        [first, rest @ ..] => {
            let value = literal(first)?;
            with_kind(value, rest)
        }
        [] => Err(Refusal::NotExpr),
    }
}

/// The value that one token is.
fn literal(token: &Token) -> Result<Value, Refusal>
    ensures { Gives (λ value. value) result (literal_of token.now) }
{
    match token {
        Token::Number(digits) => Ok(Value::Number(small_number(digits))),
        Token::Fraction(_) => Ok(Value::Number(0)),
        Token::Str(text) => Ok(Value::Str(text.copy()?)),
        Token::Word(word) => truth(word.as_str()),
        Token::Variable(_) | Token::Sign(_) => Err(Refusal::NotExpr),
    }
}

fn truth(word: &str) -> Result<Value, Refusal>
    ensures { Gives (λ value. value) result (truth_of word.now) }
{
    match word {
        "true" => Ok(Value::Truth(true)),
        "false" => Ok(Value::Truth(false)),
        _ => Err(Refusal::NotExpr),
    }
}

/// The value of a number behind a `-`.
fn negative(token: &Token) -> Result<Value, Refusal>
    ensures { Gives (λ value. value) result (negative_of token.now) }
{
    match token {
        Token::Number(digits) => Ok(Value::Number(-small_number(digits))),
        Token::Fraction(_) => Ok(Value::Number(0)),
        Token::Str(_) | Token::Word(_) | Token::Variable(_) | Token::Sign(_) => {
            Err(Refusal::NotExpr)
        }
    }
}

/// The number that the digits write, or 0 where it is too large.
fn small_number(digits: &Text) -> i64
    ensures { result ≡ pos (unwrap_or (number_of digits.now) 0) }
{
    match number_of_digits(digits.as_str()) {
        Some(n) => n as i64,
        None => 0,
    }
}

/// The value with the kind that is said behind it.
fn with_kind(value: Value, tokens: &[Token]) -> Result<Declaration, Refusal>
    ensures { Gives (λ declaration. declaration) result (kind_at_of value tokens.now) }
{
    match tokens {
        [] => Ok(Declaration { value, kind: None }),
        [Token::Word(first), Token::Word(second)] => {
            as_kind(value, first.as_str(), second.as_str())
        }
        _ => Err(Refusal::NotExpr),
    }
}

fn as_kind(value: Value, first: &str, second: &str) -> Result<Declaration, Refusal>
    ensures { Gives (λ declaration. declaration) result (as_kind_of value first.now second.now) }
{
    if first != "as" {
        return Err(Refusal::NotExpr);
    }
    match kind_of_word(second) {
        Some(kind) => Ok(Declaration {
            value,
            kind: Some(kind),
        }),
        None => Err(Refusal::NotExpr),
    }
}

fn kind_of_word(word: &str) -> Option<Kind>
    ensures { result ≡ kind_of_word_of word.now }
{
    match word {
        "number" => Some(Kind::Number),
        "string" => Some(Kind::Str),
        "bool" => Some(Kind::Truth),
        _ => None,
    }
}

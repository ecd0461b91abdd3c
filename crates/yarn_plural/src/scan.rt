//! Reads the tokens of a line.
ghost use Rattle.std.specs.Prelude.{◌≡◌, ◌<◌, ◌≤◌, length, not, MatchOption, IfOk, None, Some, true};
ghost use Rattle.std.specs.List.{list_all};
ghost use Rattle.yarn_plural.specs.Tokens.{is_digit, front, past, Spells, begins_run as begins_run_of};
ghost use Rattle.yarn_plural.specs.Steps.{AreTokens, in_run, next_of, word_next, value_next, value_of, sign_next};

use crate::token::{Sign, Token, Word};
use std::alloc::Global;
use yarn_base::{List, Memory};

/// The tokens of a text, and none where it has a part that is no token.
pub(crate) fn read_tokens(alloc: Global, text: &[u8]) -> Result<Option<List<Token>>, Memory>
    ensures { IfOk result (λ found. MatchOption found (¬ AreTokens text.now) (λ tokens. Spells text.now tokens)) }
{
    let mut tokens = List::new(alloc);
    let (_, mut rest) = first_run(text, Run::Blanks);
    while !rest.is_empty() {
        let Some((token, behind)) = first_token(rest) else {
            return Ok(None);
        };
        tokens.push(token).map_err(|_| Memory)?;
        (_, rest) = first_run(behind, Run::Blanks);
    }
    Ok(Some(tokens))
}

// The first token of a text that begins with no blank, and what stands behind it.
fn first_token(text: &[u8]) -> Option<(Token, &[u8])>
    ensures { MatchOption result (next_of text.now ≡ None) (λ next. next_of text.now ≡ Some (next.0, next.1.now)) }
{
    match text {
        [] => None,
        [b'#', ..] => Some((Token::Comment, &[])),
        [b'@', ..] => Some((Token::Samples, &[])),
        [first, ..] if Run::Letters.has(*first) => first_word(text),
        [first, ..] if Run::Digits.has(*first) => first_value(text),
        _ => first_sign(text),
    }
}

fn first_word(text: &[u8]) -> Option<(Token, &[u8])>
    ensures { MatchOption result (word_next text.now ≡ None) (λ next. word_next text.now ≡ Some (next.0, next.1.now)) }
{
    let (word, rest) = first_run(text, Run::Letters);
    if begins_run(rest) {
        return None;
    }
    Some((Token::Word(Word::find(word)?), rest))
}

fn first_value(text: &[u8]) -> Option<(Token, &[u8])>
    ensures { MatchOption result (value_next text.now ≡ None) (λ next. value_next text.now ≡ Some (next.0, next.1.now)) }
{
    let (digits, rest) = first_run(text, Run::Digits);
    if begins_run(rest) {
        return None;
    }
    Some((Token::Value(value(digits)?), rest))
}

fn first_sign(text: &[u8]) -> Option<(Token, &[u8])>
    ensures { MatchOption result (sign_next text.now ≡ None) (λ next. sign_next text.now ≡ Some (next.0, next.1.now)) }
{
    let (sign, rest) = match text {
        [b':', rest @ ..] => (Sign::Colon, rest),
        [b'%', rest @ ..] => (Sign::Percent, rest),
        [b'=', rest @ ..] => (Sign::Equal, rest),
        [b'!', b'=', rest @ ..] => (Sign::Differ, rest),
        [b',', rest @ ..] => (Sign::Comma, rest),
        [b'.', b'.', rest @ ..] => (Sign::To, rest),
        _ => return None,
    };
    Some((Token::Sign(sign), rest))
}

/// The bytes of which a run consists.
#[derive(Clone, Copy, Debug)]
enum Run {
    Blanks,
    Letters,
    Digits,
}

impl Run {
    fn has(self, byte: u8) -> bool
        ensures { result ≡ in_run self byte }
    {
        match self {
            Run::Blanks => byte == b' ' || byte == b'\t',
            Run::Letters => b'A' <= byte && byte <= b'Z' || b'a' <= byte && byte <= b'z',
            Run::Digits => b'0' <= byte && byte <= b'9',
        }
    }
}

// The longest run at the front, which may be empty, and what stands behind it.
fn first_run(text: &[u8], run: Run) -> (&[u8], &[u8])
    ensures front { result.0.now ≡ front (in_run run) text.now }
    ensures past { result.1.now ≡ past (in_run run) text.now }
{
    text.split_at(run_length(text, run))
}

fn run_length(text: &[u8], run: Run) -> usize
    ensures value { result ≡ length (front (in_run run) text.now) }
    ensures within { result ≤ length text.now }
{
    for (at, byte) in text.iter().enumerate() {
        if !run.has(*byte) {
            return at;
        }
    }
    text.len()
}

// Whether a letter or a digit comes next.
fn begins_run(text: &[u8]) -> bool
    ensures { result ≡ begins_run_of text.now }
{
    match text {
        [] => false,
        [first, ..] => Run::Letters.has(*first) || Run::Digits.has(*first),
    }
}

/// The most digits of a value.
const MOST_DIGITS: usize = 18;

// The number that 1 to 18 digits write.
fn value(digits: &[u8]) -> Option<u64>
    requires { list_all is_digit digits.now ≡ true }
    ensures { result ≡ value_of digits.now }
{
    if digits.is_empty() || digits.len() > MOST_DIGITS {
        return None;
    }
    let mut number: u64 = 0;
    for digit in digits {
        number = number * 10 + u64::from(*digit - b'0');
    }
    Some(number)
}

//! Quoted strings: a text between two quotes, with `\\`, `\"`, `\n` and `\r` for the four bytes
//! that may not stand there by themselves (docs/formats.md, Quoted strings).
ghost use Rattle.std.specs.Prelude.{◌≡◌, ◌++◌, ◌∷◌, [], encode_utf8, IfOk, OnOk, IfSome, IsUtf8, MatchOption};
ghost use Rattle.yarn_value.specs.Quoting.{quoted, escape, IsQuoted, IsBody, QuotedOnce};
ghost use Rattle.yarn_value.specs.QuotingSteps.{IsPart};

use crate::scan::first_char;
use std::alloc::Global;
use yarn_base::{Memory, Text};

/// The text as a quoted string. The only error is want of memory.
pub fn quote(alloc: Global, text: &Text) -> Result<Text, Memory>
    ensures { IfOk result (λ whole. whole ≡ quoted text.now) }
{
    let mut whole = Text::from_str(alloc, "\"")?;
    push_escaped(&mut whole, text.as_str())?;
    whole.push_str("\"")?;
    Ok(whole)
}

fn push_escaped(out: &mut Text, text: &str) -> Result<(), Memory>
    ensures { OnOk result (out.new ≡ out.old ++ escape text.now) }
{
    let mut rest = text;
    while let Some((c, after)) = first_char(rest) {
        push_char(out, c)?;
        rest = after;
    }
    Ok(())
}

#[tactic(auto, using(crate::proofs::QuotingLemmas::escapes))]
fn push_char(out: &mut Text, c: char) -> Result<(), Memory>
    ensures { OnOk result (out.new ≡ out.old ++ escape (encode_utf8 c)) }
{
    match c {
        '\\' => out.push_str("\\\\"),
        '"' => out.push_str("\\\""),
        '\n' => out.push_str("\\n"),
        '\r' => out.push_str("\\r"),
        _ => out.push_char(c),
    }
}

/// The text that a quoted string of any length stands for, and none where the given text is no
/// quoted string. The only error is want of memory.
pub fn unquote(alloc: Global, text: &Text) -> Result<Option<Text>, Memory>
    ensures { IfOk result (λ found. MatchOption found (¬ IsQuoted text.now) (λ value. text.now ≡ quoted value)) }
{
    match behind_quote(text.as_str()) {
        Some(body) => unquote_body(alloc, body),
        None => Ok(None),
    }
}

/// What stands behind the first quote.
fn behind_quote(text: &str) -> Option<&str>
    ensures cases { MatchOption result (¬ IsQuoted text.now) (λ body. text.now ≡ 34 ∷ body.now) }
    ensures utf8 { IfSome result (λ body. IsUtf8 body.now) }
{
    let (first, body) = first_char(text)?;
    if first == '"' { Some(body) } else { None }
}

/// What stands at the front of a quoted string's body.
#[derive(Drop)]
pub(crate) enum Part<'a> {
    /// The quote that ends it, with nothing behind.
    End,
    /// A character of the text that it stands for, and what follows.
    Char(char, &'a str),
    Wrong,
}

/// The text that stands before the last quote.
fn unquote_body(alloc: Global, body: &str) -> Result<Option<Text>, Memory>
    ensures { IfOk result (λ found. MatchOption found (¬ IsBody body.now) (λ value. body.now ≡ escape value ++ 34 ∷ [])) }
{
    let mut value = Text::from_str(alloc, "")?;
    let mut rest = body;
    loop {
        match first_part(rest) {
            Part::End => return Ok(Some(value)),
            Part::Char(c, after) => {
                value.push_char(c)?;
                rest = after;
            }
            Part::Wrong => return Ok(None),
        }
    }
}

fn first_part(body: &str) -> Part<'_>
    ensures { IsPart body.now result }
{
    match first_char(body) {
        None => Part::Wrong,
        Some((first, rest)) => match first {
            '"' => end_part(rest),
            '\\' => escaped_part(rest),
            '\n' => Part::Wrong,
            '\r' => Part::Wrong,
            _ => Part::Char(first, rest),
        },
    }
}

/// The part whose quote stands before the given text.
fn end_part(text: &str) -> Part<'_>
    ensures { IsPart (34 ∷ text.now) result }
{
    if text.is_empty() {
        Part::End
    } else {
        Part::Wrong
    }
}

/// The part whose backslash stands before the given text.
fn escaped_part(text: &str) -> Part<'_>
    ensures { IsPart (92 ∷ text.now) result }
{
    match first_char(text) {
        None => Part::Wrong,
        Some((letter, rest)) => match letter {
            '\\' => Part::Char('\\', rest),
            '"' => Part::Char('"', rest),
            'n' => Part::Char('\n', rest),
            'r' => Part::Char('\r', rest),
            _ => Part::Wrong,
        },
    }
}

/// No two texts have one quoted string: what `unquote` reads from the quoted string of a text is
/// that text.
pub fn quoted_once()
    ensures { QuotedOnce }
{}

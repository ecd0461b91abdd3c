//! The value of a property: a quoted string or a word.
ghost use Rattle.std.specs.Prelude.{◌≡◌, ◌++◌, false, IfOk, OnOk};
ghost use Rattle.yarn_markup.specs.Tags.{ends_quoted, skips_next, quoted_char, quoted, word, value_at};
ghost use Rattle.yarn_markup.specs.Steps.{IsValueAnswer};

use crate::characters::{text_of, word_length};
use std::alloc::Global;
use yarn_base::{Memory, Text};

/// A value, and what follows it.
#[derive(Drop)]
pub(crate) struct ValueRead<'a> {
    pub value: Text,
    pub rest: &'a [char],
}

/// The value at the front.
pub(crate) fn read_value(alloc: Global, text: &[char]) -> Result<Option<ValueRead<'_>>, Memory>
    ensures { IfOk result (IsValueAnswer (value_at text.now)) }
{
    match text {
        ['"', inside @ ..] => read_quoted(alloc, inside),
        _ => read_word(alloc, text),
    }
}

fn read_word(alloc: Global, text: &[char]) -> Result<Option<ValueRead<'_>>, Memory>
    ensures { IfOk result (IsValueAnswer (word text.now)) }
{
    let length = word_length(text);
    if length == 0 {
        return Ok(None);
    }
    let value = text_of(alloc, &text[..length])?;
    Ok(Some(ValueRead {
        value,
        rest: &text[length..],
    }))
}

// The quoted string whose first quote stands before the text.
#[tactic(auto, using(crate::proofs::ReadingLemmas::before_before))]
fn read_quoted(alloc: Global, text: &[char]) -> Result<Option<ValueRead<'_>>, Memory>
    ensures { IfOk result (IsValueAnswer (quoted false text.now)) }
{
    let mut value = Text::from_str(alloc, "")?;
    let mut skips = false;
    let mut rest = text;
    while let [c, behind @ ..] = rest {
        if ends_quoted(skips, *c) {
            return Ok(Some(ValueRead {
                value,
                rest: behind,
            }));
        }
        push_quoted(&mut value, skips, *c)?;
        skips = skips_next(skips, *c);
        rest = behind;
    }
    Ok(None)
}

fn ends_quoted(skips: bool, c: char) -> bool
    ensures { result ≡ ends_quoted skips c }
{
    !skips && c == '"'
}

fn skips_next(skips: bool, c: char) -> bool
    ensures { result ≡ skips_next skips c }
{
    !skips && c == '\\'
}

fn push_quoted(value: &mut Text, skips: bool, c: char) -> Result<(), Memory>
    ensures { OnOk result (value.new ≡ value.old ++ quoted_char skips c) }
{
    match (skips, c) {
        (false, '\\') => Ok(()),
        (false, _) | (true, '"') | (true, '\\') => value.push_char(c),
        (true, _) => {
            value.push_str("\\")?;
            value.push_char(c)
        }
    }
}

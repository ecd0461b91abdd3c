//! The pair for which a line stands (docs/formats.md, Variables file).
ghost use Rattle.std.specs.Prelude.{◌≡◌, IfOk, MatchOption};
ghost use Rattle.yarn_store.specs.Variables.{StandsFor, Spells};
ghost use Rattle.yarn_store.specs.Steps.{IsCut, CanBeCut, IsPairLine, IsPlain, IsShortQuoted, IsValue};

use crate::number::read_number;
use std::alloc::Global;
use yarn_base::{Memory, Text, is_variable};
use yarn_value::{Value, unquote};

/// The most bytes of a text that a variable may have.
const LONGEST_TEXT: usize = 65536;

/// The pair of a line, and none where the line stands for no pair.
pub(crate) fn read_pair(alloc: Global, line: &[u8]) -> Result<Option<(Text, Value)>, Memory>
    ensures { IfOk result (λ found. MatchOption found (¬ IsPairLine line.now) (λ p. StandsFor line.now p)) }
{
    let Some((name, spelled)) = cut(line) else {
        return Ok(None);
    };
    let name = Text::from_str(alloc, name)?;
    if !is_variable(&name) {
        return Ok(None);
    }
    match read_value(alloc, spelled)? {
        Some(value) => Ok(Some((name, value))),
        None => Ok(None),
    }
}

// What stands before and behind ` = `, where the line is UTF-8 and its first space begins that.
fn cut(line: &[u8]) -> Option<(&str, &str)>
    ensures { MatchOption result (¬ CanBeCut line.now) (λ p. IsCut line.now p.0.now p.1.now) }
{
    let Ok(line) = str::from_utf8(line) else {
        return None;
    };
    let Some((name, behind)) = line.split_once(' ') else {
        return None;
    };
    match behind.strip_prefix("= ") {
        Some(spelled) => Some((name, spelled)),
        None => None,
    }
}

// The value that a text spells, and none where it spells no value.
fn read_value(alloc: Global, spelled: &str) -> Result<Option<Value>, Memory>
    ensures { IfOk result (λ found. MatchOption found (¬ IsValue spelled.now) (λ value. Spells spelled.now value)) }
{
    match read_plain(spelled) {
        Some(value) => Ok(Some(value)),
        None => read_quoted(alloc, spelled),
    }
}

// The number or the truth that a text spells.
fn read_plain(spelled: &str) -> Option<Value>
    ensures { MatchOption result (¬ IsPlain spelled.now) (λ value. Spells spelled.now value) }
{
    match spelled {
        "true" => Some(Value::Truth(true)),
        "false" => Some(Value::Truth(false)),
        _ => Some(Value::Number(read_number(spelled)?)),
    }
}

// The text of a quoted string, where it isn't too long.
fn read_quoted(alloc: Global, spelled: &str) -> Result<Option<Value>, Memory>
    ensures { IfOk result (λ found. MatchOption found (¬ IsShortQuoted spelled.now) (λ value. Spells spelled.now value)) }
{
    let spelled = Text::from_str(alloc, spelled)?;
    match unquote(alloc, &spelled)? {
        Some(text) if text.len() <= LONGEST_TEXT => Ok(Some(Value::Str(text))),
        _ => Ok(None),
    }
}

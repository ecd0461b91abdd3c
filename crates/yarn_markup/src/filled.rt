//! The value of a tag in place of each `%` of a text.
ghost use Rattle.std.specs.Prelude.{◌≡◌, ◌++◌, false, nat_eq, IfOk, OnOk};
ghost use Rattle.std.specs.Str.{chars};
ghost use Rattle.yarn_markup.specs.Choice.{filled, filled_char, filled_end};

use crate::characters::characters_of;
use std::alloc::Global;
use yarn_base::{Memory, Text};

/// The text with the value in place of each `%`.
pub(crate) fn filled(alloc: Global, value: &Text, text: &Text) -> Result<Text, Memory>
    ensures { IfOk result (λ own. own ≡ filled value.now false (chars text.now)) }
{
    let characters = characters_of(alloc, text.as_str())?;
    filled_characters(alloc, value, characters.as_slice())
}

fn filled_characters(alloc: Global, value: &Text, characters: &[char]) -> Result<Text, Memory>
    ensures { IfOk result (λ own. own ≡ filled value.now false characters.now) }
{
    let mut own = Text::from_str(alloc, "")?;
    let mut skips = false;
    for c in characters {
        push_filled(&mut own, value, skips, *c)?;
        skips = *c == '\\';
    }
    push_end(&mut own, skips)?;
    Ok(own)
}

fn push_filled(own: &mut Text, value: &Text, skips: bool, c: char) -> Result<(), Memory>
    ensures { OnOk result (own.new ≡ own.old ++ filled_char value.now skips c) }
{
    match (skips, c) {
        (false, '%') => own.push_str(value.as_str()),
        (false, '\\') => Ok(()),
        (false, _) | (true, '%') | (true, '\\') => own.push_char(c),
        (true, _) => {
            own.push_str("\\")?;
            own.push_char(c)
        }
    }
}

fn push_end(own: &mut Text, skips: bool) -> Result<(), Memory>
    ensures { OnOk result (own.new ≡ own.old ++ filled_end skips) }
{
    if skips { own.push_str("\\") } else { Ok(()) }
}

//! The text of `[nomarkup]`, up to its end.
ghost use Rattle.std.specs.Prelude.{◌≡◌, IfOk, MatchOption, None, Some};
ghost use Rattle.yarn_markup.specs.Pieces.{past_end, verbatim};
ghost use Rattle.yarn_markup.specs.Steps.{IsValueAnswer};

use crate::characters::first_in;
use crate::value::ValueRead;
use std::alloc::Global;
use yarn_base::{Memory, Text};

const END: [char; 11] = ['[', '/', 'n', 'o', 'm', 'a', 'r', 'k', 'u', 'p', ']'];

/// The text before the first `[/nomarkup]`, and what follows that.
pub(crate) fn read_verbatim(alloc: Global, text: &[char]) -> Result<Option<ValueRead<'_>>, Memory>
    ensures { IfOk result (IsValueAnswer (verbatim text.now)) }
{
    let mut value = Text::from_str(alloc, "")?;
    let mut rest = text;
    while let Some((c, behind)) = first_in(rest) {
        if let Some(after) = past_end(rest) {
            return Ok(Some(ValueRead { value, rest: after }));
        }
        value.push_char(c)?;
        rest = behind;
    }
    Ok(None)
}

// What follows the `[/nomarkup]` at the front.
fn past_end(text: &[char]) -> Option<&[char]>
    ensures { MatchOption result (past_end text.now ≡ None) (λ rest. past_end text.now ≡ Some rest.now) }
{
    if text.starts_with(&END) {
        Some(&text[END.len()..])
    } else {
        None
    }
}

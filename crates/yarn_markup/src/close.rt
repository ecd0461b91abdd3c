//! Tags that close attributes.
ghost use Rattle.std.specs.Prelude.{◌≡◌, IfOk};
ghost use Rattle.yarn_markup.specs.Tags.{close_name, behind_slash, close_at};
ghost use Rattle.yarn_markup.specs.Steps.{IsCloseAnswer};

use crate::characters::{is_name_in, past_blanks, text_of, word_length};
use crate::tag::past_bracket;
use std::alloc::Global;
use yarn_base::{Memory, Text};

/// The name that a closing tag has, if it has one, and what follows it.
#[derive(Drop)]
pub(crate) struct CloseRead<'a> {
    pub name: Option<Text>,
    pub rest: &'a [char],
}

/// The closing tag whose `[` stands before the text.
pub(crate) fn read_close(alloc: Global, text: &[char]) -> Result<Option<CloseRead<'_>>, Memory>
    ensures { IfOk result (IsCloseAnswer (close_at text.now)) }
{
    match past_blanks(text) {
        ['/', behind @ ..] => read_behind_slash(alloc, past_blanks(behind)),
        _ => Ok(None),
    }
}

fn read_behind_slash(alloc: Global, text: &[char]) -> Result<Option<CloseRead<'_>>, Memory>
    ensures { IfOk result (IsCloseAnswer (behind_slash text.now)) }
{
    match past_bracket(text) {
        Some(rest) => Ok(Some(CloseRead { name: None, rest })),
        None => read_close_name(alloc, text),
    }
}

fn read_close_name(alloc: Global, text: &[char]) -> Result<Option<CloseRead<'_>>, Memory>
    ensures { IfOk result (IsCloseAnswer (close_name text.now)) }
{
    let length = word_length(text);
    let name = &text[..length];
    if !is_name_in(name) {
        return Ok(None);
    }
    match past_bracket(past_blanks(&text[length..])) {
        Some(rest) => {
            let own = text_of(alloc, name)?;
            Ok(Some(CloseRead {
                name: Some(own),
                rest,
            }))
        }
        None => Ok(None),
    }
}

//! What a line is in a body.
ghost use Rattle.std.specs.Prelude.{◌≡◌, IfOk, IsUtf8};
ghost use Rattle.yarn_items.specs.Simple.{is_simple};
ghost use Rattle.yarn_items.specs.Body.{body_found};

use crate::command::read_command_line;
use crate::item::{Found, Item};
use crate::line::read_line;
use crate::literals::bare;
use crate::offer::read_offer;
use crate::special::has_special;
use std::alloc::Global;
use yarn_base::Memory;
use yarn_lines::without_blanks;

/// Whether the text is a line of a body by itself, with no substitution, no hashtag, no pair and no blanks around it, as
/// most lines are. `plain_lines_are_said` tells what is found of it.
pub fn is_plain(text: &str) -> bool
    ensures { result ≡ is_simple text.now }
{
    is_simple_in(text.as_bytes())
}

fn is_simple_in(text: &[u8]) -> bool
    ensures { result ≡ is_simple text.now }
{
    !has_special(text)
        && !text.starts_with(b"->")
        && text != b"===".as_slice()
        && !text.is_empty()
        && without_blanks(text).len() == text.len()
}

/// The item of a text without a carriage return.
pub(crate) fn read_body(alloc: Global, text: &[u8]) -> Result<Option<Found>, Memory>
    requires { IsUtf8 text.now }
    ensures { IfOk result (λ found. found ≡ body_found text.now) }
{
    if text == b"===".as_slice() {
        Ok(bare(Item::NodeEnds))
    } else if let Some(bytes) = text.strip_prefix(b"->") {
        read_offer(alloc, bytes)
    } else if let Some(bytes) = text.strip_prefix(b"<<") {
        read_command_line(alloc, bytes)
    } else {
        read_line(alloc, text)
    }
}

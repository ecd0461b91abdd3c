//! A line that is said.
ghost use Rattle.std.specs.Prelude.{◌≡◌, IfOk, IsUtf8, Some};
ghost use Rattle.yarn_items.specs.Body.{is_no_text, line_with, line_behind, line_found};

use crate::hashtags::{has_fine_ids_in, tags_in};
use crate::item::{Found, Item, Literals, Said};
use crate::text::{TextRead, read_text};
use std::alloc::Global;
use yarn_base::Memory;

/// The line of a text that is neither an option nor a command.
pub(crate) fn read_line(alloc: Global, text: &[u8]) -> Result<Option<Found>, Memory>
    requires { IsUtf8 text.now }
    ensures { IfOk result (λ found. found ≡ line_found text.now) }
{
    match read_text(alloc, text)? {
        Some(read) => read_line_of(alloc, read),
        None => Ok(None),
    }
}

fn read_line_of(alloc: Global, read: TextRead) -> Result<Option<Found>, Memory>
    requires { IsUtf8 read.rest.now }
    ensures { IfOk result (λ found. found ≡ line_behind read.entry.text read.entry.holes read.entry.literals read.entry.rest.now) }
{
    if is_no_text_in(read.text.as_str()) {
        return Ok(None);
    }
    match tags_in(alloc, read.rest)? {
        Some(tags) => {
            let said = Said {
                text: read.text,
                holes: read.holes,
                tags,
            };
            Ok(line_of(said, read.literals))
        }
        None => Ok(None),
    }
}

// Whether no line has this text.
fn is_no_text_in(own: &str) -> bool
    ensures { result ≡ is_no_text own.now }
{
    own.is_empty() || own == "==="
}

// The line, where it can have its hashtags.
fn line_of(said: Said, literals: Literals) -> Option<Found>
    ensures { result ≡ line_with said.text said.holes literals (Some said.tags) }
{
    if has_fine_ids_in(said.tags.as_slice()) {
        Some(Found {
            item: Item::Line(said),
            literals,
        })
    } else {
        None
    }
}

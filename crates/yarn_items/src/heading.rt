//! What a line is among headers.
ghost use Rattle.std.specs.Prelude.{◌≡◌, ◌≤◌, length, IfOk, IsUtf8};
ghost use Rattle.yarn_items.specs.Heading.{length_to_colon, header_with, header_found, is_file_tag, file_tag_found, tag_or_header, heading_found};

use crate::bytes::{copied, name_in};
use crate::hashtags::are_tag_bytes;
use crate::item::{Found, Header, Item};
use crate::literals::bare;
use std::alloc::Global;
use yarn_base::{Memory, Text};
use yarn_lines::{without_blanks, without_blanks_behind};

/// The item of a text without a carriage return.
pub(crate) fn read_heading(alloc: Global, text: &[u8]) -> Result<Option<Found>, Memory>
    requires { IsUtf8 text.now }
    ensures { IfOk result (λ found. found ≡ heading_found text.now) }
{
    if text == b"---".as_slice() {
        Ok(bare(Item::BodyBegins))
    } else if text == b"===".as_slice() {
        Ok(bare(Item::NodeEnds))
    } else {
        read_tag_or_header(alloc, text)
    }
}

fn read_tag_or_header(alloc: Global, text: &[u8]) -> Result<Option<Found>, Memory>
    requires { IsUtf8 text.now }
    ensures { IfOk result (λ found. found ≡ tag_or_header text.now) }
{
    if !text.is_empty() && text[0] == b'#' {
        read_file_tag(alloc, &text[1..])
    } else {
        read_header(alloc, text)
    }
}

// The file tag with that text behind its `#`.
fn read_file_tag(alloc: Global, tag: &[u8]) -> Result<Option<Found>, Memory>
    requires { IsUtf8 tag.now }
    ensures { IfOk result (λ found. found ≡ file_tag_found tag.now) }
{
    if is_file_tag_in(tag) {
        Ok(bare(Item::FileTag(copied(alloc, tag)?)))
    } else {
        Ok(None)
    }
}

fn is_file_tag_in(tag: &[u8]) -> bool
    ensures { result ≡ is_file_tag tag.now }
{
    !tag.is_empty() && are_tag_bytes(tag)
}

fn read_header(alloc: Global, text: &[u8]) -> Result<Option<Found>, Memory>
    requires { IsUtf8 text.now }
    ensures { IfOk result (λ found. found ≡ header_found text.now) }
{
    let colon = first_colon(text);
    if colon < text.len() {
        let key = without_blanks_behind(&text[..colon]);
        read_header_with(alloc, key, without_blanks(&text[colon + 1..]))
    } else {
        Ok(None)
    }
}

fn read_header_with(alloc: Global, key: &[u8], value: &[u8]) -> Result<Option<Found>, Memory>
    requires { IsUtf8 value.now }
    ensures { IfOk result (λ found. found ≡ header_with key.now value.now) }
{
    match name_in(key) {
        Some(name) => {
            let key = Text::from_str(alloc, name)?;
            let value = copied(alloc, value)?;
            Ok(bare(Item::Header(Header { key, value })))
        }
        None => Ok(None),
    }
}

// The place of the first `:`, and of the end where there is none.
fn first_colon(text: &[u8]) -> usize
    ensures value { result ≡ length_to_colon text.now }
    ensures within { result ≤ length text.now }
{
    for (at, byte) in text.iter().enumerate() {
        if *byte == b':' {
            return at;
        }
    }
    text.len()
}

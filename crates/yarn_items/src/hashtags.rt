//! The hashtags behind the text of a line or a jump, and whether a line can have these.
ghost use Rattle.std.specs.Prelude.{◌≡◌, ◌≤◌, ◌++◌, [], ◌∷◌, length, IfOk, OnOk, IsUtf8};
ghost use Rattle.std.specs.List.{list_all};
ghost use Rattle.yarn_lines.specs.Lines.{past_leading};
ghost use Rattle.yarn_items.specs.Text.{is_tag_byte, is_id, has_fine_ids};
ghost use Rattle.yarn_items.specs.Hashtags.{tag_length, tags_of};
ghost use Rattle.yarn_items.specs.Step.{ends_line, IsStep};

use crate::bytes::copied;
use std::alloc::Global;
use yarn_base::{List, Memory, Text};
use yarn_lines::without_blanks_before;

/// What stands at the front of the bytes behind a text.
enum Step<'a> {
    /// A hashtag, and what follows it.
    Tag(&'a [u8], &'a [u8]),
    /// The end of the line, or a comment.
    End,
    /// Something that is neither.
    Other,
}

/// The hashtags, without their `#`, where the bytes are hashtags, blanks and a comment.
pub(crate) fn tags_in(alloc: Global, bytes: &[u8]) -> Result<Option<List<Text>>, Memory>
    requires { IsUtf8 bytes.now }
    ensures { IfOk result (λ tags. tags ≡ tags_of bytes.now) }
{
    let mut tags = List::new(alloc);
    let mut rest = bytes;
    loop {
        match step_in(rest) {
            Step::Tag(own, behind) => {
                push_tag(alloc, &mut tags, own)?;
                rest = behind;
            }
            Step::End => return Ok(Some(tags)),
            Step::Other => return Ok(None),
        }
    }
}

fn step_in(bytes: &[u8]) -> Step
    requires { IsUtf8 bytes.now }
    ensures { IsStep bytes.now result }
{
    step_at(without_blanks_before(bytes))
}

// The same where no blank stands at the front.
fn step_at(bytes: &[u8]) -> Step
    requires utf8 { IsUtf8 bytes.now }
    requires solid { past_leading bytes.now ≡ bytes.now }
    ensures { IsStep bytes.now result }
{
    if ends_line_in(bytes) {
        Step::End
    } else if bytes[0] == b'#' {
        tag_in(&bytes[1..])
    } else {
        Step::Other
    }
}

// Whether the line ends there, or a comment begins.
fn ends_line_in(bytes: &[u8]) -> bool
    ensures { result ≡ ends_line bytes.now }
{
    bytes.is_empty() || bytes.starts_with(b"//")
}

// The hashtag with that text behind its `#`.
fn tag_in(behind: &[u8]) -> Step
    requires { IsUtf8 behind.now }
    ensures { IsStep (35 ∷ behind.now) result }
{
    let length = tag_length_in(behind);
    if length == 0 {
        Step::Other
    } else {
        Step::Tag(&behind[..length], &behind[length..])
    }
}

// How many bytes of a hashtag stand at the front.
fn tag_length_in(bytes: &[u8]) -> usize
    ensures value { result ≡ tag_length bytes.now }
    ensures within { result ≤ length bytes.now }
{
    for (at, byte) in bytes.iter().enumerate() {
        if !is_tag_byte_in(*byte) {
            return at;
        }
    }
    bytes.len()
}

/// Whether a hashtag can have all these bytes.
pub(crate) fn are_tag_bytes(bytes: &[u8]) -> bool
    ensures { result ≡ list_all is_tag_byte bytes.now }
{
    bytes.iter().all(|byte| is_tag_byte_in(*byte))
}

fn is_tag_byte_in(byte: u8) -> bool
    ensures { result ≡ is_tag_byte byte }
{
    byte != b' ' && byte != b'\t' && byte != b'#'
}

fn push_tag(alloc: Global, tags: &mut List<Text>, own: &[u8]) -> Result<(), Memory>
    requires { IsUtf8 own.now }
    ensures { OnOk result (tags.new ≡ tags.old ++ own.now ∷ []) }
{
    let tag = copied(alloc, own)?;
    tags.push(tag).map_err(|_| Memory)?;
    Ok(())
}

/// Whether at most one of the hashtags gives the line an id, and that one isn't `line:` alone.
pub(crate) fn has_fine_ids_in(tags: &[Text]) -> bool
    ensures { result ≡ has_fine_ids tags.now }
{
    let mut has_id = false;
    for tag in tags {
        if is_id_in(tag) {
            if has_id || tag.as_str() == "line:" {
                return false;
            }
            has_id = true;
        }
    }
    true
}

// Whether the hashtag gives its line an id.
fn is_id_in(tag: &Text) -> bool
    ensures { result ≡ is_id tag.now }
{
    tag.as_str().as_bytes().starts_with(b"line:")
}

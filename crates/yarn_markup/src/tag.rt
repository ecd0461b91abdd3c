//! What stands between the brackets of a tag that closes nothing.
ghost use Rattle.std.specs.Prelude.{◌≡◌, IfOk, MatchOption, None, Some};
ghost use Rattle.yarn_markup.specs.Tags.{head_at, head_of, assigned, end_at, past_bracket};
ghost use Rattle.yarn_markup.specs.Steps.{IsHead, IsHeadAnswer, IsTagAnswer, IsFurtherAnswer};

use crate::Property;
use crate::characters::{is_name_in, past_blanks, text_of, word_length};
use crate::property::{push_property, read_assigned, read_properties};
use std::alloc::Global;
use yarn_base::{List, Memory, Text};

/// The name of a tag, and its properties. The first of them is that of the shorthand, where it has one.
#[derive(Drop)]
pub(crate) struct Tag {
    pub name: Text,
    pub properties: List<Property>,
    pub shorthand: bool,
}

/// A tag, whether `/` stands before its `]`, and what follows it.
#[derive(Drop)]
pub(crate) struct TagRead<'a> {
    pub tag: Tag,
    pub lone: bool,
    pub rest: &'a [char],
}

/// The name of a tag with its shorthand, and what follows it.
#[derive(Drop)]
pub(crate) struct HeadRead<'a> {
    pub name: Text,
    pub properties: List<Property>,
    pub shorthand: bool,
    pub rest: &'a [char],
}

/// How a tag ends, and what follows it.
#[derive(Clone, Copy)]
pub(crate) struct End<'a> {
    pub lone: bool,
    pub rest: &'a [char],
}

/// The tag whose `[` stands before the text.
pub(crate) fn read_tag(alloc: Global, text: &[char]) -> Result<Option<TagRead<'_>>, Memory>
    ensures { IfOk result (IsTagAnswer text.now) }
{
    match read_head(alloc, past_blanks(text))? {
        Some(head) => read_further(alloc, head),
        None => Ok(None),
    }
}

// The tag behind its name.
fn read_further(alloc: Global, head: HeadRead<'_>) -> Result<Option<TagRead<'_>>, Memory>
    ensures { IfOk result (IsFurtherAnswer head.entry) }
{
    let HeadRead {
        name,
        mut properties,
        shorthand,
        rest,
    } = head;
    let behind = read_properties(alloc, &mut properties, rest)?;
    match tag_end(behind) {
        Some(end) => Ok(Some(TagRead {
            tag: Tag {
                name,
                properties,
                shorthand,
            },
            lone: end.lone,
            rest: end.rest,
        })),
        None => Ok(None),
    }
}

fn read_head(alloc: Global, text: &[char]) -> Result<Option<HeadRead<'_>>, Memory>
    ensures { IfOk result (IsHeadAnswer (head_at text.now)) }
{
    let length = word_length(text);
    let name = &text[..length];
    if is_name_in(name) {
        let head = named_head(alloc, name, &text[length..])?;
        Ok(Some(head))
    } else {
        Ok(None)
    }
}

fn named_head<'a>(alloc: Global, name: &[char], text: &'a [char]) -> Result<HeadRead<'a>, Memory>
    ensures { IfOk result (IsHead (head_of name.now text.now (assigned name.now text.now))) }
{
    let own = text_of(alloc, name)?;
    let mut properties = List::new(alloc);
    match read_assigned(alloc, name, text)? {
        Some(read) => {
            push_property(&mut properties, read.property)?;
            Ok(HeadRead {
                name: own,
                properties,
                shorthand: true,
                rest: read.rest,
            })
        }
        None => Ok(HeadRead {
            name: own,
            properties,
            shorthand: false,
            rest: text,
        }),
    }
}

fn tag_end(text: &[char]) -> Option<End<'_>>
    ensures { MatchOption result (end_at text.now ≡ None) (λ end. end_at text.now ≡ Some (record { lone = end.lone; rest = end.rest.now })) }
{
    match past_blanks(text) {
        ['/', behind @ ..] => Some(End {
            lone: true,
            rest: past_bracket(past_blanks(behind))?,
        }),
        rest => Some(End {
            lone: false,
            rest: past_bracket(rest)?,
        }),
    }
}

/// What follows the `]` at the front.
pub(crate) fn past_bracket(text: &[char]) -> Option<&[char]>
    ensures { MatchOption result (past_bracket text.now ≡ None) (λ rest. past_bracket text.now ≡ Some rest.now) }
{
    match text {
        [']', rest @ ..] => Some(rest),
        _ => None,
    }
}

//! The attribute `character` over the name of who speaks, at the front of a text.
ghost use Rattle.std.specs.Prelude.{◌≡◌, ◌≤◌, length, IfOk, MatchOption, None, Some};
ghost use Rattle.yarn_markup.specs.Characters.{is_blank as blank, run_length};
ghost use Rattle.yarn_markup.specs.Attributes.{is_speaker, begins_blank, past_colon, character_at, character_with};

use crate::characters::{is_blank, text_of};
use crate::property::push_property;
use crate::slot::push_attribute;
use crate::{Attribute, Property};
use std::alloc::Global;
use yarn_base::{List, Memory, Text};

/// The attribute, where the text begins with a name, a colon and a blank.
pub(crate) fn read_character(alloc: Global, text: &[char]) -> Result<List<Attribute>, Memory>
    ensures { IfOk result (λ all. all ≡ character_at text.now) }
{
    let length = name_length(text);
    if length == 0 {
        return Ok(List::new(alloc));
    }
    match past_colon(&text[length..]) {
        Some(behind) => character(alloc, &text[..length], behind),
        None => Ok(List::new(alloc)),
    }
}

fn character(alloc: Global, name: &[char], behind: &[char]) -> Result<List<Attribute>, Memory>
    ensures { IfOk result (λ all. all ≡ character_with name.now (Some behind.now)) }
{
    let mut properties = List::new(alloc);
    let property = Property {
        name: Text::from_str(alloc, "name")?,
        value: text_of(alloc, name)?,
    };
    push_property(&mut properties, property)?;
    let attribute = Attribute {
        name: Text::from_str(alloc, "character")?,
        start: 0,
        length: (name.len() + 1 + blanks_length(behind)) as u64,
        properties,
    };
    let mut all = List::new(alloc);
    push_attribute(&mut all, attribute)?;
    Ok(all)
}

// What follows the colon at the front, where that is a blank.
fn past_colon(text: &[char]) -> Option<&[char]>
    ensures { MatchOption result (past_colon text.now ≡ None) (λ rest. past_colon text.now ≡ Some rest.now) }
{
    match text {
        [':', rest @ ..] if begins_blank(rest) => Some(rest),
        _ => None,
    }
}

fn begins_blank(text: &[char]) -> bool
    ensures { result ≡ begins_blank text.now }
{
    match text {
        [c, ..] => is_blank(*c),
        [] => false,
    }
}

// How many characters stand before a `:`, `[`, `]` or `\`.
fn name_length(text: &[char]) -> usize
    ensures value { result ≡ run_length is_speaker text.now }
    ensures within { result ≤ length text.now }
{
    for (at, c) in text.iter().enumerate() {
        if !is_speaker(*c) {
            return at;
        }
    }
    text.len()
}

fn is_speaker(c: char) -> bool
    ensures { result ≡ is_speaker c }
{
    !(c == ':' || c == '[' || c == ']' || c == '\\')
}

fn blanks_length(text: &[char]) -> usize
    ensures value { result ≡ run_length blank text.now }
    ensures within { result ≤ length text.now }
{
    for (at, c) in text.iter().enumerate() {
        if !is_blank(*c) {
            return at;
        }
    }
    text.len()
}

//! Reads a text with markup.
ghost use Rattle.std.specs.Prelude.{◌≡◌, ◌≤◌, length};
ghost use Rattle.std.specs.Str.{chars};
ghost use Rattle.std.specs.List.{list_all};
ghost use Rattle.yarn_markup.specs.Plain.{is_ordinary};
ghost use Rattle.yarn_markup.specs.Markup.{ReadsMarkup};

use crate::character::read_character;
use crate::characters::characters_of;
use crate::piece::read_piece;
use crate::reading::Reading;
use crate::{Marked, MarkupFault};
use std::alloc::Global;
use yarn_base::{List, Text};
use yarn_plural::PluralTable;

/// The plain text and the attributes of a text with markup, or the first fault from the left (docs/language.md,
/// Markup). The plural rules choose the texts of `plural` and `ordinal`. The text has at most 1,073,741,824 bytes.
/// `BadMarkup` and `NoChoice` tell the place of the fault, in Unicode scalar values of the text from 0; where nothing
/// else is wrong, `BadMarkup` is the place of the first attribute that is left open. `Memory` is want of memory.
pub fn read_markup(alloc: Global, text: &Text, plural: &PluralTable) -> Result<Marked, MarkupFault>
    requires { length text.now ≤ 1073741824 }
    ensures { ReadsMarkup plural.now (chars text.now) result }
{
    if is_ordinary(text.as_str()) {
        return Ok(Marked {
            plain: text.copy()?,
            attributes: List::new(alloc),
        });
    }
    let characters = characters_of(alloc, text.as_str())?;
    read_characters(alloc, characters.as_slice(), plural)
}

// Whether no character of the text can be markup or end the name of who speaks.
fn is_ordinary(text: &str) -> bool
    ensures { result ≡ list_all is_ordinary (chars text.now) }
{
    text.chars().all(|c| c != '[' && c != '\\' && c != ':')
}

fn read_characters(
    alloc: Global,
    text: &[char],
    plural: &PluralTable,
) -> Result<Marked, MarkupFault>
    requires { length text.now ≤ 1073741824 }
    ensures { ReadsMarkup plural.now text.now result }
{
    let character = read_character(alloc, text)?;
    let mut reading = Reading::new(alloc, character)?;
    let mut rest = text;
    while !rest.is_empty() {
        let at = (text.len() - rest.len()) as u32;
        let Some(read) = read_piece(alloc, plural, rest)? else {
            return Err(MarkupFault::BadMarkup(at));
        };
        if let Err(fault) = reading.take(alloc, at, read.piece) {
            return Err(fault);
        }
        rest = read.rest;
    }
    reading.finish()
}

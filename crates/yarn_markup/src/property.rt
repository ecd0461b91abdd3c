//! The properties of a tag.
ghost use Rattle.std.specs.Prelude.{◌≡◌, ◌++◌, ◌∷◌, [], IfOk, OnOk};
ghost use Rattle.yarn_markup.specs.Tags.{assigned, with_value, value_at, named_property, property_at};
ghost use Rattle.yarn_markup.specs.Steps.{IsPropertyAnswer, AddsProperties};

use crate::Property;
use crate::characters::{is_blank, is_property_name_in, past_blanks, text_of, word_length};
use crate::value::read_value;
use std::alloc::Global;
use yarn_base::{List, Memory};

/// A property, and what follows it.
#[derive(Drop)]
pub(crate) struct PropertyRead<'a> {
    pub property: Property,
    pub rest: &'a [char],
}

/// Puts all properties at the front into the list. The answer is what follows them.
pub(crate) fn read_properties<'a>(
    alloc: Global,
    properties: &mut List<Property>,
    text: &'a [char],
) -> Result<&'a [char], Memory>
    ensures { IfOk result (λ rest. AddsProperties text.now properties.old properties.new rest.now) }
{
    let mut rest = text;
    loop {
        match read_property(alloc, rest)? {
            Some(read) => {
                push_property(properties, read.property)?;
                rest = read.rest;
            }
            None => return Ok(rest),
        }
    }
}

pub(crate) fn push_property(
    properties: &mut List<Property>,
    property: Property,
) -> Result<(), Memory>
    ensures { OnOk result (properties.new ≡ properties.old ++ property ∷ []) }
{
    properties.push(property).map_err(|_| Memory)?;
    Ok(())
}

// The property at the front, with the blanks before it.
fn read_property(alloc: Global, text: &[char]) -> Result<Option<PropertyRead<'_>>, Memory>
    ensures { IfOk result (IsPropertyAnswer (property_at text.now)) }
{
    match text {
        [] => Ok(None),
        [first, behind @ ..] => {
            if is_blank(*first) {
                read_named(alloc, past_blanks(behind))
            } else {
                Ok(None)
            }
        }
    }
}

fn read_named(alloc: Global, text: &[char]) -> Result<Option<PropertyRead<'_>>, Memory>
    ensures { IfOk result (IsPropertyAnswer (named_property text.now)) }
{
    let length = word_length(text);
    let name = &text[..length];
    if is_property_name_in(name) {
        read_assigned(alloc, name, &text[length..])
    } else {
        Ok(None)
    }
}

/// The property of that name, where `=` and a value stand at the front.
pub(crate) fn read_assigned<'a>(
    alloc: Global,
    name: &[char],
    text: &'a [char],
) -> Result<Option<PropertyRead<'a>>, Memory>
    ensures { IfOk result (IsPropertyAnswer (assigned name.now text.now)) }
{
    match text {
        ['=', behind @ ..] => with_value(alloc, name, behind),
        _ => Ok(None),
    }
}

fn with_value<'a>(
    alloc: Global,
    name: &[char],
    text: &'a [char],
) -> Result<Option<PropertyRead<'a>>, Memory>
    ensures { IfOk result (IsPropertyAnswer (with_value name.now (value_at text.now))) }
{
    match read_value(alloc, text)? {
        Some(read) => Ok(Some(PropertyRead {
            property: Property {
                name: text_of(alloc, name)?,
                value: read.value,
            },
            rest: read.rest,
        })),
        None => Ok(None),
    }
}

//! The text that stands in the place of a tag `select`, `plural` or `ordinal`.
ghost use Rattle.std.specs.Prelude.{◌≡◌, IfOk, MatchOption, None, Some, codes};
ghost use Rattle.std.specs.Option.{option_copied};
ghost use Rattle.yarn_value.specs.Operations.{same_text};
ghost use Rattle.yarn_value.specs.Numbers.{signed_number};
ghost use Rattle.yarn_markup.specs.Choice.{named, by_shorthand, choice_of, category_name, selected, counted};
ghost use Rattle.yarn_markup.specs.Steps.{options_of, choice_seen, IsChoiceAnswer};

use crate::Property;
use crate::filled::filled;
use crate::tag::Tag;
use std::alloc::Global;
use yarn_base::{Memory, Text};
use yarn_plural::{Category, Form, PluralTable};
use yarn_value::{Op, OpFault, Value, apply};

/// The value by which a tag chooses, and the properties from which it chooses.
#[derive(Clone, Copy)]
pub(crate) struct ChoiceRead<'a> {
    pub value: &'a Text,
    pub options: &'a [Property],
    /// Whether the first property `value` gives the value, and so is none of the options.
    pub by_value: bool,
}

/// What the tag chooses by, and from what.
pub(crate) fn choice_in(tag: &Tag) -> Option<ChoiceRead<'_>>
    ensures { IsChoiceAnswer (choice_of tag.now) result }
{
    let properties = tag.properties.as_slice();
    match named_in(properties, "value") {
        Some(value) => Some(ChoiceRead {
            value,
            options: properties,
            by_value: true,
        }),
        None => shorthand_in(tag.shorthand, properties),
    }
}

fn shorthand_in(shorthand: bool, properties: &[Property]) -> Option<ChoiceRead<'_>>
    ensures { IsChoiceAnswer (by_shorthand shorthand properties.now) result }
{
    match properties {
        [first, options @ ..] if shorthand => Some(ChoiceRead {
            value: &first.value,
            options,
            by_value: false,
        }),
        _ => None,
    }
}

/// The value of the first property of that name.
fn named_in<'a>(properties: &'a [Property], name: &str) -> Option<&'a Text>
    ensures { option_copied result ≡ named name.now properties.now }
{
    for property in properties {
        if property.name.as_str() == name {
            return Some(&property.value);
        }
    }
    None
}

/// The text that the value chooses.
pub(crate) fn selected_in<'a>(choice: ChoiceRead<'a>) -> Option<&'a Text>
    ensures { option_copied result ≡ selected (choice_seen choice.entry) }
{
    option_in(choice.options, choice.by_value, choice.value.as_str())
}

// The value of the first property of that name, where the first property `value` doesn't count.
fn option_in<'a>(options: &'a [Property], by_value: bool, name: &str) -> Option<&'a Text>
    ensures { option_copied result ≡ named name.now (options_of by_value options.now) }
{
    let mut skips = by_value;
    for property in options {
        if skips && property.name.as_str() == "value" {
            skips = false;
        } else if property.name.as_str() == name {
            return Some(&property.value);
        }
    }
    None
}

/// The text that the category of the number chooses, with the value in place of each `%`.
pub(crate) fn counted_in(
    alloc: Global,
    plural: &PluralTable,
    form: Form,
    choice: ChoiceRead<'_>,
    number: i64,
) -> Result<Option<Text>, Memory>
    ensures { IfOk result (λ text. text ≡ counted plural.now form (choice_seen choice.entry) number) }
{
    let name = name_of(plural.category(number, form));
    match option_in(choice.options, choice.by_value, name) {
        Some(text) => {
            let own = filled(alloc, choice.value, text)?;
            Ok(Some(own))
        }
        None => Ok(None),
    }
}

fn name_of(category: Category) -> &'static str
    ensures { result.now ≡ category_name category }
{
    match category {
        Category::Zero => "zero",
        Category::One => "one",
        Category::Two => "two",
        Category::Few => "few",
        Category::Many => "many",
        Category::Other => "other",
    }
}

/// The number that the value is.
pub(crate) fn number_in(alloc: Global, value: &Text) -> Result<Option<i64>, Memory>
    ensures { IfOk result (λ number. number ≡ signed_number value.now) }
{
    let copy = value.copy()?;
    match apply(alloc, Op::NumberOf, &[Value::Str(copy)]) {
        Ok(Value::Number(number)) => Ok(Some(number)),
        Err(OpFault::Memory) => Err(Memory),
        _ => Ok(None),
    }
}

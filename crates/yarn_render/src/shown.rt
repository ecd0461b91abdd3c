//! The texts of lines and options as they are shown.
ghost use Rattle.std.specs.Prelude.{◌≡◌, ◌++◌, IfOk, OnOk, codes};
ghost use Rattle.std.specs.List.{list_all};
ghost use Rattle.std.specs.Str.{chars};
ghost use Rattle.yarn_markup.specs.Plain.{is_ordinary};
ghost use Rattle.yarn_render.specs.Marks.{ended};
ghost use Rattle.yarn_render.specs.Renders.{HasText, Shows, ShowsUnder, marks_text};
ghost use Rattle.yarn_render.specs.Steps.{IsFilled, Puts};

use crate::attribute::push_attributes;
use std::alloc::Global;
use yarn_base::{List, Memory, Text};
use yarn_markup::{Marked, MarkupFault, read_markup};
use yarn_plural::PluralTable;
use yarn_table::StringTable;
use yarn_value::{Value, expand};

// The most bytes of a text of which `read_markup` reads the markup.
const TEXT_LIMIT: usize = 1073741824;

/// What an id with these values is shown as. A text that can have no markup takes no further memory.
pub(crate) fn shown_under(
    alloc: Global,
    id: &Text,
    values: &List<Value>,
    table: &StringTable,
    plural: &PluralTable,
    marks: bool,
) -> Result<Text, Memory>
    requires { HasText table.now id.now values.now }
    ensures { IfOk result (λ shown. ShowsUnder table.now plural.now marks id.now values.now shown) }
{
    let text = filled(alloc, id, values, table)?;
    if is_ordinary(text.as_str()) {
        return ended_with_lf(text);
    }
    let mut shown = Text::from_str(alloc, "")?;
    push_shown(alloc, &mut shown, &text, plural, marks)?;
    Ok(shown)
}

/// Puts what an id with these values is shown as behind the text.
pub(crate) fn push_under(
    alloc: Global,
    out: &mut Text,
    id: &Text,
    values: &List<Value>,
    table: &StringTable,
    plural: &PluralTable,
    marks: bool,
) -> Result<(), Memory>
    requires { HasText table.now id.now values.now }
    ensures { OnOk result (Puts (ShowsUnder table.now plural.now marks id.now values.now) out.old out.new) }
{
    let text = filled(alloc, id, values, table)?;
    push_shown(alloc, out, &text, plural, marks)?;
    Ok(())
}

// The template of the id with the values put in.
fn filled(
    alloc: Global,
    id: &Text,
    values: &List<Value>,
    table: &StringTable,
) -> Result<Text, Memory>
    requires { HasText table.now id.now values.now }
    ensures { IfOk result (λ text. IsFilled table.now id.now values.now text) }
{
    match table.text(id) {
        Some(template) => expand(alloc, template, values),
        None => unreachable!(),
    }
}

// Whether no character of the text can be markup or end the name of who speaks.
fn is_ordinary(text: &str) -> bool
    ensures { result ≡ list_all is_ordinary (chars text.now) }
{
    text.chars().all(|c| c != '[' && c != '\\' && c != ':')
}

fn ended_with_lf(mut text: Text) -> Result<Text, Memory>
    ensures { IfOk result (λ line. line ≡ ended text) }
{
    text.push_str("\n")?;
    Ok(text)
}

// Puts a text as it is shown behind the text.
fn push_shown(
    alloc: Global,
    out: &mut Text,
    text: &Text,
    plural: &PluralTable,
    marks: bool,
) -> Result<(), Memory>
    ensures { OnOk result (Puts (Shows plural.now marks text.now) out.old out.new) }
{
    if text.len() > TEXT_LIMIT {
        return Err(Memory);
    }
    match read_markup(alloc, text, plural) {
        Ok(marked) => push_marked(alloc, out, &marked, marks),
        Err(MarkupFault::BadMarkup(_)) => push_refused(out, text),
        Err(MarkupFault::NoChoice(_)) => push_refused(out, text),
        Err(MarkupFault::Memory) => Err(Memory),
    }
}

fn push_marked(alloc: Global, out: &mut Text, marked: &Marked, marks: bool) -> Result<(), Memory>
    ensures { OnOk result (out.new ≡ out.old ++ (ended marked.now.plain ++ marks_text marks marked.now.attributes)) }
{
    out.push_str(marked.plain.as_str())?;
    out.push_str("\n")?;
    if marks {
        push_attributes(alloc, out, marked.attributes.as_slice())?;
    }
    Ok(())
}

fn push_refused(out: &mut Text, text: &Text) -> Result<(), Memory>
    ensures { OnOk result (out.new ≡ out.old ++ ended (codes "[?] " ++ text.now)) }
{
    out.push_str("[?] ")?;
    out.push_str(text.as_str())?;
    out.push_str("\n")
}

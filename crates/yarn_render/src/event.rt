//! What is written of an event.
ghost use Rattle.std.specs.Prelude.{◌≡◌, ◌++◌, All, IfOk, OnOk, codes};
ghost use Rattle.yarn_render.specs.Marks.{ended};
ghost use Rattle.yarn_render.specs.Renders.{HasText, HasTexts, Renders, ShowsOptions, option_start};
ghost use Rattle.yarn_render.specs.Steps.{Puts};

use crate::shown::{push_under, shown_under};
use std::alloc::Global;
use yarn_base::{Memory, Text};
use yarn_code::{Choice, Event};
use yarn_plural::PluralTable;
use yarn_table::StringTable;

/// What is written of an event: its part of the transcript (docs/language.md, The transcript).
///
/// A line or an option is written as the table's text of its id, with the values put in and the markup read; options count
/// from 1. With `marks`, a line for each attribute follows each such text; its start and its length are in Unicode scalar
/// values of the plain text. Each line of what is written ends with LF.
///
/// The table has each id of the event, with as many holes as there are values. The only error is want of memory. A text
/// that has more than 1,073,741,824 bytes with its values put in may be answered so too.
pub fn render(
    alloc: Global,
    event: &Event,
    table: &StringTable,
    plural: &PluralTable,
    marks: bool,
) -> Result<Text, Memory>
    requires { HasTexts table.now event.now }
    ensures { IfOk result (λ text. Renders table.now plural.now marks event.now text) }
{
    match event {
        Event::Line(id, values) => shown_under(alloc, id, values, table, plural, marks),
        Event::Options(choices) => options_text(alloc, choices.as_slice(), table, plural, marks),
        Event::Rejected => Text::from_str(alloc, "(no such choice)\n"),
        Event::Command(command) => command_text(alloc, command),
        Event::NodeStart(_) | Event::NodeEnd(_) | Event::End => Text::from_str(alloc, ""),
    }
}

fn command_text(alloc: Global, command: &Text) -> Result<Text, Memory>
    ensures { IfOk result (λ text. text ≡ ended (codes "<<" ++ (command.now ++ codes ">>"))) }
{
    let mut text = Text::from_str(alloc, "<<")?;
    text.push_str(command.as_str())?;
    text.push_str(">>\n")?;
    Ok(text)
}

fn options_text(
    alloc: Global,
    choices: &[Choice],
    table: &StringTable,
    plural: &PluralTable,
    marks: bool,
) -> Result<Text, Memory>
    requires { All (λ choice. HasText table.now choice.id choice.values) choices.now }
    ensures { IfOk result (λ text. ShowsOptions table.now plural.now marks 1 choices.now text) }
{
    let mut text = Text::from_str(alloc, "")?;
    push_options(alloc, &mut text, choices, table, plural, marks)?;
    Ok(text)
}

fn push_options(
    alloc: Global,
    out: &mut Text,
    choices: &[Choice],
    table: &StringTable,
    plural: &PluralTable,
    marks: bool,
) -> Result<(), Memory>
    requires { All (λ choice. HasText table.now choice.id choice.values) choices.now }
    ensures { OnOk result (Puts (ShowsOptions table.now plural.now marks 1 choices.now) out.old out.new) }
{
    let mut number = 1u64;
    for choice in choices {
        push_start(alloc, out, number, choice.available)?;
        push_under(alloc, out, &choice.id, &choice.values, table, plural, marks)?;
        number = number.checked_add(1).ok_or(Memory)?;
    }
    Ok(())
}

// What stands before the text of an option.
fn push_start(alloc: Global, out: &mut Text, number: u64, available: bool) -> Result<(), Memory>
    ensures { OnOk result (out.new ≡ out.old ++ option_start number available) }
{
    let start = format!(in alloc; "{number}) ")?;
    out.push_str(start.as_str())?;
    if !available {
        out.push_str("[closed] ")?;
    }
    Ok(())
}

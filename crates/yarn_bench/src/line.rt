//! Writes a plain line, with its markup read, over and over.
ghost use Rattle.std.specs.Prelude.{◌≡◌, IfOk, IsTrue, is_some, true};
ghost use Rattle.yarn_value.specs.Templates.{template_of};
ghost use Rattle.yarn_render.specs.Renders.{HasTexts};

use std::alloc::Global;
use std::io::{self, ErrorKind, Write};
use yarn_base::{List, Memory, Text};
use yarn_code::Event;
use yarn_plural::{PluralTable, english};
use yarn_render::render;
use yarn_table::StringTable;
use yarn_value::{BaseLine, TemplateFault, read_template};

/// Writes the line so many times.
pub(crate) fn write_lines<W: Write>(alloc: Global, count: u32, out: &mut W) -> io::Result<()> {
    let Ok((table, event, plural)) = given(alloc) else {
        return Err(ErrorKind::OutOfMemory.into());
    };
    if !has_texts(&table, &event) {
        return Err(ErrorKind::InvalidInput.into());
    }
    write_events(alloc, count, &event, &table, &plural, out)
}

fn write_events<W: Write>(
    alloc: Global,
    count: u32,
    event: &Event,
    table: &StringTable,
    plural: &PluralTable,
    out: &mut W,
) -> io::Result<()>
    requires { HasTexts table.now event.now }
{
    for _ in 0..count {
        match render(alloc, event, table, plural, false) {
            Ok(text) => out.write_all(text.as_str().as_bytes())?,
            Err(Memory) => return Err(ErrorKind::OutOfMemory.into()),
        }
    }
    Ok(())
}

// A table of one text, the event of that line, and the rules of English.
fn given(alloc: Global) -> Result<(StringTable, Event, PluralTable), Memory> {
    let event = Event::Line(Text::from_str(alloc, "line:a")?, List::new(alloc));
    let text = Text::from_str(alloc, "A short plain line")?;
    Ok((table_of(alloc, text)?, event, english(alloc)?))
}

fn table_of(alloc: Global, text: Text) -> Result<StringTable, Memory> {
    let mut base = List::new(alloc);
    if !is_template(alloc, &text)? {
        return Err(Memory);
    }
    let line = BaseLine {
        id: Text::from_str(alloc, "line:a")?,
        holes: 0,
        text,
        file: 0,
        node: 0,
        line: 1,
    };
    base.push(line).map_err(|_| Memory)?;
    StringTable::from_base(alloc, &base)
}

fn is_template(alloc: Global, text: &Text) -> Result<bool, Memory>
    ensures { IfOk result (λ is. IsTrue is → is_some (template_of text.now 0) ≡ true) }
{
    match read_template(alloc, text, 0) {
        Ok(_) => Ok(true),
        Err(TemplateFault::NotTemplate) => Ok(false),
        Err(TemplateFault::Memory) => Err(Memory),
    }
}

fn has_texts(table: &StringTable, event: &Event) -> bool
    ensures { IsTrue result → HasTexts table.now event.now }
{
    match event {
        Event::Line(id, values) => match table.text(id) {
            Some(template) => template.holes() as usize == values.len(),
            None => false,
        },
        Event::Options(_) => false,
        Event::Rejected | Event::Command(_) => true,
        Event::NodeStart(_) | Event::NodeEnd(_) | Event::End => true,
    }
}

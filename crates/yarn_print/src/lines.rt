//! Writes one line of a body with the blanks before it and its end.
ghost use Rattle.std.specs.Prelude.{◌≡◌, ◌*◌, ◌++◌, OnOk};
ghost use Rattle.yarn_blocks.specs.declared.entry.What.TheVariants as what;
ghost use Rattle.yarn_blocks.specs.declared.entry.Simple.TheVariants as simple;
ghost use Rattle.yarn_blocks.specs.Layout.{at_depth};
ghost use Rattle.yarn_print.specs.Print.{entry_text, content_line, ended, blanks, asked_text, tags_text, wants_blank};

use crate::contents::if_asked;
use crate::texts::{Spelling, write_text};
use std::alloc::Global;
use yarn_base::{List, Memory, Text};
use yarn_blocks::LineText;
use yarn_expr::Expr;

/// A line that is said.
pub(crate) fn write_said(
    alloc: Global,
    out: &mut Text,
    depth: usize,
    text: &LineText,
) -> Result<(), Memory>
    ensures { OnOk result (out.new ≡ out.old ++ entry_text (at_depth depth (what.Statement (simple.Line text.now)))) }
{
    write_blanks(out, depth)?;
    write_text(
        alloc,
        out,
        Spelling::Text,
        text.text.as_str(),
        text.holes.as_slice(),
    )?;
    write_tags(out, &text.tags)?;
    out.push_str("\n")?;
    Ok(())
}

/// The line of an option.
pub(crate) fn write_offer(
    alloc: Global,
    out: &mut Text,
    depth: usize,
    text: &LineText,
    asked: &Option<Expr>,
) -> Result<(), Memory>
    ensures { OnOk result (out.new ≡ out.old ++ entry_text (at_depth depth (what.Offer text.now asked.now))) }
{
    write_blanks(out, depth)?;
    out.push_str("-> ")?;
    write_text(
        alloc,
        out,
        Spelling::Text,
        text.text.as_str(),
        text.holes.as_slice(),
    )?;
    write_asked(alloc, out, asked)?;
    write_tags(out, &text.tags)?;
    out.push_str("\n")?;
    Ok(())
}

/// A command for the game.
pub(crate) fn write_game(
    alloc: Global,
    out: &mut Text,
    depth: usize,
    text: &LineText,
) -> Result<(), Memory>
    ensures { OnOk result (out.new ≡ out.old ++ entry_text (at_depth depth (what.Statement (simple.Command text.now)))) }
{
    let mut content = Text::from_str(alloc, "")?;
    write_text(
        alloc,
        &mut content,
        Spelling::Game,
        text.text.as_str(),
        text.holes.as_slice(),
    )?;
    write_command(out, depth, content.as_str(), &text.tags)
}

/// A command with that content.
pub(crate) fn write_command(
    out: &mut Text,
    depth: usize,
    content: &str,
    tags: &List<Text>,
) -> Result<(), Memory>
    ensures { OnOk result (out.new ≡ out.old ++ ended (blanks (4 * depth) ++ content_line content.now tags.now)) }
{
    write_blanks(out, depth)?;
    out.push_str("<<")?;
    out.push_str(content)?;
    if needs_blank(content.as_bytes()) {
        out.push_str(" ")?;
    }
    out.push_str(">>")?;
    write_tags(out, tags)?;
    out.push_str("\n")?;
    Ok(())
}

/// Whether `>>` right behind the content would be read as a part of it.
fn needs_blank(content: &[u8]) -> bool
    ensures { result ≡ wants_blank content.now }
{
    match content.last() {
        Some(byte) => *byte == b'>' || *byte == b'\\',
        None => false,
    }
}

/// The condition of an option.
fn write_asked(alloc: Global, out: &mut Text, asked: &Option<Expr>) -> Result<(), Memory>
    ensures { OnOk result (out.new ≡ out.old ++ asked_text asked.now) }
{
    match asked {
        None => Ok(()),
        Some(expr) => {
            let content = if_asked(alloc, expr)?;
            out.push_str(" <<")?;
            out.push_str(content.as_str())?;
            out.push_str(">>")?;
            Ok(())
        }
    }
}

fn write_tags(out: &mut Text, tags: &List<Text>) -> Result<(), Memory>
    ensures { OnOk result (out.new ≡ out.old ++ tags_text tags.now) }
{
    for tag in tags.as_slice() {
        out.push_str(" #")?;
        out.push_str(tag.as_str())?;
    }
    Ok(())
}

fn write_blanks(out: &mut Text, depth: usize) -> Result<(), Memory>
    ensures { OnOk result (out.new ≡ out.old ++ blanks (4 * depth)) }
{
    for _ in 0..depth {
        out.push_str("    ")?;
    }
    Ok(())
}

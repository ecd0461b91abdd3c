//! The item of a line.
ghost use Rattle.std.specs.Prelude.{◌≡◌, IfOk};
ghost use Rattle.std.specs.List.{list_any};
ghost use Rattle.yarn_items.specs.Item.{is_cr};
ghost use Rattle.yarn_items.specs.Form.{found_of};
ghost use Rattle.yarn_items.specs.declared.item.Mode.TheVariants.{InHeaders, InBody};

use crate::body::{is_plain, read_body};
use crate::heading::read_heading;
use crate::item::{Found, Item, Mode, Said};
use crate::literals::bare;
use std::alloc::Global;
use yarn_base::{List, Memory, Text};

/// What the line of that mode is; nothing where it is none of the lines of its mode. The text is one of a line that
/// counts, without the blanks around it.
pub fn read_item(alloc: Global, mode: Mode, text: Text) -> Result<Option<Found>, Memory>
    ensures { IfOk result (λ found. found ≡ found_of mode text) }
{
    match mode {
        Mode::InHeaders => read_in_headers(alloc, text.as_str()),
        Mode::InBody => read_in_body(alloc, text),
    }
}

#[tactic(auto, unfolding(crate::specs::Form::found_of))]
fn read_in_headers(alloc: Global, text: &str) -> Result<Option<Found>, Memory>
    ensures { IfOk result (λ found. found ≡ found_of InHeaders text.now) }
{
    if has_cr(text.as_bytes()) {
        Ok(None)
    } else {
        read_heading(alloc, text.as_bytes())
    }
}

// Keeps the text of a line that is its own text, and copies what it takes of the others.
#[tactic(auto, using(crate::proofs::SimpleLemmas::simple_lines))]
fn read_in_body(alloc: Global, text: Text) -> Result<Option<Found>, Memory>
    ensures { IfOk result (λ found. found ≡ found_of InBody text) }
{
    if is_plain(text.as_str()) {
        Ok(bare(Item::Line(Said {
            text,
            holes: List::new(alloc),
            tags: List::new(alloc),
        })))
    } else {
        read_other(alloc, text.as_str())
    }
}

#[tactic(auto, unfolding(crate::specs::Form::found_of))]
fn read_other(alloc: Global, text: &str) -> Result<Option<Found>, Memory>
    ensures { IfOk result (λ found. found ≡ found_of InBody text.now) }
{
    if has_cr(text.as_bytes()) {
        Ok(None)
    } else {
        read_body(alloc, text.as_bytes())
    }
}

fn has_cr(bytes: &[u8]) -> bool
    ensures { result ≡ list_any is_cr bytes.now }
{
    bytes.iter().any(|byte| *byte == b'\r')
}

//! The attributes that were opened so far, in order, some of them still open.
ghost use Rattle.std.specs.Prelude.{◌≡◌, ◌++◌, ◌∷◌, [], map, not, nat_eq, MatchOption, OnOk, IfOk, None, Some};
ghost use Rattle.yarn_markup.specs.Attributes.{is_some_open, left_open};
ghost use Rattle.yarn_markup.specs.Slots.{open_count, open_slots, close_latest, ended_at, length_at};
ghost use Rattle.yarn_markup.specs.Latest.{IsTracked};

use crate::latest::set_latest;
use crate::{Attribute, MarkupFault, Property};
use std::alloc::Global;
use std::collections::BTreeMap;
use std::mem;
use yarn_base::{List, Memory, Text};

/// An attribute, which is open where its length isn't known.
#[derive(Drop)]
pub(crate) struct Slot {
    pub name: Text,
    pub start: u64,
    pub length: Option<u64>,
    pub properties: List<Property>,
    /// The place of its tag in the text.
    pub at: u32,
    /// Where the latest open attribute of its name stood when it was opened.
    pub outer: Option<usize>,
}

/// Closes the latest open attribute of that name, and says whether there was one.
pub(crate) fn close_latest(
    slots: &mut Vec<Slot>,
    latest: &mut BTreeMap<Text, usize>,
    name: &Text,
    now: u64,
) -> Result<bool, Memory>
    requires { IsTracked latest.old slots.old.items }
    ensures found { IfOk result (λ found. found ≡ not (nat_eq (open_count name.now slots.old.items) 0)) }
    ensures closed { OnOk result (slots.new.items ≡ close_latest name.now now slots.old.items) }
    ensures tracked { OnOk result (IsTracked latest.new slots.new.items) }
{
    match latest.get(name).copied() {
        Some(at) => {
            set_latest(latest, name, slots[at].outer)?;
            let start = slots[at].start;
            slots[at].length = Some(now.saturating_sub(start));
            Ok(true)
        }
        None => Ok(false),
    }
}

/// Whether one is open.
pub(crate) fn is_some_open(slots: &[Slot]) -> bool
    ensures { result ≡ is_some_open (open_slots slots.now) }
{
    first_open(slots).is_some()
}

/// The place of the tag of the first that is open.
pub(crate) fn first_open(slots: &[Slot]) -> Option<u32>
    ensures { MatchOption result (left_open (open_slots slots.now) ≡ None) (λ at. left_open (open_slots slots.now) ≡ Some (MarkupFault.BadMarkup at)) }
{
    for slot in slots {
        if slot.length.is_none() {
            return Some(slot.at);
        }
    }
    None
}

/// Takes all, and leaves none.
pub(crate) fn take_all(alloc: Global, slots: &mut Vec<Slot>) -> Vec<Slot>
    ensures all { result.items ≡ slots.old.items }
    ensures none { slots.new.items ≡ [] }
{
    mem::replace(slots, Vec::new(alloc))
}

/// Puts all into the list; those that are open end at that place.
pub(crate) fn end_all(
    slots: Vec<Slot>,
    now: u64,
    attributes: &mut List<Attribute>,
) -> Result<(), Memory>
    ensures { OnOk result (attributes.new ≡ attributes.old ++ map (ended_at now) slots.items) }
{
    for slot in slots {
        push_attribute(attributes, ended(slot, now))?;
    }
    Ok(())
}

fn ended(slot: Slot, now: u64) -> Attribute
    ensures { result ≡ ended_at now slot }
{
    Attribute {
        name: slot.name,
        start: slot.start,
        length: length_at(slot.length, slot.start, now),
        properties: slot.properties,
    }
}

fn length_at(length: Option<u64>, start: u64, now: u64) -> u64
    ensures { result ≡ length_at now start length }
{
    match length {
        Some(length) => length,
        None => now.saturating_sub(start),
    }
}

pub(crate) fn push_attribute(
    attributes: &mut List<Attribute>,
    attribute: Attribute,
) -> Result<(), Memory>
    ensures { OnOk result (attributes.new ≡ attributes.old ++ attribute ∷ []) }
{
    attributes.push(attribute).map_err(|_| Memory)?;
    Ok(())
}

//! What is kept of a text while its pieces are taken in.
ghost use Rattle.std.specs.Prelude.{◌≡◌, ◌++◌, ◌+◌, ◌∷◌, [], IfOk, OnOk, length, ℕ};
ghost use Rattle.std.specs.Str.{chars};
ghost use Rattle.yarn_markup.specs.Slots.{kept, Takes, TakesOr, Finishes};
ghost use Rattle.yarn_markup.specs.Latest.{IsTracked};

use crate::characters::characters_of;
use crate::latest::set_latest;
use crate::piece::Piece;
use crate::slot::{Slot, close_latest, end_all, first_open, is_some_open, take_all};
use crate::tag::Tag;
use crate::{Attribute, Marked, MarkupFault};
use std::alloc::Global;
use std::collections::BTreeMap;
use yarn_base::{List, Memory, Text};

/// The plain text so far, how many characters it has, and its attributes: those before the first that is open, and
/// the others, with where the latest open one of each name stands among these.
#[derive(Drop)]
pub(crate) struct Reading {
    pub plain: Text,
    pub count: u64,
    pub attributes: List<Attribute>,
    pub slots: Vec<Slot>,
    pub latest: BTreeMap<Text, usize>,
}

impl Reading {
    pub(crate) fn new(alloc: Global, before: List<Attribute>) -> Result<Reading, Memory>
        ensures kept { IfOk result (λ reading. kept reading ≡ record { plain = []; count = 0; attributes = before; slots = [] }) }
        ensures tracked { IfOk result (λ reading. IsTracked reading.latest reading.slots.items) }
    {
        Ok(Reading {
            plain: Text::from_str(alloc, "")?,
            count: 0,
            attributes: before,
            slots: Vec::new(alloc),
            latest: BTreeMap::new(alloc),
        })
    }

    /// Takes in the piece at that place of the text, or finds the fault in it.
    pub(crate) fn take(&mut self, alloc: Global, at: u32, piece: Piece) -> Result<(), MarkupFault>
        requires { IsTracked self.old.latest self.old.slots.items }
        ensures taken { TakesOr (kept self.old) at piece (kept self.new) result }
        ensures tracked { OnOk result (IsTracked self.new.latest self.new.slots.items) }
    {
        match piece {
            Piece::Stands(c) => {
                self.stands(c)?;
                Ok(())
            }
            Piece::Opens(tag) => {
                self.opens(at, tag)?;
                Ok(())
            }
            Piece::Lone(tag) => {
                self.lone(at, tag)?;
                Ok(())
            }
            Piece::Closes(name) => self.closes(at, &name),
            Piece::ClosesAll => self.closes_all(alloc, at),
            Piece::Verbatim(text) => {
                self.verbatim(alloc, at, &text)?;
                Ok(())
            }
            Piece::Given(text) => {
                self.shows(alloc, &text)?;
                Ok(())
            }
            Piece::Lacks => Err(MarkupFault::NoChoice(at)),
        }
    }

    fn stands(&mut self, c: char) -> Result<(), Memory>
        requires { IsTracked self.old.latest self.old.slots.items }
        ensures taken { OnOk result ((at : ℕ) → Takes (kept self.old) at (Piece.Stands c) (kept self.new)) }
        ensures tracked { OnOk result (IsTracked self.new.latest self.new.slots.items) }
    {
        self.count = longer(self.count, 1)?;
        self.plain.push_char(c)?;
        Ok(())
    }

    fn shows(&mut self, alloc: Global, text: &Text) -> Result<(), Memory>
        requires { IsTracked self.old.latest self.old.slots.items }
        ensures grown { OnOk result (kept self.new ≡ record { plain = self.old.plain ++ text.now; count = self.old.count + length (chars text.now); attributes = self.old.attributes; slots = self.old.slots.items }) }
        ensures taken { OnOk result ((at : ℕ) → Takes (kept self.old) at (Piece.Given text.now) (kept self.new)) }
        ensures tracked { OnOk result (IsTracked self.new.latest self.new.slots.items) }
    {
        let more = characters_of(alloc, text.as_str())?.len() as u64;
        self.count = longer(self.count, more)?;
        self.plain.push_str(text.as_str())?;
        Ok(())
    }

    fn opens(&mut self, at: u32, tag: Tag) -> Result<(), Memory>
        requires { IsTracked self.old.latest self.old.slots.items }
        ensures taken { OnOk result (Takes (kept self.old) at (Piece.Opens tag) (kept self.new)) }
        ensures tracked { OnOk result (IsTracked self.new.latest self.new.slots.items) }
    {
        let outer = self.latest.get(&tag.name).copied();
        set_latest(&mut self.latest, &tag.name, Some(self.slots.len()))?;
        let slot = Slot {
            name: tag.name,
            start: self.count,
            length: None,
            properties: tag.properties,
            at,
            outer,
        };
        self.slots.push(slot)?;
        Ok(())
    }

    fn lone(&mut self, at: u32, tag: Tag) -> Result<(), Memory>
        requires { IsTracked self.old.latest self.old.slots.items }
        ensures taken { OnOk result (Takes (kept self.old) at (Piece.Lone tag) (kept self.new)) }
        ensures tracked { OnOk result (IsTracked self.new.latest self.new.slots.items) }
    {
        let slot = Slot {
            name: tag.name,
            start: self.count,
            length: Some(0),
            properties: tag.properties,
            at,
            outer: None,
        };
        self.slots.push(slot)?;
        Ok(())
    }

    fn verbatim(&mut self, alloc: Global, at: u32, text: &Text) -> Result<(), Memory>
        requires { IsTracked self.old.latest self.old.slots.items }
        ensures taken { OnOk result (Takes (kept self.old) at (Piece.Verbatim text.now) (kept self.new)) }
        ensures tracked { OnOk result (IsTracked self.new.latest self.new.slots.items) }
    {
        let start = self.count;
        self.shows(alloc, text)?;
        let slot = Slot {
            name: Text::from_str(alloc, "nomarkup")?,
            start,
            length: Some(self.count.saturating_sub(start)),
            properties: List::new(alloc),
            at,
            outer: None,
        };
        self.slots.push(slot)?;
        Ok(())
    }

    fn closes(&mut self, at: u32, name: &Text) -> Result<(), MarkupFault>
        requires { IsTracked self.old.latest self.old.slots.items }
        ensures taken { TakesOr (kept self.old) at (Piece.Closes name.now) (kept self.new) result }
        ensures tracked { OnOk result (IsTracked self.new.latest self.new.slots.items) }
    {
        if close_latest(&mut self.slots, &mut self.latest, name, self.count)? {
            Ok(())
        } else {
            Err(MarkupFault::BadMarkup(at))
        }
    }

    fn closes_all(&mut self, alloc: Global, at: u32) -> Result<(), MarkupFault>
        requires { IsTracked self.old.latest self.old.slots.items }
        ensures taken { TakesOr (kept self.old) at Piece.ClosesAll (kept self.new) result }
        ensures tracked { OnOk result (IsTracked self.new.latest self.new.slots.items) }
    {
        if !is_some_open(self.slots.as_slice()) {
            return Err(MarkupFault::BadMarkup(at));
        }
        self.latest = BTreeMap::new(alloc);
        let slots = take_all(alloc, &mut self.slots);
        end_all(slots, self.count, &mut self.attributes)?;
        Ok(())
    }

    /// The whole, or the first attribute that is left open.
    pub(crate) fn finish(self) -> Result<Marked, MarkupFault>
        ensures { Finishes (kept self) result }
    {
        let Reading {
            plain,
            count,
            mut attributes,
            slots,
            latest: _latest,
        } = self;
        if let Some(at) = first_open(slots.as_slice()) {
            return Err(MarkupFault::BadMarkup(at));
        }
        end_all(slots, count, &mut attributes)?;
        Ok(Marked { plain, attributes })
    }
}

// How many characters there are with so many more. A text of more can't be in memory.
fn longer(count: u64, more: u64) -> Result<u64, Memory>
    ensures { IfOk result (λ sum. sum ≡ count + more) }
{
    count.checked_add(more).ok_or(Memory)
}

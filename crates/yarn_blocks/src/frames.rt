//! The frames that are open, which contracts see as a list with the innermost first.
ghost use Rattle.std.specs.Prelude.{◌≡◌, ◌∷◌, [], OnOk, MatchOption, IsTrue, ◌↔◌, reverse};
ghost use Rattle.std.specs.Option.{option_copied};
ghost use Rattle.yarn_blocks.specs.Frames.{frames_of, frames_in, first_open, ends_frame, least_first, least_over};
ghost use Rattle.yarn_blocks.specs.Reading.{least};

use crate::frame::{Frame, Open};
use std::alloc::Global;
use std::marker::Model;
use yarn_base::Memory;

/// The frames that are open.
#[derive(Drop)]
pub(crate) struct Frames {
    items: Vec<Open>,
}

impl Model for Frames {
    ghost use Rattle.std.specs.Prelude.{List, reverse};
    ghost use Rattle.yarn_blocks.specs.declared.frame.Frame.{Frame};
    ghost use Rattle.yarn_blocks.specs.Frames.{frames_in, LeastsAreRight};
    ghost use Rattle.yarn_blocks.specs.contracts.frame.Frame as frame;
    ghost use Rattle.std.specs.Coded.{coded_list};

    ghost Value = { List Frame };

    ghost coded = { coded_list frame.the_row.coded };

    ghost view = { λ s. frames_in (reverse s.items.items) };

    ghost invariant = { λ s. LeastsAreRight (reverse s.items.items) };
}

/// The last one.
fn last(items: &[Open]) -> Option<&Open>
    ensures { option_copied result ≡ first_open (reverse items.now) }
{
    items.last()
}

/// The least indent within the last one.
fn low_within(items: &[Open]) -> u64
    ensures { result ≡ least_first (reverse items.now) }
{
    match last(items) {
        None => 0,
        Some(open) => open.low,
    }
}

/// The least indent within a frame that is opened where this one is the least.
fn low_in(frame: &Frame, outside: u64) -> u64
    ensures { result ≡ least_over frame.now outside }
{
    match frame {
        Frame::InOption(indent, _, _, _) => u64::from(*indent) + 1,
        Frame::InClause(_, _, _, _) | Frame::InElse(_, _, _) => outside,
    }
}

fn is_none(items: &[Open]) -> bool
    ensures { IsTrue result ↔ (frames_in (reverse items.now) ≡ []) }
{
    last(items).is_none()
}

impl Frames {
    pub(crate) fn new(alloc: Global) -> Frames
        ensures { result ≡ [] }
    {
        Frames {
            items: Vec::new(alloc),
        }
    }

    pub(crate) fn push(&mut self, frame: Frame) -> Result<(), Memory>
        ensures { OnOk result (self.new ≡ frame ∷ self.old) }
    {
        let low = low_in(&frame, low_within(self.items.as_slice()));
        self.items.push(Open { low, frame })?;
        Ok(())
    }

    pub(crate) fn pop(&mut self) -> Option<Frame>
        ensures { MatchOption result ((self.old ≡ []) × (self.new ≡ [])) (λ f. self.old ≡ f ∷ self.new) }
    {
        match self.items.pop() {
            None => None,
            Some(open) => {
                let Open { low: _, frame } = open;
                Some(frame)
            }
        }
    }

    pub(crate) fn is_empty(&self) -> bool
        ensures { IsTrue result ↔ (self.now ≡ []) }
    {
        is_none(self.items.as_slice())
    }

    /// The least indent of a line within what is open.
    pub(crate) fn low(&self) -> u64
        ensures { result ≡ least (frames_of self.now) }
    {
        low_within(self.items.as_slice())
    }

    /// Whether a line with this indent ends the innermost one.
    pub(crate) fn is_ended_by(&self, indent: u32) -> bool
        ensures { result ≡ ends_frame indent self.now }
    {
        match last(self.items.as_slice()) {
            None => false,
            Some(open) => match &open.frame {
                Frame::InOption(within, _, _, _) => indent <= *within,
                Frame::InClause(_, _, _, _) | Frame::InElse(_, _, _) => false,
            },
        }
    }
}

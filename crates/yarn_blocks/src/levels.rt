//! The levels that are open, which contracts see as a list with the innermost first.
ghost use Rattle.std.specs.Prelude.{◌≡◌, ◌∷◌, [], OnOk, MatchOption, length, reverse};
ghost use Rattle.std.specs.Option.{option_copied};
ghost use Rattle.yarn_blocks.specs.Levels.{first_of, levels_in, low_first, low_over, low_of, ends_level};

use crate::level::{Bounded, Level};
use std::alloc::Global;
use std::marker::Model;
use yarn_base::Memory;

/// The levels that are open.
#[derive(Drop)]
pub(crate) struct Levels {
    items: Vec<Bounded>,
}

impl Model for Levels {
    ghost use Rattle.std.specs.Prelude.{List, reverse};
    ghost use Rattle.yarn_blocks.specs.declared.level.Level.{Level};
    ghost use Rattle.yarn_blocks.specs.Levels.{levels_in, LowsAreRight};
    ghost use Rattle.yarn_blocks.specs.contracts.level.Level as level;
    ghost use Rattle.std.specs.Coded.{coded_list};

    ghost Value = { List Level };

    ghost coded = { coded_list level.the_row.coded };

    ghost view = { λ s. levels_in (reverse s.items.items) };

    ghost invariant = { λ s. LowsAreRight (reverse s.items.items) };
}

/// The last one.
fn last(items: &[Bounded]) -> Option<&Bounded>
    ensures { option_copied result ≡ first_of (reverse items.now) }
{
    items.last()
}

/// The least indent within the last one.
fn low_within(items: &[Bounded]) -> u64
    ensures { result ≡ low_first (reverse items.now) }
{
    match last(items) {
        None => 0,
        Some(bounded) => bounded.low,
    }
}

/// The least indent within a level that is opened where this one is the least.
fn low_in(level: Level, outside: u64) -> u64
    ensures { result ≡ low_over level outside }
{
    match level {
        Level::OfOption(indent, _) => u64::from(indent) + 1,
        Level::OfClause | Level::OfElse => outside,
    }
}

fn count(items: &[Bounded]) -> usize
    ensures { result ≡ length (levels_in (reverse items.now)) }
{
    items.len()
}

impl Levels {
    pub(crate) fn new(alloc: Global) -> Levels
        ensures { result ≡ [] }
    {
        Levels {
            items: Vec::new(alloc),
        }
    }

    pub(crate) fn push(&mut self, level: Level) -> Result<(), Memory>
        ensures { OnOk result (self.new ≡ level ∷ self.old) }
    {
        let low = low_in(level, low_within(self.items.as_slice()));
        self.items.push(Bounded { low, level })?;
        Ok(())
    }

    pub(crate) fn pop(&mut self) -> Option<Level>
        ensures { MatchOption result ((self.old ≡ []) × (self.new ≡ [])) (λ level. self.old ≡ level ∷ self.new) }
    {
        match self.items.pop() {
            None => None,
            Some(bounded) => Some(bounded.level),
        }
    }

    pub(crate) fn len(&self) -> usize
        ensures { result ≡ length self.now }
    {
        count(self.items.as_slice())
    }

    /// The least indent of a line within what is open.
    pub(crate) fn low(&self) -> u64
        ensures { result ≡ low_of self.now }
    {
        low_within(self.items.as_slice())
    }

    /// Whether a line with this indent ends the innermost level.
    pub(crate) fn is_ended_by(&self, indent: u32) -> bool
        ensures { result ≡ ends_level indent self.now }
    {
        match last(self.items.as_slice()) {
            None => false,
            Some(bounded) => match bounded.level {
                Level::OfOption(within, _) => indent <= within,
                Level::OfClause | Level::OfElse => false,
            },
        }
    }
}

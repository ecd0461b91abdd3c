//! A list of sets of kinds, which only shrink.
ghost use Rattle.std.specs.Prelude.{◌≡◌, ◌+◌, ◌<◌, length, replicate, slice_set, IfOk};
ghost use Rattle.yarn_types.specs.KindSets.{shared, all_kinds};
ghost use Rattle.yarn_types.specs.Sets.{set_at, change_of, change_of_two};

use crate::KindSet;
use std::alloc::Global;
use std::marker::Model;
use std::sync::ledger::Ledger;
use yarn_base::{Memory, Steps};

/// What narrowing did: nothing, or it took kinds away and left some, or it left none.
#[derive(Clone, Copy, Debug, PartialEq, Eq)]
pub enum Meet {
    Same,
    Narrowed,
    Empty,
}

/// Sets of kinds, which contracts see as their list. Places count from 0.
#[derive(Debug, Drop)]
pub struct Kinds {
    sets: Vec<KindSet>,
}

impl Model for Kinds {
    ghost use Rattle.std.specs.Prelude.{List};
    ghost use Rattle.yarn_types.specs.declared.kind_set.KindSet.{KindSet};

    ghost Value = { List KindSet };

    ghost view = { λ k. k.sets.items };
}

impl Kinds {
    /// So many sets that hold all three kinds.
    pub fn new(alloc: Global, count: usize) -> Result<Kinds, Memory>
        ensures { IfOk result (λ kinds. kinds ≡ replicate count all_kinds) }
    {
        let sets = vec![in alloc; KindSet::ALL; count]?;
        Ok(Kinds { sets })
    }

    /// The set at a place.
    pub fn get(&self, one: usize) -> KindSet
        requires { one < length self.now }
        ensures { result ≡ set_at self.now one }
    {
        self.sets[one]
    }

    /// Narrows one set to the kinds that it shares with those given.
    pub fn keep(&mut self, one: usize, kinds: KindSet) -> Meet
        requires { one < length self.old }
        ensures set { self.new ≡ slice_set self.old one (shared (set_at self.old one) kinds) }
        ensures meet { result ≡ change_of (set_at self.old one) (shared (set_at self.old one) kinds) }
    {
        let old = self.sets[one];
        let new = old.shared_with(kinds);
        self.sets[one] = new;
        if !new.has_some() {
            Meet::Empty
        } else if old == new {
            Meet::Same
        } else {
            Meet::Narrowed
        }
    }

    /// Narrows two sets to the kinds that they share.
    pub fn meet<L: Ledger>(&mut self, one: usize, other: usize, steps: &mut Steps<L>) -> Meet
        requires one { one < length self.old }
        requires other { other < length self.old }
        ensures sets { let both = shared (set_at self.old one) (set_at self.old other) in self.new ≡ slice_set (slice_set self.old one both) other both }
        ensures meet { result ≡ change_of_two (set_at self.old one) (set_at self.old other) (shared (set_at self.old one) (set_at self.old other)) }
        ensures steps { steps.new ≡ steps.old + 1 }
    {
        steps.tick();
        let first = self.sets[one];
        let second = self.sets[other];
        let both = first.shared_with(second);
        self.sets[one] = both;
        self.sets[other] = both;
        if !both.has_some() {
            Meet::Empty
        } else if first == both && second == both {
            Meet::Same
        } else {
            Meet::Narrowed
        }
    }
}

//! The calls of one kind that an object in memory counts, and those of them that are to fail.
ghost use Rattle.std.specs.Prelude.{◌≡◌, ◌++◌, [], ◌∷◌, OnOk, OnErr};
ghost use Rattle.yarn_base.specs.Calls.{one_more, is_to_fail};

use crate::{List, Memory};
use std::alloc::Global;

#[derive(Debug, Drop)]
pub(crate) struct Calls {
    // How many there were; it stays at its last value.
    made: u64,
    // The numbers, from 1, of those that fail.
    failing: List<u64>,
}

impl Calls {
    pub fn new(alloc: Global) -> Calls
        ensures made { result.made ≡ 0 }
        ensures failing { result.failing ≡ [] }
    {
        Calls {
            made: 0,
            failing: List::new(alloc),
        }
    }

    pub fn fail(&mut self, nth: u64) -> Result<(), Memory>
        ensures made { self.new.made ≡ self.old.made }
        ensures ok { OnOk result (self.new.failing ≡ self.old.failing ++ nth ∷ []) }
        ensures err { OnErr result (self.new.failing ≡ self.old.failing) }
    {
        self.failing.push(nth).map_err(|_| Memory)
    }

    // Counts one more call, and says whether it is to fail.
    pub fn next_fails(&mut self) -> bool
        ensures made { self.new.made ≡ one_more self.old.made }
        ensures failing { self.new.failing ≡ self.old.failing }
        ensures value { result ≡ is_to_fail self.old.failing self.old.made }
    {
        self.made = self.made.saturating_add(1);
        self.failing.as_slice().contains(&self.made)
    }
}

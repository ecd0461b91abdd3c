//! The names that were seen, kept in order so that one is found without going over all.
ghost use Rattle.std.specs.Prelude.{◌≡◌, IfOk, OnOk};

use std::alloc::Global;
use std::collections::BTreeMap;
use yarn_base::{Memory, Place};

#[derive(Drop)]
pub(crate) struct Names<'a> {
    map: BTreeMap<&'a str, ()>,
}

impl<'a> Names<'a> {
    ghost use Rattle.yarn_tree.specs.Names.{has, no_name, and_name};

    pub(crate) fn new(alloc: Global) -> Names<'a>
        ensures { has result ≡ no_name }
    {
        Names {
            map: BTreeMap::new(alloc),
        }
    }

    pub(crate) fn contains(&self, name: &str) -> bool
        ensures { result ≡ has self.now name.now }
    {
        self.map.contains_key(name)
    }

    /// Puts a name in, and says whether it was there.
    pub(crate) fn insert(&mut self, name: &'a str) -> Result<bool, Memory>
        ensures known { IfOk result (λ known. known ≡ has self.old name.now) }
        ensures more { OnOk result (has self.new ≡ and_name name.now (has self.old)) }
    {
        let before = self.map.insert(name, ())?;
        Ok(before.is_some())
    }
}

/// The names that were seen, and where the first of them was seen again.
#[derive(Drop)]
pub(crate) struct Seen<'a> {
    pub names: Names<'a>,
    pub again: Option<Place>,
}

impl<'a> Seen<'a> {
    ghost use Rattle.yarn_tree.specs.Names.{no_sight, sees, sight_of};

    pub(crate) fn new(alloc: Global) -> Seen<'a>
        ensures { sight_of result ≡ no_sight }
    {
        Seen {
            names: Names::new(alloc),
            again: None,
        }
    }

    pub(crate) fn see(&mut self, name: &'a str, place: Place) -> Result<(), Memory>
        ensures { OnOk result (sight_of self.new ≡ sees (sight_of self.old) (name.now, place)) }
    {
        let known = self.names.insert(name)?;
        if known && self.again.is_none() {
            self.again = Some(place);
        }
        Ok(())
    }
}

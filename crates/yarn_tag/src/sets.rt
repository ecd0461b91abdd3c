//! The ids that stand in a file, and lines, each kept in order so that one is found without going over all.
ghost use Rattle.std.specs.Prelude.{◌≡◌, OnOk};

use std::alloc::Global;
use std::collections::BTreeMap;
use yarn_base::Memory;

#[derive(Drop)]
pub(crate) struct Ids<'a> {
    map: BTreeMap<&'a str, ()>,
}

impl<'a> Ids<'a> {
    ghost use Rattle.yarn_tag.specs.Sets.{has, no_id, and_id};

    pub(crate) fn new(alloc: Global) -> Ids<'a>
        ensures { has result ≡ no_id }
    {
        Ids {
            map: BTreeMap::new(alloc),
        }
    }

    pub(crate) fn contains(&self, id: &str) -> bool
        ensures { result ≡ has self.now id.now }
    {
        self.map.contains_key(id)
    }

    pub(crate) fn insert(&mut self, id: &'a str) -> Result<(), Memory>
        ensures { OnOk result (has self.new ≡ and_id id.now (has self.old)) }
    {
        let _before = self.map.insert(id, ())?;
        Ok(())
    }
}

/// A set of lines, by their numbers.
#[derive(Drop)]
pub(crate) struct LineSet {
    map: BTreeMap<u32, ()>,
}

impl LineSet {
    ghost use Rattle.yarn_tag.specs.Sets.{has_line, no_line, and_line};

    pub(crate) fn new(alloc: Global) -> LineSet
        ensures { has_line result ≡ no_line }
    {
        LineSet {
            map: BTreeMap::new(alloc),
        }
    }

    pub(crate) fn contains(&self, line: u32) -> bool
        ensures { result ≡ has_line self.now line }
    {
        self.map.contains_key(&line)
    }

    pub(crate) fn insert(&mut self, line: u32) -> Result<(), Memory>
        ensures { OnOk result (has_line self.new ≡ and_line line (has_line self.old)) }
    {
        let _before = self.map.insert(line, ())?;
        Ok(())
    }
}

//! The names that stood before in a program file, so that each one comes once.
ghost use Rattle.std.specs.Prelude.{◌≡◌, OnOk};

use std::alloc::Global;
use std::collections::BTreeMap;
use yarn_base::Memory;

#[derive(Drop)]
pub(crate) struct Names<'a> {
    map: BTreeMap<&'a str, ()>,
}

impl<'a> Names<'a> {
    ghost use Rattle.yarn_code.specs.Decoding.{is_free, all_free, without};

    pub(crate) fn new(alloc: Global) -> Names<'a>
        ensures { is_free result ≡ all_free }
    {
        Names {
            map: BTreeMap::new(alloc),
        }
    }

    pub(crate) fn is_free(&self, name: &str) -> bool
        ensures { result ≡ is_free self.now name.now }
    {
        !self.map.contains_key(name)
    }

    pub(crate) fn insert(&mut self, name: &'a str) -> Result<(), Memory>
        ensures { OnOk result (is_free self.new ≡ without name.now (is_free self.old)) }
    {
        let _before = self.map.insert(name, ())?;
        Ok(())
    }
}

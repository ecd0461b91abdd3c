//! The variables of a project, by first appearance, and where each stands.
ghost use Rattle.std.specs.Prelude.{◌≡◌, [], IfOk, length, map};
ghost use Rattle.yarn_types.specs.Names.{appearance, place_of, with_one};
ghost use Rattle.yarn_types.specs.Firsts.{appearance_of};

use std::alloc::Global;
use std::collections::BTreeMap;
use std::marker::Model;
use yarn_base::{Memory, Place, Text};

/// A variable and where it first appears.
#[derive(Clone, Copy, Debug)]
pub(crate) struct First<'p> {
    pub(crate) name: &'p Text,
    pub(crate) place: Place,
}

/// Variables in order, which contracts see as their list.
#[derive(Drop)]
pub(crate) struct Names<'p> {
    firsts: Vec<First<'p>>,
    places: BTreeMap<&'p str, usize>,
}

impl<'p> Model for Names<'p> {
    ghost use Rattle.std.specs.Prelude.{List, map};
    ghost use Rattle.yarn_types.specs.Names.{Appearance};
    ghost use Rattle.yarn_types.specs.Firsts.{appearance_of, Places};

    ghost Value = { List Appearance };

    ghost view = { λ n. map appearance_of n.firsts.items };

    ghost invariant = { λ n. Places n.places (map appearance_of n.firsts.items) };
}

impl<'p> Names<'p> {
    pub(crate) fn new(alloc: Global) -> Names<'p>
        ensures { result ≡ [] }
    {
        Names {
            firsts: Vec::new(alloc),
            places: BTreeMap::new(alloc),
        }
    }

    /// Puts the variable last where it is new.
    pub(crate) fn with(self, name: &'p Text, place: Place) -> Result<Names<'p>, Memory>
        ensures { IfOk result (λ names. names ≡ with_one self.entry (appearance name.now place)) }
    {
        if self.find(name).is_some() {
            return Ok(self);
        }
        let Names {
            mut firsts,
            mut places,
        } = self;
        places.insert(name.as_str(), firsts.len())?;
        firsts.push(First { name, place })?;
        Ok(Names { firsts, places })
    }

    /// How many variables there are.
    pub(crate) fn len(&self) -> usize
        ensures { result ≡ length self.now }
    {
        self.firsts.len()
    }

    /// Where the variable stands, from 0.
    pub(crate) fn find(&self, name: &Text) -> Option<usize>
        ensures { result ≡ place_of self.now name.now }
    {
        self.places.get(name.as_str()).copied()
    }

    /// The variables, in order.
    pub(crate) fn as_slice(&self) -> &[First<'p>]
        ensures { map appearance_of result.now ≡ self.now }
    {
        self.firsts.as_slice()
    }
}

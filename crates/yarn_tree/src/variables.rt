//! How many variables the files have.
ghost use Rattle.std.specs.Prelude.{◌≡◌, ◌∷◌, List as Items, map, Some, if◌then◌else◌, IfOk};
ghost use Rattle.yarn_base.specs.declared.Place.{Place as PlaceOf};
ghost use Rattle.yarn_tree.specs.Checks.{variables_in, with_variable, extra_name};
ghost use Rattle.yarn_tree.specs.Names.{no_name, NameAt};
ghost use Rattle.yarn_tree.specs.Uses.{use_of, use_at};
ghost use Rattle.yarn_tree.specs.Variables.{extra_in};

use crate::names::Names;
use crate::uses::{Used, UsedAt};
use std::alloc::Global;
use yarn_base::{Memory, Place, Text};

const MOST_VARIABLES: usize = 65536;

/// The variables so far, and how many more there may be.
#[derive(Drop)]
struct Room<'a> {
    names: Names<'a>,
    left: usize,
}

/// The first use of a variable that is one too many.
pub(crate) fn extra_variable(alloc: Global, uses: &[UsedAt]) -> Result<Option<Place>, Memory>
    ensures { IfOk result (λ place. place ≡ extra_name 65536 no_name (variables_in (map use_at uses.now))) }
{
    let mut room = Room {
        names: Names::new(alloc),
        left: MOST_VARIABLES,
    };
    for one in uses {
        if room.is_short_for(one.used)? {
            return Ok(Some(one.place));
        }
    }
    Ok(None)
}

impl<'a> Room<'a> {
    // Takes the variable of a use, and says whether it is one too many.
    fn is_short_for(&mut self, used: Used<'a>) -> Result<bool, Memory>
        ensures { IfOk result (λ short. (place : PlaceOf) (xs : Items NameAt) →
            extra_in self.old (with_variable (use_of used.entry) place xs) ≡ (if short then Some place else extra_in self.new xs)) }
    {
        match used {
            Used::Variable(name) => self.is_short_of(name),
            Used::Declaration(name) => self.is_short_of(name),
            Used::Title(_) | Used::Function(_, _) => Ok(false),
        }
    }

    fn is_short_of(&mut self, name: &'a Text) -> Result<bool, Memory>
        ensures { IfOk result (λ short. (place : PlaceOf) (xs : Items NameAt) →
            extra_in self.old ((name.now, place) ∷ xs) ≡ (if short then Some place else extra_in self.new xs)) }
    {
        if self.names.insert(name.as_str())? {
            return Ok(false);
        }
        if self.left == 0 {
            return Ok(true);
        }
        self.left -= 1;
        Ok(false)
    }
}

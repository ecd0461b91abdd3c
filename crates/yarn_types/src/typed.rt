//! The kinds of a project's variables.
ghost use Rattle.std.specs.Prelude.{◌≡◌};
ghost use Rattle.yarn_types.specs.Typed.{kind_named};

use yarn_base::{List, Text};
use yarn_value::Kind;

/// A variable and its kind.
#[derive(Debug, Drop)]
pub struct TypedName {
    pub name: Text,
    pub kind: Kind,
}

/// The kind of each variable, by first appearance.
#[derive(Debug, Drop)]
pub struct Typing {
    pub entries: List<TypedName>,
}

impl Typing {
    /// The kind of a variable, and none of a name that isn't listed.
    pub fn kind(&self, name: &Text) -> Option<Kind>
        ensures { result ≡ kind_named self.now.entries name.now }
    {
        for entry in self.entries.as_slice() {
            if entry.name == *name {
                return Some(entry.kind);
            }
        }
        None
    }
}

//! Why a project has no typing.
use yarn_base::{Memory, Place, Text};

/// Why a project has not one typing (docs/language.md, Refusals of a project).
#[derive(Debug, Drop, PartialEq, Eq)]
pub enum TypeFault {
    /// The place of the first unit with which the units so far have no typing.
    NoTyping(Place),
    /// The first variable that has two kinds in two typings that fit, and where it first appears.
    ManyTypings(Text, Place),
    /// Want of memory.
    Memory,
}

impl From<Memory> for TypeFault {
    ghost use Rattle.std.specs.Prelude.{◌≡◌};
    ghost use Rattle.yarn_types.specs.declared.fault.TypeFault.TheVariants as fault;

    ghost from_gives = { λ _ e. e ≡ fault.Memory };

    fn from(_: Memory) -> TypeFault {
        TypeFault::Memory
    }
}

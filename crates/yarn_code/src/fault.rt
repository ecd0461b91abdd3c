//! Why bytes aren't read as a program.
ghost use Rattle.std.specs.Prelude.{◌≡◌};

use std::alloc::AllocFailed;
use yarn_base::Memory;

/// Why bytes are no program file (docs/refusals.md, Program files).
#[derive(Clone, Copy, Debug, PartialEq, Eq)]
pub enum CodeFault {
    /// The bytes begin with `YSP` and one of the digits 2 to 9.
    NewerFormat,
    /// The place of the first byte, from 0, of the first field that is cut off or isn't as docs/formats.md says; or of the
    /// first byte behind a program.
    BadProgram(usize),
    /// Want of memory.
    Memory,
}

/// Why a reader stopped.
#[derive(Clone, Copy, Debug, PartialEq, Eq)]
pub(crate) enum Stop {
    /// A field is refused: so many bytes are left from its first one on.
    Left(usize),
    Memory,
}

impl From<Memory> for Stop {
    ghost use Rattle.yarn_code.specs.declared.fault.Stop.TheVariants as stops;

    ghost from_gives = { λ _ e. e ≡ stops.Memory };

    fn from(_: Memory) -> Stop {
        Stop::Memory
    }
}

impl<T: Drop> From<AllocFailed<T>> for Stop {
    ghost use Rattle.yarn_code.specs.declared.fault.Stop.TheVariants as stops;

    ghost from_gives = { λ _ e. e ≡ stops.Memory };

    fn from(_: AllocFailed<T>) -> Stop {
        Stop::Memory
    }
}

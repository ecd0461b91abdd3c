//! Why an operation gives no value, and why a run ends early.
ghost use Rattle.std.specs.Prelude.{◌≡◌};

use yarn_base::{Memory, Text};

/// Why a run ends before its end (docs/language.md).
#[derive(Debug, Drop, PartialEq, Eq)]
pub enum RunFault {
    Overflow,
    DivideByZero,
    Inexact,
    TextTooLong,
    BadNumber,
    BadBool,
    NoOpenOption,
    /// A jump to a title that no node has, with that title.
    UnknownNode(Text),
}

/// Why an operation gave no value.
#[derive(Debug, Drop, PartialEq, Eq)]
pub enum OpFault {
    /// The arguments have no value under this operation.
    Run(RunFault),
    Memory,
}

impl From<Memory> for OpFault {
    ghost use Rattle.yarn_value.specs.declared.fault.OpFault.TheVariants as fault;

    ghost from_gives = { λ _ e. e ≡ fault.Memory };

    fn from(_: Memory) -> OpFault {
        OpFault::Memory
    }
}

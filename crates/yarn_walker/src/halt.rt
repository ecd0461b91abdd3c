//! Why a statement isn't done.
ghost use Rattle.std.specs.Prelude.{◌≡◌};
ghost use Rattle.yarn_walker.specs.Means.{IsAtLine};

use yarn_base::Memory;
use yarn_value::{OpFault, RunFault};

/// Why a statement isn't done.
#[derive(Debug, Drop)]
pub(crate) enum Halt {
    /// An evaluation on that line faults.
    Fault(u32, RunFault),
    Memory,
}

impl From<Memory> for Halt {
    ghost use Rattle.yarn_walker.specs.declared.halt.Halt.TheVariants as halt;

    ghost from_gives = { λ _ e. e ≡ halt.Memory };

    fn from(_: Memory) -> Halt {
        Halt::Memory
    }
}

/// The evaluation on that line gave no value.
pub(crate) fn at_line<T>(line: u32, evaluated: Result<T, OpFault>) -> Result<T, Halt>
    ensures { IsAtLine line evaluated result }
{
    match evaluated {
        Ok(value) => Ok(value),
        Err(OpFault::Run(fault)) => Err(Halt::Fault(line, fault)),
        Err(OpFault::Memory) => Err(Halt::Memory),
    }
}

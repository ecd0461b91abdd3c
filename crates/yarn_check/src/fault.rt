//! Why a program is refused.
ghost use Rattle.std.specs.Prelude.{◌≡◌};

use yarn_base::{Memory, Text};

/// The first fault of a program, or want of memory. The rule is docs/instructions.md, Shapes.
///
/// A pair is the place of a node and that of an instruction in it, each from 0.
#[derive(Debug, Drop)]
pub enum CheckFault {
    /// A label of the instruction isn't in its node.
    BadLabel(u32, u32),
    /// A label of the instruction isn't later than the instruction.
    BackwardJump(u32, u32),
    /// The program has no variable of that name.
    UnknownVariable(Text),
    /// There is no function of that name, or it takes another number of arguments.
    UnknownFunction(Text),
    /// The program has no line of that id, or it has another number of substitutions.
    UnknownLine(Text),
    /// Two shapes come to the instruction, or it can't run on its shape, or not go on.
    NoShape(u32, u32),
    /// The shape of the instruction has more than 2,048 entries or 64 pending labels.
    TooManyDeep(u32, u32),
    /// Want of memory.
    Memory,
}

impl From<Memory> for CheckFault {
    ghost use Rattle.yarn_check.specs.declared.fault.CheckFault.TheVariants as fault;

    ghost from_gives = { λ _ e. e ≡ fault.Memory };

    fn from(_: Memory) -> CheckFault {
        CheckFault::Memory
    }
}

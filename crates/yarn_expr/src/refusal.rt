//! Why tokens or a part of a tree weren't read.
ghost use Rattle.std.specs.Prelude.{◌≡◌};

use std::alloc::AllocError;
use yarn_base::Memory;

/// Why no part was read.
#[derive(Debug, Drop)]
pub enum Refusal {
    /// The text or the tokens are no such part.
    NotExpr,
    /// Memory ran out. They may be right.
    Memory,
}

impl From<Memory> for Refusal {
    ghost use Rattle.yarn_expr.specs.declared.refusal.Refusal.TheVariants.{Memory as OutOfMemory};

    ghost from_gives = { λ _ e. e ≡ OutOfMemory };

    fn from(_: Memory) -> Refusal {
        Refusal::Memory
    }
}

impl From<AllocError> for Refusal {
    ghost use Rattle.yarn_expr.specs.declared.refusal.Refusal.TheVariants.{Memory as OutOfMemory};

    ghost from_gives = { λ _ e. e ≡ OutOfMemory };

    fn from(_: AllocError) -> Refusal {
        Refusal::Memory
    }
}

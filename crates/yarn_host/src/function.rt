//! What a function of the game is, and what contracts are told of it. The rule is docs/guide-hosts.md, "What a call does".
ghost use Rattle.std.specs.Prelude.{◌≡◌, ◌≤◌, ◌∷◌, [], ◌⊎◌, false, IfOk, OnErr, IsErrOf};
ghost use Rattle.yarn_base.specs.Calls.{one_more};
ghost use Rattle.yarn_base.specs.Causes.{Rose};
ghost use Rattle.yarn_host.specs.Known.{append_known, prepend_known};
ghost use Rattle.yarn_host.specs.Meaning.{Meaning};

use std::alloc::Global;
use yarn_base::List;
use yarn_value::Value;

/// Why a host function gave no reply.
#[derive(Clone, Copy, Debug, PartialEq, Eq)]
pub enum HostFault {
    /// The function can't answer these arguments.
    Failed,
    Memory,
}

/// A function of the game that a project may call. Its counts stay at the last value of a `u64`. The rule is
/// docs/guide-hosts.md, "What a call does".
pub trait HostFunction: Drop {
    /// The replies left and the arguments of each call, where they are told; how often it failed and was asked; the
    /// arguments that it accepts.
    ghost meaning: { Self → Meaning };

    /// Answers a question. A reply is the first of those left, where they are told; an `Err` leaves them. `Failed` comes
    /// only where the count of faults rose and the function doesn't accept the arguments. Each call counts as one, and
    /// puts its arguments last on the list, where that is told; one that answers `Memory` may leave the list.
    fn call(&mut self, alloc: Global, args: &List<Value>) -> Result<Value, HostFault>
        ensures asked { (meaning self.new).asked ≡ one_more (meaning self.old).asked }
        ensures came { (IsErrOf result HostFault.Memory → ⊥) → (meaning self.new).came ≡ append_known (meaning self.old).came (args.now ∷ []) }
        ensures may_come { ((meaning self.new).came ≡ (meaning self.old).came) ⊎ ((meaning self.new).came ≡ append_known (meaning self.old).came (args.now ∷ [])) }
        ensures left { IfOk result (λ value. (meaning self.old).left ≡ prepend_known (value ∷ []) (meaning self.new).left) }
        ensures stays { OnErr result ((meaning self.new).left ≡ (meaning self.old).left) }
        ensures later { (meaning self.old).faults ≤ (meaning self.new).faults }
        ensures failed { IsErrOf result HostFault.Failed → Rose (meaning self.old).faults (meaning self.new).faults }
        ensures refused { IsErrOf result HostFault.Failed → (meaning self.old).accepts args.now ≡ false }
        ensures test { (meaning self.new).accepts ≡ (meaning self.old).accepts };
}

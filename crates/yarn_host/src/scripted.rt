//! Replies that are known before, for tests.
ghost use Rattle.std.specs.Prelude.{◌≡◌, ◌≤◌, ◌∷◌, ◌++◌, ◌⊎◌, [], drop, Some, IfOk, OnOk, OnErr, IsErrOf, false};
ghost use Rattle.std.specs.Result.{IsErr};
ghost use Rattle.yarn_base.specs.Calls.{one_more, is_to_fail, IsToFail};
ghost use Rattle.yarn_base.specs.Causes.{Rose};
ghost use Rattle.yarn_host.specs.Known.{append_known, prepend_known};

use crate::values::copy_values;
use crate::{HostFault, HostFunction};
use std::alloc::Global;
use yarn_base::{List, Memory};
use yarn_value::Value;

/// Replies that are given one after another. It tells them, and the arguments that came.
///
/// Calls are counted from 1, whatever they answer. Those whose numbers were given to [`fail`](Scripted::fail) fail, and
/// those at which no reply is left. The rule is docs/guide-hosts.md, "The functions of this crate".
#[derive(Debug, Drop)]
pub struct Scripted {
    replies: List<Value>,
    // The place of the next reply.
    at: usize,
    came: List<List<Value>>,
    faults: u64,
    asked: u64,
    failing: List<u64>,
}

impl Scripted {
    ghost use Rattle.yarn_host.specs.Scripted.{scripted, script, failing_calls};

    /// These replies, in this order. No call was made and none is to fail. It takes no memory.
    pub fn new(alloc: Global, replies: List<Value>) -> Scripted
        ensures meaning { scripted result ≡ script replies [] 0 0 }
        ensures failing { failing_calls result ≡ [] }
    {
        Scripted {
            replies,
            at: 0,
            came: List::new(alloc),
            faults: 0,
            asked: 0,
            failing: List::new(alloc),
        }
    }

    /// Lets the call of that number fail. Calls count from 1, since this was made.
    pub fn fail(&mut self, nth: u64) -> Result<(), Memory>
        ensures meaning { scripted self.new ≡ scripted self.old }
        ensures ok { OnOk result (failing_calls self.new ≡ failing_calls self.old ++ nth ∷ []) }
        ensures err { OnErr result (failing_calls self.new ≡ failing_calls self.old) }
    {
        self.failing.push(nth).map_err(|_| Memory)
    }

    // The next reply, and that it is taken. Without one it fails.
    fn take(&mut self) -> Result<Value, HostFault>
        ensures ok { IfOk result (λ value. drop self.old.at self.old.replies ≡ value ∷ drop self.new.at self.new.replies) }
        ensures err { OnErr result (drop self.new.at self.new.replies ≡ drop self.old.at self.old.replies) }
        ensures failed { IsErrOf result HostFault.Failed → drop self.old.at self.old.replies ≡ [] }
        ensures faults { self.new.faults ≡ self.old.faults }
        ensures asked { self.new.asked ≡ self.old.asked }
        ensures came { self.new.came ≡ self.old.came }
        ensures failing { self.new.failing ≡ self.old.failing }
    {
        let replies = self.replies.as_slice();
        if self.at >= replies.len() {
            return Err(HostFault::Failed);
        }
        match replies[self.at].copy() {
            Err(_) => Err(HostFault::Memory),
            Ok(value) => {
                self.at += 1;
                Ok(value)
            }
        }
    }

    // Notes the arguments of a call.
    fn keep(&mut self, alloc: Global, args: &List<Value>) -> Result<(), Memory>
        ensures ok { OnOk result (self.new.came ≡ self.old.came ++ args.now ∷ []) }
        ensures err { OnErr result (self.new.came ≡ self.old.came) }
        ensures faults { self.new.faults ≡ self.old.faults }
        ensures asked { self.new.asked ≡ self.old.asked }
        ensures replies { self.new.replies ≡ self.old.replies }
        ensures at { self.new.at ≡ self.old.at }
        ensures failing { self.new.failing ≡ self.old.failing }
    {
        let kept = copy_values(alloc, args)?;
        self.came.push(kept).map_err(|_| Memory)
    }

    // Counts one more call, and says whether it is to fail.
    fn next_fails(&mut self) -> bool
        ensures value { result ≡ is_to_fail self.old.failing self.old.asked }
        ensures asked { self.new.asked ≡ one_more self.old.asked }
        ensures faults { self.new.faults ≡ self.old.faults }
        ensures came { self.new.came ≡ self.old.came }
        ensures replies { self.new.replies ≡ self.old.replies }
        ensures at { self.new.at ≡ self.old.at }
        ensures failing { self.new.failing ≡ self.old.failing }
    {
        self.asked = self.asked.saturating_add(1);
        self.failing.as_slice().contains(&self.asked)
    }
}

impl HostFunction for Scripted {
    ghost use Rattle.yarn_host.specs.Scripted.{scripted, failing_calls, replies_left};

    ghost meaning = { scripted };

    /// Gives the next reply. It fails only where its number was given to `fail` or no reply is left, and then answers
    /// nothing else but `Memory`. Its count of faults rises by one at each `Failed`, and at nothing else.
    fn call(&mut self, alloc: Global, args: &List<Value>) -> Result<Value, HostFault>
        ensures asked { (scripted self.new).asked ≡ one_more (scripted self.old).asked }
        ensures came { (IsErrOf result HostFault.Memory → ⊥) → (scripted self.new).came ≡ append_known (scripted self.old).came (args.now ∷ []) }
        ensures may_come { ((scripted self.new).came ≡ (scripted self.old).came) ⊎ ((scripted self.new).came ≡ append_known (scripted self.old).came (args.now ∷ [])) }
        ensures left { IfOk result (λ value. (scripted self.old).left ≡ prepend_known (value ∷ []) (scripted self.new).left) }
        ensures stays { OnErr result ((scripted self.new).left ≡ (scripted self.old).left) }
        ensures later { (scripted self.old).faults ≤ (scripted self.new).faults }
        ensures failed { IsErrOf result HostFault.Failed → Rose (scripted self.old).faults (scripted self.new).faults }
        ensures refused { IsErrOf result HostFault.Failed → (scripted self.old).accepts args.now ≡ false }
        ensures test { (scripted self.new).accepts ≡ (scripted self.old).accepts }

        ensures failing { failing_calls self.new ≡ failing_calls self.old }
        ensures fails { IsToFail (failing_calls self.old) (scripted self.old).asked → IsErr result }
        ensures why { IsErrOf result HostFault.Failed → IsToFail (failing_calls self.old) (scripted self.old).asked ⊎ (replies_left self.old ≡ []) }
        ensures fault { IsErrOf result HostFault.Failed → (scripted self.new).faults ≡ one_more (scripted self.old).faults }
        ensures no_fault { (IsErrOf result HostFault.Failed → ⊥) → (scripted self.new).faults ≡ (scripted self.old).faults }
    {
        let fails = self.next_fails();
        if self.keep(alloc, args).is_err() {
            return Err(HostFault::Memory);
        }
        if fails {
            self.faults = self.faults.saturating_add(1);
            return Err(HostFault::Failed);
        }
        match self.take() {
            Ok(value) => Ok(value),
            Err(HostFault::Memory) => Err(HostFault::Memory),
            Err(HostFault::Failed) => {
                self.faults = self.faults.saturating_add(1);
                Err(HostFault::Failed)
            }
        }
    }
}

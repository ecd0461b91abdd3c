//! A sink in memory, some of whose writes fail. What a sink means stands in docs/outside.md.
ghost use Rattle.std.specs.Prelude.{◌≡◌, ◌++◌, ◌<◌, ◌≤◌, [], ◌∷◌, length, take, Some, IfOk, OnOk, OnErr, IsErrOf};
ghost use Rattle.std.specs.Io.KnownBytes.{append_known};
ghost use Rattle.yarn_base.specs.Calls.{one_more, IsToFail};
ghost use Rattle.yarn_base.specs.Causes.{HasCause};

use crate::calls::Calls;
use crate::{IoFault, List, Memory, Sink};
use std::alloc::Global;

/// Keeps what is written, and tells it. A write takes the whole piece.
///
/// Writes are counted from 1, whatever they answer. Those whose numbers were given to
/// [`fail`](MemorySink::fail) fail. The rule is docs/outside.md, "The things in memory".
#[derive(Debug, Drop)]
pub struct MemorySink {
    bytes: List<u8>,
    calls: Calls,
    faults: u64,
}

impl MemorySink {
    ghost use Rattle.yarn_base.specs.MemorySink.{written_in, sink_faults, sink_writes, sink_failing};

    /// Nothing is written. No call was made and none is to fail. It takes no memory.
    pub fn new(alloc: Global) -> MemorySink
        ensures written { written_in result ≡ [] }
        ensures faults { sink_faults result ≡ 0 }
        ensures made { sink_writes result ≡ 0 }
        ensures failing { sink_failing result ≡ [] }
    {
        MemorySink {
            bytes: List::new(alloc),
            calls: Calls::new(alloc),
            faults: 0,
        }
    }

    /// All bytes that were written, in order.
    pub fn written(&self) -> &List<u8>
        ensures { result.now ≡ written_in self.now }
    {
        &self.bytes
    }

    /// Lets the write of that number fail. Writes count from 1, since the sink was made.
    pub fn fail(&mut self, nth: u64) -> Result<(), Memory>
        ensures written { written_in self.new ≡ written_in self.old }
        ensures faults { sink_faults self.new ≡ sink_faults self.old }
        ensures made { sink_writes self.new ≡ sink_writes self.old }
        ensures ok { OnOk result (sink_failing self.new ≡ sink_failing self.old ++ nth ∷ []) }
        ensures err { OnErr result (sink_failing self.new ≡ sink_failing self.old) }
    {
        self.calls.fail(nth)
    }
}

impl Sink for MemorySink {
    ghost use Rattle.yarn_base.specs.MemorySink.{written_in, sink_faults, sink_writes, sink_failing};

    ghost written = { λ s. Some (written_in s) };

    ghost faults = { sink_faults };

    /// Fails exactly where its number was given to `fail`.
    fn write(&mut self, from: &[u8]) -> Result<usize, IoFault>
        ensures bound { IfOk result (λ n. n ≤ length from.now) }
        ensures some { IfOk result (λ n. 0 < length from.now → 0 < n) }
        ensures bytes { IfOk result (λ n. Some (written_in self.new) ≡ append_known (Some (written_in self.old)) (take n from.now)) }
        ensures err { OnErr result (Some (written_in self.new) ≡ Some (written_in self.old)) }
        ensures cause { HasCause (sink_faults self.old) (sink_faults self.new) result }

        ensures whole { IfOk result (λ n. n ≡ length from.now) }
        ensures counted { sink_writes self.new ≡ one_more (sink_writes self.old) }
        ensures failing { sink_failing self.new ≡ sink_failing self.old }
        ensures fails { IsToFail (sink_failing self.old) (sink_writes self.old) → IsErrOf result IoFault.Failed }
        ensures why { IsErrOf result IoFault.Failed → IsToFail (sink_failing self.old) (sink_writes self.old) }
        ensures fault { IsErrOf result IoFault.Failed → sink_faults self.new ≡ one_more (sink_faults self.old) }
        ensures no_fault { (IsErrOf result IoFault.Failed → ⊥) → sink_faults self.new ≡ sink_faults self.old }
    {
        if self.calls.next_fails() {
            self.faults = self.faults.saturating_add(1);
            return Err(IoFault::Failed);
        }
        match self.bytes.extend_from_slice(from) {
            Ok(()) => Ok(from.len()),
            Err(_) => Err(IoFault::Memory),
        }
    }
}

//! What reaches outside: named files, bytes that come in and bytes that go out.
ghost use Rattle.std.specs.Prelude.{◌≡◌, ◌+◌, ◌<◌, ◌≤◌, ℕ, List, length, take, Option, Some, IfOk, OnOk, OnErr, IsErrOf};
ghost use Rattle.std.specs.Io.{ReadsAtMost};
ghost use Rattle.std.specs.Io.KnownBytes.{append_known, prepend_known, IsAtEnd};
ghost use Rattle.yarn_base.specs.Causes.{HasCause, FailsByCount};
ghost use Rattle.yarn_base.specs.Outside.{Named, GivesFile, HoldsAfter, ChangesOnly, WritesPart};

use crate::{Failed, IoFault, List as Items, Text};
use std::alloc::Global;

/// Named files. Counts never fall, and stay at the last value of a `u64`. The rule is docs/outside.md, "Files".
pub trait Files {
    /// What stands under each name, where it is told.
    ghost contents: { Self → Option Named };

    /// How often a read failed.
    ghost read_faults: { Self → ℕ };

    /// The name of the latest read that failed.
    ghost latest_fault: { Self → Option (List ℕ) };

    /// How often a write failed.
    ghost write_faults: { Self → ℕ };

    /// Reads a file: all its bytes where these are at most `max + 1`, else its first `max + 1` bytes. A missing file is a
    /// fault. Condition: `max` is at most 1,073,741,824. `Failed` comes only where the count of read faults rose, and
    /// `Memory` changes nothing.
    fn read(&mut self, alloc: Global, name: &Text, max: usize) -> Result<Vec<u8>, IoFault>
        requires { max ≤ 1073741824 }
        ensures bytes { IfOk result (λ v. GivesFile (contents self.old) name.now max v.items) }
        ensures bound { IfOk result (λ v. length v.items ≤ max + 1) }
        ensures same { contents self.new ≡ contents self.old }
        ensures cause { HasCause (read_faults self.old) (read_faults self.new) result }
        ensures named { IsErrOf result IoFault.Failed → latest_fault self.new ≡ Some name.now }
        ensures no_other { (IsErrOf result IoFault.Failed → ⊥) → latest_fault self.new ≡ latest_fault self.old }
        ensures memory_count { IsErrOf result IoFault.Memory → read_faults self.new ≡ read_faults self.old }
        ensures writes { write_faults self.new ≡ write_faults self.old };

    /// Puts the bytes under the name, in place of what stood there. `Failed` comes only where the count of write faults
    /// rose, and then nothing is told of that file. After `Memory` the files are as before.
    fn write(&mut self, name: &Text, bytes: &Items<u8>) -> Result<(), IoFault>
        ensures ok { OnOk result (HoldsAfter (contents self.old) (contents self.new) name.now bytes.now) }
        ensures memory { IsErrOf result IoFault.Memory → contents self.new ≡ contents self.old }
        ensures failed { IsErrOf result IoFault.Failed → ChangesOnly (contents self.old) (contents self.new) name.now }
        ensures cause { HasCause (write_faults self.old) (write_faults self.new) result }
        ensures latest { latest_fault self.new ≡ latest_fault self.old }
        ensures memory_count { IsErrOf result IoFault.Memory → write_faults self.new ≡ write_faults self.old }
        ensures reads { read_faults self.new ≡ read_faults self.old };
}

/// Bytes that come in. The count never falls, and stays at the last value of a `u64`. The rule is docs/outside.md,
/// "Sources".
pub trait Source {
    /// The bytes left, where they are told.
    ghost left: { Self → Option (List ℕ) };

    /// How often a read failed.
    ghost faults: { Self → ℕ };

    /// Puts the first of the bytes left into the piece, and says how many. It gives 0 for a piece that isn't empty exactly
    /// at the end of input. An `Err` comes only where the count rose, and leaves the bytes left; what stands in the piece
    /// isn't told then.
    fn read(&mut self, into: &mut [u8]) -> Result<usize, Failed>
        ensures bound { ReadsAtMost result into.new }
        ensures bytes { IfOk result (λ n. left self.old ≡ prepend_known (take n into.new) (left self.new)) }
        ensures end { IfOk result (λ n. n ≡ 0 → 0 < length into.new → IsAtEnd (left self.new)) }
        ensures err { OnErr result (left self.new ≡ left self.old) }
        ensures cause { FailsByCount (faults self.old) (faults self.new) result };
}

/// Bytes that go out. The count never falls, and stays at the last value of a `u64`. The rule is docs/outside.md,
/// "Sinks".
pub trait Sink {
    /// The bytes written, where they are told.
    ghost written: { Self → Option (List ℕ) };

    /// How often a write failed.
    ghost faults: { Self → ℕ };

    /// Takes the first bytes of the piece, at least one where it isn't empty, and says how many. `Failed` comes only where
    /// the count rose. An `Err` leaves the bytes written.
    fn write(&mut self, from: &[u8]) -> Result<usize, IoFault>
        ensures bound { IfOk result (λ n. n ≤ length from.now) }
        ensures some { IfOk result (λ n. 0 < length from.now → 0 < n) }
        ensures bytes { IfOk result (λ n. written self.new ≡ append_known (written self.old) (take n from.now)) }
        ensures err { OnErr result (written self.new ≡ written self.old) }
        ensures cause { HasCause (faults self.old) (faults self.new) result };
}

/// Writes all of the bytes, piece by piece. A fault is the sink's own, and the first of the bytes may be written then.
pub fn write_all<S: Sink>(sink: &mut S, bytes: &[u8]) -> Result<(), IoFault>
    ensures ok { OnOk result (S.written sink.new ≡ append_known (S.written sink.old) bytes.now) }
    ensures part { WritesPart (S.written sink.old) (S.written sink.new) bytes.now }
    ensures cause { HasCause (S.faults sink.old) (S.faults sink.new) result }
{
    let mut rest = bytes;
    while !rest.is_empty() {
        let count = sink.write(rest)?;
        rest = &rest[count..];
    }
    Ok(())
}

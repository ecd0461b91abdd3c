//! A source in memory, some of whose reads fail. What a source means stands in docs/outside.md.
ghost use Rattle.std.specs.Prelude.{◌≡◌, ◌≤◌, ◌<◌, ◌+◌, ◌++◌, [], ◌∷◌, drop, take, length, min, Some, IfOk, OnOk, OnErr};
ghost use Rattle.std.specs.Io.{ReadsAtMost};
ghost use Rattle.std.specs.Result.{IsErr};
ghost use Rattle.std.specs.Io.KnownBytes.{prepend_known, IsAtEnd};
ghost use Rattle.yarn_base.specs.Calls.{one_more, IsToFail};
ghost use Rattle.yarn_base.specs.Causes.{FailsByCount};

use crate::calls::Calls;
use crate::{Failed, List, Memory, Source};
use std::alloc::Global;

/// Bytes in memory that are read in pieces, and told.
///
/// Reads are counted from 1, whatever they answer. Those whose numbers were given to
/// [`fail`](MemorySource::fail) fail. The rule is docs/outside.md, "The things in memory".
#[derive(Debug, Drop)]
pub struct MemorySource {
    bytes: List<u8>,
    at: usize,
    piece: usize,
    calls: Calls,
    faults: u64,
    ghost within: { at ≤ length bytes },
    ghost positive: { 1 ≤ piece },
}

impl MemorySource {
    ghost use Rattle.yarn_base.specs.MemorySource.{left_in, source_faults, source_piece, source_reads, source_failing};

    /// A source of these bytes whose reads give at most `piece` bytes each, where `piece` is at least 1.
    /// No call was made and none is to fail. It takes no memory.
    pub fn new(alloc: Global, bytes: List<u8>, piece: usize) -> MemorySource
        requires { 1 ≤ piece }
        ensures left { left_in result ≡ bytes }
        ensures faults { source_faults result ≡ 0 }
        ensures piece { source_piece result ≡ piece }
        ensures made { source_reads result ≡ 0 }
        ensures failing { source_failing result ≡ [] }
    {
        MemorySource {
            bytes,
            at: 0,
            piece,
            calls: Calls::new(alloc),
            faults: 0,
        }
    }

    /// Lets the read of that number fail. Reads count from 1, since the source was made.
    pub fn fail(&mut self, nth: u64) -> Result<(), Memory>
        ensures left { left_in self.new ≡ left_in self.old }
        ensures faults { source_faults self.new ≡ source_faults self.old }
        ensures piece { source_piece self.new ≡ source_piece self.old }
        ensures made { source_reads self.new ≡ source_reads self.old }
        ensures ok { OnOk result (source_failing self.new ≡ source_failing self.old ++ nth ∷ []) }
        ensures err { OnErr result (source_failing self.new ≡ source_failing self.old) }
    {
        self.calls.fail(nth)
    }
}

impl Source for MemorySource {
    ghost use Rattle.yarn_base.specs.MemorySource.{left_in, source_faults, source_piece, source_reads, source_failing};

    ghost left = { λ s. Some (left_in s) };

    ghost faults = { source_faults };

    /// Fails exactly where its number was given to `fail`. Else it gives as many of the bytes left as one
    /// piece and `into` hold.
    fn read(&mut self, into: &mut [u8]) -> Result<usize, Failed>
        ensures bound { ReadsAtMost result into.new }
        ensures bytes { IfOk result (λ n. Some (left_in self.old) ≡ prepend_known (take n into.new) (Some (left_in self.new))) }
        ensures end { IfOk result (λ n. n ≡ 0 → 0 < length into.new → IsAtEnd (Some (left_in self.new))) }
        ensures err { OnErr result (Some (left_in self.new) ≡ Some (left_in self.old)) }
        ensures cause { FailsByCount (source_faults self.old) (source_faults self.new) result }

        ensures gives { IfOk result (λ n. n ≡ min (min (length (left_in self.old)) (source_piece self.old)) (length into.old)) }
        ensures piece { source_piece self.new ≡ source_piece self.old }
        ensures counted { source_reads self.new ≡ one_more (source_reads self.old) }
        ensures failing { source_failing self.new ≡ source_failing self.old }
        ensures fails { IsToFail (source_failing self.old) (source_reads self.old) → IsErr result }
        ensures why { OnErr result (IsToFail (source_failing self.old) (source_reads self.old)) }
        ensures fault { OnErr result (source_faults self.new ≡ one_more (source_faults self.old)) }
        ensures no_fault { OnOk result (source_faults self.new ≡ source_faults self.old) }
    {
        if self.calls.next_fails() {
            self.faults = self.faults.saturating_add(1);
            return Err(Failed);
        }
        let count = copy_first(self.bytes.as_slice(), self.at, into, self.piece);
        self.at += count;
        Ok(count)
    }
}

// Copies the first bytes from a place on, at most `most` of them, and says how many.
fn copy_first(from: &[u8], at: usize, into: &mut [u8], most: usize) -> usize
    requires some { 1 ≤ most }
    requires place { at ≤ length from.now }
    ensures within { at + result ≤ length from.now }
    ensures room { result ≤ length into.new }
    ensures count { result ≡ min (min (length (drop at from.now)) most) (length into.old) }
    ensures copied { take result into.new ≡ take result (drop at from.now) }
    ensures none { result ≡ 0 → 0 < length into.new → drop at from.now ≡ [] }
{
    let from = &from[at..];
    let count = from.len().min(most).min(into.len());
    into[..count].copy_from_slice(&from[..count]);
    count
}

//! A shape as the pass over a node has it.
ghost use Rattle.std.specs.Prelude.{◌≡◌, IfOk, [], map, length, None, if◌then◌else◌};
ghost use Rattle.std.specs.Cmp.Lexicographic.{pointwise};
ghost use Rattle.yarn_check.specs.Shapes.{shape, Flow, on_kind};
ghost use Rattle.yarn_check.specs.Pass.{same_entry, same_shape, is_small as small};
ghost use Rattle.yarn_check.specs.Views.{entry_of, stack_of};

use crate::ShapeEntry;
use smallvec::SmallVec;
use std::alloc::Global;
use yarn_base::{List, Memory};
use yarn_value::Kind;

/// The entries of the stack, the top last, and the labels of the pending options in order.
#[derive(Debug, Drop)]
pub(crate) struct Stack {
    pub(crate) entries: SmallVec<ShapeEntry, 8>,
    pub(crate) pending: List<u32>,
}

impl Stack {
    /// No entries, and nothing pending.
    pub(crate) fn new(alloc: Global) -> Stack
        ensures { stack_of result ≡ shape [] [] }
    {
        Stack {
            entries: SmallVec::new(alloc),
            pending: List::new(alloc),
        }
    }

    /// An equal stack.
    pub(crate) fn copy(&self, alloc: Global) -> Result<Stack, Memory>
        ensures entries { IfOk result (λ s. s.entries.items ≡ self.now.entries.items) }
        ensures pending { IfOk result (λ s. s.pending ≡ self.now.pending) }
    {
        let mut entries = SmallVec::new(alloc);
        for entry in self.entries.as_slice() {
            entries.push(entry.copy()?)?;
        }
        Ok(Stack {
            entries,
            pending: self.pending.copy()?,
        })
    }

    /// Whether both are the same.
    pub(crate) fn is_same(&self, other: &Stack) -> bool
        ensures { result ≡ same_shape (stack_of self.now) (stack_of other.now) }
    {
        same_entries(self.entries.as_slice(), other.entries.as_slice())
            && self.pending == other.pending
    }

    /// Whether a value of that kind is on top.
    pub(crate) fn has_on_top(&self, kind: Kind) -> bool
        ensures { (go : Flow) → on_kind kind (stack_of self.now).entries (λ rest. go) ≡ (if result then go else None) }
    {
        match self.entries.as_slice().last() {
            Some(entry) => entry.is_of(kind),
            None => false,
        }
    }

    /// Whether it is no larger than a shape may be.
    pub(crate) fn is_small(&self) -> bool
        ensures { result ≡ small (stack_of self.now) }
    {
        self.entries.len() <= 2048 && self.pending.len() <= 64
    }
}

// Whether these entries are the same, one by one.
fn same_entries(a: &[ShapeEntry], b: &[ShapeEntry]) -> bool
    ensures { result ≡ pointwise same_entry (map entry_of a.now) (map entry_of b.now) }
{
    if a.len() != b.len() {
        return false;
    }
    for at in 0..a.len() {
        if !a[at].is_same(&b[at]) {
            return false;
        }
    }
    true
}

//! What the lines of a body are to the structure.
//!
//! The pass goes over marks alone and keeps what is open, so that no statement of several lines is made of a body before
//! it is known to be a block that is nowhere too deep.
ghost use Rattle.std.specs.Prelude.{◌≡◌, ◌+◌, ◌<◌, ◌^◌, length, IfOk};
ghost use Rattle.yarn_blocks.specs.Outline.{verdict_in, verdict_behind};
ghost use Rattle.yarn_blocks.specs.Verdict.{IsVerdictOf};

use crate::mark::Mark;
use crate::outline::{Outline, Stop};
use std::alloc::Global;
use yarn_base::Memory;

/// What of a block is over a limit, as lines counted from 1.
#[derive(Clone, Copy, Debug, PartialEq, Eq)]
pub struct Excess {
    /// The first line of a statement of depth over 64.
    pub too_deep: Option<u32>,
    /// The first 65th option of a group.
    pub too_many: Option<u32>,
}

/// What the lines of a body are.
#[derive(Clone, Copy, Debug, PartialEq, Eq)]
pub enum Verdict {
    /// A block.
    Block(Excess),
    /// No block: the place, from 0, and the line of the first mark with which the marks so far begin no block, as an
    /// `endif` without an `if`.
    Bad(usize, u32),
    /// No block, but the beginning of one: an `if` stands open at the end.
    Unfinished,
}

/// The verdict on the lines of one body. It recurses over nothing, and keeps a few bytes for each option and each `if`
/// that is open.
#[tactic(auto, using(crate::proofs::MarkLemmas::tells))]
pub fn judge(alloc: Global, marks: &[Mark]) -> Result<Verdict, Memory>
    ensures tells { IfOk result (IsVerdictOf marks.now) }
    ensures exact { IfOk result (λ verdict. verdict ≡ verdict_in marks.now) }
{
    judged_behind(alloc, 0, marks)
}

/// The verdict on the lines of one body that stand behind so many statements.
pub(crate) fn judged_behind(alloc: Global, before: usize, marks: &[Mark]) -> Result<Verdict, Memory>
    requires { before + length marks.now < 2 ^ 64 }
    ensures { IfOk result (λ verdict. verdict ≡ verdict_behind before marks.now) }
{
    let mut outline = Outline::new(alloc);
    for (at, mark) in marks.iter().enumerate() {
        match outline.take_next(*mark) {
            Ok(next) => outline = next,
            Err(Stop::Refused) => return Ok(Verdict::Bad(before + at, mark.line)),
            Err(Stop::Memory) => return Err(Memory),
        }
    }
    Ok(outline.finish())
}

//! Takes the player's answers from the input (docs/formats.md, Answers).
ghost use Rattle.std.specs.Prelude.{IfOk, OnErr};
ghost use Rattle.yarn_base.specs.Causes.{FailsByCount};
ghost use Rattle.yarn_code.specs.Taking.{TakesAnswer, TakesPart};

use crate::next::{Next, next_byte};
use crate::scan::Scan;
use yarn_base::{Failed, Source};

// How many bytes an answer takes at most.
const MAX_BYTES: usize = 4096;

/// The number of the next answer, 0 where it is none; `None` where no bytes are left.
///
/// Exactly the answer's bytes are taken, and no memory. `Failed` comes only where the source's count rose, and a front of
/// the answer's bytes may be taken then. The rule is docs/formats.md, Answers.
pub fn take_answer<I: Source>(input: &mut I) -> Result<Option<u32>, Failed>
    ensures ok { IfOk result (TakesAnswer (I.left input.old) (I.left input.new)) }
    ensures err { OnErr result (TakesPart (I.left input.old) (I.left input.new)) }
    ensures cause { FailsByCount (I.faults input.old) (I.faults input.new) result }
{
    let mut scan = Scan::Blank;
    for count in 0..MAX_BYTES {
        match next_byte(input) {
            Next::Byte(b'\n') => return Ok(Some(scan.number())),
            Next::Byte(byte) => scan = scan.after(byte),
            Next::End if count == 0 => return Ok(None),
            Next::End => return Ok(Some(scan.number())),
            Next::Failed => return Err(Failed),
        }
    }
    Ok(Some(scan.number()))
}

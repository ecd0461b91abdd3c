//! The statements of a body.
ghost use Rattle.std.specs.Prelude.{◌≡◌, [], IfOk};
ghost use Rattle.yarn_blocks.specs.Block.{Block};
ghost use Rattle.yarn_blocks.specs.Building.{GivesStmts, read_behind};
ghost use Rattle.yarn_blocks.specs.Verdict.{IsShallow};
ghost use Rattle.yarn_blocks.specs.View.{stmts_of};

use crate::body_lines::BodyLines;
use crate::entry::Entry;
use crate::reading::{Fault, Reading};
use crate::tree::Stmt;
use std::alloc::Global;
use yarn_base::{List, Memory};

/// The statements that the lines of one body stand for. `judge` tells whether the condition holds, so a tree is as
/// deep as 64 levels, and so is the recursion that lets it go.
pub fn build(alloc: Global, lines: BodyLines) -> Result<List<Stmt>, Memory>
    requires { IsShallow lines }
    ensures { IfOk result (λ stmts. Block lines [] (stmts_of stmts)) }
{
    let (stmts, entries) = lines.into_parts();
    match read_all(alloc, stmts, entries) {
        Ok(stmts) => Ok(stmts),
        Err(Fault::Memory) => Err(Memory),
        Err(Fault::Refused) => unreachable!(),
    }
}

/// The statements with what the entries behind them are.
fn read_all(alloc: Global, stmts: List<Stmt>, entries: Vec<Entry>) -> Result<List<Stmt>, Fault>
    ensures { GivesStmts result (read_behind (stmts_of stmts) entries.items) }
{
    let mut reading = Reading::behind(alloc, stmts);
    for entry in entries {
        reading = reading.take_next(alloc, entry)?;
    }
    Ok(reading.finish()?)
}

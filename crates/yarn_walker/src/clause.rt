//! Which clause of an `if` is done.
ghost use Rattle.std.specs.Prelude.{◌≡◌};
ghost use Rattle.yarn_blocks.specs.View.{clauses_of, last_of, stmts_of};
ghost use Rattle.yarn_walker.specs.Clauses.{Chooses, IsPartOf, else_body};

use crate::evaluate::{evaluate, is_true};
use crate::halt::{Halt, at_line};
use std::alloc::Global;
use yarn_store::Store;
use yarn_tree::{Clause, ElseClause, Stmt};

/// The body of the first clause whose condition holds, or that of the `else`; nothing where there is none.
pub(crate) fn chosen_body<'p>(
    alloc: Global,
    clauses: &'p [Clause],
    last: &'p Option<ElseClause>,
    store: &Store,
) -> Result<&'p [Stmt], Halt>
    ensures meaning { Chooses (clauses_of clauses.now) (last_of last.now) store.now result }
    ensures part { IsPartOf (clauses_of clauses.now) (last_of last.now) result }
{
    for clause in clauses {
        let value = at_line(clause.head.line, evaluate(alloc, &clause.condition, store))?;
        if is_true(&value) {
            return Ok(clause.body.as_slice());
        }
    }
    Ok(last_body(last))
}

fn last_body(last: &Option<ElseClause>) -> &[Stmt]
    ensures { stmts_of result.now ≡ else_body (last_of last.now) }
{
    match last {
        Some(clause) => clause.body.as_slice(),
        None => &[],
    }
}

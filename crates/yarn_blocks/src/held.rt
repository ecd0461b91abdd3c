//! The statements of a block so far.
ghost use Rattle.std.specs.Prelude.{◌≡◌, ◌++◌, ◌∷◌, [], IfOk};
ghost use Rattle.yarn_blocks.specs.Frames.{held_of};
ghost use Rattle.yarn_blocks.specs.Reading.{all_of, nothing_held, with_clause, with_option, with_stmt};
ghost use Rattle.yarn_blocks.specs.View.{stmt_of, stmts_of, clauses_of};

use crate::tree::{Clause, Head, LineText, OptionItem, Stmt};
use std::alloc::Global;
use yarn_base::{List, Memory};
use yarn_expr::Expr;

/// The statements of a block so far: whole ones, and a group that may go on.
#[derive(Drop)]
pub(crate) struct Held {
    pub(crate) done: List<Stmt>,
    pub(crate) group: List<OptionItem>,
}

/// One more statement.
fn put(mut done: List<Stmt>, stmt: Stmt) -> Result<List<Stmt>, Memory>
    ensures { IfOk result (λ b. b ≡ done ++ stmt ∷ []) }
{
    match done.push(stmt) {
        Ok(()) => Ok(done),
        Err(_) => Err(Memory),
    }
}

/// One more clause.
#[tactic(auto, using(crate::proofs::Views::views))]
pub(crate) fn add_clause(
    mut clauses: List<Clause>,
    head: Head,
    condition: Expr,
    body: List<Stmt>,
) -> Result<List<Clause>, Memory>
    ensures { IfOk result (λ cs. clauses_of cs ≡ with_clause (clauses_of clauses) (record { head = head; condition = condition }) (stmts_of body)) }
{
    match clauses.push(Clause {
        head,
        condition,
        body,
    }) {
        Ok(()) => Ok(clauses),
        Err(_) => Err(Memory),
    }
}

impl Held {
    /// Nothing yet.
    pub(crate) fn new(alloc: Global) -> Held
        ensures { held_of result ≡ nothing_held }
    {
        Held {
            done: List::new(alloc),
            group: List::new(alloc),
        }
    }

    /// All statements, the group among them.
    #[tactic(auto, using(crate::proofs::Views::views))]
    pub(crate) fn all(self) -> Result<List<Stmt>, Memory>
        ensures { IfOk result (λ b. stmts_of b ≡ all_of (held_of self)) }
    {
        let Held { done, group } = self;
        if group.is_empty() {
            return Ok(done);
        }
        Ok(put(done, Stmt::Options(group))?)
    }

    /// One more statement that is no option.
    #[tactic(auto, using(crate::proofs::Views::views))]
    pub(crate) fn add_stmt(self, alloc: Global, stmt: Stmt) -> Result<Held, Memory>
        ensures { IfOk result (λ h. held_of h ≡ with_stmt (held_of self) (stmt_of stmt)) }
    {
        let done = put(self.all()?, stmt)?;
        Ok(Held {
            done,
            group: List::new(alloc),
        })
    }

    /// One more option.
    #[tactic(auto, using(crate::proofs::Views::views))]
    pub(crate) fn add_option(
        self,
        text: LineText,
        condition: Option<Expr>,
        body: List<Stmt>,
    ) -> Result<Held, Memory>
        ensures { IfOk result (λ h. held_of h ≡ with_option (held_of self) (record { text = text; condition = condition }) (stmts_of body)) }
    {
        let Held { done, mut group } = self;
        match group.push(OptionItem {
            text,
            condition,
            body,
        }) {
            Ok(()) => Ok(Held { done, group }),
            Err(_) => Err(Memory),
        }
    }
}

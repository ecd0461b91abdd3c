//! The statements of a node.
ghost use Rattle.std.specs.Prelude.{◌≡◌, [], true, IfOk};
ghost use Rattle.yarn_blocks.specs.Block.{Block};
ghost use Rattle.yarn_blocks.specs.Verdict.{IsShallow};
ghost use Rattle.yarn_blocks.specs.View.{stmts_of};
ghost use Rattle.yarn_tree.specs.Bare.{AreBare};

use std::alloc::Global;
use std::marker::Model;
use yarn_base::{List, Memory};
use yarn_blocks::{BodyLines, Stmt, build};

/// The statements of a node. Contracts see the list of them.
#[derive(Debug, Drop)]
pub struct Body {
    stmts: List<Stmt>,
    is_bare: bool,
}

impl Model for Body {
    ghost use Rattle.std.specs.Prelude.{List, ◌≡◌, true};
    ghost use Rattle.std.specs.Coded.{codes};
    ghost use Rattle.yarn_blocks.specs.contracts.tree.Stmt as stmt;
    ghost use Rattle.yarn_blocks.specs.declared.tree.Stmt.{Stmt};

    ghost Value = { List Stmt };

    ghost coded = { Prim.hlevel (codes, stmt.the_row.coded) };

    ghost use Rattle.yarn_blocks.specs.View.{stmts_of};
    ghost use Rattle.yarn_tree.specs.Bare.{AreBare};

    ghost view = { λ b. b.stmts };

    ghost invariant = { λ b. b.is_bare ≡ true → AreBare (stmts_of b.stmts) };
}

impl Body {
    /// These statements.
    pub fn new(stmts: List<Stmt>) -> Body
        ensures { result ≡ stmts }
    {
        Body {
            stmts,
            is_bare: false,
        }
    }

    /// The statements that the lines of a body stand for.
    pub(crate) fn of(alloc: Global, lines: BodyLines) -> Result<Body, Memory>
        requires { IsShallow lines }
        ensures { IfOk result (λ body. Block lines [] (stmts_of body)) }
    {
        let is_bare = lines.lines().take_notable().is_none();
        let stmts = build(alloc, lines)?;
        Ok(Body { stmts, is_bare })
    }

    /// The statements, in order.
    pub fn as_slice(&self) -> &[Stmt]
        ensures { result.now ≡ self.now }
    {
        self.stmts.as_slice()
    }

    /// Whether it is known that all are lines that are said, with neither substitutions nor hashtags.
    pub fn is_bare(&self) -> bool
        ensures { result ≡ true → AreBare (stmts_of self.now) }
    {
        self.is_bare
    }
}

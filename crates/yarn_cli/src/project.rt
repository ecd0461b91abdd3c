//! The project that sources are.
ghost use Rattle.std.specs.Prelude.{[]};
ghost use Rattle.yarn_tree.specs.Reading.{reading_of};
ghost use Rattle.yarn_cli.specs.Answers.{IsTreeAnswer};
ghost use Rattle.yarn_cli.specs.Outcome.{trees_of};

use std::alloc::Global;
use yarn_base::{List, SourceFile};
use yarn_tree::{Project, ProjectFault, read_project};

/// Reads the sources. The game has no functions.
#[tactic(auto, using(crate::proofs::TreeLemmas::trees_answer))]
pub(crate) fn project_of(alloc: Global, sources: List<SourceFile>) -> Result<Project, ProjectFault>
    ensures { IsTreeAnswer (trees_of (reading_of [] sources)) result }
{
    let signatures = List::new(alloc);
    read_project(alloc, sources, &signatures)
}

//! The one typing of a project (docs/language.md, Typing).
ghost use Rattle.std.specs.Prelude.{◌≤◌, ◌+◌, ◌*◌, map};
ghost use Rattle.yarn_tree.specs.Trees.{file_tree};
ghost use Rattle.yarn_types.specs.Units.{units_size};
ghost use Rattle.yarn_infer.specs.Units.{units_of};
ghost use Rattle.yarn_infer.specs.Typings.{IsKinding, kinding_of};

use crate::units::units_of;
use std::alloc::Global;
use std::sync::ledger::Ledger;
use yarn_base::Steps;
use yarn_tree::Project;
use yarn_types::{TypeFault, Typing, infer_units};
use yarn_value::Signatures;

/// The one typing that fits the project, or why there is none. The project was read with these signatures.
#[tactic(auto, using(crate::proofs::CountLemmas::is_kinding))]
pub fn infer<L: Ledger>(
    alloc: Global,
    project: &Project,
    signatures: &Signatures,
    steps: &mut Steps<L>,
) -> Result<Typing, TypeFault>
    ensures kinding { IsKinding (kinding_of signatures.now (units_of (map file_tree project.now.files))) result }
    ensures steps { steps.new ≤ steps.old + 16 * units_size (units_of (map file_tree project.now.files)) }
{
    let units = units_of(alloc, project)?;
    infer_units(alloc, &units, signatures, steps)
}

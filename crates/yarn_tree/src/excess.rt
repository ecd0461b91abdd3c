//! The first of what is too many of a kind.
ghost use Rattle.std.specs.Prelude.{◌≡◌, IfOk, map};
ghost use Rattle.yarn_tree.specs.Checks.{first_excess};
ghost use Rattle.yarn_tree.specs.Places.{is_before, earliest};
ghost use Rattle.yarn_tree.specs.Uses.{uses_in, use_at};

use crate::checks::{extra_node_in, first_noted};
use crate::uses::UsedAt;
use crate::variables::extra_variable;
use std::alloc::Global;
use yarn_base::{Memory, Place};
use yarn_nodes::{FileRead, Note};

/// The first place with one too many: a substitution of a line, an option of a group, a node, or a variable.
pub(crate) fn first_excess(
    alloc: Global,
    reads: &[FileRead],
    uses: &[UsedAt],
) -> Result<Option<Place>, Memory>
    requires { map use_at uses.now ≡ uses_in reads.now }
    ensures { IfOk result (λ place. place ≡ first_excess reads.now) }
{
    let variable = extra_variable(alloc, uses)?;
    let node = earliest(extra_node_in(reads), variable);
    let option = earliest(first_noted(Note::TooMany, reads), node);
    Ok(earliest(first_noted(Note::ManyHoles, reads), option))
}

fn earliest(a: Option<Place>, b: Option<Place>) -> Option<Place>
    ensures { result ≡ earliest a b }
{
    match a {
        None => b,
        Some(a) => match b {
            None => Some(a),
            Some(b) => Some(if is_before(b, a) { b } else { a }),
        },
    }
}

fn is_before(a: Place, b: Place) -> bool
    ensures { result ≡ is_before a b }
{
    a.file < b.file || (a.file == b.file && a.line < b.line)
}

//! The shape of an instruction.
ghost use Rattle.std.specs.Prelude.{◌≡◌, ◌<◌, ◌≤◌, IfOk, None, length, map, get_or};
ghost use Rattle.std.specs.Option.{option_map};
ghost use Rattle.yarn_check.specs.Pass.{Nothing, came_to, the_shape};
ghost use Rattle.yarn_check.specs.ShapeAt.{shape_of};
ghost use Rattle.yarn_check.specs.Views.{cells_of, entry_of, stack_of};

use crate::ShapeEntry;
use crate::coming::Coming;
use crate::names::Names;
use crate::node_walk::{Walked, walk};
use crate::stack::Stack;
use std::alloc::Global;
use yarn_base::{List, Memory};
use yarn_code::Coded;

/// What stands on the stack when an instruction is reached, and which options wait (docs/instructions.md, Shapes).
#[derive(Debug, Drop)]
pub struct Shape {
    /// The entries of the stack, the top last.
    pub entries: List<ShapeEntry>,
    /// The labels of the options that were added and not shown yet, in order.
    pub pending: List<u32>,
}

impl Shape {
    // The shape that the pass has as a stack.
    fn of(alloc: Global, stack: &Stack) -> Result<Shape, Memory>
        ensures { IfOk result (λ shape. shape_of shape ≡ stack_of stack.now) }
    {
        let entries = copied(alloc, stack.entries.as_slice())?;
        let pending = stack.pending.copy()?;
        Ok(Shape { entries, pending })
    }
}

// Equal entries.
fn copied(alloc: Global, entries: &[ShapeEntry]) -> Result<List<ShapeEntry>, Memory>
    ensures { IfOk result (λ made. made ≡ entries.now) }
{
    let mut made = Vec::new(alloc);
    for entry in entries {
        made.push(entry.copy()?)?;
    }
    Ok(List::from_vec(made))
}

/// The shape of the instruction at that place of the code of a node, by a pass over those before it.
pub(crate) fn shape_in(
    alloc: Global,
    names: &Names<'_>,
    code: &[Coded],
    at: usize,
) -> Result<Option<Shape>, Memory>
    ensures there { IfOk result (λ told. at < length code.now → option_map shape_of told ≡ came_to names.now code.now at) }
    ensures past { IfOk result (λ told. length code.now ≤ at → told ≡ None) }
{
    if code.len() <= at {
        return Ok(None);
    }
    match walk(alloc, names, code, at)? {
        Walked::Ended(cells) => shape_among(alloc, cells.as_slice(), at),
        Walked::Faulted(..) => Ok(None),
    }
}

// The one shape that came to that place.
fn shape_among(alloc: Global, cells: &[Coming], at: usize) -> Result<Option<Shape>, Memory>
    ensures { IfOk result (λ told. option_map shape_of told ≡ the_shape (get_or (cells_of cells.now) at Nothing)) }
{
    match cells.get(at) {
        Some(Coming::Alone(stack)) => Ok(Some(Shape::of(alloc, stack)?)),
        _ => Ok(None),
    }
}

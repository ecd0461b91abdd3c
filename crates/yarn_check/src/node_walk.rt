//! The pass over a node.
ghost use Rattle.std.specs.Prelude.{◌≡◌, ◌<◌, ◌≤◌, ◌+◌, ◌^◌, IfOk, map, length, get_or, drop, take};
ghost use Rattle.std.specs.Option.{option_and_then};
ghost use Rattle.yarn_check.specs.Shapes.{flow as flow_of};
ghost use Rattle.yarn_check.specs.Pass.{put as put_of, put_all as put_all_of, sized, step as step_of, walk as walk_of, beginning, Nothing};
ghost use Rattle.yarn_check.specs.Views.{stack_of, coming_of, cells_of, goal_of, if_put, stepped_of, stepped_from, walked_of, walked_from};

use crate::coming::Coming;
use crate::flow::{Goal, flow};
use crate::names::Names;
use crate::stack::Stack;
use std::alloc::Global;
use std::mem;
use yarn_base::Memory;
use yarn_code::{Coded, Instr};

/// What is wrong at an instruction.
#[derive(Clone, Copy, Debug)]
pub(crate) enum NodeFault {
    /// Two shapes come to it, or it can't run, or not go on.
    Shapeless,
    /// Its shape is too large.
    Deep,
}

/// How a walk ends: with what came to the instructions behind it, or at the instruction with a fault.
#[derive(Debug, Drop)]
pub(crate) enum Walked {
    Ended(Vec<Coming>),
    Faulted(NodeFault, usize),
}

/// Follows the shapes over the first instructions of a node, so many.
pub(crate) fn walk(
    alloc: Global,
    names: &Names<'_>,
    code: &[Coded],
    end: usize,
) -> Result<Walked, Memory>
    requires some { 0 < length code.now }
    requires within { end ≤ length code.now }
    ensures { IfOk result (λ r. walked_from end (walked_of r) ≡ walked_from end (walk_of names.now (take end code.now) 0 (beginning (length code.now)))) }
{
    let mut cells = begin(alloc, code.len())?;
    for place in 0..end {
        let fault = step(alloc, names, &code[place].instr, place, &mut cells)?;
        if let Some(fault) = fault {
            return Ok(Walked::Faulted(fault, place));
        }
    }
    Ok(Walked::Ended(cells))
}

// What comes to each instruction before any is run.
fn begin(alloc: Global, count: usize) -> Result<Vec<Coming>, Memory>
    requires { 0 < count }
    ensures whole { IfOk result (λ cells. cells_of cells.items ≡ beginning count) }
    ensures count { IfOk result (λ cells. length cells.items ≡ count) }
{
    let mut cells = Vec::new(alloc);
    cells.push(Coming::Alone(Box::new(alloc, Stack::new(alloc))?))?;
    for _ in 1..count {
        cells.push(Coming::Nothing)?;
    }
    Ok(cells)
}

// The instruction at that place, on what came to it.
fn step(
    alloc: Global,
    names: &Names<'_>,
    instr: &Instr,
    place: usize,
    cells: &mut Vec<Coming>,
) -> Result<Option<NodeFault>, Memory>
    requires { place < length cells.old.items }
    ensures whole { IfOk result (λ r. stepped_from (place + 1) (stepped_of r cells.new.items) ≡ stepped_from (place + 1) (step_of names.now instr.now place (cells_of cells.old.items) (get_or (cells_of cells.old.items) place Nothing))) }
    ensures count { length cells.new.items ≡ length cells.old.items }
{
    match take_out(cells, place) {
        Coming::Nothing => Ok(None),
        Coming::Alone(stack) => run(alloc, names, instr, place, stack, cells),
        Coming::Several => Ok(Some(NodeFault::Shapeless)),
    }
}

// Takes out what came to the instruction at that place.
fn take_out(cells: &mut Vec<Coming>, place: usize) -> Coming
    requires { place < length cells.old.items }
    ensures came { coming_of result ≡ get_or (cells_of cells.old.items) place Nothing }
    ensures left { drop (place + 1) (cells_of cells.new.items) ≡ drop (place + 1) (cells_of cells.old.items) }
    ensures count { length cells.new.items ≡ length cells.old.items }
{
    mem::replace(&mut cells[place], Coming::Nothing)
}

// The instruction at that place, on the one shape that came to it.
fn run(
    alloc: Global,
    names: &Names<'_>,
    instr: &Instr,
    place: usize,
    stack: Box<Stack>,
    cells: &mut Vec<Coming>,
) -> Result<Option<NodeFault>, Memory>
    requires { place + 1 < 2 ^ 64 }
    ensures whole { IfOk result (λ r. stepped_of r cells.new.items ≡ sized (stack_of stack.value) (option_and_then (λ goals. put_all_of place goals (cells_of cells.old.items)) (flow_of names.now instr.now place (stack_of stack.value).entries (stack_of stack.value).pending))) }
    ensures count { length cells.new.items ≡ length cells.old.items }
{
    let small = stack.is_small();
    let Some(goals) = flow(alloc, names, instr, place, stack)? else {
        return Ok(Some(NodeFault::Shapeless));
    };
    if !put_all(cells, place, goals) {
        Ok(Some(NodeFault::Shapeless))
    } else if small {
        Ok(None)
    } else {
        Ok(Some(NodeFault::Deep))
    }
}

// Puts all goals of the instruction at that place, and says whether each is later in the node.
fn put_all(cells: &mut Vec<Coming>, place: usize, goals: Vec<Goal>) -> bool
    ensures whole { if_put result cells.new.items ≡ put_all_of place (map goal_of goals.items) (cells_of cells.old.items) }
    ensures count { length cells.new.items ≡ length cells.old.items }
{
    for goal in goals {
        if !put(cells, place, goal) {
            return false;
        }
    }
    true
}

// Puts a goal where it goes, and says whether that is later in the node.
fn put(cells: &mut Vec<Coming>, place: usize, goal: Goal) -> bool
    ensures whole { if_put result cells.new.items ≡ put_of place (goal_of goal) (cells_of cells.old.items) }
    ensures count { length cells.new.items ≡ length cells.old.items }
{
    let Goal { place: to, stack } = goal;
    if place < to && to < cells.len() {
        let came = mem::replace(&mut cells[to], Coming::Nothing);
        cells[to] = came.and(stack);
        true
    } else {
        false
    }
}

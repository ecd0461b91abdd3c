//! What each instruction does on a stack.
ghost use Rattle.std.specs.Prelude.{◌≡◌, ◌<◌, ◌+◌, ◌^◌, ◌++◌, IfOk, ◌∷◌, [], ℕ, Some, None, map, if◌then◌else◌};
ghost use Rattle.yarn_value.specs.declared.value.Kind.TheVariants as kind;
ghost use Rattle.yarn_check.specs.Shapes.{flow as flow_of, goal, goes_on, on_any, on_condition, on_kind, on_known, on_labels, if_nothing, if_something, take_kinds, Of, Destination, shape, kind_called, kind_under};
ghost use Rattle.yarn_check.specs.Views.{entry_of, goals_of, goal_of, stack_of};

use crate::ShapeEntry;
use crate::names::Names;
use crate::stack::Stack;
use crate::values::{take, take_truth};
use std::alloc::Global;
use yarn_base::{List, Memory, Text};
use yarn_code::Instr;
use yarn_value::Kind;

/// A place to which an instruction can go, with the stack there.
#[derive(Debug, Drop)]
pub(crate) struct Goal {
    pub(crate) place: usize,
    pub(crate) stack: Box<Stack>,
}

/// What the instruction at that place does on the stack: all its goals, and none where it can't run.
pub(crate) fn flow(
    alloc: Global,
    names: &Names<'_>,
    instr: &Instr,
    place: usize,
    stack: Box<Stack>,
) -> Result<Option<Vec<Goal>>, Memory>
    requires { place + 1 < 2 ^ 64 }
    ensures { IfOk result (λ r. goals_of r ≡ flow_of names.now instr.now place (stack_of stack.value).entries (stack_of stack.value).pending) }
{
    match instr {
        Instr::JumpTo(label) => one(alloc, *label as usize, stack),
        Instr::Jump => jump(alloc, stack),
        Instr::RunLine(count, _) => give(alloc, *count, place, stack),
        Instr::RunCommand(count, _) => give(alloc, *count, place, stack),
        Instr::AddOption(count, _, label, conditional) => {
            add_option(alloc, *count, *label, *conditional, place, stack)
        }
        Instr::ShowOptions => show_options(alloc, place, stack),
        Instr::PushString(_) => push(alloc, ShapeEntry::Str, place, stack),
        Instr::PushFloat(_) => push(alloc, ShapeEntry::Number, place, stack),
        Instr::PushBool(_) => push(alloc, ShapeEntry::Truth, place, stack),
        Instr::PushNull => push(alloc, ShapeEntry::Null, place, stack),
        Instr::JumpIfFalse(label) => jump_if_false(alloc, *label, place, stack),
        Instr::Pop => pop(alloc, place, stack),
        Instr::CallFunc(count, name) => call(alloc, names, *count, name, place, stack),
        Instr::PushVariable(name) => push_variable(alloc, names, name, place, stack),
        Instr::StoreVariable(name) => store_variable(alloc, names, name, place, stack),
        Instr::Stop => stop(alloc, stack),
        Instr::RunNode => run_node(alloc, stack),
    }
}

// The one goal.
fn one(alloc: Global, place: usize, stack: Box<Stack>) -> Result<Option<Vec<Goal>>, Memory>
    ensures { IfOk result (λ r. goals_of r ≡ Some (goal place (stack_of stack.value) ∷ [])) }
{
    let mut goals = Vec::new(alloc);
    goals.push(Goal { place, stack })?;
    Ok(Some(goals))
}

// JUMP.
fn jump(alloc: Global, stack: Box<Stack>) -> Result<Option<Vec<Goal>>, Memory>
    ensures { IfOk result (λ r. goals_of r ≡ on_labels (stack_of stack.value).entries (λ labels. Some (map (λ label. goal label (stack_of stack.value)) labels))) }
{
    match stack.entries.as_slice().last() {
        Some(ShapeEntry::Destination(labels)) => {
            Ok(Some(all(alloc, labels.as_slice(), &stack)?))
        }
        Some(ShapeEntry::Number) => Ok(None),
        Some(ShapeEntry::Str) => Ok(None),
        Some(ShapeEntry::Truth) => Ok(None),
        Some(ShapeEntry::Null) => Ok(None),
        None => Ok(None),
    }
}

// A goal at each of these labels.
fn all(alloc: Global, labels: &[u32], stack: &Stack) -> Result<Vec<Goal>, Memory>
    ensures { IfOk result (λ goals. map goal_of goals.items ≡ map (λ label. goal label (stack_of stack.now)) labels.now) }
{
    let mut goals = Vec::new(alloc);
    for label in labels {
        goals.push(Goal {
            place: *label as usize,
            stack: Box::new(alloc, stack.copy(alloc)?)?,
        })?;
    }
    Ok(goals)
}

// RUN_LINE and RUN_COMMAND.
fn give(
    alloc: Global,
    count: u8,
    place: usize,
    mut stack: Box<Stack>,
) -> Result<Option<Vec<Goal>>, Memory>
    requires { place + 1 < 2 ^ 64 }
    ensures { IfOk result (λ r. goals_of r ≡ if_nothing (stack_of stack.value).pending (take_kinds count [] (stack_of stack.value).entries (λ kinds rest. goes_on place rest (stack_of stack.value).pending))) }
{
    let can = give_values(alloc, count, &mut stack)?;
    if can {
        one(alloc, place + 1, stack)
    } else {
        Ok(None)
    }
}

// Takes so many values where nothing is pending, and says whether it could.
fn give_values(alloc: Global, count: u8, stack: &mut Stack) -> Result<bool, Memory>
    ensures { IfOk result (λ can. (place : ℕ) → if_nothing stack.old.pending (take_kinds count [] (stack_of stack.old).entries (λ kinds rest. goes_on place rest stack.old.pending)) ≡ (if can then goes_on place (stack_of stack.new).entries stack.new.pending else None)) }
{
    if stack.pending.is_empty() {
        take_values(alloc, count, stack)
    } else {
        Ok(false)
    }
}

// Takes so many values, and says whether it could.
fn take_values(alloc: Global, count: u8, stack: &mut Stack) -> Result<bool, Memory>
    ensures { IfOk result (λ can. (place : ℕ) → take_kinds count [] (stack_of stack.old).entries (λ kinds rest. goes_on place rest stack.old.pending) ≡ (if can then goes_on place (stack_of stack.new).entries stack.new.pending else None)) }
{
    let kinds = take(alloc, &mut stack.entries, count)?;
    Ok(kinds.is_some())
}

// ADD_OPTION.
fn add_option(
    alloc: Global,
    count: u8,
    label: u32,
    conditional: bool,
    place: usize,
    mut stack: Box<Stack>,
) -> Result<Option<Vec<Goal>>, Memory>
    requires { place + 1 < 2 ^ 64 }
    ensures { IfOk result (λ r. goals_of r ≡ on_condition conditional (stack_of stack.value).entries (λ rest. take_kinds count [] rest (λ kinds rest1. goes_on place rest1 ((stack_of stack.value).pending ++ label ∷ [])))) }
{
    let can = add_label(alloc, count, label, conditional, &mut stack)?;
    if can {
        one(alloc, place + 1, stack)
    } else {
        Ok(None)
    }
}

// Takes what an option takes and adds its label, and says whether it could.
fn add_label(
    alloc: Global,
    count: u8,
    label: u32,
    conditional: bool,
    stack: &mut Stack,
) -> Result<bool, Memory>
    ensures { IfOk result (λ can. (place : ℕ) → on_condition conditional (stack_of stack.old).entries (λ rest. take_kinds count [] rest (λ kinds rest1. goes_on place rest1 (stack.old.pending ++ label ∷ []))) ≡ (if can then goes_on place (stack_of stack.new).entries stack.new.pending else None)) }
{
    if !take_truth(&mut stack.entries, conditional) {
        return Ok(false);
    }
    match take(alloc, &mut stack.entries, count)? {
        Some(_) => {
            match stack.pending.push(label) {
                Ok(()) => Ok(true),
                Err(_) => Err(Memory),
            }
        }
        None => Ok(false),
    }
}

// SHOW_OPTIONS.
fn show_options(alloc: Global, place: usize, stack: Box<Stack>) -> Result<Option<Vec<Goal>>, Memory>
    requires { place + 1 < 2 ^ 64 }
    ensures { IfOk result (λ r. goals_of r ≡ if_something (stack_of stack.value).pending (goes_on place (Destination (stack_of stack.value).pending ∷ (stack_of stack.value).entries) [])) }
{
    if stack.pending.is_empty() {
        return Ok(None);
    }
    let Stack {
        mut entries,
        pending,
    } = Box::into_inner(stack);
    entries.push(ShapeEntry::Destination(pending))?;
    let shown = Stack {
        entries,
        pending: List::new(alloc),
    };
    one(alloc, place + 1, Box::new(alloc, shown)?)
}

// PUSH_STRING, PUSH_FLOAT, PUSH_BOOL, PUSH_NULL.
fn push(
    alloc: Global,
    entry: ShapeEntry,
    place: usize,
    mut stack: Box<Stack>,
) -> Result<Option<Vec<Goal>>, Memory>
    requires { place + 1 < 2 ^ 64 }
    ensures { IfOk result (λ r. goals_of r ≡ goes_on place (entry_of entry ∷ (stack_of stack.value).entries) (stack_of stack.value).pending) }
{
    stack.entries.push(entry)?;
    one(alloc, place + 1, stack)
}

// JUMP_IF_FALSE.
fn jump_if_false(
    alloc: Global,
    label: u32,
    place: usize,
    stack: Box<Stack>,
) -> Result<Option<Vec<Goal>>, Memory>
    requires { place + 1 < 2 ^ 64 }
    ensures { IfOk result (λ r. goals_of r ≡ on_kind kind.Truth (stack_of stack.value).entries (λ rest. Some (goal label (stack_of stack.value) ∷ goal (place + 1) (stack_of stack.value) ∷ []))) }
{
    if stack.has_on_top(Kind::Truth) {
        both(alloc, label as usize, place + 1, stack)
    } else {
        Ok(None)
    }
}

// A goal at each of these two places.
fn both(
    alloc: Global,
    one: usize,
    other: usize,
    stack: Box<Stack>,
) -> Result<Option<Vec<Goal>>, Memory>
    ensures { IfOk result (λ r. goals_of r ≡ Some (goal one (stack_of stack.value) ∷ goal other (stack_of stack.value) ∷ [])) }
{
    let mut goals = Vec::new(alloc);
    goals.push(Goal {
        place: one,
        stack: Box::new(alloc, stack.copy(alloc)?)?,
    })?;
    goals.push(Goal {
        place: other,
        stack,
    })?;
    Ok(Some(goals))
}

// POP.
fn pop(alloc: Global, place: usize, mut stack: Box<Stack>) -> Result<Option<Vec<Goal>>, Memory>
    requires { place + 1 < 2 ^ 64 }
    ensures { IfOk result (λ r. goals_of r ≡ on_any (stack_of stack.value).entries (λ rest. goes_on place rest (stack_of stack.value).pending)) }
{
    match stack.entries.pop() {
        Some(_) => one(alloc, place + 1, stack),
        None => Ok(None),
    }
}

// CALL_FUNC.
fn call(
    alloc: Global,
    names: &Names<'_>,
    count: u8,
    name: &Text,
    place: usize,
    mut stack: Box<Stack>,
) -> Result<Option<Vec<Goal>>, Memory>
    requires { place + 1 < 2 ^ 64 }
    ensures { IfOk result (λ r. goals_of r ≡ take_kinds count [] (stack_of stack.value).entries (λ kinds rest. on_known (kind_called names.now name.now kinds) (λ k. goes_on place (Of k ∷ rest) (stack_of stack.value).pending))) }
{
    let can = call_function(alloc, names, count, name, &mut stack)?;
    if can {
        one(alloc, place + 1, stack)
    } else {
        Ok(None)
    }
}

// Takes the arguments of a function and pushes what it gives, and says whether it could.
fn call_function(
    alloc: Global,
    names: &Names<'_>,
    count: u8,
    name: &Text,
    stack: &mut Stack,
) -> Result<bool, Memory>
    ensures { IfOk result (λ can. (place : ℕ) → take_kinds count [] (stack_of stack.old).entries (λ kinds rest. on_known (kind_called names.now name.now kinds) (λ k. goes_on place (Of k ∷ rest) stack.old.pending)) ≡ (if can then goes_on place (stack_of stack.new).entries stack.new.pending else None)) }
{
    match take(alloc, &mut stack.entries, count)? {
        Some(kinds) => {
            let result = names.call(name, kinds.as_slice());
            push_result(result, stack)
        }
        None => Ok(false),
    }
}

// Pushes a value of that kind where it is known, and says whether it is.
fn push_result(kind: Option<Kind>, stack: &mut Stack) -> Result<bool, Memory>
    ensures { IfOk result (λ can. (place : ℕ) → on_known kind (λ k. goes_on place (Of k ∷ (stack_of stack.old).entries) stack.old.pending) ≡ (if can then goes_on place (stack_of stack.new).entries stack.new.pending else None)) }
{
    match kind {
        Some(known) => {
            stack.entries.push(ShapeEntry::of(known))?;
            Ok(true)
        }
        None => Ok(false),
    }
}

// PUSH_VARIABLE.
fn push_variable(
    alloc: Global,
    names: &Names<'_>,
    name: &Text,
    place: usize,
    stack: Box<Stack>,
) -> Result<Option<Vec<Goal>>, Memory>
    requires { place + 1 < 2 ^ 64 }
    ensures { IfOk result (λ r. goals_of r ≡ on_known (kind_under names.now name.now) (λ k. goes_on place (Of k ∷ (stack_of stack.value).entries) (stack_of stack.value).pending)) }
{
    push_known(alloc, names.variable(name), place, stack)
}

// A value of that kind, where it is known, is pushed.
fn push_known(
    alloc: Global,
    kind: Option<Kind>,
    place: usize,
    stack: Box<Stack>,
) -> Result<Option<Vec<Goal>>, Memory>
    requires { place + 1 < 2 ^ 64 }
    ensures { IfOk result (λ r. goals_of r ≡ on_known kind (λ k. goes_on place (Of k ∷ (stack_of stack.value).entries) (stack_of stack.value).pending)) }
{
    match kind {
        Some(known) => push(alloc, ShapeEntry::of(known), place, stack),
        None => Ok(None),
    }
}

// STORE_VARIABLE.
fn store_variable(
    alloc: Global,
    names: &Names<'_>,
    name: &Text,
    place: usize,
    stack: Box<Stack>,
) -> Result<Option<Vec<Goal>>, Memory>
    requires { place + 1 < 2 ^ 64 }
    ensures { IfOk result (λ r. goals_of r ≡ on_known (kind_under names.now name.now) (λ k. on_kind k (stack_of stack.value).entries (λ rest. goes_on place (stack_of stack.value).entries (stack_of stack.value).pending))) }
{
    match names.variable(name) {
        Some(kind) => {
            if stack.has_on_top(kind) {
                one(alloc, place + 1, stack)
            } else {
                Ok(None)
            }
        }
        None => Ok(None),
    }
}

// STOP.
fn stop(alloc: Global, stack: Box<Stack>) -> Result<Option<Vec<Goal>>, Memory>
    ensures { IfOk result (λ r. goals_of r ≡ if_nothing (stack_of stack.value).pending (Some [])) }
{
    if stack.pending.is_empty() {
        Ok(Some(Vec::new(alloc)))
    } else {
        Ok(None)
    }
}

// RUN_NODE.
fn run_node(alloc: Global, stack: Box<Stack>) -> Result<Option<Vec<Goal>>, Memory>
    ensures { IfOk result (λ r. goals_of r ≡ if_nothing (stack_of stack.value).pending (on_kind kind.Str (stack_of stack.value).entries (λ rest. Some []))) }
{
    if stack.pending.is_empty() {
        let can = stack.has_on_top(Kind::Str);
        end(alloc, can)
    } else {
        Ok(None)
    }
}

// No goal, where the instruction can run.
fn end(alloc: Global, can: bool) -> Result<Option<Vec<Goal>>, Memory>
    ensures { IfOk result (λ r. goals_of r ≡ (if can then Some [] else None)) }
{
    if can {
        Ok(Some(Vec::new(alloc)))
    } else {
        Ok(None)
    }
}

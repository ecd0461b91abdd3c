//! The first look at the instructions of a program.
ghost use Rattle.std.specs.Prelude.{◌≡◌, length, None, ltb, IfOk, IfErr};
ghost use Rattle.yarn_value.specs.Signatures.{arity_of};
ghost use Rattle.yarn_check.specs.Shapes.{kind_under, holes_under};
ghost use Rattle.yarn_check.specs.Faults.{BadLabel, BackwardJump, UnknownVariable, UnknownFunction, UnknownLine};
ghost use Rattle.yarn_check.specs.Pass.{first_of, is_count, is_known, look as look_of, look_node as look_node_of, unless};
ghost use Rattle.yarn_check.specs.Told.{Tells};
ghost use Rattle.yarn_check.specs.declared.fault.CheckFault.TheVariants as fault;

use crate::CheckFault;
use crate::names::Names;
use yarn_base::Text;
use yarn_code::{CodeNode, Instr};

/// Looks at all instructions in order.
pub(crate) fn look_all(names: &Names<'_>) -> Result<(), CheckFault>
    ensures { Tells (first_of (look_node_of names.now) 0 names.now.nodes) result }
{
    let nodes = names.nodes();
    for node in 0..nodes.len() {
        look_node(names, node, &nodes[node])?;
    }
    Ok(())
}

fn look_node(names: &Names<'_>, at: usize, node: &CodeNode) -> Result<(), CheckFault>
    ensures { Tells (look_node_of names.now at node.now) result }
{
    let code = node.code.as_slice();
    for place in 0..code.len() {
        look(names, node, at, place, &code[place].instr)?;
    }
    Ok(())
}

// Looks at one instruction.
fn look(
    names: &Names<'_>,
    node: &CodeNode,
    at: usize,
    place: usize,
    instr: &Instr,
) -> Result<(), CheckFault>
    ensures { Tells (look_of names.now node.now at place instr.now) result }
{
    match instr {
        Instr::JumpTo(label) => look_at_label(node, at, place, *label),
        Instr::Jump => Ok(()),
        Instr::RunLine(count, id) => look_for_line(names, *count, id),
        Instr::RunCommand(_, _) => Ok(()),
        Instr::AddOption(count, id, label, _) => {
            look_at_label(node, at, place, *label)?;
            look_for_line(names, *count, id)
        }
        Instr::ShowOptions => Ok(()),
        Instr::PushString(_) => Ok(()),
        Instr::PushFloat(_) => Ok(()),
        Instr::PushBool(_) => Ok(()),
        Instr::PushNull => Ok(()),
        Instr::JumpIfFalse(label) => look_at_label(node, at, place, *label),
        Instr::Pop => Ok(()),
        Instr::CallFunc(count, name) => look_for_function(names, *count, name),
        Instr::PushVariable(name) => look_for_variable(names, name),
        Instr::StoreVariable(name) => look_for_variable(names, name),
        Instr::Stop => Ok(()),
        Instr::RunNode => Ok(()),
    }
}

// A label is in the node, and later than the instruction.
fn look_at_label(node: &CodeNode, at: usize, place: usize, label: u32) -> Result<(), CheckFault>
    ensures { Tells (unless (ltb label (length node.now.code)) (BadLabel at place) (unless (ltb place label) (BackwardJump at place) None)) result }
{
    if label as usize >= node.code.len() {
        let (at, place) = words(at, place)?;
        return Err(CheckFault::BadLabel(at, place));
    }
    if label as usize <= place {
        let (at, place) = words(at, place)?;
        return Err(CheckFault::BackwardJump(at, place));
    }
    Ok(())
}

fn look_for_variable(names: &Names<'_>, name: &Text) -> Result<(), CheckFault>
    ensures { Tells (unless (is_known (kind_under names.now name.now)) (UnknownVariable name.now) None) result }
{
    match names.variable(name) {
        Some(_) => Ok(()),
        None => {
            let name = name.copy()?;
            Err(CheckFault::UnknownVariable(name))
        }
    }
}

fn look_for_function(names: &Names<'_>, count: u8, name: &Text) -> Result<(), CheckFault>
    ensures { Tells (unless (is_count count (arity_of names.now.functions name.now)) (UnknownFunction name.now) None) result }
{
    if has_count(names.arity(name), count as usize) {
        Ok(())
    } else {
        let name = name.copy()?;
        Err(CheckFault::UnknownFunction(name))
    }
}

fn look_for_line(names: &Names<'_>, count: u8, id: &Text) -> Result<(), CheckFault>
    ensures { Tells (unless (is_count count (holes_under names.now.lines id.now)) (UnknownLine id.now) None) result }
{
    if has_holes(names.holes(id), count) {
        Ok(())
    } else {
        let id = id.copy()?;
        Err(CheckFault::UnknownLine(id))
    }
}

fn has_count(known: Option<usize>, count: usize) -> bool
    ensures { result ≡ is_count count known }
{
    match known {
        Some(own) => own == count,
        None => false,
    }
}

fn has_holes(known: Option<u8>, count: u8) -> bool
    ensures { result ≡ is_count count known }
{
    match known {
        Some(own) => own == count,
        None => false,
    }
}

/// The places of a node and of an instruction as a fault has them.
pub(crate) fn words(node: usize, place: usize) -> Result<(u32, u32), CheckFault>
    ensures words { IfOk result (λ pair. (pair.0 ≡ node) × (pair.1 ≡ place)) }
    ensures memory { IfErr result (λ f. f ≡ fault.Memory) }
{
    match (u32::try_from(node), u32::try_from(place)) {
        (Ok(node), Ok(place)) => Ok((node, place)),
        _ => Err(CheckFault::Memory),
    }
}

//! Programs that were checked.
ghost use Rattle.std.specs.Prelude.{◌≡◌, ◌<◌, All, None, Some, IfOk, IfErr, OnOk, length};
ghost use Rattle.std.specs.Option.{option_copied, option_map};
ghost use Rattle.yarn_code.specs.Fields.{HasFields, IsNodeField};
ghost use Rattle.yarn_check.specs.Shapes.{IsValid};
ghost use Rattle.yarn_check.specs.Faults.{told};
ghost use Rattle.yarn_check.specs.ShapeAt.{IsShapeAt, shape_of};
ghost use Rattle.yarn_check.specs.Missing.{first_lacking};
ghost use Rattle.yarn_check.specs.Pass.{first_of};
ghost use Rattle.yarn_check.specs.Told.{IsRefused, Judges, Names as AreNames, Tells, pass_node as pass_node_of, whole_fault};
ghost use Rattle.yarn_check.specs.Views.{node_fault};

use crate::first_look::{look_all, words};
use crate::missing::first_missing;
use crate::names::Names;
use crate::node_walk::{NodeFault, Walked, walk};
use crate::shape::shape_in;
use crate::{CheckFault, Shape};
use std::alloc::Global;
use std::marker::Model;
use yarn_base::Memory;
use yarn_code::{CodeNode, Program};
use yarn_value::{Signature, Signatures};

/// A valid program, which contracts see as the program. The rule is docs/instructions.md, Shapes.
#[derive(Debug, Drop)]
pub struct Checked {
    program: Program,
}

impl Model for Checked {
    ghost use Rattle.yarn_check.specs.Told.{IsChecked};
    ghost use Rattle.yarn_code.specs.declared.program.Program.{Program};

    ghost Value = { Program };

    ghost view = { λ c. c.program };

    ghost invariant = { λ c. IsChecked c.program };
}

impl Checked {
    /// The program that was checked.
    pub fn program(&self) -> &Program
        ensures program { result.now ≡ self.now }
        ensures fields { HasFields self.now }
        ensures valid { IsValid self.now }
    {
        &self.program
    }

    /// The shape of an instruction of a node, both counted from 0: what stands on the stack when it is reached, and which
    /// options wait. `None` where no way leads to it, and where the node or the instruction isn't there.
    pub fn shape(&self, alloc: Global, node: usize, at: usize) -> Result<Option<Shape>, Memory>
        ensures { IfOk result (λ told. IsShapeAt self.now node at (option_map shape_of told)) }
    {
        match self.program.nodes.get(node) {
            Some(node) => {
                let names = Names::new(alloc, &self.program)?;
                shape_in(alloc, &names, node.code.as_slice(), at)
            }
            None => Ok(None),
        }
    }

    /// The first function of the program that the signatures lack with that signature, and none where all are there.
    pub fn first_missing(&self, signatures: &Signatures) -> Option<&Signature>
        ensures { option_copied result ≡ first_lacking self.now.functions signatures.now }
    {
        first_missing(self.program.functions.as_slice(), signatures.as_slice())
    }
}

/// Checks a program whose fields are as they may be: first all instructions are looked at in order, then the shapes of
/// each node are followed in order. An `Err` hands the program back, with its first fault or for want of memory.
pub fn check(alloc: Global, program: Program) -> Result<Checked, (Program, CheckFault)>
    requires { HasFields program }
    ensures ok { IfOk result (λ checked. checked ≡ program) }
    ensures valid { OnOk result (IsValid program) }
    ensures back { IfErr result (λ refused. refused.0 ≡ program) }
    ensures fault { IfErr result (λ refused. IsRefused program refused.1) }
    ensures none { OnOk result (whole_fault program ≡ None) }
    ensures told { IfErr result (λ refused. AreNames (whole_fault program) refused.1) }
{
    match judge(alloc, &program) {
        Ok(()) => Ok(Checked { program }),
        Err(fault) => Err((program, fault)),
    }
}

// Whether the program is valid.
fn judge(alloc: Global, program: &Program) -> Result<(), CheckFault>
    requires { HasFields program.now }
    ensures judged { Judges program.now result }
    ensures told { Tells (whole_fault program.now) result }
{
    first_fault(alloc, program)
}

// The first look at all instructions, and then the pass over all nodes.
fn first_fault(alloc: Global, program: &Program) -> Result<(), CheckFault>
    requires { All (IsNodeField program.now) program.now.nodes }
    ensures { Tells (whole_fault program.now) result }
{
    let names = Names::new(alloc, program)?;
    look_all(&names)?;
    pass_all(alloc, &names)
}

fn pass_all(alloc: Global, names: &Names<'_>) -> Result<(), CheckFault>
    requires { All (IsNodeField names.now) names.now.nodes }
    ensures { Tells (first_of (pass_node_of names.now) 0 names.now.nodes) result }
{
    let nodes = names.nodes();
    for node in 0..nodes.len() {
        pass_node(alloc, names, node, &nodes[node])?;
    }
    Ok(())
}

fn pass_node(alloc: Global, names: &Names<'_>, at: usize, node: &CodeNode) -> Result<(), CheckFault>
    requires { 0 < length node.now.code }
    ensures { Tells (pass_node_of names.now at node.now) result }
{
    let walked = walk(alloc, names, node.code.as_slice(), node.code.len())?;
    match walked {
        Walked::Ended(_) => Ok(()),
        Walked::Faulted(fault, place) => Err(shape_fault(fault, at, place)),
    }
}

// The fault of an instruction that the pass comes to.
fn shape_fault(fault: NodeFault, node: usize, place: usize) -> CheckFault
    ensures { AreNames (Some (told (node_fault fault) node place)) result }
{
    match words(node, place) {
        Ok((node, place)) => match fault {
            NodeFault::Shapeless => CheckFault::NoShape(node, place),
            NodeFault::Deep => CheckFault::TooManyDeep(node, place),
        },
        Err(fault) => fault,
    }
}

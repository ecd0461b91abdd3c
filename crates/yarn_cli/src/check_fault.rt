//! The line that a program with a fault of the checker ends with.
ghost use Rattle.std.specs.Prelude.{◌≡◌, ◌⊎◌, Option, string_bytes};
ghost use Rattle.yarn_code.specs.declared.program.Program.{Program};
ghost use Rattle.yarn_check.specs.Faults.{CheckFault as Fault};
ghost use Rattle.yarn_check.specs.Told.{Names as AreNames};
ghost use Rattle.yarn_cli.specs.Ended.{IsRefusal};
ghost use Rattle.yarn_cli.specs.List.{of_judged};
ghost use Rattle.yarn_cli.specs.Messages.{file_refused, with_name as name_text, with_places as places_text};

use crate::Status;
use crate::message::{Ended, refused_program};
use std::alloc::Global;
use yarn_check::CheckFault;

/// A program file is refused for a fault of its program.
pub(crate) fn check_refused(alloc: Global, file: &str, fault: CheckFault) -> Ended
    ensures { (program : Program) (first : Option Fault) → AreNames first fault → IsRefusal (of_judged file.now program first) result }
{
    match fault {
        CheckFault::BadLabel(node, place) => with_places(alloc, file, "BadLabel", node, place),
        CheckFault::BackwardJump(node, place) => {
            with_places(alloc, file, "BackwardJump", node, place)
        }
        CheckFault::UnknownVariable(name) => {
            with_name(alloc, file, "UnknownVariable", name.as_str())
        }
        CheckFault::UnknownFunction(name) => {
            with_name(alloc, file, "UnknownFunction", name.as_str())
        }
        CheckFault::UnknownLine(id) => with_name(alloc, file, "UnknownLine", id.as_str()),
        CheckFault::NoShape(node, place) => with_places(alloc, file, "NoShape", node, place),
        CheckFault::TooManyDeep(node, place) => {
            with_places(alloc, file, "TooManyDeep", node, place)
        }
        CheckFault::Memory => Ended::out_of_memory(alloc),
    }
}

// The fault of an instruction: its node and its place in it.
fn with_places(alloc: Global, file: &str, fault: &str, node: u32, place: u32) -> Ended
    ensures cases { (result.status ≡ Status.RefusedProgram) ⊎ (result.status ≡ Status.OutOfMemory) }
    ensures line { result.status ≡ Status.RefusedProgram → string_bytes result.line ≡ file_refused file.now (places_text fault.now node place) }
{
    match format!(in alloc; "{fault} {node} {place}") {
        Ok(told) => refused_program(alloc, file, told.as_str()),
        Err(_) => Ended::out_of_memory(alloc),
    }
}

// A name that the program doesn't have.
fn with_name(alloc: Global, file: &str, fault: &str, name: &str) -> Ended
    ensures cases { (result.status ≡ Status.RefusedProgram) ⊎ (result.status ≡ Status.OutOfMemory) }
    ensures line { result.status ≡ Status.RefusedProgram → string_bytes result.line ≡ file_refused file.now (name_text fault.now name.now) }
{
    match format!(in alloc; "{fault} {name}") {
        Ok(told) => refused_program(alloc, file, told.as_str()),
        Err(_) => Ended::out_of_memory(alloc),
    }
}

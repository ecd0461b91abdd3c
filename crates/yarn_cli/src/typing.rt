//! The kinds of a project's variables.
ghost use Rattle.std.specs.Prelude.{◌≡◌, ◌<◌, ◌⊎◌, map, string_bytes};
ghost use Rattle.yarn_tree.specs.Trees.{file_tree};
ghost use Rattle.yarn_infer.specs.Typings.{IsKinding};
ghost use Rattle.yarn_cli.specs.Kinds.{SaysFault};
ghost use Rattle.yarn_cli.specs.Messages.{name_at, refused, many_typings};
ghost use Rattle.yarn_cli.specs.Outcome.{kinds_of};

use crate::Status;
use crate::message::{Ended, refused_as};
use std::alloc::Global;
use std::marker::Brand;
use std::sync::ledger::{Blank, Ledger};
use yarn_base::{List, Place, Steps, Text, Words};
use yarn_infer::{TypeFault, Typing, infer};
use yarn_tree::Project;

/// The one typing of the project, or why there is none.
pub(crate) fn typing_of(alloc: Global, project: &Project) -> Result<Typing, TypeFault>
    ensures { IsKinding (kinds_of (map file_tree project.now.files)) result }
{
    uncounted::<Brand>(alloc, project, Blank::new(1))
}

fn uncounted<L: Ledger>(alloc: Global, project: &Project, blank: Blank) -> Result<Typing, TypeFault>
    requires name { blank.name ≡ L.name }
    requires parts { blank.parts ≡ L.parts }
    requires some { 0 < blank.parts }
    ensures { IsKinding (kinds_of (map file_tree project.now.files)) result }
{
    let signatures = List::new(alloc);
    let mut steps = Steps::<L>::new(blank);
    infer(alloc, project, &signatures, &mut steps)
}

/// A project whose variables have not one kind each is refused.
pub(crate) fn refused_for_kinds(alloc: Global, names: &Words, fault: TypeFault) -> Ended
    ensures cases { (result.status ≡ Status.RefusedProject) ⊎ (result.status ≡ Status.OutOfMemory) }
    ensures line { result.status ≡ Status.RefusedProject → SaysFault names.now fault (string_bytes result.line) }
{
    match fault {
        TypeFault::NoTyping(place) => refused_as(alloc, names, "NoTyping", place),
        TypeFault::ManyTypings(name, place) => refused_for_many(alloc, names, &name, place),
        TypeFault::Memory => Ended::out_of_memory(alloc),
    }
}

// A variable may have more than one kind.
fn refused_for_many(alloc: Global, names: &Words, name: &Text, place: Place) -> Ended
    ensures cases { (result.status ≡ Status.RefusedProject) ⊎ (result.status ≡ Status.OutOfMemory) }
    ensures line { result.status ≡ Status.RefusedProject →
        string_bytes result.line ≡ refused (name_at names.now place.file) (many_typings name.now) place.line }
{
    let mut text = match Text::from_str(alloc, "ManyTypings ") {
        Ok(text) => text,
        Err(_) => return Ended::out_of_memory(alloc),
    };
    match text.push_str(name.as_str()) {
        Ok(()) => refused_as(alloc, names, text.as_str(), place),
        Err(_) => Ended::out_of_memory(alloc),
    }
}

//! What `play` reads, and the variables with which it begins.
ghost use Rattle.std.specs.Prelude.{◌≡◌, ◌≤◌, List, ℕ, map, IfOk, IfErr};
ghost use Rattle.yarn_tree.specs.Trees.{file_tree, FileTree};
ghost use Rattle.yarn_types.specs.declared.typed.TypedName.{TypedName};
ghost use Rattle.yarn_cli.specs.Command.{Command as Commanded, vars_name_of};
ghost use Rattle.yarn_cli.specs.Play.{of_run, of_vars, of_vars_file};
ghost use Rattle.yarn_cli.specs.Play.{of_pairs, of_store};
ghost use Rattle.yarn_cli.specs.Playing.{vars_seen, AreInputs, FailsToRead, GoesOn};
ghost use Rattle.yarn_cli.specs.Read.{AreSources};

use crate::Command;
use crate::message::{Ended, bad_line, bad_variable, read_failed, refused_vars};
use crate::read::{AllRead, read_all};
use std::alloc::Global;
use yarn_base::{Files, IoFault, List as Items, SourceFile, Text};
use yarn_infer::Typing;
use yarn_store::{Store, VarsFault, read_vars};
use yarn_tree::File;
use yarn_walker::{first_other, first_store};

/// The most bytes of a variables file (docs/formats.md, Variables file).
const VARS_LIMIT: usize = 33554432;

/// A variables file and its name, with one byte more than it may have where it is longer.
#[derive(Drop)]
pub(crate) struct VarsFile<'c> {
    pub name: &'c Text,
    pub bytes: Items<u8>,
}

/// The files that a command names, all of them read before any is judged.
#[derive(Drop)]
pub(crate) struct Inputs<'c> {
    pub sources: Items<SourceFile>,
    pub vars: Option<VarsFile<'c>>,
}

/// Reads the sources, and then the variables file where one is named.
pub(crate) fn read_inputs<'c, F: Files>(
    alloc: Global,
    command: &'c Command,
    files: &mut F,
) -> Result<Inputs<'c>, Ended>
    ensures inputs { IfOk result (AreInputs (F.contents files.old) command.now) }
    ensures unread { IfErr result (FailsToRead (F.contents files.old) command.now (F.latest_fault files.new)
        (F.read_faults files.old) (F.read_faults files.new)) }
    ensures same { F.contents files.new ≡ F.contents files.old }
    ensures count { F.read_faults files.old ≤ F.read_faults files.new }
    ensures writes { F.write_faults files.new ≡ F.write_faults files.old }
{
    match read_all(alloc, command.names().as_slice(), files) {
        AllRead::Sources(sources) => with_vars(alloc, command, sources, files),
        AllRead::Unread(name) => Err(read_failed(alloc, name.as_str())),
        AllRead::Memory => Err(Ended::out_of_memory(alloc)),
    }
}

// The sources with the variables file.
fn with_vars<'c, F: Files>(
    alloc: Global,
    command: &'c Command,
    sources: Items<SourceFile>,
    files: &mut F,
) -> Result<Inputs<'c>, Ended>
    requires { AreSources (F.contents files.old) command.now.names sources }
    ensures inputs { IfOk result (AreInputs (F.contents files.old) command.now) }
    ensures unread { IfErr result (FailsToRead (F.contents files.old) command.now (F.latest_fault files.new)
        (F.read_faults files.old) (F.read_faults files.new)) }
    ensures same { F.contents files.new ≡ F.contents files.old }
    ensures count { F.read_faults files.old ≤ F.read_faults files.new }
    ensures writes { F.write_faults files.new ≡ F.write_faults files.old }
{
    let Some(name) = command.vars() else {
        return Ok(Inputs {
            sources,
            vars: None,
        });
    };
    match files.read(alloc, name, VARS_LIMIT) {
        Ok(bytes) => Ok(Inputs {
            sources,
            vars: Some(VarsFile {
                name,
                bytes: Items::from_vec(bytes),
            }),
        }),
        Err(IoFault::Failed) => Err(read_failed(alloc, name.as_str())),
        Err(IoFault::Memory) => Err(Ended::out_of_memory(alloc)),
    }
}

/// The store with which the run begins: the pairs of the variables file, where one is named, and what they lack.
pub(crate) fn store_of(
    alloc: Global,
    vars: Option<VarsFile>,
    typing: &Typing,
    files: &[File],
) -> Result<Store, Ended>
    ensures { (command : Commanded) → GoesOn (of_vars command (map file_tree files.now) typing.now.entries (vars_seen vars.entry))
        (of_store command (map file_tree files.now)) result }
{
    let pairs = first_pairs(alloc, vars, typing, files)?;
    match first_store(alloc, pairs, typing, files) {
        Ok(store) => Ok(store),
        Err(_) => Err(Ended::out_of_memory(alloc)),
    }
}

// The pairs of the variables file, and none where no file is named.
fn first_pairs(
    alloc: Global,
    vars: Option<VarsFile>,
    typing: &Typing,
    files: &[File],
) -> Result<Store, Ended>
    ensures { (command : Commanded) → GoesOn (of_vars command (map file_tree files.now) typing.now.entries (vars_seen vars.entry))
        (of_run command (map file_tree files.now) typing.now.entries) result }
{
    match vars {
        Some(file) => kept_pairs(alloc, &file, typing, files),
        None => Ok(Store::new(alloc)),
    }
}

// The pairs of the file, where each variable of the project has a value of its kind among them, or none.
fn kept_pairs(
    alloc: Global,
    file: &VarsFile,
    typing: &Typing,
    files: &[File],
) -> Result<Store, Ended>
    ensures { (command : Commanded) → GoesOn (of_vars_file command (map file_tree files.now) typing.now.entries file.now.name.now file.now.bytes)
        (of_run command (map file_tree files.now) typing.now.entries) result }
{
    let pairs = held_pairs(alloc, file)?;
    match first_other(alloc, &pairs, typing, files) {
        Ok(None) => Ok(pairs),
        Ok(Some(name)) => Err(bad_variable(alloc, file.name.as_str(), name.as_str())),
        Err(_) => Err(Ended::out_of_memory(alloc)),
    }
}

// The pairs that the file holds.
fn held_pairs(alloc: Global, file: &VarsFile) -> Result<Store, Ended>
    ensures { (command : Commanded) (files : List FileTree) (entries : List TypedName) →
        GoesOn (of_vars_file command files entries file.now.name.now file.now.bytes) (of_pairs command files entries file.now.name.now) result }
{
    if VARS_LIMIT < file.bytes.len() {
        return Err(refused_vars(alloc, file.name.as_str(), "TooMuch"));
    }
    match read_vars(alloc, &file.bytes) {
        Ok(pairs) => Ok(pairs),
        Err(VarsFault::BadVars(line)) => Err(bad_line(alloc, file.name.as_str(), line)),
        Err(VarsFault::Memory) => Err(Ended::out_of_memory(alloc)),
    }
}

//! `check`: judges a project and counts what it has.
ghost use Rattle.std.specs.Prelude.{◌≡◌, [], map, IfOk, string_bytes};
ghost use Rattle.yarn_tree.specs.Reading.{reading_of};
ghost use Rattle.yarn_tree.specs.Trees.{file_tree};
ghost use Rattle.yarn_cli.specs.Check.{of_check, of_checked, of_counts, nodes_in, counts_text};
ghost use Rattle.yarn_cli.specs.Outcome.{of_kinding, kinds_of, trees_of};
ghost use Rattle.yarn_cli.specs.Runs.{Prints, PrintsUnsaid, PrintsRead, files_seen, sink_seen};

use crate::message::{Ended, print, read_failed, refused_at};
use crate::project::project_of;
use crate::read::{AllRead, read_all};
use crate::typing::{refused_for_kinds, typing_of};
use crate::{Command, CommandKind, Status};
use std::alloc::{AllocError, Global};
use yarn_base::{Files, List as Items, Sink, Source, SourceFile};
use yarn_infer::Typing;
use yarn_tree::{File, Project, ProjectFault};

/// Runs `check`: reads all its files, judges the project that they are, and writes how many files, nodes and variables it
/// has, or says on `err` why it is refused (docs/commands.md, check).
pub fn run_check<F: Files, I: Source, O: Sink, E: Sink>(
    alloc: Global,
    command: &Command,
    files: &mut F,
    input: &mut I,
    out: &mut O,
    err: &mut E,
) -> Status
    requires { command.now.kind ≡ CommandKind.Check }

    ensures prints { Prints command.now.names (of_check command.now) result (files_seen F.contents F.latest_fault F.read_faults F.write_faults files.old) (files_seen F.contents F.latest_fault F.read_faults F.write_faults files.new)
        (sink_seen O.written O.faults out.old) (sink_seen O.written O.faults out.new) (sink_seen E.written E.faults err.old) (sink_seen E.written E.faults err.new) }
    ensures input { input.new ≡ input.old }
{
    let _ = input;
    check_named(alloc, command, files, out).say(err)
}

// Judges the files that the command names; its line isn't said yet.
fn check_named<F: Files, O: Sink>(
    alloc: Global,
    command: &Command,
    files: &mut F,
    out: &mut O,
) -> Ended
    ensures { PrintsUnsaid command.now.names (of_check command.now) result (files_seen F.contents F.latest_fault F.read_faults F.write_faults files.old) (files_seen F.contents F.latest_fault F.read_faults F.write_faults files.new)
        (sink_seen O.written O.faults out.old) (sink_seen O.written O.faults out.new) }
{
    match read_all(alloc, command.names().as_slice(), files) {
        AllRead::Sources(sources) => check_sources(alloc, command, sources, out),
        AllRead::Unread(name) => read_failed(alloc, name.as_str()),
        AllRead::Memory => Ended::out_of_memory(alloc),
    }
}

// Reads the project that the sources are, and judges it.
fn check_sources<O: Sink>(
    alloc: Global,
    command: &Command,
    sources: Items<SourceFile>,
    out: &mut O,
) -> Ended
    ensures { PrintsRead (of_checked command.now (trees_of (reading_of [] sources))) result (sink_seen O.written O.faults out.old) (sink_seen O.written O.faults out.new) }
{
    match project_of(alloc, sources) {
        Ok(project) => check_project(alloc, command, &project, out),
        Err(ProjectFault::Refused(refusal)) => refused_at(alloc, command.names(), refusal),
        Err(ProjectFault::Memory) => Ended::out_of_memory(alloc),
    }
}

// Writes what the project has, where its variables have one kind each.
fn check_project<O: Sink>(alloc: Global, command: &Command, project: &Project, out: &mut O) -> Ended
    ensures { PrintsRead (of_kinding command.now.names (kinds_of (map file_tree project.now.files)) (of_counts (map file_tree project.now.files))) result
        (sink_seen O.written O.faults out.old) (sink_seen O.written O.faults out.new) }
{
    match typing_of(alloc, project) {
        Ok(typing) => write_counts(alloc, project, &typing, out),
        Err(fault) => refused_for_kinds(alloc, command.names(), fault),
    }
}

// Writes the numbers of files, nodes and variables.
fn write_counts<O: Sink>(alloc: Global, project: &Project, typing: &Typing, out: &mut O) -> Ended
    ensures { PrintsRead (of_counts (map file_tree project.now.files) typing.now.entries) result (sink_seen O.written O.faults out.old) (sink_seen O.written O.faults out.new) }
{
    let Ok(line) = counts_line(alloc, project, typing) else {
        return Ended::out_of_memory(alloc);
    };
    print(alloc, line.as_bytes(), out)
}

fn counts_line(alloc: Global, project: &Project, typing: &Typing) -> Result<String, AllocError>
    ensures { IfOk result (λ line. string_bytes line ≡ counts_text (map file_tree project.now.files) typing.now.entries) }
{
    let files = project.files.len();
    let nodes = count_nodes(project.files.as_slice())?;
    let variables = typing.entries.len();
    format!(in alloc; "ok {files} {nodes} {variables}\n")
}

// How many nodes the files have; want of memory where the number is too large.
fn count_nodes(files: &[File]) -> Result<usize, AllocError>
    ensures { IfOk result (λ count. count ≡ nodes_in (map file_tree files.now)) }
{
    let mut count: usize = 0;
    for file in files {
        count = count.checked_add(file.nodes.len()).ok_or(AllocError)?;
    }
    Ok(count)
}

//! `strings`: writes the lines and options of a project as a string table.
ghost use Rattle.std.specs.Prelude.{◌≡◌, [], ◌++◌, map, IfOk, OnOk};
ghost use Rattle.yarn_meaning.specs.First.{nodes_from};
ghost use Rattle.yarn_tree.specs.Reading.{reading_of};
ghost use Rattle.yarn_tree.specs.Trees.{file_tree, node_tree};
ghost use Rattle.yarn_cli.specs.Outcome.{of_done, of_kinding, kinds_of, trees_of};
ghost use Rattle.yarn_cli.specs.Runs.{Prints, PrintsUnsaid, PrintsRead, files_seen, sink_seen};
ghost use Rattle.yarn_cli.specs.Strings.{of_strings, of_listed, file_names, node_titles, strings_text};

use crate::message::{Ended, print, read_failed, refused_at};
use crate::project::project_of;
use crate::read::{AllRead, read_all};
use crate::typing::{refused_for_kinds, typing_of};
use crate::{Command, CommandKind, Status};
use std::alloc::Global;
use yarn_base::{Files, List as Items, Memory, Sink, Source, SourceFile, Text};
use yarn_ids::base_of;
use yarn_table::write_table;
use yarn_tree::{File, Node, Project, ProjectFault};

/// Runs `strings`: reads all its files, judges the project that they are, and writes the table of its lines and options, or
/// says on `err` why it is refused (docs/commands.md, strings).
pub fn run_strings<F: Files, I: Source, O: Sink, E: Sink>(
    alloc: Global,
    command: &Command,
    files: &mut F,
    input: &mut I,
    out: &mut O,
    err: &mut E,
) -> Status
    requires { command.now.kind ≡ CommandKind.Strings }

    ensures prints { Prints command.now.names (of_strings command.now) result (files_seen F.contents F.latest_fault F.read_faults F.write_faults files.old) (files_seen F.contents F.latest_fault F.read_faults F.write_faults files.new)
        (sink_seen O.written O.faults out.old) (sink_seen O.written O.faults out.new) (sink_seen E.written E.faults err.old) (sink_seen E.written E.faults err.new) }
    ensures input { input.new ≡ input.old }
{
    let _ = input;
    list_named(alloc, command, files, out).say(err)
}

// Lists the project of the files that the command names; its line isn't said yet.
fn list_named<F: Files, O: Sink>(
    alloc: Global,
    command: &Command,
    files: &mut F,
    out: &mut O,
) -> Ended
    ensures { PrintsUnsaid command.now.names (of_strings command.now) result (files_seen F.contents F.latest_fault F.read_faults F.write_faults files.old) (files_seen F.contents F.latest_fault F.read_faults F.write_faults files.new)
        (sink_seen O.written O.faults out.old) (sink_seen O.written O.faults out.new) }
{
    match read_all(alloc, command.names().as_slice(), files) {
        AllRead::Sources(sources) => list_sources(alloc, command, sources, out),
        AllRead::Unread(name) => read_failed(alloc, name.as_str()),
        AllRead::Memory => Ended::out_of_memory(alloc),
    }
}

// Reads the project that the sources are, and lists it.
fn list_sources<O: Sink>(
    alloc: Global,
    command: &Command,
    sources: Items<SourceFile>,
    out: &mut O,
) -> Ended
    ensures { PrintsRead (of_listed command.now (trees_of (reading_of [] sources))) result (sink_seen O.written O.faults out.old) (sink_seen O.written O.faults out.new) }
{
    match project_of(alloc, sources) {
        Ok(project) => list_project(alloc, command, &project, out),
        Err(ProjectFault::Refused(refusal)) => refused_at(alloc, command.names(), refusal),
        Err(ProjectFault::Memory) => Ended::out_of_memory(alloc),
    }
}

// Writes the table of the project, where its variables have one kind each.
fn list_project<O: Sink>(alloc: Global, command: &Command, project: &Project, out: &mut O) -> Ended
    ensures { PrintsRead (of_kinding command.now.names (kinds_of (map file_tree project.now.files)) (λ entries. of_done (strings_text (map file_tree project.now.files)))) result
        (sink_seen O.written O.faults out.old) (sink_seen O.written O.faults out.new) }
{
    match typing_of(alloc, project) {
        Ok(_) => write_strings(alloc, project, out),
        Err(fault) => refused_for_kinds(alloc, command.names(), fault),
    }
}

// Writes the table of the project.
fn write_strings<O: Sink>(alloc: Global, project: &Project, out: &mut O) -> Ended
    ensures { PrintsRead (of_done (strings_text (map file_tree project.now.files))) result (sink_seen O.written O.faults out.old) (sink_seen O.written O.faults out.new) }
{
    match strings_of(alloc, project) {
        Ok(bytes) => print(alloc, bytes.as_slice(), out),
        Err(_) => Ended::out_of_memory(alloc),
    }
}

// The table of the project.
#[tactic(auto, using(crate::proofs::StringsLemmas::rows_within))]
fn strings_of(alloc: Global, project: &Project) -> Result<Items<u8>, Memory>
    ensures { IfOk result (λ bytes. bytes ≡ strings_text (map file_tree project.now.files)) }
{
    let base = base_of(alloc, project)?;
    let files = names_of(alloc, project.files.as_slice())?;
    let nodes = titles_of(alloc, project.files.as_slice())?;
    write_table(alloc, &base, &files, &nodes)
}

// The names of the files.
fn names_of(alloc: Global, files: &[File]) -> Result<Items<Text>, Memory>
    ensures { IfOk result (λ names. names ≡ file_names (map file_tree files.now)) }
{
    let mut names = Items::new(alloc);
    for file in files {
        names.push(file.name.copy()?).map_err(|_| Memory)?;
    }
    Ok(names)
}

// The titles of the nodes of all files.
fn titles_of(alloc: Global, files: &[File]) -> Result<Items<Text>, Memory>
    ensures { IfOk result (λ titles. titles ≡ node_titles (map file_tree files.now)) }
{
    let mut titles = Items::new(alloc);
    for file in files {
        push_titles(file.nodes.as_slice(), &mut titles)?;
    }
    Ok(titles)
}

// Puts the titles of the nodes last.
fn push_titles(nodes: &[Node], titles: &mut Items<Text>) -> Result<(), Memory>
    ensures { OnOk result (titles.new ≡ titles.old ++ map (λ node. node.title) (map node_tree nodes.now)) }
{
    for node in nodes {
        titles.push(node.title.copy()?).map_err(|_| Memory)?;
    }
    Ok(())
}

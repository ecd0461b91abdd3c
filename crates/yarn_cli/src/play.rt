//! `play`: plays a project and writes its transcript.
ghost use Rattle.std.specs.Prelude.{◌≡◌, ◌≤◌, ◌⊎◌, List, [], ◌++◌, ℕ, map, IfOk, IfErr, OnOk, string_bytes};
ghost use Rattle.yarn_base.specs.Causes.{Rose};
ghost use Rattle.yarn_meaning.specs.First.{find};
ghost use Rattle.yarn_player.specs.Played.{TakesFront};
ghost use Rattle.yarn_player.specs.Stands.{stand_of};
ghost use Rattle.yarn_tree.specs.Reading.{reading_of};
ghost use Rattle.yarn_tree.specs.Trees.{file_tree};
ghost use Rattle.yarn_walker.specs.Faults.{fault_of};
ghost use Rattle.yarn_walker.specs.Walk.{IsSound, files_of};
ghost use Rattle.yarn_cli.specs.Command.{start_of, save_vars_of};
ghost use Rattle.yarn_cli.specs.Commands.{read_names};
ghost use Rattle.yarn_cli.specs.Ended.{Says};
ghost use Rattle.yarn_cli.specs.Messages.{cannot_read, cannot_write, fault_text, faulted, input as input_name, name_at, no_node, output as output_name};
ghost use Rattle.yarn_cli.specs.Outcome.{kinds_of, trees_of, ChangesSaved, IsPlain};
ghost use Rattle.yarn_cli.specs.Play.{of_kinds, of_play, of_project, of_stand, of_start};
ghost use Rattle.yarn_cli.specs.Playing.{of_walk, vars_seen, IsSaved, GoesOn, PlaysAs, SaysUnwritten, TellsItsTexts, WalksIn};
ghost use Rattle.yarn_cli.specs.Runs.{Runs, RunsRead, RunsUnsaid, files_seen, input_seen, sink_seen};

use crate::message::{Ended, file_name, read_failed, refused_at, write_failed};
use crate::project::project_of;
use crate::typing::{refused_for_kinds, typing_of};
use crate::vars::{Inputs, VarsFile, read_inputs, store_of};
use crate::{Command, CommandKind, Status};
use std::alloc::{AllocError, Global};
use std::mem;
use yarn_base::{Files, IoFault, Sink, Source, Words};
use yarn_infer::Typing;
use yarn_player::{PlayEnd, PlayFault, Played, play};
use yarn_store::{Store, write_vars};
use yarn_tree::{File, Project, ProjectFault};
use yarn_value::RunFault;
use yarn_walker::{FaultAt, Titles, Walk};

/// Runs `play`: reads all its files, plays the project that they are, and says on `err` why it ended otherwise than
/// well (docs/commands.md, play).
pub fn run_play<F: Files, I: Source, O: Sink, E: Sink>(
    alloc: Global,
    command: &Command,
    files: &mut F,
    input: &mut I,
    out: &mut O,
    err: &mut E,
) -> Status
    requires { command.now.kind ≡ CommandKind.Play }

    ensures { Runs (read_names command.now) (save_vars_of command.now) (of_play command.now) result
        (files_seen F.contents F.latest_fault F.read_faults F.write_faults files.old) (files_seen F.contents F.latest_fault F.read_faults F.write_faults files.new)
        (input_seen I.left I.faults input.old) (input_seen I.left I.faults input.new) (sink_seen O.written O.faults out.old) (sink_seen O.written O.faults out.new) (sink_seen E.written E.faults err.old) (sink_seen E.written E.faults err.new) }
{
    play_named(alloc, command, files, input, out).say(err)
}

// Plays the files that the command names; its line isn't said yet.
fn play_named<F: Files, I: Source, O: Sink>(
    alloc: Global,
    command: &Command,
    files: &mut F,
    input: &mut I,
    out: &mut O,
) -> Ended
    ensures { RunsUnsaid command.now (of_play command.now) result
        (files_seen F.contents F.latest_fault F.read_faults F.write_faults files.old) (files_seen F.contents F.latest_fault F.read_faults F.write_faults files.new)
        (input_seen I.left I.faults input.old) (input_seen I.left I.faults input.new) (sink_seen O.written O.faults out.old) (sink_seen O.written O.faults out.new) }
{
    match read_inputs(alloc, command, files) {
        Ok(inputs) => play_inputs(alloc, command, inputs, files, input, out),
        Err(ended) => ended,
    }
}

// Reads the project that the sources are, and plays it.
fn play_inputs<F: Files, I: Source, O: Sink>(
    alloc: Global,
    command: &Command,
    inputs: Inputs,
    files: &mut F,
    input: &mut I,
    out: &mut O,
) -> Ended
    ensures { RunsRead command.now (of_project command.now (trees_of (reading_of [] inputs.entry.sources)) (vars_seen inputs.entry.vars)) result
        (files_seen F.contents F.latest_fault F.read_faults F.write_faults files.old) (files_seen F.contents F.latest_fault F.read_faults F.write_faults files.new)
        (input_seen I.left I.faults input.old) (input_seen I.left I.faults input.new) (sink_seen O.written O.faults out.old) (sink_seen O.written O.faults out.new) }
{
    let Inputs { sources, vars } = inputs;
    match project_of(alloc, sources) {
        Ok(project) => {
            let ended = play_project(alloc, command, &project, vars, files, input, out);
            // The process ends with the run: to let the trees go piece by piece would only take time.
            mem::forget(project);
            ended
        }
        Err(ProjectFault::Refused(refusal)) => refused_at(alloc, command.names(), refusal),
        Err(ProjectFault::Memory) => Ended::out_of_memory(alloc),
    }
}

// Plays the project, of which the base table has all texts.
fn play_project<F: Files, I: Source, O: Sink>(
    alloc: Global,
    command: &Command,
    project: &Project,
    vars: Option<VarsFile>,
    files: &mut F,
    input: &mut I,
    out: &mut O,
) -> Ended
    requires { TellsItsTexts (map file_tree project.now.files) }
    ensures { RunsRead command.now (of_kinds command.now (map file_tree project.now.files) (kinds_of (map file_tree project.now.files)) (vars_seen vars.entry)) result
        (files_seen F.contents F.latest_fault F.read_faults F.write_faults files.old) (files_seen F.contents F.latest_fault F.read_faults F.write_faults files.new)
        (input_seen I.left I.faults input.old) (input_seen I.left I.faults input.new) (sink_seen O.written O.faults out.old) (sink_seen O.written O.faults out.new) }
{
    match walk_of(alloc, command, project, vars) {
        Ok(walk) => play_walk(alloc, command, walk, files, input, out),
        Err(ended) => ended,
    }
}

// The walk that begins the run, where the variables of the project have one kind each.
fn walk_of<'p>(
    alloc: Global,
    command: &Command,
    project: &'p Project,
    vars: Option<VarsFile>,
) -> Result<Walk<'p>, Ended>
    ensures goes_on { GoesOn (of_kinds command.now (map file_tree project.now.files) (kinds_of (map file_tree project.now.files)) (vars_seen vars.entry))
        (of_walk command.now) result }
    ensures walk { IfOk result (WalksIn (map file_tree project.now.files)) }
{
    match typing_of(alloc, project) {
        Ok(typing) => typed_walk(alloc, command, project.files.as_slice(), &typing, vars),
        Err(fault) => Err(refused_for_kinds(alloc, command.names(), fault)),
    }
}

// The walk from the start node on.
fn typed_walk<'p>(
    alloc: Global,
    command: &Command,
    files: &'p [File],
    typing: &Typing,
    vars: Option<VarsFile>,
) -> Result<Walk<'p>, Ended>
    ensures goes_on { GoesOn (of_start command.now (map file_tree files.now) typing.now.entries (find (start_of command.now) (map file_tree files.now)) (vars_seen vars.entry))
        (of_walk command.now) result }
    ensures walk { IfOk result (WalksIn (map file_tree files.now)) }
{
    let Ok(start) = command.start(alloc) else {
        return Err(Ended::out_of_memory(alloc));
    };
    let Ok(titles) = Titles::new(alloc, files) else {
        return Err(Ended::out_of_memory(alloc));
    };
    let Some(node) = titles.find(&start) else {
        return Err(unknown_start(alloc, start.as_str()));
    };
    match store_of(alloc, vars, typing, files) {
        Ok(store) => Ok(Walk::new(alloc, titles, &start, node, store)),
        Err(ended) => Err(ended),
    }
}

fn unknown_start(alloc: Global, start: &str) -> Ended
    ensures cases { (result.status ≡ Status.UnknownStart) ⊎ (result.status ≡ Status.OutOfMemory) }
    ensures line { result.status ≡ Status.UnknownStart → string_bytes result.line ≡ no_node start.now }
{
    Ended::with_line(
        alloc,
        Status::UnknownStart,
        format!(in alloc; "no node {start}\n"),
    )
}

// Plays the walk, and writes its variables where a file is named for them.
fn play_walk<F: Files, I: Source, O: Sink>(
    alloc: Global,
    command: &Command,
    walk: Walk,
    files: &mut F,
    input: &mut I,
    out: &mut O,
) -> Ended
    requires sound { IsSound walk }
    requires texts { TellsItsTexts (files_of walk) }
    ensures played { PlaysAs (of_walk command.now walk.entry) result (F.contents files.old) (F.contents files.new)
        (I.left input.old) (I.left input.new) (O.written out.old) (O.written out.new) }
    ensures taken { TakesFront (I.left input.old) (I.left input.new) }
    ensures files { ChangesSaved (save_vars_of command.now) (F.contents files.old) (F.contents files.new) }
    ensures read { result.status ≡ Status.ReadFault →
        Rose (I.faults input.old) (I.faults input.new) × (string_bytes result.line ≡ cannot_read input_name) }
    ensures write { result.status ≡ Status.WriteFault →
        (Rose (O.faults out.old) (O.faults out.new) × (string_bytes result.line ≡ cannot_write output_name))
        ⊎ (Rose (F.write_faults files.old) (F.write_faults files.new) × SaysUnwritten (save_vars_of command.now) result) }
    ensures read_count { F.read_faults files.new ≡ F.read_faults files.old }
    ensures write_count { F.write_faults files.old ≤ F.write_faults files.new }
    ensures input_count { I.faults input.old ≤ I.faults input.new }
    ensures out_count { O.faults out.old ≤ O.faults out.new }
{
    match play(alloc, walk, command.limit(), input, out) {
        Ok(played) => end_run(alloc, command, played, files),
        Err(PlayFault::InputFailed) => read_failed(alloc, "input"),
        Err(PlayFault::OutputFailed) => write_failed(alloc, "output"),
        Err(PlayFault::Memory) => Ended::out_of_memory(alloc),
    }
}

// How the command ends with a run that was played: its variables are written first.
fn end_run<F: Files>(alloc: Global, command: &Command, played: Played, files: &mut F) -> Ended
    ensures says { IsPlain result.status → (text : List ℕ) → Says (of_stand command.now.names (stand_of played.entry.end) text) result }
    ensures saved { IsPlain result.status → IsSaved (save_vars_of command.now) played.entry.store (F.contents files.old) (F.contents files.new) }
    ensures files { ChangesSaved (save_vars_of command.now) (F.contents files.old) (F.contents files.new) }
    ensures no_read { result.status ≡ Status.ReadFault → ⊥ }
    ensures write { result.status ≡ Status.WriteFault →
        Rose (F.write_faults files.old) (F.write_faults files.new) × SaysUnwritten (save_vars_of command.now) result }
    ensures read_count { F.read_faults files.new ≡ F.read_faults files.old }
    ensures write_count { F.write_faults files.old ≤ F.write_faults files.new }
{
    let Played { end, store } = played;
    match save(alloc, command, &store, files) {
        Ok(()) => ended_at(alloc, command.names(), end),
        Err(ended) => ended,
    }
}

// Writes the variables where the command names a file for them.
fn save<F: Files>(
    alloc: Global,
    command: &Command,
    store: &Store,
    files: &mut F,
) -> Result<(), Ended>
    ensures saved { OnOk result (IsSaved (save_vars_of command.now) store.now (F.contents files.old) (F.contents files.new)) }
    ensures files { ChangesSaved (save_vars_of command.now) (F.contents files.old) (F.contents files.new) }
    ensures unsaved { IfErr result (λ ended. (IsPlain ended.status → ⊥) × (ended.status ≡ Status.ReadFault → ⊥)
        × (ended.status ≡ Status.WriteFault → Rose (F.write_faults files.old) (F.write_faults files.new) × SaysUnwritten (save_vars_of command.now) ended)) }
    ensures read_count { F.read_faults files.new ≡ F.read_faults files.old }
    ensures write_count { F.write_faults files.old ≤ F.write_faults files.new }
{
    let Some(name) = command.save_vars() else {
        return Ok(());
    };
    let Ok(bytes) = write_vars(alloc, store) else {
        return Err(Ended::out_of_memory(alloc));
    };
    match files.write(name, &bytes) {
        Ok(()) => Ok(()),
        Err(IoFault::Failed) => Err(write_failed(alloc, name.as_str())),
        Err(IoFault::Memory) => Err(Ended::out_of_memory(alloc)),
    }
}

fn ended_at(alloc: Global, names: &Words, end: PlayEnd) -> Ended
    ensures exact { IsPlain result.status → (text : List ℕ) → Says (of_stand names.now (stand_of end.entry) text) result }
    ensures no_read { result.status ≡ Status.ReadFault → ⊥ }
    ensures no_write { result.status ≡ Status.WriteFault → ⊥ }
{
    match end {
        PlayEnd::Ended => Ended::with_line(alloc, Status::Done, Ok(String::new(alloc))),
        PlayEnd::Limit => Ended::with_line(
            alloc,
            Status::EventLimit,
            String::from_str(alloc, "event limit\n"),
        ),
        PlayEnd::Waits => Ended::with_line(
            alloc,
            Status::WaitsChoice,
            String::from_str(alloc, "waiting for a choice\n"),
        ),
        PlayEnd::Faults(fault) => Ended::with_line(
            alloc,
            Status::RunFault,
            fault_line(alloc, names, fault),
        ),
    }
}

fn fault_line(alloc: Global, names: &Words, fault: FaultAt) -> Result<String, AllocError>
    ensures { IfOk result (λ line. string_bytes line ≡ faulted (name_at names.now fault.entry.file) (fault_of fault.entry)) }
{
    let (file, line, node) = (
        file_name(names, fault.file),
        fault.line,
        fault.node.as_str(),
    );
    let (name, title) = fault_name(&fault.fault);
    format!(in alloc; "{file}:{line}: {node}: {name}{title}\n")
}

// The name of a fault, and the title that stands behind it.
fn fault_name(fault: &RunFault) -> (&'static str, &str)
    ensures { result.0.now ++ result.1.now ≡ fault_text fault.now }
{
    match fault {
        RunFault::Overflow => ("Overflow", ""),
        RunFault::DivideByZero => ("DivideByZero", ""),
        RunFault::Inexact => ("Inexact", ""),
        RunFault::TextTooLong => ("TextTooLong", ""),
        RunFault::BadNumber => ("BadNumber", ""),
        RunFault::BadBool => ("BadBool", ""),
        RunFault::NoOpenOption => ("NoOpenOption", ""),
        RunFault::UnknownNode(title) => ("UnknownNode ", title.as_str()),
    }
}

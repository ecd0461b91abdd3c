//! `format`: writes a file in its canonical layout.
ghost use Rattle.std.specs.Prelude.{◌≡◌};
ghost use Rattle.yarn_tree.specs.Reading.{Answers, file_reading_of};
ghost use Rattle.yarn_cli.specs.Format.{of_format, of_formatted, printed};
ghost use Rattle.yarn_cli.specs.Runs.{Prints, PrintsUnsaid, PrintsRead, files_seen, sink_seen};

use crate::message::{Ended, print, read_failed, refused_at};
use crate::read::read_source;
use crate::{Command, CommandKind, Status};
use std::alloc::Global;
use yarn_base::{Files, IoFault, Sink, Source, SourceFile, Text};
use yarn_print::print_file;
use yarn_tree::{ProjectFault, read_file};

/// Runs `format`: reads its file and writes the canonical text, and says on `err` why it ended otherwise than well
/// (docs/commands.md, format).
pub fn run_format<F: Files, I: Source, O: Sink, E: Sink>(
    alloc: Global,
    command: &Command,
    files: &mut F,
    input: &mut I,
    out: &mut O,
    err: &mut E,
) -> Status
    requires { command.now.kind ≡ CommandKind.Format }

    ensures prints { Prints command.now.names (of_format command.now) result (files_seen F.contents F.latest_fault F.read_faults F.write_faults files.old) (files_seen F.contents F.latest_fault F.read_faults F.write_faults files.new)
        (sink_seen O.written O.faults out.old) (sink_seen O.written O.faults out.new) (sink_seen E.written E.faults err.old) (sink_seen E.written E.faults err.new) }
    ensures input { input.new ≡ input.old }
{
    let _ = input;
    format_named(alloc, command, files, out).say(err)
}

// Writes the file that the command names; its line isn't said yet.
fn format_named<F: Files, O: Sink>(
    alloc: Global,
    command: &Command,
    files: &mut F,
    out: &mut O,
) -> Ended
    ensures { PrintsUnsaid command.now.names (of_format command.now) result (files_seen F.contents F.latest_fault F.read_faults F.write_faults files.old) (files_seen F.contents F.latest_fault F.read_faults F.write_faults files.new)
        (sink_seen O.written O.faults out.old) (sink_seen O.written O.faults out.new) }
{
    let name = command.first_name();
    match read_source(alloc, name, files) {
        Ok(source) => format_source(alloc, command, source, out),
        Err(IoFault::Failed) => read_failed(alloc, name.as_str()),
        Err(IoFault::Memory) => Ended::out_of_memory(alloc),
    }
}

// Writes the canonical text of the source.
fn format_source<O: Sink>(
    alloc: Global,
    command: &Command,
    source: SourceFile,
    out: &mut O,
) -> Ended
    ensures { PrintsRead (of_formatted command.now source) result (sink_seen O.written O.faults out.old) (sink_seen O.written O.faults out.new) }
{
    match print_source(alloc, source) {
        Ok(text) => print(alloc, text.as_str().as_bytes(), out),
        Err(ProjectFault::Refused(refusal)) => refused_at(alloc, command.names(), refusal),
        Err(ProjectFault::Memory) => Ended::out_of_memory(alloc),
    }
}

// The canonical text of the source, which is let go as soon as it is read.
#[tactic(auto, using(crate::proofs::TreeLemmas::text_printed, crate::proofs::TreeLemmas::fault_printed))]
fn print_source(alloc: Global, source: SourceFile) -> Result<Text, ProjectFault>
    ensures { Answers (printed (file_reading_of source)) result }
{
    let read = read_file(alloc, &source);
    drop(source);
    match read {
        Ok(file) => match print_file(alloc, &file) {
            Ok(text) => Ok(text),
            Err(_) => Err(ProjectFault::Memory),
        },
        Err(fault) => Err(fault),
    }
}

//! `tag`: writes a file in which each line and option has an id.
ghost use Rattle.std.specs.Prelude.{◌≡◌};
ghost use Rattle.yarn_cli.specs.Runs.{Prints, PrintsUnsaid, PrintsRead, files_seen, sink_seen};
ghost use Rattle.yarn_cli.specs.Tag.{at_line, of_tag, of_tagged};

use crate::message::{Ended, print, read_failed, refused_as, refused_at};
use crate::read::read_source;
use crate::{Command, CommandKind, Status};
use std::alloc::Global;
use yarn_base::{Files, IoFault, Place, Sink, Source, SourceFile};
use yarn_ids::{TagFault, tag_file};

/// Runs `tag`: reads its file and writes its text with the ids that lines and options lack, or says on `err` why it ended
/// otherwise than well (docs/commands.md, tag).
pub fn run_tag<F: Files, I: Source, O: Sink, E: Sink>(
    alloc: Global,
    command: &Command,
    files: &mut F,
    input: &mut I,
    out: &mut O,
    err: &mut E,
) -> Status
    requires { command.now.kind ≡ CommandKind.Tag }

    ensures prints { Prints command.now.names (of_tag command.now) result (files_seen F.contents F.latest_fault F.read_faults F.write_faults files.old) (files_seen F.contents F.latest_fault F.read_faults F.write_faults files.new)
        (sink_seen O.written O.faults out.old) (sink_seen O.written O.faults out.new) (sink_seen E.written E.faults err.old) (sink_seen E.written E.faults err.new) }
    ensures input { input.new ≡ input.old }
{
    let _ = input;
    tag_named(alloc, command, files, out).say(err)
}

// Tags the file that the command names; its line isn't said yet.
fn tag_named<F: Files, O: Sink>(
    alloc: Global,
    command: &Command,
    files: &mut F,
    out: &mut O,
) -> Ended
    ensures { PrintsUnsaid command.now.names (of_tag command.now) result (files_seen F.contents F.latest_fault F.read_faults F.write_faults files.old) (files_seen F.contents F.latest_fault F.read_faults F.write_faults files.new)
        (sink_seen O.written O.faults out.old) (sink_seen O.written O.faults out.new) }
{
    let name = command.first_name();
    match read_source(alloc, name, files) {
        Ok(source) => tag_source(alloc, command, &source, out),
        Err(IoFault::Failed) => read_failed(alloc, name.as_str()),
        Err(IoFault::Memory) => Ended::out_of_memory(alloc),
    }
}

// Writes the text of the source with tags.
fn tag_source<O: Sink>(alloc: Global, command: &Command, source: &SourceFile, out: &mut O) -> Ended
    ensures { PrintsRead (of_tagged command.now source.now) result (sink_seen O.written O.faults out.old) (sink_seen O.written O.faults out.new) }
{
    let names = command.names();
    match tag_file(alloc, source, command.first_number()) {
        Ok(text) => print(alloc, text.as_slice(), out),
        Err(TagFault::Refused(refusal)) => refused_at(alloc, names, refusal),
        Err(TagFault::IdsUsedUp) => refused_as(alloc, names, "IdsUsedUp", at_line(0)),
        Err(TagFault::TooLong(line)) => refused_as(alloc, names, "TooLong", at_line(line)),
        Err(TagFault::Memory) => Ended::out_of_memory(alloc),
    }
}

// A line of the one file.
fn at_line(line: u32) -> Place
    ensures { result ≡ at_line line }
{
    Place { file: 0, line }
}

//! The top call: reads the words, and runs the command that they are.
ghost use Rattle.std.specs.Prelude.{◌≡◌, false};
ghost use Rattle.yarn_cli.specs.Command.{save_vars_of};
ghost use Rattle.yarn_cli.specs.Commands.{outcome_of, of_command, read_names, reads_of, saved_by, takes_input, takes_input_of};
ghost use Rattle.yarn_cli.specs.Found.{command_of};
ghost use Rattle.yarn_cli.specs.Runs.{Runs, files_seen, input_seen, sink_seen};

use crate::message::{say_out_of_memory, say_usage};
use crate::{
    Command, CommandKind, Status, read_words, run_check, run_format, run_list, run_play,
    run_strings, run_tag,
};
use std::alloc::Global;
use yarn_base::{Files, Sink, Source, Words};

/// Runs the command that the words are: reads the files that they name, writes to `out`, and says on `err` why it
/// ended otherwise than well (docs/commands.md).
pub fn run_yarn<F: Files, I: Source, O: Sink, E: Sink>(
    alloc: Global,
    words: &Words,
    files: &mut F,
    input: &mut I,
    out: &mut O,
    err: &mut E,
) -> Status
    ensures runs { Runs (reads_of (command_of words.now)) (saved_by (command_of words.now)) (outcome_of words.now) result
        (files_seen F.contents F.latest_fault F.read_faults F.write_faults files.old) (files_seen F.contents F.latest_fault F.read_faults F.write_faults files.new)
        (input_seen I.left I.faults input.old) (input_seen I.left I.faults input.new) (sink_seen O.written O.faults out.old) (sink_seen O.written O.faults out.new) (sink_seen E.written E.faults err.old) (sink_seen E.written E.faults err.new) }
    // A call whose command takes no input leaves all of it, at every status.
    ensures input_stays { takes_input (command_of words.now) ≡ false → input.new ≡ input.old }
{
    match read_words(alloc, words) {
        Ok(Some(command)) => run_command(alloc, &command, files, input, out, err),
        Ok(None) => say_usage(err),
        Err(_) => say_out_of_memory(err),
    }
}

// Runs the command by its own call.
fn run_command<F: Files, I: Source, O: Sink, E: Sink>(
    alloc: Global,
    command: &Command,
    files: &mut F,
    input: &mut I,
    out: &mut O,
    err: &mut E,
) -> Status
    ensures runs { Runs (read_names command.now) (save_vars_of command.now) (of_command command.now) result
        (files_seen F.contents F.latest_fault F.read_faults F.write_faults files.old) (files_seen F.contents F.latest_fault F.read_faults F.write_faults files.new)
        (input_seen I.left I.faults input.old) (input_seen I.left I.faults input.new) (sink_seen O.written O.faults out.old) (sink_seen O.written O.faults out.new) (sink_seen E.written E.faults err.old) (sink_seen E.written E.faults err.new) }
    ensures input_stays { takes_input_of command.now.kind ≡ false → input.new ≡ input.old }
{
    match command.kind() {
        CommandKind::Check => run_check(alloc, command, files, input, out, err),
        CommandKind::Play => run_play(alloc, command, files, input, out, err),
        CommandKind::Format => run_format(alloc, command, files, input, out, err),
        CommandKind::Strings => run_strings(alloc, command, files, input, out, err),
        CommandKind::Tag => run_tag(alloc, command, files, input, out, err),
        CommandKind::List => run_list(alloc, command, files, input, out, err),
    }
}

//! `list`: writes the listing of a program file.
ghost use Rattle.std.specs.Prelude.{◌≡◌, IfOk, IfErr};
ghost use Rattle.yarn_code.specs.Decoded.{Decodes};
ghost use Rattle.yarn_code.specs.Fields.{HasFields};
ghost use Rattle.yarn_code.specs.ListingText.{listing_of};
ghost use Rattle.yarn_check.specs.Told.{whole_fault};
ghost use Rattle.yarn_cli.specs.Ended.{IsRefusal};
ghost use Rattle.yarn_cli.specs.List.{decoding_within, of_decoded, of_judged, of_list};
ghost use Rattle.yarn_cli.specs.Outcome.{of_done};
ghost use Rattle.yarn_cli.specs.Runs.{Prints, PrintsUnsaid, PrintsRead, files_seen, sink_seen};

use crate::check_fault::check_refused;
use crate::message::{Ended, bad_program, print, read_failed, refused_program};
use crate::{Command, CommandKind, Status};
use std::alloc::Global;
use yarn_base::{Files, IoFault, List, Sink, Source, Text};
use yarn_check::{Checked, check};
use yarn_code::{CodeFault, Program, decode, list_program};

/// The most bytes of a program file (docs/formats.md, Program files).
const PROGRAM_LIMIT: usize = 1073741824;

/// Runs `list`: reads its program file, checks the program and writes its listing, or says on `err` why it ended otherwise
/// than well (docs/commands.md, list).
pub fn run_list<F: Files, I: Source, O: Sink, E: Sink>(
    alloc: Global,
    command: &Command,
    files: &mut F,
    input: &mut I,
    out: &mut O,
    err: &mut E,
) -> Status
    requires { command.now.kind ≡ CommandKind.List }

    ensures prints { Prints command.now.names (of_list command.now) result (files_seen F.contents F.latest_fault F.read_faults F.write_faults files.old) (files_seen F.contents F.latest_fault F.read_faults F.write_faults files.new)
        (sink_seen O.written O.faults out.old) (sink_seen O.written O.faults out.new) (sink_seen E.written E.faults err.old) (sink_seen E.written E.faults err.new) }
    ensures input { input.new ≡ input.old }
{
    let _ = input;
    list_named(alloc, command, files, out).say(err)
}

// Lists the program file that the command names; its line isn't said yet.
fn list_named<F: Files, O: Sink>(
    alloc: Global,
    command: &Command,
    files: &mut F,
    out: &mut O,
) -> Ended
    ensures { PrintsUnsaid command.now.names (of_list command.now) result (files_seen F.contents F.latest_fault F.read_faults F.write_faults files.old) (files_seen F.contents F.latest_fault F.read_faults F.write_faults files.new)
        (sink_seen O.written O.faults out.old) (sink_seen O.written O.faults out.new) }
{
    let name = command.first_name();
    match files.read(alloc, name, PROGRAM_LIMIT) {
        Ok(bytes) => list_bytes(alloc, name, List::from_vec(bytes), out),
        Err(IoFault::Failed) => read_failed(alloc, name.as_str()),
        Err(IoFault::Memory) => Ended::out_of_memory(alloc),
    }
}

// Lists the program that the bytes of the file spell.
fn list_bytes<O: Sink>(alloc: Global, name: &Text, bytes: List<u8>, out: &mut O) -> Ended
    ensures { PrintsRead (of_decoded name.now (decoding_within bytes)) result (sink_seen O.written O.faults out.old) (sink_seen O.written O.faults out.new) }
{
    match checked_program(alloc, name, bytes) {
        Ok(checked) => list_checked(alloc, &checked, out),
        Err(ended) => ended,
    }
}

fn list_checked<O: Sink>(alloc: Global, checked: &Checked, out: &mut O) -> Ended
    ensures { PrintsRead (of_done (listing_of checked.now)) result (sink_seen O.written O.faults out.old) (sink_seen O.written O.faults out.new) }
{
    match list_program(alloc, checked.program()) {
        Ok(text) => print(alloc, text.as_str().as_bytes(), out),
        Err(_) => Ended::out_of_memory(alloc),
    }
}

// The program that the bytes spell, once it is checked.
fn checked_program(alloc: Global, name: &Text, bytes: List<u8>) -> Result<Checked, Ended>
    ensures ok { IfOk result (λ checked. of_decoded name.now (decoding_within bytes) ≡ of_done (listing_of checked)) }
    ensures err { IfErr result (IsRefusal (of_decoded name.now (decoding_within bytes))) }
{
    let program = decoded_program(alloc, name, bytes)?;
    judged_program(alloc, name, program)
}

// The program that the bytes spell; the bytes are let go.
fn decoded_program(alloc: Global, name: &Text, bytes: List<u8>) -> Result<Program, Ended>
    ensures ok { IfOk result (λ program. decoding_within bytes ≡ Decodes program) }
    ensures fields { IfOk result HasFields }
    ensures err { IfErr result (IsRefusal (of_decoded name.now (decoding_within bytes))) }
{
    if PROGRAM_LIMIT < bytes.len() {
        return Err(bad_program(alloc, name.as_str(), PROGRAM_LIMIT));
    }
    match decode(alloc, &bytes) {
        Ok(program) => Ok(program),
        Err(CodeFault::NewerFormat) => Err(refused_program(alloc, name.as_str(), "NewerFormat")),
        Err(CodeFault::BadProgram(at)) => Err(bad_program(alloc, name.as_str(), at)),
        Err(CodeFault::Memory) => Err(Ended::out_of_memory(alloc)),
    }
}

// The program, if it has no fault.
fn judged_program(alloc: Global, name: &Text, program: Program) -> Result<Checked, Ended>
    requires { HasFields program }
    ensures ok { IfOk result (λ checked. of_judged name.now program (whole_fault program) ≡ of_done (listing_of checked)) }
    ensures err { IfErr result (IsRefusal (of_judged name.now program (whole_fault program))) }
{
    match check(alloc, program) {
        Ok(checked) => Ok(checked),
        Err((_, fault)) => Err(check_refused(alloc, name.as_str(), fault)),
    }
}

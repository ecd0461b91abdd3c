//! How a command ended, with its line for the error sink.
ghost use Rattle.std.specs.Prelude.{◌≡◌, ◌≤◌, ◌⊎◌, IfOk, string_bytes};
ghost use Rattle.std.specs.Io.KnownBytes.{append_known};
ghost use Rattle.yarn_base.specs.Causes.{Rose};
ghost use Rattle.yarn_cli.specs.Messages.{bad_program as bad_program_text, bad_variable as bad_variable_text, bad_vars, cannot_read, cannot_write, file_refused, kind_text, name_at, refused, usage};
ghost use Rattle.yarn_cli.specs.Ended.{Tells};
ghost use Rattle.yarn_cli.specs.Outcome.{of_done};
ghost use Rattle.yarn_cli.specs.Runs.{PrintsRead, sink_seen};

use crate::Status;
use std::alloc::{AllocError, Global};
use yarn_base::{IoFault, Place, Sink, Words, write_all};
use yarn_tree::{Refusal, RefusalKind};

const USAGE: &str = "usage: yarn check|format|strings|tag|compile|list|play|run|resume|demo\n";

/// The status of a command and its line for the error sink.
#[derive(Debug, Drop)]
pub(crate) struct Ended {
    pub status: Status,
    pub line: String,
}

impl Ended {
    /// The status with its line, or want of memory where there was none for the line.
    pub(crate) fn with_line(
        alloc: Global,
        status: Status,
        line: Result<String, AllocError>,
    ) -> Ended
        ensures { Tells status line result }
    {
        match line {
            Ok(line) => Ended { status, line },
            Err(_) => Ended::out_of_memory(alloc),
        }
    }

    pub(crate) fn out_of_memory(alloc: Global) -> Ended
        ensures { result.status ≡ Status.OutOfMemory }
    {
        Ended {
            status: Status::OutOfMemory,
            line: String::new(alloc),
        }
    }

    /// Says the line.
    pub(crate) fn say<E: Sink>(&self, err: &mut E) -> Status
        ensures said { ((result ≡ self.now.status) × (E.written err.new ≡ append_known (E.written err.old) (string_bytes self.now.line)))
            ⊎ ((result ≡ Status.WriteFault) × Rose (E.faults err.old) (E.faults err.new))
            ⊎ (result ≡ Status.OutOfMemory) }
        ensures count { E.faults err.old ≤ E.faults err.new }
    {
        if self.status == Status::OutOfMemory {
            return say_out_of_memory(err);
        }
        match write_all(err, self.line.as_bytes()) {
            Ok(()) => self.status,
            Err(fault) => unsaid(fault),
        }
    }
}

/// Says want of memory, which stays what is answered whether or not it can be said.
pub(crate) fn say_out_of_memory<E: Sink>(err: &mut E) -> Status
    ensures status { result ≡ Status.OutOfMemory }
    ensures count { E.faults err.old ≤ E.faults err.new }
{
    let _ = write_all(err, b"out of memory\n");
    Status::OutOfMemory
}

// The status where the line isn't said.
fn unsaid(fault: IoFault) -> Status
    ensures failed { fault ≡ IoFault.Failed → result ≡ Status.WriteFault }
    ensures memory { fault ≡ IoFault.Memory → result ≡ Status.OutOfMemory }
{
    match fault {
        IoFault::Failed => Status::WriteFault,
        IoFault::Memory => Status::OutOfMemory,
    }
}

/// Says how `yarn` is called.
pub(crate) fn say_usage<E: Sink>(err: &mut E) -> Status
    ensures said { ((result ≡ Status.Usage) × (E.written err.new ≡ append_known (E.written err.old) usage))
        ⊎ ((result ≡ Status.WriteFault) × Rose (E.faults err.old) (E.faults err.new))
        ⊎ (result ≡ Status.OutOfMemory) }
    ensures count { E.faults err.old ≤ E.faults err.new }
{
    match write_all(err, USAGE.as_bytes()) {
        Ok(()) => Status::Usage,
        Err(fault) => unsaid(fault),
    }
}

/// A file can't be read.
pub(crate) fn read_failed(alloc: Global, file: &str) -> Ended
    ensures cases { (result.status ≡ Status.ReadFault) ⊎ (result.status ≡ Status.OutOfMemory) }
    ensures line { result.status ≡ Status.ReadFault → string_bytes result.line ≡ cannot_read file.now }
{
    Ended::with_line(
        alloc,
        Status::ReadFault,
        format!(in alloc; "cannot read {file}\n"),
    )
}

/// A file, or the output, can't be written.
pub(crate) fn write_failed(alloc: Global, name: &str) -> Ended
    ensures cases { (result.status ≡ Status.WriteFault) ⊎ (result.status ≡ Status.OutOfMemory) }
    ensures line { result.status ≡ Status.WriteFault → string_bytes result.line ≡ cannot_write name.now }
{
    Ended::with_line(
        alloc,
        Status::WriteFault,
        format!(in alloc; "cannot write {name}\n"),
    )
}

/// Writes the bytes, all that the command has to write.
pub(crate) fn print<O: Sink>(alloc: Global, bytes: &[u8], out: &mut O) -> Ended
    ensures { PrintsRead (of_done bytes.now) result
        (sink_seen O.written O.faults out.old) (sink_seen O.written O.faults out.new) }
{
    match write_all(out, bytes) {
        Ok(()) => Ended::with_line(alloc, Status::Done, Ok(String::new(alloc))),
        Err(IoFault::Failed) => write_failed(alloc, "output"),
        Err(IoFault::Memory) => Ended::out_of_memory(alloc),
    }
}

/// A refusal, with the name of its file among these.
pub(crate) fn refused_at(alloc: Global, names: &Words, refusal: Refusal) -> Ended
    ensures cases { (result.status ≡ Status.RefusedProject) ⊎ (result.status ≡ Status.OutOfMemory) }
    ensures line { result.status ≡ Status.RefusedProject →
        string_bytes result.line ≡ refused (name_at names.now refusal.place.file) (kind_text refusal.kind) refusal.place.line }
{
    refused_as(alloc, names, kind_name(refusal.kind), refusal.place)
}

/// A refusal by that name, with the name of its file among these.
pub(crate) fn refused_as(alloc: Global, names: &Words, name: &str, place: Place) -> Ended
    ensures cases { (result.status ≡ Status.RefusedProject) ⊎ (result.status ≡ Status.OutOfMemory) }
    ensures line { result.status ≡ Status.RefusedProject →
        string_bytes result.line ≡ refused (name_at names.now place.file) name.now place.line }
{
    let (file, line) = (file_name(names, place.file), place.line);
    Ended::with_line(
        alloc,
        Status::RefusedProject,
        format!(in alloc; "{file}:{line}: {name}\n"),
    )
}

/// A variables file is refused for that fault.
pub(crate) fn refused_vars(alloc: Global, file: &str, fault: &str) -> Ended
    ensures cases { (result.status ≡ Status.RefusedVars) ⊎ (result.status ≡ Status.OutOfMemory) }
    ensures line { result.status ≡ Status.RefusedVars → string_bytes result.line ≡ file_refused file.now fault.now }
{
    Ended::with_line(
        alloc,
        Status::RefusedVars,
        format!(in alloc; "{file}: {fault}\n"),
    )
}

/// A line of a variables file is bad.
pub(crate) fn bad_line(alloc: Global, file: &str, line: u32) -> Ended
    ensures cases { (result.status ≡ Status.RefusedVars) ⊎ (result.status ≡ Status.OutOfMemory) }
    ensures line { result.status ≡ Status.RefusedVars → string_bytes result.line ≡ file_refused file.now (bad_vars line) }
{
    match format!(in alloc; "BadVars {line}") {
        Ok(fault) => refused_vars(alloc, file, fault.as_str()),
        Err(_) => Ended::out_of_memory(alloc),
    }
}

/// A variable of the project has a value of another kind in the variables file.
pub(crate) fn bad_variable(alloc: Global, file: &str, name: &str) -> Ended
    ensures cases { (result.status ≡ Status.RefusedVars) ⊎ (result.status ≡ Status.OutOfMemory) }
    ensures line { result.status ≡ Status.RefusedVars → string_bytes result.line ≡ file_refused file.now (bad_variable_text name.now) }
{
    match format!(in alloc; "BadVariable {name}") {
        Ok(fault) => refused_vars(alloc, file, fault.as_str()),
        Err(_) => Ended::out_of_memory(alloc),
    }
}

/// A program file is refused for that fault.
pub(crate) fn refused_program(alloc: Global, file: &str, fault: &str) -> Ended
    ensures cases { (result.status ≡ Status.RefusedProgram) ⊎ (result.status ≡ Status.OutOfMemory) }
    ensures line { result.status ≡ Status.RefusedProgram → string_bytes result.line ≡ file_refused file.now fault.now }
{
    Ended::with_line(
        alloc,
        Status::RefusedProgram,
        format!(in alloc; "{file}: {fault}\n"),
    )
}

/// A program file is bad at that byte.
pub(crate) fn bad_program(alloc: Global, file: &str, at: usize) -> Ended
    ensures cases { (result.status ≡ Status.RefusedProgram) ⊎ (result.status ≡ Status.OutOfMemory) }
    ensures line { result.status ≡ Status.RefusedProgram → string_bytes result.line ≡ file_refused file.now (bad_program_text at) }
{
    match format!(in alloc; "BadProgram {at}") {
        Ok(fault) => refused_program(alloc, file, fault.as_str()),
        Err(_) => Ended::out_of_memory(alloc),
    }
}

/// The name at that place among these.
pub(crate) fn file_name(names: &Words, file: u32) -> &str
    ensures { result.now ≡ name_at names.now file }
{
    match names.get(file as usize) {
        Some(name) => name.as_str(),
        None => "",
    }
}

// The name of a refusal.
fn kind_name(kind: RefusalKind) -> &'static str
    ensures { result.now ≡ kind_text kind }
{
    match kind {
        RefusalKind::TooMuch => "TooMuch",
        RefusalKind::BadUtf8 => "BadUtf8",
        RefusalKind::LineTooLong => "LineTooLong",
        RefusalKind::BadLine => "BadLine",
        RefusalKind::BadStructure => "BadStructure",
        RefusalKind::TooDeep => "TooDeep",
        RefusalKind::TooMany => "TooMany",
        RefusalKind::Fraction => "Fraction",
        RefusalKind::NumberTooLarge => "NumberTooLarge",
        RefusalKind::BadTitle => "BadTitle",
        RefusalKind::DuplicateTitle => "DuplicateTitle",
        RefusalKind::ReservedName => "ReservedName",
        RefusalKind::DuplicateDeclare => "DuplicateDeclare",
        RefusalKind::UnknownNode => "UnknownNode",
        RefusalKind::UnknownFunction => "UnknownFunction",
        RefusalKind::WrongArguments => "WrongArguments",
        RefusalKind::DuplicateLineId => "DuplicateLineId",
    }
}

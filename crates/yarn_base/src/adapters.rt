//! The trusted edge: real files, readers and writers. They tell no content, and count each `Err` of std.
ghost use Rattle.std.specs.Prelude.{◌≡◌, Ok, None, IfOk, OnOk, OnErr};
ghost use Rattle.std.specs.Result.{IsErr};
ghost use Rattle.yarn_base.specs.Adapters.{IsTaken};
ghost use Rattle.yarn_base.specs.Calls.{one_more};
ghost use Rattle.yarn_base.specs.Causes.{FailsByCount, HasCause};

use crate::{Failed, Files, IoFault, List, Sink, Source, Text};
use std::alloc::Global;
use std::io::{self, Read, Write};
use std::{fs, rt};

/// The files of the system. They tell no contents. The rule is docs/outside.md, "The adapters".
#[derive(Drop)]
pub struct RealFiles<R: rt::Files + Drop> {
    rt: R,
    read_faults: u64,
    latest_fault: Option<Text>,
    write_faults: u64,
}

impl<R: rt::Files + Drop> RealFiles<R> {
    ghost use Rattle.yarn_base.specs.Adapters.{HasNoFault};

    /// The files that this runtime reaches. The counts begin at 0.
    pub fn new(rt: R) -> RealFiles<R>
        ensures { HasNoFault result }
    {
        RealFiles {
            rt,
            read_faults: 0,
            latest_fault: None,
            write_faults: 0,
        }
    }
}

impl<R: rt::Files + Drop> Files for RealFiles<R> {
    ghost contents = { λ _. None };

    ghost read_faults = { λ f. f.read_faults };

    ghost latest_fault = { λ f. f.latest_fault };

    ghost write_faults = { λ f. f.write_faults };

    fn read(&mut self, alloc: Global, name: &Text, max: usize) -> Result<Vec<u8>, IoFault> {
        let Ok(copy) = name.copy() else {
            return Err(IoFault::Memory);
        };
        let answer = read_first(&self.rt, alloc, name.as_str(), max);
        match counted(answer, &mut self.read_faults) {
            Ok(mut bytes) => {
                bytes.truncate(max + 1);
                Ok(bytes)
            }
            Err(Failed) => {
                self.latest_fault = Some(copy);
                Err(IoFault::Failed)
            }
        }
    }

    fn write(&mut self, name: &Text, bytes: &List<u8>) -> Result<(), IoFault> {
        let answer = fs::write(&self.rt, name.as_str(), bytes.as_slice());
        counted(answer, &mut self.write_faults).map_err(|_| IoFault::Failed)
    }
}

// The first `max + 1` bytes of a file; want of memory on the way is an `Err` of std too.
fn read_first<R: rt::Files>(rt: &R, alloc: Global, name: &str, max: usize) -> io::Result<Vec<u8>> {
    let mut bytes = Vec::new(alloc);
    let most = (max as u64).saturating_add(1);
    fs::open(rt, name)?.take(most).read_to_end(&mut bytes)?;
    Ok(bytes)
}

// What std answered: an `Ok` as it is, and an `Err` as a fault that is counted.
fn counted<T>(answer: io::Result<T>, faults: &mut u64) -> Result<T, Failed>
    ensures ok { IfOk answer (λ v. result ≡ Ok v) }
    ensures ok_count { OnOk answer (faults.new ≡ faults.old) }
    ensures err { OnErr answer (IsErr result) }
    ensures err_count { OnErr answer (faults.new ≡ one_more faults.old) }
    ensures cause { FailsByCount faults.old faults.new result }
{
    match answer {
        Ok(value) => Ok(value),
        Err(_) => {
            *faults = faults.saturating_add(1);
            Err(Failed)
        }
    }
}

// What a writer answered: to take nothing of a piece that isn't empty is a fault too.
fn taken(answer: io::Result<usize>, empty: bool, faults: &mut u64) -> Result<usize, IoFault>
    ensures made { IsTaken answer empty faults.old faults.new result }
    ensures bound { OnOk result (IfOk answer (λ n. result ≡ Ok n)) }
    ensures cause { HasCause faults.old faults.new result }
{
    match answer {
        Ok(count) if count > 0 || empty => Ok(count),
        _ => {
            *faults = faults.saturating_add(1);
            Err(IoFault::Failed)
        }
    }
}

/// A reader of the system, as standard input. It tells no bytes. The rule is docs/outside.md, "The adapters".
#[derive(Drop)]
pub struct ReaderSource<R: Read + Drop> {
    reader: R,
    faults: u64,
}

impl<R: Read + Drop> ReaderSource<R> {
    ghost use Rattle.yarn_base.specs.Adapters.{reader_faults};

    /// A source of what this reader gives. The count begins at 0.
    pub fn new(reader: R) -> ReaderSource<R>
        ensures { reader_faults result ≡ 0 }
    {
        ReaderSource { reader, faults: 0 }
    }
}

impl<R: Read + Drop> Source for ReaderSource<R> {
    ghost left = { λ _. None };

    ghost faults = { λ s. s.faults };

    fn read(&mut self, into: &mut [u8]) -> Result<usize, Failed> {
        let answer = self.reader.read(into);
        counted(answer, &mut self.faults)
    }
}

/// A writer of the system, as standard output. It tells no bytes. The rule is docs/outside.md, "The adapters".
#[derive(Drop)]
pub struct WriterSink<W: Write + Drop> {
    writer: W,
    faults: u64,
}

impl<W: Write + Drop> WriterSink<W> {
    ghost use Rattle.yarn_base.specs.Adapters.{writer_faults};

    /// A sink for what this writer takes. The count begins at 0.
    pub fn new(writer: W) -> WriterSink<W>
        ensures { writer_faults result ≡ 0 }
    {
        WriterSink { writer, faults: 0 }
    }
}

impl<W: Write + Drop> Sink for WriterSink<W> {
    ghost written = { λ _. None };

    ghost faults = { λ s. s.faults };

    fn write(&mut self, from: &[u8]) -> Result<usize, IoFault> {
        let answer = self.writer.write(from);
        taken(answer, from.is_empty(), &mut self.faults)
    }
}

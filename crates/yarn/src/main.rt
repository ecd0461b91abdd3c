//! The program `yarn`: it makes the real files and streams, runs the command, and ends with its status.
#![tactic(auto)]

use std::alloc::Global;
use std::env;
use std::io::ErrorKind;
use std::process::ExitCode;
use std::rt::Env;
use yarn_base::{Memory, ReaderSource, RealFiles, Text, Words, WriterSink};
use yarn_cli::{Status, run_yarn};

fn main(rt: HostRuntime) -> ExitCode {
    let alloc = rt.alloc();
    let status = match words(&rt, alloc) {
        Ok(words) => {
            let mut input = ReaderSource::new(rt.stdin());
            let mut out = WriterSink::new(rt.stdout());
            let mut err = WriterSink::new(rt.stderr());
            let mut files = RealFiles::new(rt);
            run_yarn(alloc, &words, &mut files, &mut input, &mut out, &mut err)
        }
        Err(Memory) => Status::OutOfMemory,
    };
    ExitCode::from(status.code())
}

// The words behind the program's name; none where one of them is no text, so that they are no command.
fn words(rt: &(impl Env + AllocGlobal), alloc: Global) -> Result<Words, Memory> {
    let mut words = Words::new(alloc);
    let args = match env::args(rt) {
        Ok(args) => args,
        Err(error) if error.kind() == ErrorKind::OutOfMemory => return Err(Memory),
        Err(_) => return Ok(words),
    };
    for arg in args.skip(1) {
        words
            .push(Text::from_str(alloc, arg.as_str())?)
            .map_err(|_| Memory)?;
    }
    Ok(words)
}

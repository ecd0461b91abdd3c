//! Calls that no command makes yet, to be measured by bench/run: `table FILE ROWS` reads a string table for a base of so many
//! rows, and `render COUNT` writes a plain line so many times. It ends with 1 where anything fails.
#![tactic(auto)]

mod line;
mod table;

use line::write_lines;
use std::io::{self, BufWriter, ErrorKind, Write};
use std::process::ExitCode;
use std::{env, fs};
use table::is_read;
use yarn_base::List;

fn main(rt: HostRuntime) -> ExitCode {
    match run(&rt) {
        Ok(()) => ExitCode::SUCCESS,
        Err(_) => ExitCode::FAILURE,
    }
}

fn run(rt: &HostRuntime) -> io::Result<()> {
    let alloc = rt.alloc();
    let mut words = Vec::new(alloc);
    for word in env::args(rt)?.skip(1) {
        words.push(word)?;
    }
    let mut out = BufWriter::new(alloc, rt.stdout())?;
    match words.as_slice() {
        [call, name, rows] if call.as_str() == "table" => {
            let bytes = List::from_vec(fs::read(rt, name.as_str())?);
            if is_read(alloc, &bytes, number(rows.as_str())?) {
                out.write_all(b"read\n")?;
            }
        }
        [call, count] if call.as_str() == "render" => {
            write_lines(alloc, number(count.as_str())?, &mut out)?;
        }
        _ => return Err(ErrorKind::InvalidInput.into()),
    }
    out.flush()
}

fn number(word: &str) -> io::Result<u32> {
    word.parse().map_err(|_| ErrorKind::InvalidInput.into())
}

//! Answers from a source in memory, in small and large pieces; a program, and bytes that are none.
use crate::{CodeFault, decode, encode, take_answer};
use std::alloc::Global;
use std::test::Fail;
use yarn_base::{List, Memory, MemorySource};

fn bytes(alloc: Global, of: &[u8]) -> Result<List<u8>, Memory> {
    let mut list = List::new(alloc);
    list.extend_from_slice(of)?;
    Ok(list)
}

// Whether the answers have these numbers, and none is left behind them.
fn gives(mut source: MemorySource, numbers: &[u32]) -> bool {
    for number in numbers {
        if take_answer(&mut source) != Ok(Some(*number)) {
            return false;
        }
    }
    take_answer(&mut source) == Ok(None)
}

#[test]
fn answers_of_an_input(rt: HostRuntime) -> Result<(), Memory> {
    let alloc = rt.alloc();
    let digits = [b'7'; 5000];
    let rows: [(&[u8], &[u32]); 8] = [
        (b"", &[]),
        (b"\n", &[0]),
        (b"12", &[12]),
        (b"1\n22\r\n x \n\t7 \n1234567890\n", &[1, 22, 0, 7, 0]),
        (b"000000001\n999999999\n-1\n", &[1, 999_999_999, 0]),
        (b"1 2\n\r 3\t\n3\n\n4", &[0, 3, 3, 0, 4]),
        (b"\r\n \n", &[0, 0]),
        (&digits, &[0, 0]),
    ];
    for (input, numbers) in rows {
        let small = MemorySource::new(alloc, bytes(alloc, input)?, 1);
        assert!(rt; gives(small, numbers), "in pieces of 1: {numbers:?}");
        let large = MemorySource::new(alloc, bytes(alloc, input)?, 100);
        assert!(rt; gives(large, numbers), "in pieces of 100: {numbers:?}");
    }
    Ok(())
}

const VISITS: &[u8] = b"\0\0\0\x1d$Yarn.Internal.Visiting.Start";

// The program of the node `Start`, whose visits are counted, with the line `Hello`: a field in each row, but for the number
// of an instruction and its line, which stand in one.
const HELLO: [&[u8]; 33] = [
    b"YSP1",
    // files
    b"\0\0\0\x01",
    b"\0\0\0\x06a.yarn",
    // variables
    b"\0\0\0\x01",
    VISITS,
    b"\x01",
    b"\0\0\0\0\0\0\0\0",
    // functions
    b"\0\0\0\0",
    // nodes
    b"\0\0\0\x01",
    b"\0\0\0\x05Start",
    b"\0\0\0\0",
    b"\0\0\0\x07",
    b"\x02\0\0\0\x03",
    b"\0",
    b"\0\0\0\x0cline:Start-0",
    b"\x0d\0\0\0\x04",
    VISITS,
    b"\x07\0\0\0\x04",
    b"\0\0\0\0\0\0\0\x01",
    b"\x0c\0\0\0\x04",
    b"\x02",
    b"\0\0\0\x04#add",
    b"\x0e\0\0\0\x04",
    VISITS,
    b"\x0b\0\0\0\x04",
    b"\x0f\0\0\0\x04",
    // lines
    b"\0\0\0\x01",
    b"\0\0\0\x0cline:Start-0",
    b"\0",
    b"\0\0\0\x05Hello",
    b"\0\0\0\0",
    b"\0\0\0\0",
    b"\0\0\0\x03",
];

// What comes of bytes.
#[derive(Clone, Copy, Debug, PartialEq, Eq)]
enum Outcome {
    // They are a program, which is written as these bytes again.
    Same,
    // They are a program, and others are written.
    Other,
    Refused(CodeFault),
}

fn outcome_of(alloc: Global, file: &[u8]) -> Result<Outcome, Memory> {
    match decode(alloc, &bytes(alloc, file)?) {
        Ok(program) if encode(alloc, &program)?.as_slice() == file => Ok(Outcome::Same),
        Ok(_) => Ok(Outcome::Other),
        Err(fault) => Ok(Outcome::Refused(fault)),
    }
}

fn hello(alloc: Global) -> Result<Vec<u8>, Memory> {
    let mut file = Vec::new(alloc);
    for row in HELLO {
        file.extend_from_slice(row)?;
    }
    Ok(file)
}

// Whether the bytes are the same program, or are refused at one of them or behind them.
fn is_same_or_refused(outcome: Outcome, len: usize) -> bool {
    match outcome {
        Outcome::Same | Outcome::Refused(CodeFault::NewerFormat) => true,
        Outcome::Refused(CodeFault::BadProgram(at)) => at <= len,
        Outcome::Other | Outcome::Refused(CodeFault::Memory) => false,
    }
}

#[test]
fn a_program_is_read_and_written(rt: HostRuntime) -> Result<(), Fail> {
    let alloc = rt.alloc();
    let file = hello(alloc)?;
    assert_eq!(rt; outcome_of(alloc, &file)?, Outcome::Same);
    for len in 0..file.len() {
        let place = outcome_of(alloc, &file[..len])?;
        assert!(rt;
            place != Outcome::Same && is_same_or_refused(place, len),
            "the first {len} bytes: {place:?}"
        );
    }
    Ok(())
}

#[test]
fn a_program_with_another_byte(rt: HostRuntime) -> Result<(), Fail> {
    let alloc = rt.alloc();
    let mut file = hello(alloc)?;
    for at in 0..file.len() {
        let byte = file[at];
        for other in [0, 255, byte.wrapping_add(1)] {
            file[at] = other;
            let result = outcome_of(alloc, &file)?;
            assert!(rt;
                is_same_or_refused(result, file.len()),
                "{other} at {at}: {result:?}"
            );
        }
        file[at] = byte;
    }
    Ok(())
}

#[test]
fn places_of_refusals(rt: HostRuntime) -> Result<(), Fail> {
    let alloc = rt.alloc();
    let rows: [(&[u8], CodeFault); 9] = [
        (b"", CodeFault::BadProgram(0)),
        (b"YSP", CodeFault::BadProgram(0)),
        (b"YSP0\0\0\0\0", CodeFault::BadProgram(0)),
        (b"YSP2", CodeFault::NewerFormat),
        (b"YSP9\0", CodeFault::NewerFormat),
        (b"YSP:", CodeFault::BadProgram(0)),
        (b"YSP1\0\0\0", CodeFault::BadProgram(4)),
        (b"YSP1\0\0\0\x01\0\0\0\x01\xff", CodeFault::BadProgram(8)),
        (
            b"YSP1\0\0\0\0\0\0\0\0\0\0\0\0\0\0\0\0\0\0\0\0\0",
            CodeFault::BadProgram(24),
        ),
    ];
    for (file, fault) in rows {
        assert_eq!(rt;
            outcome_of(alloc, file)?,
            Outcome::Refused(fault),
            "{file:?}"
        );
    }
    Ok(())
}

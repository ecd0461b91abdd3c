//! The lines of a whole file: first whether it is UTF-8, then whether a line is too long, by steps that are as long as the
//! longest line.
ghost use Rattle.std.specs.Prelude.{◌≡◌, ◌+◌, ◌≤◌, length, drop, true, IsUtf8, Some, None, string_bytes};
ghost use Rattle.std.specs.Str.{is_utf8};
ghost use Rattle.yarn_lines.specs.Lines.{mark_length, pieces_of, first_from, is_long};
ghost use Rattle.yarn_lines.specs.Fault.{Splits, SplitsText, is_bad};

use crate::piece::first_piece;
use crate::{LineFault, Lines};
use memchr::memrchr;
use std::alloc::Global;
use yarn_base::{List, WholeText};

/// The most bytes of a line before its LF (docs/language.md, Lines).
const LONGEST_LINE: usize = 65536;

const BYTE_ORDER_MARK: &[u8] = b"\xEF\xBB\xBF";

/// The lines of a file (docs/language.md, Lines). A line that is no UTF-8 is told before one that is too long,
/// also where it stands behind it.
pub fn split(alloc: Global, bytes: &List<u8>) -> Result<Lines, LineFault>
    requires { length bytes.now ≤ 1073741824 }
    ensures { Splits bytes.now result }
{
    split_own(alloc, bytes.copy()?)
}

/// The same of bytes that are given away: the texts of the lines are parts of them.
pub fn split_own(alloc: Global, bytes: List<u8>) -> Result<Lines, LineFault>
    requires { length bytes ≤ 1073741824 }
    ensures { Splits bytes result }
{
    match String::from_utf8(bytes.into_vec()) {
        Ok(text) => split_string(alloc, text),
        Err(error) => {
            let bytes = error.into_bytes();
            Err(LineFault::BadUtf8(first_bad_line(past_mark(bytes.as_slice()))))
        }
    }
}

// The bytes behind a leading byte order mark.
fn past_mark(bytes: &[u8]) -> &[u8]
    ensures value { result.now ≡ drop (mark_length bytes.now) bytes.now }
    ensures len { length result.now + mark_length bytes.now ≡ length bytes.now }
{
    bytes.strip_prefix(BYTE_ORDER_MARK).unwrap_or(bytes)
}

// The number of the first line that is no UTF-8.
fn first_bad_line(bytes: &[u8]) -> u32
    requires small { length bytes.now ≤ 1073741824 }
    requires bad { ¬ IsUtf8 bytes.now }
    ensures { first_from is_bad 1 (pieces_of bytes.now) ≡ Some result }
{
    let mut number = 1;
    let mut rest = bytes;
    while !rest.is_empty() {
        let (piece, after) = first_piece(rest);
        if !is_text(piece) {
            return number;
        }
        number += 1;
        rest = after;
    }
    unreachable!()
}

fn is_text(bytes: &[u8]) -> bool
    ensures { result ≡ is_utf8 bytes.now }
{
    str::from_utf8(bytes).is_ok()
}

// The lines of a file that is a text.
fn split_string(alloc: Global, text: String) -> Result<Lines, LineFault>
    requires { length (string_bytes text) ≤ 1073741824 }
    ensures { Splits (string_bytes text) result }
{
    match WholeText::from_string(alloc, text) {
        Ok(whole) => split_whole(whole),
        Err(_) => Err(LineFault::Memory),
    }
}

fn split_whole(whole: WholeText) -> Result<Lines, LineFault>
    requires { length whole ≤ 1073741824 }
    ensures { Splits whole result }
{
    let bytes = whole.as_str().as_bytes();
    let start = bytes.len() - past_mark(bytes).len();
    split_body(whole, start)
}

// The lines of what stands behind that place of the whole.
fn split_body(whole: WholeText, start: usize) -> Result<Lines, LineFault>
    requires small { length whole ≤ 1073741824 }
    requires within { start ≤ length whole }
    requires utf8 { IsUtf8 (drop start whole) }
    ensures { SplitsText start (drop start whole) result }
{
    match long_line(&whole.as_str().as_bytes()[start..]) {
        Some(number) => Err(LineFault::LineTooLong(number)),
        None => Ok(Lines::behind(whole, start)),
    }
}

// The number of the first line that is too long. Only a file that has one is looked at line by line.
fn long_line(bytes: &[u8]) -> Option<u32>
    requires { length bytes.now ≤ 1073741824 }
    ensures { result ≡ first_from is_long 1 (pieces_of bytes.now) }
{
    if are_short(bytes) {
        None
    } else {
        first_long_line(bytes)
    }
}

// Whether no line is too long. Each step goes behind the last LF of as many bytes as the longest line has with its own.
fn are_short(bytes: &[u8]) -> bool
    ensures { result ≡ true → first_from is_long 1 (pieces_of bytes.now) ≡ None }
{
    let mut rest = bytes;
    while rest.len() > LONGEST_LINE {
        match memrchr(b'\n', &rest[..LONGEST_LINE + 1]) {
            Some(at) => rest = &rest[at + 1..],
            None => return false,
        }
    }
    true
}

// The number of the first line that is too long, found line by line.
fn first_long_line(bytes: &[u8]) -> Option<u32>
    requires { length bytes.now ≤ 1073741824 }
    ensures { result ≡ first_from is_long 1 (pieces_of bytes.now) }
{
    let mut number = 1;
    let mut rest = bytes;
    while !rest.is_empty() {
        let (piece, after) = first_piece(rest);
        if piece.len() > LONGEST_LINE {
            return Some(number);
        }
        number += 1;
        rest = after;
    }
    None
}

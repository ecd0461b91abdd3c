//! A file written with tags, line by line.
ghost use Rattle.std.specs.Prelude.{◌≡◌, ◌≤◌, ◌<◌, ◌+◌, ◌++◌, [], ◌∷◌, IfOk, OnOk, MatchOption};
ghost use Rattle.yarn_tag.specs.Sets.{has, has_line, IsPut, IsPassed, IsWritten};
ghost use Rattle.yarn_tag.specs.Tagged.{digit, digits, id_of, IsNextFree, NoneFree, IsEnd, tag_before};

use crate::TagFault;
use crate::sets::{Ids, LineSet};
use std::alloc::Global;
use yarn_base::{List, Memory};
use yarn_lines::{Lines, RawLine};
use yarn_tree::text_end;

/// The greatest number of a tag.
const LAST_NUMBER: u32 = 268435455;

/// What is written so far, the place of the file up to which it is, and the next number or one before it.
#[derive(Drop)]
struct Tagger {
    out: List<u8>,
    at: usize,
    next: u32,
}

/// The bytes with the tags of these lines, the first number being that one or a later one.
pub(crate) fn write_lines(
    alloc: Global,
    bytes: &[u8],
    lines: Lines,
    lacking: &LineSet,
    taken: &Ids<'_>,
    start: u32,
) -> Result<List<u8>, TagFault>
    ensures { IsWritten bytes.now (has_line lacking.now) (has taken.now) start lines.lines result }
{
    let mut lines = lines;
    let mut tagger = Tagger {
        out: List::new(alloc),
        at: 0,
        next: start,
    };
    while let Some(line) = lines.take_first()? {
        tagger.take(bytes, lacking, taken, &line)?;
    }
    let Some(rest) = bytes.get(tagger.at..) else {
        return Err(TagFault::Memory);
    };
    tagger.out.extend_from_slice(rest)?;
    Ok(tagger.out)
}

impl Tagger {
    fn take(
        &mut self,
        bytes: &[u8],
        lacking: &LineSet,
        taken: &Ids<'_>,
        line: &RawLine,
    ) -> Result<(), TagFault>
        ensures { IsPassed bytes.now (has_line lacking.now) (has taken.now) line.now self.old self.new result }
    {
        if !lacking.contains(line.number) {
            return Ok(());
        }
        match next_free(taken, self.next) {
            Ok(Some(number)) => {
                self.at = put_tag(&mut self.out, bytes, self.at, line, number)?;
                self.next = number + 1;
                Ok(())
            }
            Ok(None) => Err(TagFault::IdsUsedUp),
            Err(_) => Err(TagFault::Memory),
        }
    }
}

// The first number from that one on whose id isn't taken.
fn next_free(taken: &Ids<'_>, next: u32) -> Result<Option<u32>, Memory>
    ensures { IfOk result (λ found. MatchOption found (NoneFree (has taken.now) next) (λ n. IsNextFree (has taken.now) next n)) }
{
    let mut number = next;
    while number <= LAST_NUMBER {
        if !is_taken(taken, number)? {
            return Ok(Some(number));
        }
        number += 1;
    }
    Ok(None)
}

fn is_taken(taken: &Ids<'_>, number: u32) -> Result<bool, Memory>
    ensures { IfOk result (λ is. is ≡ has taken.now (id_of number)) }
{
    let id = id_of(number);
    match str::from_utf8(&id) {
        Ok(id) => Ok(taken.contains(id)),
        Err(_) => Err(Memory),
    }
}

fn id_of(n: u32) -> [u8; 12]
    ensures { result ≡ id_of n }
{
    [
        b'l',
        b'i',
        b'n',
        b'e',
        b':',
        digit(n / 16777216 % 16),
        digit(n / 1048576 % 16),
        digit(n / 65536 % 16),
        digit(n / 4096 % 16),
        digit(n / 256 % 16),
        digit(n / 16 % 16),
        digit(n % 16),
    ]
}

fn digit(d: u32) -> u8
    requires { d < 16 }
    ensures { result ≡ digit d }
{
    if d < 10 { 48 + d as u8 } else { 87 + d as u8 }
}

// Writes the bytes behind that place up to the end of the line's text, and a tag; the place of that end.
fn put_tag(
    out: &mut List<u8>,
    bytes: &[u8],
    at: usize,
    line: &RawLine,
    number: u32,
) -> Result<usize, Memory>
    ensures { IfOk result (λ behind. IsPut bytes.now line.now number at out.old behind out.new) }
{
    let end = text_end(&line.text);
    let behind = line.at.checked_add(end).ok_or(Memory)?;
    let Some(before) = bytes.get(at..behind) else {
        return Err(Memory);
    };
    out.extend_from_slice(before)?;
    let Some(rest) = line.text.as_str().as_bytes().get(end..) else {
        return Err(Memory);
    };
    push_tag(out, rest, number)?;
    Ok(behind)
}

fn push_tag(out: &mut List<u8>, rest: &[u8], number: u32) -> Result<(), Memory>
    ensures { OnOk result (out.new ≡ out.old ++ tag_before rest.now number) }
{
    out.extend_from_slice(b" #")?;
    out.extend_from_slice(&id_of(number))?;
    if rest.starts_with(b"//") {
        out.extend_from_slice(b" ")?;
    }
    Ok(())
}

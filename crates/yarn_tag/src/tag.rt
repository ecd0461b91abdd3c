//! A file in which each line and each option has an id of its own.
ghost use Rattle.std.specs.Prelude.{◌≡◌, ◌≤◌, length, drop, IfOk};
ghost use Rattle.yarn_lines.specs.Lines.{pieces_of, first_from, is_long, mark_length, lines_of};
ghost use Rattle.yarn_tag.specs.Sets.{has, has_line, IsWritten, IsWithin};
ghost use Rattle.yarn_tag.specs.Tagged.{spoken_in, lacks, has_id, too_long, IsTagged, IsTagAnswer};
ghost use Rattle.yarn_tag.specs.Tagging.{tagging_of, IsTold};

use crate::TagFault;
use crate::sets::{Ids, LineSet};
use crate::spoken::{Spoken, spoken_in};
use crate::tagger::write_lines;
use std::alloc::Global;
use yarn_base::{List, Memory, SourceFile};
use yarn_lines::{first_piece, split};
use yarn_tree::{File, ProjectFault, read_file};

/// The most bytes of a file, and of a line before its LF (docs/language.md, Limits).
const LARGEST_FILE: usize = 4194304;

const LONGEST_LINE: usize = 65536;

const BYTE_ORDER_MARK: &[u8] = b"\xEF\xBB\xBF";

/// The bytes of the file with ` #line:` and seven hexadecimal digits behind the text of each line and option that has no
/// id of its own (docs/language.md, Tags). The numbers rise from `start`; those whose ids stand in the file are skipped.
#[tactic(auto, using(crate::proofs::TaggingLemmas::answer_told))]
pub fn tag_file(alloc: Global, file: &SourceFile, start: u32) -> Result<List<u8>, TagFault>
    ensures tagged { IsTagAnswer file.now start result }
    ensures value { IsTold (tagging_of file.now start) result }
{
    read_and_tag(alloc, file, start)
}

fn read_and_tag(alloc: Global, file: &SourceFile, start: u32) -> Result<List<u8>, TagFault>
    ensures { IsTagAnswer file.now start result }
{
    match read_file(alloc, file) {
        Ok(tree) => tag_tree(alloc, &file.bytes, &tree, start),
        Err(ProjectFault::Refused(refusal)) => Err(TagFault::Refused(refusal)),
        Err(ProjectFault::Memory) => Err(TagFault::Memory),
    }
}

fn tag_tree(alloc: Global, bytes: &List<u8>, tree: &File, start: u32) -> Result<List<u8>, TagFault>
    ensures { IsTagged bytes.now (spoken_in tree.now) start result }
{
    let said = spoken_in(alloc, tree)?;
    tag_said(alloc, bytes, said.as_slice(), start)
}

fn tag_said(
    alloc: Global,
    bytes: &List<u8>,
    said: &[Spoken],
    start: u32,
) -> Result<List<u8>, TagFault>
    ensures { IsTagged bytes.now said.now start result }
{
    match write_tags(alloc, bytes, said, start) {
        Ok(out) => within_limits(out),
        Err(fault) => Err(fault),
    }
}

fn within_limits(out: List<u8>) -> Result<List<u8>, TagFault>
    ensures { IsWithin out result }
{
    match too_long(out.as_slice()) {
        Some(line) => Err(TagFault::TooLong(line)),
        None => Ok(out),
    }
}

// The bytes with tags, also where they are too long.
fn write_tags(
    alloc: Global,
    bytes: &List<u8>,
    said: &[Spoken],
    start: u32,
) -> Result<List<u8>, TagFault>
    ensures { IsWritten bytes.now (lacks said.now) (has_id said.now) start (lines_of bytes.now).lines result }
{
    let lacking = lacking_in(alloc, said)?;
    let taken = ids_in(alloc, said)?;
    if bytes.len() > LARGEST_FILE {
        return Err(TagFault::Memory);
    }
    match split(alloc, bytes) {
        Ok(lines) => write_lines(alloc, bytes.as_slice(), lines, &lacking, &taken, start),
        Err(_) => Err(TagFault::Memory),
    }
}

// The lines that lack an id.
fn lacking_in(alloc: Global, said: &[Spoken]) -> Result<LineSet, Memory>
    ensures { IfOk result (λ lines. has_line lines ≡ lacks said.now) }
{
    let mut lines = LineSet::new(alloc);
    for spoken in said {
        if spoken.id.is_none() {
            lines.insert(spoken.line)?;
        }
    }
    Ok(lines)
}

// The ids that stand in the file.
fn ids_in<'a>(alloc: Global, said: &'a [Spoken]) -> Result<Ids<'a>, Memory>
    ensures { IfOk result (λ ids. has ids ≡ has_id said.now) }
{
    let mut ids = Ids::new(alloc);
    for spoken in said {
        if let Some(id) = &spoken.id {
            ids.insert(id.as_str())?;
        }
    }
    Ok(ids)
}

// The place of what is too long: line 0 for the file, and else the first line.
fn too_long(bytes: &[u8]) -> Option<u32>
    ensures { result ≡ too_long bytes.now }
{
    if bytes.len() > LARGEST_FILE {
        Some(0)
    } else {
        long_line(past_mark(bytes))
    }
}

// The bytes behind a leading byte order mark.
fn past_mark(bytes: &[u8]) -> &[u8]
    ensures value { result.now ≡ drop (mark_length bytes.now) bytes.now }
    ensures len { length result.now ≤ length bytes.now }
{
    bytes.strip_prefix(BYTE_ORDER_MARK).unwrap_or(bytes)
}

// The number of the first line that is too long.
fn long_line(bytes: &[u8]) -> Option<u32>
    requires { length bytes.now ≤ 4194304 }
    ensures { result ≡ first_from is_long 1 (pieces_of bytes.now) }
{
    let mut number = 1;
    let mut rest = bytes;
    while !rest.is_empty() {
        let (piece, after) = first_piece(rest);
        if piece.len() > LONGEST_LINE {
            return Some(number);
        }
        number += 1;
        rest = after;
    }
    None
}

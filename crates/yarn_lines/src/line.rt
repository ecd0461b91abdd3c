//! One line, the lines that aren't taken yet, and why a file has none.
ghost use Rattle.std.specs.Prelude.{◌≡◌, ◌+◌, ◌≤◌, length, drop, IfOk, IsUtf8};
ghost use Rattle.yarn_base.specs.Part.{cut};
ghost use Rattle.yarn_lines.specs.Lines.{width, counts, lines_from, pieces_of};
ghost use Rattle.yarn_lines.specs.Piece.{line_of};
ghost use Rattle.yarn_lines.specs.Taking.{AreLeft, Takes};

use crate::piece::{content_in, leading_length, piece_at};
use std::marker::Model;
use yarn_base::{Memory, Text, WholeText};

/// A line that counts: its text is neither empty nor a comment (docs/language.md, Lines).
#[derive(Debug, Drop)]
pub struct RawLine {
    /// The number of the line, from 1.
    pub number: u32,
    /// The width of the blanks before the text, a space counting 1 and a tab 8.
    pub indent: u32,
    /// The byte of the file at which the text begins, from 0.
    pub at: usize,
    /// The line without the blanks around it.
    pub text: Text,
}

/// The lines of a file that count, in order, which aren't taken yet, and the place of its end. Contracts see both; each
/// line is cut out of the file when it is taken.
#[derive(Debug, Drop)]
pub struct Lines {
    whole: WholeText,
    /// Where in it the lines begin that aren't looked at yet.
    at: usize,
    /// The number of the first of them.
    number: u32,
}

impl Model for Lines {
    ghost use Rattle.yarn_lines.specs.Lines.{Lines};

    ghost Value = { Lines };

    ghost use Rattle.std.specs.Prelude.{◌+◌, drop, length};
    ghost use Rattle.yarn_lines.specs.Lines.{lines_from, pieces_of};
    ghost use Rattle.yarn_lines.specs.Taking.{AreLeft};

    ghost view = { λ l. record { lines = lines_from l.number l.at (pieces_of (drop l.at l.whole)); end = l.number + length (pieces_of (drop l.at l.whole)) } };

    ghost invariant = { λ l. AreLeft l.whole l.at l.number };
}

impl Lines {
    // The lines behind that place of a text, the first of them having the number 1.
    pub(crate) fn behind(whole: WholeText, at: usize) -> Lines
        requires { AreLeft whole at 1 }
        ensures { result ≡ record { lines = lines_from 1 at (pieces_of (drop at whole)); end = length (pieces_of (drop at whole)) + 1 } }
    {
        Lines {
            whole,
            at,
            number: 1,
        }
    }

    /// Takes the next line; nothing where none is left. An `Err` leaves the lines.
    pub fn take_first(&mut self) -> Result<Option<RawLine>, Memory>
        ensures lines { Takes self.old.lines result self.new.lines }
        ensures end { self.new.end ≡ self.old.end }
    {
        while self.at < self.whole.as_str().len() {
            let piece = piece_at(&self.whole, self.at);
            let line = line_in(&self.whole, piece, self.number, self.at)?;
            self.at += piece.len() + 1;
            self.number += 1;
            if line.is_some() {
                return Ok(line);
            }
        }
        Ok(None)
    }

    /// The number of lines of the file and one more: the place of its end.
    pub fn into_end(self) -> u32
        ensures { result ≡ self.end }
    {
        let mut at = self.at;
        let mut end = self.number;
        while at < self.whole.as_str().len() {
            at += piece_at(&self.whole, at).len() + 1;
            end += 1;
        }
        end
    }
}

/// Why a file has no lines.
#[derive(Clone, Copy, Debug, PartialEq, Eq)]
pub enum LineFault {
    /// The first line that is no UTF-8.
    BadUtf8(u32),
    /// The first line of more than 65,536 bytes, where all lines are UTF-8.
    LineTooLong(u32),
    /// Want of memory.
    Memory,
}

impl From<Memory> for LineFault {
    ghost use Rattle.std.specs.Prelude.{◌≡◌};
    ghost use Rattle.yarn_lines.specs.declared.line.LineFault.TheVariants.{Memory};

    ghost from_gives = { λ _ e. e ≡ Memory };

    fn from(_: Memory) -> LineFault {
        LineFault::Memory
    }
}

// The line of a piece, which stands at that place of the whole, where it counts.
fn line_in(
    whole: &WholeText,
    piece: &[u8],
    number: u32,
    at: usize,
) -> Result<Option<RawLine>, Memory>
    requires short { length piece.now ≤ 65536 }
    requires place { (at + length piece.now ≤ length whole.now) × (length whole.now ≤ 1073741824) }
    requires cut { piece.now ≡ cut at (length piece.now) whole.now }
    requires utf8 { IsUtf8 piece.now }
    ensures { IfOk result (λ line. line ≡ line_of number at piece.now) }
{
    let content = content_in(piece);
    let front = leading_length(content);
    let (blanks, text) = content.split_at(front);
    if !counts_in(text) {
        return Ok(None);
    }
    Ok(Some(RawLine {
        number,
        indent: width_in(blanks),
        at: at + front,
        text: part_of(whole, at + front, text)?,
    }))
}

// The text, which stands there in the whole.
fn part_of(whole: &WholeText, from: usize, text: &[u8]) -> Result<Text, Memory>
    requires within { (from + length text.now ≤ length whole.now) × (length whole.now ≤ 1073741824) }
    requires cut { text.now ≡ cut from (length text.now) whole.now }
    requires utf8 { IsUtf8 text.now }
    ensures { IfOk result (λ part. part ≡ text.now) }
{
    whole.part(from as u32, text.len() as u32)
}

// Whether a line with this text counts.
fn counts_in(text: &[u8]) -> bool
    ensures { result ≡ counts text.now }
{
    !text.is_empty() && !text.starts_with(b"//")
}

fn width_in(blanks: &[u8]) -> u32
    requires { length blanks.now ≤ 65536 }
    ensures { result ≡ width blanks.now }
{
    let mut sum = 0;
    for blank in blanks {
        sum += if *blank == b'\t' { 8 } else { 1 };
    }
    sum
}

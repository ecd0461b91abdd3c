//! Reads templates: marks are taken from the front one by one, counted and put together.
ghost use Rattle.std.specs.Prelude.{◌≡◌, ◌≤◌, ◌<◌, ◌+◌, ◌++◌, ◌⊎◌, ◌∷◌, [], map, true, MatchOption, OnOk, IfOk};
ghost use Rattle.std.specs.List.{list_all};
ghost use Rattle.yarn_value.specs.Templates.{template_of, part_of, size, placeholders, Hole};
ghost use Rattle.yarn_value.specs.TemplateSteps.{marks_in};
ghost use Rattle.yarn_value.specs.TemplateReading.{Reads, IsTooMuch, built, is_plain};
ghost use Rattle.yarn_value.specs.TemplateSpelling.{MarksAreSpelled};
ghost use Rattle.yarn_value.specs.Pieces.{parts_of};

use crate::mark::{Mark, mark_at};
use crate::scan::first_char;
use crate::template::{Piece, Template};
use std::alloc::Global;
use std::mem;
use yarn_base::{List, Memory, Text};

/// Why a text was not read as a template.
#[derive(Clone, Copy, Debug, PartialEq, Eq)]
pub enum TemplateFault {
    /// The text isn't a template for so many holes.
    NotTemplate,
    Memory,
}

impl From<Memory> for TemplateFault {
    ghost use Rattle.yarn_value.specs.declared.reading.TemplateFault.TheVariants as fault;

    ghost from_gives = { λ _ e. e ≡ fault.Memory };

    fn from(_: Memory) -> TemplateFault {
        TemplateFault::Memory
    }
}

/// The placeholders that a template may have.
const MOST_PLACEHOLDERS: u32 = 64;

/// The bytes that a template may have, where each placeholder counts as three.
const MOST_BYTES: usize = 65_536;

/// The template that a text is, for values in so many holes (docs/formats.md): `{k}` is a
/// placeholder, a backslash stands before a brace that is none. `NotTemplate` comes exactly where
/// the text is no template, also above 64 placeholders or 65,536 bytes, each placeholder counted
/// as three; `Memory` is want of memory.
pub fn read_template(alloc: Global, text: &Text, holes: u32) -> Result<Template, TemplateFault>
    ensures parts { Reads result (template_of text.now holes) }
    ensures holes { IfOk result (λ template. template.holes ≡ holes) }
{
    if is_plain(text.as_str().as_bytes()) {
        read_plain(alloc, text, holes)
    } else {
        read_marked(alloc, text, holes)
    }
}

// Whether each byte stands for itself.
fn is_plain(bytes: &[u8]) -> bool
    ensures { result ≡ list_all is_plain bytes.now }
{
    bytes.iter().all(|byte| *byte != b'\\' && *byte != b'{')
}

// The template of a text in which each byte stands for itself.
fn read_plain(alloc: Global, text: &Text, holes: u32) -> Result<Template, TemplateFault>
    requires { list_all is_plain text.now ≡ true }
    ensures parts { Reads result (template_of text.now holes) }
    ensures holes { IfOk result (λ template. template.holes ≡ holes) }
{
    if text.len() > MOST_BYTES {
        return Err(TemplateFault::NotTemplate);
    }
    let run = text.copy()?;
    let mut pieces = List::new(alloc);
    keep(&mut pieces, Piece::Run(run))?;
    Ok(Template::new(pieces, holes))
}

// The template of a text that may have marks.
fn read_marked(alloc: Global, text: &Text, holes: u32) -> Result<Template, TemplateFault>
    ensures parts { Reads result (template_of text.now holes) }
    ensures holes { IfOk result (λ template. template.holes ≡ holes) }
{
    let mut builder = Builder::new(alloc)?;
    let mut counted = Counted { bytes: 0, holes: 0 };
    let mut rest = text.as_str();
    while let Some((first, behind)) = first_char(rest) {
        let Some(step) = mark_at(first, behind, holes) else {
            return Err(TemplateFault::NotTemplate);
        };
        match with_mark(counted, step.mark) {
            Some(more) => counted = more,
            None => return Err(TemplateFault::NotTemplate),
        }
        builder.push(alloc, step.mark)?;
        rest = step.rest;
    }
    let pieces = builder.finish()?;
    Ok(Template::new(pieces, holes))
}

/// The marks that `read_template` finds are those of the pieces that the text is written by, and
/// a text that is written so is read.
pub fn marks_are_spelled()
    ensures { MarksAreSpelled }
{}

/// What a template has so far, within its limits.
#[derive(Clone, Copy, Debug)]
pub(crate) struct Counted {
    bytes: usize,
    holes: u32,
    ghost short: { bytes ≤ 65536 },
    ghost few: { holes ≤ 64 },
}

/// The numbers with one more mark, where they stay within the limits.
fn with_mark(so_far: Counted, mark: Mark) -> Option<Counted>
    ensures { MatchOption result (IsTooMuch so_far.bytes so_far.holes (marks_in mark)) (λ more. (more.bytes ≡ so_far.bytes + size (marks_in mark)) × (more.holes ≡ so_far.holes + placeholders (marks_in mark))) }
{
    match mark {
        Mark::Char(c) => within(so_far, c.len_utf8(), 0),
        Mark::Backslashes | Mark::OpenBrace | Mark::CloseBrace => within(so_far, 2, 0),
        Mark::Hole(_) => within(so_far, 3, 1),
    }
}

fn within(so_far: Counted, bytes: usize, holes: u32) -> Option<Counted>
    requires few { bytes ≤ 4 }
    requires one { holes ≤ 1 }
    ensures { MatchOption result ((65536 < so_far.bytes + bytes) ⊎ (64 < so_far.holes + holes)) (λ more. (more.bytes ≡ so_far.bytes + bytes) × (more.holes ≡ so_far.holes + holes)) }
{
    let bytes = so_far.bytes + bytes;
    let holes = so_far.holes + holes;
    if bytes > MOST_BYTES || holes > MOST_PLACEHOLDERS {
        return None;
    }
    Some(Counted { bytes, holes })
}

/// The pieces so far, and the characters since the latest hole.
#[derive(Drop)]
pub(crate) struct Builder {
    pieces: List<Piece>,
    run: Text,
}

impl Builder {
    fn new(alloc: Global) -> Result<Builder, Memory>
        ensures { IfOk result (λ builder. built builder.pieces builder.run ≡ []) }
    {
        Ok(Builder {
            pieces: List::new(alloc),
            run: Text::from_str(alloc, "")?,
        })
    }

    fn push(&mut self, alloc: Global, mark: Mark) -> Result<(), Memory>
        ensures { OnOk result (built self.new.pieces self.new.run ≡ built self.old.pieces self.old.run ++ map part_of (marks_in mark)) }
    {
        match mark {
            Mark::Char(c) => self.run.push_char(c),
            Mark::Backslashes => self.run.push_str("\\\\"),
            Mark::OpenBrace => self.run.push_str("{"),
            Mark::CloseBrace => self.run.push_str("}"),
            Mark::Hole(hole) => self.push_hole(alloc, hole),
        }
    }

    fn push_hole(&mut self, alloc: Global, hole: u32) -> Result<(), Memory>
        ensures { OnOk result (built self.new.pieces self.new.run ≡ built self.old.pieces self.old.run ++ Hole hole ∷ []) }
    {
        let empty = Text::from_str(alloc, "")?;
        let run = mem::replace(&mut self.run, empty);
        keep(&mut self.pieces, Piece::Run(run))?;
        keep(&mut self.pieces, Piece::Hole(hole))?;
        Ok(())
    }

    fn finish(self) -> Result<List<Piece>, Memory>
        ensures { IfOk result (λ pieces. parts_of pieces ≡ built self.pieces self.run) }
    {
        let Builder { mut pieces, run } = self;
        keep(&mut pieces, Piece::Run(run))?;
        Ok(pieces)
    }
}

fn keep(pieces: &mut List<Piece>, piece: Piece) -> Result<(), Memory>
    ensures { OnOk result (pieces.new ≡ pieces.old ++ piece ∷ []) }
{
    match pieces.push(piece) {
        Ok(()) => Ok(()),
        Err(_) => Err(Memory),
    }
}

//! Notes the first line of each kind that a project is refused for.
ghost use Rattle.std.specs.Prelude.{◌≡◌, length};
ghost use Rattle.yarn_nodes.specs.Finds.{holes_in, has_many_holes};
ghost use Rattle.yarn_nodes.specs.Reading.{no_notes, found_noted, body_noted, misplaced_noted, mistitled_noted};
ghost use Rattle.yarn_nodes.specs.Structure.{deep_in, crowd_in};

use crate::node::Notes;
use crate::structure::Stand;
use yarn_blocks::Verdict;
use yarn_items::{Found, Item};

/// The most substitutions that a line may have.
const MOST_HOLES: usize = 16;

impl Notes {
    pub(crate) fn new() -> Notes
        ensures { result ≡ no_notes }
    {
        Notes {
            bad: None,
            many_holes: None,
            misplaced: None,
            too_deep: None,
            too_many: None,
            fraction: None,
            too_large: None,
            mistitled: None,
        }
    }

    /// Notes what was found of a line.
    pub(crate) fn note_found(&mut self, line: u32, found: &Option<Found>)
        ensures { self.new ≡ found_noted self.old line found.now }
    {
        match found {
            None => self.bad = self.bad.or(Some(line)),
            Some(found) => self.note_limits(line, found),
        }
    }

    fn note_limits(&mut self, line: u32, found: &Found)
        ensures { self.new ≡ found_noted self.old line (Some found.now) }
    {
        let many_holes = hole_count(&found.item) > MOST_HOLES;
        self.many_holes = self.many_holes.or(many_holes.then_some(line));
        self.fraction = self.fraction.or(found.literals.fraction.then_some(line));
        self.too_large = self.too_large.or(found.literals.too_large.then_some(line));
    }

    /// Notes the body that a `===` ends.
    pub(crate) fn note_body(&mut self, stand: Stand, line: u32, body: Verdict)
        ensures { self.new ≡ body_noted self.old stand line body }
    {
        self.note_misplaced(stand.end_fault(line, body));
        if let Verdict::Block(excess) = body {
            self.too_deep = self.too_deep.or(excess.too_deep);
            self.too_many = self.too_many.or(excess.too_many);
        }
    }

    pub(crate) fn note_misplaced(&mut self, line: Option<u32>)
        ensures { self.new ≡ misplaced_noted self.old line }
    {
        self.misplaced = self.misplaced.or(line);
    }

    /// Notes the line where it titles its node badly.
    pub(crate) fn note_mistitled(&mut self, line: u32, bad: bool)
        ensures { self.new ≡ mistitled_noted self.old line bad }
    {
        self.mistitled = self.mistitled.or(bad.then_some(line));
    }
}

// How many substitutions an item has.
fn hole_count(item: &Item) -> usize
    ensures { result ≡ length (holes_in item.now) }
{
    match item {
        Item::Line(said) | Item::Offer(said, _) | Item::Game(said) => said.holes.len(),
        Item::FileTag(_)
        | Item::Header(_)
        | Item::BodyBegins
        | Item::NodeEnds
        | Item::Command(..) => { 0 }
    }
}

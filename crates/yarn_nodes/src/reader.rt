//! Reads the lines of a file one by one: its nodes so far, and what was noted of them.
ghost use Rattle.std.specs.Prelude.{◌≡◌, ◌∷◌, [], List, ℕ, IfOk, OnOk, true};
ghost use Rattle.yarn_items.specs.declared.item.Mode.TheVariants.{InBody};
ghost use Rattle.yarn_items.specs.Simple.{is_simple};
ghost use Rattle.yarn_nodes.specs.Structure.{mode_of};
ghost use Rattle.yarn_lines.specs.declared.line.RawLine.{RawLine as RawLineOf};
ghost use Rattle.yarn_nodes.specs.Reader.{file_of};

use crate::draft::{Draft, titled_or_empty};
use crate::entry::Spot;
use crate::node::{FileLines, FileRead, NodeLines, Notes, Titled};
use crate::structure::Stand;
use std::alloc::Global;
use std::mem;
use yarn_base::{List as Items, Memory, Text};
use yarn_items::{Header, Item, Said, is_plain, plain_lines_are_said, read_item};
use yarn_lines::{Lines, RawLine};

/// What of a file has been read.
#[derive(Drop)]
pub(crate) struct Reader {
    ids: bool,
    stand: Stand,
    tags: Items<Text>,
    nodes: Items<NodeLines>,
    titles: Items<Titled>,
    draft: Draft,
    notes: Notes,
}

impl Reader {
    ghost use Rattle.yarn_nodes.specs.Reading.{item_at, no_lines, read_on, item_taken, tag_put, header_put, body_opened, node_put, node_ended};

    fn new(alloc: Global, ids: bool) -> Reader
        ensures { result ≡ no_lines ids }
    {
        Reader {
            ids,
            stand: Stand::Front,
            tags: Items::new(alloc),
            nodes: Items::new(alloc),
            titles: Items::new(alloc),
            draft: Draft::new(alloc),
            notes: Notes::new(),
        }
    }

    fn take(&mut self, alloc: Global, line: RawLine) -> Result<(), Memory>
        ensures { OnOk result ((number : ℕ) (name : List ℕ) (end : ℕ) (lines : List RawLineOf) →
            read_on self.old number name end (line ∷ lines) ≡ read_on self.new number name end lines) }
    {
        if self.stand.is_inside() && is_plain(line.text.as_str()) {
            self.take_plain(alloc, line)
        } else {
            self.take_other(alloc, line)
        }
    }

    // A line that is said as it stands, as most are.
    fn take_plain(&mut self, alloc: Global, line: RawLine) -> Result<(), Memory>
        requires inside { mode_of self.old.stand ≡ InBody }
        requires plain { is_simple line.text ≡ true }
        ensures { OnOk result ((number : ℕ) (name : List ℕ) (end : ℕ) (lines : List RawLineOf) →
            read_on self.old number name end (line ∷ lines) ≡ read_on self.new number name end lines) }
    {
        plain_lines_are_said();
        let RawLine {
            number,
            indent,
            text,
            ..
        } = line;
        let spot = Spot {
            line: number,
            indent,
        };
        self.draft
            .take_line(alloc, self.ids, spot, said_plain(alloc, text))
    }

    // Any line.
    fn take_other(&mut self, alloc: Global, line: RawLine) -> Result<(), Memory>
        ensures { OnOk result ((number : ℕ) (name : List ℕ) (end : ℕ) (lines : List RawLineOf) →
            read_on self.old number name end (line ∷ lines) ≡ read_on self.new number name end lines) }
    {
        let RawLine {
            number,
            indent,
            text,
            ..
        } = line;
        let found = read_item(alloc, self.stand.mode(), text)?;
        self.notes.note_found(number, &found);
        let spot = Spot {
            line: number,
            indent,
        };
        match found {
            Some(found) => self.take_item(alloc, spot, found.item),
            None => Ok(()),
        }
    }

    fn take_item(&mut self, alloc: Global, spot: Spot, item: Item) -> Result<(), Memory>
        ensures { OnOk result (self.new ≡ item_taken self.old (item_at spot item)) }
    {
        match item {
            Item::FileTag(tag) => self.take_tag(spot.line, tag),
            Item::Header(header) => self.take_header(alloc, spot.line, header),
            Item::BodyBegins => {
                self.begin_body(alloc, spot.line);
                Ok(())
            }
            Item::NodeEnds => self.end_node(alloc, spot.line),
            Item::Line(said) => self.draft.take_line(alloc, self.ids, spot, said),
            Item::Offer(said, condition) => {
                self.draft
                    .take_offer(alloc, self.ids, spot, said, condition)
            }
            Item::Command(command, tags) => self.draft.take_command(spot, command, tags),
            Item::Game(said) => self.draft.take_game(spot, said),
        }
    }

    fn take_tag(&mut self, line: u32, tag: Text) -> Result<(), Memory>
        ensures { OnOk result (self.new ≡ tag_put self.old line tag) }
    {
        self.notes.note_misplaced(self.stand.tag_fault(line));
        self.tags.push(tag).map_err(|_| Memory)
    }

    fn take_header(&mut self, alloc: Global, line: u32, header: Header) -> Result<(), Memory>
        ensures { OnOk result (self.new ≡ header_put self.old line header) }
    {
        let bad = self.draft.is_mistitled_by(&header);
        self.notes.note_mistitled(line, bad);
        self.stand = self.stand.behind_header();
        self.draft.take_header(alloc, line, header)
    }

    fn begin_body(&mut self, alloc: Global, line: u32)
        ensures { self.new ≡ body_opened self.old line }
    {
        self.notes.note_mistitled(line, self.draft.title.is_none());
        self.stand = Stand::Inside;
        self.draft.begin_body(alloc, line);
    }

    fn end_node(&mut self, alloc: Global, line: u32) -> Result<(), Memory>
        ensures { OnOk result (self.new ≡ node_ended self.old line) }
    {
        let body = self.draft.verdict(alloc)?;
        self.notes.note_body(self.stand, line, body);
        self.stand = Stand::Between;
        self.put_node(alloc, line)
    }

    fn put_node(&mut self, alloc: Global, end_line: u32) -> Result<(), Memory>
        ensures { OnOk result (self.new ≡ node_put self.old end_line) }
    {
        let Draft {
            title,
            headers,
            line,
            body,
            ..
        } = mem::replace(&mut self.draft, Draft::new(alloc));
        let titled = titled_or_empty(alloc, title)?;
        let node = NodeLines {
            title: titled.title.to_text()?,
            headers,
            line,
            end_line,
            body,
        };
        self.nodes.push(node).map_err(|_| Memory)?;
        self.titles.push(titled).map_err(|_| Memory)
    }

    fn finish(
        mut self,
        alloc: Global,
        number: u32,
        name: Text,
        end: u32,
    ) -> Result<FileRead, Memory>
        ensures { IfOk result (λ read. read ≡ read_on self number name end []) }
    {
        let body = self.draft.verdict(alloc)?;
        self.notes.note_misplaced(self.stand.cut_fault(end, body));
        let Reader {
            tags,
            nodes,
            titles,
            notes,
            ..
        } = self;
        Ok(FileRead {
            number,
            file: FileLines { name, tags, nodes },
            titles,
            notes,
        })
    }
}

/// Reads the lines of the file with that number among the files, from 0. Lines and options have ids where `ids` says so.
#[tactic(auto, unfolding(crate::specs::Reader::file_of))]
pub fn read_lines(
    alloc: Global,
    ids: bool,
    number: u32,
    name: Text,
    lines: Lines,
) -> Result<FileRead, Memory>
    ensures { IfOk result (λ read. read ≡ file_of ids number name lines) }
{
    let mut lines = lines;
    let mut reader = Reader::new(alloc, ids);
    while let Some(line) = lines.take_first()? {
        reader.take(alloc, line)?;
    }
    reader.finish(alloc, number, name, lines.into_end())
}

// What is said by a text as it stands.
fn said_plain(alloc: Global, text: Text) -> Said
    ensures { result ≡ record { text = text; holes = []; tags = [] } }
{
    Said {
        text,
        holes: Items::new(alloc),
        tags: Items::new(alloc),
    }
}

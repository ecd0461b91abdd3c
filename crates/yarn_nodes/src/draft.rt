//! A node while its lines are read.
ghost use Rattle.std.specs.Prelude.{◌≡◌, IfOk, OnOk, is_some};
ghost use Rattle.yarn_blocks.specs.Entries.{marks_of};
ghost use Rattle.yarn_blocks.specs.Outline.{verdict_in};
ghost use Rattle.yarn_items.specs.declared.item.Item.TheVariants as item;
ghost use Rattle.yarn_nodes.specs.Entries.{text_at as text_of};
ghost use Rattle.yarn_nodes.specs.Nodes.{no_draft, titled_of, header_taken, body_begun, with_entry, counted, next_id, and_what, said_taken, other_taken};
ghost use Rattle.yarn_nodes.specs.Reading.{item_at};
ghost use Rattle.yarn_nodes.specs.Titles.{is_title, is_mistitled};

use crate::entry::{Spot, command_at, text_at};
use crate::ids::id_for;
use crate::node::Titled;
use std::alloc::Global;
use yarn_base::{List, Memory, Text, is_name};
use yarn_blocks::{BodyLines, Entry, LineId, LineText, SharedText, Simple, Verdict, What};
use yarn_commands::Command;
use yarn_expr::Expr;
use yarn_items::{Header, Said};

/// What of a node has been read.
#[derive(Drop)]
pub(crate) struct Draft {
    pub title: Option<Titled>,
    pub headers: List<Header>,
    /// The line of its `---`.
    pub line: u32,
    pub body: BodyLines,
    /// How many lines and options of the body there are.
    pub said: u64,
}

impl Draft {
    pub(crate) fn new(alloc: Global) -> Draft
        ensures { result ≡ no_draft }
    {
        Draft {
            title: None,
            headers: List::new(alloc),
            line: 0,
            body: BodyLines::new(alloc),
            said: 0,
        }
    }

    /// Whether with the header the node isn't titled well.
    pub(crate) fn is_mistitled_by(&self, header: &Header) -> bool
        ensures { result ≡ is_mistitled (is_some self.now.title) (item.Header header.now) }
    {
        is_title_header(header) && (self.title.is_some() || !is_name(&header.value))
    }

    pub(crate) fn take_header(
        &mut self,
        alloc: Global,
        line: u32,
        header: Header,
    ) -> Result<(), Memory>
        ensures { OnOk result (self.new ≡ header_taken self.old line header) }
    {
        if is_title_header(&header) && self.title.is_none() {
            let title = SharedText::new(alloc, header.value.copy()?)?;
            self.title = Some(Titled { line, title });
        }
        self.headers.push(header).map_err(|_| Memory)
    }

    pub(crate) fn begin_body(&mut self, alloc: Global, line: u32)
        ensures { self.new ≡ body_begun self.old line }
    {
        self.line = line;
        self.body = BodyLines::new(alloc);
        self.said = 0;
    }

    /// Takes a line that is said; it has an id where ids are wanted.
    #[inline(always)]
    pub(crate) fn take_line(
        &mut self,
        alloc: Global,
        ids: bool,
        spot: Spot,
        said: Said,
    ) -> Result<(), Memory>
        ensures { OnOk result (self.new ≡ said_taken ids self.old (item_at spot (item.Line said)) said) }
    {
        let text = self.next_text(alloc, ids, spot.line, said)?;
        self.body.push_line(spot.line, spot.indent, text)
    }

    /// Takes an option; it has an id where ids are wanted.
    pub(crate) fn take_offer(
        &mut self,
        alloc: Global,
        ids: bool,
        spot: Spot,
        said: Said,
        condition: Option<Expr>,
    ) -> Result<(), Memory>
        ensures { OnOk result (self.new ≡ said_taken ids self.old (item_at spot (item.Offer said condition)) said) }
    {
        let text = self.next_text(alloc, ids, spot.line, said)?;
        self.add(spot, What::Offer(text, condition))
    }

    /// Takes a command that isn't for the game.
    pub(crate) fn take_command(
        &mut self,
        spot: Spot,
        command: Command,
        tags: List<Text>,
    ) -> Result<(), Memory>
        ensures { OnOk result (self.new ≡ other_taken self.old (item_at spot (item.Command command tags))) }
    {
        match command_at(spot.line, tags, command) {
            Some(what) => self.add(spot, what),
            None => Ok(()),
        }
    }

    /// Takes a command for the game. It has no id.
    pub(crate) fn take_game(&mut self, spot: Spot, said: Said) -> Result<(), Memory>
        ensures { OnOk result (self.new ≡ other_taken self.old (item_at spot (item.Game said))) }
    {
        let text = text_at(spot.line, LineId::none(), said);
        self.body
            .push_statement(spot.line, spot.indent, Simple::Command(text))
    }

    /// What the lines of the body are so far.
    pub(crate) fn verdict(&self, alloc: Global) -> Result<Verdict, Memory>
        ensures { IfOk result (λ verdict. verdict ≡ verdict_in (marks_of self.now.body)) }
    {
        self.body.verdict(alloc)
    }

    // What is said with the next id; it is counted.
    #[inline(always)]
    fn next_text(
        &mut self,
        alloc: Global,
        ids: bool,
        line: u32,
        said: Said,
    ) -> Result<LineText, Memory>
        ensures text { IfOk result (λ text. text ≡ text_of line (next_id ids self.old said.tags) said) }
        ensures counts { OnOk result (self.new ≡ counted self.old) }
    {
        let before = self.said;
        let id = id_for(alloc, ids, &said.tags, &self.title, before)?;
        self.said = before.checked_add(1).ok_or(Memory)?;
        Ok(text_at(line, id, said))
    }

    fn add(&mut self, spot: Spot, what: What) -> Result<(), Memory>
        ensures { OnOk result (self.new ≡ with_entry self.old (record { line = spot.line; indent = spot.indent; what = what })) }
    {
        let Spot { line, indent } = spot;
        self.body.push(Entry { line, indent, what })
    }
}

fn is_title_header(header: &Header) -> bool
    ensures { result ≡ is_title header.now }
{
    header.key.as_str().as_bytes() == b"title".as_slice()
}

/// The title of a node; one that has none stands on no line, and is empty.
pub(crate) fn titled_or_empty(alloc: Global, title: Option<Titled>) -> Result<Titled, Memory>
    ensures { IfOk result (λ titled. titled ≡ titled_of title) }
{
    match title {
        Some(titled) => Ok(titled),
        None => Ok(Titled {
            line: 0,
            title: SharedText::new(alloc, Text::from_str(alloc, "")?)?,
        }),
    }
}

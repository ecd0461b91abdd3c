//! The lines of a body while no tree is made of them.
ghost use Rattle.std.specs.Prelude.{◌≡◌, ◌++◌, ◌∷◌, [], true, length, IfOk, OnOk, OnErr, is_ok, if◌then◌else◌};
ghost use Rattle.yarn_blocks.specs.declared.entry.Simple.TheVariants as simple;
ghost use Rattle.yarn_blocks.specs.declared.entry.What.TheVariants as what;
ghost use Rattle.yarn_blocks.specs.BodyLine.{TakesFirst, TakesNotable, Passed};
ghost use Rattle.yarn_blocks.specs.BodyLines.{IsBareText};
ghost use Rattle.yarn_blocks.specs.Building.{read_behind};
ghost use Rattle.yarn_blocks.specs.Entries.{marks_of};
ghost use Rattle.yarn_blocks.specs.Outline.{verdict_in};
ghost use Rattle.yarn_blocks.specs.Reading.{read};
ghost use Rattle.yarn_blocks.specs.View.{stmts_of};

use crate::body_line::{BodyLine, BodyWhat, Spot};
use crate::entry::{Entry, Simple, What, marks};
use crate::reading::leaf;
use crate::tree::{LineText, Stmt};
use crate::verdict::{Verdict, judged_behind};
use std::alloc::Global;
use std::marker::Model;
use yarn_base::{List, Memory};

/// The lines of a body, in order. Contracts see the list of them.
#[derive(Debug, Drop)]
pub struct BodyLines {
    /// The statements in front, as they stand in the tree.
    stmts: Vec<Stmt>,
    /// Where each of them stands.
    spots: Vec<Spot>,
    /// The lines from the first on that is no statement.
    rest: Vec<Entry>,
}

impl Model for BodyLines {
    ghost use Rattle.std.specs.Prelude.{List, ◌++◌};
    ghost use Rattle.std.specs.Coded.{codes};
    ghost use Rattle.yarn_expr.specs.contracts.tree.Expr as expr;
    ghost use Rattle.yarn_blocks.specs.declared.entry.Entry.{Entry};

    ghost Value = { List Entry };

    ghost coded = { Prim.hlevel (codes, expr.the_row.coded) };

    ghost use Rattle.yarn_blocks.specs.BodyLines.{entries_at, AreLines};

    ghost view = { λ b. entries_at b.stmts.items b.spots.items ++ b.rest.items };

    ghost invariant = { λ b. AreLines b.stmts.items b.spots.items };
}

// Whether a line that is said has neither substitutions nor hashtags.
fn is_bare_text(text: &LineText) -> bool
    ensures { result ≡ true → IsBareText text.now }
{
    text.holes.is_empty() && text.tags.is_empty()
}

/// One more statement.
#[inline(always)]
fn put_stmt(stmts: &mut Vec<Stmt>, stmt: Stmt) -> Result<(), Memory>
    ensures ok { OnOk result (stmts.new.items ≡ stmts.old.items ++ stmt ∷ []) }
    ensures err { OnErr result (stmts.new.items ≡ stmts.old.items) }
{
    stmts.push(stmt)?;
    Ok(())
}

/// One more statement with its place; both or none.
#[inline(always)]
fn put(stmts: &mut Vec<Stmt>, spots: &mut Vec<Spot>, stmt: Stmt, spot: Spot) -> Result<(), Memory>
    ensures stmts { stmts.new.items ≡ (if is_ok result then stmts.old.items ++ stmt ∷ [] else stmts.old.items) }
    ensures spots { spots.new.items ≡ (if is_ok result then spots.old.items ++ spot ∷ [] else spots.old.items) }
{
    spots.push(spot)?;
    let put = put_stmt(stmts, stmt);
    if put.is_err() {
        let _ = spots.pop();
    }
    put
}

impl BodyLines {
    /// No lines. It takes no memory.
    pub fn new(alloc: Global) -> BodyLines
        ensures { result ≡ [] }
    {
        BodyLines {
            stmts: Vec::new(alloc),
            spots: Vec::new(alloc),
            rest: Vec::new(alloc),
        }
    }

    /// Puts the line behind one that is no statement, or puts one that is none.
    #[tactic(auto, using(crate::proofs::BodyLineLemmas::rest_more))]
    fn push_rest(&mut self, entry: Entry) -> Result<(), Memory>
        ensures { OnOk result (self.new ≡ self.old ++ entry ∷ []) }
    {
        self.rest.push(entry)?;
        Ok(())
    }

    /// Puts the line last.
    pub fn push(&mut self, entry: Entry) -> Result<(), Memory>
        ensures { OnOk result (self.new ≡ self.old ++ entry ∷ []) }
    {
        let Entry { line, indent, what } = entry;
        match what {
            What::Statement(simple) => self.push_statement(line, indent, simple),
            what => self.push_rest(Entry { line, indent, what }),
        }
    }

    /// Puts a line that is a statement last.
    pub fn push_statement(
        &mut self,
        line: u32,
        indent: u32,
        statement: Simple,
    ) -> Result<(), Memory>
        ensures { OnOk result (self.new ≡ self.old ++ (record { line = line; indent = indent; what = what.Statement statement }) ∷ []) }
    {
        if !self.rest.is_empty() {
            return self.push_rest(Entry {
                line,
                indent,
                what: What::Statement(statement),
            });
        }
        let spot = Spot {
            line,
            indent,
            is_bare: false,
        };
        put(&mut self.stmts, &mut self.spots, leaf(statement), spot)?;
        Ok(())
    }

    /// Puts a line that is said last, as most are.
    pub fn push_line(&mut self, line: u32, indent: u32, text: LineText) -> Result<(), Memory>
        ensures { OnOk result (self.new ≡ self.old ++ (record { line = line; indent = indent; what = what.Statement (simple.Line text) }) ∷ []) }
    {
        if !self.rest.is_empty() {
            let what = What::Statement(Simple::Line(text));
            return self.push_rest(Entry { line, indent, what });
        }
        let spot = Spot {
            line,
            indent,
            is_bare: is_bare_text(&text),
        };
        put(&mut self.stmts, &mut self.spots, Stmt::Line(text), spot)?;
        Ok(())
    }

    /// How many lines there are.
    pub fn len(&self) -> usize
        ensures { result ≡ length self.now }
    {
        self.stmts.as_slice().len() + self.rest.as_slice().len()
    }

    /// The lines to look at, one after the other.
    pub fn lines(&self) -> LinesLeft<'_>
        ensures { result ≡ self.now }
    {
        LinesLeft {
            stmts: self.stmts.as_slice(),
            spots: self.spots.as_slice(),
            rest: self.rest.as_slice(),
        }
    }

    /// What the lines are.
    pub fn verdict(&self, alloc: Global) -> Result<Verdict, Memory>
        ensures { IfOk result (λ verdict. verdict ≡ verdict_in (marks_of self.now)) }
    {
        let marks = marks(alloc, self.rest.as_slice())?;
        judged_behind(alloc, self.stmts.as_slice().len(), marks.as_slice())
    }

    /// The statements in front, and the lines behind them, each with all that it is.
    pub(crate) fn into_parts(self) -> (List<Stmt>, Vec<Entry>)
        ensures { read self ≡ read_behind (stmts_of result.0) result.1.items }
    {
        let BodyLines {
            stmts,
            spots: _,
            rest,
        } = self;
        (List::from_vec(stmts), rest)
    }
}

/// Lines that aren't looked at yet. Contracts see the list of them.
#[derive(Drop)]
pub struct LinesLeft<'a> {
    stmts: &'a [Stmt],
    spots: &'a [Spot],
    rest: &'a [Entry],
}

impl<'a> Model for LinesLeft<'a> {
    ghost use Rattle.std.specs.Prelude.{List, ◌++◌, ◌≡◌, length};
    ghost use Rattle.std.specs.Coded.{codes};
    ghost use Rattle.yarn_expr.specs.contracts.tree.Expr as expr;
    ghost use Rattle.yarn_blocks.specs.declared.entry.Entry.{Entry};

    ghost Value = { List Entry };

    ghost coded = { Prim.hlevel (codes, expr.the_row.coded) };

    ghost use Rattle.yarn_blocks.specs.BodyLines.{entries_at, AreMarked};

    ghost view = { λ l. entries_at l.stmts.now l.spots.now ++ l.rest.now };

    ghost invariant = { λ l. (length l.stmts.now ≡ length l.spots.now) × AreMarked l.stmts.now l.spots.now };
}

impl<'a> LinesLeft<'a> {
    /// The next line; nothing where none is left.
    pub fn take_first(&mut self) -> Option<BodyLine<'a>>
        ensures { TakesFirst self.old result self.new }
    {
        if let (Some((stmt, stmts)), Some((spot, spots))) = (
            self.stmts.split_first(),
            self.spots.split_first(),
        ) {
            self.stmts = stmts;
            self.spots = spots;
            return Some(BodyLine {
                line: spot.line,
                indent: spot.indent,
                what: BodyWhat::Statement(stmt),
            });
        }
        let (first, rest) = self.rest.split_first()?;
        self.rest = rest;
        Some(BodyLine {
            line: first.line,
            indent: first.indent,
            what: BodyWhat::Structure(&first.what),
        })
    }
    /// The next line that may be more than a said one without substitutions and hashtags; nothing where none is left.
    pub fn take_notable(&mut self) -> Option<BodyLine<'a>>
        ensures { TakesNotable self.old result self.new }
    {
        self.pass_bare();
        self.take_first()
    }

    // Passes the lines in front that are marked as bare.
    fn pass_bare(&mut self)
        ensures { Passed self.old self.new }
    {
        while let (Some((_, stmts)), Some((spot, spots))) = (
            self.stmts.split_first(),
            self.spots.split_first(),
        ) {
            if !spot.is_bare {
                return;
            }
            self.stmts = stmts;
            self.spots = spots;
        }
    }
}

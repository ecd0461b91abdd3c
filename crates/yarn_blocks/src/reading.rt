//! One pass over the lines of a body, which makes its statements.
ghost use Rattle.std.specs.Prelude.{◌≡◌, true, IfOk};
ghost use Rattle.yarn_blocks.specs.declared.entry.What.TheVariants as what;
ghost use Rattle.yarn_blocks.specs.BodyLines.{is_leaf, leaf_of};
ghost use Rattle.yarn_blocks.specs.Building.{state_of, behind, Gives, GivesStmts, closed, settled_of};
ghost use Rattle.yarn_blocks.specs.Frames.{ends_frame};
ghost use Rattle.yarn_blocks.specs.Reading.{step, placed, taken, finish as finish_of};
ghost use Rattle.yarn_blocks.specs.Tree.{Leaf, Choice};
ghost use Rattle.yarn_blocks.specs.View.{stmt_of, stmts_of, clauses_of, last_of};

use crate::entry::{Entry, Simple, What};
use crate::frame::Frame;
use crate::frames::Frames;
use crate::held::{Held, add_clause};
use crate::tree::{Clause, ElseClause, Head, LineText, Stmt};
use std::alloc::Global;
use yarn_base::{List, Memory};
use yarn_expr::Expr;

/// What is read so far.
#[derive(Drop)]
pub(crate) struct Reading {
    pub(crate) frames: Frames,
    pub(crate) top: Held,
}

/// Why no further line is read.
#[derive(Clone, Copy, Debug, PartialEq, Eq)]
pub(crate) enum Fault {
    /// The line can't stand there.
    Refused,
    Memory,
}

impl From<Memory> for Fault {
    ghost use Rattle.std.specs.Prelude.{◌≡◌};
    ghost use Rattle.yarn_blocks.specs.declared.reading.Fault.TheVariants.{Memory};

    ghost from_gives = { λ _ e. e ≡ Memory };

    fn from(_: Memory) -> Fault {
        Fault::Memory
    }
}

/// A statement that is one line.
pub(crate) fn leaf(simple: Simple) -> Stmt
    ensures view { stmt_of result ≡ Leaf simple }
    ensures one_line { is_leaf result ≡ true }
    ensures same { leaf_of result ≡ simple }
{
    match simple {
        Simple::Line(text) => Stmt::Line(text),
        Simple::Set(head, name, operator, value) => Stmt::Set(head, name, operator, value),
        Simple::Declare(head, name, value, kind) => Stmt::Declare(head, name, value, kind),
        Simple::Jump(head, title) => Stmt::Jump(head, title),
        Simple::JumpTo(head, title) => Stmt::JumpTo(head, title),
        Simple::Stop(head) => Stmt::Stop(head),
        Simple::Call(head, call) => Stmt::Call(head, call),
        Simple::Command(text) => Stmt::Command(text),
    }
}

/// A whole `if`.
fn whole_if(clauses: List<Clause>, last: Option<ElseClause>, head: Head) -> Stmt
    ensures { stmt_of result ≡ Choice (clauses_of clauses) (last_of last) head }
{
    Stmt::If(clauses, last, head)
}

impl Reading {
    /// Nothing but these statements is read.
    pub(crate) fn behind(alloc: Global, done: List<Stmt>) -> Reading
        ensures { state_of result ≡ behind (stmts_of done) }
    {
        Reading {
            frames: Frames::new(alloc),
            top: Held {
                done,
                group: List::new(alloc),
            },
        }
    }

    /// The innermost option ends.
    fn close(self, indent: u32) -> Result<Reading, Memory>
        requires { ends_frame indent self.frames ≡ true }
        ensures { IfOk result (λ r. state_of r ≡ closed (state_of self)) }
    {
        let Reading { mut frames, top } = self;
        match frames.pop() {
            Some(Frame::InOption(_, text, condition, before)) => {
                let body = top.all()?;
                let top = before.add_option(text, condition, body)?;
                Ok(Reading { frames, top })
            }
            _ => unreachable!(),
        }
    }

    /// The options end that a line with this indent ends.
    fn settle(self, indent: u32) -> Result<Reading, Memory>
        ensures { IfOk result (λ r. state_of r ≡ settled_of indent (state_of self)) }
    {
        let mut reading = self;
        while reading.frames.is_ended_by(indent) {
            reading = reading.close(indent)?;
        }
        Ok(reading)
    }

    /// A statement that is one line.
    fn take_statement(self, alloc: Global, simple: Simple) -> Result<Reading, Fault>
        ensures { Gives result (taken (state_of self) 0 (what.Statement simple)) }
    {
        let Reading { frames, top } = self;
        let top = top.add_stmt(alloc, leaf(simple))?;
        Ok(Reading { frames, top })
    }

    /// An option.
    fn take_offer(
        self,
        alloc: Global,
        indent: u32,
        text: LineText,
        condition: Option<Expr>,
    ) -> Result<Reading, Fault>
        ensures { Gives result (taken (state_of self) indent (what.Offer text condition)) }
    {
        let Reading { mut frames, top } = self;
        frames.push(Frame::InOption(indent, text, condition, top))?;
        Ok(Reading {
            frames,
            top: Held::new(alloc),
        })
    }

    /// An `if`.
    fn take_if(self, alloc: Global, head: Head, condition: Expr) -> Result<Reading, Fault>
        ensures { Gives result (taken (state_of self) 0 (what.If head condition)) }
    {
        let Reading { mut frames, top } = self;
        frames.push(Frame::InClause(head, condition, List::new(alloc), top))?;
        Ok(Reading {
            frames,
            top: Held::new(alloc),
        })
    }

    /// An `elseif`.
    fn take_else_if(self, alloc: Global, head: Head, condition: Expr) -> Result<Reading, Fault>
        ensures { Gives result (taken (state_of self) 0 (what.ElseIf head condition)) }
    {
        let Reading { mut frames, top } = self;
        match frames.pop() {
            Some(Frame::InClause(first, asked, clauses, before)) => {
                let clauses = add_clause(clauses, first, asked, top.all()?)?;
                frames.push(Frame::InClause(head, condition, clauses, before))?;
                Ok(Reading {
                    frames,
                    top: Held::new(alloc),
                })
            }
            Some(Frame::InOption(_, _, _, _)) => Err(Fault::Refused),
            Some(Frame::InElse(_, _, _)) => Err(Fault::Refused),
            None => Err(Fault::Refused),
        }
    }

    /// An `else`.
    fn take_else(self, alloc: Global, head: Head) -> Result<Reading, Fault>
        ensures { Gives result (taken (state_of self) 0 (what.Else head)) }
    {
        let Reading { mut frames, top } = self;
        match frames.pop() {
            Some(Frame::InClause(first, asked, clauses, before)) => {
                let clauses = add_clause(clauses, first, asked, top.all()?)?;
                frames.push(Frame::InElse(head, clauses, before))?;
                Ok(Reading {
                    frames,
                    top: Held::new(alloc),
                })
            }
            Some(Frame::InOption(_, _, _, _)) => Err(Fault::Refused),
            Some(Frame::InElse(_, _, _)) => Err(Fault::Refused),
            None => Err(Fault::Refused),
        }
    }

    /// An `endif`.
    fn take_end(self, alloc: Global, head: Head) -> Result<Reading, Fault>
        ensures { Gives result (taken (state_of self) 0 (what.EndIf head)) }
    {
        let Reading { mut frames, top } = self;
        match frames.pop() {
            Some(Frame::InClause(first, asked, clauses, before)) => {
                let clauses = add_clause(clauses, first, asked, top.all()?)?;
                let top = before.add_stmt(alloc, whole_if(clauses, None, head))?;
                Ok(Reading { frames, top })
            }
            Some(Frame::InElse(first, clauses, before)) => {
                let last = ElseClause {
                    head: first,
                    body: top.all()?,
                };
                let top = before.add_stmt(alloc, whole_if(clauses, Some(last), head))?;
                Ok(Reading { frames, top })
            }
            Some(Frame::InOption(_, _, _, _)) => Err(Fault::Refused),
            None => Err(Fault::Refused),
        }
    }

    /// A line where it stands deep enough.
    fn take(self, alloc: Global, entry: Entry) -> Result<Reading, Fault>
        ensures { Gives result (taken (state_of self) entry.indent entry.what) }
    {
        let Entry {
            line: _,
            indent,
            what,
        } = entry;
        match what {
            What::Statement(simple) => self.take_statement(alloc, simple),
            What::Offer(text, condition) => self.take_offer(alloc, indent, text, condition),
            What::If(head, condition) => self.take_if(alloc, head, condition),
            What::ElseIf(head, condition) => self.take_else_if(alloc, head, condition),
            What::Else(head) => self.take_else(alloc, head),
            What::EndIf(head) => self.take_end(alloc, head),
        }
    }

    /// A line where no option is left that it ends.
    fn place(self, alloc: Global, entry: Entry) -> Result<Reading, Fault>
        ensures { Gives result (placed (state_of self) entry) }
    {
        if u64::from(entry.indent) < self.frames.low() {
            return Err(Fault::Refused);
        }
        self.take(alloc, entry)
    }

    /// One line.
    pub(crate) fn take_next(self, alloc: Global, entry: Entry) -> Result<Reading, Fault>
        ensures { Gives result (step (state_of self) entry) }
    {
        let settled = self.settle(entry.indent)?;
        settled.place(alloc, entry)
    }

    /// At the end each open option ends, and no `if` may be open.
    pub(crate) fn finish(self) -> Result<List<Stmt>, Fault>
        ensures { GivesStmts result (finish_of (state_of self)) }
    {
        let mut reading = self;
        while reading.frames.is_ended_by(0) {
            reading = reading.close(0)?;
        }
        if !reading.frames.is_empty() {
            return Err(Fault::Refused);
        }
        let Reading { frames: _, top } = reading;
        Ok(top.all()?)
    }
}

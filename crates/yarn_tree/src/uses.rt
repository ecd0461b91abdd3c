//! What the lines of bodies use, collected in order of the text.
ghost use Rattle.std.specs.Prelude.{◌≡◌, ◌∷◌, ◌++◌, [], map, IfOk, OnOk};
ghost use Rattle.yarn_blocks.specs.BodyLine.{what_of};
ghost use Rattle.yarn_blocks.specs.BodyLines.{leaf_of};
ghost use Rattle.yarn_tree.specs.Uses.{uses_of, uses_of_all, uses_of_asked, uses_of_simple, uses_of_what, at_place, uses_in_body, uses_within, uses_in, use_of, use_at};

use std::alloc::Global;
use std::marker::Model;
use yarn_base::{Memory, Place, Text};
use yarn_blocks::{BodyLines, BodyWhat, Simple, Stmt, What};
use yarn_expr::Expr;
use yarn_nodes::{FileRead, NodeLines};

/// What is used, by its name.
#[derive(Clone, Copy)]
pub(crate) enum Used<'a> {
    Variable(&'a Text),
    /// A variable that is declared.
    Declaration(&'a Text),
    /// The node of that title.
    Title(&'a Text),
    /// A function with so many arguments.
    Function(&'a Text, usize),
}

/// What is used, and where.
#[derive(Clone, Copy)]
pub(crate) struct UsedAt<'a> {
    pub used: Used<'a>,
    pub place: Place,
}

/// Uses in order, which contracts see as their list.
#[derive(Drop)]
pub(crate) struct Uses<'a> {
    items: Vec<UsedAt<'a>>,
}

impl<'a> Model for Uses<'a> {
    ghost use Rattle.std.specs.Prelude.{List, map};
    ghost use Rattle.yarn_tree.specs.Uses.{UseAt, use_at};

    ghost Value = { List UseAt };

    ghost view = { λ u. map use_at u.items.items };
}

/// What the lines of the files use.
pub(crate) fn collect<'a>(alloc: Global, reads: &'a [FileRead]) -> Result<Uses<'a>, Memory>
    ensures { IfOk result (λ uses. uses ≡ uses_in reads.now) }
{
    let mut uses = Uses::new(alloc);
    for read in reads {
        uses.add_nodes(read.number, read.file.nodes.as_slice())?;
    }
    Ok(uses)
}

impl<'a> Uses<'a> {
    fn new(alloc: Global) -> Uses<'a>
        ensures { result ≡ [] }
    {
        Uses {
            items: Vec::new(alloc),
        }
    }

    /// The uses, in order.
    pub(crate) fn as_slice(&self) -> &[UsedAt<'a>]
        ensures { map use_at result.now ≡ self.now }
    {
        self.items.as_slice()
    }

    fn add(&mut self, place: Place, used: Used<'a>) -> Result<(), Memory>
        ensures { OnOk result (self.new ≡ self.old ++ at_place place (use_of used.entry ∷ [])) }
    {
        self.items.push(UsedAt { used, place })?;
        Ok(())
    }

    fn add_nodes(&mut self, file: u32, nodes: &'a [NodeLines]) -> Result<(), Memory>
        ensures { OnOk result (self.new ≡ self.old ++ uses_within file nodes.now) }
    {
        for node in nodes {
            self.add_body(file, &node.body)?;
        }
        Ok(())
    }

    fn add_body(&mut self, file: u32, body: &'a BodyLines) -> Result<(), Memory>
        ensures { OnOk result (self.new ≡ self.old ++ uses_in_body file body.now) }
    {
        let mut left = body.lines();
        while let Some(found) = left.take_notable() {
            let place = Place {
                file,
                line: found.line,
            };
            self.add_line(place, found.what)?;
        }
        Ok(())
    }

    fn add_line(&mut self, place: Place, what: BodyWhat<'a>) -> Result<(), Memory>
        ensures { OnOk result (self.new ≡ self.old ++ at_place place (uses_of_what (what_of what.entry))) }
    {
        match what {
            BodyWhat::Statement(stmt) => self.add_stmt(place, stmt),
            BodyWhat::Structure(what) => self.add_what(place, what),
        }
    }

    // A statement that is one line.
    fn add_stmt(&mut self, place: Place, stmt: &'a Stmt) -> Result<(), Memory>
        ensures { OnOk result (self.new ≡ self.old ++ at_place place (uses_of_simple (leaf_of stmt.now))) }
    {
        match stmt {
            Stmt::Line(text) => self.add_exprs(place, text.holes.as_slice()),
            Stmt::Command(text) => self.add_exprs(place, text.holes.as_slice()),
            Stmt::Set(_, name, _, expr) => {
                self.add(place, Used::Variable(name))?;
                self.add_expr(place, expr)
            }
            Stmt::Declare(_, name, _, _) => self.add(place, Used::Declaration(name)),
            Stmt::Jump(_, title) => self.add(place, Used::Title(title)),
            Stmt::JumpTo(_, expr) => self.add_expr(place, expr),
            Stmt::Call(_, expr) => self.add_expr(place, expr),
            Stmt::Stop(_) | Stmt::Options(_) | Stmt::If(..) => Ok(()),
        }
    }

    fn add_what(&mut self, place: Place, what: &'a What) -> Result<(), Memory>
        ensures { OnOk result (self.new ≡ self.old ++ at_place place (uses_of_what what.now)) }
    {
        match what {
            What::Statement(simple) => self.add_simple(place, simple),
            What::Offer(text, condition) => {
                self.add_exprs(place, text.holes.as_slice())?;
                self.add_asked(place, condition)
            }
            What::If(_, expr) => self.add_expr(place, expr),
            What::ElseIf(_, expr) => self.add_expr(place, expr),
            What::Else(_) | What::EndIf(_) => Ok(()),
        }
    }

    fn add_asked(&mut self, place: Place, condition: &'a Option<Expr>) -> Result<(), Memory>
        ensures { OnOk result (self.new ≡ self.old ++ at_place place (uses_of_asked condition.now)) }
    {
        match condition {
            None => Ok(()),
            Some(expr) => self.add_expr(place, expr),
        }
    }

    fn add_simple(&mut self, place: Place, simple: &'a Simple) -> Result<(), Memory>
        ensures { OnOk result (self.new ≡ self.old ++ at_place place (uses_of_simple simple.now)) }
    {
        match simple {
            Simple::Line(text) => self.add_exprs(place, text.holes.as_slice()),
            Simple::Command(text) => self.add_exprs(place, text.holes.as_slice()),
            Simple::Set(_, name, _, expr) => {
                self.add(place, Used::Variable(name))?;
                self.add_expr(place, expr)
            }
            Simple::Declare(_, name, _, _) => self.add(place, Used::Declaration(name)),
            Simple::Jump(_, title) => self.add(place, Used::Title(title)),
            Simple::JumpTo(_, expr) => self.add_expr(place, expr),
            Simple::Call(_, expr) => self.add_expr(place, expr),
            Simple::Stop(_) => Ok(()),
        }
    }

    // An expression is at most 64 deep where it was read, and so is this recursion.
    #[cycle(walk)]
    fn add_expr(&mut self, place: Place, expr: &'a Expr) -> Result<(), Memory>
        ensures { OnOk result (self.new ≡ self.old ++ at_place place (uses_of expr.now)) }
    {
        match expr {
            Expr::Number(_) | Expr::Str(_) | Expr::Truth(_) => Ok(()),
            Expr::Variable(name) => self.add(place, Used::Variable(name)),
            Expr::Group(inner) => self.add_expr(place, inner.get()),
            Expr::Unary(_, inner) => self.add_expr(place, inner.get()),
            Expr::Binary(_, left, right) => {
                self.add_expr(place, left.get())?;
                self.add_expr(place, right.get())
            }
            Expr::Call(name, arguments) => {
                self.add(place, Used::Function(name, arguments.len()))?;
                self.add_exprs(place, arguments.as_slice())
            }
        }
    }

    #[cycle(walk)]
    fn add_exprs(&mut self, place: Place, exprs: &'a [Expr]) -> Result<(), Memory>
        ensures { OnOk result (self.new ≡ self.old ++ at_place place (uses_of_all exprs.now)) }
    {
        for expr in exprs {
            self.add_expr(place, expr)?;
        }
        Ok(())
    }
}

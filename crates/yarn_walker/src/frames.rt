//! The statements that are still to be done.
ghost use Rattle.std.specs.Prelude.{◌≡◌, [], IfSome, None, OnOk};
ghost use Rattle.yarn_blocks.specs.declared.entry.Simple.TheVariants as simple;
ghost use Rattle.yarn_blocks.specs.Tree.{Nil, Cons, Leaf, stmts_then};
ghost use Rattle.yarn_walker.specs.Frames.{rest_of};
ghost use Rattle.yarn_blocks.specs.View.{stmt_of, stmts_of};

use std::alloc::Global;
use yarn_base::Memory;
use yarn_tree::{LineText, Stmt};

/// The statements that are still to be done, those of the innermost body first. Contracts see them as one list
/// (`rest_of`).
#[derive(Drop)]
pub struct Frames<'p> {
    // what is left of the innermost body
    body: &'p [Stmt],
    // what is left of the bodies around it, the outermost first
    outer: Vec<&'p [Stmt]>,
}

impl<'p> Frames<'p> {
    /// The statements of a body.
    pub(crate) fn new(alloc: Global, body: &'p [Stmt]) -> Frames<'p>
        ensures { rest_of result ≡ stmts_of body.now }
    {
        Frames {
            body,
            outer: Vec::new(alloc),
        }
    }

    /// Puts the statements of a body in front.
    pub(crate) fn push(&mut self, body: &'p [Stmt]) -> Result<(), Memory>
        ensures { OnOk result (rest_of self.new ≡ stmts_then (stmts_of body.now) (rest_of self.old)) }
    {
        self.outer.push(self.body)?;
        self.body = body;
        Ok(())
    }

    /// Takes the first statement.
    pub(crate) fn take_first(&mut self) -> Option<&'p Stmt>
        ensures some { IfSome result (λ s. rest_of self.old ≡ Cons (stmt_of s.now) (rest_of self.new)) }
        ensures none { result ≡ None → (rest_of self.old ≡ Nil) × (rest_of self.new ≡ Nil) }
    {
        loop {
            if let Some((first, rest)) = self.body.split_first() {
                self.body = rest;
                return Some(first);
            }
            self.body = self.outer.pop()?;
        }
    }

    /// Takes the first statement of the innermost body where it is a line without substitutions.
    pub(crate) fn take_plain(&mut self) -> Option<&'p LineText>
        ensures some { IfSome result (λ text. rest_of self.old ≡ Cons (Leaf (simple.Line text.now)) (rest_of self.new)) }
        ensures plain { IfSome result (λ text. text.now.holes ≡ []) }
        ensures none { result ≡ None → self.new ≡ self.old }
    {
        match self.body.split_first() {
            Some((Stmt::Line(text), rest)) if text.holes.is_empty() => {
                self.body = rest;
                Some(text)
            }
            _ => None,
        }
    }
}

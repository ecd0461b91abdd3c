//! What statements do.
ghost use Rattle.std.specs.Prelude.{◌≡◌, ◌<◌, [], Ok, None, IfOk, IfSome};
ghost use Rattle.yarn_blocks.specs.Tree.{Cons};
ghost use Rattle.yarn_blocks.specs.View.{stmt_of};
ghost use Rattle.yarn_meaning.specs.Does.{set_value as set_value_of};
ghost use Rattle.yarn_walker.specs.Deeds.{Does, DoesFirst, KeepsTexts, KeepsTextsFirst, ShowsItsOptions, ValuesIn, title_given};
ghost use Rattle.yarn_walker.specs.Frames.{rest_of};
ghost use Rattle.yarn_walker.specs.Means.{Means};
ghost use Rattle.yarn_walker.specs.Weight.{weight};
ghost use Rattle.yarn_walker.specs.States.{no_hosts};

use crate::clause::chosen_body;
use crate::evaluate::{combined, evaluate, evaluate_all};
use crate::frames::Frames;
use crate::halt::{Halt, at_line};
use crate::offer::{Offer, offers_of};
use crate::stored::store_value;
use std::alloc::Global;
use yarn_base::{List, Memory, Text};
use yarn_expr::{BinaryOp, Expr};
use yarn_store::Store;
use yarn_tree::{LineText, OptionItem, Stmt};
use yarn_value::{OpFault, Value};

/// What statements do that isn't done quietly.
#[derive(Debug, Drop)]
pub(crate) enum Deed<'p> {
    /// A line is said, with the values of its substitutions.
    Line(&'p LineText, List<Value>),
    /// A command is given out.
    Command(&'p LineText, List<Value>),
    /// A group is shown.
    Options(&'p [OptionItem], Vec<Offer<'p>>),
    /// Their end is reached.
    Through,
    /// A jump on that line to that title.
    Jump(u32, &'p Text),
    /// A jump on that line to a title that was evaluated.
    JumpTo(u32, Text),
    /// A stop on that line.
    Stop(u32),
}

/// Does the statements up to the first that isn't quiet, and leaves those behind it.
pub(crate) fn next_deed<'p>(
    alloc: Global,
    rest: &mut Frames<'p>,
    store: &mut Store,
) -> Result<Deed<'p>, Halt>
    ensures meaning { Does (rest_of rest.old) store.old result (rest_of rest.new) store.new }
    ensures texts { KeepsTexts (rest_of rest.old) result (rest_of rest.new) }
    ensures group { IfOk result ShowsItsOptions }
{
    while let Some(statement) = rest.take_first() {
        if let Some(deed) = deed_of(alloc, statement, rest, store)? {
            return Ok(deed);
        }
    }
    Ok(Deed::Through)
}

// Does a statement that stands before the rest; none where it is quiet.
fn deed_of<'p>(
    alloc: Global,
    statement: &'p Stmt,
    rest: &mut Frames<'p>,
    store: &mut Store,
) -> Result<Option<Deed<'p>>, Halt>
    ensures meaning { DoesFirst (Cons (stmt_of statement.now) (rest_of rest.old)) store.old result (rest_of rest.new) store.new }
    ensures texts { KeepsTextsFirst (Cons (stmt_of statement.now) (rest_of rest.old)) result (rest_of rest.new) }
    ensures group { IfOk result (λ deed. IfSome deed ShowsItsOptions) }
    ensures less { result ≡ Ok None → weight (rest_of rest.new) < weight (Cons (stmt_of statement.now) (rest_of rest.old)) }
{
    match statement {
        Stmt::Line(text) => Ok(Some(Deed::Line(text, values_in(alloc, text, store)?))),
        Stmt::Command(text) => Ok(Some(Deed::Command(text, values_in(alloc, text, store)?))),
        Stmt::Options(options) => {
            let options = options.as_slice();
            Ok(Some(Deed::Options(options, offers_of(alloc, options, store)?)))
        }
        Stmt::If(clauses, last, _) => {
            rest.push(chosen_body(alloc, clauses.as_slice(), last, store)?)?;
            Ok(None)
        }
        Stmt::Set(head, name, op, expr) => {
            let value = at_line(head.line, set_value(alloc, name, *op, expr, store))?;
            store_value(store, name, value)?;
            Ok(None)
        }
        Stmt::Declare(..) => Ok(None),
        Stmt::Jump(head, title) => Ok(Some(Deed::Jump(head.line, title))),
        Stmt::JumpTo(head, expr) => {
            let title = at_line(head.line, title_value(alloc, expr, store))?;
            Ok(Some(Deed::JumpTo(head.line, title)))
        }
        Stmt::Stop(head) => Ok(Some(Deed::Stop(head.line))),
        Stmt::Call(head, expr) => {
            let _value = at_line(head.line, evaluate(alloc, expr, store))?;
            Ok(None)
        }
    }
}

// The values of a line's substitutions.
fn values_in(alloc: Global, text: &LineText, store: &Store) -> Result<List<Value>, Halt>
    ensures { ValuesIn text.now store.now result }
{
    at_line(text.line, evaluate_all(alloc, text.holes.as_slice(), store))
}

// What a variable is set to.
fn set_value(
    alloc: Global,
    name: &Text,
    op: Option<BinaryOp>,
    expr: &Expr,
    store: &Store,
) -> Result<Value, OpFault>
    ensures { Means (set_value_of no_hosts name.now op expr.now store.now []) result }
{
    let value = evaluate(alloc, expr, store)?;
    match op {
        Some(op) => combined(alloc, op, name, value, store),
        None => Ok(value),
    }
}

// The title to which a jump is evaluated.
fn title_value(alloc: Global, expr: &Expr, store: &Store) -> Result<Text, OpFault>
    ensures { Means (title_given expr.now store.now) result }
{
    match evaluate(alloc, expr, store)? {
        Value::Str(title) => Ok(title),
        Value::Number(_) | Value::Truth(_) => Ok(Text::from_str(alloc, "")?),
    }
}

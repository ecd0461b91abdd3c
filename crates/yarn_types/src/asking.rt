//! What the lines of a project ask, kept one after another.
ghost use Rattle.std.specs.Prelude.{◌≡◌, ◌≤◌, ◌<◌, ◌+◌, ◌*◌, ◌&&◌, IfOk, IfErr, OnOk, OnErr, Some, is_some, map, sum};
ghost use Rattle.std.specs.List.{list_all};
ghost use Rattle.yarn_expr.specs.declared.tree.BinaryOp.TheVariants as op_is;
ghost use Rattle.yarn_types.specs.KindSets.{only};
ghost use Rattle.yarn_types.specs.Founds.{kind_under, variable_under, set_under, asked_under, units_under};
ghost use Rattle.yarn_types.specs.Classes.{Stands, Narrows, Refuses, Finds, FindsNone};
ghost use Rattle.yarn_types.specs.Fits.{joined, is_in, node_count};
ghost use Rattle.yarn_types.specs.Units.{unit_of, asked_of, agrees, asked_size, units_size};
ghost use Rattle.yarn_types.specs.Stops.{has_kinds, StopsAt};

use crate::class::Classes;
use crate::expression::{Scope, find, find_in, find_variable, join_operands};
use crate::finding::{Found, Misfit};
use crate::{Asks, KindSet, TypeUnit};
use std::sync::ledger::Ledger;
use yarn_base::{Place, Steps, Text};
use yarn_expr::{BinaryOp, Expr};
use yarn_value::Kind;

/// Keeps the lists that fit the lines. An `Err` is the place of the first line with which no list fits.
pub(crate) fn keep_units<L: Ledger>(
    units: &[TypeUnit<'_>],
    scope: &Scope<'_, '_>,
    classes: &mut Classes,
    steps: &mut Steps<L>,
) -> Result<(), Place>
    requires { Stands classes.old }
    ensures ok { OnOk result (Narrows classes.old classes.new (units_under scope.now (map unit_of units.now))) }
    ensures err { IfErr result (λ place. StopsAt classes.old scope.now (map unit_of units.now) place) }
    ensures steps { steps.new ≤ steps.old + 16 * units_size (map unit_of units.now) }
{
    for unit in units {
        match keep_asked(&unit.asks, scope, classes, steps) {
            Ok(()) => {}
            Err(Misfit) => return Err(unit.place),
        }
    }
    Ok(())
}

/// Keeps the lists that fit what a line asks.
fn keep_asked<L: Ledger>(
    asks: &Asks<'_>,
    scope: &Scope<'_, '_>,
    classes: &mut Classes,
    steps: &mut Steps<L>,
) -> Result<(), Misfit>
    requires { Stands classes.old }
    ensures ok { OnOk result (Narrows classes.old classes.new (asked_under scope.now (asked_of asks.now))) }
    ensures err { OnErr result (Refuses classes.old (asked_under scope.now (asked_of asks.now))) }
    ensures steps { steps.new ≤ steps.old + 2 * asked_size (asked_of asks.now) }
{
    match asks {
        Asks::Values(exprs) => keep_values(exprs.as_slice(), scope, classes, steps),
        Asks::ValuesIf(exprs, condition) => {
            keep_values(exprs.as_slice(), scope, classes, steps)?;
            find_in(condition, KindSet::only(Kind::Truth), scope, classes, steps)
        }
        Asks::Value(expr) => keep_value(expr, scope, classes, steps),
        Asks::Condition(expr) => {
            find_in(expr, KindSet::only(Kind::Truth), scope, classes, steps)
        }
        Asks::Title(expr) => find_in(expr, KindSet::only(Kind::Str), scope, classes, steps),
        Asks::Set(name, op, expr) => keep_set(name, *op, expr, scope, classes, steps),
        Asks::Declare(name, kind, word) => keep_declared(name, *kind, *word, scope, classes),
    }
}

/// Keeps the lists under which each expression has a kind.
fn keep_values<L: Ledger>(
    exprs: &[Expr],
    scope: &Scope<'_, '_>,
    classes: &mut Classes,
    steps: &mut Steps<L>,
) -> Result<(), Misfit>
    requires { Stands classes.old }
    ensures ok { OnOk result (Narrows classes.old classes.new (has_kinds scope.now exprs.now)) }
    ensures err { OnErr result (Refuses classes.old (has_kinds scope.now exprs.now)) }
    ensures steps { steps.new ≤ steps.old + sum (map node_count exprs.now) }
{
    for expr in exprs {
        keep_value(expr, scope, classes, steps)?;
    }
    Ok(())
}

/// Keeps the lists under which the expression has a kind.
fn keep_value<L: Ledger>(
    expr: &Expr,
    scope: &Scope<'_, '_>,
    classes: &mut Classes,
    steps: &mut Steps<L>,
) -> Result<(), Misfit>
    requires { Stands classes.old }
    ensures ok { OnOk result (Narrows classes.old classes.new (λ typing. is_some (kind_under scope.now expr.now typing))) }
    ensures err { OnErr result (Refuses classes.old (λ typing. is_some (kind_under scope.now expr.now typing))) }
    ensures steps { steps.new ≤ steps.old + node_count expr.now }
{
    match find(expr, scope, classes, steps) {
        Ok(_) => Ok(()),
        Err(misfit) => Err(misfit),
    }
}

/// Keeps the lists that give the variable the kind of what is set.
fn keep_set<L: Ledger>(
    name: &Text,
    op: Option<BinaryOp>,
    expr: &Expr,
    scope: &Scope<'_, '_>,
    classes: &mut Classes,
    steps: &mut Steps<L>,
) -> Result<(), Misfit>
    requires { Stands classes.old }
    ensures ok { OnOk result (Narrows classes.old classes.new (λ typing. is_some (joined op_is.Eq (variable_under scope.now name.now typing) (set_under scope.now name.now op expr.now typing)))) }
    ensures err { OnErr result (Refuses classes.old (λ typing. is_some (joined op_is.Eq (variable_under scope.now name.now typing) (set_under scope.now name.now op expr.now typing)))) }
    ensures steps { steps.new ≤ steps.old + 2 + node_count expr.now }
{
    let one = find_variable(name, scope, classes)?;
    let other = find_set(name, op, expr, scope, classes, steps)?;
    match join_operands(BinaryOp::Eq, one, other, classes, steps) {
        Ok(_) => Ok(()),
        Err(misfit) => Err(misfit),
    }
}

/// The kind of what is set: that of the expression, or of an operator on the variable and the expression.
fn find_set<L: Ledger>(
    name: &Text,
    op: Option<BinaryOp>,
    expr: &Expr,
    scope: &Scope<'_, '_>,
    classes: &mut Classes,
    steps: &mut Steps<L>,
) -> Result<Found, Misfit>
    requires { Stands classes.old }
    ensures ok { IfOk result (λ found. Finds classes.old classes.new (set_under scope.now name.now op expr.now) found) }
    ensures err { OnErr result (FindsNone classes.old (set_under scope.now name.now op expr.now)) }
    ensures steps { steps.new ≤ steps.old + 1 + node_count expr.now }
{
    match op {
        Some(op) => find_with(name, op, expr, scope, classes, steps),
        None => find(expr, scope, classes, steps),
    }
}

/// The kind of an operator's value on a variable and an expression.
fn find_with<L: Ledger>(
    name: &Text,
    op: BinaryOp,
    expr: &Expr,
    scope: &Scope<'_, '_>,
    classes: &mut Classes,
    steps: &mut Steps<L>,
) -> Result<Found, Misfit>
    requires { Stands classes.old }
    ensures ok { IfOk result (λ found. Finds classes.old classes.new (λ typing. joined op (variable_under scope.now name.now typing) (kind_under scope.now expr.now typing)) found) }
    ensures err { OnErr result (FindsNone classes.old (λ typing. joined op (variable_under scope.now name.now typing) (kind_under scope.now expr.now typing))) }
    ensures steps { steps.new ≤ steps.old + 1 + node_count expr.now }
{
    let one = find_variable(name, scope, classes)?;
    let other = find(expr, scope, classes, steps)?;
    join_operands(op, one, other, classes, steps)
}

/// Keeps the lists that give the variable the literal's kind, where the `as` word agrees.
fn keep_declared(
    name: &Text,
    kind: Kind,
    word: Option<Kind>,
    scope: &Scope<'_, '_>,
    classes: &mut Classes,
) -> Result<(), Misfit>
    requires { Stands classes.old }
    ensures ok { OnOk result (Narrows classes.old classes.new (λ typing. agrees kind word && is_in (only kind) (variable_under scope.now name.now typing))) }
    ensures err { OnErr result (Refuses classes.old (λ typing. agrees kind word && is_in (only kind) (variable_under scope.now name.now typing))) }
{
    if !agrees(kind, word) {
        return Err(Misfit);
    }
    let found = find_variable(name, scope, classes)?;
    classes.keep(found, KindSet::only(kind))
}

fn agrees(kind: Kind, word: Option<Kind>) -> bool
    ensures { result ≡ agrees kind word }
{
    match word {
        Some(word) => kind == word,
        None => true,
    }
}

//! The kind of an expression, as far as the variables' kinds are known.
ghost use Rattle.std.specs.Prelude.{◌≡◌, ◌≤◌, ◌<◌, ◌+◌, IfOk, OnOk, OnErr, Some, map, sum, length};
ghost use Rattle.yarn_types.specs.KindSets.{only};
ghost use Rattle.yarn_types.specs.Founds.{kind_in, given_in, kind_under, variable_under, call_under, args_under, kind_of_param};
ghost use Rattle.yarn_types.specs.Classes.{Stands, IsPlaced, Narrows, Refuses, Finds, FindsNone};
ghost use Rattle.yarn_types.specs.Fits.{taken_by, joined, unary_kind, is_in, node_count};

use crate::KindSet;
use crate::argument::{builtin, find_row_args};
use crate::class::Classes;
use crate::finding::{Found, Misfit};
use crate::function::Functions;
use crate::name::Names;
use std::sync::ledger::Ledger;
use yarn_base::{List, Steps, Text};
use yarn_expr::{BinaryOp, Expr, UnaryOp};
use yarn_value::Kind;

/// What expressions speak of: the variables of the project, and the host functions.
#[derive(Drop)]
pub(crate) struct Scope<'p, 's> {
    pub(crate) names: Names<'p>,
    pub(crate) functions: Functions<'s>,
}

/// Keeps the lists under which the expression has a kind, and finds that kind.
#[cycle(find)]
pub(crate) fn find<L: Ledger>(
    expr: &Expr,
    scope: &Scope<'_, '_>,
    classes: &mut Classes,
    steps: &mut Steps<L>,
) -> Result<Found, Misfit>
    requires { Stands classes.old }
    ensures ok { IfOk result (λ found. Finds classes.old classes.new (kind_under scope.now expr.now) found) }
    ensures err { OnErr result (FindsNone classes.old (kind_under scope.now expr.now)) }
    ensures steps { steps.new ≤ steps.old + node_count expr.now }
{
    match expr {
        Expr::Number(_) => Ok(Found::Known(Kind::Number)),
        Expr::Str(_) => Ok(Found::Known(Kind::Str)),
        Expr::Truth(_) => Ok(Found::Known(Kind::Truth)),
        Expr::Variable(name) => find_variable(name, scope, classes),
        Expr::Group(inner) => find(inner.get(), scope, classes, steps),
        Expr::Unary(op, inner) => {
            let kind = unary_kind(*op);
            find_in(inner.get(), KindSet::only(kind), scope, classes, steps)?;
            Ok(Found::Known(kind))
        }
        Expr::Binary(op, left, right) => {
            let one = find(left.get(), scope, classes, steps)?;
            let other = find(right.get(), scope, classes, steps)?;
            join_operands(*op, one, other, classes, steps)
        }
        Expr::Call(name, args) => find_call(name, args.as_slice(), scope, classes, steps),
    }
}

/// Keeps the lists under which the expression has one of these kinds.
#[cycle(find)]
pub(crate) fn find_in<L: Ledger>(
    expr: &Expr,
    kinds: KindSet,
    scope: &Scope<'_, '_>,
    classes: &mut Classes,
    steps: &mut Steps<L>,
) -> Result<(), Misfit>
    requires { Stands classes.old }
    ensures ok { OnOk result (Narrows classes.old classes.new (λ typing. is_in kinds (kind_under scope.now expr.now typing))) }
    ensures err { OnErr result (Refuses classes.old (λ typing. is_in kinds (kind_under scope.now expr.now typing))) }
    ensures steps { steps.new ≤ steps.old + node_count expr.now }
{
    let found = find(expr, scope, classes, steps)?;
    classes.keep(found, kinds)
}

/// The same of a call.
#[cycle(find)]
fn find_call<L: Ledger>(
    name: &Text,
    args: &[Expr],
    scope: &Scope<'_, '_>,
    classes: &mut Classes,
    steps: &mut Steps<L>,
) -> Result<Found, Misfit>
    requires { Stands classes.old }
    ensures ok { IfOk result (λ found. Finds classes.old classes.new (call_under scope.now name.now args.now) found) }
    ensures err { OnErr result (FindsNone classes.old (call_under scope.now name.now args.now)) }
    ensures steps { steps.new ≤ steps.old + 1 + sum (map node_count args.now) }
{
    match builtin(name) {
        Some(row) => {
            find_row_args(row.first, row.second, args, scope, classes, steps)?;
            Ok(Found::Known(row.result))
        }
        None => match scope.functions.find(name) {
            Some(signature) => {
                find_args(args, &signature.params, scope, classes, steps)?;
                Ok(Found::Known(signature.result))
            }
            None => Err(Misfit),
        },
    }
}

/// Keeps the lists under which the arguments have the kinds of a signature.
#[cycle(find)]
fn find_args<L: Ledger>(
    args: &[Expr],
    params: &List<Kind>,
    scope: &Scope<'_, '_>,
    classes: &mut Classes,
    steps: &mut Steps<L>,
) -> Result<(), Misfit>
    requires { Stands classes.old }
    ensures ok { OnOk result (Narrows classes.old classes.new (args_under scope.now params.now args.now)) }
    ensures err { OnErr result (Refuses classes.old (args_under scope.now params.now args.now)) }
    ensures steps { steps.new ≤ steps.old + sum (map node_count args.now) }
{
    if args.len() != params.len() {
        return Err(Misfit);
    }
    for (at, arg) in args.iter().enumerate() {
        find_in(
            arg,
            KindSet::only(kind_at(params, at)),
            scope,
            classes,
            steps,
        )?;
    }
    Ok(())
}

fn kind_at(params: &List<Kind>, at: usize) -> Kind
    requires { at < length params.now }
    ensures { result ≡ kind_of_param params.now at }
{
    params.as_slice()[at]
}

fn unary_kind(op: UnaryOp) -> Kind
    ensures { result ≡ unary_kind op }
{
    match op {
        UnaryOp::Neg => Kind::Number,
        UnaryOp::Not => Kind::Truth,
    }
}

/// A variable that the lists give a kind.
pub(crate) fn find_variable(
    name: &Text,
    scope: &Scope<'_, '_>,
    classes: &mut Classes,
) -> Result<Found, Misfit>
    requires { Stands classes.old }
    ensures ok { IfOk result (λ found. Finds classes.old classes.new (variable_under scope.now name.now) found) }
    ensures err { OnErr result (FindsNone classes.old (variable_under scope.now name.now)) }
{
    match scope.names.find(name) {
        Some(variable) => {
            if variable < classes.len() {
                Ok(Found::OfVariable(variable))
            } else {
                Err(Misfit)
            }
        }
        None => Err(Misfit),
    }
}

/// The kind of an operator's value, where its operands' kinds are found.
pub(crate) fn join_operands<L: Ledger>(
    op: BinaryOp,
    one: Found,
    other: Found,
    classes: &mut Classes,
    steps: &mut Steps<L>,
) -> Result<Found, Misfit>
    requires stands { Stands classes.old }
    requires one { IsPlaced classes.old one }
    requires other { IsPlaced classes.old other }
    ensures ok { IfOk result (λ found. Finds classes.old classes.new (λ typing. joined op (Some (kind_in one typing)) (Some (kind_in other typing))) found) }
    ensures err { OnErr result (FindsNone classes.old (λ typing. joined op (Some (kind_in one typing)) (Some (kind_in other typing)))) }
    ensures steps { steps.new ≤ steps.old + 1 }
{
    classes.alike(one, other, steps)?;
    classes.keep(one, taken_by(op))?;
    Ok(given_by(op, one))
}

fn taken_by(op: BinaryOp) -> KindSet
    ensures { result ≡ taken_by op }
{
    match op {
        BinaryOp::Mul | BinaryOp::Div | BinaryOp::Rem | BinaryOp::Sub => {
            KindSet::only(Kind::Number)
        }
        BinaryOp::Lte | BinaryOp::Gte | BinaryOp::Lt | BinaryOp::Gt => {
            KindSet::only(Kind::Number)
        }
        BinaryOp::Add => KindSet {
            number: true,
            string: true,
            truth: false,
        },
        BinaryOp::Eq | BinaryOp::Neq => KindSet::ALL,
        BinaryOp::And | BinaryOp::Or | BinaryOp::Xor => KindSet::only(Kind::Truth),
    }
}

fn given_by(op: BinaryOp, one: Found) -> Found
    ensures { result ≡ given_in op one }
{
    match op {
        BinaryOp::Add => one,
        BinaryOp::Mul | BinaryOp::Div | BinaryOp::Rem | BinaryOp::Sub => {
            Found::Known(Kind::Number)
        }
        BinaryOp::Lte | BinaryOp::Gte | BinaryOp::Lt | BinaryOp::Gt => { Found::Known(Kind::Truth) }
        BinaryOp::Eq | BinaryOp::Neq => Found::Known(Kind::Truth),
        BinaryOp::And | BinaryOp::Or | BinaryOp::Xor => Found::Known(Kind::Truth),
    }
}

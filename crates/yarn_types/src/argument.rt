//! The arguments of builtins.
ghost use Rattle.std.specs.Prelude.{◌≡◌, ◌≤◌, ◌+◌, OnOk, OnErr, Some, None, map, sum};
ghost use Rattle.std.specs.Option.{option_map};
ghost use Rattle.yarn_value.specs.Builtins.{row_of, builtin_named};
ghost use Rattle.yarn_value.specs.Rows.{accepts};
ghost use Rattle.yarn_types.specs.Founds.{kind_in, row_under, both_accept};
ghost use Rattle.yarn_types.specs.Classes.{Stands, IsPlaced, Narrows, Refuses};
ghost use Rattle.yarn_types.specs.Fits.{node_count};

use crate::KindSet;
use crate::class::Classes;
use crate::expression::{Scope, find};
use crate::finding::{Found, Misfit};
use std::sync::ledger::Ledger;
use yarn_base::{Steps, Text};
use yarn_expr::Expr;
use yarn_value::{Builtin, Param, find_builtin};

/// The builtin of that name.
#[tactic(auto, unfolding(yarn_value::specs::Builtins::builtin_named))]
pub(crate) fn builtin(name: &Text) -> Option<Builtin>
    ensures { option_map row_of result ≡ builtin_named name.now }
{
    find_builtin(name.as_str())
}

/// Keeps the lists under which the arguments are those of a builtin's row.
#[cycle(find)]
pub(crate) fn find_row_args<L: Ledger>(
    first: Option<Param>,
    second: Option<Param>,
    args: &[Expr],
    scope: &Scope<'_, '_>,
    classes: &mut Classes,
    steps: &mut Steps<L>,
) -> Result<(), Misfit>
    requires { Stands classes.old }
    ensures ok { OnOk result (Narrows classes.old classes.new (row_under scope.now first second args.now)) }
    ensures err { OnErr result (Refuses classes.old (row_under scope.now first second args.now)) }
    ensures steps { steps.new ≤ steps.old + 1 + sum (map node_count args.now) }
{
    match (first, second) {
        (None, None) => { if args.is_empty() { Ok(()) } else { Err(Misfit) } }
        (Some(param), None) => find_one_arg(param, args, scope, classes, steps),
        (Some(param), Some(next)) => find_two_args(param, next, args, scope, classes, steps),
        (None, Some(_)) => Err(Misfit),
    }
}

/// The same where one argument is taken.
#[cycle(find)]
fn find_one_arg<L: Ledger>(
    param: Param,
    args: &[Expr],
    scope: &Scope<'_, '_>,
    classes: &mut Classes,
    steps: &mut Steps<L>,
) -> Result<(), Misfit>
    requires { Stands classes.old }
    ensures ok { OnOk result (Narrows classes.old classes.new (row_under scope.now (Some param) None args.now)) }
    ensures err { OnErr result (Refuses classes.old (row_under scope.now (Some param) None args.now)) }
    ensures steps { steps.new ≤ steps.old + 1 + sum (map node_count args.now) }
{
    match args {
        [arg] => {
            let found = find(arg, scope, classes, steps)?;
            accept_first(param, found, classes)
        }
        _ => Err(Misfit),
    }
}

/// The same where two arguments are taken.
#[cycle(find)]
fn find_two_args<L: Ledger>(
    param: Param,
    next: Param,
    args: &[Expr],
    scope: &Scope<'_, '_>,
    classes: &mut Classes,
    steps: &mut Steps<L>,
) -> Result<(), Misfit>
    requires { Stands classes.old }
    ensures ok { OnOk result (Narrows classes.old classes.new (row_under scope.now (Some param) (Some next) args.now)) }
    ensures err { OnErr result (Refuses classes.old (row_under scope.now (Some param) (Some next) args.now)) }
    ensures steps { steps.new ≤ steps.old + 1 + sum (map node_count args.now) }
{
    match args {
        [arg, other] => {
            let one = find(arg, scope, classes, steps)?;
            let found = find(other, scope, classes, steps)?;
            accept_both(param, next, one, found, classes, steps)
        }
        _ => Err(Misfit),
    }
}

/// Keeps the lists in which two parameters take what was found.
fn accept_both<L: Ledger>(
    param: Param,
    next: Param,
    one: Found,
    other: Found,
    classes: &mut Classes,
    steps: &mut Steps<L>,
) -> Result<(), Misfit>
    requires stands { Stands classes.old }
    requires one { IsPlaced classes.old one }
    requires other { IsPlaced classes.old other }
    ensures ok { OnOk result (Narrows classes.old classes.new (λ typing. both_accept param next (kind_in one typing) (kind_in other typing))) }
    ensures err { OnErr result (Refuses classes.old (λ typing. both_accept param next (kind_in one typing) (kind_in other typing))) }
    ensures steps { steps.new ≤ steps.old + 1 }
{
    accept_first(param, one, classes)?;
    accept(next, one, other, classes, steps)
}

/// Keeps the lists in which a first parameter takes what was found.
fn accept_first(param: Param, one: Found, classes: &mut Classes) -> Result<(), Misfit>
    requires stands { Stands classes.old }
    requires one { IsPlaced classes.old one }
    ensures ok { OnOk result (Narrows classes.old classes.new (λ typing. accepts param (kind_in one typing) (kind_in one typing))) }
    ensures err { OnErr result (Refuses classes.old (λ typing. accepts param (kind_in one typing) (kind_in one typing))) }
{
    match param {
        Param::One(kind) => classes.keep(one, KindSet::only(kind)),
        Param::Any | Param::Same => Ok(()),
    }
}

/// Keeps the lists in which a parameter takes what was found, behind a first argument.
fn accept<L: Ledger>(
    param: Param,
    first: Found,
    this: Found,
    classes: &mut Classes,
    steps: &mut Steps<L>,
) -> Result<(), Misfit>
    requires stands { Stands classes.old }
    requires first { IsPlaced classes.old first }
    requires this { IsPlaced classes.old this }
    ensures ok { OnOk result (Narrows classes.old classes.new (λ typing. accepts param (kind_in first typing) (kind_in this typing))) }
    ensures err { OnErr result (Refuses classes.old (λ typing. accepts param (kind_in first typing) (kind_in this typing))) }
    ensures steps { steps.new ≤ steps.old + 1 }
{
    match param {
        Param::One(kind) => classes.keep(this, KindSet::only(kind)),
        Param::Any => Ok(()),
        Param::Same => classes.alike(first, this, steps),
    }
}

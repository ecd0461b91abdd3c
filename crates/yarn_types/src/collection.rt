//! The variables of expressions and lines, collected in order of the text.
ghost use Rattle.std.specs.Prelude.{◌≡◌, IfOk, map};
ghost use Rattle.yarn_types.specs.Fits.{names_in};
ghost use Rattle.yarn_types.specs.Names.{with_all};
ghost use Rattle.yarn_types.specs.Units.{unit_of, asked_of, names_in_all, names_asked, at_place, variables_of};

use crate::name::Names;
use crate::{Asks, TypeUnit};
use std::alloc::Global;
use yarn_base::{Memory, Place};
use yarn_expr::Expr;

/// The variables of the lines, by first appearance.
pub(crate) fn variables<'p>(alloc: Global, units: &[TypeUnit<'p>]) -> Result<Names<'p>, Memory>
    ensures { IfOk result (λ names. names ≡ variables_of (map unit_of units.now)) }
{
    let mut names = Names::new(alloc);
    for unit in units {
        names = with_asked(names, unit.place, unit.asks)?;
    }
    Ok(names)
}

/// Adds the variables of a line.
fn with_asked<'p>(names: Names<'p>, place: Place, asks: Asks<'p>) -> Result<Names<'p>, Memory>
    ensures { IfOk result (λ all. all ≡ with_all names.entry (at_place place (names_asked (asked_of asks.entry)))) }
{
    match asks {
        Asks::Values(exprs) => with_exprs(names, place, exprs.as_slice()),
        Asks::ValuesIf(exprs, condition) => {
            let names = with_exprs(names, place, exprs.as_slice())?;
            with_expr(names, place, condition)
        }
        Asks::Value(expr) | Asks::Condition(expr) | Asks::Title(expr) => {
            with_expr(names, place, expr)
        }
        Asks::Set(name, _, expr) => with_expr(names.with(name, place)?, place, expr),
        Asks::Declare(name, _, _) => names.with(name, place),
    }
}

/// Adds the variables of an expression.
#[cycle(collect)]
fn with_expr<'p>(names: Names<'p>, place: Place, expr: &'p Expr) -> Result<Names<'p>, Memory>
    ensures { IfOk result (λ all. all ≡ with_all names.entry (at_place place (names_in expr.now))) }
{
    match expr {
        Expr::Number(_) | Expr::Str(_) | Expr::Truth(_) => Ok(names),
        Expr::Variable(name) => names.with(name, place),
        Expr::Group(inner) => with_expr(names, place, inner.get()),
        Expr::Unary(_, inner) => with_expr(names, place, inner.get()),
        Expr::Binary(_, left, right) => {
            let names = with_expr(names, place, left.get())?;
            with_expr(names, place, right.get())
        }
        Expr::Call(_, args) => with_exprs(names, place, args.as_slice()),
    }
}

#[cycle(collect)]
fn with_exprs<'p>(names: Names<'p>, place: Place, exprs: &'p [Expr]) -> Result<Names<'p>, Memory>
    ensures { IfOk result (λ all. all ≡ with_all names.entry (at_place place (names_in_all exprs.now))) }
{
    let mut names = names;
    for expr in exprs {
        names = with_expr(names, place, expr)?;
    }
    Ok(names)
}

//! Each public call once with ample memory.
ghost use Rattle.std.specs.Prelude.{◌≡◌, ◌<◌};

use crate::{Asks, KindSet, Kinds, Meet, TypeFault, TypeUnit, Typing, infer_units};
use std::alloc::Global;
use std::marker::Brand;
use std::sync::ledger::{Blank, Ledger};
use std::test::Fail;
use yarn_base::{List, Memory, Place, Steps, Text};
use yarn_expr::Expr;
use yarn_value::{Kind, Signatures};

// What is answered of the lines, and of the kind of one variable.
#[derive(Clone, Copy, Debug, PartialEq, Eq)]
enum Answer {
    Has(Option<Kind>),
    NoTyping(Place),
    ManyTypings(Place),
    Other,
}

fn counted<L: Ledger>(
    alloc: Global,
    units: &[TypeUnit<'_>],
    signatures: &Signatures,
    blank: Blank,
) -> Result<Typing, TypeFault>
    requires name { blank.name ≡ L.name }
    requires parts { blank.parts ≡ L.parts }
    requires some { 0 < blank.parts }
{
    let mut steps = Steps::<L>::new(blank);
    infer_units(alloc, units, signatures, &mut steps)
}

fn answer_of(alloc: Global, units: &[TypeUnit<'_>], name: &Text) -> Answer {
    let signatures = List::new(alloc);
    match counted::<Brand>(alloc, units, &signatures, Blank::new(1)) {
        Ok(typing) => Answer::Has(typing.kind(name)),
        Err(TypeFault::NoTyping(place)) => Answer::NoTyping(place),
        Err(TypeFault::ManyTypings(variable, place)) => {
            if variable == *name {
                Answer::ManyTypings(place)
            } else {
                Answer::Other
            }
        }
        Err(TypeFault::Memory) => Answer::Other,
    }
}

// What the lines of a small project speak of.
#[derive(Drop)]
struct Parts {
    name: Text,
    other: Text,
    variable: Expr,
    visited: Expr,
}

fn variable(alloc: Global, name: &str) -> Result<Expr, Memory> {
    Ok(Expr::Variable(Text::from_str(alloc, name)?))
}

fn call(alloc: Global, name: &str, arg: &str) -> Result<Expr, Memory> {
    let mut args = List::new(alloc);
    args.push(variable(alloc, arg)?).map_err(|_| Memory)?;
    Ok(Expr::Call(Text::from_str(alloc, name)?, args))
}

fn small_project(alloc: Global) -> Result<Parts, Memory> {
    Ok(Parts {
        name: Text::from_str(alloc, "$a")?,
        other: Text::from_str(alloc, "$b")?,
        variable: variable(alloc, "$b")?,
        visited: call(alloc, "visited", "$a")?,
    })
}

fn place(line: u32) -> Place {
    Place { file: 0, line }
}

fn unit(line: u32, asks: Asks<'_>) -> TypeUnit<'_> {
    let place = place(line);
    TypeUnit { place, asks }
}

// The answer of the first lines of the project.
fn first_lines(alloc: Global, parts: &Parts, count: usize) -> Answer {
    let lines = [
        unit(3, Asks::Set(&parts.name, None, &parts.variable)),
        unit(4, Asks::Condition(&parts.visited)),
        unit(5, Asks::Declare(&parts.other, Kind::Number, None)),
    ];
    match lines.get(..count) {
        Some(first) => answer_of(alloc, first, &parts.name),
        None => Answer::Other,
    }
}

#[test]
fn lines_narrow_the_kinds(rt: HostRuntime) -> Result<(), Fail> {
    let alloc = rt.alloc();
    let parts = small_project(alloc)?;
    let rows = [
        (0, Answer::Has(None)),
        (1, Answer::ManyTypings(place(3))),
        (2, Answer::Has(Some(Kind::Str))),
        (3, Answer::NoTyping(place(5))),
    ];
    for (count, want) in rows {
        assert_eq!(rt; first_lines(alloc, &parts, count), want, "of {count} lines");
    }
    Ok(())
}

#[test]
fn sets_shrink(rt: HostRuntime) -> Result<(), Fail> {
    let mut kinds = Kinds::new(rt.alloc(), 2)?;
    let numbers = KindSet::only(Kind::Number);
    assert_eq!(rt; kinds.keep(1, numbers), Meet::Narrowed);
    assert_eq!(rt; kinds.get(1), numbers);
    Ok(())
}

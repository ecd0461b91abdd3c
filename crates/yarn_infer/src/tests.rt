//! A small project that is made by hand, with ample memory.
ghost use Rattle.std.specs.Prelude.{◌≡◌, ◌<◌};

use crate::{TypeFault, Typing, infer};
use std::alloc::Global;
use std::marker::Brand;
use std::sync::ledger::{Blank, Ledger};
use std::test::Fail;
use yarn_base::{List, Memory, Place, Steps, Text};
use yarn_expr::Expr;
use yarn_tree::{Body, Clause, ElseClause, File, Head, Node, Project, Stmt};
use yarn_value::{Kind, Signatures, Value};

// What is answered of the project, and of the kind of one variable.
#[derive(Clone, Copy, Debug, PartialEq, Eq)]
enum Answer {
    Has(Option<Kind>),
    NoTyping(Place),
    ManyTypings(Place),
    Memory,
}

fn counted<L: Ledger>(
    alloc: Global,
    project: &Project,
    signatures: &Signatures,
    blank: Blank,
) -> Result<Typing, TypeFault>
    requires name { blank.name ≡ L.name }
    requires parts { blank.parts ≡ L.parts }
    requires some { 0 < blank.parts }
{
    let mut steps = Steps::<L>::new(blank);
    infer(alloc, project, signatures, &mut steps)
}

fn answer_of(alloc: Global, project: &Project, name: &Text) -> Answer {
    let signatures = List::new(alloc);
    match counted::<Brand>(alloc, project, &signatures, Blank::new(1)) {
        Ok(typing) => Answer::Has(typing.kind(name)),
        Err(TypeFault::NoTyping(place)) => Answer::NoTyping(place),
        Err(TypeFault::ManyTypings(_, place)) => Answer::ManyTypings(place),
        Err(TypeFault::Memory) => Answer::Memory,
    }
}

fn head(alloc: Global, line: u32) -> Head {
    let tags = List::new(alloc);
    Head { line, tags }
}

fn variable(alloc: Global, name: &str) -> Result<Expr, Memory> {
    Ok(Expr::Variable(Text::from_str(alloc, name)?))
}

fn set(alloc: Global) -> Result<Stmt, Memory> {
    let name = Text::from_str(alloc, "$a")?;
    Ok(Stmt::Set(head(alloc, 3), name, None, variable(alloc, "$b")?))
}

// The first lines of an `else`.
fn else_body(alloc: Global, count: usize) -> Result<List<Stmt>, Memory> {
    let mut body = List::new(alloc);
    if count >= 1 {
        let name = Text::from_str(alloc, "$b")?;
        let declare = Stmt::Declare(head(alloc, 5), name, Value::Number(7), None);
        body.push(declare).map_err(|_| Memory)?;
    }
    if count >= 2 {
        let jump = Stmt::JumpTo(head(alloc, 6), variable(alloc, "$a")?);
        body.push(jump).map_err(|_| Memory)?;
    }
    Ok(body)
}

fn choice(alloc: Global, last: List<Stmt>) -> Result<Stmt, Memory> {
    let clause = Clause {
        head: head(alloc, 3),
        condition: Expr::Truth(true),
        body: List::new(alloc),
    };
    let mut clauses = List::new(alloc);
    clauses.push(clause).map_err(|_| Memory)?;
    let last = ElseClause {
        head: head(alloc, 4),
        body: last,
    };
    Ok(Stmt::If(clauses, Some(last), head(alloc, 7)))
}

// A file of one statement.
fn file_of(alloc: Global, statement: Stmt) -> Result<File, Memory> {
    let mut body = List::new(alloc);
    body.push(statement).map_err(|_| Memory)?;
    let node = Node {
        title: Text::from_str(alloc, "Start")?,
        headers: List::new(alloc),
        line: 2,
        end_line: 8,
        body: Body::new(body),
    };
    let mut nodes = List::new(alloc);
    nodes.push(node).map_err(|_| Memory)?;
    Ok(File {
        name: Text::from_str(alloc, "a.yarn")?,
        tags: List::new(alloc),
        nodes,
    })
}

// A file with `$a` and `$b`, and a file with so many lines in an `else`.
fn project(alloc: Global, count: usize) -> Result<Project, Memory> {
    let mut files = List::new(alloc);
    let first = file_of(alloc, set(alloc)?)?;
    files.push(first).map_err(|_| Memory)?;
    let second = file_of(alloc, choice(alloc, else_body(alloc, count)?)?)?;
    files.push(second).map_err(|_| Memory)?;
    Ok(Project { files })
}

#[test]
fn lines_of_all_files_narrow_the_kinds(rt: HostRuntime) -> Result<(), Fail> {
    let alloc = rt.alloc();
    let name = Text::from_str(alloc, "$a")?;
    let rows = [
        (0, Answer::ManyTypings(Place { file: 0, line: 3 })),
        (1, Answer::Has(Some(Kind::Number))),
        (2, Answer::NoTyping(Place { file: 1, line: 6 })),
    ];
    for (count, want) in rows {
        let made = project(alloc, count)?;
        assert_eq!(rt; answer_of(alloc, &made, &name), want, "of {count} lines");
    }
    Ok(())
}

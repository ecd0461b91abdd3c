//! Writes statements, each line with four blanks before it for each level of its depth.
ghost use Rattle.std.specs.Prelude.{◌≡◌, ◌+◌, ◌++◌, IfOk, OnOk};
ghost use Rattle.yarn_blocks.specs.Layout.{laid, laid_one, laid_options, laid_clauses, laid_last};
ghost use Rattle.yarn_blocks.specs.View.{stmt_of, stmts_of, options_of, clauses_of, last_of};
ghost use Rattle.yarn_print.specs.Print.{entries_text};

use crate::contents::{after_word, asked, call_to, declaration, jump_to, setting};
use crate::lines::{write_command, write_game, write_offer, write_said};
use std::alloc::Global;
use yarn_base::{Memory, Text};
use yarn_blocks::{Clause, ElseClause, OptionItem, Stmt};

/// The lines of statements of that depth.
#[cycle(statements)]
pub(crate) fn write_statements(
    alloc: Global,
    out: &mut Text,
    depth: usize,
    statements: &[Stmt],
) -> Result<(), Memory>
    ensures { OnOk result (out.new ≡ out.old ++ entries_text (laid depth (stmts_of statements.now))) }
{
    for statement in statements {
        write_statement(alloc, out, depth, statement)?;
    }
    Ok(())
}

#[cycle(statements)]
fn write_statement(
    alloc: Global,
    out: &mut Text,
    depth: usize,
    statement: &Stmt,
) -> Result<(), Memory>
    ensures { OnOk result (out.new ≡ out.old ++ entries_text (laid_one depth (stmt_of statement.now))) }
{
    match statement {
        Stmt::Line(text) => write_said(alloc, out, depth, text),
        Stmt::Options(options) => write_options(alloc, out, depth, options.as_slice()),
        Stmt::If(clauses, last, end) => {
            write_clauses(alloc, out, depth, clauses.as_slice())?;
            write_else(alloc, out, depth, last)?;
            write_command(out, depth, "endif", &end.tags)
        }
        Stmt::Set(head, name, op, expr) => {
            let content = setting(alloc, name, *op, expr)?;
            write_command(out, depth, content.as_str(), &head.tags)
        }
        Stmt::Declare(head, name, value, kind) => {
            let content = declaration(alloc, name, value, *kind)?;
            write_command(out, depth, content.as_str(), &head.tags)
        }
        Stmt::Jump(head, title) => {
            let content = after_word(alloc, "jump ", title.as_str())?;
            write_command(out, depth, content.as_str(), &head.tags)
        }
        Stmt::JumpTo(head, expr) => {
            let content = jump_to(alloc, expr)?;
            write_command(out, depth, content.as_str(), &head.tags)
        }
        Stmt::Stop(head) => write_command(out, depth, "stop", &head.tags),
        Stmt::Call(head, expr) => {
            let content = call_to(alloc, expr)?;
            write_command(out, depth, content.as_str(), &head.tags)
        }
        Stmt::Command(text) => write_game(alloc, out, depth, text),
    }
}

/// Options and their bodies, which are one level deeper.
#[cycle(statements)]
fn write_options(
    alloc: Global,
    out: &mut Text,
    depth: usize,
    options: &[OptionItem],
) -> Result<(), Memory>
    ensures { OnOk result (out.new ≡ out.old ++ entries_text (laid_options depth (options_of options.now))) }
{
    for option in options {
        write_offer(alloc, out, depth, &option.text, &option.condition)?;
        write_statements(alloc, out, deeper(depth)?, option.body.as_slice())?;
    }
    Ok(())
}

/// The clauses of an `if`: the `if` itself, and its `elseif`s.
#[cycle(statements)]
fn write_clauses(
    alloc: Global,
    out: &mut Text,
    depth: usize,
    clauses: &[Clause],
) -> Result<(), Memory>
    ensures { OnOk result (out.new ≡ out.old ++ entries_text (laid_clauses depth (clauses_of clauses.now))) }
{
    let mut is_first = true;
    for clause in clauses {
        let content = asked(alloc, is_first, &clause.condition)?;
        write_command(out, depth, content.as_str(), &clause.head.tags)?;
        write_statements(alloc, out, deeper(depth)?, clause.body.as_slice())?;
        is_first = false;
    }
    Ok(())
}

#[cycle(statements)]
fn write_else(
    alloc: Global,
    out: &mut Text,
    depth: usize,
    last: &Option<ElseClause>,
) -> Result<(), Memory>
    ensures { OnOk result (out.new ≡ out.old ++ entries_text (laid_last depth (last_of last.now))) }
{
    match last {
        None => Ok(()),
        Some(clause) => {
            write_command(out, depth, "else", &clause.head.tags)?;
            write_statements(alloc, out, deeper(depth)?, clause.body.as_slice())
        }
    }
}

/// One level deeper. There is no memory for a depth that a `usize` can't keep.
fn deeper(depth: usize) -> Result<usize, Memory>
    ensures { IfOk result (λ more. more ≡ depth + 1) }
{
    depth.checked_add(1).ok_or(Memory)
}

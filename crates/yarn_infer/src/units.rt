//! The lines of a project that ask something of the kinds of its variables (docs/language.md, Typing).
ghost use Rattle.std.specs.Prelude.{◌≡◌, ◌++◌, ◌∷◌, [], IfOk, OnOk, map};
ghost use Rattle.yarn_blocks.specs.View.{stmt_of, stmts_of, options_of, clauses_of, last_of};
ghost use Rattle.yarn_tree.specs.Trees.{node_tree, file_tree};
ghost use Rattle.yarn_types.specs.Units.{unit_of, asked_of};
ghost use Rattle.yarn_infer.specs.Units.{unit_at, values_unit, offer_units, stmts_units, stmt_units, options_units, clauses_units, last_units, nodes_units, units_of};

use std::alloc::Global;
use yarn_base::{Memory, Place};
use yarn_expr::Expr;
use yarn_tree::{Body, Clause, ElseClause, LineText, Node, OptionItem, Project, Stmt};
use yarn_types::{Asks, TypeUnit};

/// The lines in order of the text. `Memory` also where the place of a file doesn't fit in 32 bits.
pub(crate) fn units_of<'p>(alloc: Global, project: &'p Project) -> Result<Vec<TypeUnit<'p>>, Memory>
    ensures { IfOk result (λ units. map unit_of units.items ≡ units_of (map file_tree project.now.files)) }
{
    let mut units = Vec::new(alloc);
    let mut file: u32 = 0;
    for own in project.files.as_slice() {
        push_nodes(&mut units, file, own.nodes.as_slice())?;
        file = file.checked_add(1).ok_or(Memory)?;
    }
    Ok(units)
}

fn push_nodes<'p>(units: &mut Vec<TypeUnit<'p>>, file: u32, nodes: &'p [Node]) -> Result<(), Memory>
    ensures { OnOk result (map unit_of units.new.items ≡ map unit_of units.old.items ++ nodes_units file (map node_tree nodes.now)) }
{
    for node in nodes {
        push_node(units, file, &node.body)?;
    }
    Ok(())
}

/// Adds the lines of a node. Lines without substitutions ask nothing.
fn push_node<'p>(units: &mut Vec<TypeUnit<'p>>, file: u32, body: &'p Body) -> Result<(), Memory>
    ensures { OnOk result (map unit_of units.new.items ≡ map unit_of units.old.items ++ stmts_units file (stmts_of body.now)) }
{
    if body.is_bare() {
        return Ok(());
    }
    push_body(units, file, body.as_slice())
}

/// Adds the lines of a body to those before it.
#[cycle(walk)]
fn push_body<'p>(units: &mut Vec<TypeUnit<'p>>, file: u32, body: &'p [Stmt]) -> Result<(), Memory>
    ensures { OnOk result (map unit_of units.new.items ≡ map unit_of units.old.items ++ stmts_units file (stmts_of body.now)) }
{
    for statement in body {
        push_statement(units, file, statement)?;
    }
    Ok(())
}

#[cycle(walk)]
fn push_statement<'p>(
    units: &mut Vec<TypeUnit<'p>>,
    file: u32,
    statement: &'p Stmt,
) -> Result<(), Memory>
    ensures { OnOk result (map unit_of units.new.items ≡ map unit_of units.old.items ++ stmt_units file (stmt_of statement.now)) }
{
    match statement {
        Stmt::Line(text) | Stmt::Command(text) => push_values(units, file, text),
        Stmt::Options(options) => push_options(units, file, options.as_slice()),
        Stmt::If(clauses, last, _) => {
            push_clauses(units, file, clauses.as_slice())?;
            push_last(units, file, last)
        }
        Stmt::Set(head, name, op, expr) => {
            push_unit(units, file, head.line, Asks::Set(name, *op, expr))
        }
        Stmt::Declare(head, name, value, word) => {
            push_unit(
                units,
                file,
                head.line,
                Asks::Declare(name, value.kind(), *word),
            )
        }
        Stmt::JumpTo(head, expr) => push_unit(units, file, head.line, Asks::Title(expr)),
        Stmt::Call(head, expr) => push_unit(units, file, head.line, Asks::Value(expr)),
        Stmt::Jump(..) | Stmt::Stop(_) => Ok(()),
    }
}

#[cycle(walk)]
fn push_options<'p>(
    units: &mut Vec<TypeUnit<'p>>,
    file: u32,
    options: &'p [OptionItem],
) -> Result<(), Memory>
    ensures { OnOk result (map unit_of units.new.items ≡ map unit_of units.old.items ++ options_units file (options_of options.now)) }
{
    for option in options {
        push_offer(units, file, &option.text, &option.condition)?;
        push_body(units, file, option.body.as_slice())?;
    }
    Ok(())
}

#[cycle(walk)]
fn push_clauses<'p>(
    units: &mut Vec<TypeUnit<'p>>,
    file: u32,
    clauses: &'p [Clause],
) -> Result<(), Memory>
    ensures { OnOk result (map unit_of units.new.items ≡ map unit_of units.old.items ++ clauses_units file (clauses_of clauses.now)) }
{
    for clause in clauses {
        push_unit(
            units,
            file,
            clause.head.line,
            Asks::Condition(&clause.condition),
        )?;
        push_body(units, file, clause.body.as_slice())?;
    }
    Ok(())
}

#[cycle(walk)]
fn push_last<'p>(
    units: &mut Vec<TypeUnit<'p>>,
    file: u32,
    last: &'p Option<ElseClause>,
) -> Result<(), Memory>
    ensures { OnOk result (map unit_of units.new.items ≡ map unit_of units.old.items ++ last_units file (last_of last.now)) }
{
    match last {
        Some(clause) => push_body(units, file, clause.body.as_slice()),
        None => Ok(()),
    }
}

/// Adds an option's line.
fn push_offer<'p>(
    units: &mut Vec<TypeUnit<'p>>,
    file: u32,
    text: &'p LineText,
    condition: &'p Option<Expr>,
) -> Result<(), Memory>
    ensures { OnOk result (map unit_of units.new.items ≡ map unit_of units.old.items ++ offer_units file text.now.line text.now.holes condition.now) }
{
    match condition {
        Some(expr) => push_unit(units, file, text.line, Asks::ValuesIf(&text.holes, expr)),
        None => push_values(units, file, text),
    }
}

/// Adds a line with its substitutions; one without any asks nothing.
fn push_values<'p>(
    units: &mut Vec<TypeUnit<'p>>,
    file: u32,
    text: &'p LineText,
) -> Result<(), Memory>
    ensures { OnOk result (map unit_of units.new.items ≡ map unit_of units.old.items ++ values_unit file text.now.line text.now.holes) }
{
    if text.holes.as_slice().is_empty() {
        return Ok(());
    }
    push_unit(units, file, text.line, Asks::Values(&text.holes))
}

fn push_unit<'p>(
    units: &mut Vec<TypeUnit<'p>>,
    file: u32,
    line: u32,
    asks: Asks<'p>,
) -> Result<(), Memory>
    ensures { OnOk result (map unit_of units.new.items ≡ map unit_of units.old.items ++ unit_at file line (asked_of asks.entry) ∷ []) }
{
    let place = Place { file, line };
    units.push(TypeUnit { place, asks })?;
    Ok(())
}

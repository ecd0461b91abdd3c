//! The lines and options of a project, as rows under their ids (docs/language.md, Ids).
ghost use Rattle.std.specs.Prelude.{◌≡◌, ◌+◌, ◌++◌, ◌∷◌, [], length, map, IfOk, OnOk};
ghost use Rattle.yarn_blocks.specs.View.{stmt_of, stmts_of, options_of, clauses_of, last_of};
ghost use Rattle.yarn_meaning.specs.Texts.{said_in, said_in_one, said_in_options, said_in_clauses, said_in_last};
ghost use Rattle.yarn_meaning.specs.First.{nodes_at};
ghost use Rattle.yarn_tree.specs.Trees.{node_tree, file_tree};
ghost use Rattle.yarn_ids.specs.Base.{row_of, rows_from, base_rows};

use std::alloc::Global;
use yarn_base::{List, Memory};
use yarn_tree::{Clause, ElseClause, LineText, Node, OptionItem, Project, Stmt};
use yarn_value::{Base, BaseLine};

/// The rows of all lines and options, in order of the text. `Memory` also where the place of a file or of a node doesn't
/// fit in 32 bits, or the number of a line's substitutions in 8; a project that `read_project` accepts has no such place or
/// number.
pub fn base_of(alloc: Global, project: &Project) -> Result<Base, Memory>
    ensures { IfOk result (λ base. base ≡ base_rows (map file_tree project.now.files)) }
{
    let mut rows = Vec::new(alloc);
    let mut file: u32 = 0;
    let mut node: u32 = 0;
    for own in project.files.as_slice() {
        node = push_nodes(alloc, &mut rows, file, node, own.nodes.as_slice())?;
        file = file.checked_add(1).ok_or(Memory)?;
    }
    Ok(List::from_vec(rows))
}

// Adds the rows of the nodes of a file, of which the first is at that place among all nodes; the place behind them.
fn push_nodes(
    alloc: Global,
    rows: &mut Vec<BaseLine>,
    file: u32,
    first: u32,
    nodes: &[Node],
) -> Result<u32, Memory>
    ensures place { IfOk result (λ behind. behind ≡ first + length nodes.now) }
    ensures rows { OnOk result (rows.new.items ≡ rows.old.items ++ rows_from first (nodes_at file (map node_tree nodes.now))) }
{
    let mut place = first;
    for node in nodes {
        push_body(
            alloc,
            rows,
            Site { file, node: place },
            node.body.as_slice(),
        )?;
        place = place.checked_add(1).ok_or(Memory)?;
    }
    Ok(place)
}

/// Where a node is: the place of its file, and its own among the nodes of all files, from 0.
#[derive(Clone, Copy)]
struct Site {
    file: u32,
    node: u32,
}

#[cycle(walk)]
fn push_body(
    alloc: Global,
    rows: &mut Vec<BaseLine>,
    site: Site,
    body: &[Stmt],
) -> Result<(), Memory>
    ensures { OnOk result (rows.new.items ≡ rows.old.items ++ map (row_of site.file site.node) (said_in (stmts_of body.now))) }
{
    for statement in body {
        push_statement(alloc, rows, site, statement)?;
    }
    Ok(())
}

#[cycle(walk)]
fn push_statement(
    alloc: Global,
    rows: &mut Vec<BaseLine>,
    site: Site,
    statement: &Stmt,
) -> Result<(), Memory>
    ensures { OnOk result (rows.new.items ≡ rows.old.items ++ map (row_of site.file site.node) (said_in_one (stmt_of statement.now))) }
{
    match statement {
        Stmt::Line(text) => push_row(alloc, rows, site, text),
        Stmt::Options(options) => push_options(alloc, rows, site, options.as_slice()),
        Stmt::If(clauses, last, _) => {
            push_clauses(alloc, rows, site, clauses.as_slice())?;
            push_last(alloc, rows, site, last)
        }
        _ => Ok(()),
    }
}

#[cycle(walk)]
fn push_options(
    alloc: Global,
    rows: &mut Vec<BaseLine>,
    site: Site,
    options: &[OptionItem],
) -> Result<(), Memory>
    ensures { OnOk result (rows.new.items ≡ rows.old.items ++ map (row_of site.file site.node) (said_in_options (options_of options.now))) }
{
    for option in options {
        push_row(alloc, rows, site, &option.text)?;
        push_body(alloc, rows, site, option.body.as_slice())?;
    }
    Ok(())
}

#[cycle(walk)]
fn push_clauses(
    alloc: Global,
    rows: &mut Vec<BaseLine>,
    site: Site,
    clauses: &[Clause],
) -> Result<(), Memory>
    ensures { OnOk result (rows.new.items ≡ rows.old.items ++ map (row_of site.file site.node) (said_in_clauses (clauses_of clauses.now))) }
{
    for clause in clauses {
        push_body(alloc, rows, site, clause.body.as_slice())?;
    }
    Ok(())
}

#[cycle(walk)]
fn push_last(
    alloc: Global,
    rows: &mut Vec<BaseLine>,
    site: Site,
    last: &Option<ElseClause>,
) -> Result<(), Memory>
    ensures { OnOk result (rows.new.items ≡ rows.old.items ++ map (row_of site.file site.node) (said_in_last (last_of last.now))) }
{
    match last {
        Some(clause) => push_body(alloc, rows, site, clause.body.as_slice()),
        None => Ok(()),
    }
}

// Adds the row of a line or an option.
fn push_row(
    alloc: Global,
    rows: &mut Vec<BaseLine>,
    site: Site,
    text: &LineText,
) -> Result<(), Memory>
    ensures { OnOk result (rows.new.items ≡ rows.old.items ++ row_of site.file site.node text.now ∷ []) }
{
    let row = row(alloc, site, text)?;
    rows.push(row)?;
    Ok(())
}

fn row(alloc: Global, site: Site, text: &LineText) -> Result<BaseLine, Memory>
    ensures { IfOk result (λ row. row ≡ row_of site.file site.node text.now) }
{
    Ok(BaseLine {
        id: text.id.to_text(alloc)?,
        holes: u8::try_from(text.holes.len()).map_err(|_| Memory)?,
        text: text.text.copy()?,
        file: site.file,
        node: site.node,
        line: text.line,
    })
}

//! The lines and options of a file with their own ids, collected in one walk.
ghost use Rattle.std.specs.Prelude.{◌≡◌, ◌++◌, ◌∷◌, [], map, IfOk, OnOk};
ghost use Rattle.std.specs.Option.{option_copied};
ghost use Rattle.yarn_blocks.specs.View.{stmt_of, stmts_of, options_of, clauses_of, last_of};
ghost use Rattle.yarn_meaning.specs.Texts.{said_in, said_in_one, said_in_options, said_in_clauses, said_in_last, said_in_nodes};
ghost use Rattle.yarn_items.specs.Text.{is_id};
ghost use Rattle.yarn_tree.specs.Trees.{node_tree};
ghost use Rattle.yarn_tag.specs.Tagged.{spoken_of, spoken_in, own_id};

use std::alloc::Global;
use yarn_base::{Memory, Text};
use yarn_tree::{Clause, ElseClause, File, LineText, OptionItem, Stmt};

/// A line or an option: its line, from 1, and its own id, if it has one.
#[derive(Debug, Drop)]
pub struct Spoken {
    pub line: u32,
    pub id: Option<Text>,
}

/// The lines and options of a file, in order of the text.
pub(crate) fn spoken_in(alloc: Global, tree: &File) -> Result<Vec<Spoken>, Memory>
    ensures { IfOk result (λ said. said.items ≡ spoken_in tree.now) }
{
    let mut said = Vec::new(alloc);
    for node in tree.nodes.as_slice() {
        push_body(&mut said, node.body.as_slice())?;
    }
    Ok(said)
}

#[cycle(spoken)]
fn push_body(said: &mut Vec<Spoken>, body: &[Stmt]) -> Result<(), Memory>
    ensures { OnOk result (said.new.items ≡ said.old.items ++ map spoken_of (said_in (stmts_of body.now))) }
{
    for statement in body {
        push_statement(said, statement)?;
    }
    Ok(())
}

#[cycle(spoken)]
fn push_statement(said: &mut Vec<Spoken>, statement: &Stmt) -> Result<(), Memory>
    ensures { OnOk result (said.new.items ≡ said.old.items ++ map spoken_of (said_in_one (stmt_of statement.now))) }
{
    match statement {
        Stmt::Line(text) => push_spoken(said, text),
        Stmt::Options(options) => push_options(said, options.as_slice()),
        Stmt::If(clauses, last, _) => {
            push_clauses(said, clauses.as_slice())?;
            push_last(said, last)
        }
        _ => Ok(()),
    }
}

#[cycle(spoken)]
fn push_options(said: &mut Vec<Spoken>, options: &[OptionItem]) -> Result<(), Memory>
    ensures { OnOk result (said.new.items ≡ said.old.items ++ map spoken_of (said_in_options (options_of options.now))) }
{
    for option in options {
        push_spoken(said, &option.text)?;
        push_body(said, option.body.as_slice())?;
    }
    Ok(())
}

#[cycle(spoken)]
fn push_clauses(said: &mut Vec<Spoken>, clauses: &[Clause]) -> Result<(), Memory>
    ensures { OnOk result (said.new.items ≡ said.old.items ++ map spoken_of (said_in_clauses (clauses_of clauses.now))) }
{
    for clause in clauses {
        push_body(said, clause.body.as_slice())?;
    }
    Ok(())
}

#[cycle(spoken)]
fn push_last(said: &mut Vec<Spoken>, last: &Option<ElseClause>) -> Result<(), Memory>
    ensures { OnOk result (said.new.items ≡ said.old.items ++ map spoken_of (said_in_last (last_of last.now))) }
{
    match last {
        Some(clause) => push_body(said, clause.body.as_slice()),
        None => Ok(()),
    }
}

fn push_spoken(said: &mut Vec<Spoken>, text: &LineText) -> Result<(), Memory>
    ensures { OnOk result (said.new.items ≡ said.old.items ++ spoken_of text.now ∷ []) }
{
    let id = copy_of(own_id(text.tags.as_slice()))?;
    said.push(Spoken {
        line: text.line,
        id,
    })?;
    Ok(())
}

fn copy_of(id: Option<&Text>) -> Result<Option<Text>, Memory>
    ensures { IfOk result (λ copy. copy ≡ option_copied id.entry) }
{
    match id {
        Some(id) => Ok(Some(id.copy()?)),
        None => Ok(None),
    }
}

// The first hashtag that is an id.
fn own_id(tags: &[Text]) -> Option<&Text>
    ensures { option_copied result ≡ own_id tags.now }
{
    for tag in tags {
        if is_id(tag.as_str()) {
            return Some(tag);
        }
    }
    None
}

fn is_id(tag: &str) -> bool
    ensures { result ≡ is_id tag.now }
{
    tag.as_bytes().starts_with(b"line:")
}

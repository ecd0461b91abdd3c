//! The variables of a project and the values with which they begin (docs/language.md, The meaning).
ghost use Rattle.std.specs.Prelude.{◌≡◌, ◌++◌, [], map, IfOk, OnOk, IsTrue};
ghost use Rattle.std.specs.Option.{option_copied};
ghost use Rattle.yarn_store.specs.Pairs.{IsPair};
ghost use Rattle.yarn_value.specs.Pairs.{value_under, with_missing, with_missing_one};
ghost use Rattle.yarn_tree.specs.Trees.{file_tree, node_tree};
ghost use Rattle.yarn_blocks.specs.View.{stmt_of, stmts_of, options_of, clauses_of, last_of};
ghost use Rattle.yarn_meaning.specs.Variables.{variables_of, typed_pairs, counts_in, first_value as first_value_of, plain_value as plain_value_of, first_store as first_store_of, first_other as first_other_of, is_other_kind as is_other_kind_of, declared_in, declared_in_one, declared_in_options, declared_in_clauses, declared_in_last, declared_in_nodes, declared_in_files};
ghost use Rattle.yarn_walker.specs.Variables.{pairs_of};

use crate::stored::{count_name, is_short};
use std::alloc::Global;
use yarn_base::{Memory, Text, is_variable};
use yarn_store::Store;
use yarn_tree::{Clause, ElseClause, File, Node, OptionItem, Stmt};
use yarn_types::{TypedName, Typing};
use yarn_value::{Kind, Value};

// More than the bytes of a name of a store.
const NAME_LIMIT: u64 = 4_294_967_296;

/// A variable and the value with which it begins.
#[derive(Debug, Drop)]
struct Variable {
    name: Text,
    value: Value,
}

/// The first variable of the project for which these pairs have a value of another kind.
pub fn first_other(
    alloc: Global,
    pairs: &Store,
    typing: &Typing,
    files: &[File],
) -> Result<Option<Text>, Memory>
    ensures { IfOk result (λ name. name ≡ first_other_of pairs.now (variables_of typing.now.entries (map file_tree files.now))) }
{
    let variables = variables(alloc, typing, files)?;
    for variable in variables.as_slice() {
        if is_other_kind(&variable.value, pairs.get(&variable.name)) {
            return Ok(Some(variable.name.copy()?));
        }
    }
    Ok(None)
}

/// The store with which a run begins: these pairs, and then each variable of the project that they lack, with its first
/// value. `Memory` also for a name that no accepted project has.
pub fn first_store(
    alloc: Global,
    pairs: Store,
    typing: &Typing,
    files: &[File],
) -> Result<Store, Memory>
    ensures { IfOk result (λ store. store ≡ first_store_of pairs typing.now.entries (map file_tree files.now)) }
{
    let mut store = pairs;
    for variable in variables(alloc, typing, files)? {
        keep(&mut store, variable.name, variable.value)?;
    }
    Ok(store)
}

// The variables in order: the typed ones, and then a count for each node.
fn variables(alloc: Global, typing: &Typing, files: &[File]) -> Result<Vec<Variable>, Memory>
    ensures { IfOk result (λ all. pairs_of all.items ≡ variables_of typing.now.entries (map file_tree files.now)) }
{
    let mut all = Vec::new(alloc);
    add_first(alloc, &mut all, typing.entries.as_slice(), files)?;
    for file in files {
        add_counts(alloc, &mut all, file.nodes.as_slice())?;
    }
    Ok(all)
}

// The typed variables with their first values. Where there are none, no declaration is looked for.
fn add_first(
    alloc: Global,
    all: &mut Vec<Variable>,
    entries: &[TypedName],
    files: &[File],
) -> Result<(), Memory>
    ensures { OnOk result (pairs_of all.new.items ≡ pairs_of all.old.items ++ typed_pairs (declared_in_files (map file_tree files.now)) entries.now) }
{
    if entries.is_empty() {
        return Ok(());
    }
    let declared = declared(alloc, files)?;
    add_typed(alloc, all, &declared, entries)
}

fn add_typed(
    alloc: Global,
    all: &mut Vec<Variable>,
    declared: &Store,
    entries: &[TypedName],
) -> Result<(), Memory>
    ensures { OnOk result (pairs_of all.new.items ≡ pairs_of all.old.items ++ typed_pairs declared.now entries.now) }
{
    for entry in entries {
        let name = entry.name.copy()?;
        let value = first_value(alloc, declared, entry)?;
        all.push(Variable { name, value }).map_err(|_| Memory)?;
    }
    Ok(())
}

// A count of visits for each node.
fn add_counts(alloc: Global, all: &mut Vec<Variable>, nodes: &[Node]) -> Result<(), Memory>
    ensures { OnOk result (pairs_of all.new.items ≡ pairs_of all.old.items ++ counts_in (map node_tree nodes.now)) }
{
    for node in nodes {
        let name = count_name(alloc, &node.title)?;
        let value = Value::Number(0);
        all.push(Variable { name, value }).map_err(|_| Memory)?;
    }
    Ok(())
}

// The declared value of a variable, and else that of its kind.
fn first_value(alloc: Global, declared: &Store, entry: &TypedName) -> Result<Value, Memory>
    ensures { IfOk result (λ value. value ≡ first_value_of declared.now entry.now) }
{
    match declared.get(&entry.name) {
        Some(value) => value.copy(),
        None => plain_value(alloc, entry.kind),
    }
}

fn plain_value(alloc: Global, kind: Kind) -> Result<Value, Memory>
    ensures { IfOk result (λ value. value ≡ plain_value_of kind) }
{
    Ok(match kind {
        Kind::Number => Value::Number(0),
        Kind::Str => Value::Str(Text::from_str(alloc, "")?),
        Kind::Truth => Value::Truth(false),
    })
}

fn is_other_kind(value: &Value, there: Option<&Value>) -> bool
    ensures { result ≡ is_other_kind_of value.now (option_copied there.entry) }
{
    match there {
        Some(there) => there.kind() != value.kind(),
        None => false,
    }
}

// Puts a variable last, where the store doesn't have it.
fn keep(store: &mut Store, name: Text, value: Value) -> Result<(), Memory>
    ensures { OnOk result (store.new ≡ with_missing_one store.old name value (value_under store.old name)) }
{
    if store.get(&name).is_some() {
        return Ok(());
    }
    if !is_pair(&name, &value) {
        return Err(Memory);
    }
    store.set(name, value).map_err(|_| Memory)
}

fn is_pair(name: &Text, value: &Value) -> bool
    ensures { IsTrue result → IsPair name.now value.now }
{
    is_variable(name) && (name.len() as u64) < NAME_LIMIT && is_short(value)
}

// The declared values of the variables.
fn declared(alloc: Global, files: &[File]) -> Result<Store, Memory>
    ensures { IfOk result (λ store. store ≡ with_missing [] (declared_in_files (map file_tree files.now))) }
{
    let mut store = Store::new(alloc);
    for file in files {
        declare_nodes(&mut store, file.nodes.as_slice())?;
    }
    Ok(store)
}

fn declare_nodes(store: &mut Store, nodes: &[Node]) -> Result<(), Memory>
    ensures { OnOk result (store.new ≡ with_missing store.old (declared_in_nodes (map node_tree nodes.now))) }
{
    for node in nodes {
        declare_body(store, node.body.as_slice())?;
    }
    Ok(())
}

#[cycle(declaring)]
fn declare_body(store: &mut Store, body: &[Stmt]) -> Result<(), Memory>
    ensures { OnOk result (store.new ≡ with_missing store.old (declared_in (stmts_of body.now))) }
{
    for statement in body {
        declare(store, statement)?;
    }
    Ok(())
}

#[cycle(declaring)]
fn declare(store: &mut Store, statement: &Stmt) -> Result<(), Memory>
    ensures { OnOk result (store.new ≡ with_missing store.old (declared_in_one (stmt_of statement.now))) }
{
    match statement {
        Stmt::Declare(_, name, value, _) => keep(store, name.copy()?, value.copy()?),
        Stmt::Options(options) => declare_options(store, options.as_slice()),
        Stmt::If(clauses, last, _) => {
            declare_clauses(store, clauses.as_slice())?;
            declare_last(store, last)
        }
        _ => Ok(()),
    }
}

#[cycle(declaring)]
fn declare_options(store: &mut Store, options: &[OptionItem]) -> Result<(), Memory>
    ensures { OnOk result (store.new ≡ with_missing store.old (declared_in_options (options_of options.now))) }
{
    for option in options {
        declare_body(store, option.body.as_slice())?;
    }
    Ok(())
}

#[cycle(declaring)]
fn declare_clauses(store: &mut Store, clauses: &[Clause]) -> Result<(), Memory>
    ensures { OnOk result (store.new ≡ with_missing store.old (declared_in_clauses (clauses_of clauses.now))) }
{
    for clause in clauses {
        declare_body(store, clause.body.as_slice())?;
    }
    Ok(())
}

#[cycle(declaring)]
fn declare_last(store: &mut Store, last: &Option<ElseClause>) -> Result<(), Memory>
    ensures { OnOk result (store.new ≡ with_missing store.old (declared_in_last (last_of last.now))) }
{
    match last {
        Some(clause) => declare_body(store, clause.body.as_slice()),
        None => Ok(()),
    }
}

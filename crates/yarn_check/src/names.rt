//! What the instructions of a program name, found by its name.
ghost use Rattle.std.specs.Prelude.{◌≡◌, IfOk, length, Some, None, option_map};
ghost use Rattle.std.specs.Option.{option_copied};
ghost use Rattle.yarn_value.specs.Builtins.{row_of};
ghost use Rattle.yarn_value.specs.Calls.{same_kinds as are_same};
ghost use Rattle.yarn_value.specs.Rows.{takes as row_takes, accepts as param_accepts};
ghost use Rattle.yarn_value.specs.Signatures.{arity_of, declared_arity, row_arity};
ghost use Rattle.yarn_check.specs.Shapes.{kind_under, kind_called, holes_under};
ghost use Rattle.yarn_check.specs.NameMaps.{Finds, first_named, host_kind, variable_name, function_name, line_name};

use std::alloc::Global;
use std::collections::BTreeMap;
use std::marker::Model;
use yarn_base::{Memory, Text};
use yarn_code::{CodeNode, Program, Variable};
use yarn_value::{BaseLine, Builtin, Kind, Param, Signature, find_builtin};

/// A program, whose variables, functions and lines are found by their names.
#[derive(Drop)]
pub(crate) struct Names<'p> {
    program: &'p Program,
    variables: BTreeMap<&'p str, &'p Variable>,
    functions: BTreeMap<&'p str, &'p Signature>,
    lines: BTreeMap<&'p str, &'p BaseLine>,
}

impl<'p> Model for Names<'p> {
    ghost use Rattle.yarn_check.specs.NameMaps.{HasNames};
    ghost use Rattle.yarn_code.specs.declared.program.Program.{Program};

    ghost Value = { Program };

    ghost view = { λ n. n.program.now };

    ghost invariant = { λ n. HasNames n.variables n.functions n.lines n.program.now };
}

impl<'p> Names<'p> {
    pub(crate) fn new(alloc: Global, program: &'p Program) -> Result<Names<'p>, Memory>
        ensures { IfOk result (λ names. names ≡ program.now) }
    {
        Ok(Names {
            program,
            variables: variables_by_name(alloc, program.variables.as_slice())?,
            functions: functions_by_name(alloc, program.functions.as_slice())?,
            lines: lines_by_id(alloc, program.lines.as_slice())?,
        })
    }

    /// The nodes of the program.
    pub(crate) fn nodes(&self) -> &'p [CodeNode]
        ensures { result.now ≡ self.now.nodes }
    {
        self.program.nodes.as_slice()
    }

    /// The kind of the variable of that name.
    pub(crate) fn variable(&self, name: &Text) -> Option<Kind>
        ensures { result ≡ kind_under self.now name.now }
    {
        match self.variable_named(name) {
            Some(variable) => Some(variable.initial.kind()),
            None => None,
        }
    }

    fn variable_named(&self, name: &Text) -> Option<&'p Variable>
        ensures { option_copied result ≡ first_named variable_name self.now.variables name.now }
    {
        self.variables.get(name.as_str()).copied()
    }

    /// How many substitutions the line of that id has.
    pub(crate) fn holes(&self, id: &Text) -> Option<u8>
        ensures { result ≡ holes_under self.now.lines id.now }
    {
        match self.line_named(id) {
            Some(line) => Some(line.holes),
            None => None,
        }
    }

    fn line_named(&self, id: &Text) -> Option<&'p BaseLine>
        ensures { option_copied result ≡ first_named line_name self.now.lines id.now }
    {
        self.lines.get(id.as_str()).copied()
    }

    /// How many arguments the function of that name has: a builtin, or one of the program's.
    pub(crate) fn arity(&self, name: &Text) -> Option<usize>
        ensures { result ≡ arity_of self.now.functions name.now }
    {
        match find_builtin(name.as_str()) {
            Some(row) => Some(builtin_arity(row)),
            None => self.declared(name),
        }
    }

    // How many arguments the program's function of that name has.
    fn declared(&self, name: &Text) -> Option<usize>
        ensures { result ≡ declared_arity self.now.functions name.now }
    {
        match self.function(name) {
            Some(function) => Some(function.params.len()),
            None => None,
        }
    }

    /// The kind of what the function of that name gives on arguments of these kinds.
    pub(crate) fn call(&self, name: &Text, kinds: &[Kind]) -> Option<Kind>
        ensures { result ≡ kind_called self.now name.now kinds.now }
    {
        match find_builtin(name.as_str()) {
            Some(row) => {
                if takes(row.first, row.second, kinds) {
                    Some(row.result)
                } else {
                    None
                }
            }
            None => self.host_call(name, kinds),
        }
    }

    // The same of a function of the program.
    fn host_call(&self, name: &Text, kinds: &[Kind]) -> Option<Kind>
        ensures { result ≡ host_kind (first_named function_name self.now.functions name.now) kinds.now }
    {
        match self.function(name) {
            Some(signature) => {
                if same_kinds(signature.params.as_slice(), kinds) {
                    Some(signature.result)
                } else {
                    None
                }
            }
            None => None,
        }
    }

    // The function of that name among the program's.
    fn function(&self, name: &Text) -> Option<&'p Signature>
        ensures { option_copied result ≡ first_named function_name self.now.functions name.now }
    {
        self.functions.get(name.as_str()).copied()
    }
}

fn variables_by_name<'p>(
    alloc: Global,
    variables: &'p [Variable],
) -> Result<BTreeMap<&'p str, &'p Variable>, Memory>
    ensures { IfOk result (λ map. Finds variable_name map variables.now) }
{
    let mut first = BTreeMap::new(alloc);
    for variable in variables.iter().rev() {
        first.insert(variable.name.as_str(), variable)?;
    }
    Ok(first)
}

fn functions_by_name<'p>(
    alloc: Global,
    functions: &'p [Signature],
) -> Result<BTreeMap<&'p str, &'p Signature>, Memory>
    ensures { IfOk result (λ map. Finds function_name map functions.now) }
{
    let mut first = BTreeMap::new(alloc);
    for function in functions.iter().rev() {
        first.insert(function.name.as_str(), function)?;
    }
    Ok(first)
}

fn lines_by_id<'p>(
    alloc: Global,
    lines: &'p [BaseLine],
) -> Result<BTreeMap<&'p str, &'p BaseLine>, Memory>
    ensures { IfOk result (λ map. Finds line_name map lines.now) }
{
    let mut first = BTreeMap::new(alloc);
    for line in lines.iter().rev() {
        first.insert(line.id.as_str(), line)?;
    }
    Ok(first)
}

fn builtin_arity(row: Builtin) -> usize
    ensures { result ≡ row_arity (row_of row) }
{
    usize::from(row.first.is_some()) + usize::from(row.second.is_some())
}

// Whether arguments of these kinds are those of a row.
fn takes(first: Option<Param>, second: Option<Param>, kinds: &[Kind]) -> bool
    ensures { result ≡ row_takes first second kinds.now }
{
    match (first, second, kinds) {
        (None, None, []) => true,
        (Some(one), None, [kind]) => accepts(one, *kind, *kind),
        (Some(one), Some(other), [kind, next]) => {
            accepts(one, *kind, *kind) && accepts(other, *kind, *next)
        }
        _ => false,
    }
}

// Whether an argument of this kind, behind a first one of that kind, is what is taken.
fn accepts(param: Param, first: Kind, this: Kind) -> bool
    ensures { result ≡ param_accepts param first this }
{
    match param {
        Param::One(kind) => kind == this,
        Param::Any => true,
        Param::Same => first == this,
    }
}

// Whether these kinds are the same, one by one.
pub(crate) fn same_kinds(a: &[Kind], b: &[Kind]) -> bool
    ensures { result ≡ are_same a.now b.now }
{
    a == b
}

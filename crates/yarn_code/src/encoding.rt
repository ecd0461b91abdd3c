//! Writes a program as the bytes of a program file.
ghost use Rattle.std.specs.Prelude.{◌≡◌, ◌<◌, ◌^◌, List, [], length, true, All, IfOk, OnOk};
ghost use Rattle.yarn_value.specs.declared.base.BaseLine.{BaseLine};
ghost use Rattle.yarn_value.specs.declared.signature.Signature.{Signature};
ghost use Rattle.yarn_value.specs.Values.{kind_of};
ghost use Rattle.yarn_code.specs.declared.program.CodeNode.{CodeNode};
ghost use Rattle.yarn_code.specs.declared.program.Program.{Program};
ghost use Rattle.yarn_code.specs.declared.program.Variable.{Variable};
ghost use Rattle.yarn_code.specs.Fields.{IsFitting, IsVariableField, IsFunctionField, IsNodeField, IsLineField, IsNodeWords, IsLineWords, HasFields, FitsFile, names_of, function_names, titles_of, ids_of, AreUnique};
ghost use Rattle.yarn_code.specs.Layout.{kinds, file_name, value_of, variable, function, node, base_line, many, is_new};
ghost use Rattle.yarn_code.specs.Format.{times};
ghost use Rattle.yarn_code.specs.Spelling.{Spells};
ghost use Rattle.yarn_code.specs.Writing.{Writes, HasCode};

use crate::encoded_code::put_instructions;
use crate::writer::{put_count, put_i64, put_kind, put_text, put_truth, put_u8, put_u32};
use crate::{CodeNode, Program, Variable};
use std::alloc::Global;
use yarn_base::{List, Memory, Text};
use yarn_value::{BaseLine, Kind, Signature, Value};

/// The bytes of a program file that spell the program (docs/formats.md, Program files).
///
/// The only error is want of memory.
pub fn encode(alloc: Global, program: &Program) -> Result<List<u8>, Memory>
    requires fields { HasFields program.now }
    requires words { FitsFile program.now }
    ensures { IfOk result (λ bytes. Spells bytes program.now) }
{
    let mut out = List::new(alloc);
    out.extend_from_slice(b"YSP1")?;
    put_files(&mut out, &program.files)?;
    put_variables(&mut out, &program.variables)?;
    put_functions(&mut out, &program.functions)?;
    put_nodes(&mut out, &program.nodes)?;
    put_lines(&mut out, &program.lines)?;
    Ok(out)
}

fn put_files(out: &mut List<u8>, files: &List<Text>) -> Result<(), Memory>
    requires count { length files.now < 2 ^ 32 }
    requires names { All (λ name. length name < 2 ^ 32) files.now }
    ensures { OnOk result (Writes (many file_name) files.now out.old out.new) }
{
    put_count(out, files.len())?;
    for file in files.as_slice() {
        put_text(out, file)?;
    }
    Ok(())
}

fn put_variables(out: &mut List<u8>, variables: &List<Variable>) -> Result<(), Memory>
    requires count { length variables.now < 2 ^ 32 }
    requires names { All (λ v. length v.name < 2 ^ 32) variables.now }
    requires fields { All IsVariableField variables.now }
    requires differ { AreUnique (names_of variables.now) }
    ensures { OnOk result (Writes (many variable) variables.now out.old out.new) }
{
    put_count(out, variables.len())?;
    for variable in variables.as_slice() {
        put_variable(out, variable)?;
    }
    Ok(())
}

fn put_variable(out: &mut List<u8>, one: &Variable) -> Result<(), Memory>
    requires name { length one.now.name < 2 ^ 32 }
    requires field { IsVariableField one.now }
    ensures { OnOk result ((before : List Variable) → is_new (names_of before) one.now.name ≡ true → Writes (variable before) one.now out.old out.new) }
{
    put_text(out, &one.name)?;
    put_kind(out, &one.initial.kind())?;
    put_value(out, &one.initial)?;
    Ok(())
}

fn put_value(out: &mut List<u8>, value: &Value) -> Result<(), Memory>
    requires { IsFitting value.now }
    ensures { OnOk result (Writes (value_of (kind_of value.now)) value.now out.old out.new) }
{
    match value {
        Value::Number(number) => put_i64(out, *number),
        Value::Str(text) => put_text(out, text),
        Value::Truth(truth) => put_truth(out, *truth),
    }
}

fn put_functions(out: &mut List<u8>, functions: &List<Signature>) -> Result<(), Memory>
    requires count { length functions.now < 2 ^ 32 }
    requires names { All (λ s. length s.name < 2 ^ 32) functions.now }
    requires fields { All IsFunctionField functions.now }
    requires differ { AreUnique (function_names functions.now) }
    ensures { OnOk result (Writes (many function) functions.now out.old out.new) }
{
    put_count(out, functions.len())?;
    for function in functions.as_slice() {
        put_function(out, function)?;
    }
    Ok(())
}

fn put_function(out: &mut List<u8>, one: &Signature) -> Result<(), Memory>
    requires name { length one.now.name < 2 ^ 32 }
    requires field { IsFunctionField one.now }
    ensures { OnOk result ((before : List Signature) → is_new (function_names before) one.now.name ≡ true → Writes (function before) one.now out.old out.new) }
{
    put_text(out, &one.name)?;
    put_u8(out, one.params.len() as u8)?;
    put_kinds(out, &one.params)?;
    put_kind(out, &one.result)?;
    Ok(())
}

fn put_kinds(out: &mut List<u8>, all: &List<Kind>) -> Result<(), Memory>
    ensures { OnOk result (Writes (times (length all.now) kinds []) all.now out.old out.new) }
{
    for kind in all.as_slice() {
        put_kind(out, kind)?;
    }
    Ok(())
}

fn put_nodes(out: &mut List<u8>, nodes: &List<CodeNode>) -> Result<(), Memory>
    requires count { length nodes.now < 2 ^ 32 }
    requires words { All IsNodeWords nodes.now }
    requires operands { All HasCode nodes.now }
    requires differ { AreUnique (titles_of nodes.now) }
    ensures { OnOk result ((p : Program) → All (IsNodeField p) nodes.now → Writes (many (node (length p.files))) nodes.now out.old out.new) }
{
    put_count(out, nodes.len())?;
    for node in nodes.as_slice() {
        put_node(out, node)?;
    }
    Ok(())
}

fn put_node(out: &mut List<u8>, one: &CodeNode) -> Result<(), Memory>
    requires words { IsNodeWords one.now }
    requires operands { HasCode one.now }
    ensures { OnOk result ((p : Program) (before : List CodeNode) → IsNodeField p one.now → is_new (titles_of before) one.now.title ≡ true
        → Writes (node (length p.files) before) one.now out.old out.new) }
{
    put_text(out, &one.title)?;
    put_u32(out, one.file)?;
    put_count(out, one.code.len())?;
    put_instructions(out, &one.code)?;
    Ok(())
}

fn put_lines(out: &mut List<u8>, lines: &List<BaseLine>) -> Result<(), Memory>
    requires count { length lines.now < 2 ^ 32 }
    requires words { All IsLineWords lines.now }
    requires differ { AreUnique (ids_of lines.now) }
    ensures { OnOk result ((p : Program) → All (IsLineField p) lines.now
        → Writes (many (base_line (length p.files) (length p.nodes))) lines.now out.old out.new) }
{
    put_count(out, lines.len())?;
    for line in lines.as_slice() {
        put_line(out, line)?;
    }
    Ok(())
}

fn put_line(out: &mut List<u8>, one: &BaseLine) -> Result<(), Memory>
    requires words { IsLineWords one.now }
    ensures { OnOk result ((p : Program) (before : List BaseLine) → IsLineField p one.now → is_new (ids_of before) one.now.id ≡ true
        → Writes (base_line (length p.files) (length p.nodes) before) one.now out.old out.new) }
{
    put_text(out, &one.id)?;
    put_u8(out, one.holes)?;
    put_text(out, &one.text)?;
    put_u32(out, one.file)?;
    put_u32(out, one.node)?;
    put_u32(out, one.line)?;
    Ok(())
}

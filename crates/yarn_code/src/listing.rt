//! Lists a program as text.
ghost use Rattle.std.specs.Prelude.{◌≡◌, ◌++◌, ◌∷◌, [], codes, decimal, IfOk, OnOk};
ghost use Rattle.yarn_code.specs.Listing.{IsListing, line, each, file_line, variable_line, function_line, node_lines, instruction_line, base_line, kind_word as word_of_kind, kinds_word, more_kinds, value_word as word_of_value};
ghost use Rattle.yarn_code.specs.ListingSteps.{AddsTold};
ghost use Rattle.yarn_code.specs.ListingText.{listing_of};

use crate::instruction_words::{put_instr, truth_word};
use crate::{CodeNode, Coded, Program, Variable};
use std::alloc::Global;
use yarn_base::{List, Memory, Text};
use yarn_value::{BaseLine, Kind, Signature, Value, quote};

/// The listing of a program (docs/formats.md, Listing), whatever its fields are.
///
/// The only error is want of memory, also for a listing of more than 4,294,967,295 bytes.
#[tactic(auto, using(crate::proofs::ListingLemmas::listing_told))]
pub fn list_program(alloc: Global, program: &Program) -> Result<Text, Memory>
    ensures listing { IfOk result (λ text. IsListing program.now text) }
    ensures value { IfOk result (λ text. text ≡ listing_of program.now) }
{
    listing(alloc, program)
}

fn listing(alloc: Global, program: &Program) -> Result<Text, Memory>
    ensures { IfOk result (λ text. IsListing program.now text) }
{
    let mut out = Text::from_str(alloc, "program YSP1\n")?;
    list_files(alloc, &mut out, &program.files)?;
    list_variables(alloc, &mut out, &program.variables)?;
    list_functions(alloc, &mut out, &program.functions)?;
    list_nodes(alloc, &mut out, &program.nodes)?;
    list_lines(alloc, &mut out, &program.lines)?;
    Ok(out)
}

fn list_files(alloc: Global, out: &mut Text, files: &List<Text>) -> Result<(), Memory>
    ensures { OnOk result (out.new ≡ out.old ++ each file_line 0 files.now) }
{
    for (at, file) in files.as_slice().iter().enumerate() {
        list_file(alloc, out, at, file.as_str())?;
    }
    Ok(())
}

fn list_file(alloc: Global, out: &mut Text, at: usize, name: &str) -> Result<(), Memory>
    ensures { OnOk result (out.new ≡ out.old ++ file_line at name.now) }
{
    let line = format!(in alloc; "file {at} {name}\n")?;
    out.push_str(line.as_str())
}

fn list_variables(alloc: Global, out: &mut Text, variables: &List<Variable>) -> Result<(), Memory>
    ensures { OnOk result (out.new ≡ out.old ++ each variable_line 0 variables.now) }
{
    for variable in variables.as_slice() {
        list_variable(alloc, out, variable)?;
    }
    Ok(())
}

fn list_variable(alloc: Global, out: &mut Text, one: &Variable) -> Result<(), Memory>
    ensures { OnOk result (out.new ≡ out.old ++ variable_line 0 one.now) }
{
    let value = value_word(alloc, &one.initial)?;
    let (name, kind, value) = (
        one.name.as_str(),
        kind_word(one.initial.kind()),
        value.as_str(),
    );
    let line = format!(in alloc; "variable {name} {kind} {value}\n")?;
    out.push_str(line.as_str())
}

// As in a variables file.
fn value_word(alloc: Global, value: &Value) -> Result<Text, Memory>
    ensures { IfOk result (λ text. text ≡ word_of_value value.now) }
{
    match value {
        Value::Number(number) => {
            let digits = format!(in alloc; "{number}")?;
            Text::from_str(alloc, digits.as_str())
        }
        Value::Str(text) => quote(alloc, text),
        Value::Truth(truth) => Text::from_str(alloc, truth_word(*truth)),
    }
}

fn kind_word(kind: Kind) -> &'static str
    ensures { result.now ≡ word_of_kind kind }
{
    match kind {
        Kind::Number => "number",
        Kind::Str => "string",
        Kind::Truth => "bool",
    }
}

fn list_functions(alloc: Global, out: &mut Text, functions: &List<Signature>) -> Result<(), Memory>
    ensures { OnOk result (out.new ≡ out.old ++ each function_line 0 functions.now) }
{
    for function in functions.as_slice() {
        list_function(alloc, out, function)?;
    }
    Ok(())
}

fn list_function(alloc: Global, out: &mut Text, one: &Signature) -> Result<(), Memory>
    ensures { OnOk result (out.new ≡ out.old ++ function_line 0 one.now) }
{
    let params = kinds_of(alloc, one.params.as_slice())?;
    let (name, params, kind) = (one.name.as_str(), params.as_str(), kind_word(one.result));
    let line = format!(in alloc; "function {name}({params}) {kind}\n")?;
    out.push_str(line.as_str())
}

// The kinds with commas between them.
fn kinds_of(alloc: Global, kinds: &[Kind]) -> Result<Text, Memory>
    ensures { IfOk result (λ text. text ≡ kinds_word kinds.now) }
{
    match kinds {
        [] => Text::from_str(alloc, ""),
        [first, others @ ..] => {
            let mut text = Text::from_str(alloc, kind_word(*first))?;
            put_kinds(&mut text, others)?;
            Ok(text)
        }
    }
}

fn put_kinds(out: &mut Text, kinds: &[Kind]) -> Result<(), Memory>
    ensures { OnOk result (out.new ≡ out.old ++ more_kinds kinds.now) }
{
    for kind in kinds {
        out.push_str(",")?;
        out.push_str(kind_word(*kind))?;
    }
    Ok(())
}

fn list_nodes(alloc: Global, out: &mut Text, nodes: &List<CodeNode>) -> Result<(), Memory>
    ensures { OnOk result (AddsTold (λ words. each (node_lines words) 0 nodes.now) out.old out.new) }
{
    for node in nodes.as_slice() {
        list_node(alloc, out, node)?;
    }
    Ok(())
}

fn list_node(alloc: Global, out: &mut Text, one: &CodeNode) -> Result<(), Memory>
    ensures { OnOk result (AddsTold (λ words. node_lines words 0 one.now) out.old out.new) }
{
    list_title(alloc, out, one)?;
    list_code(alloc, out, &one.code)
}

fn list_title(alloc: Global, out: &mut Text, one: &CodeNode) -> Result<(), Memory>
    ensures { OnOk result (out.new ≡ out.old ++ line (codes "node") (one.now.title ∷ decimal one.now.file ∷ [])) }
{
    let (title, file) = (one.title.as_str(), one.file);
    let line = format!(in alloc; "node {title} {file}\n")?;
    out.push_str(line.as_str())
}

fn list_code(alloc: Global, out: &mut Text, code: &List<Coded>) -> Result<(), Memory>
    ensures { OnOk result (AddsTold (λ words. each (instruction_line words) 0 code.now) out.old out.new) }
{
    for (at, one) in code.as_slice().iter().enumerate() {
        list_coded(alloc, out, at, one)?;
    }
    Ok(())
}

fn list_coded(alloc: Global, out: &mut Text, at: usize, one: &Coded) -> Result<(), Memory>
    ensures { OnOk result (AddsTold (λ words. instruction_line words at one.now) out.old out.new) }
{
    let line = one.line;
    let front = format!(in alloc; "  {at} {line}")?;
    out.push_str(front.as_str())?;
    put_instr(alloc, out, &one.instr)?;
    out.push_str("\n")
}

fn list_lines(alloc: Global, out: &mut Text, lines: &List<BaseLine>) -> Result<(), Memory>
    ensures { OnOk result (out.new ≡ out.old ++ each base_line 0 lines.now) }
{
    for line in lines.as_slice() {
        list_line(alloc, out, line)?;
    }
    Ok(())
}

fn list_line(alloc: Global, out: &mut Text, one: &BaseLine) -> Result<(), Memory>
    ensures { OnOk result (out.new ≡ out.old ++ base_line 0 one.now) }
{
    let text = quote(alloc, &one.text)?;
    let (id, holes, text) = (one.id.as_str(), one.holes, text.as_str());
    let line = format!(in alloc; "line {id} {holes} {text}\n")?;
    out.push_str(line.as_str())
}

//! Reads the bytes of a program file as a program.
ghost use Rattle.std.specs.Prelude.{◌≡◌, ◌↔◌, [], nat_lt, nat_le, IsTrue, IfOk, IfErr, IsErrOf};
ghost use Rattle.yarn_code.specs.declared.fault.CodeFault.TheVariants.{NewerFormat};
ghost use Rattle.yarn_code.specs.Decoded.{decoding_of, IsTold};
ghost use Rattle.yarn_code.specs.Decoding.{Gives, IsRefused, IsWhole, is_free, without};
ghost use Rattle.yarn_code.specs.Fields.{HasFields, FitsFile};
ghost use Rattle.yarn_code.specs.Format.{U32, times};
ghost use Rattle.yarn_code.specs.FormatReading.{number_at, read};
ghost use Rattle.yarn_code.specs.Layout.{kinds, file_name, value_of, variable, variable_with, function, function_with, node, node_with, base_line, base_line_with, many, is_mark, is_host_name, program_file};
ghost use Rattle.yarn_code.specs.Spelling.{Spells, IsNewer};

use crate::decoded_code::read_instructions;
use crate::fault::{CodeFault, Stop};
use crate::names::Names;
use crate::reader::{
    read_few, read_filled, read_i64, read_kind, read_short, read_str, read_text, read_truth,
    read_u32, refuse_unless,
};
use crate::{CodeNode, Program, Variable};
use std::alloc::Global;
use yarn_base::{List, Text, is_name, is_variable};
use yarn_expr::is_reserved;
use yarn_value::{Base, BaseLine, Kind, Signature, Signatures, Value, find_builtin};

/// The program that the bytes of a program file spell, all of them (docs/formats.md, Program files).
///
/// `NewerFormat` comes exactly where they begin with `YSP` and one of the digits 2 to 9. Else `BadProgram` tells the place,
/// from 0, of the first byte of the first field that is cut off or isn't as it has to be, or of the first byte behind a
/// program. `Memory` is want of memory.
pub fn decode(alloc: Global, bytes: &List<u8>) -> Result<Program, CodeFault>
    ensures ok { IfOk result (λ program. Spells bytes.now program) }
    ensures fields { IfOk result HasFields }
    ensures words { IfOk result FitsFile }
    ensures err { IfErr result (IsRefused bytes.now) }
    ensures newer { IsNewer bytes.now → IsErrOf result NewerFormat }
    ensures value { IsTold (decoding_of bytes.now) result }
{
    decode_slice(alloc, bytes.as_slice())
}

fn decode_slice(alloc: Global, bytes: &[u8]) -> Result<Program, CodeFault>
    ensures ok { IfOk result (λ program. Spells bytes.now program) }
    ensures fields { IfOk result HasFields }
    ensures words { IfOk result FitsFile }
    ensures err { IfErr result (IsRefused bytes.now) }
    ensures newer { IsNewer bytes.now → IsErrOf result NewerFormat }
    ensures value { IsTold (decoding_of bytes.now) result }
{
    if is_newer(bytes) {
        return Err(CodeFault::NewerFormat);
    }
    match read_whole(alloc, bytes) {
        Ok(program) => Ok(program),
        Err(Stop::Left(left)) => Err(CodeFault::BadProgram(bytes.len() - left)),
        Err(Stop::Memory) => Err(CodeFault::Memory),
    }
}

fn is_newer(bytes: &[u8]) -> bool
    ensures { IsTrue result ↔ IsNewer bytes.now }
{
    matches!(bytes, [b'Y', b'S', b'P', b'2'..=b'9', ..])
}

// The program that all of the bytes spell.
fn read_whole(alloc: Global, bytes: &[u8]) -> Result<Program, Stop>
    ensures { IsWhole bytes.now result }
{
    let (program, rest) = read_program(alloc, bytes)?;
    if !rest.is_empty() {
        return Err(Stop::Left(rest.len()));
    }
    Ok(program)
}

#[tactic(auto, unfolding(crate::specs::Layout::program_file))]
fn read_program(alloc: Global, bytes: &[u8]) -> Result<(Program, &[u8]), Stop>
    ensures { Gives (λ x. (x.0, x.1.now)) result (read program_file bytes.now) }
{
    let (_, rest) = read_mark(bytes)?;
    let (files, rest) = read_files(alloc, rest)?;
    let (variables, rest) = read_variables(alloc, rest)?;
    let (functions, rest) = read_functions(alloc, rest)?;
    let (nodes, rest) = read_nodes(alloc, files.len(), rest)?;
    let (lines, rest) = read_lines(alloc, files.len(), nodes.len(), rest)?;
    let program = Program {
        files,
        variables,
        functions,
        nodes,
        lines,
    };
    Ok((program, rest))
}

fn read_mark(bytes: &[u8]) -> Result<(u32, &[u8]), Stop>
    ensures { Gives (λ x. (x.0, x.1.now)) result (number_at U32 is_mark bytes.now) }
{
    let (mark, rest) = read_u32(bytes)?;
    refuse_unless(mark == u32::from_be_bytes(*b"YSP1"), bytes)?;
    Ok((mark, rest))
}

fn read_files(alloc: Global, bytes: &[u8]) -> Result<(List<Text>, &[u8]), Stop>
    ensures { Gives (λ x. (x.0, x.1.now)) result (read (many file_name) bytes.now) }
{
    let (count, rest) = read_u32(bytes)?;
    read_file_names(alloc, count, rest)
}

fn read_file_names(alloc: Global, count: u32, bytes: &[u8]) -> Result<(List<Text>, &[u8]), Stop>
    ensures { Gives (λ x. (x.0, x.1.now)) result (read (times count file_name []) bytes.now) }
{
    let mut files = Vec::new(alloc);
    let mut rest = bytes;
    for _ in 0..count {
        let (name, after) = read_text(alloc, rest)?;
        files.push(name)?;
        rest = after;
    }
    Ok((List::from_vec(files), rest))
}

fn read_variables(alloc: Global, bytes: &[u8]) -> Result<(List<Variable>, &[u8]), Stop>
    ensures { Gives (λ x. (x.0, x.1.now)) result (read (many variable) bytes.now) }
{
    let (count, rest) = read_u32(bytes)?;
    read_each_variable(alloc, count, rest)
}

fn read_each_variable(
    alloc: Global,
    count: u32,
    bytes: &[u8],
) -> Result<(List<Variable>, &[u8]), Stop>
    ensures { Gives (λ x. (x.0, x.1.now)) result (read (times count variable []) bytes.now) }
{
    let mut variables = Vec::new(alloc);
    let mut names = Names::new(alloc);
    let mut rest = bytes;
    for _ in 0..count {
        let (one, after) = read_variable(alloc, &mut names, rest)?;
        variables.push(one)?;
        rest = after;
    }
    Ok((List::from_vec(variables), rest))
}

fn read_variable<'a>(
    alloc: Global,
    names: &mut Names<'a>,
    bytes: &'a [u8],
) -> Result<(Variable, &'a [u8]), Stop>
    ensures value { Gives (λ x. (x.0, x.1.now)) result (read (variable_with (is_free names.old)) bytes.now) }
    ensures taken { IfOk result (λ x. is_free names.new ≡ without x.0.name (is_free names.old)) }
{
    let (name, rest) = read_str(bytes)?;
    let text = Text::from_str(alloc, name)?;
    refuse_unless(is_variable(&text) && names.is_free(name), bytes)?;
    names.insert(name)?;
    let (kind, rest) = read_kind(rest)?;
    let (initial, rest) = read_value(alloc, kind, rest)?;
    let variable = Variable {
        name: text,
        initial,
    };
    Ok((variable, rest))
}

fn read_value(alloc: Global, kind: Kind, bytes: &[u8]) -> Result<(Value, &[u8]), Stop>
    ensures { Gives (λ x. (x.0, x.1.now)) result (read (value_of kind) bytes.now) }
{
    match kind {
        Kind::Number => {
            let (number, rest) = read_i64(bytes)?;
            Ok((Value::Number(number), rest))
        }
        Kind::Str => {
            let (text, rest) = read_short(alloc, bytes)?;
            Ok((Value::Str(text), rest))
        }
        Kind::Truth => {
            let (truth, rest) = read_truth(bytes)?;
            Ok((Value::Truth(truth), rest))
        }
    }
}

fn read_functions(alloc: Global, bytes: &[u8]) -> Result<(Signatures, &[u8]), Stop>
    ensures { Gives (λ x. (x.0, x.1.now)) result (read (many function) bytes.now) }
{
    let (count, rest) = read_u32(bytes)?;
    read_each_function(alloc, count, rest)
}

fn read_each_function(alloc: Global, count: u32, bytes: &[u8]) -> Result<(Signatures, &[u8]), Stop>
    ensures { Gives (λ x. (x.0, x.1.now)) result (read (times count function []) bytes.now) }
{
    let mut functions = Vec::new(alloc);
    let mut names = Names::new(alloc);
    let mut rest = bytes;
    for _ in 0..count {
        let (one, after) = read_function(alloc, &mut names, rest)?;
        functions.push(one)?;
        rest = after;
    }
    Ok((List::from_vec(functions), rest))
}

fn read_function<'a>(
    alloc: Global,
    names: &mut Names<'a>,
    bytes: &'a [u8],
) -> Result<(Signature, &'a [u8]), Stop>
    ensures value { Gives (λ x. (x.0, x.1.now)) result (read (function_with (is_free names.old)) bytes.now) }
    ensures taken { IfOk result (λ x. is_free names.new ≡ without x.0.name (is_free names.old)) }
{
    let (name, rest) = read_str(bytes)?;
    let text = Text::from_str(alloc, name)?;
    refuse_unless(is_host_name(&text) && names.is_free(name), bytes)?;
    names.insert(name)?;
    let (count, rest) = read_few(rest)?;
    let (params, rest) = read_kinds(alloc, count, rest)?;
    let (result, rest) = read_kind(rest)?;
    let function = Signature {
        name: text,
        params,
        result,
    };
    Ok((function, rest))
}

// Whether a host function may have the name.
#[tactic(auto, unfolding(yarn_value::specs::Builtins::builtin_named))]
fn is_host_name(name: &Text) -> bool
    ensures { result ≡ is_host_name name.now }
{
    is_name(name) && !is_reserved(name.as_str()) && !find_builtin(name.as_str()).is_some()
}

fn read_kinds(alloc: Global, count: u8, bytes: &[u8]) -> Result<(List<Kind>, &[u8]), Stop>
    ensures { Gives (λ x. (x.0, x.1.now)) result (read (times count kinds []) bytes.now) }
{
    let mut all = Vec::new(alloc);
    let mut rest = bytes;
    for _ in 0..count {
        let (kind, after) = read_kind(rest)?;
        all.push(kind)?;
        rest = after;
    }
    Ok((List::from_vec(all), rest))
}

fn read_nodes(alloc: Global, files: usize, bytes: &[u8]) -> Result<(List<CodeNode>, &[u8]), Stop>
    ensures { Gives (λ x. (x.0, x.1.now)) result (read (many (node files)) bytes.now) }
{
    let (count, rest) = read_u32(bytes)?;
    read_each_node(alloc, files, count, rest)
}

fn read_each_node(
    alloc: Global,
    files: usize,
    count: u32,
    bytes: &[u8],
) -> Result<(List<CodeNode>, &[u8]), Stop>
    ensures { Gives (λ x. (x.0, x.1.now)) result (read (times count (node files) []) bytes.now) }
{
    let mut nodes = Vec::new(alloc);
    let mut titles = Names::new(alloc);
    let mut rest = bytes;
    for _ in 0..count {
        let (one, after) = read_node(alloc, files, &mut titles, rest)?;
        nodes.push(one)?;
        rest = after;
    }
    Ok((List::from_vec(nodes), rest))
}

fn read_node<'a>(
    alloc: Global,
    files: usize,
    titles: &mut Names<'a>,
    bytes: &'a [u8],
) -> Result<(CodeNode, &'a [u8]), Stop>
    ensures value { Gives (λ x. (x.0, x.1.now)) result (read (node_with files (is_free titles.old)) bytes.now) }
    ensures taken { IfOk result (λ x. is_free titles.new ≡ without x.0.title (is_free titles.old)) }
{
    let (name, rest) = read_str(bytes)?;
    let title = Text::from_str(alloc, name)?;
    refuse_unless(is_name(&title) && titles.is_free(name), bytes)?;
    titles.insert(name)?;
    let (file, rest) = read_place(files, rest)?;
    let (count, rest) = read_some(rest)?;
    let (code, rest) = read_instructions(alloc, count, rest)?;
    Ok((CodeNode { title, file, code }, rest))
}

// A place in a list of so many parts.
fn read_place(len: usize, bytes: &[u8]) -> Result<(u32, &[u8]), Stop>
    ensures { Gives (λ x. (x.0, x.1.now)) result (number_at U32 (λ n. nat_lt n len) bytes.now) }
{
    let (place, rest) = read_u32(bytes)?;
    refuse_unless((place as usize) < len, bytes)?;
    Ok((place, rest))
}

// A count that is at least 1.
fn read_some(bytes: &[u8]) -> Result<(u32, &[u8]), Stop>
    ensures { Gives (λ x. (x.0, x.1.now)) result (number_at U32 (λ n. nat_le 1 n) bytes.now) }
{
    let (count, rest) = read_u32(bytes)?;
    refuse_unless(1 <= count, bytes)?;
    Ok((count, rest))
}

fn read_lines(
    alloc: Global,
    files: usize,
    nodes: usize,
    bytes: &[u8],
) -> Result<(Base, &[u8]), Stop>
    ensures { Gives (λ x. (x.0, x.1.now)) result (read (many (base_line files nodes)) bytes.now) }
{
    let (count, rest) = read_u32(bytes)?;
    read_each_line(alloc, files, nodes, count, rest)
}

fn read_each_line(
    alloc: Global,
    files: usize,
    nodes: usize,
    count: u32,
    bytes: &[u8],
) -> Result<(Base, &[u8]), Stop>
    ensures { Gives (λ x. (x.0, x.1.now)) result (read (times count (base_line files nodes) []) bytes.now) }
{
    let mut lines = Vec::new(alloc);
    let mut ids = Names::new(alloc);
    let mut rest = bytes;
    for _ in 0..count {
        let (one, after) = read_line(alloc, files, nodes, &mut ids, rest)?;
        lines.push(one)?;
        rest = after;
    }
    Ok((List::from_vec(lines), rest))
}

fn read_line<'a>(
    alloc: Global,
    files: usize,
    nodes: usize,
    ids: &mut Names<'a>,
    bytes: &'a [u8],
) -> Result<(BaseLine, &'a [u8]), Stop>
    ensures value { Gives (λ x. (x.0, x.1.now)) result (read (base_line_with files nodes (is_free ids.old)) bytes.now) }
    ensures taken { IfOk result (λ x. is_free ids.new ≡ without x.0.id (is_free ids.old)) }
{
    let (id, rest) = read_str(bytes)?;
    refuse_unless(1 <= id.len() && ids.is_free(id), bytes)?;
    ids.insert(id)?;
    let (holes, rest) = read_few(rest)?;
    let (text, rest) = read_filled(alloc, holes, rest)?;
    let (file, rest) = read_place(files, rest)?;
    let (node, rest) = read_place(nodes, rest)?;
    let (line, rest) = read_u32(rest)?;
    let one = BaseLine {
        id: Text::from_str(alloc, id)?,
        holes,
        text,
        file,
        node,
        line,
    };
    Ok((one, rest))
}

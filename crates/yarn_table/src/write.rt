//! Writes a base as a table (docs/formats.md, Templates and string tables).
ghost use Rattle.std.specs.Prelude.{◌≡◌, ◌++◌, ℕ, List, IfOk, OnOk, map, Some, All};
ghost use Rattle.csv.specs.Records.{AllText};
ghost use Rattle.csv.specs.Writing.{default_writer, row_text};
ghost use Rattle.yarn_table.specs.Written.{IsReadAgain, IsWithin, line_fields, table_text};
ghost use Rattle.yarn_table.specs.Steps.{Stands};

use csv::{Writer, WriterBuilder};
use std::alloc::Global;
use yarn_base::{List, Memory, Text};
use yarn_value::{Base, BaseLine};

/// The table of a base, with the names of the files and the titles of the nodes of which its rows have the places. The only
/// error is want of memory.
pub fn write_table(
    alloc: Global,
    base: &Base,
    files: &List<Text>,
    nodes: &List<Text>,
) -> Result<List<u8>, Memory>
    requires { All (IsWithin (files.now, nodes.now)) base.now }
    ensures bytes { IfOk result (λ bytes. bytes ≡ table_text (files.now, nodes.now) base.now) }
    ensures read_again { IfOk result (λ bytes. IsReadAgain bytes base.now) }
{
    let mut writer = WriterBuilder::new().from_writer(Vec::new(alloc));
    let header: [&[u8]; 5] = [b"id", b"text", b"file", b"node", b"lineNumber"];
    write_record(&mut writer, &header)?;
    for line in base.as_slice() {
        let file = &files.as_slice()[line.file as usize];
        let node = &nodes.as_slice()[line.node as usize];
        write_line(alloc, &mut writer, line, file, node)?;
    }
    match writer.into_inner() {
        Ok(bytes) => Ok(List::from_vec(bytes)),
        Err(_) => Err(Memory),
    }
}

// Writes a row with the name of its file and the title of its node.
fn write_line<'t>(
    alloc: Global,
    writer: &mut Writer<Vec<u8>>,
    line: &'t BaseLine,
    file: &'t Text,
    node: &'t Text,
) -> Result<(), Memory>
    ensures bytes { (before : List ℕ) → Stands (λ v. Some v.items) writer.old before
        → OnOk result (Stands (λ v. Some v.items) writer.new (before ++ row_text default_writer (line_fields file.now node.now line.now))) }
    ensures texts { OnOk result (AllText (line_fields file.now node.now line.now)) }
{
    let line_number = line.line;
    let number = format!(in alloc; "{line_number}")?;
    let fields: [&[u8]; 5] = [
        line.id.as_str().as_bytes(),
        line.text.as_str().as_bytes(),
        file.as_str().as_bytes(),
        node.as_str().as_bytes(),
        number.as_bytes(),
    ];
    write_record(writer, &fields)
}

// Writes one record; whatever fails over a vector is want of memory.
fn write_record(writer: &mut Writer<Vec<u8>>, fields: &[&[u8]]) -> Result<(), Memory>
    ensures { (before : List ℕ) → Stands (λ v. Some v.items) writer.old before
        → OnOk result (Stands (λ v. Some v.items) writer.new (before ++ row_text default_writer (map (λ f. f.now) fields.now))) }
{
    writer.write_fields(fields).map_err(|_| Memory)
}

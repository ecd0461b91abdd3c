//! A table of files, with what each is read as.
ghost use Rattle.std.specs.Prelude.{All, IfOk};
ghost use Rattle.yarn_table.specs.Tables.{AreDistinct, IsTemplate};

use crate::{StringTable, TableFault, read_table};
use std::alloc::Global;
use std::test::Fail;
use yarn_base::{List, Memory, Text};
use yarn_value::{Base, BaseLine, Value, expand};

// Two rows: `a` with two holes, and `b` with one, whose text has all that CSV has to quote.
fn two_lines(alloc: Global) -> Result<Base, Memory>
    ensures distinct { IfOk result AreDistinct }
    ensures templates { IfOk result (All IsTemplate) }
{
    let first = BaseLine {
        id: Text::from_str(alloc, "a")?,
        holes: 2,
        text: Text::from_str(alloc, "I have {0} of {1}.")?,
        file: 0,
        node: 0,
        line: 5,
    };
    let second = BaseLine {
        id: Text::from_str(alloc, "b")?,
        holes: 1,
        text: Text::from_str(alloc, "=\"{0}\",\r\n")?,
        file: 0,
        node: 0,
        line: 6,
    };
    let mut base = List::new(alloc);
    base.push(first).map_err(|_| Memory)?;
    base.push(second).map_err(|_| Memory)?;
    Ok(base)
}

// The text of an id, with 3 and `apples` in its holes.
fn filled(alloc: Global, table: &StringTable, id: &str) -> Result<Text, Memory> {
    let id = Text::from_str(alloc, id)?;
    let Some(template) = table.text(&id) else {
        return Text::from_str(alloc, "none");
    };
    let mut values = List::new(alloc);
    values.push(Value::Number(3)).map_err(|_| Memory)?;
    if template.holes() == 2 {
        let apples = Value::Str(Text::from_str(alloc, "apples")?);
        values.push(apples).map_err(|_| Memory)?;
    }
    if template.holes() as usize != values.len() {
        return Text::from_str(alloc, "other holes");
    }
    expand(alloc, template, &values)
}

// Both texts, each with a bar behind it.
fn texts(alloc: Global, table: &StringTable) -> Result<Text, Memory> {
    let mut out = Text::from_str(alloc, "")?;
    for id in ["a", "b"] {
        out.push_str(filled(alloc, table, id)?.as_str())?;
        out.push_str("|")?;
    }
    Ok(out)
}

fn fault_text(alloc: Global, fault: &TableFault) -> Result<Text, Memory> {
    let text = match fault {
        TableFault::BadCsv(at) => format!(in alloc; "BadCsv {at}")?,
        TableFault::NoColumn => format!(in alloc; "NoColumn")?,
        TableFault::DuplicateId(id) => format!(in alloc; "DuplicateId {}", id.as_str())?,
        TableFault::MissingId(id) => format!(in alloc; "MissingId {}", id.as_str())?,
        TableFault::BadTemplate(id) => format!(in alloc; "BadTemplate {}", id.as_str())?,
        TableFault::Memory => format!(in alloc; "Memory")?,
    };
    Text::from_string(text).map_err(|_| Memory)
}

// What a file is read as: both texts, or the fault.
fn told(alloc: Global, file: &[u8], base: &Base) -> Result<Text, Memory>
    requires { AreDistinct base.now }
{
    let bytes = List::from_vec(Vec::from_slice(alloc, file)?);
    match read_table(alloc, &bytes, base) {
        Ok(table) => texts(alloc, &table),
        Err(fault) => fault_text(alloc, &fault),
    }
}

#[test]
fn files_are_read(rt: HostRuntime) -> Result<(), Fail> {
    let cases: [(&[u8], &str); 49] = [
        (b"", "NoColumn"),
        (b"\n\n", "NoColumn"),
        (b"\xEF\xBB\xBF", "NoColumn"),
        (b"id\n", "NoColumn"),
        (b"text\n", "NoColumn"),
        (b"id,txt\na,x\nb,y\n", "NoColumn"),
        (b"Id,text\na,x\nb,y\n", "NoColumn"),
        (b" id,text\na,x\nb,y\n", "NoColumn"),
        (b"id, text\na,x\nb,y\n", "NoColumn"),
        (b"id;text\na;x\nb;y\n", "NoColumn"),
        (b"id,text\n", "MissingId a"),
        (b"id,text\nb,y\n", "MissingId a"),
        (b"id,text\na,x\n", "MissingId b"),
        (b"id,text\n a,x\nb,y\n", "MissingId a"),
        (b"id,text\na,x\nb,y\n", "x|y|"),
        (b"id,text\nb,y\na,x\n", "x|y|"),
        (b"text,id\nx,a\ny,b\n", "x|y|"),
        (
            b"text,note,id\n\"{1}: {0}!\",x,a\ny,x,b\nzzz,y,other\n",
            "apples: 3!|y|",
        ),
        (b"id,text,text\na,x,1\nb,y,2\n", "x|y|"),
        (b"id,id,text\na,b,x\nb,a,y\n", "x|y|"),
        (b"id,text\na,x\nb,y", "x|y|"),
        (b"id,text\r\na,x\r\nb,y\r\n", "x|y|"),
        (b"id,text\n\na,x\n\n\nb,y\n", "x|y|"),
        (b"\xEF\xBB\xBFid,text\na,x\nb,y\n", "x|y|"),
        (b"\xEF\xBB\xBF\xEF\xBB\xBFid,text\na,x\nb,y\n", "x|y|"),
        (
            b"\xEF\xBB\xBF\xEF\xBB\xBF\xEF\xBB\xBFid,text\na,x\nb,y\n",
            "NoColumn",
        ),
        (b"\"id\",\"text\"\n\"a\",\"x\"\nb,y\n", "x|y|"),
        (
            b"id,text\na,\"\"\"{1}\"\"\n{0}, =\"\nb,y\n",
            "\"apples\"\n3, =|y|",
        ),
        (b"id,text\na, x \nb,\n", " x ||"),
        (b"id,text\na,\\{0\\}{0}\\[\nb,{0}{0}\n", "{0}3\\[|33|"),
        (b"id,text\na,x\nb,\"y", "x|y|"),
        (b"id,text\na,\"x\nb,y\n", "MissingId b"),
        (b"id,text\na\nb,y\n", "BadCsv 1"),
        (b"id,text\na,x\nb,y,z\n", "BadCsv 2"),
        (b"id,text,\xFF\na,x,\nb,y,\n", "BadCsv 0"),
        (b"id,text\na,x\nb,y\nc,\xFF\n", "BadCsv 3"),
        (b"id,txt\na\n", "BadCsv 1"),
        (b"id,text\na,x\na,x\nb\n", "BadCsv 3"),
        (b"id,text\na,x\na,x\nb,y\n", "DuplicateId a"),
        (b"id,text\nb,y\nb,y\n", "DuplicateId b"),
        (b"id,text\na,x\nb,y\nb,y\na,x\n", "DuplicateId b"),
        (b"id,text\na,{\na,x\nb,y\n", "DuplicateId a"),
        (b"id,text\nc,1\na,x\nc,2\nb,y\n", "x|y|"),
        (b"id,text\na,{\n", "MissingId b"),
        (b"id,text\na,{2}\nb,y\n", "BadTemplate a"),
        (b"id,text\na,x\nb,{1}\n", "BadTemplate b"),
        (b"id,text\nb,{1}\na,{\n", "BadTemplate a"),
        (b"id,text\na,x\nb,{00}\n", "BadTemplate b"),
        (b"id,text\nc,{\na,x\nb,y\n", "x|y|"),
    ];
    let base = two_lines(rt.alloc())?;
    for (file, want) in cases {
        let got = told(rt.alloc(), file, &base)?;
        assert_eq!(rt; got.as_str(), want, "{file:?}");
    }
    Ok(())
}

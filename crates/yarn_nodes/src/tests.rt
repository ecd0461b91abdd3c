//! Each public call once with ample memory.
use crate::{FileRead, Notes, read_lines};
use std::alloc::Global;
use std::process::Abort;
use std::test::Fail;
use yarn_base::{List, Memory, Text};
use yarn_blocks::{BodyWhat, Simple, Stmt, What};
use yarn_lines::split;

const NOTHING: Notes = Notes {
    bad: None,
    many_holes: None,
    misplaced: None,
    too_deep: None,
    too_many: None,
    fraction: None,
    too_large: None,
    mistitled: None,
};

// A line of a body: its number, its indent, and the id of what is said there.
type Expected<'a> = (u32, u32, &'a str);

fn file_read(rt: &impl Abort, alloc: Global, file: &str) -> Result<FileRead, Memory> {
    let mut bytes = List::new(alloc);
    bytes.extend_from_slice(file.as_bytes())?;
    assert!(rt; bytes.len() <= 1073741824);
    let Ok(lines) = split(alloc, &bytes) else {
        panic!(rt; "no lines of {file:?}");
    };
    read_lines(alloc, true, 0, Text::from_str(alloc, "a.yarn")?, lines)
}

fn id_of(alloc: Global, what: BodyWhat<'_>) -> Result<Text, Memory> {
    match what {
        BodyWhat::Statement(Stmt::Line(text)) => text.id.to_text(alloc),
        BodyWhat::Structure(What::Statement(Simple::Line(text)) | What::Offer(text, _)) => {
            text.id.to_text(alloc)
        }
        _ => Text::from_str(alloc, ""),
    }
}

#[test]
fn a_node_has_its_lines(rt: HostRuntime) -> Result<(), Fail> {
    let alloc = rt.alloc();
    let file = "#cast:two\ntitle: Start\n---\nHello there. #line:0a\n-> Ask\n    Yes?\n\
        <<jump Start>>\n===\n";
    let read = file_read(&rt, alloc, file)?;
    assert!(rt; read.notes == NOTHING, "noted");
    assert_eq!(rt; read.file.tags.len(), 1);
    let Some(node) = read.file.nodes.get(0) else {
        panic!(rt; "no node");
    };
    assert_eq!(rt; node.title.as_str(), "Start");
    assert_eq!(rt; node.line, 3);
    assert_eq!(rt; node.end_line, 8);
    let expected: [Expected; 4] = [
        (4, 0, "line:0a"),
        (5, 0, "line:Start-1"),
        (6, 4, "line:Start-2"),
        (7, 0, ""),
    ];
    assert_eq!(rt; node.body.len(), expected.len());
    let mut left = node.body.lines();
    for (line, indent, id) in expected {
        let Some(found) = left.take_first() else {
            panic!(rt; "no line {line}");
        };
        assert_eq!(rt; found.line, line);
        assert_eq!(rt; found.indent, indent, "of line {line}");
        assert_eq!(rt; id_of(alloc, found.what)?.as_str(), id, "of line {line}");
    }
    Ok(())
}

#[test]
fn the_first_line_of_each_kind_is_noted(rt: HostRuntime) -> Result<(), Fail> {
    let alloc = rt.alloc();
    let file = "hello\nagain\ntitle: Start\n---\n<<if true>>\n===\ntitle: two words\n---\n===\n\
        note: x\n";
    let expected = Notes {
        bad: Some(1),
        misplaced: Some(6),
        mistitled: Some(7),
        ..NOTHING
    };
    let read = file_read(&rt, alloc, file)?;
    assert!(rt; read.notes == expected, "not as expected");
    assert_eq!(rt; read.file.nodes.len(), 2);
    Ok(())
}

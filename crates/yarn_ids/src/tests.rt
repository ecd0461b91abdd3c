//! Two small projects, with ample memory.
use crate::base_of;
use std::alloc::Global;
use std::process::Abort;
use std::test::Fail;
use yarn_base::{List, Memory, SourceFile, Text};
use yarn_tree::{Project, read_project};

// A row: its id, its holes, its text, and the places of its file, of its node and of its line.
type Expected<'a> = (&'a str, u8, &'a str, u32, u32, u32);

fn source(alloc: Global, name: &str, text: &str) -> Result<SourceFile, Memory> {
    let mut bytes = List::new(alloc);
    bytes.extend_from_slice(text.as_bytes())?;
    Ok(SourceFile {
        name: Text::from_str(alloc, name)?,
        bytes,
    })
}

fn project(rt: &impl Abort, alloc: Global) -> Result<Project, Memory> {
    let mut files = List::new(alloc);
    let first = "title: Start\n---\n<<declare $n = 3>>\n<<declare $thing = \"apples\">>\n\
        I have {$n} of {$thing}. #line:a1\n===\ntitle: Empty\n---\n===\n";
    files
        .push(source(alloc, "a.yarn", first)?)
        .map_err(|_| Memory)?;
    let second =
        "title: Next\n---\n-> Ask\n    Yes?\n<<wave>>\n<<if true>>\nOne\n<<else>>\nTwo\n<<endif>>\n===\n";
    files
        .push(source(alloc, "b.yarn", second)?)
        .map_err(|_| Memory)?;
    let Ok(project) = read_project(alloc, files, &List::new(alloc)) else {
        panic!(rt; "refused");
    };
    Ok(project)
}

#[test]
fn lines_and_options_are_rows(rt: HostRuntime) -> Result<(), Fail> {
    let alloc = rt.alloc();
    let project = project(&rt, alloc)?;
    let base = base_of(alloc, &project)?;
    let expected: [Expected; 5] = [
        ("line:a1", 2, "I have {0} of {1}.", 0, 0, 5),
        ("line:Next-0", 0, "Ask", 1, 2, 3),
        ("line:Next-1", 0, "Yes?", 1, 2, 4),
        ("line:Next-2", 0, "One", 1, 2, 7),
        ("line:Next-3", 0, "Two", 1, 2, 9),
    ];
    assert_eq!(rt; base.len(), expected.len());
    for (at, row) in base.as_slice().iter().enumerate() {
        let found = (
            row.id.as_str(),
            row.holes,
            row.text.as_str(),
            row.file,
            row.node,
            row.line,
        );
        assert!(rt; at < expected.len());
        assert_eq!(rt; found, expected[at], "of row {at}");
    }
    Ok(())
}

//! A table of bodies with the number of the first tag, and what each becomes.
use crate::{TagFault, tag_file};
use std::alloc::Global;
use std::test::Fail;
use yarn_base::{List, Memory, SourceFile, Text};

fn told(alloc: Global, file: &[u8], start: u32) -> Result<Text, Memory> {
    let source = SourceFile {
        name: Text::from_str(alloc, "a.yarn")?,
        bytes: List::from_vec(Vec::from_slice(alloc, file)?),
    };
    match tag_file(alloc, &source, start) {
        Ok(bytes) => match str::from_utf8(bytes.as_slice()) {
            Ok(text) => Text::from_str(alloc, text),
            Err(_) => Text::from_str(alloc, "no text"),
        },
        Err(fault) => fault_text(alloc, &fault),
    }
}

fn fault_text(alloc: Global, fault: &TagFault) -> Result<Text, Memory> {
    let text = match fault {
        TagFault::Refused(refusal) => format!(in alloc;
            "{:?} {}",
            refusal.kind, refusal.place.line
        )?,
        TagFault::IdsUsedUp => format!(in alloc; "IdsUsedUp")?,
        TagFault::TooLong(line) => format!(in alloc; "TooLong {line}")?,
        TagFault::Memory => format!(in alloc; "Memory")?,
    };
    Text::from_string(text).map_err(|_| Memory)
}

#[test]
fn files_are_tagged(rt: HostRuntime) -> Result<(), Fail> {
    let cases: [(u32, &[u8], &str); 10] = [
        (
            16,
            b"title: A\n---\nHello // hi\n===\n",
            "title: A\n---\nHello #line:0000010 // hi\n===\n",
        ),
        (
            16,
            b"title: A\n---\nHello // hi\nYou #line:0000010\n===\n",
            "title: A\n---\nHello #line:0000011 // hi\nYou #line:0000010\n===\n",
        ),
        (
            255,
            b"\xEF\xBB\xBFtitle: A\r\n---\r\n-> Yes <<if true>>//x\r\n\tGo! #b \t\r\n<<wave>>\r\n===",
            "\u{FEFF}title: A\r\n---\r\n-> Yes <<if true>> #line:00000ff //x\r\n\tGo! #b #line:0000100 \t\r\n<<wave>>\r\n===",
        ),
        (
            171,
            b"title: A\n---\nI have {1} of {2}. #line:a1\n===\n",
            "title: A\n---\nI have {1} of {2}. #line:a1\n===\n",
        ),
        (
            0,
            b"title: A\n---\n-> B #line:0000000\n    C\n-> D#line:0000001\n===\n",
            "title: A\n---\n-> B #line:0000000\n    C #line:0000002\n-> D#line:0000001\n===\n",
        ),
        (
            268435455,
            b"title: A\n---\nHello\n===\n",
            "title: A\n---\nHello #line:fffffff\n===\n",
        ),
        (268435455, b"title: A\n---\nHello\nYou\n===\n", "IdsUsedUp"),
        (268435456, b"title: A\n---\nHello\n===\n", "IdsUsedUp"),
        (268435456, b"title: A\n---\n===\n", "title: A\n---\n===\n"),
        (0, b"title: A\n---\nHello\n", "BadStructure 4"),
    ];
    for (at, case) in cases.iter().enumerate() {
        let text = told(rt.alloc(), case.1, case.0)?;
        assert_eq!(rt; text.as_str(), case.2, "of case {at}");
    }
    Ok(())
}

//! Each public call once with ample memory.
use crate::{LineFault, first_piece, split, text_in};
use std::alloc::Global;
use std::process::Abort;
use std::test::Fail;
use yarn_base::{List, Memory};

// A line that counts: its number, its indent, the place of its text, its text.
type Expected<'a> = (u32, u32, usize, &'a str);

// Bytes, and how often they stand in the file.
type Part<'a> = (&'a [u8], u32);

fn joined(alloc: Global, parts: &[Part]) -> Result<List<u8>, Memory> {
    let mut bytes = List::from_vec(Vec::new(alloc));
    for (part, count) in parts {
        for _ in 0..*count {
            bytes.extend_from_slice(part)?;
        }
    }
    Ok(bytes)
}

fn expect_lines(
    rt: &impl Abort,
    alloc: Global,
    file: &List<u8>,
    end: u32,
    expected: &[Expected],
) -> Result<(), Memory> {
    assert!(rt; file.len() <= 1073741824);
    let shown = file.as_slice();
    let Ok(mut lines) = split(alloc, file) else {
        panic!(rt; "no lines of {shown:?}");
    };
    for (number, indent, at, text) in expected {
        let Some(line) = lines.take_first()? else {
            panic!(rt; "too few lines of {shown:?}");
        };
        assert_eq!(rt; line.number, *number, "of {shown:?}");
        assert_eq!(rt; line.indent, *indent, "of {shown:?}");
        assert_eq!(rt; line.at, *at, "of {shown:?}");
        assert_eq!(rt; line.text.as_str(), *text, "of {shown:?}");
    }
    assert!(rt;
        lines.take_first()?.is_none(),
        "too many lines of {shown:?}"
    );
    assert_eq!(rt; lines.into_end(), end, "of {shown:?}");
    Ok(())
}

#[test]
fn a_file_is_split_into_its_lines(rt: HostRuntime) -> Result<(), Fail> {
    let alloc = rt.alloc();
    let rows: [(&[u8], u32, &[Expected]); 19] = [
        (b"", 1, &[]),
        (b"\n", 2, &[]),
        (b"\n\n", 3, &[]),
        (b"a", 2, &[(1, 0, 0, "a")]),
        (b"a\n", 2, &[(1, 0, 0, "a")]),
        (b"a\n\nb", 4, &[(1, 0, 0, "a"), (3, 0, 3, "b")]),
        (b"a\rb\r\nc", 3, &[(1, 0, 0, "a\rb"), (2, 0, 5, "c")]),
        (b"a\r\r\n", 2, &[(1, 0, 0, "a\r")]),
        (b"a\r", 2, &[(1, 0, 0, "a")]),
        (b"a\r \n", 2, &[(1, 0, 0, "a\r")]),
        (b"a \t \r\n", 2, &[(1, 0, 0, "a")]),
        (b"\t \r\n", 2, &[]),
        (b" \t Hi you\n", 2, &[(1, 10, 3, "Hi you")]),
        (b"\t\ta\n  b", 3, &[(1, 16, 2, "a"), (2, 2, 6, "b")]),
        (
            b"// x\n\t//\n/ x\n/\na // x",
            6,
            &[(3, 0, 9, "/ x"), (4, 0, 13, "/"), (5, 0, 15, "a // x")],
        ),
        (b"\xEF\xBB\xBF", 1, &[]),
        (b"\xEF\xBB\xBF  a\nb", 3, &[(1, 2, 5, "a"), (2, 0, 7, "b")]),
        (
            b"a\n\xEF\xBB\xBFb",
            3,
            &[(1, 0, 0, "a"), (2, 0, 2, "\u{feff}b")],
        ),
        (
            b"\xC3\xBC \n -> \xC3\xBC",
            3,
            &[(1, 0, 0, "ü"), (2, 1, 5, "-> ü")],
        ),
    ];
    for (file, end, expected) in rows {
        expect_lines(&rt, alloc, &joined(alloc, &[(file, 1)])?, end, expected)?;
    }
    Ok(())
}

#[test]
fn bad_and_long_lines_are_refused(rt: HostRuntime) -> Result<(), Fail> {
    let alloc = rt.alloc();
    let rows: [(&[Part], Option<LineFault>); 12] = [
        (&[(b"a", 65536), (b"\n", 1)], None),
        (&[(b"a", 65536)], None),
        (&[(b"\xEF\xBB\xBF", 1), (b"a", 65536)], None),
        (&[(b"a", 65537)], Some(LineFault::LineTooLong(1))),
        (
            &[(b"a", 65536), (b"\r\n", 1)],
            Some(LineFault::LineTooLong(1)),
        ),
        (
            &[(b"a\n", 2), (b"/", 65537), (b"\n", 1)],
            Some(LineFault::LineTooLong(3)),
        ),
        (&[(b"\xC3\xBC", 32769)], Some(LineFault::LineTooLong(1))),
        (
            &[(b"a", 65537), (b"\n\xFF", 1)],
            Some(LineFault::BadUtf8(2)),
        ),
        (&[(b"\xFF", 65537)], Some(LineFault::BadUtf8(1))),
        (&[(b"a\n// \xFF\n\xFF", 1)], Some(LineFault::BadUtf8(2))),
        (&[(b"\xC3\n\xBC", 1)], Some(LineFault::BadUtf8(1))),
        (&[(b"\xEF\xBB", 1)], Some(LineFault::BadUtf8(1))),
    ];
    for (row, (parts, expected)) in rows.iter().enumerate() {
        let file = joined(alloc, parts)?;
        assert!(rt; file.len() <= 1073741824);
        assert_eq!(rt; split(alloc, &file).err(), *expected, "at the row {row}");
    }
    Ok(())
}

#[test]
fn a_line_is_cut_off_and_trimmed(rt: HostRuntime) {
    let rows: [(&[u8], &[u8], &[u8], &[u8]); 4] = [
        (b"\n", b"", b"", b""),
        (b"\t a \r\n b\n", b"\t a \r", b" b\n", b"a"),
        (b"a\nb\nc", b"a", b"b\nc", b"a"),
        (b"a b", b"a b", b"", b"a b"),
    ];
    for (bytes, first, behind, text) in rows {
        assert!(rt; !bytes.is_empty());
        let (piece, after) = first_piece(bytes);
        assert_eq!(rt; piece, first);
        assert_eq!(rt; after, behind);
        assert_eq!(rt; text_in(piece), text);
    }
}

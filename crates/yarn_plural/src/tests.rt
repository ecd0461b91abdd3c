//! Each public call with ample memory: files that are read and refused, and the categories of numbers.
ghost use Rattle.std.specs.Prelude.{◌≤◌, length};

use crate::{Category, Form, PluralFault, PluralTable, english, read_plural};
use std::alloc::Global;
use std::process::Abort;
use std::test::Fail;
use yarn_base::List;

fn table_of(rt: &impl Abort, alloc: Global, file: &[u8]) -> Result<PluralTable, Fail> {
    let bytes = List::from_vec(Vec::from_slice(alloc, file)?);
    assert!(rt; bytes.len() <= 1073741824);
    let found = read_plural(alloc, &bytes);
    assert!(rt; found.is_ok(), "of {file:?}");
    Ok(found?)
}

const DEFAULT: &[u8] = b"cardinal
one: i = 1 and v = 0
other:
ordinal
one: n % 10 = 1 and n % 100 != 11
two: n % 10 = 2 and n % 100 != 12
few: n % 10 = 3 and n % 100 != 13
other:
";

#[test]
fn english_is_the_default_table(rt: HostRuntime) -> Result<(), Fail> {
    let alloc = rt.alloc();
    let table = english(alloc)?;
    let read = table_of(&rt, alloc, DEFAULT)?;
    let rows: [(Form, i64, Category); 15] = [
        (Form::Cardinal, 1, Category::One),
        (Form::Cardinal, -1, Category::One),
        (Form::Cardinal, 0, Category::Other),
        (Form::Cardinal, 2, Category::Other),
        (Form::Cardinal, 11, Category::Other),
        (Form::Ordinal, 1, Category::One),
        (Form::Ordinal, 2, Category::Two),
        (Form::Ordinal, 3, Category::Few),
        (Form::Ordinal, 4, Category::Other),
        (Form::Ordinal, 11, Category::Other),
        (Form::Ordinal, 12, Category::Other),
        (Form::Ordinal, 13, Category::Other),
        (Form::Ordinal, 121, Category::One),
        (Form::Ordinal, 1012, Category::Other),
        (Form::Ordinal, -1023, Category::Few),
    ];
    for (form, number, expected) in rows {
        assert_eq!(rt; table.category(number, form), expected, "of {number}");
        assert_eq!(rt; read.category(number, form), expected, "of {number}");
    }
    Ok(())
}

const SECOND: &[u8] = b"cardinal
one: v = 0 and i % 10 = 1 and i % 100 != 11
few: v = 0 and i % 10 = 2..4 and i % 100 != 12..14
many: v = 0 and i % 10 = 0 or v = 0 and i % 10 = 5..9 or v = 0 and i % 100 = 11..14
other:
";

fn letter(category: Category) -> u8 {
    match category {
        Category::Zero => b'z',
        Category::One => b'o',
        Category::Two => b't',
        Category::Few => b'f',
        Category::Many => b'm',
        Category::Other => b'x',
    }
}

#[test]
fn the_second_table_is_read(rt: HostRuntime) -> Result<(), Fail> {
    let alloc = rt.alloc();
    let table = table_of(&rt, alloc, SECOND)?;
    // From 0 on, and from 100 on.
    let first = b"mofffmmmmmmmmmmmmmmmmofffmmmmmm";
    for from in [0, 100] {
        let mut number = from;
        for expected in first {
            let found = table.category(number, Form::Cardinal);
            assert_eq!(rt; letter(found), *expected, "of {number}");
            assert_eq!(rt; table.category(number, Form::Ordinal), Category::Other);
            number = number.wrapping_add(1);
        }
    }
    assert_eq!(rt; table.category(i64::MAX, Form::Cardinal), Category::Many);
    assert_eq!(rt; table.category(i64::MIN, Form::Cardinal), Category::Many);
    assert_eq!(rt; table.category(-21, Form::Cardinal), Category::One);
    assert_eq!(rt; table.category(-11, Form::Cardinal), Category::Many);
    Ok(())
}

// Lines as they are published for several languages, and the category of a number by the line alone.
#[test]
fn published_lines_are_read(rt: HostRuntime) -> Result<(), Fail> {
    let alloc = rt.alloc();
    let polish =
        "many: v = 0 and i != 1 and i % 10 = 0..1 or v = 0 and i % 10 = 5..9 or v = 0 and i % 100 = 12..14 @integer 0, 5~19, 100, 1000, 10000, 100000, 1000000, …";
    let arabic =
        "few: n % 100 = 3..10 @integer 3~10, 103~110, 1003, … @decimal 3.0, 4.0, 5.0, 6.0, 7.0, 8.0, 9.0, 10.0, 103.0, 1003.0, …";
    let french =
        "many: e = 0 and i != 0 and i % 1000000 = 0 and v = 0 or e != 0..5 @integer 1000000, 1c6, 2c6, 3c6, 4c6, 5c6, 6c6, … @decimal 1.0000001c6, 1.1c6, …";
    let lithuanian =
        "few: n % 10 = 2..9 and n % 100 != 11..19 @integer 2~9, 22~29, 102, 1002, … @decimal 2.0, 3.0, …";
    let breton =
        "few: n % 10 = 3..4,9 and n % 100 != 10..19,70..79,90..99 @integer 3, 4, 9, 23, 24, 29, …";
    let cornish =
        "two: n % 100 = 2,22,42,62,82 or n % 1000 = 0 and n % 100000 = 1000..20000,40000,60000,80000 or n != 0 and n % 1000000 = 100000 @integer 2, 22, …";
    let latvian =
        "zero: n % 10 = 0 or n % 100 = 11..19 or v = 2 and f % 100 = 11..19 @integer 0, 10~20, …";
    let danish = "one: n = 1 or t != 0 and i = 0,1 @integer 1 @decimal 0.1~1.6";
    let slovenian =
        "few: v = 0 and i % 100 = 3..4 or v != 0 @integer 3, 4, 103, … @decimal 0.0~1.5, …";
    let japanese = "other: @integer 0~15, 100, 1000, … @decimal 0.0~1.5, 10.0, …";
    let rows: [(&str, i64, Category); 39] = [
        (polish, 0, Category::Many),
        (polish, 1, Category::Other),
        (polish, 2, Category::Other),
        (polish, 21, Category::Many),
        (polish, 112, Category::Many),
        (arabic, 3, Category::Few),
        (arabic, 110, Category::Few),
        (arabic, 11, Category::Other),
        (french, 1000000, Category::Many),
        (french, 0, Category::Other),
        (french, 1000001, Category::Other),
        (lithuanian, 9, Category::Few),
        (lithuanian, 12, Category::Other),
        (lithuanian, 10, Category::Other),
        (breton, 9, Category::Few),
        (breton, 13, Category::Other),
        (breton, 74, Category::Other),
        (breton, 184, Category::Few),
        (cornish, 82, Category::Two),
        (cornish, 60000, Category::Two),
        (cornish, 300000, Category::Other),
        (latvian, 10, Category::Zero),
        (latvian, 111, Category::Zero),
        (danish, 0, Category::Other),
        (slovenian, 104, Category::Few),
        (japanese, 1, Category::Other),
        ("one: n = 1\ntwo: n = 1,2", 1, Category::One),
        ("one: n = 1\ntwo: n = 1,2", 2, Category::Two),
        ("other:\none: n = 1", -1, Category::One),
        ("other:\none: n = 1", 1, Category::One),
        ("other:\none: n = 1", 2, Category::Other),
        (
            "few: i = 7 and v = 0 and w = 0 and f = 0 and t = 0 and c = 0 and e = 0",
            -7,
            Category::Few,
        ),
        ("many: n % 10 = 8", -9223372036854775808, Category::Many),
        ("one: n = 9..1", 5, Category::Other),
        ("two: n != 9..1,5", 6, Category::Two),
        ("two: n != 9..1,5", 5, Category::Other),
        ("one: n = 1 or n = 2 and n != 1", 1, Category::One),
        ("one: n = 1 or n = 2 and n != 1", 2, Category::One),
        ("one: n = 1 or n = 2 and n != 1", 3, Category::Other),
    ];
    for (line, number, expected) in rows {
        let file = format!(in alloc; "ordinal\n{line}")?;
        let table = table_of(&rt, alloc, file.as_bytes())?;
        assert_eq!(rt;
            table.category(number, Form::Ordinal),
            expected,
            "of {number} by {line}"
        );
    }
    Ok(())
}

fn bad(line: u32) -> Option<PluralFault> {
    Some(PluralFault::BadRule(line))
}

fn repeated(line: u32) -> Option<PluralFault> {
    Some(PluralFault::DuplicateCategory(line))
}

#[test]
fn files_are_refused_at_their_first_line(rt: HostRuntime) -> Result<(), Fail> {
    let alloc = rt.alloc();
    let rows: [(&[u8], Option<PluralFault>); 47] = [
        (b"", None),
        (b"\n \t\r\n# \xC3\xBC : =\n\n \t# x", None),
        (
            b"\t cardinal \r\n one\t:i=1and v!=0 ,2 .. 3@ \xE2\x80\xA6 \r\n",
            bad(2),
        ),
        (
            b"\t cardinal \r\n one\t:i=1 and v!=0 ,2 .. 3@ \xE2\x80\xA6 \r\n",
            None,
        ),
        (
            b"cardinal\none: n = 1\nordinal\none: n = 1\ncardinal\ntwo: n = 2",
            None,
        ),
        (b"ordinal\none i = 1", bad(2)),
        (b"one: n = 1", bad(1)),
        (b"# x\n\none: n = 1\ncardinal", bad(3)),
        (b"ordinal\nother:\nother:", repeated(3)),
        (b"cardinal\none: n = 1\none: n = 1", repeated(3)),
        (
            b"cardinal\nother:\n\nordinal\nother:\ncardinal\nother:",
            repeated(7),
        ),
        (
            b"cardinal\none: n = 1\none: n = 2\none: n = 3\ntwo: n",
            bad(5),
        ),
        (
            b"cardinal\none: n = 1\none: n = 2\none: n = 3\ntwo: n = 1",
            repeated(3),
        ),
        (b"cardinal\nother: n = 1", bad(2)),
        (b"cardinal\none:", bad(2)),
        (b"cardinal\none: @integer 1", bad(2)),
        (b"cardinal @", bad(1)),
        (b"@", bad(1)),
        (b"cardinal # x", bad(1)),
        (b"Cardinal", bad(1)),
        (b"cardinalordinal", bad(1)),
        (b"cardinal\nseveral: n = 1", bad(2)),
        (b"cardinal\none: n % 0 = 0", bad(2)),
        (b"cardinal\none: n % 000 = 0", bad(2)),
        (b"cardinal\none: n % 010 != 9..1", None),
        (b"cardinal\none: n = 999999999999999999", None),
        (b"cardinal\none: n = 000000000000000001", None),
        (b"cardinal\none: n = 1000000000000000000", bad(2)),
        (b"cardinal\none: n = -1", bad(2)),
        (b"cardinal\none: n = 1.5", bad(2)),
        (b"cardinal\none: n = 1...2", bad(2)),
        (b"cardinal\none: n = 1. .2", bad(2)),
        (b"cardinal\none: n = 1..", bad(2)),
        (b"cardinal\none: n ! = 1", bad(2)),
        (b"cardinal\none: n = 1,", bad(2)),
        (b"cardinal\none: n = 1 and", bad(2)),
        (b"cardinal\none: n = 1 or or n = 2", bad(2)),
        (b"cardinal\none: n = 1 n = 2", bad(2)),
        (b"cardinal\none: n = 1and i = 1", bad(2)),
        (b"cardinal\none: n = 1 andi = 1", bad(2)),
        (b"cardinal\none: n10 = 1", bad(2)),
        (b"cardinal\none: x = 1", bad(2)),
        (b"cardinal\none: n is 1", bad(2)),
        (b"cardinal\n# \xFF", bad(2)),
        (b"cardinal\none: n = 1 @\xFF", bad(2)),
        (b"\xEF\xBB\xBFcardinal", bad(1)),
        (b"cardinal\n# x\r", bad(2)),
    ];
    for (file, expected) in rows {
        let bytes = List::from_vec(Vec::from_slice(alloc, file)?);
        assert!(rt; bytes.len() <= 1073741824);
        let found = read_plural(alloc, &bytes);
        assert_eq!(rt; found.err(), expected, "of {file:?}");
    }
    Ok(())
}

#[test]
fn a_range_from_the_larger_holds_of_nothing(rt: HostRuntime) -> Result<(), Fail> {
    let alloc = rt.alloc();
    let table = table_of(
        &rt,
        alloc,
        b"cardinal\none: n = 9..1\ntwo: c = 0 and n != 9..1,5",
    )?;
    assert_eq!(rt; table.category(5, Form::Cardinal), Category::Other);
    assert_eq!(rt; table.category(6, Form::Cardinal), Category::Two);
    Ok(())
}

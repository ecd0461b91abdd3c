//! Each public call once with ample memory.
ghost use Rattle.std.specs.Prelude.{◌≤◌, length};

use crate::{Store, VarsFault, read_vars, write_vars};
use std::alloc::Global;
use std::process::Abort;
use std::test::Fail;
use yarn_base::{List, Memory, Text, is_variable};
use yarn_value::Value;

fn set_number(
    rt: &impl Abort,
    alloc: Global,
    store: &mut Store,
    name: &str,
    number: i64,
) -> Result<(), Memory> {
    let name = Text::from_str(alloc, name)?;
    assert!(rt; is_variable(&name) && name.len() < 4294967296);
    store.set(name, Value::Number(number)).map_err(|_| Memory)?;
    Ok(())
}

fn expect_pairs(rt: &impl Abort, store: &Store, pairs: &[(&str, i64)]) {
    assert_eq!(rt; store.len(), pairs.len());
    for (at, (name, number)) in pairs.iter().enumerate() {
        assert_eq!(rt; store.name_at(at).map(Text::as_str), Some(*name));
        assert_eq!(rt; store.value_at(at), Some(&Value::Number(*number)));
    }
    assert!(rt; store.name_at(pairs.len()).is_none());
}

#[test]
fn names_keep_their_places(rt: HostRuntime) -> Result<(), Fail> {
    let alloc = rt.alloc();
    let mut store = Store::new(alloc);
    set_number(&rt, alloc, &mut store, "$a", 1)?;
    set_number(&rt, alloc, &mut store, "$b", 2)?;
    set_number(&rt, alloc, &mut store, "$a", 3)?;
    expect_pairs(&rt, &store, &[("$a", 3), ("$b", 2)]);
    let name = Text::from_str(alloc, "$b")?;
    assert!(rt; store.get(&name).is_some());
    assert_eq!(rt; store.replace(&name, Value::Number(4)), Value::Number(2));
    assert_eq!(rt; store.get(&name), Some(&Value::Number(4)));
    let copy = store.copy()?;
    store.cut(1);
    expect_pairs(&rt, &store, &[("$a", 3)]);
    expect_pairs(&rt, &copy, &[("$a", 3), ("$b", 4)]);
    assert!(rt; store.get(&name).is_none());
    Ok(())
}

// What a file is written as after it was read, or its first line that is refused.
type Expected<'a> = Result<&'a [u8], VarsFault>;

fn written(alloc: Global, file: &List<u8>) -> Result<List<u8>, VarsFault>
    requires { length file.now ≤ 1073741824 }
{
    let store = read_vars(alloc, file)?;
    Ok(write_vars(alloc, &store)?)
}

fn bad<'a>(line: u32) -> Expected<'a> {
    Err(VarsFault::BadVars(line))
}

#[test]
fn files_are_read_and_written_again(rt: HostRuntime) -> Result<(), Fail> {
    let alloc = rt.alloc();
    let rows: [(&[u8], Expected); 34] = [
        (b"", Ok(b"")),
        (b"\n\r\n\n", Ok(b"")),
        (
            b"$a = -5\n$s = \"x\\\"y\"",
            Ok(b"$a = -5\n$s = \"x\\\"y\"\n"),
        ),
        (
            b"$a = true\r\n\r\n$b = false\r\n",
            Ok(b"$a = true\n$b = false\n"),
        ),
        (b"$b = 0\n$a = 1", Ok(b"$b = 0\n$a = 1\n")),
        (
            b"$a = 9223372036854775807\n$b = -9223372036854775808\n",
            Ok(b"$a = 9223372036854775807\n$b = -9223372036854775808\n"),
        ),
        (b"$s = \"\\\\\\\"\\n\\r\"", Ok(b"$s = \"\\\\\\\"\\n\\r\"\n")),
        (b"$s = \"\"", Ok(b"$s = \"\"\n")),
        (
            b"$\xC3\xBC.x = \" = \xC3\xBC\"",
            Ok(b"$\xC3\xBC.x = \" = \xC3\xBC\"\n"),
        ),
        (b"$a 5", bad(1)),
        (b"$a = 1\n\n$a = 1", bad(3)),
        (b"$a = 1\r", bad(1)),
        (b"\r", bad(1)),
        (b"$a = 1\r\r\n", bad(1)),
        (b" $a = 1", bad(1)),
        (b"$a = 1 ", bad(1)),
        (b"$a  = 1", bad(1)),
        (b"$a =  1", bad(1)),
        (b"$a=1", bad(1)),
        (b"a = 1", bad(1)),
        (b"$ = 1", bad(1)),
        (b"$a = ", bad(1)),
        (b"$a = -", bad(1)),
        (b"$a = -0", bad(1)),
        (b"$a = 00", bad(1)),
        (b"$a = -01", bad(1)),
        (b"$a = +1", bad(1)),
        (b"$a = 9223372036854775808", bad(1)),
        (b"$a = -9223372036854775809", bad(1)),
        (b"$a = True", bad(1)),
        (b"$a = \"\\t\"", bad(1)),
        (b"$a = \"x\" ", bad(1)),
        (b"$a = 1\n$b = \"\xFF\"", bad(2)),
        (b"\xEF\xBB\xBF$a = 1", bad(1)),
    ];
    for (file, expected) in rows {
        let bytes = List::from_vec(Vec::from_slice(alloc, file)?);
        assert!(rt; bytes.len() <= 1073741824);
        let found = written(alloc, &bytes);
        assert_eq!(rt;
            found.as_ref().map(List::as_slice),
            expected.as_ref().map(|text| *text),
            "of {file:?}"
        );
    }
    Ok(())
}

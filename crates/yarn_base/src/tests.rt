//! Each public call once with ample memory, and a table of failing reads and writes.
ghost use Rattle.std.specs.Prelude.{◌≡◌, ◌<◌};

use super::*;
use std::alloc::Global;
use std::marker::Brand;
use std::sync::ledger::{Blank, Ledger};

fn text(alloc: Global, of: &str) -> Result<Text, Memory> {
    Text::from_str(alloc, of)
}

fn bytes(alloc: Global, of: &[u8]) -> Result<List<u8>, Memory> {
    let mut list = List::new(alloc);
    list.extend_from_slice(of)?;
    Ok(list)
}

#[test]
fn texts_and_lists(rt: HostRuntime) -> Result<(), Memory> {
    let alloc = rt.alloc();
    let mut name = text(alloc, "Stra")?;
    assert!(rt; name.push_char('ß').is_ok());
    assert!(rt; name.push_str("e").is_ok());
    assert_eq!(rt; name.as_str(), "Straße");
    assert_eq!(rt; name.len(), 7);
    assert!(rt; name.copy()? == name);
    assert!(rt; Text::from_string(String::from_str(alloc, "Straße")?).is_ok_and(|t| t == name));

    let mut items: List<u64> = List::new(alloc);
    assert!(rt; items.is_empty());
    assert!(rt; items.push(7).is_ok());
    assert!(rt; items.extend_from_slice(&[8, 9]).is_ok());
    assert_eq!(rt; items.len(), 3);
    assert_eq!(rt; items.get(2).copied(), Some(9));
    assert_eq!(rt; items.get(3).copied(), None);
    assert!(rt; items.copy()? == items);
    assert_eq!(rt; List::from_vec(items.into_vec()).as_slice(), &[7, 8, 9][..]);
    Ok(())
}

#[test]
fn names(rt: HostRuntime) -> Result<(), Memory> {
    let alloc = rt.alloc();
    for (of, name) in [
        ("Start", true),
        ("_1.b", true),
        ("Straße", true),
        ("1st", false),
        (".a", false),
        ("a b", false),
        ("", false),
    ] {
        assert_eq!(rt; is_name(&text(alloc, of)?), name, "at {of}");
        assert_eq!(rt; is_name_str(of), name, "at {of}");
        let mut variable = text(alloc, "$")?;
        variable.push_str(of)?;
        assert_eq!(rt; is_variable(&variable), name, "at {of}");
        assert!(rt; !is_variable(&text(alloc, of)?), "at {of}");
    }
    Ok(())
}

// A type that leads back to itself through a list and through a box.
#[derive(Debug, Drop, PartialEq, Eq)]
enum Tree {
    Leaf(u64),
    Row(List<Tree>),
    Inside(Boxed<Tree>),
}

fn inside(alloc: Global, tree: Tree) -> Result<Tree, Memory> {
    match Boxed::new(alloc, tree) {
        Ok(boxed) => Ok(Tree::Inside(boxed)),
        Err(_) => Err(Memory),
    }
}

fn row(alloc: Global, last: u64) -> Result<Tree, Memory> {
    let mut trees = List::new(alloc);
    trees
        .push(inside(alloc, Tree::Leaf(1))?)
        .map_err(|_| Memory)?;
    trees.push(Tree::Leaf(last)).map_err(|_| Memory)?;
    inside(alloc, Tree::Row(trees))
}

#[test]
fn trees(rt: HostRuntime) -> Result<(), Memory> {
    let alloc = rt.alloc();
    assert!(rt; row(alloc, 2)? == row(alloc, 2)?);
    assert!(rt; row(alloc, 2)? != row(alloc, 3)?);
    let Ok(boxed) = Boxed::new(alloc, Tree::Leaf(4)) else {
        return Err(Memory);
    };
    assert!(rt; *boxed.get() == Tree::Leaf(4));
    assert!(rt; boxed.into_inner() == Tree::Leaf(4));
    Ok(())
}

#[test]
fn failing_reads_of_a_source(rt: HostRuntime) -> Result<(), Memory> {
    let alloc = rt.alloc();
    for (nth, answers) in [
        (0, [Ok(1), Ok(1), Ok(0), Ok(0)]),
        (1, [Err(Failed), Ok(1), Ok(1), Ok(0)]),
        (2, [Ok(1), Err(Failed), Ok(1), Ok(0)]),
        (4, [Ok(1), Ok(1), Ok(0), Err(Failed)]),
    ] {
        let mut source = MemorySource::new(alloc, bytes(alloc, b"ab")?, 1);
        source.fail(nth)?;
        let mut read = List::new(alloc);
        for answer in answers {
            let mut piece = [0; 3];
            assert!(rt; source.read(&mut piece) == answer, "at {nth}");
            if answer == Ok(1) {
                read.extend_from_slice(&piece[..1])?;
            }
        }
        assert!(rt; b"ab".starts_with(read.as_slice()), "at {nth}");
    }
    Ok(())
}

#[test]
fn failing_writes_of_a_sink(rt: HostRuntime) -> Result<(), Memory> {
    let alloc = rt.alloc();
    for (nth, written) in [(0, "abc"), (1, ""), (2, "a"), (3, "ab"), (4, "abc")] {
        let mut sink = MemorySink::new(alloc);
        sink.fail(nth)?;
        let mut failed = false;
        for piece in [b"a", b"b", b"c"] {
            failed = failed || write_all(&mut sink, piece).is_err();
            if failed {
                break;
            }
        }
        assert_eq!(rt; failed, 0 < nth && nth < 4, "at {nth}");
        assert_eq!(rt; sink.written().as_slice(), written.as_bytes(), "at {nth}");
    }
    Ok(())
}

#[test]
fn failing_calls_of_files(rt: HostRuntime) -> Result<(), Memory> {
    let alloc = rt.alloc();
    let (a, b) = (text(alloc, "a.yarn")?, text(alloc, "b.yarn")?);
    let mut files = MemoryFiles::new(alloc);
    files.fail_read(2)?;
    files.fail_write(2)?;
    assert!(rt; files.put(a.copy()?, bytes(alloc, b"one")?).is_ok());
    for (name, answer) in [
        (&a, Ok(3)),
        (&a, Err(IoFault::Failed)),
        (&b, Err(IoFault::Failed)),
        (&a, Ok(3)),
    ] {
        let got = files.read(alloc, name, 5).map(|bytes| bytes.len());
        assert!(rt; got == answer);
    }
    assert_eq!(rt; files.read(alloc, &a, 1).map(|bytes| bytes.len()), Ok(2));
    for (of, answer) in [
        (b"two", Ok(())),
        (b"six", Err(IoFault::Failed)),
        (b"ten", Ok(())),
    ] {
        assert!(rt; files.write(&b, &bytes(alloc, of)?) == answer);
    }
    assert!(rt;
        files
            .contents(&b)
            .is_some_and(|found| found.as_slice() == b"ten".as_slice())
    );
    assert!(rt;
        files
            .contents(&a)
            .is_some_and(|found| found.as_slice() == b"one".as_slice())
    );
    Ok(())
}

// Counts for any ledger.
fn counted<L: Ledger>(blank: Blank)
    requires name { blank.name ≡ L.name }
    requires parts { blank.parts ≡ L.parts }
    requires some { 0 < blank.parts }
{
    let mut steps = Steps::<L>::new(blank);
    steps.tick();
}

// Counts for the ledger of a caller that counts nothing.
fn one_step() {
    counted::<Brand>(Blank::new(1));
}

#[test]
fn steps(rt: HostRuntime) {
    let _ = rt;
    one_step();
}

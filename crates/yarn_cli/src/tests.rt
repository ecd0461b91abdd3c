//! Runs that a table of cases can't show: calls that fail, and pieces and files of any size.
ghost use Rattle.std.specs.Prelude.{◌≤◌};

use crate::{CommandKind, Status, read_words, run_yarn};
use std::alloc::Global;
use std::process::Abort;
use std::test::Fail;
use yarn_base::{List, Memory, MemoryFiles, MemorySink, MemorySource, Source, Text, Words};

const HELLO: &str = "title: Start\n---\nHello\n===\n";

const TO_OTHER: &str = "title: Start\n---\nHello\n<<jump Other>>\n===\n";

const OTHER: &str = "title: Other\n---\nThere\n===\n";

const YES_NO: &str = "title: Start\n---\n-> Yes\n    Good. #line:good\n-> No <<if false>>\n===\n";

const GOLD: &str =
    "title: Start\n---\n<<declare $gold = 1>>\n<<declare $who = \"x\">>\n{$gold} {visited_count(\"Start\")}\n<<set $gold += 1>>\n===\n";

const USAGE: &str = "usage: yarn check|format|strings|tag|compile|list|play|run|resume|demo\n";

/// A run over the file `a.yarn`: its name, that file's text, the words; and its status, what it writes and
/// what it says.
type Case<'a> = (&'a str, &'a str, &'a [&'a str], u8, &'a str, &'a str);

// What stands outside of a run.
#[derive(Drop)]
struct Outside {
    files: MemoryFiles,
    input: MemorySource,
    out: MemorySink,
    err: MemorySink,
}

impl Outside {
    fn new(alloc: Global, answers: &str, piece: usize) -> Result<Outside, Memory>
        requires { 1 ≤ piece }
    {
        Ok(Outside {
            files: MemoryFiles::new(alloc),
            input: MemorySource::new(alloc, bytes_of(alloc, answers)?, piece),
            out: MemorySink::new(alloc),
            err: MemorySink::new(alloc),
        })
    }

    fn put(&mut self, alloc: Global, name: &str, bytes: List<u8>) -> Result<(), Memory> {
        let name = Text::from_str(alloc, name)?;
        self.files.put(name, bytes).map_err(|_| Memory)
    }
}

fn bytes_of(alloc: Global, text: &str) -> Result<List<u8>, Memory> {
    Ok(List::from_vec(Vec::from_slice(alloc, text.as_bytes())?))
}

fn make_outside(alloc: Global, first: &str, second: &str) -> Result<Outside, Memory> {
    let mut to = Outside::new(alloc, "1\n2\n", 1)?;
    to.put(alloc, "a.yarn", bytes_of(alloc, first)?)?;
    to.put(alloc, "b.yarn", bytes_of(alloc, second)?)?;
    Ok(to)
}

fn words_of(alloc: Global, words: &[&str]) -> Result<Words, Memory> {
    let mut all = Words::new(alloc);
    for word in words {
        all.push(Text::from_str(alloc, word)?).map_err(|_| Memory)?;
    }
    Ok(all)
}

fn run(alloc: Global, words: &Words, to: &mut Outside) -> Status {
    run_yarn(
        alloc,
        words,
        &mut to.files,
        &mut to.input,
        &mut to.out,
        &mut to.err,
    )
}

fn expect(rt: &impl Abort, name: &str, want: (u8, &str, &str), status: Status, to: &Outside) {
    let (number, out, err) = want;
    assert_eq!(rt; status.code(), number, "{name}");
    assert_eq!(rt; to.out.written().as_slice(), out.as_bytes(), "{name}");
    assert_eq!(rt; to.err.written().as_slice(), err.as_bytes(), "{name}");
}

#[test]
fn a_command_has_its_pairs_and_names(rt: HostRuntime) -> Result<(), Fail> {
    let alloc = rt.alloc();
    let words = words_of(alloc, &["play", "--limit", "7", "a.yarn"])?;
    let Some(command) = read_words(alloc, &words)? else {
        return Err(Fail::new("these words are a command"));
    };
    let limit = command.pair(&Text::from_str(alloc, "limit")?);
    assert_eq!(&rt; limit.map(|word| word.as_str()), Some("7"), "the limit");
    assert_eq!(&rt; command.names().len(), 1, "the names");
    assert_eq!(&rt; command.kind(), CommandKind::Play, "the kind");
    Ok(())
}

// Each of the runs ends as its row says.
fn expect_all(rt: &impl Abort, alloc: Global, cases: &[Case]) -> Result<(), Memory> {
    for case in cases {
        let (name, text, words, number, out, err) = *case;
        let mut to = make_outside(alloc, text, HELLO)?;
        let status = run(alloc, &words_of(alloc, words)?, &mut to);
        expect(rt, name, (number, out, err), status, &to);
    }
    Ok(())
}

#[test]
fn each_command_runs(rt: HostRuntime) -> Result<(), Fail> {
    let cases: [Case; 4] = [
        ("play", HELLO, &["play", "a.yarn"], 0, "Hello\n", ""),
        ("check", HELLO, &["check", "a.yarn"], 0, "ok 1 1 0\n", ""),
        ("format", HELLO, &["format", "a.yarn"], 0, HELLO, ""),
        ("no file", HELLO, &["play"], 5, "", USAGE),
    ];
    expect_all(&rt, rt.alloc(), &cases)?;
    Ok(())
}

/// A play of YES_NO: the words, the answers; the status, what is written, what is said, and the answers that are left.
type AnswersCase<'a> = (&'a [&'a str], &'a str, u8, &'a str, &'a str, &'a str);

// The bytes that are left, of which there are at most ten.
fn left_in(alloc: Global, input: &mut MemorySource) -> Result<List<u8>, Memory> {
    let mut left = List::new(alloc);
    for _ in 0..10 {
        let mut byte = [0u8];
        if let Ok(1) = input.read(&mut byte) {
            left.push(byte[0]).map_err(|_| Memory)?;
        }
    }
    Ok(left)
}

// The play ends as its row says, where the answers come in pieces of that size.
fn expect_answered(
    rt: &impl Abort,
    alloc: Global,
    case: &AnswersCase,
    piece: usize,
) -> Result<(), Memory>
    requires { 1 ≤ piece }
{
    let (words, answers, number, out, err, left) = *case;
    let mut to = Outside::new(alloc, answers, piece)?;
    to.put(alloc, "a.yarn", bytes_of(alloc, YES_NO)?)?;
    let status = run(alloc, &words_of(alloc, words)?, &mut to);
    expect(rt, answers, (number, out, err), status, &to);
    assert_eq!(rt;
        left_in(alloc, &mut to.input)?.as_slice(),
        left.as_bytes(),
        "{answers}"
    );
    Ok(())
}

#[test]
fn answers_are_taken_in_any_pieces(rt: HostRuntime) -> Result<(), Fail> {
    let alloc = rt.alloc();
    let play: &[&str] = &["play", "a.yarn"];
    let offered = "1) Yes\n2) [closed] No\n";
    let cases: [AnswersCase; 6] = [
        (play, "1\n", 0, "1) Yes\n2) [closed] No\nGood.\n", "", ""),
        (
            play,
            "1\n2\n",
            0,
            "1) Yes\n2) [closed] No\nGood.\n",
            "",
            "2\n",
        ),
        (
            play,
            "9\nx\n",
            3,
            "1) Yes\n2) [closed] No\n(no such choice)\n(no such choice)\n",
            "waiting for a choice\n",
            "",
        ),
        (
            play,
            "2\n1\n",
            0,
            "1) Yes\n2) [closed] No\n(no such choice)\nGood.\n",
            "",
            "",
        ),
        (play, "", 3, offered, "waiting for a choice\n", ""),
        (
            &["play", "--limit", "2", "a.yarn"],
            "1\n",
            4,
            offered,
            "event limit\n",
            "1\n",
        ),
    ];
    for case in &cases {
        expect_answered(&rt, alloc, case, 1)?;
        expect_answered(&rt, alloc, case, 100)?;
    }
    Ok(())
}

// The call that fails.
#[derive(Clone, Copy, Debug)]
enum Fails {
    Read(u64),
    Write,
    Input,
    Output,
    Message,
}

impl Outside {
    fn fail(&mut self, call: Fails) -> Result<(), Memory> {
        match call {
            Fails::Read(nth) => self.files.fail_read(nth),
            Fails::Write => self.files.fail_write(1),
            Fails::Input => self.input.fail(1),
            Fails::Output => self.out.fail(1),
            Fails::Message => self.err.fail(1),
        }
    }
}

/// A run over `a.yarn` with that text: the call that fails, the text, the words, and how it ends.
type FailsCase<'a> = (Fails, &'a str, &'a [&'a str], u8, &'a str, &'a str);

#[test]
fn a_call_that_fails_is_told(rt: HostRuntime) -> Result<(), Fail> {
    let alloc = rt.alloc();
    let play: &[&str] = &["play", "a.yarn", "b.yarn"];
    let format: &[&str] = &["format", "a.yarn"];
    let save: &[&str] = &["play", "--save-vars", "w.txt", "a.yarn"];
    let cases: [FailsCase; 7] = [
        (
            Fails::Read(1),
            TO_OTHER,
            play,
            6,
            "",
            "cannot read a.yarn\n",
        ),
        (
            Fails::Read(2),
            "hello\n",
            play,
            6,
            "",
            "cannot read b.yarn\n",
        ),
        (
            Fails::Input,
            YES_NO,
            play,
            6,
            "1) Yes\n2) [closed] No\n",
            "cannot read input\n",
        ),
        (Fails::Write, GOLD, save, 7, "1 0\n", "cannot write w.txt\n"),
        (
            Fails::Output,
            TO_OTHER,
            play,
            7,
            "",
            "cannot write output\n",
        ),
        (
            Fails::Output,
            TO_OTHER,
            format,
            7,
            "",
            "cannot write output\n",
        ),
        (Fails::Message, "hello\n", format, 7, "", ""),
    ];
    for (call, text, words, number, out, err) in cases {
        let mut to = make_outside(alloc, text, OTHER)?;
        to.fail(call)?;
        let status = run(alloc, &words_of(alloc, words)?, &mut to);
        expect(&rt, err, (number, out, err), status, &to);
    }
    Ok(())
}

//! Each public call once with ample memory.
ghost use Rattle.std.specs.Prelude.{◌≡◌, IfOk};
ghost use Rattle.yarn_blocks.specs.Entries.{HaveLines, line_in};

use crate::{
    BodyLine, BodyLines, BodyWhat, Entry, Excess, LineId, LineText, Mark, OptionItem, Shape,
    SharedText, Simple, Stmt, Verdict, What, build, judge,
};
use std::alloc::Global;
use std::process::Abort;
use std::test::Fail;
use yarn_base::{List, Memory, Text};

// Indents and shapes.
type Body<'a> = &'a [(u32, Shape)];

const FINE: Verdict = Verdict::Block(Excess {
    too_deep: None,
    too_many: None,
});

// In lines from 1 on.
fn marks_in(alloc: Global, body: Body) -> Result<Vec<Mark>, Memory> {
    let mut marks = Vec::new(alloc);
    let mut line: u32 = 0;
    for (indent, shape) in body {
        line = line.saturating_add(1);
        marks.push(Mark {
            line,
            indent: *indent,
            shape: *shape,
        })?;
    }
    Ok(marks)
}

#[test]
fn bodies_are_judged(rt: HostRuntime) -> Result<(), Fail> {
    use Shape::{Else, ElseIf, EndIf, If, Offer, Statement};
    let alloc = rt.alloc();
    let rows: [(Body, Verdict); 27] = [
        (&[], FINE),
        (&[(8, Statement), (4, Statement), (0, Statement)], FINE),
        // lines of an `if` that isn't there
        (&[(0, ElseIf)], Verdict::Bad(0, 1)),
        (&[(0, Else)], Verdict::Bad(0, 1)),
        (&[(0, Statement), (0, EndIf)], Verdict::Bad(1, 2)),
        (&[(0, If), (0, EndIf), (0, EndIf)], Verdict::Bad(2, 3)),
        // `else` twice, `elseif` after `else`
        (&[(0, If), (0, Else), (0, Else)], Verdict::Bad(2, 3)),
        (&[(0, If), (0, Else), (0, ElseIf)], Verdict::Bad(2, 3)),
        // a whole `if`, whatever its indents
        (
            &[
                (8, If),
                (0, Statement),
                (4, ElseIf),
                (2, ElseIf),
                (0, Else),
                (6, Statement),
                (1, EndIf),
            ],
            FINE,
        ),
        // an `if` that stands open at the end
        (&[(0, If)], Verdict::Unfinished),
        (&[(0, If), (0, ElseIf)], Verdict::Unfinished),
        (&[(0, If), (0, Else), (0, Statement)], Verdict::Unfinished),
        (&[(0, Offer), (4, If)], Verdict::Unfinished),
        // an option in a clause: a deeper line of the `if` would belong to the option's run
        (&[(0, If), (0, Offer), (4, EndIf)], Verdict::Bad(2, 3)),
        (&[(0, If), (0, Offer), (4, Else)], Verdict::Bad(2, 3)),
        (&[(0, If), (0, Offer), (4, ElseIf)], Verdict::Bad(2, 3)),
        (&[(0, If), (0, Offer), (0, EndIf)], FINE),
        (
            &[(4, If), (2, Offer), (4, Statement), (2, Else), (0, EndIf)],
            FINE,
        ),
        // an `if` in an option's run: a line that isn't deeper would end the run
        (&[(0, Offer), (4, If), (0, EndIf)], Verdict::Bad(2, 3)),
        (&[(0, Offer), (4, If), (0, Statement)], Verdict::Bad(2, 3)),
        (&[(0, Offer), (4, If), (0, Offer)], Verdict::Bad(2, 3)),
        (&[(0, Offer), (4, If), (1, EndIf)], FINE),
        (&[(0, Offer), (4, If), (8, Offer), (4, EndIf)], FINE),
        (
            &[(0, Offer), (4, If), (2, Offer), (4, EndIf)],
            Verdict::Bad(3, 4),
        ),
        // deeper lines before an option, and lines of its own indent behind it
        (&[(8, Statement), (8, If), (4, EndIf), (0, Offer)], FINE),
        (&[(4, Offer), (4, Statement), (0, Offer), (2, Offer)], FINE),
        (&[(0, Offer), (0, EndIf)], Verdict::Bad(1, 2)),
    ];
    for (body, verdict) in rows {
        let marks = marks_in(alloc, body)?;
        assert!(rt;
            judge(alloc, marks.as_slice()) == Ok(verdict),
            "of {body:?}"
        );
    }
    Ok(())
}

// So many lines of each shape, without indents, in lines from 1 on.
fn repeated(alloc: Global, parts: &[(u32, Shape)]) -> Result<Vec<Mark>, Memory> {
    let mut marks = Vec::new(alloc);
    let mut line: u32 = 0;
    for (count, shape) in parts {
        for _ in 0..*count {
            line = line.saturating_add(1);
            marks.push(Mark {
                line,
                indent: 0,
                shape: *shape,
            })?;
        }
    }
    Ok(marks)
}

fn over(too_deep: Option<u32>, too_many: Option<u32>) -> Verdict {
    Verdict::Block(Excess { too_deep, too_many })
}

#[test]
fn limits_are_told(rt: HostRuntime) -> Result<(), Fail> {
    use Shape::{EndIf, If, Offer, Statement};
    let alloc = rt.alloc();
    let rows: [(&[(u32, Shape)], Verdict); 9] = [
        (&[(64, Offer)], FINE),
        (&[(65, Offer)], over(None, Some(65))),
        (&[(70, Offer)], over(None, Some(65))),
        (&[(64, Offer), (1, Statement), (1, Offer)], FINE),
        (&[(64, If), (1, Statement), (64, EndIf)], FINE),
        (&[(65, If), (65, EndIf)], FINE),
        (
            &[(65, If), (1, Statement), (65, EndIf)],
            over(Some(66), None),
        ),
        (&[(100000, If)], Verdict::Unfinished),
        (
            &[(100000, If), (65, Offer), (100000, EndIf)],
            over(Some(66), Some(100065)),
        ),
    ];
    for (parts, verdict) in rows {
        let marks = repeated(alloc, parts)?;
        assert!(rt;
            judge(alloc, marks.as_slice()) == Ok(verdict),
            "of {parts:?}"
        );
    }
    Ok(())
}

fn text(alloc: Global, line: u32, words: &str) -> Result<LineText, Memory>
    ensures { IfOk result (λ text. text.line ≡ line) }
{
    Ok(LineText {
        line,
        id: LineId::none(),
        text: Text::from_str(alloc, words)?,
        holes: List::new(alloc),
        tags: List::new(alloc),
    })
}

fn option(alloc: Global, line: u32, indent: u32, words: &str) -> Result<Entry, Memory>
    ensures { IfOk result (λ x. x.line ≡ line_in x.what) }
{
    let what = What::Offer(text(alloc, line, words)?, None);
    Ok(Entry { line, indent, what })
}

fn said(alloc: Global, line: u32, indent: u32, words: &str) -> Result<Entry, Memory>
    ensures { IfOk result (λ x. x.line ≡ line_in x.what) }
{
    let what = What::Statement(Simple::Line(text(alloc, line, words)?));
    Ok(Entry { line, indent, what })
}

fn lines_of(alloc: Global, entries: List<Entry>) -> Result<BodyLines, Memory>
    ensures { IfOk result (λ lines. lines ≡ entries) }
{
    let mut lines = BodyLines::new(alloc);
    for entry in entries.into_vec() {
        lines.push(entry)?;
    }
    Ok(lines)
}

// The statements, where the lines are a block that is nowhere too deep.
#[tactic(auto, using(crate::proofs::Outlines::marks_tell))]
fn statements(alloc: Global, lines: BodyLines) -> Result<Option<List<Stmt>>, Memory>
    requires { HaveLines lines }
{
    match lines.verdict(alloc)? {
        Verdict::Block(
            Excess {
                too_deep: None,
                too_many: _,
            },
        ) => Ok(Some(build(alloc, lines)?)),
        _ => Ok(None),
    }
}

fn options<'a>(rt: &impl Abort, stmts: &'a List<Stmt>, at: usize) -> &'a List<OptionItem> {
    match stmts.get(at) {
        Some(Stmt::Options(group)) => group,
        _ => panic!(rt; "no group at {at}"),
    }
}

fn body<'a>(rt: &impl Abort, group: &'a List<OptionItem>, at: usize) -> &'a List<Stmt> {
    match group.get(at) {
        Some(option) => &option.body,
        None => panic!(rt; "no option at {at}"),
    }
}

fn is_line(stmts: &List<Stmt>, at: usize, words: &str) -> bool {
    match stmts.get(at) {
        Some(Stmt::Line(text)) => text.text.as_str() == words,
        _ => false,
    }
}

#[test]
fn options_are_grouped(rt: HostRuntime) -> Result<(), Fail> {
    let alloc = rt.alloc();
    let entries = vec![in alloc;
        option(alloc, 1, 0, "Tea")?,
        said(alloc, 2, 4, "Hot.")?,
        option(alloc, 3, 8, "Milk")?,
        said(alloc, 4, 16, "White.")?,
        option(alloc, 5, 4, "Plain")?,
        said(alloc, 6, 8, "Black.")?,
        option(alloc, 7, 2, "Water")?,
        said(alloc, 8, 4, "Cold.")?,
        said(alloc, 9, 0, "Done.")?,
    ]?;
    let lines = lines_of(alloc, List::from_vec(entries))?;
    let Some(whole) = statements(alloc, lines)? else {
        panic!(rt; "no tree");
    };
    assert_eq!(rt; whole.len(), 2);
    assert!(rt; is_line(&whole, 1, "Done."), "behind the group");
    let drinks = options(&rt, &whole, 0);
    assert_eq!(rt; drinks.len(), 1);
    let tea = body(&rt, drinks, 0);
    assert!(rt; is_line(tea, 0, "Hot."), "in Tea");
    let kinds = options(&rt, tea, 1);
    assert_eq!(rt; kinds.len(), 3);
    assert!(rt; is_line(body(&rt, kinds, 0), 0, "White."), "in Milk");
    assert!(rt; is_line(body(&rt, kinds, 1), 0, "Black."), "in Plain");
    assert!(rt; is_line(body(&rt, kinds, 2), 0, "Cold."), "in Water");
    Ok(())
}

fn is_statement(line: Option<BodyLine>) -> bool {
    match line {
        Some(line) => matches!(line.what, BodyWhat::Statement(_)),
        None => false,
    }
}

// A statement, an option and a statement behind it.
fn three(alloc: Global) -> Result<BodyLines, Memory>
    ensures { IfOk result HaveLines }
{
    let mut lines = BodyLines::new(alloc);
    lines.push(said(alloc, 1, 4, "One.")?)?;
    lines.push(option(alloc, 2, 0, "Two")?)?;
    lines.push(said(alloc, 3, 0, "Three.")?)?;
    Ok(lines)
}

#[test]
fn lines_are_looked_at(rt: HostRuntime) -> Result<(), Fail> {
    let lines = three(rt.alloc())?;
    assert_eq!(rt; lines.len(), 3);
    let mut left = lines.lines();
    assert!(rt; is_statement(left.take_first()), "in front");
    assert!(rt; !is_statement(left.take_first()), "the option");
    assert!(rt; !is_statement(left.take_first()), "behind it");
    assert!(rt; left.take_first().is_none(), "at the end");
    Ok(())
}

#[test]
fn statements_in_front_are_built(rt: HostRuntime) -> Result<(), Fail> {
    let alloc = rt.alloc();
    let Some(whole) = statements(alloc, three(alloc)?)? else {
        panic!(rt; "no tree");
    };
    assert!(rt; is_line(&whole, 0, "One."), "in front");
    assert_eq!(rt; options(&rt, &whole, 1).len(), 1);
    assert!(rt; is_line(&whole, 2, "Three."), "behind it");
    Ok(())
}

#[test]
fn ids_are_written_out(rt: HostRuntime) -> Result<(), Fail> {
    let alloc = rt.alloc();
    let title = SharedText::new(alloc, Text::from_str(alloc, "Start")?)?;
    let rows = [
        (LineId::none(), ""),
        (
            LineId::own(alloc, Text::from_str(alloc, "line:a")?)?,
            "line:a",
        ),
        (LineId::placed(title.share()?, 12), "line:Start-12"),
        (LineId::placed(title, 0), "line:Start-0"),
    ];
    for (id, written) in &rows {
        assert!(rt; id.to_text(alloc)?.as_str() == *written, "{written:?}");
    }
    Ok(())
}

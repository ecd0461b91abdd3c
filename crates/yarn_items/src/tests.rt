//! Each public call once with ample memory.
use crate::{Found, Item, Literals, Mode, Said, read_item};
use std::alloc::Global;
use std::process::Abort;
use std::test::Fail;
use yarn_base::{List, Memory, Text};
use yarn_commands::{Command, print_command};
use yarn_expr::{Expr, print_expr};

// A part of an item, behind a `|`.
fn push_part(shown: &mut Text, part: &str) -> Result<(), Memory> {
    shown.push_str("|")?;
    shown.push_str(part)?;
    Ok(())
}

fn push_holes(alloc: Global, shown: &mut Text, holes: &List<Expr>) -> Result<(), Memory> {
    for hole in holes.as_slice() {
        let hole = print_expr(alloc, hole)?;
        push_part(shown, hole.as_str())?;
    }
    Ok(())
}

fn push_tags(shown: &mut Text, tags: &List<Text>) -> Result<(), Memory> {
    for tag in tags.as_slice() {
        push_part(shown, "#")?;
        shown.push_str(tag.as_str())?;
    }
    Ok(())
}

fn push_condition(alloc: Global, shown: &mut Text, condition: &Option<Expr>) -> Result<(), Memory> {
    if let Some(condition) = condition {
        let condition = print_expr(alloc, condition)?;
        push_part(shown, "if ")?;
        shown.push_str(condition.as_str())?;
    }
    Ok(())
}

// What is said, and the expressions of its substitutions.
fn said_in(alloc: Global, kind: &str, said: &Said) -> Result<Text, Memory> {
    let mut shown = Text::from_str(alloc, kind)?;
    shown.push_str(said.text.as_str())?;
    push_holes(alloc, &mut shown, &said.holes)?;
    Ok(shown)
}

fn command_in(alloc: Global, command: &Command) -> Result<Text, Memory> {
    let mut shown = Text::from_str(alloc, "command ")?;
    let content = print_command(alloc, command)?;
    shown.push_str(content.as_str())?;
    Ok(shown)
}

fn heading_in(alloc: Global, item: &Item) -> Result<Text, Memory> {
    match item {
        Item::FileTag(tag) => {
            let mut shown = Text::from_str(alloc, "tag ")?;
            shown.push_str(tag.as_str())?;
            Ok(shown)
        }
        Item::Header(header) => {
            let mut shown = Text::from_str(alloc, "header ")?;
            shown.push_str(header.key.as_str())?;
            push_part(&mut shown, header.value.as_str())?;
            Ok(shown)
        }
        Item::BodyBegins => Text::from_str(alloc, "begin"),
        _ => Text::from_str(alloc, "end"),
    }
}

fn body_in(alloc: Global, item: &Item) -> Result<Text, Memory> {
    match item {
        Item::Line(said) => {
            let mut shown = said_in(alloc, "line ", said)?;
            push_tags(&mut shown, &said.tags)?;
            Ok(shown)
        }
        Item::Offer(said, condition) => {
            let mut shown = said_in(alloc, "option ", said)?;
            push_condition(alloc, &mut shown, condition)?;
            push_tags(&mut shown, &said.tags)?;
            Ok(shown)
        }
        Item::Command(command, tags) => {
            let mut shown = command_in(alloc, command)?;
            push_tags(&mut shown, tags)?;
            Ok(shown)
        }
        Item::Game(said) => {
            let mut shown = said_in(alloc, "game ", said)?;
            push_tags(&mut shown, &said.tags)?;
            Ok(shown)
        }
        _ => heading_in(alloc, item),
    }
}

fn push_literals(shown: &mut Text, literals: Literals) -> Result<(), Memory> {
    if literals.fraction {
        push_part(shown, "fraction")?;
    }
    if literals.too_large {
        push_part(shown, "too large")?;
    }
    Ok(())
}

fn shown(alloc: Global, found: &Option<Found>) -> Result<Text, Memory> {
    match found {
        Some(found) => {
            let mut shown = body_in(alloc, &found.item)?;
            push_literals(&mut shown, found.literals)?;
            Ok(shown)
        }
        None => Text::from_str(alloc, "nothing"),
    }
}

const HEADINGS: &[(&str, &str)] = &[
    ("---", "begin"),
    ("===", "end"),
    ("=== // x", "nothing"),
    ("#tag", "tag tag"),
    ("#a//b", "tag a//b"),
    ("# tag", "nothing"),
    ("#tag x", "nothing"),
    ("#a#b", "nothing"),
    ("#", "nothing"),
    ("title:Start", "header title|Start"),
    ("title \t:  Start // x", "header title|Start // x"),
    ("überschrift: ß", "header überschrift|ß"),
    ("a.b_1:", "header a.b_1|"),
    ("a: b: c", "header a|b: c"),
    (": x", "nothing"),
    ("a b: c", "nothing"),
    ("1a: b", "nothing"),
    ("title: a\rb", "nothing"),
    ("hello", "nothing"),
    ("-> a", "nothing"),
    ("<<stop>>", "nothing"),
];

const LINES: &[(&str, &str)] = &[
    ("Hi you", "line Hi you"),
    ("---", "line ---"),
    ("===", "end"),
    ("=== // x", "nothing"),
    ("=== #a", "nothing"),
    ("====", "line ===="),
    ("a\rb", "nothing"),
    ("-\\> not", "line -> not"),
    ("a -> b", "line a -> b"),
    ("a\\", "line a\\"),
    ("\\a \\\\#", "nothing"),
    ("\\a \\\\ #b", "line \\a \\\\|#b"),
    ("\\[a\\] \\{b\\} \\< \\/", "line \\[a\\] \\{b\\} < /"),
    ("#", "nothing"),
    ("#a", "nothing"),
    ("a #", "nothing"),
    ("a# b", "nothing"),
    ("a #b#c \t#d", "line a|#b|#c|#d"),
    ("a #b //c", "line a|#b"),
    ("x #a//b", "line x|#a//b"),
    ("a #b c", "nothing"),
    ("a #b {1} <<if x>>", "nothing"),
    ("x // y", "line x"),
    ("x//#y {", "line x"),
    ("x / y <", "line x / y <"),
    ("\\///x", "line /"),
    (" a \\# #x", "line a #|#x"),
    ("a #line:1 #b", "line a|#line:1|#b"),
    ("a #line:1 #line:1", "nothing"),
    ("a #line:", "nothing"),
    ("a } b", "line a } b"),
    ("ä \\#ü", "line ä #ü"),
    ("<", "line <"),
];

const HOLES: &[(&str, &str)] = &[
    ("{1 + 2}", "line {0}|1 + 2"),
    ("a {1}{ $b } #c", "line a {0}{1}|1|$b|#c"),
    ("{\"}\"}", "line {0}|\"}\""),
    ("{\"\\\"}\"}", "line {0}|\"\\\"}\""),
    ("a {1", "nothing"),
    ("a {\"}", "nothing"),
    ("a {}", "nothing"),
    ("a {1 +}", "nothing"),
    ("{1.5}", "line {0}|0|fraction"),
    ("{9223372036854775808}", "line {0}|0|too large"),
    (
        "{1.5 + 9223372036854775808}",
        "line {0}|0 + 0|fraction|too large",
    ),
    ("a <<if true>>", "nothing"),
    ("a <<if", "nothing"),
    ("a \\<< b", "line a << b"),
];

const OPTIONS: &[(&str, &str)] = &[
    ("-> a", "option a"),
    ("->a\\> {1} #t", "option a> {0}|1|#t"),
    ("->", "nothing"),
    ("-> #a", "nothing"),
    ("-> ===", "option ==="),
    ("-> a\rb", "nothing"),
    ("-> a {", "nothing"),
    ("-> a <<if $x>> #t", "option a|if $x|#t"),
    (
        "-> a {1.5}<<if 9223372036854775808 > 1>>// c",
        "option a {0}|0|if 0 > 1|fraction|too large",
    ),
    ("-> a <<if \">>\" == $x>>", "option a|if \">>\" == $x"),
    ("-> a <<if {$x}>>", "nothing"),
    ("-> a <<else>>", "nothing"),
    ("-> a <<if $x", "nothing"),
    ("-> a <<if $x>> b", "nothing"),
    ("-> a #t <<if $x>>", "nothing"),
    ("-> <<if $x>>", "nothing"),
    ("-> a #line:", "nothing"),
];

const COMMANDS: &[(&str, &str)] = &[
    ("<<if $a>>", "command if $a"),
    ("<<elseif $a and true>>", "command elseif $a and true"),
    ("<<else>> #t", "command else|#t"),
    ("<<endif>> // c", "command endif"),
    ("<<set $x to 1>>", "command set $x to 1"),
    ("<<set $x += 1.5>>", "command set $x += 0|fraction"),
    (
        "<<declare $x = 9223372036854775808>>",
        "command declare $x = 0|too large",
    ),
    ("<< jump A >> #t // c", "command jump A|#t"),
    (
        "<<\tjump \t Ä.1>>#line:#line:",
        "command jump Ä.1|#line:|#line:",
    ),
    ("<<jump {\"A\"}>>", "command jump {\"A\"}"),
    ("<<jump {\"{>>\"}>>", "command jump {\"{>>\"}"),
    ("<<stop>>", "command stop"),
    ("<<call f(1)>>", "command call f(1)"),
    ("<<jump A>> x", "nothing"),
    ("<<jump A>>>", "nothing"),
    ("<<jump A", "nothing"),
    ("<<jump A> >", "nothing"),
    ("<<jump>>", "nothing"),
    ("<<jump 1>>", "nothing"),
    ("<<set $x>>", "nothing"),
    ("<<enum A>>", "nothing"),
    ("<<>>", "nothing"),
    ("<< >>", "nothing"),
    ("<<", "nothing"),
];

const GAMES: &[(&str, &str)] = &[
    ("<<wait>>", "game wait"),
    ("<<wait {1}>> #t", "game wait {0}|1|#t"),
    ("<<wait \"{>>\" >>", "nothing"),
    ("<<wait \">>\" >>", "game wait \">>\""),
    (
        "<<wait \"{1}\" {\">>\"}>>",
        "game wait \"{0}\" {1}|1|\">>\"",
    ),
    ("<<wait \"{\"}\"}\" >>", "game wait \"{0}\"|\"}\""),
    ("<<a \\>> b>>", "game a \\>> b"),
    ("<<a \\{ b>>", "game a \\{ b"),
    ("<<a \\>>", "nothing"),
    ("<<stop now>>", "game stop now"),
    ("<<stop {1.5}>>", "game stop {0}|0|fraction"),
    ("<<{1}>>", "game {0}|1"),
    ("<<wait {1", "nothing"),
    ("<<wait {1 +}>>", "nothing"),
    ("<<wait 1.5>>", "game wait 1.5"),
    ("<<wait>> x", "nothing"),
];

// What the text is read as.
fn read_as(alloc: Global, mode: Mode, text: &str) -> Result<Text, Memory> {
    match read_item(alloc, mode, Text::from_str(alloc, text)?) {
        Ok(found) => shown(alloc, &found),
        Err(_) => Err(Memory),
    }
}

fn expect(
    rt: &impl Abort,
    alloc: Global,
    mode: Mode,
    text: &str,
    expected: &str,
) -> Result<(), Memory> {
    let got = read_as(alloc, mode, text)?;
    assert_eq!(rt; got.as_str(), expected, "of {text:?}");
    Ok(())
}

fn expect_all(
    rt: &impl Abort,
    alloc: Global,
    mode: Mode,
    rows: &[(&str, &str)],
) -> Result<(), Memory> {
    for (text, expected) in rows {
        expect(rt, alloc, mode, text, expected)?;
    }
    Ok(())
}

#[test]
fn headings_are_read(rt: HostRuntime) -> Result<(), Fail> {
    expect_all(&rt, rt.alloc(), Mode::InHeaders, HEADINGS)?;
    Ok(())
}

#[test]
fn lines_are_read(rt: HostRuntime) -> Result<(), Fail> {
    expect_all(&rt, rt.alloc(), Mode::InBody, LINES)?;
    expect_all(&rt, rt.alloc(), Mode::InBody, HOLES)?;
    Ok(())
}

#[test]
fn options_are_read(rt: HostRuntime) -> Result<(), Fail> {
    expect_all(&rt, rt.alloc(), Mode::InBody, OPTIONS)?;
    Ok(())
}

#[test]
fn commands_are_read(rt: HostRuntime) -> Result<(), Fail> {
    expect_all(&rt, rt.alloc(), Mode::InBody, COMMANDS)?;
    expect_all(&rt, rt.alloc(), Mode::InBody, GAMES)?;
    Ok(())
}

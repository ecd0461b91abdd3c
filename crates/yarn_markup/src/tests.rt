//! Texts with what they are read as, worked out by hand from docs/language.md, Markup.
use crate::{Attribute, Marked, MarkupFault, read_markup};
use std::alloc::{AllocError, Global};
use std::process::Abort;
use std::test::Fail;
use yarn_base::{List, Memory, Text};
use yarn_plural::{PluralTable, english, read_plural};

const PLAIN: &[(&str, &str)] = &[
    ("", ""),
    ("Hello, you.", "Hello, you."),
    ("a] b", "a] b"),
    (r"\[a\] \\ \x", r"[a] \ \x"),
    (r"[a/]end\", r"end\ | @a 0 0"),
];

const ATTRIBUTES: &[(&str, &str)] = &[
    ("[a]x[b]y[/a]z[/b]", "xyz | @a 0 2 | @b 1 2"),
    ("[a]x[b]y[/]z", "xyz | @a 0 2 | @b 1 1"),
    ("x[a/]y", "xy | @a 1 0"),
    ("[ a ]x[ / a ]", "x | @a 0 1"),
    ("[\ta\t]x[/\ta\t]", "x | @a 0 1"),
    ("[a / ]x", "x | @a 0 0"),
    ("x[a]y[a]z[/a]w[/a]", "xyzw | @a 1 3 | @a 2 1"),
    (
        "[a]1[b]2[a]3[/b]4[/a]5[/a]",
        "12345 | @a 0 5 | @b 1 2 | @a 2 2",
    ),
    ("[a][a][a]x[/a]y[/a]z[/a]", "xyz | @a 0 3 | @a 0 2 | @a 0 1"),
    ("[a][b][c]x[/a]y[/b]z[/c]", "xyz | @a 0 1 | @b 0 2 | @c 0 3"),
    ("[a]x[/a][a]y[/a][a]z[/a]", "xyz | @a 0 1 | @a 1 1 | @a 2 1"),
    ("[a][a]x[/]y[a]z[/a]", "xyz | @a 0 1 | @a 0 1 | @a 2 1"),
    ("[a][a/]x[/a]", "x | @a 0 1 | @a 0 0"),
    ("[a]x[/][a]y[/a]", "xy | @a 0 1 | @a 1 1"),
    ("[a=v]x[/a]", "x | @a 0 1 a=v"),
    ("[a p=v q=w]x[/a]", "x | @a 0 1 p=v q=w"),
    ("[a=v p=w/]", " | @a 0 0 a=v p=w"),
    (r#"[a p="x y" q=""/]"#, " | @a 0 0 p=x y q="),
    (r#"[a p="\"\\\n]" /]"#, r#" | @a 0 0 p="\\n]"#),
    ("[a 1=2/]", " | @a 0 0 1=2"),
    ("[a.b/][_a/]", " | @a.b 0 0 | @_a 0 0"),
    ("[größe maß=5/]é", "é | @größe 0 0 maß=5"),
    ("é[a]ü[/a]", "éü | @a 1 1"),
];

const NO_MARKUP: &[(&str, &str)] = &[
    (r"[nomarkup][b]\[x[/nomarkup]y", r"[b]\[xy | @nomarkup 0 6"),
    ("é[ nomarkup ]ü[/nomarkup]", "éü | @nomarkup 1 1"),
    (
        "[nomarkup][nomarkup][/nomarkup]",
        "[nomarkup] | @nomarkup 0 10",
    ),
    (
        "[a][nomarkup]x[/a][/nomarkup][/a]",
        "x[/a] | @a 0 5 | @nomarkup 0 5",
    ),
    ("[nomarkup]x[/ nomarkup]", "BadMarkup 0"),
    ("[nomarkup/]", "BadMarkup 0"),
    ("[nomarkup a=b]x[/nomarkup]", "BadMarkup 0"),
    ("[nomarkup=a]x[/nomarkup]", "BadMarkup 0"),
    ("x[/nomarkup]", "BadMarkup 1"),
];

const CHOICES: &[(&str, &str)] = &[
    (r#"[select value=b a="1" b="2"/]"#, "2"),
    (r#"[select value=f m="his" f="her"/] boat"#, "her boat"),
    ("[select=b a=1 b=2/]", "2"),
    ("[select value=a a=1 a=2/]", "1"),
    ("[select value=value value=x/]", "x"),
    ("[select=x value=select/]", "x"),
    (r#"[select value=a a="% \% [b]"/]"#, r"% \% [b]"),
    (r#"[select value=x a="1"/] end"#, "NoChoice 0"),
    ("[select=a/]", "NoChoice 0"),
    ("[select value=value/]", "NoChoice 0"),
    ("[select a=1/]", "BadMarkup 0"),
    ("[select value=a a=1]", "BadMarkup 0"),
    (
        r#"Du hast [plural value=10 one="% Münze" other="% Münzen"/]."#,
        "Du hast 10 Münzen.",
    ),
    (
        r#"Du hast [plural value=1 one="% Münze" other="% Münzen"/]."#,
        "Du hast 1 Münze.",
    ),
    (
        r#"[plural value=1 one="% coin" other="% coins"/]"#,
        "1 coin",
    ),
    (r#"[plural=-3 one="% coin" other="% coins"/]"#, "-3 coins"),
    ("[plural value=1 one=a one=b/]", "a"),
    (r#"[plural value="01" one="\% %"/]"#, "% 01"),
    ("[plural=2 one=a other=%%/]", "22"),
    ("[plural value=-1 one=-% other=x/]", "--1"),
    ("[plural value=x one=a/]", "BadMarkup 0"),
    ("[plural value=+1 one=a/]", "BadMarkup 0"),
    ("[plural value=9223372036854775808 other=a/]", "BadMarkup 0"),
    ("[plural value=2 one=a/]", "NoChoice 0"),
    ("[plural value=1 one=a]", "BadMarkup 0"),
    ("x[plural/]", "BadMarkup 1"),
    (
        "[ordinal value=2 one=%st two=%nd few=%rd other=%th/] place",
        "2nd place",
    ),
    ("[ordinal value=13 other=%th/]", "13th"),
];

const CHARACTERS: &[(&str, &str)] = &[
    ("Ann: Hi", "Ann: Hi | @character 0 5 name=Ann"),
    ("Ann:  Hi", "Ann:  Hi | @character 0 6 name=Ann"),
    ("A B:\tx", "A B:\tx | @character 0 5 name=A B"),
    (
        "Händler: [b]Na[/b]",
        "Händler: Na | @character 0 9 name=Händler | @b 9 2",
    ),
    ("Ann:Hi", "Ann:Hi"),
    ("A:", "A:"),
    (": Hi", ": Hi"),
    (r"A\: b", r"A\: b"),
    ("Ann [a]x: y[/a]", "Ann x: y | @a 4 4"),
];

const REFUSED: &[(&str, &str)] = &[
    ("[", "BadMarkup 0"),
    ("é[b", "BadMarkup 1"),
    ("[]", "BadMarkup 0"),
    ("[[a]]", "BadMarkup 0"),
    ("[1a/]", "BadMarkup 0"),
    ("[a b]", "BadMarkup 0"),
    ("[a =b/]", "BadMarkup 0"),
    ("[a= b/]", "BadMarkup 0"),
    (r#"[a p="x]"#, "BadMarkup 0"),
    (r#"[a="x"p=y/]"#, "BadMarkup 0"),
    ("[a p.q=1/]", "BadMarkup 0"),
    ("[a p=x=y/]", "BadMarkup 0"),
    ("[a/b]", "BadMarkup 0"),
    ("[/a b]", "BadMarkup 0"),
    ("[/]", "BadMarkup 0"),
    ("[a]x[/b]", "BadMarkup 4"),
    ("[a][/a][/a]", "BadMarkup 7"),
    ("[a][a]x[/a]", "BadMarkup 0"),
    ("[a][b][a][/a][/a][/a]", "BadMarkup 17"),
    ("[a/][/a]", "BadMarkup 4"),
    ("[a][/][/a]", "BadMarkup 6"),
    ("[a][/a][/]", "BadMarkup 7"),
    ("[nomarkup]x[/nomarkup][/nomarkup]", "BadMarkup 22"),
    ("[a][b][/a]", "BadMarkup 3"),
    ("[a]x[", "BadMarkup 4"),
    ("[a][select value=x y=1/][/b]", "NoChoice 3"),
    ("[a][/b][select value=x y=1/]", "BadMarkup 3"),
];

const SECOND: &str = "cardinal
one: v = 0 and i % 10 = 1 and i % 100 != 11
few: v = 0 and i % 10 = 2..4 and i % 100 != 12..14
many: v = 0 and i % 10 = 0 or v = 0 and i % 10 = 5..9 or v = 0 and i % 100 = 11..14
other:
";

const BY_SECOND: &[(&str, &str)] = &[
    (
        r#"[plural value=21 one="% a" few="% b" many="% c" other="% d"/]"#,
        "21 a",
    ),
    (
        r#"[plural value=11 one="% a" few="% b" many="% c" other="% d"/]"#,
        "11 c",
    ),
    (
        r#"[plural value=-9223372036854775808 one="% a" few="% b" many="% c" other="% d"/]"#,
        "-9223372036854775808 c",
    ),
];

fn push_attribute(shown: &mut String, attribute: &Attribute) -> Result<(), AllocError> {
    let name = attribute.name.as_str();
    let start = attribute.start;
    let length = attribute.length;
    write!(shown, " | @{name} {start} {length}")?;
    for property in attribute.properties.as_slice() {
        let name = property.name.as_str();
        let value = property.value.as_str();
        write!(shown, " {name}={value}")?;
    }
    Ok(())
}

fn marked_in(alloc: Global, marked: &Marked) -> Result<String, AllocError> {
    let mut shown = String::from_str(alloc, marked.plain.as_str())?;
    for attribute in marked.attributes.as_slice() {
        push_attribute(&mut shown, attribute)?;
    }
    Ok(shown)
}

fn shown(alloc: Global, got: Result<Marked, MarkupFault>) -> Result<String, AllocError> {
    match got {
        Ok(marked) => marked_in(alloc, &marked),
        Err(MarkupFault::BadMarkup(at)) => format!(in alloc; "BadMarkup {at}"),
        Err(MarkupFault::NoChoice(at)) => format!(in alloc; "NoChoice {at}"),
        Err(MarkupFault::Memory) => Err(AllocError),
    }
}

fn expect_all(
    rt: &impl Abort,
    alloc: Global,
    plural: &PluralTable,
    rows: &[(&str, &str)],
) -> Result<(), Memory> {
    for (given, expected) in rows {
        let text = Text::from_str(alloc, given)?;
        assert!(rt; text.len() <= 1_073_741_824);
        let got = shown(alloc, read_markup(alloc, &text, plural))?;
        assert_eq!(rt; got.as_str(), *expected, "of {given:?}");
    }
    Ok(())
}

#[test]
fn texts_are_read(rt: HostRuntime) -> Result<(), Fail> {
    let alloc = rt.alloc();
    let plural = english(alloc)?;
    for rows in [PLAIN, ATTRIBUTES, NO_MARKUP, CHOICES, CHARACTERS, REFUSED] {
        expect_all(&rt, alloc, &plural, rows)?;
    }
    Ok(())
}

#[test]
fn texts_are_read_by_other_rules(rt: HostRuntime) -> Result<(), Fail> {
    let alloc = rt.alloc();
    let bytes = List::from_vec(Vec::from_slice(alloc, SECOND.as_bytes())?);
    match read_plural(alloc, &bytes) {
        Ok(plural) => expect_all(&rt, alloc, &plural, BY_SECOND)?,
        Err(_) => assert!(rt; false),
    }
    Ok(())
}

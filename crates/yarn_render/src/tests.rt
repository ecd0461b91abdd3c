//! Events with what is written of them, worked out by hand from docs/language.md, The transcript and Markup.
ghost use Rattle.std.specs.Prelude.{◌≡◌, All, IfOk, IsTrue, is_some, true};
ghost use Rattle.yarn_value.specs.Templates.{template_of};
ghost use Rattle.yarn_render.specs.Renders.{HasText, HasTexts};

use crate::render;
use std::alloc::Global;
use std::process::Abort;
use std::test::Fail;
use yarn_base::{List, Memory, Text};
use yarn_code::{Choice, Event};
use yarn_plural::{PluralTable, english, read_plural};
use yarn_table::StringTable;
use yarn_value::{BaseLine, TemplateFault, Value, read_template};

/// An event whose ids all have the template of its case.
enum Given {
    /// Its values.
    Line(&'static [&'static str]),
    /// For each whether it can be chosen, and its one value.
    Options(&'static [(bool, &'static str)]),
    Rejected,
    Command(&'static str),
    NodeStart,
    NodeEnd,
    End,
}

use Given::{Command, Line, Options};

/// The event, the template, whether marks are asked for, and what is written.
type Case = (Given, &'static str, bool, &'static str);

const SHOP: &[Case] = &[
    (
        Line(&["Ada"]),
        "Händler: Willkommen, {0}!",
        false,
        "Händler: Willkommen, Ada!\n",
    ),
    (
        Line(&["10"]),
        r#"Du hast [plural value={0} one="% Münze" other="% Münzen"/]."#,
        false,
        "Du hast 10 Münzen.\n",
    ),
    (
        Line(&["1"]),
        r#"Du hast [plural value={0} one="% Münze" other="% Münzen"/]."#,
        true,
        "Du hast 1 Münze.\n",
    ),
    (
        Options(&[
            (true, "Lampe kaufen (9)"),
            (false, "Boot kaufen (900)"),
            (true, "Gehen"),
        ]),
        "{0}",
        false,
        "1) Lampe kaufen (9)\n2) [closed] Boot kaufen (900)\n3) Gehen\n",
    ),
    (
        Command("give_item lamp 1"),
        "",
        true,
        "<<give_item lamp 1>>\n",
    ),
    (
        Options(&[
            (false, "Lampe kaufen (9)"),
            (false, "Boot kaufen (900)"),
            (true, "Gehen"),
        ]),
        "{0}",
        false,
        "1) [closed] Lampe kaufen (9)\n2) [closed] Boot kaufen (900)\n3) Gehen\n",
    ),
    (Given::Rejected, "", true, "(no such choice)\n"),
    (
        Line(&["2"]),
        "Händler: {0} Besuche.",
        true,
        "Händler: 2 Besuche.\n@character 0 9 name=\"Händler\"\n",
    ),
    (Given::NodeStart, "", true, ""),
    (Given::NodeEnd, "", true, ""),
    (Given::End, "", true, ""),
];

const TEXTS: &[Case] = &[
    (Line(&[]), "", true, "\n"),
    (Line(&[]), "Hello", false, "Hello\n"),
    (Line(&[]), "Hello", true, "Hello\n"),
    (Line(&["a", "b"]), "{1} {0}{1}", false, "b ab\n"),
    (Line(&[]), r"\{0\} \[a\] \\ \x", true, "{0} [a] \\ \\x\n"),
    (
        Line(&[]),
        "[ordinal value=3 one=%st two=%nd few=%rd other=%th/]",
        true,
        "3rd\n",
    ),
    (Command("[a]{0}"), "", true, "<<[a]{0}>>\n"),
    (Options(&[]), "{0}", true, ""),
    (
        Options(&[(true, "x"), (false, "y")]),
        "[a]{0}[/a]",
        true,
        "1) x\n@a 0 1\n2) [closed] y\n@a 0 1\n",
    ),
    (
        Options(&[(true, "x"), (false, "y")]),
        "[a]{0}[/a]",
        false,
        "1) x\n2) [closed] y\n",
    ),
];

const MARKS: &[Case] = &[
    (
        Line(&[]),
        "[a]x[b]y[/a]z[/b]",
        true,
        "xyz\n@a 0 2\n@b 1 2\n",
    ),
    (Line(&[]), "[a]x[b]y[/a]z[/b]", false, "xyz\n"),
    (Line(&[]), "[a]x[b]y[/]z", true, "xyz\n@a 0 2\n@b 1 1\n"),
    (Line(&[]), "é[a]üß[/a]", true, "éüß\n@a 1 2\n"),
    (Line(&["[b]x[/b]"]), "-{0}", true, "-x\n@b 1 1\n"),
    (
        Line(&[]),
        "[nomarkup][b][/nomarkup]",
        true,
        "[b]\n@nomarkup 0 3\n",
    ),
    (
        Line(&[]),
        "[a=v q=w]x[/a]",
        true,
        "x\n@a 0 1 a=\"v\" q=\"w\"\n",
    ),
    (
        Line(&[]),
        r#"[a p="\"\\"/]x"#,
        true,
        "x\n@a 0 0 p=\"\\\"\\\\\"\n",
    ),
    (
        Line(&["x\ny\r"]),
        r#"[a p="{0}" q=""/]"#,
        true,
        "\n@a 0 0 p=\"x\\ny\\r\" q=\"\"\n",
    ),
];

const REFUSED: &[Case] = &[
    (
        Line(&[]),
        r#"[select value=x a="1"/] end"#,
        true,
        "[?] [select value=x a=\"1\"/] end\n",
    ),
    (Line(&["["]), "é{0}", true, "[?] é[\n"),
    (Line(&["é"]), "[b/][a]{0}", true, "[?] [b/][a]é\n"),
    (
        Options(&[(false, "["), (true, "x")]),
        "Ann: {0}",
        true,
        "1) [closed] [?] Ann: [\n2) Ann: x\n@character 0 5 name=\"Ann\"\n",
    ),
];

const SECOND: &str = "cardinal
one: v = 0 and i % 10 = 1 and i % 100 != 11
few: v = 0 and i % 10 = 2..4 and i % 100 != 12..14
many: v = 0 and i % 10 = 0 or v = 0 and i % 10 = 5..9 or v = 0 and i % 100 = 11..14
other:
";

const BY_SECOND: &[Case] = &[
    (
        Line(&["21"]),
        r#"[plural value={0} one="% a" few="% b" many="% c" other="% d"/]"#,
        true,
        "21 a\n",
    ),
    (
        Line(&["11"]),
        r#"[plural value={0} one="% a" few="% b" many="% c" other="% d"/]"#,
        true,
        "11 c\n",
    ),
    (
        Line(&["-9223372036854775808"]),
        r#"[plural value={0} one="% a" few="% b" many="% c" other="% d"/]"#,
        true,
        "-9223372036854775808 c\n",
    ),
];

// The values, each of them a text.
fn values_of(alloc: Global, texts: &[&str]) -> Result<List<Value>, Memory> {
    let mut values = List::new(alloc);
    for text in texts {
        let value = Value::Str(Text::from_str(alloc, text)?);
        values.push(value).map_err(|_| Memory)?;
    }
    Ok(values)
}

fn choices_of(alloc: Global, offers: &[(bool, &str)]) -> Result<List<Choice>, Memory> {
    let mut choices = List::new(alloc);
    for (available, text) in offers {
        let choice = Choice {
            id: Text::from_str(alloc, "t")?,
            values: values_of(alloc, &[*text])?,
            available: *available,
        };
        choices.push(choice).map_err(|_| Memory)?;
    }
    Ok(choices)
}

fn event_of(alloc: Global, given: &Given) -> Result<Event, Memory> {
    let event = match given {
        Line(texts) => Event::Line(Text::from_str(alloc, "t")?, values_of(alloc, texts)?),
        Options(offers) => Event::Options(choices_of(alloc, offers)?),
        Given::Rejected => Event::Rejected,
        Command(text) => Event::Command(Text::from_str(alloc, text)?),
        Given::NodeStart => Event::NodeStart(Text::from_str(alloc, "Start")?),
        Given::NodeEnd => Event::NodeEnd(Text::from_str(alloc, "Start")?),
        Given::End => Event::End,
    };
    Ok(event)
}

// How many values a text of the event takes.
fn holes_of(given: &Given) -> u8 {
    match given {
        Line(texts) => texts.len().min(16) as u8,
        _ => 1,
    }
}

fn is_template(alloc: Global, text: &Text, holes: u8) -> Result<bool, Memory>
    ensures { IfOk result (λ is. IsTrue is → is_some (template_of text.now holes) ≡ true) }
{
    match read_template(alloc, text, holes as u32) {
        Ok(_) => Ok(true),
        Err(TemplateFault::NotTemplate) => Ok(false),
        Err(TemplateFault::Memory) => Err(Memory),
    }
}

// The table that has this template alone, under the id `t`.
fn table_of(alloc: Global, template: &str, holes: u8) -> Result<Option<StringTable>, Memory> {
    let text = Text::from_str(alloc, template)?;
    if !is_template(alloc, &text, holes)? {
        return Ok(None);
    }
    let mut base = List::new(alloc);
    let line = BaseLine {
        id: Text::from_str(alloc, "t")?,
        holes,
        text,
        file: 0,
        node: 0,
        line: 1,
    };
    base.push(line).map_err(|_| Memory)?;
    let table = StringTable::from_base(alloc, &base)?;
    Ok(Some(table))
}

fn has_text(table: &StringTable, id: &Text, values: &List<Value>) -> bool
    ensures { IsTrue result → HasText table.now id.now values.now }
{
    match table.text(id) {
        Some(template) => template.holes() as usize == values.len(),
        None => false,
    }
}

fn has_choices(table: &StringTable, choices: &[Choice]) -> bool
    ensures { IsTrue result → All (λ choice. HasText table.now choice.id choice.values) choices.now }
{
    for choice in choices {
        if !has_text(table, &choice.id, &choice.values) {
            return false;
        }
    }
    true
}

fn has_texts(table: &StringTable, event: &Event) -> bool
    ensures { IsTrue result → HasTexts table.now event.now }
{
    match event {
        Event::Line(id, values) => has_text(table, id, values),
        Event::Options(choices) => has_choices(table, choices.as_slice()),
        Event::Rejected | Event::Command(_) => true,
        Event::NodeStart(_) | Event::NodeEnd(_) | Event::End => true,
    }
}

// What is written of a case, and a mark of its own where its template doesn't serve.
fn written(alloc: Global, case: &Case, plural: &PluralTable) -> Result<Text, Memory> {
    let (given, template, marks, _) = case;
    let event = event_of(alloc, given)?;
    match table_of(alloc, template, holes_of(given))? {
        Some(table) if has_texts(&table, &event) => render(alloc, &event, &table, plural, *marks),
        _ => Text::from_str(alloc, "no such template"),
    }
}

fn expect_all(
    rt: &impl Abort,
    alloc: Global,
    plural: &PluralTable,
    cases: &[Case],
) -> Result<(), Memory> {
    for case in cases {
        let got = written(alloc, case, plural)?;
        assert_eq!(rt; got.as_str(), case.3, "of {:?}", case.1);
    }
    Ok(())
}

#[test]
fn events_are_written(rt: HostRuntime) -> Result<(), Fail> {
    let alloc = rt.alloc();
    let plural = english(alloc)?;
    for cases in [SHOP, TEXTS, MARKS, REFUSED] {
        expect_all(&rt, alloc, &plural, cases)?;
    }
    let bytes = List::from_vec(Vec::from_slice(alloc, SECOND.as_bytes())?);
    match read_plural(alloc, &bytes) {
        Ok(second) => expect_all(&rt, alloc, &second, BY_SECOND)?,
        Err(_) => assert!(rt; false),
    }
    Ok(())
}

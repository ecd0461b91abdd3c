//! Each public call once with ample memory.
use crate::{Command, may_be_for_game, print_command, read_command, read_expression};
use std::alloc::Global;
use std::process::Abort;
use std::test::Fail;
use yarn_base::{Memory, Text};
use yarn_expr::{Token, has_fraction, has_large, print_expr};

fn command_text(alloc: Global, command: &Command) -> Result<Text, Memory> {
    match command {
        Command::Game => Text::from_str(alloc, "Game"),
        own => print_command(alloc, own),
    }
}

// The text, and behind it which literals among the tokens can't be kept.
fn with_literals(text: Text, tokens: &[Token]) -> Result<Text, Memory> {
    let mut text = text;
    if has_fraction(tokens) {
        text.push_str(", Fraction")?;
    }
    if has_large(tokens) {
        text.push_str(", Large")?;
    }
    Ok(text)
}

// What the content is printed as.
fn printed(alloc: Global, content: &str) -> Result<Text, Memory> {
    match read_command(alloc, content)? {
        Some(found) => with_literals(
            command_text(alloc, &found.command)?,
            found.tokens.as_slice(),
        ),
        None => Text::from_str(alloc, "None"),
    }
}

// What the text is printed as, as an expression.
fn printed_expression(alloc: Global, text: &str) -> Result<Text, Memory> {
    match read_expression(alloc, text)? {
        Some(part) => with_literals(print_expr(alloc, &part.expr)?, part.tokens.as_slice()),
        None => Text::from_str(alloc, "None"),
    }
}

#[test]
fn contents_are_read_and_printed(rt: HostRuntime) -> Result<(), Fail> {
    let alloc = rt.alloc();
    let rows = [
        ("if $a", "if $a"),
        ("if($a)", "if ($a)"),
        ("if", "None"),
        ("if 1.5 > 1", "if 0 > 1, Fraction"),
        ("elseif\t$a&&true", "elseif $a and true"),
        ("elseif 9223372036854775808 > 1", "elseif 0 > 1, Large"),
        (
            "elseif 9223372036854775807 > 1",
            "elseif 9223372036854775807 > 1",
        ),
        ("else", "else"),
        ("else if $a", "None"),
        ("endif", "endif"),
        ("endif x", "None"),
        ("set $x to 1+2", "set $x to 1 + 2"),
        ("set $x=-1", "set $x to -1"),
        ("set $x to\"a\"", "set $x to \"a\""),
        ("set $x += 1", "set $x += 1"),
        ("set $x-=-1", "set $x -= -1"),
        ("set $x *=2", "set $x *= 2"),
        ("set $x /= 2", "set $x /= 2"),
        ("set $x %= 2", "set $x %= 2"),
        ("set $x == 1", "None"),
        ("set $x ^= 1", "None"),
        ("set $x to5", "None"),
        ("set $x to", "None"),
        ("set x to 1", "None"),
        (
            "set $x to 1.5 + 9223372036854775808",
            "set $x to 0 + 0, Fraction, Large",
        ),
        ("declare $x = 007 as number", "declare $x = 7 as number"),
        ("declare $x to -0", "declare $x = 0"),
        ("declare $x=- 5as number", "declare $x = -5 as number"),
        (
            "declare $s = \"as\" as string",
            "declare $s = \"as\" as string",
        ),
        ("declare $b = false as bool", "declare $b = false as bool"),
        ("declare $b = true as number", "declare $b = true as number"),
        ("declare $x = 1 as text", "None"),
        ("declare $x = 1 as", "None"),
        ("declare $x = 1 + 2", "None"),
        ("declare $x = -true", "None"),
        ("declare $x = $y", "None"),
        ("declare $x += 1", "None"),
        (
            "declare $x = 1.5 as bool",
            "declare $x = 0 as bool, Fraction",
        ),
        ("declare $x = -9223372036854775808", "declare $x = 0, Large"),
        ("jump Start", "jump Start"),
        ("jump and", "jump and"),
        ("jump a b", "None"),
        ("jump", "None"),
        ("jump{\"}\"+$a}", "jump {\"}\" + $a}"),
        ("jump {$a} b", "None"),
        ("jump {1.5}", "jump {0}, Fraction"),
        ("stop", "stop"),
        ("stop now", "Game"),
        ("stop{$x", "Game"),
        ("call f(1,2)", "call f(1, 2)"),
        ("call f(1.5)", "call f(0), Fraction"),
        ("call 1.5", "None"),
        ("call f(1.5)+f(1)", "None"),
        ("enum x", "None"),
        ("case", "None"),
        ("endenum", "None"),
        ("", "None"),
        ("if.5", "Game"),
        ("once", "Game"),
        ("{$x} 1.5 \"", "Game"),
    ];
    for (content, want) in rows {
        let got = printed(alloc, content)?;
        assert_eq!(rt; got.as_str(), want, "of {content:?}");
    }
    Ok(())
}

#[test]
fn expressions_are_read(rt: HostRuntime) -> Result<(), Fail> {
    let alloc = rt.alloc();
    let rows = [
        ("1+2 is 3", "1 + 2 == 3"),
        (" $a ", "$a"),
        ("f(1.5)", "f(0), Fraction"),
        ("9223372036854775808", "0, Large"),
        ("1 2", "None"),
        ("\"", "None"),
        ("", "None"),
    ];
    for (text, want) in rows {
        let got = printed_expression(alloc, text)?;
        assert_eq!(rt; got.as_str(), want, "of {text:?}");
    }
    Ok(())
}

#[test]
fn first_words_tell_what_may_be_for_the_game(rt: HostRuntime) -> Result<(), Fail> {
    let rows = [
        ("once", true),
        ("stop", true),
        ("stop now", true),
        ("{$x}", true),
        ("if.5", true),
        ("", true),
        ("if $a", false),
        ("elseif", false),
        ("else if", false),
        ("endif", false),
        ("set{$x}", false),
        ("declare", false),
        ("jump a", false),
        ("call", false),
        ("enum x", false),
        ("case", false),
        ("endenum", false),
    ];
    for (text, want) in rows {
        assert_eq!(rt; may_be_for_game(text), want, "of {text:?}");
    }
    Ok(())
}

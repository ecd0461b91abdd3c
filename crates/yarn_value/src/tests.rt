//! Each public call once with ample memory.
ghost use Rattle.std.specs.Prelude.{◌≡◌, IfOk};
ghost use Rattle.yarn_value.specs.declared.value.Value.TheVariants.{Str};

use crate::{
    BUILTINS, Kind, Op, OpFault, RunFault, Template, TemplateFault, Value, apply, expand,
    find_builtin, quote, read_template, text_of, unquote,
};
use std::alloc::Global;
use std::process::Abort;
use std::test::Fail;
use yarn_base::{List, Memory, Text};

fn text(alloc: Global, text: &str) -> Result<Value, Memory>
    ensures { IfOk result (λ value. value ≡ Str text.now) }
{
    Ok(Value::Str(Text::from_str(alloc, text)?))
}

fn fault(fault: RunFault) -> Result<Value, OpFault> {
    Err(OpFault::Run(fault))
}

#[test]
fn operations_give_the_values_and_faults_of_their_rows(rt: HostRuntime) -> Result<(), Fail> {
    let alloc = rt.alloc();
    let least = i64::MIN;
    let rows = [
        (
            apply(alloc, Op::Div, &[Value::Number(7), Value::Number(2)]),
            fault(RunFault::Inexact),
        ),
        (
            apply(
                alloc,
                Op::Sub,
                &[Value::Number(-9223372036854775807), Value::Number(2)],
            ),
            fault(RunFault::Overflow),
        ),
        (
            apply(alloc, Op::Div, &[Value::Number(least), Value::Number(-1)]),
            fault(RunFault::Overflow),
        ),
        (
            apply(alloc, Op::Rem, &[Value::Number(least), Value::Number(-1)]),
            Ok(Value::Number(0)),
        ),
        (
            apply(alloc, Op::Neg, &[Value::Number(least)]),
            fault(RunFault::Overflow),
        ),
        (
            apply(alloc, Op::Rem, &[Value::Number(-7), Value::Number(3)]),
            Ok(Value::Number(-1)),
        ),
        (
            apply(alloc, Op::Div, &[Value::Number(1), Value::Number(0)]),
            fault(RunFault::DivideByZero),
        ),
        (
            apply(alloc, Op::Rem, &[Value::Number(1), Value::Number(0)]),
            fault(RunFault::DivideByZero),
        ),
        (
            apply(alloc, Op::NumberOf, &[text(alloc, "x")?]),
            fault(RunFault::BadNumber),
        ),
        (
            apply(alloc, Op::NumberOf, &[text(alloc, "-9223372036854775808")?]),
            Ok(Value::Number(least)),
        ),
        (
            apply(alloc, Op::TruthOf, &[text(alloc, "yes")?]),
            fault(RunFault::BadBool),
        ),
        (
            apply(alloc, Op::Concat, &[text(alloc, "a")?, text(alloc, "b")?]),
            Ok(text(alloc, "ab")?),
        ),
        (
            apply(alloc, Op::TextOf, &[Value::Truth(true)]),
            Ok(text(alloc, "True")?),
        ),
    ];
    for (at, (got, want)) in rows.iter().enumerate() {
        assert_eq!(rt; got, want, "row {at}");
    }
    Ok(())
}

#[test]
fn a_text_is_too_long_above_its_limit(rt: HostRuntime) -> Result<(), Fail> {
    let alloc = rt.alloc();
    let mut long = Text::from_str(alloc, "a")?;
    for _ in 0..15 {
        let half = long.copy()?;
        long.push_str(half.as_str())?;
    }
    let at_limit = apply(
        alloc,
        Op::Concat,
        &[Value::Str(long.copy()?), Value::Str(long.copy()?)],
    );
    assert!(rt; at_limit.is_ok());
    let other = long.copy()?;
    long.push_str("a")?;
    let above = apply(alloc, Op::Concat, &[Value::Str(long), Value::Str(other)]);
    assert_eq!(rt; above, fault(RunFault::TextTooLong));
    Ok(())
}

#[test]
fn values_show_their_kinds_and_texts(rt: HostRuntime) -> Result<(), Fail> {
    let alloc = rt.alloc();
    let rows = [
        (Value::Number(-12), Kind::Number, "-12"),
        (text(alloc, "é")?, Kind::Str, "é"),
        (Value::Truth(false), Kind::Truth, "False"),
    ];
    for (value, kind, shown) in &rows {
        assert_eq!(rt; value.kind(), *kind, "of {shown}");
        assert_eq!(rt; text_of(alloc, value)?.as_str(), *shown);
        assert_eq!(rt; &value.copy()?, value);
    }
    Ok(())
}

#[test]
fn builtins_are_found_by_name(rt: HostRuntime) {
    for (name, op) in [
        ("#add", Some(Op::Add)),
        ("#neq", Some(Op::Neq)),
        ("string", Some(Op::TextOf)),
        ("visited_count", None),
    ] {
        let Some(row) = BUILTINS.find(name) else {
            panic!(rt; "no row {name}");
        };
        assert_eq!(rt; row.name, name);
        assert_eq!(rt; row.op, op, "of {name}");
    }
    for name in ["", "#ad", "#addd", "visit", "z"] {
        assert!(rt; find_builtin(name).is_none(), "a row {name}");
    }
}

#[test]
fn quoted_strings_are_written_and_read(rt: HostRuntime) -> Result<(), Fail> {
    let alloc = rt.alloc();
    for (plain, whole) in [
        ("x\"y", "\"x\\\"y\""),
        ("", "\"\""),
        ("a\\n\n\ré", "\"a\\\\n\\n\\ré\""),
    ] {
        let quoted = quote(alloc, &Text::from_str(alloc, plain)?)?;
        assert_eq!(rt; quoted.as_str(), whole);
        let Some(again) = unquote(alloc, &quoted)? else {
            panic!(rt; "{whole} was not read");
        };
        assert_eq!(rt; again.as_str(), plain);
    }
    for given in [
        "x", "", "\"", "\"a", "\"a\"b", "\"a\"\"", "\"\\t\"", "\"\n\"", "\"\\\"",
    ] {
        let read = unquote(alloc, &Text::from_str(alloc, given)?)?;
        assert!(rt; read.is_none(), "{given} was read");
    }
    Ok(())
}

fn read(alloc: Global, text: &str) -> Result<Result<Template, TemplateFault>, Memory>
    ensures { IfOk result (λ read. IfOk read (λ template. template.holes ≡ 2)) }
{
    let text = Text::from_str(alloc, text)?;
    Ok(read_template(alloc, &text, 2))
}

#[test]
fn templates_are_read_and_expanded(rt: HostRuntime) -> Result<(), Fail> {
    let alloc = rt.alloc();
    let values = List::from_vec(vec![in alloc; Value::Number(3), text(alloc, "a")?]?);
    for (given, want) in [
        ("{1} {0}", "a 3"),
        ("\\{0\\} {0}{0}", "{0} 33"),
        ("\\\\{0} \\[ } é\\x\\", "\\\\3 \\[ } é\\x\\"),
        ("", ""),
    ] {
        let Ok(template) = read(alloc, given)? else {
            panic!(rt; "{given} was not read");
        };
        assert_eq!(rt; template.holes(), 2, "of {given}");
        assert_eq!(rt; expand(alloc, &template, &values)?.as_str(), want);
    }
    for given in [
        "{2}",
        "{",
        "{0",
        "{}",
        "{01}",
        "{ 0}",
        "{-1}",
        "{4294967296}",
        "{x}",
    ] {
        let refused = matches!(&read(alloc, given)?, Err(TemplateFault::NotTemplate));
        assert!(rt; refused, "{given} was read");
    }
    Ok(())
}

#[test]
fn templates_end_at_their_limits(rt: HostRuntime) -> Result<(), Fail> {
    let alloc = rt.alloc();
    let mut placeholders = Text::from_str(alloc, "")?;
    for _ in 0..64 {
        placeholders.push_str("{1}")?;
    }
    assert!(rt; read(alloc, placeholders.as_str())?.is_ok());
    placeholders.push_str("{1}")?;
    assert!(rt; read(alloc, placeholders.as_str())?.is_err());
    let mut long = Text::from_str(alloc, "a")?;
    for _ in 0..16 {
        let half = long.copy()?;
        long.push_str(half.as_str())?;
    }
    assert!(rt; read(alloc, long.as_str())?.is_ok());
    long.push_str("a")?;
    assert!(rt; read(alloc, long.as_str())?.is_err());
    Ok(())
}

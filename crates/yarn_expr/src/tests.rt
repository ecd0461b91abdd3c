//! Each public call once with ample memory.
use crate::{ExprFault, print_expr, read_expr};
use std::alloc::Global;
use std::process::Abort;
use std::test::Fail;
use yarn_base::{Memory, Text};

// What the piece is printed as, or the name of its fault.
fn printed(alloc: Global, text: &str, from: usize, to: usize) -> Result<Text, Memory> {
    if from > to || !text.is_char_boundary(from) || !text.is_char_boundary(to) {
        return Err(Memory);
    }
    let whole = Text::from_str(alloc, text)?;
    match read_expr(alloc, &whole, from, to) {
        Ok(expr) => print_expr(alloc, &expr),
        Err(ExprFault::NotExpr) => Text::from_str(alloc, "NotExpr"),
        Err(ExprFault::Fraction) => Text::from_str(alloc, "Fraction"),
        Err(ExprFault::NumberTooLarge) => Text::from_str(alloc, "NumberTooLarge"),
        Err(ExprFault::Memory) => Err(Memory),
    }
}

// The first part so many times, `1`, and the last part so many times.
fn around_one(alloc: Global, first: &str, last: &str, count: u32) -> Result<Text, Memory> {
    let mut text = Text::from_str(alloc, "")?;
    for _ in 0..count {
        text.push_str(first)?;
    }
    text.push_str("1")?;
    for _ in 0..count {
        text.push_str(last)?;
    }
    Ok(text)
}

#[test]
fn expressions_are_read_and_printed(rt: HostRuntime) -> Result<(), Fail> {
    let alloc = rt.alloc();
    let rows = [
        ("1+2 is 3", "1 + 2 == 3"),
        ("not not true", "not not true"),
        ("- -1", "--1"),
        ("!!$a", "not not $a"),
        ("1.5", "Fraction"),
        ("9223372036854775807", "9223372036854775807"),
        ("9223372036854775808", "NumberTooLarge"),
        ("9223372036854775808 + 1.5", "Fraction"),
        ("007", "7"),
        ("-0", "-0"),
        ("1-2-3", "1 - 2 - 3"),
        ("1-(2-3)", "1 - (2 - 3)"),
        ("8/4%3*2", "8 / 4 % 3 * 2"),
        (
            "1+2*3 lte 4 eq $b or $c && !$d ^ true",
            "1 + 2 * 3 <= 4 == $b or $c and not $d xor true",
        ),
        ("1 lt 2 neq (3 gte 4)", "1 < 2 != (3 >= 4)"),
        (
            "1<2!=3>4 || 5<=6==7>=8",
            "1 < 2 != 3 > 4 or 5 <= 6 == 7 >= 8",
        ),
        ("-$a.b*-2", "-$a.b * -2"),
        ("a.b()", "a.b()"),
        (
            " f ( 1 ,\t\"x\\\"y\\\\z\\w\" , $größe ) ",
            "f(1, \"x\\\"y\\\\z\\\\w\", $größe)",
        ),
        ("f(g(1,2),(3))", "f(g(1, 2), (3))"),
        ("_x1.(true)", "_x1.(true)"),
        ("", "NotExpr"),
        ("$", "NotExpr"),
        ("$1", "NotExpr"),
        ("$.a", "NotExpr"),
        ("a.b", "NotExpr"),
        ("1 +", "NotExpr"),
        ("1 2", "NotExpr"),
        ("1.", "NotExpr"),
        ("1.x", "NotExpr"),
        ("!=1", "NotExpr"),
        ("! =1", "NotExpr"),
        ("1 ! = 2", "NotExpr"),
        ("1 = 2", "NotExpr"),
        ("1 & 2", "NotExpr"),
        ("\"x", "NotExpr"),
        ("\"x\\\"", "NotExpr"),
        ("(1", "NotExpr"),
        ("f(1,)", "NotExpr"),
        ("f(,1)", "NotExpr"),
        ("and(1)", "NotExpr"),
        ("1.5 +", "NotExpr"),
        ("1 and not", "NotExpr"),
    ];
    for (text, want) in rows {
        let got = printed(alloc, text, 0, text.len())?;
        assert_eq!(rt; got.as_str(), want, "of {text:?}");
    }
    assert_eq!(rt;
        printed(alloc, "ä1+2ö", 2, 5)?.as_str(),
        "1 + 2",
        "between two places"
    );
    assert_eq!(rt;
        printed(alloc, "12", 1, 1)?.as_str(),
        "NotExpr",
        "of an empty piece"
    );
    let deep = [
        ("(", ")", 63, true),
        ("(", ")", 64, false),
        ("-", "", 63, true),
        ("-", "", 64, false),
        ("", "+1", 63, true),
        ("", "+1", 64, false),
        ("f(", ")", 63, true),
        ("f(", ")", 64, false),
        ("(", ")", 20000, false),
    ];
    for (first, last, count, is_read) in deep {
        let text = around_one(alloc, first, last, count)?;
        let got = printed(alloc, text.as_str(), 0, text.len())?;
        assert_eq!(rt;
            got.as_str() != "NotExpr",
            is_read,
            "of {count} times {first:?}"
        );
    }
    Ok(())
}

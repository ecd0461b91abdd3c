//! Writes an expression in its one spelling.
ghost use Rattle.std.specs.Prelude.{◌≡◌, ℕ, List, ◌++◌, ◌∷◌, [], encode_utf8_all, IsUtf8, IfOk, OnOk};
ghost use Rattle.std.specs.Str.{chars};
ghost use Rattle.std.specs.Fmt.{signed_decimal};
ghost use Rattle.yarn_expr.specs.Piece.{StandsFor, IsKept};
ghost use Rattle.yarn_expr.specs.Print.{canonical, operator_text, prefix_text, string_text, escape, separator};

use crate::scan::first_char;
use crate::{BinaryOp, Expr, UnaryOp};
use std::alloc::Global;
use yarn_base::{Memory, Text};

/// The canonical text of an expression, of docs/language.md, "Canonical text". A number is written without
/// leading zeros; `-` is an operator, so `-0` stays `-0`.
pub fn print_expr(alloc: Global, expr: &Expr) -> Result<Text, Memory>
    ensures text { IfOk result (λ t. t ≡ canonical expr.now) }

    // Where some text stands for the expression, what is written does, and its literals can be kept.
    ensures again { IfOk result (λ t. (piece : List ℕ) → IsUtf8 piece
        → StandsFor (chars piece) expr.now → IsKept (chars t) expr.now) }
{
    canonical_text(alloc, expr)
}

fn canonical_text(alloc: Global, expr: &Expr) -> Result<Text, Memory>
    ensures { IfOk result (λ t. t ≡ canonical expr.now) }
{
    let mut out = Text::from_str(alloc, "")?;
    write(alloc, &mut out, expr)?;
    Ok(out)
}

fn write(alloc: Global, out: &mut Text, expr: &Expr) -> Result<(), Memory>
    ensures { OnOk result (out.new ≡ out.old ++ canonical expr.now) }
{
    match expr {
        Expr::Number(n) => write_number(alloc, out, *n),
        Expr::Str(text) => write_string(out, text.as_str()),
        Expr::Truth(true) => out.push_str("true"),
        Expr::Truth(false) => out.push_str("false"),
        Expr::Variable(name) => out.push_str(name.as_str()),
        Expr::Group(inner) => {
            out.push_char('(')?;
            write(alloc, out, inner.get())?;
            out.push_char(')')?;
            Ok(())
        }
        Expr::Unary(op, inner) => {
            out.push_str(prefix(*op))?;
            write(alloc, out, inner.get())?;
            Ok(())
        }
        Expr::Binary(op, left, right) => {
            write(alloc, out, left.get())?;
            out.push_str(between(*op))?;
            write(alloc, out, right.get())?;
            Ok(())
        }
        Expr::Call(name, args) => {
            out.push_str(name.as_str())?;
            out.push_str("(")?;
            let mut first = true;
            for arg in args.as_slice() {
                separate(out, first)?;
                write(alloc, out, arg)?;
                first = false;
            }
            out.push_str(")")?;
            Ok(())
        }
    }
}

/// What stands before an argument.
fn separate(out: &mut Text, first: bool) -> Result<(), Memory>
    ensures { OnOk result (out.new ≡ out.old ++ separator first) }
{
    if first { Ok(()) } else { out.push_str(", ") }
}

fn write_number(alloc: Global, out: &mut Text, n: i64) -> Result<(), Memory>
    ensures { OnOk result (out.new ≡ out.old ++ signed_decimal n) }
{
    let digits = format!(in alloc; "{n}")?;
    out.push_str(digits.as_str())?;
    Ok(())
}

fn prefix(op: UnaryOp) -> &'static str
    ensures { result.now ≡ prefix_text op }
{
    match op {
        UnaryOp::Neg => "-",
        UnaryOp::Not => "not ",
    }
}

fn between(op: BinaryOp) -> &'static str
    ensures { result.now ≡ operator_text op }
{
    match op {
        BinaryOp::Mul => " * ",
        BinaryOp::Div => " / ",
        BinaryOp::Rem => " % ",
        BinaryOp::Add => " + ",
        BinaryOp::Sub => " - ",
        BinaryOp::Lte => " <= ",
        BinaryOp::Gte => " >= ",
        BinaryOp::Lt => " < ",
        BinaryOp::Gt => " > ",
        BinaryOp::Eq => " == ",
        BinaryOp::Neq => " != ",
        BinaryOp::And => " and ",
        BinaryOp::Or => " or ",
        BinaryOp::Xor => " xor ",
    }
}

/// A string with its quotes.
fn write_string(out: &mut Text, text: &str) -> Result<(), Memory>
    ensures { OnOk result (out.new ≡ out.old ++ string_text text.now) }
{
    out.push_str("\"")?;
    write_escaped(out, text)?;
    out.push_str("\"")?;
    Ok(())
}

fn write_escaped(out: &mut Text, text: &str) -> Result<(), Memory>
    ensures { OnOk result (out.new ≡ out.old ++ encode_utf8_all (escape (chars text.now))) }
{
    let mut rest = text;
    while let Some((c, after)) = first_char(rest) {
        write_char(out, c)?;
        rest = after;
    }
    Ok(())
}

fn write_char(out: &mut Text, c: char) -> Result<(), Memory>
    ensures { OnOk result (out.new ≡ out.old ++ encode_utf8_all (escape (c ∷ []))) }
{
    if c == '"' || c == '\\' {
        out.push_str("\\")?;
    }
    out.push_char(c)?;
    Ok(())
}

//! Writes a text with the expressions of its substitutions. What stands between these is copied in runs.
ghost use Rattle.std.specs.Prelude.{◌≡◌, ◌<◌, ◌≤◌, ◌++◌, ◌∷◌, List, length, take, drop, false, IfOk, OnOk, IsUtf8};
ghost use Rattle.yarn_expr.specs.declared.tree.Expr.{Expr as ExprOf};
ghost use Rattle.yarn_print.specs.Print.{is_marked};
ghost use Rattle.yarn_print.specs.Pieces.{printed, written, printed_text, plain_length, part_text, begins_hole, skips_behind, length_to_hole, past_brace, hole_if};

use std::alloc::Global;
use yarn_base::{Memory, Text};
use yarn_expr::{Expr, print_expr};

/// How what stands between substitutions is written.
#[derive(Clone, Copy, Debug, PartialEq, Eq)]
pub(crate) enum Spelling {
    /// With a `\` before each `#`, `/`, `<` and `>`.
    Text,
    /// As it is.
    Game,
}

/// The text, in which `{k}` stands for a substitution, with these expressions for those.
pub(crate) fn write_text(
    alloc: Global,
    out: &mut Text,
    spelling: Spelling,
    text: &str,
    holes: &[Expr],
) -> Result<(), Memory>
    ensures { OnOk result (out.new ≡ out.old ++ printed spelling false text.now holes.now) }
{
    let mut rest = text;
    for hole in holes {
        rest = write_to_hole(alloc, out, spelling, rest, hole)?;
    }
    write_run(out, spelling, rest)
}

/// Writes the text up to its first substitution, and this one; and gives what stands behind it.
fn write_to_hole<'a>(
    alloc: Global,
    out: &mut Text,
    spelling: Spelling,
    text: &'a str,
    hole: &Expr,
) -> Result<&'a str, Memory>
    ensures written { IfOk result (λ rest. (holes : List ExprOf)
        → out.new ++ printed spelling false rest.now holes ≡ out.old ++ printed spelling false text.now (hole.now ∷ holes)) }
    ensures utf8 { IfOk result (λ rest. IsUtf8 rest.now) }
{
    let (run, behind) = cut_at_hole(text);
    write_run(out, spelling, run)?;
    write_hole(alloc, out, hole, behind)?;
    Ok(past_hole(behind))
}

/// The text before its first substitution, and the text from there on.
fn cut_at_hole(text: &str) -> (&str, &str)
    ensures before { result.0.now ≡ take (length_to_hole false text.now) text.now }
    ensures behind { result.1.now ≡ drop (length_to_hole false text.now) text.now }
    ensures utf8 { IsUtf8 result.1.now }
{
    let end = length_to_hole_in(text.as_bytes());
    (&text[..end], &text[end..])
}

/// How many bytes stand before the first `{` that begins a substitution. A `\` takes the next byte with it, and a `{` that
/// nothing follows begins none.
fn length_to_hole_in(bytes: &[u8]) -> usize
    ensures { result ≡ length_to_hole false bytes.now }
{
    let mut skips = false;
    for (at, byte) in bytes.iter().enumerate() {
        if begins_hole_in(skips, &bytes[at..]) {
            return at;
        }
        skips = skips_next(skips, *byte);
    }
    bytes.len()
}

fn begins_hole_in(skips: bool, bytes: &[u8]) -> bool
    ensures { result ≡ begins_hole skips bytes.now }
{
    !skips && matches!(bytes, [b'{', _, ..])
}

/// Whether the byte takes the next one with it, where it isn't taken itself.
fn skips_next(skips: bool, byte: u8) -> bool
    ensures { result ≡ skips_behind skips byte }
{
    !skips && byte == b'\\'
}

/// What stands behind the first `}`, and nothing where there is none.
fn past_hole(text: &str) -> &str
    ensures rest { result.now ≡ past_brace text.now }
    ensures utf8 { IsUtf8 result.now }
{
    match text.split_once('}') {
        Some((_, rest)) => rest,
        None => "",
    }
}

/// The expression of the substitution that begins the text, where the text isn't empty.
fn write_hole(alloc: Global, out: &mut Text, hole: &Expr, text: &str) -> Result<(), Memory>
    ensures { OnOk result (out.new ≡ out.old ++ hole_if hole.now text.now) }
{
    if text.is_empty() {
        return Ok(());
    }
    let value = print_expr(alloc, hole)?;
    out.push_str("{")?;
    out.push_str(value.as_str())?;
    out.push_str("}")?;
    Ok(())
}

/// A text without substitutions.
fn write_run(out: &mut Text, spelling: Spelling, text: &str) -> Result<(), Memory>
    ensures { OnOk result (out.new ≡ out.old ++ written spelling text.now) }
{
    match spelling {
        Spelling::Text => write_marked(out, text),
        Spelling::Game => out.push_str(text),
    }
}

/// The text with a `\` before each `#`, `/`, `<` and `>`.
fn write_marked(out: &mut Text, text: &str) -> Result<(), Memory>
    ensures { OnOk result (out.new ≡ out.old ++ printed_text text.now) }
{
    let mut rest = text;
    while !rest.is_empty() {
        let (marked, part, after) = first_part(rest);
        write_part(out, marked, part)?;
        rest = after;
    }
    Ok(())
}

fn write_part(out: &mut Text, marked: bool, part: &str) -> Result<(), Memory>
    ensures { OnOk result (out.new ≡ out.old ++ part_text marked part.now) }
{
    if marked {
        out.push_str("\\")?;
    }
    out.push_str(part)?;
    Ok(())
}

/// The first byte of a text where it needs a `\`, and else what stands before the first that does; and the rest.
fn first_part(text: &str) -> (bool, &str, &str)
    requires { 0 < length text.now }
    ensures spelled { printed_text text.now ≡ part_text result.0 result.1.now ++ printed_text result.2.now }
    ensures shorter { length result.2.now < length text.now }
    ensures utf8 { IsUtf8 result.2.now }
{
    let end = plain_length_in(text.as_bytes());
    if end == 0 {
        (true, &text[..1], &text[1..])
    } else {
        (false, &text[..end], &text[end..])
    }
}

fn plain_length_in(bytes: &[u8]) -> usize
    ensures value { result ≡ plain_length bytes.now }
    ensures within { result ≤ length bytes.now }
{
    for (at, byte) in bytes.iter().enumerate() {
        if is_marked_byte(*byte) {
            return at;
        }
    }
    bytes.len()
}

fn is_marked_byte(byte: u8) -> bool
    ensures { result ≡ is_marked byte }
{
    byte == b'#' || byte == b'/' || byte == b'<' || byte == b'>'
}

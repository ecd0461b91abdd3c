//! Writes a command as the one content of its kind.
ghost use Rattle.std.specs.Prelude.{◌≡◌, ◌≢◌, ℕ, List, ◌++◌, IsUtf8, IfOk, OnOk};
ghost use Rattle.std.specs.Str.{chars};
ghost use Rattle.yarn_expr.specs.declared.token.Token.{Token as TokenOf};
ghost use Rattle.yarn_expr.specs.Print.{canonical};
ghost use Rattle.yarn_commands.specs.Command.{IsCommand, kind_text};
ghost use Rattle.yarn_commands.specs.Kept.{IsKept};
ghost use Rattle.yarn_commands.specs.Print.{content_text, assign_text, as_text, literal as literal_of};

use crate::Command;
use std::alloc::Global;
use yarn_base::{Memory, Text};
use yarn_expr::{BinaryOp, Expr, print_expr};
use yarn_value::{Kind, Value};

/// The canonical content of a command, of docs/language.md, "Canonical text": what stands between `<<` and `>>`.
/// A command for the game has its text elsewhere, so nothing is written of it.
pub fn print_command(alloc: Global, command: &Command) -> Result<Text, Memory>
    ensures text { IfOk result (λ t. t ≡ content_text command.now) }

    // Where some content is the command, what is written is it too, and its literals can be kept.
    ensures again { IfOk result (λ t. (content : List ℕ) (tokens : List TokenOf) → IsUtf8 content
        → command.now ≢ Command.Game → IsCommand (chars content) tokens command.now → IsKept (chars t) command.now) }
{
    command_text(alloc, command)
}

fn command_text(alloc: Global, command: &Command) -> Result<Text, Memory>
    ensures { IfOk result (λ t. t ≡ content_text command.now) }
{
    let mut out = Text::from_str(alloc, "")?;
    write(alloc, &mut out, command)?;
    Ok(out)
}

fn write(alloc: Global, out: &mut Text, command: &Command) -> Result<(), Memory>
    ensures { OnOk result (out.new ≡ out.old ++ content_text command.now) }
{
    match command {
        Command::If(expr) => write_behind(alloc, out, "if ", expr),
        Command::ElseIf(expr) => write_behind(alloc, out, "elseif ", expr),
        Command::Else => out.push_str("else"),
        Command::EndIf => out.push_str("endif"),
        Command::Set(name, op, expr) => {
            out.push_str("set ")?;
            out.push_str(name.as_str())?;
            write_behind(alloc, out, assigns(*op), expr)?;
            Ok(())
        }
        Command::Declare(name, value, kind) => {
            out.push_str("declare ")?;
            out.push_str(name.as_str())?;
            write_behind(alloc, out, " = ", &literal(value)?)?;
            write_kind(out, *kind)?;
            Ok(())
        }
        Command::Jump(name) => {
            out.push_str("jump ")?;
            out.push_str(name.as_str())?;
            Ok(())
        }
        Command::JumpTo(expr) => {
            write_behind(alloc, out, "jump {", expr)?;
            out.push_str("}")?;
            Ok(())
        }
        Command::Stop => out.push_str("stop"),
        Command::Call(expr) => write_behind(alloc, out, "call ", expr),
        Command::Game => Ok(()),
    }
}

/// A text, and an expression behind it.
fn write_behind(alloc: Global, out: &mut Text, before: &str, expr: &Expr) -> Result<(), Memory>
    ensures { OnOk result (out.new ≡ out.old ++ (before.now ++ canonical expr.now)) }
{
    out.push_str(before)?;
    let text = print_expr(alloc, expr)?;
    out.push_str(text.as_str())?;
    Ok(())
}

/// What stands between a variable and the expression that it is set to. No content gives the operators of the
/// last three lines.
fn assigns(op: Option<BinaryOp>) -> &'static str
    ensures { result.now ≡ assign_text op }
{
    match op {
        Some(BinaryOp::Add) => " += ",
        Some(BinaryOp::Sub) => " -= ",
        Some(BinaryOp::Mul) => " *= ",
        Some(BinaryOp::Div) => " /= ",
        Some(BinaryOp::Rem) => " %= ",
        None => " to ",
        Some(BinaryOp::Lte | BinaryOp::Gte | BinaryOp::Lt | BinaryOp::Gt) => " to ",
        Some(BinaryOp::Eq | BinaryOp::Neq) => " to ",
        Some(BinaryOp::And | BinaryOp::Or | BinaryOp::Xor) => " to ",
    }
}

/// A value as the literal that it is.
fn literal(value: &Value) -> Result<Expr, Memory>
    ensures { IfOk result (λ expr. expr ≡ literal_of value.now) }
{
    match value {
        Value::Number(number) => Ok(Expr::Number(*number)),
        Value::Str(text) => Ok(Expr::Str(text.copy()?)),
        Value::Truth(truth) => Ok(Expr::Truth(*truth)),
    }
}

/// The kind that a declare says.
fn write_kind(out: &mut Text, kind: Option<Kind>) -> Result<(), Memory>
    ensures { OnOk result (out.new ≡ out.old ++ as_text kind) }
{
    match kind {
        None => Ok(()),
        Some(kind) => {
            out.push_str(" as ")?;
            out.push_str(kind_word(kind))?;
            Ok(())
        }
    }
}

fn kind_word(kind: Kind) -> &'static str
    ensures { result.now ≡ kind_text kind }
{
    match kind {
        Kind::Number => "number",
        Kind::Str => "string",
        Kind::Truth => "bool",
    }
}

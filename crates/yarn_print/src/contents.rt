//! What stands between the `<<` and the `>>` of a command. An expression can't be copied into a command that
//! `print_command` takes, so its content is written from its parts.
ghost use Rattle.std.specs.Prelude.{◌≡◌, ◌++◌, IfOk, if◌then◌else◌};
ghost use Rattle.yarn_expr.specs.Print.{canonical};
ghost use Rattle.yarn_commands.specs.Print.{content_text, assign_text};

use std::alloc::Global;
use yarn_base::{Memory, Text};
use yarn_commands::{Command, print_command};
use yarn_expr::{BinaryOp, Expr, print_expr};
use yarn_value::{Kind, Value};

pub(crate) fn if_asked(alloc: Global, expr: &Expr) -> Result<Text, Memory>
    ensures { IfOk result (λ content. content ≡ content_text (Command.If expr.now)) }
{
    behind(alloc, "if ", expr)
}

/// The condition of a clause.
pub(crate) fn asked(alloc: Global, is_first: bool, expr: &Expr) -> Result<Text, Memory>
    ensures { IfOk result (λ content. content ≡ content_text (if is_first then Command.If expr.now else Command.ElseIf expr.now)) }
{
    if is_first {
        if_asked(alloc, expr)
    } else {
        behind(alloc, "elseif ", expr)
    }
}

pub(crate) fn call_to(alloc: Global, expr: &Expr) -> Result<Text, Memory>
    ensures { IfOk result (λ content. content ≡ content_text (Command.Call expr.now)) }
{
    behind(alloc, "call ", expr)
}

pub(crate) fn jump_to(alloc: Global, expr: &Expr) -> Result<Text, Memory>
    ensures { IfOk result (λ content. content ≡ content_text (Command.JumpTo expr.now)) }
{
    let mut content = behind(alloc, "jump {", expr)?;
    content.push_str("}")?;
    Ok(content)
}

pub(crate) fn setting(
    alloc: Global,
    name: &Text,
    op: Option<BinaryOp>,
    expr: &Expr,
) -> Result<Text, Memory>
    ensures { IfOk result (λ content. content ≡ content_text (Command.Set name.now op expr.now)) }
{
    let mut content = after_word(alloc, "set ", name.as_str())?;
    content.push_str(assigns(op))?;
    content.push_str(print_expr(alloc, expr)?.as_str())?;
    Ok(content)
}

pub(crate) fn declaration(
    alloc: Global,
    name: &Text,
    value: &Value,
    kind: Option<Kind>,
) -> Result<Text, Memory>
    ensures { IfOk result (λ content. content ≡ content_text (Command.Declare name.now value.now kind)) }
{
    print_command(alloc, &Command::Declare(name.copy()?, value.copy()?, kind))
}

/// A text behind another.
pub(crate) fn after_word(alloc: Global, word: &str, text: &str) -> Result<Text, Memory>
    ensures { IfOk result (λ content. content ≡ word.now ++ text.now) }
{
    let mut content = Text::from_str(alloc, word)?;
    content.push_str(text)?;
    Ok(content)
}

/// An expression behind a word.
fn behind(alloc: Global, word: &str, expr: &Expr) -> Result<Text, Memory>
    ensures { IfOk result (λ content. content ≡ word.now ++ canonical expr.now) }
{
    after_word(alloc, word, print_expr(alloc, expr)?.as_str())
}

/// What stands between a variable and the expression that it is set to. No content gives the operators of the
/// last three lines.
fn assigns(op: Option<BinaryOp>) -> &'static str
    ensures { result.now ≡ assign_text op }
{
    match op {
        Some(BinaryOp::Add) => " += ",
        Some(BinaryOp::Sub) => " -= ",
        Some(BinaryOp::Mul) => " *= ",
        Some(BinaryOp::Div) => " /= ",
        Some(BinaryOp::Rem) => " %= ",
        None => " to ",
        Some(BinaryOp::Lte | BinaryOp::Gte | BinaryOp::Lt | BinaryOp::Gt) => " to ",
        Some(BinaryOp::Eq | BinaryOp::Neq) => " to ",
        Some(BinaryOp::And | BinaryOp::Or | BinaryOp::Xor) => " to ",
    }
}

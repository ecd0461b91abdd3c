//! Reads a content once from the left: its first word, and then the parts of that word's command.
//!
//! Each function gives a command with the tokens in which its literals stand; a literal that can't be kept
//! stands as 0 in the command. `NotExpr` is the answer where there is no such part.
ghost use Rattle.std.specs.Prelude.{◌≡◌, ◌++◌, ◌∷◌, [], MatchOption, IfOk, IfSome, IsUtf8, None, Some};
ghost use Rattle.std.specs.Str.{chars};
ghost use Rattle.yarn_expr.specs.Gives.{Gives};
ghost use Rattle.yarn_commands.specs.Reading.{expression as expression_of, is_blank_only, alone as alone_of, set as set_of, set_value as set_value_of, jump as jump_of, jump_to as jump_to_of, jump_name as jump_name_of, call as call_of, declare as declare_of, declare_value as declare_value_of, before_brace as before_brace_of, behind as behind_of, content as content_of};
ghost use Rattle.yarn_commands.specs.Command.{is_call as call_is};

use crate::Command;
use crate::assign::assignment;
use crate::declaration::read_declaration;
use crate::word::{FirstWord, first_word};
use std::alloc::Global;
use yarn_base::{List, Text};
use yarn_expr::{
    BinaryOp, Class, Expr, Refusal, Step, Token, cut, first_char, next_token, read_all, read_tokens,
};

/// A command, and the tokens in which its literals stand. A literal that can't be kept stands as 0 in the command.
#[derive(Debug, Drop)]
pub struct Found {
    pub command: Command,
    pub tokens: List<Token>,
}

/// An expression with its tokens. A literal that can't be kept stands as 0 in the expression.
#[derive(Debug, Drop)]
pub struct Part {
    pub expr: Expr,
    pub tokens: List<Token>,
}

/// A command without literals.
fn whole(alloc: Global, command: Command) -> Found
    ensures { result ≡ record { command = command; tokens = [] } }
{
    Found {
        command,
        tokens: List::new(alloc),
    }
}

/// The expression that all of a text is.
#[tactic(auto, unfolding(crate::specs::Reading::expression))]
pub(crate) fn expression(alloc: Global, text: &str) -> Result<Part, Refusal>
    ensures { Gives (λ part. part) result (expression_of (chars text.now)) }
{
    let tokens = read_tokens(alloc, text)?;
    let expr = read_all(alloc, tokens.as_slice())?;
    Ok(Part { expr, tokens })
}

fn is_blank(text: &str) -> bool
    ensures { result ≡ is_blank_only (chars text.now) }
{
    let (_, rest) = cut(Class::Blank, text);
    first_char(rest).is_none()
}

/// A command of one word.
fn alone(alloc: Global, command: Command, text: &str) -> Result<Found, Refusal>
    ensures { Gives (λ found. found) result (alone_of command (chars text.now)) }
{
    if is_blank(text) {
        Ok(whole(alloc, command))
    } else {
        Err(Refusal::NotExpr)
    }
}

/// `set $x to e`, behind its first word.
#[tactic(auto, unfolding(crate::specs::Reading::set))]
fn read_set(alloc: Global, text: &str) -> Result<Found, Refusal>
    ensures { Gives (λ found. found) result (set_of (chars text.now)) }
{
    let (_, start) = cut(Class::Blank, text);
    let Step { token, rest } = next_token(alloc, start)?;
    match token {
        Token::Variable(name) => read_set_value(alloc, name, rest),
        Token::Number(_) | Token::Fraction(_) | Token::Str(_) | Token::Word(_) | Token::Sign(_) => {
            Err(Refusal::NotExpr)
        }
    }
}

#[tactic(auto, unfolding(crate::specs::Reading::set_value))]
fn read_set_value(alloc: Global, name: Text, text: &str) -> Result<Found, Refusal>
    ensures { Gives (λ found. found) result (set_value_of name (chars text.now)) }
{
    let assigned = assignment(alloc, text)?;
    let part = expression(alloc, assigned.rest)?;
    Ok(Found {
        command: Command::Set(name, assigned.op, part.expr),
        tokens: part.tokens,
    })
}

/// `declare $x = v`, behind its first word.
#[tactic(auto, unfolding(crate::specs::Reading::declare))]
fn read_declare(alloc: Global, text: &str) -> Result<Found, Refusal>
    ensures { Gives (λ found. found) result (declare_of (chars text.now)) }
{
    let (_, start) = cut(Class::Blank, text);
    let Step { token, rest } = next_token(alloc, start)?;
    match token {
        Token::Variable(name) => {
            let assigned = assignment(alloc, rest)?;
            read_declare_value(alloc, name, assigned.op, assigned.rest)
        }
        Token::Number(_) | Token::Fraction(_) | Token::Str(_) | Token::Word(_) | Token::Sign(_) => {
            Err(Refusal::NotExpr)
        }
    }
}

fn read_declare_value(
    alloc: Global,
    name: Text,
    op: Option<BinaryOp>,
    text: &str,
) -> Result<Found, Refusal>
    ensures { Gives (λ found. found) result (declare_value_of name op (chars text.now)) }
{
    if op.is_some() {
        return Err(Refusal::NotExpr);
    }
    let tokens = read_tokens(alloc, text)?;
    let declaration = read_declaration(tokens.as_slice())?;
    Ok(Found {
        command: Command::Declare(name, declaration.value, declaration.kind),
        tokens,
    })
}

/// `jump Name` or `jump {e}`, behind its first word.
#[tactic(auto, unfolding(crate::specs::Reading::jump))]
fn read_jump(alloc: Global, text: &str) -> Result<Found, Refusal>
    ensures { Gives (λ found. found) result (jump_of (chars text.now)) }
{
    let (_, start) = cut(Class::Blank, text);
    match first_char(start) {
        Some((first, rest)) => {
            if first == '{' {
                read_jump_to(alloc, rest)
            } else {
                read_jump_name(alloc, text)
            }
        }
        None => read_jump_name(alloc, text),
    }
}

fn read_jump_name(alloc: Global, text: &str) -> Result<Found, Refusal>
    ensures { Gives (λ found. found) result (jump_name_of (chars text.now)) }
{
    let tokens = read_tokens(alloc, text)?;
    match tokens.as_slice() {
        [Token::Word(name)] => Ok(whole(alloc, Command::Jump(name.copy()?))),
        _ => Err(Refusal::NotExpr),
    }
}

fn read_jump_to(alloc: Global, text: &str) -> Result<Found, Refusal>
    ensures { Gives (λ found. found) result (jump_to_of (chars text.now)) }
{
    match before_brace(text) {
        Some(inner) => {
            let part = expression(alloc, inner)?;
            Ok(Found {
                command: Command::JumpTo(part.expr),
                tokens: part.tokens,
            })
        }
        None => Err(Refusal::NotExpr),
    }
}

/// What stands before a last `}`.
fn before_brace(text: &str) -> Option<&str>
    ensures { MatchOption result (before_brace_of (chars text.now) ≡ None) (λ inner. before_brace_of (chars text.now) ≡ Some (chars inner.now)) }
{
    text.strip_suffix('}')
}

/// `call f(e, ..)`, behind its first word.
#[tactic(auto, unfolding(crate::specs::Reading::call))]
fn read_call(alloc: Global, text: &str) -> Result<Found, Refusal>
    ensures { Gives (λ found. found) result (call_of (chars text.now)) }
{
    let part = expression(alloc, text)?;
    if is_call(&part.expr) {
        Ok(Found {
            command: Command::Call(part.expr),
            tokens: part.tokens,
        })
    } else {
        Err(Refusal::NotExpr)
    }
}

fn is_call(expr: &Expr) -> bool
    ensures { result ≡ call_is expr.now }
{
    match expr {
        Expr::Call(_, _) => true,
        Expr::Number(_) | Expr::Str(_) | Expr::Truth(_) | Expr::Variable(_) => false,
        Expr::Group(_) | Expr::Unary(_, _) | Expr::Binary(_, _, _) => false,
    }
}

/// What stands behind the first word, by that word.
#[tactic(auto, unfolding(crate::specs::Reading::behind))]
fn read_behind(alloc: Global, word: FirstWord, text: &str) -> Result<Found, Refusal>
    ensures { Gives (λ found. found) result (behind_of word (chars text.now)) }
{
    match word {
        FirstWord::If => {
            let part = expression(alloc, text)?;
            Ok(Found {
                command: Command::If(part.expr),
                tokens: part.tokens,
            })
        }
        FirstWord::ElseIf => {
            let part = expression(alloc, text)?;
            Ok(Found {
                command: Command::ElseIf(part.expr),
                tokens: part.tokens,
            })
        }
        FirstWord::Else => alone(alloc, Command::Else, text),
        FirstWord::EndIf => alone(alloc, Command::EndIf, text),
        FirstWord::Set => read_set(alloc, text),
        FirstWord::Declare => read_declare(alloc, text),
        FirstWord::Jump => read_jump(alloc, text),
        FirstWord::Stop => {
            if is_blank(text) {
                Ok(whole(alloc, Command::Stop))
            } else {
                Ok(whole(alloc, Command::Game))
            }
        }
        FirstWord::Call => read_call(alloc, text),
        FirstWord::LeftOut => Err(Refusal::NotExpr),
        FirstWord::Other => Ok(whole(alloc, Command::Game)),
    }
}

/// The command that all of a content is.
#[tactic(auto, unfolding(crate::specs::Reading::content))]
pub(crate) fn read_content(alloc: Global, text: &str) -> Result<Found, Refusal>
    ensures { Gives (λ found. found) result (content_of (chars text.now)) }
{
    if first_char(text).is_none() {
        return Err(Refusal::NotExpr);
    }
    let (word, rest) = cut(Class::Name, text);
    read_behind(alloc, first_word(word), rest)
}

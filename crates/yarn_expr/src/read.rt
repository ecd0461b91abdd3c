//! Reads an expression from its tokens, once from the left.
//!
//! One function for each kind of operand; `read_level` and `read_chain` read operators, the loosest level
//! first. `limit` is the depth that is still allowed, so nesting ends at 64 and no call goes deeper. A number
//! that can't be kept stands as 0 here, and answer.rt refuses it.
ghost use Rattle.std.specs.Prelude.{◌≡◌, ◌≤◌, ◌<◌, ◌-◌, suc, pos, length, unwrap_or, IfOk, OnOk, ◌++◌, ◌∷◌, []};
ghost use Rattle.yarn_expr.specs.Plain.{number_of};
ghost use Rattle.yarn_expr.specs.Reading.{read_all as all_of, joined, leaf as leaf_found, group, call, arguments, some_arguments, operand, prefix, chain, reads, word_operand};
ghost use Rattle.yarn_expr.specs.Word.{meaning_of};
ghost use Rattle.yarn_expr.specs.Gives.{Gives};
ghost use Rattle.yarn_expr.specs.Parts.{found_of, found_all_of};

use crate::number::number;
use crate::operator::{behind_close, behind_comma, behind_open, operator_at, unary_operator};
use crate::refusal::Refusal;
use crate::word::{WordMeaning, word_meaning};
use crate::{BinaryOp, Expr, Sign, Token};
use std::alloc::Global;
use yarn_base::{Boxed, List, Memory, Text};

/// An expression with its depth, and the tokens after it.
#[derive(Drop)]
pub(crate) struct Part<'a> {
    pub expr: Expr,
    pub depth: usize,
    pub rest: &'a [Token],
}

/// Arguments with the depth of the deepest, and the tokens after them.
#[derive(Drop)]
pub(crate) struct Arguments<'a> {
    pub exprs: List<Expr>,
    pub depth: usize,
    pub rest: &'a [Token],
}

/// Both sides of an operator as one part.
fn join<'a>(
    alloc: Global,
    op: BinaryOp,
    left: Part<'a>,
    right: Part<'a>,
) -> Result<Part<'a>, Memory>
    requires left { left.depth < 64 }
    requires right { right.depth < 64 }
    ensures { IfOk result (λ p. found_of p ≡ joined op (found_of left.entry) (found_of right.entry)) }
{
    let depth = 1 + left.depth.max(right.depth);
    let expr = Expr::Binary(
        op,
        Boxed::new(alloc, left.expr).map_err(|_| Memory)?,
        Boxed::new(alloc, right.expr).map_err(|_| Memory)?,
    );
    Ok(Part {
        expr,
        depth,
        rest: right.rest,
    })
}

fn leaf(expr: Expr, rest: &[Token]) -> Part<'_>
    ensures { found_of result ≡ leaf_found expr rest.now }
{
    Part {
        expr,
        depth: 1,
        rest,
    }
}

/// An expression of a level at most and of a depth at most.
#[cycle(read)]
#[tactic(auto, using(crate::proofs::Loops::levels))]
fn read_level<'a>(
    alloc: Global,
    limit: usize,
    level: usize,
    tokens: &'a [Token],
) -> Result<Part<'a>, Refusal>
    requires level { 1 ≤ level }
    requires limit { limit ≤ 64 }
    ensures exact { Gives found_of result (reads limit level tokens.now) }
    ensures shallow { IfOk result (λ part. part.depth ≤ limit) }
{
    if limit == 0 {
        return Err(Refusal::NotExpr);
    }
    if level == 1 {
        return read_prefix(alloc, limit, tokens);
    }
    let first = read_level(alloc, limit, level - 1, tokens)?;
    read_chain(alloc, limit, level, first)
}

/// Operators of a level from the left.
#[cycle(read)]
fn read_chain<'a>(
    alloc: Global,
    limit: usize,
    level: usize,
    first: Part<'a>,
) -> Result<Part<'a>, Refusal>
    requires level { 2 ≤ level }
    requires limit { limit ≤ 64 }
    requires some { 1 ≤ limit }
    requires shallow { first.depth ≤ limit }
    ensures exact { Gives found_of result (chain limit (limit - 1) (reads (limit - 1) (level - 1)) level (found_of first.entry)) }
    ensures shallow { IfOk result (λ part. part.depth ≤ limit) }
{
    let mut left = first;
    while let Some((op, after)) = operator_at(level, left.rest) {
        if left.depth >= limit {
            return Err(Refusal::NotExpr);
        }
        let right = read_level(alloc, limit - 1, level - 1, after)?;
        left = join(alloc, op, left, right)?;
    }
    Ok(left)
}

/// A unary operator and what it stands before, or an operand.
#[cycle(read)]
#[tactic(auto, unfolding(crate::specs::Reading::prefix))]
fn read_prefix<'a>(alloc: Global, limit: usize, tokens: &'a [Token]) -> Result<Part<'a>, Refusal>
    requires limit { limit ≤ 64 }
    requires some { 1 ≤ limit }
    ensures exact { Gives found_of result (prefix (reads (limit - 1) 1) (reads (limit - 1) 6) tokens.now) }
    ensures shallow { IfOk result (λ part. part.depth ≤ limit) }
{
    let Some((first, rest)) = tokens.split_first() else {
        return Err(Refusal::NotExpr);
    };
    match unary_operator(first) {
        Some(op) => {
            let inner = read_level(alloc, limit - 1, 1, rest)?;
            Ok(Part {
                expr: Expr::Unary(op, Boxed::new(alloc, inner.expr).map_err(|_| Memory)?),
                depth: inner.depth + 1,
                rest: inner.rest,
            })
        }
        None => read_operand(alloc, limit, tokens),
    }
}

/// A literal, a variable, a call or a group.
#[cycle(read)]
#[tactic(auto, unfolding(crate::specs::Reading::operand))]
fn read_operand<'a>(alloc: Global, limit: usize, tokens: &'a [Token]) -> Result<Part<'a>, Refusal>
    requires limit { limit ≤ 64 }
    requires some { 1 ≤ limit }
    ensures exact { Gives found_of result (operand (reads (limit - 1) 6) tokens.now) }
    ensures shallow { IfOk result (λ part. part.depth ≤ limit) }
{
    let Some((first, rest)) = tokens.split_first() else {
        return Err(Refusal::NotExpr);
    };
    match first {
        Token::Number(digits) => Ok(leaf(Expr::Number(small_number(digits)), rest)),
        Token::Fraction(_) => Ok(leaf(Expr::Number(0), rest)),
        Token::Str(text) => Ok(leaf(Expr::Str(text.copy()?), rest)),
        Token::Variable(name) => Ok(leaf(Expr::Variable(name.copy()?), rest)),
        Token::Word(word) => read_word(alloc, limit, word, rest),
        Token::Sign(Sign::Open) => read_group(alloc, limit, rest),
        Token::Sign(_) => Err(Refusal::NotExpr),
    }
}

/// The number that the digits write, or 0 where it is too large.
fn small_number(digits: &Text) -> i64
    ensures { result ≡ pos (unwrap_or (number_of digits.now) 0) }
{
    match number(digits.as_str()) {
        Some(n) => n as i64,
        None => 0,
    }
}

/// A group, behind its first bracket.
#[cycle(read)]
#[tactic(auto, unfolding(crate::specs::Reading::group))]
fn read_group<'a>(alloc: Global, limit: usize, tokens: &'a [Token]) -> Result<Part<'a>, Refusal>
    requires limit { limit ≤ 64 }
    requires some { 1 ≤ limit }
    ensures exact { Gives found_of result (group (reads (limit - 1) 6) tokens.now) }
    ensures shallow { IfOk result (λ part. part.depth ≤ limit) }
{
    let inner = read_level(alloc, limit - 1, 6, tokens)?;
    match behind_close(inner.rest) {
        Some(rest) => Ok(Part {
            expr: Expr::Group(Boxed::new(alloc, inner.expr).map_err(|_| Memory)?),
            depth: inner.depth + 1,
            rest,
        }),
        None => Err(Refusal::NotExpr),
    }
}

/// A word as an operand: a literal, or a call.
#[cycle(read)]
fn read_word<'a>(
    alloc: Global,
    limit: usize,
    word: &Text,
    tokens: &'a [Token],
) -> Result<Part<'a>, Refusal>
    requires limit { limit ≤ 64 }
    requires some { 1 ≤ limit }
    ensures exact { Gives found_of result (word_operand (reads (limit - 1) 6) word.now (meaning_of word.now) tokens.now) }
    ensures shallow { IfOk result (λ part. part.depth ≤ limit) }
{
    match word_meaning(word.as_str()) {
        WordMeaning::Literal(truth) => Ok(leaf(Expr::Truth(truth), tokens)),
        WordMeaning::Name => read_call(alloc, limit, word, tokens),
        WordMeaning::Operator(_) | WordMeaning::Negation => Err(Refusal::NotExpr),
    }
}

/// A call, behind its name.
#[cycle(read)]
#[tactic(auto, unfolding(crate::specs::Reading::call))]
fn read_call<'a>(
    alloc: Global,
    limit: usize,
    name: &Text,
    tokens: &'a [Token],
) -> Result<Part<'a>, Refusal>
    requires limit { limit ≤ 64 }
    requires some { 1 ≤ limit }
    ensures exact { Gives found_of result (call (reads (limit - 1) 6) name.now tokens.now) }
    ensures shallow { IfOk result (λ part. part.depth ≤ limit) }
{
    match behind_open(tokens) {
        Some(opened) => {
            let all = read_arguments(alloc, limit, opened)?;
            Ok(Part {
                expr: Expr::Call(name.copy()?, all.exprs),
                depth: all.depth + 1,
                rest: all.rest,
            })
        }
        None => Err(Refusal::NotExpr),
    }
}

/// Arguments up to their closing bracket.
#[cycle(read)]
#[tactic(auto, unfolding(crate::specs::Reading::arguments))]
fn read_arguments<'a>(
    alloc: Global,
    limit: usize,
    tokens: &'a [Token],
) -> Result<Arguments<'a>, Refusal>
    requires limit { limit ≤ 64 }
    requires some { 1 ≤ limit }
    ensures exact { Gives found_all_of result (arguments (reads (limit - 1) 6) tokens.now) }
    ensures shallow { IfOk result (λ all. all.depth < limit) }
{
    match behind_close(tokens) {
        Some(rest) => Ok(Arguments {
            exprs: List::new(alloc),
            depth: 0,
            rest,
        }),
        None => read_some_arguments(alloc, limit, tokens),
    }
}

/// One more argument.
fn add(exprs: &mut List<Expr>, expr: Expr) -> Result<(), Memory>
    ensures { OnOk result (exprs.new ≡ exprs.old ++ expr ∷ []) }
{
    match exprs.push(expr) {
        Ok(()) => Ok(()),
        Err(_) => Err(Memory),
    }
}

/// One argument or more, up to their closing bracket.
#[cycle(read)]
fn read_some_arguments<'a>(
    alloc: Global,
    limit: usize,
    tokens: &'a [Token],
) -> Result<Arguments<'a>, Refusal>
    requires limit { limit ≤ 64 }
    requires some { 1 ≤ limit }
    ensures exact { Gives found_all_of result (some_arguments (suc (length tokens.now)) (reads (limit - 1) 6) tokens.now) }
    ensures shallow { IfOk result (λ all. all.depth < limit) }
{
    let mut exprs = List::new(alloc);
    let mut depth: usize = 0;
    let mut rest = tokens;
    loop {
        let part = read_level(alloc, limit - 1, 6, rest)?;
        add(&mut exprs, part.expr)?;
        depth = depth.max(part.depth);
        if let Some(after) = behind_close(part.rest) {
            return Ok(Arguments {
                exprs,
                depth,
                rest: after,
            });
        }
        match behind_comma(part.rest) {
            Some(after) => rest = after,
            None => return Err(Refusal::NotExpr),
        }
    }
}

/// The tree that the tokens are, all of them.
#[tactic(auto, unfolding(crate::specs::Reading::read_all))]
pub fn read_all(alloc: Global, tokens: &[Token]) -> Result<Expr, Refusal>
    ensures { Gives (λ expr. expr) result (all_of tokens.now) }
{
    let part = read_level(alloc, 64, 6, tokens)?;
    if part.rest.is_empty() {
        Ok(part.expr)
    } else {
        Err(Refusal::NotExpr)
    }
}

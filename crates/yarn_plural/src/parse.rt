//! Reads the rule that tokens write (docs/formats.md, Plural rules).
ghost use Rattle.std.specs.Prelude.{◌≡◌, ◌≤◌, ◌∷◌, length, IfOk};
ghost use Rattle.std.specs.Option.{option_copied};
ghost use Rattle.yarn_plural.specs.Steps.{pieces, pieces_behind, left, rule_of, condition_of, and_condition_of, relation_of, compared_of, among_of, listed_of};

use crate::rule::{Category, Listed, Operand, Relation, Rule};
use crate::token::{Joint, Sign, Token, Word};
use std::alloc::Global;
use yarn_base::{List, Memory};

/// The rule of a category, from the tokens of its condition, and none where they are none.
pub(crate) fn read_rule(
    alloc: Global,
    category: Category,
    tokens: &[Token],
) -> Result<Option<Rule>, Memory>
    ensures { IfOk result (λ found. found ≡ rule_of category tokens.now) }
{
    match category {
        Category::Other if tokens.is_empty() => {
            let condition = List::new(alloc);
            Ok(Some(Rule {
                category,
                condition,
            }))
        }
        Category::Other => Ok(None),
        _ => {
            let Some(condition) = read_condition(alloc, tokens)? else {
                return Ok(None);
            };
            Ok(Some(Rule {
                category,
                condition,
            }))
        }
    }
}

// and-condition (`or` and-condition)*
fn read_condition(alloc: Global, tokens: &[Token]) -> Result<Option<List<List<Relation>>>, Memory>
    ensures { IfOk result (λ found. found ≡ condition_of tokens.now) }
{
    let mut condition = List::new(alloc);
    let mut rest = Some(tokens);
    while let Some(left) = rest {
        let (piece, behind) = cut(left, Joint::Or);
        let Some(relations) = read_and_condition(alloc, piece)? else {
            return Ok(None);
        };
        condition.push(relations).map_err(|_| Memory)?;
        rest = behind;
    }
    Ok(Some(condition))
}

// relation (`and` relation)*
fn read_and_condition(alloc: Global, tokens: &[Token]) -> Result<Option<List<Relation>>, Memory>
    ensures { IfOk result (λ found. found ≡ and_condition_of tokens.now) }
{
    let mut relations = List::new(alloc);
    let mut rest = Some(tokens);
    while let Some(left) = rest {
        let (piece, behind) = cut(left, Joint::And);
        let Some(relation) = read_relation(alloc, piece)? else {
            return Ok(None);
        };
        relations.push(relation).map_err(|_| Memory)?;
        rest = behind;
    }
    Ok(Some(relations))
}

// operand (`%` value)? (`=` | `!=`) list
fn read_relation(alloc: Global, tokens: &[Token]) -> Result<Option<Relation>, Memory>
    ensures { IfOk result (λ found. found ≡ relation_of tokens.now) }
{
    match tokens {
        [
            Token::Word(Word::Operand(_)),
            Token::Sign(Sign::Percent),
            Token::Value(0),
            ..
        ] => Ok(None),
        [
            Token::Word(Word::Operand(operand)),
            Token::Sign(Sign::Percent),
            Token::Value(modulus),
            rest @ ..,
        ] => { read_comparison(alloc, *operand, Some(*modulus), rest) }
        [Token::Word(Word::Operand(operand)), rest @ ..] => read_comparison(
            alloc, *operand, None, rest,
        ),
        _ => Ok(None),
    }
}

fn read_comparison(
    alloc: Global,
    operand: Operand,
    modulus: Option<u64>,
    tokens: &[Token],
) -> Result<Option<Relation>, Memory>
    ensures { IfOk result (λ found. found ≡ compared_of operand modulus tokens.now) }
{
    let (equal, rest) = match tokens {
        [Token::Sign(Sign::Equal), rest @ ..] => (true, rest),
        [Token::Sign(Sign::Differ), rest @ ..] => (false, rest),
        _ => return Ok(None),
    };
    let Some(among) = read_among(alloc, rest)? else {
        return Ok(None);
    };
    Ok(Some(Relation {
        operand,
        modulus,
        equal,
        among,
    }))
}

// (value | range) (`,` (value | range))*
fn read_among(alloc: Global, tokens: &[Token]) -> Result<Option<List<Listed>>, Memory>
    ensures { IfOk result (λ found. found ≡ among_of tokens.now) }
{
    let mut among = List::new(alloc);
    let mut rest = Some(tokens);
    while let Some(left) = rest {
        let (piece, behind) = cut(left, Joint::Comma);
        let Some(listed) = read_listed(piece) else {
            return Ok(None);
        };
        among.push(listed).map_err(|_| Memory)?;
        rest = behind;
    }
    Ok(Some(among))
}

fn read_listed(tokens: &[Token]) -> Option<Listed>
    ensures { result ≡ listed_of tokens.now }
{
    match tokens {
        [Token::Value(only)] => Some(Listed::Value(*only)),
        [
            Token::Value(first),
            Token::Sign(Sign::To),
            Token::Value(last),
        ] => Some(Listed::Range(*first, *last)),
        _ => None,
    }
}

// What stands before the first such joint, and what stands behind it where there is one.
fn cut(tokens: &[Token], joint: Joint) -> (&[Token], Option<&[Token]>)
    ensures pieces { pieces joint tokens.now ≡ result.0.now ∷ pieces_behind joint (option_copied result.1) }
    ensures shorter { left (option_copied result.1) ≤ length tokens.now }
{
    for (at, token) in tokens.iter().enumerate() {
        if joint.is(*token) {
            return (&tokens[..at], Some(&tokens[at + 1..]));
        }
    }
    (tokens, None)
}

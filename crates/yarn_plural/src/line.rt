//! What a line of a plural file is (docs/formats.md, Plural rules).
ghost use Rattle.std.specs.Prelude.{◌≡◌, IfOk, MatchOption};
ghost use Rattle.yarn_plural.specs.Rules.{IsLine};
ghost use Rattle.yarn_plural.specs.Steps.{meaning_of, without_samples as without_samples_of, IsReadable, line_of_rule, rule_of};

use crate::lines::without_end;
use crate::parse::read_rule;
use crate::rule::{Category, Rule};
use crate::scan::read_tokens;
use crate::table::Form;
use crate::token::{Sign, Token, Word};
use std::alloc::Global;
use yarn_base::Memory;

/// A line that is read.
#[derive(Debug, Drop)]
pub(crate) enum Line {
    /// Blanks, or a comment.
    Ignored,
    /// `cardinal` or `ordinal`.
    Begins(Form),
    Gives(Rule),
}

/// What the line is, and none where it isn't read.
pub(crate) fn read_line(alloc: Global, line: &[u8]) -> Result<Option<Line>, Memory>
    ensures { IfOk result (λ found. MatchOption found (¬ IsReadable line.now) (λ l. IsLine line.now l)) }
{
    let Some(text) = without_end(line) else {
        return Ok(None);
    };
    if str::from_utf8(text).is_err() {
        return Ok(None);
    }
    match read_tokens(alloc, text)? {
        Some(tokens) => read_meaning(alloc, tokens.as_slice()),
        None => Ok(None),
    }
}

fn read_meaning(alloc: Global, tokens: &[Token]) -> Result<Option<Line>, Memory>
    ensures { IfOk result (λ found. found ≡ meaning_of tokens.now) }
{
    match tokens {
        [] | [Token::Comment] => Ok(Some(Line::Ignored)),
        [Token::Word(Word::Form(form))] => Ok(Some(Line::Begins(*form))),
        [
            Token::Word(Word::Category(category)),
            Token::Sign(Sign::Colon),
            rest @ ..,
        ] => read_given(alloc, *category, rest),
        _ => Ok(None),
    }
}

fn read_given(alloc: Global, category: Category, tokens: &[Token]) -> Result<Option<Line>, Memory>
    ensures { IfOk result (λ found. found ≡ line_of_rule (rule_of category (without_samples_of tokens.now))) }
{
    let Some(rule) = read_rule(alloc, category, without_samples(tokens))? else {
        return Ok(None);
    };
    Ok(Some(Line::Gives(rule)))
}

fn without_samples(tokens: &[Token]) -> &[Token]
    ensures { result.now ≡ without_samples_of tokens.now }
{
    let len = tokens.len();
    if len > 0 && tokens[len - 1].is_samples() {
        &tokens[..len - 1]
    } else {
        tokens
    }
}

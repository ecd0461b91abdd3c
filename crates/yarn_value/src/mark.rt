//! What stands at the front of a template's text: a character, an escape or a placeholder.
ghost use Rattle.std.specs.Prelude.{◌≡◌, ◌≢◌, ◌≤◌, ◌+◌, ◌*◌, ◌++◌, ◌∷◌, false, length, MatchOption, IfSome, encode_utf8, None, ◌⊎◌};
ghost use Rattle.yarn_value.specs.Templates.{Plain, Behind, Opened, Digits, marks};
ghost use Rattle.yarn_value.specs.TemplateSteps.{IsStep, digit_next, IsDigit};

use crate::scan::first_char;

/// What stands at the front of a template's text.
#[derive(Clone, Copy, Debug)]
pub(crate) enum Mark {
    /// A character that stands for itself.
    Char(char),
    /// Two backslashes, which both stay.
    Backslashes,
    /// `{` behind a backslash.
    OpenBrace,
    /// `}` behind a backslash.
    CloseBrace,
    /// A placeholder with its number.
    Hole(u32),
}

/// A mark and the text behind it.
#[derive(Clone, Copy, Debug)]
pub(crate) struct Step<'a> {
    pub mark: Mark,
    pub rest: &'a str,
}

/// The mark that begins with the first character; none where it is `{` and begins no
/// placeholder below the number of holes.
pub(crate) fn mark_at(first: char, behind: &str, holes: u32) -> Option<Step<'_>>
    ensures step { MatchOption result (marks holes Plain (encode_utf8 first ++ behind.now) ≡ None) (λ step. IsStep holes Plain (encode_utf8 first ++ behind.now) step) }
    ensures shorter { IfSome result (λ step. length step.rest.now ≤ length behind.now) }
{
    match first {
        '\\' => Some(behind_backslash(behind, holes)),
        '{' => hole(behind, holes),
        _ => Some(Step {
            mark: Mark::Char(first),
            rest: behind,
        }),
    }
}

/// The mark whose backslash stands before the text.
fn behind_backslash(text: &str, holes: u32) -> Step<'_>
    ensures { IsStep holes Behind text.now result }
{
    match first_char(text) {
        None => Step {
            mark: Mark::Char('\\'),
            rest: text,
        },
        Some((first, rest)) => match first {
            '{' => Step {
                mark: Mark::OpenBrace,
                rest,
            },
            '}' => Step {
                mark: Mark::CloseBrace,
                rest,
            },
            '\\' => Step {
                mark: Mark::Backslashes,
                rest,
            },
            _ => Step {
                mark: Mark::Char('\\'),
                rest: text,
            },
        },
    }
}

/// The placeholder whose `{` stands before the text.
fn hole(text: &str, holes: u32) -> Option<Step<'_>>
    ensures { MatchOption result (marks holes Opened text.now ≡ None) (λ step. IsStep holes Opened text.now step) }
{
    let (first, behind) = first_digit(text)?;
    let mut number = first;
    let mut rest = behind;
    while let Some((digit, after)) = first_digit(rest) {
        match longer(number, digit, holes) {
            Some(more) => number = more,
            None => return None,
        }
        rest = after;
    }
    closed(number, rest, holes)
}

/// The value of the first character, where that is a digit, and what stands behind it.
fn first_digit(text: &str) -> Option<(u32, &str)>
    ensures { MatchOption result (digit_next text.now ≡ false) (λ p. IsDigit text.now p.0 p.1.now) }
{
    let (first, rest) = first_char(text)?;
    if first >= '0' && first <= '9' {
        Some((first as u32 - 48, rest))
    } else {
        None
    }
}

/// The number with one more digit: none behind a leading zero, and none at the number of holes
/// and above.
fn longer(number: u32, digit: u32, holes: u32) -> Option<u32>
    ensures { MatchOption result ((number ≡ 0) ⊎ (holes ≤ number * 10 + digit)) (λ n. (n ≡ number * 10 + digit) × (number ≢ 0)) }
{
    if number == 0 {
        return None;
    }
    let longer = number.checked_mul(10)?.checked_add(digit)?;
    if longer < holes { Some(longer) } else { None }
}

/// The placeholder of that number, where its `}` stands at the front.
fn closed(number: u32, text: &str, holes: u32) -> Option<Step<'_>>
    requires { digit_next text.now ≡ false }
    ensures { MatchOption result (marks holes (Digits number) text.now ≡ None) (λ step. IsStep holes (Digits number) text.now step) }
{
    let (first, rest) = first_char(text)?;
    if first == '}' && number < holes {
        Some(Step {
            mark: Mark::Hole(number),
            rest,
        })
    } else {
        None
    }
}

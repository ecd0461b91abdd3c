//! Runs of characters at the front of a text, and texts and names made of them.
ghost use Rattle.std.specs.Prelude.{◌≡◌, ◌≤◌, ◌∷◌, [], length, IfOk, MatchOption, encode_utf8_all};
ghost use Rattle.yarn_base.specs.Name.{is_name_of, starts_name, continues_name};
ghost use Rattle.std.specs.List.{list_all};
ghost use Rattle.std.specs.Str.{chars};
ghost use Rattle.unicode_ident.specs.Ident.{is_xid_continue};
ghost use Rattle.yarn_markup.specs.Characters.{is_blank, is_word, run_length, past_blanks, is_property_name};

use std::alloc::Global;
use yarn_base::{Memory, Text};

pub(crate) fn is_blank(c: char) -> bool
    ensures { result ≡ is_blank c }
{
    c == ' ' || c == '\t'
}

fn is_word(c: char) -> bool
    ensures { result ≡ is_word c }
{
    !(is_blank(c) || c == '[' || c == ']' || c == '/' || c == '"' || c == '=')
}

/// How many characters of a word stand at the front.
pub(crate) fn word_length(text: &[char]) -> usize
    ensures value { result ≡ run_length is_word text.now }
    ensures within { result ≤ length text.now }
{
    for (at, c) in text.iter().enumerate() {
        if !is_word(*c) {
            return at;
        }
    }
    text.len()
}

/// What follows the blanks at the front.
pub(crate) fn past_blanks(text: &[char]) -> &[char]
    ensures { result.now ≡ past_blanks text.now }
{
    let mut rest = text;
    while let [c, behind @ ..] = rest {
        if !is_blank(*c) {
            return rest;
        }
        rest = behind;
    }
    rest
}

/// The characters of a text.
#[tactic(auto, using(std::proofs::lemmas::Str::chars_from_encodes))]
pub(crate) fn characters_of(alloc: Global, text: &str) -> Result<Vec<char>, Memory>
    ensures { IfOk result (λ all. all.items ≡ chars text.now) }
{
    Ok(text.chars().collect(alloc)?)
}

/// The first character, and what follows it.
pub(crate) fn first_in(text: &[char]) -> Option<(char, &[char])>
    ensures { MatchOption result (text.now ≡ []) (λ p. text.now ≡ p.0 ∷ p.1.now) }
{
    match text {
        [c, rest @ ..] => Some((*c, rest)),
        [] => None,
    }
}

/// A text of these characters.
pub(crate) fn text_of(alloc: Global, characters: &[char]) -> Result<Text, Memory>
    ensures { IfOk result (λ text. text ≡ encode_utf8_all characters.now) }
{
    let mut text = Text::from_str(alloc, "")?;
    for c in characters {
        text.push_char(*c)?;
    }
    Ok(text)
}

/// Whether the characters are a name (docs/language.md, Nodes).
pub(crate) fn is_name_in(characters: &[char]) -> bool
    ensures { result ≡ is_name_of characters.now }
{
    match characters {
        [] => false,
        [first, rest @ ..] => starts(*first) && all_continue(rest),
    }
}

fn starts(c: char) -> bool
    ensures { result ≡ starts_name c }
{
    unicode_ident::is_xid_start(c) || c == '_'
}

fn all_continue(rest: &[char]) -> bool
    ensures { result ≡ list_all continues_name rest.now }
{
    rest.iter()
        .all(|c| unicode_ident::is_xid_continue(*c) || *c == '.')
}

/// Whether the characters are the name of a property.
pub(crate) fn is_property_name_in(characters: &[char]) -> bool
    ensures { result ≡ is_property_name characters.now }
{
    match characters {
        [] => false,
        _ => all_in_property(characters),
    }
}

fn all_in_property(characters: &[char]) -> bool
    ensures { result ≡ list_all is_xid_continue characters.now }
{
    characters
        .iter()
        .all(|c| unicode_ident::is_xid_continue(*c))
}

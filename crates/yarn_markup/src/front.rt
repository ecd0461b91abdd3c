//! What stands at the front of a text: a character or a `[`.
ghost use Rattle.std.specs.Prelude.{◌≡◌};
ghost use Rattle.yarn_markup.specs.Characters.{is_escaped};
ghost use Rattle.yarn_markup.specs.Steps.{front_seen};
ghost use Rattle.yarn_markup.specs.Pieces.{front, behind_backslash};

/// What stands at the front of a text, and what follows it.
#[derive(Clone, Copy)]
pub(crate) enum Front<'a> {
    Nothing,
    /// A character of the plain text.
    Character(char, &'a [char]),
    /// A `[`.
    Bracket(&'a [char]),
}

pub(crate) fn front_of(text: &[char]) -> Front<'_>
    ensures { front_seen result ≡ front text.now }
{
    match text {
        [] => Front::Nothing,
        ['\\', behind @ ..] => behind_backslash(behind),
        ['[', behind @ ..] => Front::Bracket(behind),
        [c, behind @ ..] => Front::Character(*c, behind),
    }
}

fn behind_backslash(text: &[char]) -> Front<'_>
    ensures { front_seen result ≡ behind_backslash text.now }
{
    match text {
        [c, behind @ ..] if is_escaped(*c) => Front::Character(*c, behind),
        _ => Front::Character('\\', text),
    }
}

fn is_escaped(c: char) -> bool
    ensures { result ≡ is_escaped c }
{
    c == '\\' || c == '[' || c == ']'
}

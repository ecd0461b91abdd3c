//! The front of a text.
ghost use Rattle.std.specs.Prelude.{◌≡◌, IsUtf8, true, codes};
ghost use Rattle.yarn_lines.specs.Lines.{begins_with};
ghost use Rattle.yarn_items.specs.Text.{begins_pair};
ghost use Rattle.yarn_items.specs.Written.{IsFirst};

use crate::brace::length_to_brace;
use crate::run::{begins_pair_in, chars_length_in, game_length_in, lost_length_in};

/// Whose text it is.
#[derive(Clone, Copy)]
pub(crate) enum Kind {
    /// That of a line or an option.
    Line,
    /// That of a command for the game.
    Game,
}

/// What stands at the front of a text.
pub(crate) enum First<'a> {
    /// Bytes that string tables have, and what follows them.
    Kept(&'a [u8], &'a [u8]),
    /// What stands in a substitution, and what follows it.
    Hole(&'a [u8], &'a [u8]),
    /// The end of the text.
    Ends,
    /// A substitution that doesn't end.
    Broken,
}

/// The front of the text.
pub(crate) fn first_in(kind: Kind, bytes: &[u8]) -> First<'_>
    requires { IsUtf8 bytes.now }
    ensures { IsFirst kind bytes.now result }
{
    match kind {
        Kind::Line => first_of_line(bytes),
        Kind::Game => first_of_game(bytes),
    }
}

fn first_of_line(bytes: &[u8]) -> First<'_>
    requires { IsUtf8 bytes.now }
    ensures { IsFirst Kind.Line bytes.now result }
{
    let length = chars_length_in(bytes);
    if length > 0 {
        First::Kept(&bytes[..length], &bytes[length..])
    } else if begins_pair_in(bytes) {
        pair_in(bytes)
    } else if bytes.starts_with(b"{") {
        hole_in(Kind::Line, bytes)
    } else {
        First::Ends
    }
}

// The pair at the front, as string tables have it.
fn pair_in(bytes: &[u8]) -> First<'_>
    requires utf8 { IsUtf8 bytes.now }
    requires pair { begins_pair bytes.now ≡ true }
    ensures { IsFirst Kind.Line bytes.now result }
{
    let from = lost_length_in(bytes[1]);
    First::Kept(&bytes[from..2], &bytes[2..])
}

fn first_of_game(bytes: &[u8]) -> First<'_>
    requires { IsUtf8 bytes.now }
    ensures { IsFirst Kind.Game bytes.now result }
{
    let length = game_length_in(bytes);
    if length > 0 {
        First::Kept(&bytes[..length], &bytes[length..])
    } else if bytes.is_empty() {
        First::Ends
    } else {
        hole_in(Kind::Game, bytes)
    }
}

// The substitution at the front.
fn hole_in(kind: Kind, bytes: &[u8]) -> First<'_>
    requires utf8 { IsUtf8 bytes.now }
    requires begins { begins_with (codes "{") bytes.now ≡ true }
    ensures { IsFirst kind bytes.now result }
{
    let behind = &bytes[1..];
    match length_to_brace(behind) {
        Some(length) => First::Hole(&behind[..length], &behind[length + 1..]),
        None => First::Broken,
    }
}

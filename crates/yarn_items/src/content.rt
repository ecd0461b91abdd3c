//! The content of a command: where the `>>` stands that ends it.
ghost use Rattle.std.specs.Prelude.{◌≡◌, ◌≤◌, length, IsUtf8, false};
ghost use Rattle.yarn_items.specs.ContentForm.{in_content as in_content_of, in_hole as in_hole_of, skipping as skipping_of, past_content as past_content_of, past_hole as past_hole_of, past_byte as past_byte_of, can_end as can_end_of, content_length, content_found, IsContentAnswer};

use yarn_lines::without_blanks;

/// What the bytes before a byte of a content have begun.
#[derive(Clone, Copy)]
struct Place {
    /// A quoted string of the content.
    quoted: bool,
    /// A substitution, and in it a quoted string or not.
    hole: Option<bool>,
    /// A `\` that skips the byte.
    skipped: bool,
}

/// A content between blanks, and what follows its `>>`.
#[derive(Clone, Copy)]
pub(crate) struct ContentRead<'a> {
    pub own: &'a [u8],
    pub rest: &'a [u8],
}

/// The content behind a `<<`, which may be one for the game or not. None: it doesn't end.
pub(crate) fn content_in(games: bool, bytes: &[u8]) -> Option<ContentRead<'_>>
    requires { IsUtf8 bytes.now }
    ensures { IsContentAnswer (content_found games bytes.now) result }
{
    let (inside, behind) = bytes.split_at(content_length_in(games, bytes));
    let rest = behind.strip_prefix(b">>")?;
    Some(ContentRead {
        own: without_blanks(inside),
        rest,
    })
}

// How many bytes stand before the `>>`; all of them where none ends the content.
fn content_length_in(games: bool, bytes: &[u8]) -> usize
    ensures value { result ≡ content_length games (in_content_of false) bytes.now }
    ensures within { result ≤ length bytes.now }
{
    let mut place = in_content(false);
    for (at, byte) in bytes.iter().enumerate() {
        if can_end(place) && bytes[at..].starts_with(b">>") {
            return at;
        }
        place = past_byte(games, place, *byte);
    }
    bytes.len()
}

// Whether a `>>` there would end the content.
fn can_end(place: Place) -> bool
    ensures { result ≡ can_end_of place }
{
    place.hole.is_none() && !place.skipped && !place.quoted
}

fn past_byte(games: bool, place: Place, byte: u8) -> Place
    ensures { result ≡ past_byte_of games place byte }
{
    if place.skipped {
        return Place {
            skipped: false,
            ..place
        };
    }
    match place.hole {
        Some(own) => past_hole(place.quoted, own, byte),
        None => past_content(games, place.quoted, byte),
    }
}

fn past_content(games: bool, quoted: bool, byte: u8) -> Place
    ensures { result ≡ past_content_of games quoted byte }
{
    match byte {
        b'"' => in_content(!quoted),
        b'\\' => skipping(in_content(quoted)),
        b'{' if games => in_hole(quoted, false),
        _ => in_content(quoted),
    }
}

fn past_hole(quoted: bool, own: bool, byte: u8) -> Place
    ensures { result ≡ past_hole_of quoted own byte }
{
    match byte {
        b'"' => in_hole(quoted, !own),
        b'\\' if own => skipping(in_hole(quoted, own)),
        b'}' if !own => in_content(quoted),
        _ => in_hole(quoted, own),
    }
}

// Outside a substitution; in a quoted string or not.
fn in_content(quoted: bool) -> Place
    ensures { result ≡ in_content_of quoted }
{
    Place {
        quoted,
        hole: None,
        skipped: false,
    }
}

// In a substitution, which has a quoted string of its own or not.
fn in_hole(quoted: bool, own: bool) -> Place
    ensures { result ≡ in_hole_of quoted own }
{
    Place {
        quoted,
        hole: Some(own),
        skipped: false,
    }
}

fn skipping(place: Place) -> Place
    ensures { result ≡ skipping_of place }
{
    Place {
        skipped: true,
        ..place
    }
}

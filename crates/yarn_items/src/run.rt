//! How far bytes of a text are written as they stand.
ghost use Rattle.std.specs.Prelude.{◌≡◌, ◌≤◌, ◌<◌, length, false};
ghost use Rattle.yarn_items.specs.Text.{is_escaped, begins_pair, begins_other};
ghost use Rattle.yarn_items.specs.Run.{is_char_at, chars_length, begins_more, lost_length, begins_hole, begins_skip, game_length};

use crate::table::is_special_byte;

/// How many characters of a line's text stand at the front.
pub(crate) fn chars_length_in(bytes: &[u8]) -> usize
    ensures value { result ≡ chars_length bytes.now }
    ensures within { result ≤ length bytes.now }
{
    let mut at = 0;
    while at < bytes.len() {
        if !is_char_in(&bytes[at..]) {
            return at;
        }
        at += 1;
    }
    at
}

// Whether the first byte is a character of a line's text.
fn is_char_in(bytes: &[u8]) -> bool
    requires { 0 < length bytes.now }
    ensures { result ≡ is_char_at bytes.now }
{
    !is_special_byte(bytes[0]) || !begins_pair_in(bytes) && !begins_other_in(bytes)
}

pub(crate) fn begins_pair_in(bytes: &[u8]) -> bool
    ensures { result ≡ begins_pair bytes.now }
{
    match bytes {
        [first, second, ..] => *first == b'\\' && is_escaped_byte(*second),
        _ => false,
    }
}

fn is_escaped_byte(byte: u8) -> bool
    ensures { result ≡ is_escaped byte }
{
    matches!(
        byte,
        b'\\' | b'{' | b'}' | b'[' | b']' | b'#' | b'/' | b'<' | b'>'
    )
}

/// Whether a pair or a substitution begins there.
pub(crate) fn begins_more_in(bytes: &[u8]) -> bool
    ensures { result ≡ begins_more bytes.now }
{
    begins_pair_in(bytes) || bytes.starts_with(b"{")
}

/// How many bytes of a pair with that character string tables don't have.
pub(crate) fn lost_length_in(byte: u8) -> usize
    ensures value { result ≡ lost_length byte }
    ensures within { result ≤ 1 }
{
    if matches!(byte, b'\\' | b'{' | b'}' | b'[' | b']') {
        0
    } else {
        1
    }
}

fn begins_other_in(bytes: &[u8]) -> bool
    ensures { result ≡ begins_other bytes.now }
{
    bytes.starts_with(b"{")
        || bytes.starts_with(b"#")
        || bytes.starts_with(b"//")
        || bytes.starts_with(b"<<")
}

/// How many bytes stand before a substitution of a command for the game.
pub(crate) fn game_length_in(bytes: &[u8]) -> usize
    ensures value { result ≡ game_length false bytes.now }
    ensures within { result ≤ length bytes.now }
{
    let mut skips = false;
    for (at, byte) in bytes.iter().enumerate() {
        if begins_hole_in(skips, *byte) {
            return at;
        }
        skips = begins_skip_in(skips, *byte);
    }
    bytes.len()
}

fn begins_hole_in(skips: bool, byte: u8) -> bool
    ensures { result ≡ begins_hole skips byte }
{
    !skips && byte == b'{'
}

fn begins_skip_in(skips: bool, byte: u8) -> bool
    ensures { result ≡ begins_skip skips byte }
{
    !skips && byte == b'\\'
}

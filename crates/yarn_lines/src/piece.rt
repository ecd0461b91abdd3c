//! The pieces of a file that LFs end, and the parts of one: its blanks and its text.
ghost use Rattle.std.specs.Prelude.{◌≡◌, ◌≤◌, ◌<◌, ◌∷◌, length, take, drop};
ghost use Rattle.yarn_lines.specs.Lines.{pieces_of, is_blank, without_cr, without_trailing, leading, past_leading, content, text_of};
ghost use Rattle.yarn_lines.specs.Piece.{length_to_lf};

use memchr::memchr;
use yarn_base::WholeText;

/// The first line of the bytes without its LF, and what stands behind the LF.
pub fn first_piece(bytes: &[u8]) -> (&[u8], &[u8])
    requires { 0 < length bytes.now }
    ensures pieces { pieces_of bytes.now ≡ result.0.now ∷ pieces_of result.1.now }
    ensures shorter { length result.1.now < length bytes.now }
{
    let end = first_lf(bytes);
    if end < bytes.len() {
        (&bytes[..end], &bytes[end + 1..])
    } else {
        (bytes, &[])
    }
}

/// The first line of what stands behind that place, without its LF.
pub(crate) fn piece_at(whole: &WholeText, at: usize) -> &[u8]
    requires { at ≤ length whole.now }
    ensures { result.now ≡ take (length_to_lf (drop at whole.now)) (drop at whole.now) }
{
    let rest = &whole.as_str().as_bytes()[at..];
    &rest[..first_lf(rest)]
}

// The place of the first LF, and of the end where there is none.
#[tactic(auto, using(crate::proofs::LfLemmas::lfs))]
fn first_lf(bytes: &[u8]) -> usize
    ensures value { result ≡ length_to_lf bytes.now }
    ensures within { result ≤ length bytes.now }
{
    match memchr(b'\n', bytes) {
        Some(at) => at,
        None => bytes.len(),
    }
}

/// The text of a line: without a CR at its end and without the blanks around it.
pub fn text_in(piece: &[u8]) -> &[u8]
    ensures { result.now ≡ text_of piece.now }
{
    past_leading_in(content_in(piece))
}

pub(crate) fn past_leading_in(bytes: &[u8]) -> &[u8]
    ensures { result.now ≡ past_leading bytes.now }
{
    &bytes[leading_length(bytes)..]
}

/// A line without its end: without a CR there, and then without the blanks there.
pub(crate) fn content_in(piece: &[u8]) -> &[u8]
    ensures { result.now ≡ content piece.now }
{
    without_trailing_in(without_cr_in(piece))
}

fn without_cr_in(piece: &[u8]) -> &[u8]
    ensures { result.now ≡ without_cr piece.now }
{
    let len = piece.len();
    if 0 < len && piece[len - 1] == b'\r' {
        &piece[..len - 1]
    } else {
        piece
    }
}

pub(crate) fn without_trailing_in(bytes: &[u8]) -> &[u8]
    ensures { result.now ≡ without_trailing bytes.now }
{
    let mut end = bytes.len();
    while 0 < end && is_blank_byte(bytes[end - 1]) {
        end -= 1;
    }
    &bytes[..end]
}

/// How many blanks stand at the front.
pub(crate) fn leading_length(bytes: &[u8]) -> usize
    ensures value { result ≡ length (leading bytes.now) }
    ensures within { result ≤ length bytes.now }
{
    for (at, byte) in bytes.iter().enumerate() {
        if !is_blank_byte(*byte) {
            return at;
        }
    }
    bytes.len()
}

fn is_blank_byte(byte: u8) -> bool
    ensures { result ≡ is_blank byte }
{
    byte == b' ' || byte == b'\t'
}

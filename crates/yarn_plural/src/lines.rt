//! The lines of a plural file (docs/formats.md, Plural rules).
ghost use Rattle.std.specs.Prelude.{◌≡◌, ◌<◌, ◌≤◌, ◌∷◌, length, MatchOption, None, Some};
ghost use Rattle.yarn_plural.specs.Lines.{lines_of, without_end as without_end_of, without_cr as without_cr_of, ends_with as ends_with_of, without_last as without_last_of};
ghost use Rattle.yarn_plural.specs.Steps.{length_to_lf};

/// The first line of the bytes with its end, and what stands behind it.
pub(crate) fn first_line(bytes: &[u8]) -> (&[u8], &[u8])
    requires { 0 < length bytes.now }
    ensures lines { lines_of bytes.now ≡ result.0.now ∷ lines_of result.1.now }
    ensures shorter { length result.1.now < length bytes.now }
{
    let end = first_lf(bytes);
    if end < bytes.len() {
        bytes.split_at(end + 1)
    } else {
        (bytes, &[])
    }
}

// The place of the first LF, and of the end where there is none.
fn first_lf(bytes: &[u8]) -> usize
    ensures value { result ≡ length_to_lf bytes.now }
    ensures within { result ≤ length bytes.now }
{
    for (at, byte) in bytes.iter().enumerate() {
        if *byte == b'\n' {
            return at;
        }
    }
    bytes.len()
}

/// A line without its end, and none where it ends with a CR that stands before no LF.
pub(crate) fn without_end(line: &[u8]) -> Option<&[u8]>
    ensures { MatchOption result (without_end_of line.now ≡ None) (λ text. without_end_of line.now ≡ Some text.now) }
{
    if ends_with(line, b'\n') {
        Some(without_cr(without_last(line)))
    } else if ends_with(line, b'\r') {
        None
    } else {
        Some(line)
    }
}

fn without_cr(text: &[u8]) -> &[u8]
    ensures { result.now ≡ without_cr_of text.now }
{
    if ends_with(text, b'\r') {
        without_last(text)
    } else {
        text
    }
}

fn ends_with(text: &[u8], last: u8) -> bool
    ensures { result ≡ ends_with_of last text.now }
{
    let len = text.len();
    len > 0 && text[len - 1] == last
}

fn without_last(text: &[u8]) -> &[u8]
    ensures { result.now ≡ without_last_of text.now }
{
    let len = text.len();
    if len > 0 { &text[..len - 1] } else { text }
}

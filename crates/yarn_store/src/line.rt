//! The lines of a variables file (docs/formats.md, Variables file).
ghost use Rattle.std.specs.Prelude.{◌≡◌, ◌≤◌, ◌<◌, ◌∷◌, length};
ghost use Rattle.yarn_store.specs.Lines.{lines_of};
ghost use Rattle.yarn_store.specs.Steps.{length_to_lf, without_cr as without_cr_of};

/// The first line of the bytes without its end, and what stands behind it.
pub(crate) fn first_line(bytes: &[u8]) -> (&[u8], &[u8])
    requires { 0 < length bytes.now }
    ensures lines { lines_of bytes.now ≡ result.0.now ∷ lines_of result.1.now }
    ensures shorter { length result.1.now < length bytes.now }
    ensures within { length result.0.now ≤ length bytes.now }
{
    let end = first_lf(bytes);
    if end < bytes.len() {
        (without_cr(&bytes[..end]), &bytes[end + 1..])
    } else {
        (bytes, &[])
    }
}

// The place of the first LF, and of the end where there is none.
fn first_lf(bytes: &[u8]) -> usize
    ensures value { result ≡ length_to_lf bytes.now }
    ensures within { result ≤ length bytes.now }
{
    for (at, byte) in bytes.iter().enumerate() {
        if *byte == b'\n' {
            return at;
        }
    }
    bytes.len()
}

fn without_cr(line: &[u8]) -> &[u8]
    ensures value { result.now ≡ without_cr_of line.now }
    ensures within { length result.now ≤ length line.now }
{
    let len = line.len();
    if 0 < len && line[len - 1] == b'\r' {
        &line[..len - 1]
    } else {
        line
    }
}

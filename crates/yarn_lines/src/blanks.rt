//! A part of a line without the blanks around it.
ghost use Rattle.std.specs.Prelude.{◌≡◌};
ghost use Rattle.yarn_lines.specs.Lines.{past_leading, without_trailing};

use crate::piece::{past_leading_in, without_trailing_in};

/// The bytes without the spaces and tabs at both ends.
pub fn without_blanks(bytes: &[u8]) -> &[u8]
    ensures { result.now ≡ past_leading (without_trailing bytes.now) }
{
    past_leading_in(without_trailing_in(bytes))
}

/// The bytes without the spaces and tabs at the end.
pub fn without_blanks_behind(bytes: &[u8]) -> &[u8]
    ensures { result.now ≡ without_trailing bytes.now }
{
    without_trailing_in(bytes)
}

/// The bytes without the spaces and tabs at the front.
pub fn without_blanks_before(bytes: &[u8]) -> &[u8]
    ensures { result.now ≡ past_leading bytes.now }
{
    past_leading_in(bytes)
}

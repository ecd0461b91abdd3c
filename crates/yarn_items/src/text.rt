//! The line text at the front of a line: what string tables have of it, and its substitutions.
ghost use Rattle.std.specs.Prelude.{◌≡◌, IfOk, IsUtf8};
ghost use Rattle.yarn_items.specs.Text.{trimmed};
ghost use Rattle.yarn_items.specs.TextForm.{text_found, IsTextAnswer};

use crate::bytes::copied;
use crate::first::Kind;
use crate::item::Literals;
use crate::pieces::{read_pieces, without_literals};
use crate::run::{begins_more_in, chars_length_in};
use std::alloc::Global;
use yarn_base::{List, Memory, Text};
use yarn_expr::Expr;
use yarn_lines::without_blanks;

/// A text, and what follows it.
#[derive(Drop)]
pub(crate) struct TextRead<'a> {
    pub text: Text,
    pub holes: List<Expr>,
    pub literals: Literals,
    pub rest: &'a [u8],
}

/// The text up to the end of the line, a hashtag, a comment or a condition. None: a substitution doesn't end, or holds no expression.
pub(crate) fn read_text(alloc: Global, bytes: &[u8]) -> Result<Option<TextRead<'_>>, Memory>
    requires { IsUtf8 bytes.now }
    ensures { IfOk result (IsTextAnswer (text_found bytes.now)) }
{
    let length = chars_length_in(bytes);
    if begins_more_in(&bytes[length..]) {
        read_with_pieces(alloc, bytes)
    } else {
        Ok(Some(TextRead {
            text: trimmed_copy(alloc, &bytes[..length])?,
            holes: List::new(alloc),
            literals: without_literals(),
            rest: &bytes[length..],
        }))
    }
}

// The same of a text that has pairs or substitutions.
fn read_with_pieces(alloc: Global, bytes: &[u8]) -> Result<Option<TextRead<'_>>, Memory>
    requires { IsUtf8 bytes.now }
    ensures { IfOk result (IsTextAnswer (text_found bytes.now)) }
{
    match read_pieces(alloc, Kind::Line, bytes)? {
        Some(read) => {
            let text = trimmed_copy(alloc, read.text.as_str().as_bytes())?;
            Ok(Some(TextRead {
                text,
                holes: read.holes,
                literals: read.literals,
                rest: read.rest,
            }))
        }
        None => Ok(None),
    }
}

fn trimmed_copy(alloc: Global, bytes: &[u8]) -> Result<Text, Memory>
    requires { IsUtf8 bytes.now }
    ensures { IfOk result (λ own. own ≡ trimmed bytes.now) }
{
    copied(alloc, without_blanks(bytes))
}

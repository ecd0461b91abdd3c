//! Where the text of a line ends before its comment.
ghost use Rattle.std.specs.Prelude.{◌≡◌, List as Items, Option as Maybe};
ghost use Rattle.yarn_expr.specs.declared.token.Token.{Token as TokenOf};
ghost use Rattle.yarn_expr.specs.declared.tree.Expr.{Expr as ExprOf};
ghost use Rattle.yarn_items.specs.declared.item.Said.{Said as SaidOf};
ghost use Rattle.yarn_items.specs.Item.{IsLine, IsOffer};
ghost use Rattle.yarn_items.specs.Text.{begins_pair, is_escaped, is_tag_byte};
ghost use Rattle.yarn_tree.specs.End.{EndsAt};
ghost use Rattle.yarn_tree.specs.Scan.{end_of, front_of, part_step, text_step, within_text, hole_step, condition_step};
ghost use Rattle.yarn_tree.specs.declared.end.Part.TheVariants as part;

use yarn_base::Text;
use yarn_lines::without_blanks_behind;

/// What a byte of a line is part of.
#[derive(Clone, Copy)]
enum Part {
    InText,
    /// The second character of a pair.
    InPair,
    /// A substitution, in a quoted string or outside.
    InHole(bool),
    SkippedInHole,
    /// The second `<` of a condition.
    Opens,
    /// The content of a condition, in a quoted string or outside.
    InCondition(bool),
    SkippedInCondition(bool),
    /// The second `>` of a condition.
    Closes,
    InTag,
}

/// The place behind the last character of a line that is said, or of an option, that is neither blank nor part of its
/// comment.
pub fn text_end(text: &Text) -> usize
    ensures value { result ≡ end_of text.now }
    ensures line { (tokens : Items TokenOf) (said : SaidOf) → IsLine text.now tokens said → EndsAt text.now result }
    ensures offer { (tokens : Items TokenOf) (said : SaidOf) (asked : Maybe ExprOf) → IsOffer text.now tokens said asked → EndsAt text.now result }
{
    without_blanks_behind(before_comment(text.as_str().as_bytes())).len()
}

fn before_comment(bytes: &[u8]) -> &[u8]
    ensures { result.now ≡ front_of part.InText bytes.now }
{
    let mut part = Part::InText;
    for at in 0..bytes.len() {
        match part.behind(bytes[at], &bytes[at..]) {
            Some(next) => part = next,
            None => return &bytes[..at],
        }
    }
    bytes
}

impl Part {
    // The part behind the first byte of these; none where a comment begins.
    fn behind(self, byte: u8, bytes: &[u8]) -> Option<Part>
        ensures { result ≡ part_step self byte bytes.now }
    {
        match self {
            Part::InText => behind_text(bytes),
            Part::InPair | Part::Closes => Some(Part::InText),
            Part::InHole(quoted) => Some(behind_hole(quoted, byte)),
            Part::SkippedInHole => Some(Part::InHole(true)),
            Part::Opens => Some(Part::InCondition(false)),
            Part::InCondition(quoted) => Some(behind_condition(quoted, byte, bytes)),
            Part::SkippedInCondition(quoted) => Some(Part::InCondition(quoted)),
            Part::InTag => {
                if is_tag_byte(byte) {
                    Some(Part::InTag)
                } else {
                    behind_text(bytes)
                }
            }
        }
    }
}

fn behind_text(bytes: &[u8]) -> Option<Part>
    ensures { result ≡ text_step bytes.now }
{
    if bytes.starts_with(b"//") {
        None
    } else {
        Some(within_text(bytes))
    }
}

fn within_text(bytes: &[u8]) -> Part
    ensures { result ≡ within_text bytes.now }
{
    if bytes.starts_with(b"{") {
        Part::InHole(false)
    } else if bytes.starts_with(b"#") {
        Part::InTag
    } else if bytes.starts_with(b"<<") {
        Part::Opens
    } else if begins_pair(bytes) {
        Part::InPair
    } else {
        Part::InText
    }
}

fn begins_pair(bytes: &[u8]) -> bool
    ensures { result ≡ begins_pair bytes.now }
{
    bytes.len() > 1 && bytes[0] == b'\\' && is_escaped(bytes[1])
}

fn is_escaped(byte: u8) -> bool
    ensures { result ≡ is_escaped byte }
{
    b"\\{}[]#/<>".contains(&byte)
}

fn is_tag_byte(byte: u8) -> bool
    ensures { result ≡ is_tag_byte byte }
{
    byte != b' ' && byte != b'\t' && byte != b'#'
}

fn behind_hole(quoted: bool, byte: u8) -> Part
    ensures { result ≡ hole_step quoted byte }
{
    if byte == b'"' {
        Part::InHole(!quoted)
    } else if quoted && byte == b'\\' {
        Part::SkippedInHole
    } else if !quoted && byte == b'}' {
        Part::InText
    } else {
        Part::InHole(quoted)
    }
}

fn behind_condition(quoted: bool, byte: u8, bytes: &[u8]) -> Part
    ensures { result ≡ condition_step quoted byte bytes.now }
{
    if byte == b'"' {
        Part::InCondition(!quoted)
    } else if byte == b'\\' {
        Part::SkippedInCondition(quoted)
    } else if !quoted && bytes.starts_with(b">>") {
        Part::Closes
    } else {
        Part::InCondition(quoted)
    }
}

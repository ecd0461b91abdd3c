//! A text piece by piece, up to its end.
ghost use Rattle.std.specs.Prelude.{◌≡◌, ◌++◌, ◌∷◌, [], length, IfOk, OnOk, IsUtf8, string_bytes};
ghost use Rattle.yarn_items.specs.Text.{hole_text};
ghost use Rattle.yarn_items.specs.Item.{literals_of};
ghost use Rattle.yarn_items.specs.Written.{written, both_literals, no_literals, IsWrittenAnswer};

use crate::first::{First, Kind, first_in};
use crate::item::Literals;
use crate::text::TextRead;
use std::alloc::Global;
use std::str;
use yarn_base::{List, Memory, Text};
use yarn_commands::{Part, read_expression};
use yarn_expr::{Expr, Token, has_fraction, has_large};

/// What is read of a text so far.
#[derive(Drop)]
struct Reading {
    text: String,
    holes: List<Expr>,
    literals: Literals,
}

/// The text with the blanks around it. None: a substitution doesn't end, or holds no expression.
pub(crate) fn read_pieces(
    alloc: Global,
    kind: Kind,
    bytes: &[u8],
) -> Result<Option<TextRead<'_>>, Memory>
    requires { IsUtf8 bytes.now }
    ensures { IfOk result (IsWrittenAnswer (written kind 0 bytes.now)) }
{
    let mut reading = Reading::new(alloc);
    let mut rest = bytes;
    loop {
        match first_in(kind, rest) {
            First::Kept(own, behind) => {
                reading.push_kept(own)?;
                rest = behind;
            }
            First::Hole(inside, behind) => match read_expression(alloc, str_in(inside))? {
                Some(part) => {
                    reading.push_part(part)?;
                    rest = behind;
                }
                None => return Ok(None),
            },
            First::Ends => {
                let read = reading.into_read(rest)?;
                return Ok(Some(read));
            }
            First::Broken => return Ok(None),
        }
    }
}

impl Reading {
    fn new(alloc: Global) -> Reading
        ensures text { string_bytes result.text ≡ [] }
        ensures holes { result.holes ≡ [] }
        ensures literals { result.literals ≡ no_literals }
    {
        Reading {
            text: String::new(alloc),
            holes: List::new(alloc),
            literals: without_literals(),
        }
    }

    fn push_kept(&mut self, own: &[u8]) -> Result<(), Memory>
        requires { IsUtf8 own.now }
        ensures text { OnOk result (string_bytes self.new.text ≡ string_bytes self.old.text ++ own.now) }
        ensures holes { OnOk result (self.new.holes ≡ self.old.holes) }
        ensures literals { OnOk result (self.new.literals ≡ self.old.literals) }
    {
        self.text.push_str(str_in(own))?;
        Ok(())
    }

    // `{k}` for the substitution at place k, and its expression.
    fn push_part(&mut self, part: Part) -> Result<(), Memory>
        ensures text { OnOk result (string_bytes self.new.text ≡ string_bytes self.old.text ++ hole_text (length self.old.holes)) }
        ensures holes { OnOk result (self.new.holes ≡ self.old.holes ++ part.expr ∷ []) }
        ensures literals { OnOk result (self.new.literals ≡ both_literals self.old.literals (literals_of part.tokens)) }
    {
        let place = self.holes.len();
        write!(self.text, "{{{place}}}")?;
        self.literals = with_literals(self.literals, part.tokens.as_slice());
        push_expr(&mut self.holes, part.expr)
    }

    fn into_read(self, rest: &[u8]) -> Result<TextRead<'_>, Memory>
        ensures text { IfOk result (λ read. read.text ≡ string_bytes self.text) }
        ensures holes { IfOk result (λ read. read.holes ≡ self.holes) }
        ensures literals { IfOk result (λ read. read.literals ≡ self.literals) }
        ensures rest { IfOk result (λ read. read.rest.now ≡ rest.now) }
    {
        let text = Text::from_string(self.text).map_err(|_| Memory)?;
        Ok(TextRead {
            text,
            holes: self.holes,
            literals: self.literals,
            rest,
        })
    }
}

/// Nothing that can't be kept.
pub(crate) fn without_literals() -> Literals
    ensures { result ≡ no_literals }
{
    Literals {
        fraction: false,
        too_large: false,
    }
}

// The same with what can't be kept of the tokens.
fn with_literals(literals: Literals, tokens: &[Token]) -> Literals
    ensures { result ≡ both_literals literals (literals_of tokens.now) }
{
    Literals {
        fraction: literals.fraction | has_fraction(tokens),
        too_large: literals.too_large | has_large(tokens),
    }
}

fn str_in(bytes: &[u8]) -> &str
    requires { IsUtf8 bytes.now }
    ensures { result.now ≡ bytes.now }
{
    match str::from_utf8(bytes) {
        Ok(text) => text,
        Err(_) => unreachable!(),
    }
}

fn push_expr(holes: &mut List<Expr>, expr: Expr) -> Result<(), Memory>
    ensures { OnOk result (holes.new ≡ holes.old ++ expr ∷ []) }
{
    holes.push(expr).map_err(|_| Memory)?;
    Ok(())
}

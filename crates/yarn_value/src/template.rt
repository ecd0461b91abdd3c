//! Templates: texts with holes for values (docs/formats.md).
ghost use Rattle.std.specs.Prelude.{◌≡◌, ◌++◌, length, IfOk, OnOk};
ghost use Rattle.yarn_value.specs.Templates.{expanded};
ghost use Rattle.yarn_value.specs.Pieces.{part_list};

use crate::{Value, text_of};
use std::alloc::Global;
use std::marker::Model;
use yarn_base::{List, Memory, Text};

/// A piece of a template.
#[derive(Debug, Drop)]
pub(crate) enum Piece {
    Run(Text),
    Hole(u32),
}

/// A text with holes, which contracts see as its parts and the number of holes.
#[derive(Debug, Drop)]
pub struct Template {
    pieces: List<Piece>,
    holes: u32,
}

impl Model for Template {
    ghost use Rattle.yarn_value.specs.Templates.{Form};
    ghost use Rattle.yarn_value.specs.Pieces.{parts_of};

    ghost Value = { Form };

    ghost view = { λ t. record { parts = parts_of t.pieces; holes = t.holes } };
}

impl Template {
    ghost use Rattle.yarn_value.specs.Pieces.{parts_of};

    pub(crate) fn new(pieces: List<Piece>, holes: u32) -> Template
        ensures parts { result.parts ≡ parts_of pieces }
        ensures holes { result.holes ≡ holes }
    {
        Template { pieces, holes }
    }

    /// The number of holes that the template was read for.
    pub fn holes(&self) -> u32
        ensures { result ≡ self.now.holes }
    {
        self.holes
    }

    pub(crate) fn pieces(&self) -> &List<Piece>
        ensures { parts_of result.now ≡ self.now.parts }
    {
        &self.pieces
    }
}

/// The text of the template with the text of its value in each hole. The only error is want of
/// memory.
pub fn expand(alloc: Global, template: &Template, values: &List<Value>) -> Result<Text, Memory>
    requires { length values.now ≡ template.now.holes }
    ensures { IfOk result (λ text. text ≡ expanded template.now.parts values.now) }
{
    let mut out = Text::from_str(alloc, "")?;
    for piece in template.pieces().as_slice() {
        push_piece(alloc, &mut out, piece, values)?;
    }
    Ok(out)
}

#[tactic(auto, using(crate::proofs::TemplateLemmas::expanding))]
fn push_piece(
    alloc: Global,
    out: &mut Text,
    piece: &Piece,
    values: &List<Value>,
) -> Result<(), Memory>
    ensures { OnOk result (out.new ≡ out.old ++ expanded (part_list piece.now) values.now) }
{
    match piece {
        Piece::Run(text) => out.push_str(text.as_str())?,
        Piece::Hole(hole) => {
            if let Some(value) = values.get(*hole as usize) {
                out.push_str(text_of(alloc, value)?.as_str())?;
            }
        }
    }
    Ok(())
}

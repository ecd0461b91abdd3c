//! The id of a line.
ghost use Rattle.std.specs.Prelude.{◌≡◌, [], IfOk};
ghost use Rattle.yarn_blocks.specs.LineIds.{line_id};

use crate::id_form::IdForm;
use crate::shared_text::SharedText;
use std::alloc::Global;
use std::marker::Model;
use yarn_base::{Boxed, Memory, Text};

/// The id under which string tables know a line (docs/language.md, Ids). Contracts see it as its bytes. The id of a
/// place is written out only where it is asked for.
#[derive(Debug, Drop)]
pub struct LineId {
    form: IdForm,
}

impl Model for LineId {
    ghost use Rattle.std.specs.Prelude.{List, ℕ};
    ghost use Rattle.yarn_blocks.specs.LineIds.{id_bytes};

    ghost Value = { List ℕ };

    ghost view = { λ id. id_bytes id.form };
}

impl LineId {
    /// No id.
    pub fn none() -> LineId
        ensures { result ≡ [] }
    {
        LineId {
            form: IdForm::Empty,
        }
    }

    /// The id that a hashtag is.
    pub fn own(alloc: Global, tag: Text) -> Result<LineId, Memory>
        ensures { IfOk result (λ id. id ≡ tag) }
    {
        match Boxed::new(alloc, tag) {
            Ok(tag) => Ok(LineId {
                form: IdForm::Own(tag),
            }),
            Err(_) => Err(Memory),
        }
    }

    /// The id of a place: the title of the node, and how many lines and options stand before it there.
    pub fn placed(title: SharedText, before: u64) -> LineId
        ensures { result ≡ line_id title before }
    {
        LineId {
            form: IdForm::Placed(title, before),
        }
    }

    /// The id, written out.
    pub fn to_text(&self, alloc: Global) -> Result<Text, Memory>
        ensures { IfOk result (λ text. text ≡ self.now) }
    {
        match &self.form {
            IdForm::Empty => Text::from_str(alloc, ""),
            IdForm::Own(tag) => tag.get().copy(),
            IdForm::Placed(title, before) => placed_text(alloc, title.as_str(), *before),
        }
    }
}

fn placed_text(alloc: Global, title: &str, before: u64) -> Result<Text, Memory>
    ensures { IfOk result (λ id. id ≡ line_id title.now before) }
{
    let mut id = String::with_capacity(alloc, title.len().saturating_add(12))?;
    write!(id, "line:{title}-{before}")?;
    Text::from_string(id).map_err(|_| Memory)
}

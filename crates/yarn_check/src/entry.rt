//! What stands at a place of the stack.
ghost use Rattle.std.specs.Prelude.{◌≡◌, ◌∷◌, List as Items, None, IfOk, if◌then◌else◌};
ghost use Rattle.yarn_check.specs.Shapes.{ShapeEntry as AnEntry, Flow, Of, on_kind};
ghost use Rattle.yarn_check.specs.Pass.{same_entry};
ghost use Rattle.yarn_check.specs.Views.{entry_of, kind_in};

use yarn_base::{List, Memory};
use yarn_value::Kind;

/// What stands at a place of the stack.
#[derive(Debug, Default, Drop)]
pub enum ShapeEntry {
    Number,
    Str,
    Truth,
    #[default]
    Null,
    /// A destination, which is one of these labels.
    Destination(List<u32>),
}

impl ShapeEntry {
    /// A value of that kind.
    pub(crate) fn of(kind: Kind) -> ShapeEntry
        ensures { entry_of result ≡ Of kind }
    {
        match kind {
            Kind::Number => ShapeEntry::Number,
            Kind::Str => ShapeEntry::Str,
            Kind::Truth => ShapeEntry::Truth,
        }
    }

    /// The kind of the value, and none where it is no value.
    pub(crate) fn kind(&self) -> Option<Kind>
        ensures { result ≡ kind_in (entry_of self.now) }
    {
        match self {
            ShapeEntry::Number => Some(Kind::Number),
            ShapeEntry::Str => Some(Kind::Str),
            ShapeEntry::Truth => Some(Kind::Truth),
            ShapeEntry::Null => None,
            ShapeEntry::Destination(_) => None,
        }
    }

    /// Whether it is a value of that kind.
    pub(crate) fn is_of(&self, kind: Kind) -> bool
        ensures { (rest : Items AnEntry) (go : Flow) → on_kind kind (entry_of self.now ∷ rest) (λ rest. go) ≡ (if result then go else None) }
    {
        match self.kind() {
            Some(own) => kind == own,
            None => false,
        }
    }

    /// An equal entry.
    pub(crate) fn copy(&self) -> Result<ShapeEntry, Memory>
        ensures { IfOk result (λ e. e ≡ self.now) }
    {
        match self {
            ShapeEntry::Number => Ok(ShapeEntry::Number),
            ShapeEntry::Str => Ok(ShapeEntry::Str),
            ShapeEntry::Truth => Ok(ShapeEntry::Truth),
            ShapeEntry::Null => Ok(ShapeEntry::Null),
            ShapeEntry::Destination(labels) => Ok(ShapeEntry::Destination(labels.copy()?)),
        }
    }

    /// Whether both are the same.
    pub(crate) fn is_same(&self, other: &ShapeEntry) -> bool
        ensures { result ≡ same_entry (entry_of self.now) (entry_of other.now) }
    {
        match (self, other) {
            (ShapeEntry::Number, ShapeEntry::Number) => true,
            (ShapeEntry::Str, ShapeEntry::Str) => true,
            (ShapeEntry::Truth, ShapeEntry::Truth) => true,
            (ShapeEntry::Null, ShapeEntry::Null) => true,
            (ShapeEntry::Destination(labels), ShapeEntry::Destination(more)) => *labels == *more,
            _ => false,
        }
    }
}

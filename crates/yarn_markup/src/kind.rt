//! What the name of a tag says of it.
ghost use Rattle.std.specs.Prelude.{◌≡◌};
ghost use Rattle.yarn_markup.specs.Pieces.{kind_of};

use yarn_plural::Form;

/// What kind of tag has a name.
#[derive(Clone, Copy, Debug)]
pub(crate) enum Kind {
    /// All up to its end is plain.
    NoMarkup,
    /// A text that its value names.
    Select,
    /// A text that the category of its value names.
    Counted(Form),
    /// An attribute.
    Other,
}

#[tactic(auto, unfolding(crate::specs::Pieces::kind_of))]
pub(crate) fn kind_of(name: &str) -> Kind
    ensures { result ≡ kind_of name.now }
{
    match name {
        "nomarkup" => Kind::NoMarkup,
        "select" => Kind::Select,
        "plural" => Kind::Counted(Form::Cardinal),
        "ordinal" => Kind::Counted(Form::Ordinal),
        _ => Kind::Other,
    }
}

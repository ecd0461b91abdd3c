//! What can't be kept of the number literals of a line.
ghost use Rattle.std.specs.Prelude.{◌≡◌, [], Some};
ghost use Rattle.yarn_items.specs.Item.{literals_of};
ghost use Rattle.yarn_items.specs.Body.{both_of};
ghost use Rattle.yarn_items.specs.Heading.{bare as bare_of};

use crate::item::{Found, Item, Literals};
use yarn_expr::{Token, has_fraction, has_large};

/// Those among the tokens.
pub(crate) fn literals_in(tokens: &[Token]) -> Literals
    ensures { result ≡ literals_of tokens.now }
{
    Literals {
        fraction: has_fraction(tokens),
        too_large: has_large(tokens),
    }
}

pub(crate) fn no_literals() -> Literals
    ensures { result ≡ literals_of [] }
{
    Literals {
        fraction: false,
        too_large: false,
    }
}

/// Those of two parts.
pub(crate) fn both(a: Literals, b: Literals) -> Literals
    ensures { result ≡ both_of a b }
{
    Literals {
        fraction: a.fraction || b.fraction,
        too_large: a.too_large || b.too_large,
    }
}

/// An item without expressions.
pub(crate) fn bare(item: Item) -> Option<Found>
    ensures { result ≡ Some (bare_of item) }
{
    Some(Found {
        item,
        literals: no_literals(),
    })
}

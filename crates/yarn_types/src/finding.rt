//! What is known of an expression's kind.
use yarn_value::Kind;

/// A kind, or the kind of the variable at a place.
#[derive(Clone, Copy, Debug, PartialEq, Eq)]
pub(crate) enum Found {
    Known(Kind),
    OfVariable(usize),
}

/// No typing fits.
#[derive(Clone, Copy, Debug, PartialEq, Eq)]
pub(crate) struct Misfit;

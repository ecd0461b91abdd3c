//! What a text with markup is read as (docs/language.md, Markup).
use yarn_base::{List, Text};

/// A text without its markup, and the attributes that the markup gives to parts of it.
#[derive(Debug, Drop, PartialEq, Eq)]
pub struct Marked {
    /// The text that is shown.
    pub plain: Text,
    /// The attributes in the order of their opening.
    pub attributes: List<Attribute>,
}

/// An attribute of a part of the plain text.
#[derive(Debug, Drop, PartialEq, Eq)]
pub struct Attribute {
    pub name: Text,
    /// How many Unicode scalar values of the plain text stand before it.
    pub start: u64,
    /// How many Unicode scalar values it is over.
    pub length: u64,
    /// Its properties as they are written, the one of a shorthand first.
    pub properties: List<Property>,
}

/// A property of an attribute, its value without quotes.
#[derive(Debug, Drop, PartialEq, Eq)]
pub struct Property {
    pub name: Text,
    pub value: Text,
}

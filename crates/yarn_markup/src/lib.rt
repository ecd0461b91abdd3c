//! Markup in texts: the plain text of a line, and its attributes.
#![tactic(auto)]

mod character;
mod characters;
mod choice;
mod close;
mod fault;
mod filled;
mod front;
mod kind;
mod latest;
mod laws;
mod marked;
mod markup;
mod piece;
mod property;
mod reading;
mod slot;
mod tag;
#[cfg(test)]
mod tests;
mod value;
mod verbatim;

pub use fault::MarkupFault;
pub use laws::{each_answered, none_refused, one_fault, one_reading};
pub use marked::{Attribute, Marked, Property};
pub use markup::read_markup;

//! What one line of a file is: the item of its text, by the mode of the line.
#![tactic(auto)]

mod body;
mod brace;
mod bytes;
mod command;
mod content;
mod first;
mod game;
mod hashtags;
mod heading;
mod item;
mod laws;
mod line;
mod literals;
mod offer;
mod pieces;
mod read;
mod run;
mod special;
mod table;
mod text;

pub use body::is_plain;
pub use item::{Found, Header, Item, Literals, Mode, Said};
pub use laws::{items_are_found, nothing_is_left, one_item, plain_lines_are_said};
pub use read::read_item;

#[cfg(test)]
mod tests;

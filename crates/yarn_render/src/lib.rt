//! What is written of the events of a conversation.
#![tactic(auto)]

mod attribute;
mod event;
mod laws;
mod shown;
#[cfg(test)]
mod tests;

pub use event::render;
pub use laws::{each_rendered, one_rendering};

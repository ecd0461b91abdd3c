//! Plays a conversation: shows what a walk gives, and takes the player's answers.
#![tactic(auto)]

mod ends;
mod filled;
mod page;
mod run;

pub use ends::{PlayEnd, PlayFault, Played};
pub use run::play;
pub use yarn_code::take_answer;
pub use yarn_render::render;

//! The values of a project have the kinds that its typing gives them.
#![tactic(auto)]

mod laws;

pub use laws::{
    accepted_projects_are_typed, accepted_runs_are_sound, begun_stores_hold, conditions_are_truths,
    held_stores_are_sound, nothing_is_made_up, runs_keep_kinds, sets_make_nothing_up,
    statements_keep_kinds, titles_are_texts, values_have_their_kinds,
};

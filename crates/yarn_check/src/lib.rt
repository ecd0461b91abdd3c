//! When a program is valid, the checker that tells it, and what holds of the states of its runs.
#![tactic(auto)]

mod checked;
mod coming;
mod entry;
mod fault;
mod first_look;
mod flow;
mod laws;
mod missing;
mod names;
mod node_walk;
mod shape;
mod stack;
mod values;

pub use checked::{Checked, check};
pub use entry::ShapeEntry;
pub use fault::CheckFault;
pub use laws::{
    begun_stores_fit, check_is_exact, entries_are_shaped, events_come, look_is_exact, never_stuck,
    none_open_is_a_fault, parts_fit, pass_is_exact, rebuilt_states_are_shaped, replies_are_taken,
    runs_have_one_outcome, shapes_are_one, steps_are_shaped, steps_on,
};
pub use shape::Shape;

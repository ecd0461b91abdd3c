//! What the code of a project is, and that it means what the project means.
#![tactic(auto)]

mod laws;

pub use laws::{
    code_is_valid, code_means_the_same, counts_rise, fields_are_kept, operators_have_rows,
};

//! The trees of a project's files, or the first fault of the project.
#![tactic(auto)]

mod body;
mod checks;
mod end;
mod excess;
mod functions;
mod grow;
pub mod laws;
mod misuse;
mod names;
mod order;
mod read;
mod refusal;
mod size;
mod split;
mod stages;
mod tree;
mod uses;
mod variables;

pub use body::Body;
pub use end::text_end;
pub use read::{read_file, read_project};
pub use refusal::{ProjectFault, Refusal, RefusalKind};
pub use tree::{File, Node, Project};
pub use yarn_blocks::{Clause, ElseClause, Head, LineText, OptionItem, Stmt};
pub use yarn_items::Header;

//! The structure of a body: which statements its lines are, or where they can be none.
#![tactic(auto)]

mod body;
mod body_line;
mod body_lines;
mod entry;
mod frame;
mod frames;
mod held;
mod id_form;
mod laws;
mod layout_laws;
mod level;
mod levels;
mod line_id;
mod mark;
mod outline;
mod reading;
mod shared_text;
#[cfg(test)]
mod tests;
mod tree;
mod verdict;

pub use body::build;
pub use body_line::{BodyLine, BodyWhat, Spot};
pub use body_lines::{BodyLines, LinesLeft};
pub use entry::{Entry, Simple, What, marks};
pub use laws::{
    blocks_are_read, blocks_are_shallow, fronts_are_viable, goes_on_where_viable,
    marks_have_entries, marks_tell, one_block, read_are_blocks,
};
pub use layout_laws::{laid_keeps_lines, laid_stands, lines_tell_nothing, one_tree};
pub use line_id::LineId;
pub use mark::{Mark, Shape};
pub use shared_text::SharedText;
pub use tree::{Clause, ElseClause, Head, LineText, OptionItem, Stmt};
pub use verdict::{Excess, Verdict, judge};

//! What a conversation gives and takes, and the programs that the machine runs.
#![tactic(auto)]

mod answer;
mod decoded_code;
mod decoding;
mod encoded_code;
mod encoding;
mod event;
mod fault;
mod instruction_words;
mod laws;
mod listing;
#[cfg(test)]
mod listing_tests;
mod names;
mod next;
mod opcode;
mod program;
mod reader;
mod scan;
#[cfg(test)]
mod tests;
mod writer;

pub use answer::take_answer;
pub use decoding::decode;
pub use encoding::encode;
pub use event::{Choice, Event};
pub use fault::CodeFault;
pub use laws::{
    instructions_do_as_listed, listings_are_written_out, programs_have_one_listing,
    programs_have_one_spelling,
};
pub use listing::list_program;
pub use program::{CodeNode, Coded, Instr, Program, Variable};

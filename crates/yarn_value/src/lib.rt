//! Values, what the operators and builtins do with them, quoted strings, templates, and the rows of a string table.
#![tactic(auto)]

mod arguments;
mod base;
mod builtin;
mod fault;
mod mark;
mod number;
mod operation;
mod quoting;
mod reading;
mod reply;
mod scan;
mod signature;
mod template;
#[cfg(test)]
mod tests;
mod value;

pub use base::{Base, BaseLine};
pub use builtin::{BUILTINS, Builtin, Builtins, Param, find_builtin};
pub use fault::{OpFault, RunFault};
pub use operation::{Op, apply, quotients_are_exact};
pub use quoting::{quote, quoted_once, unquote};
pub use reading::{TemplateFault, marks_are_spelled, read_template};
pub use reply::Reply;
pub use signature::{Signature, Signatures};
pub use template::{Template, expand};
pub use value::{Kind, Value, text_of};

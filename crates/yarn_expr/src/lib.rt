//! Expressions: tokens, trees, reading and printing. The rules are those of docs/language.md, "Tokens and
//! expressions" and "Canonical text".
#![tactic(auto)]

mod answer;
mod fault;
mod law;
mod number;
mod operator;
mod piece;
mod print;
mod read;
mod refusal;
mod scan;
#[cfg(test)]
mod tests;
mod token;
mod tokenize;
mod tree;
mod word;

pub use answer::{has_fraction, has_large};
pub use fault::ExprFault;
pub use law::one_tree;
pub use number::number as number_of_digits;
pub use piece::read_expr;
pub use print::print_expr;
pub use read::read_all;
pub use refusal::Refusal;
pub use scan::{Class, cut, first_char};
pub use token::{Sign, Token};
pub use tokenize::{Step, next_token, tokenize as read_tokens};
pub use tree::{BinaryOp, Expr, UnaryOp};
pub use word::is_reserved;

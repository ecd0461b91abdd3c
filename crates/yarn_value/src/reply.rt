//! The replies of host functions.
use crate::Value;
use yarn_base::{List, Text};

/// One answer of a host function: which one was asked, with which arguments, and what it replied. A tape is a list of
/// them, in the order in which the functions were asked (docs/language.md, "The meaning").
#[derive(Debug, Drop, PartialEq, Eq)]
pub struct Reply {
    pub name: Text,
    pub args: List<Value>,
    pub value: Value,
}

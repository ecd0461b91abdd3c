//! The signatures of host functions.
use crate::Kind;
use yarn_base::{List, Text};

/// The name of a host function, the kinds of what it takes and the kind of what it gives.
#[derive(Debug, Drop)]
pub struct Signature {
    pub name: Text,
    pub params: List<Kind>,
    pub result: Kind,
}

/// Those of all host functions, in the order of their table.
pub type Signatures = List<Signature>;

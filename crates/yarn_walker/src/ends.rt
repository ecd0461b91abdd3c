//! Where a run faults.
use yarn_base::Text;
use yarn_value::RunFault;

/// Where a run faults, and why.
#[derive(Debug, Drop)]
pub struct FaultAt<'p> {
    pub fault: RunFault,
    /// The place of the file in the project, from 0.
    pub file: u32,
    /// The line, from 1.
    pub line: u32,
    /// The title of the node.
    pub node: &'p Text,
}

//! Nodes, found by their titles.
ghost use Rattle.std.specs.Prelude.{◌≡◌, map, IfOk, OnOk, option_map};
ghost use Rattle.yarn_tree.specs.Trees.{node_tree, file_tree};
ghost use Rattle.yarn_meaning.specs.First.{find, faults_at, nodes_at};
ghost use Rattle.yarn_code.specs.Moments.{Faults};
ghost use Rattle.yarn_walker.specs.Faults.{fault_of};
ghost use Rattle.yarn_walker.specs.Titles.{placed, PutsBefore, HasAll};

use crate::ends::FaultAt;
use std::alloc::Global;
use std::collections::BTreeMap;
use yarn_base::{Memory, Text};
use yarn_tree::{File, Node};
use yarn_value::RunFault;

/// A node, and the place of its file in the project, from 0.
#[derive(Clone, Copy)]
pub struct NodeAt<'p> {
    pub node: &'p Node,
    pub file: u32,
}

impl<'p> NodeAt<'p> {
    /// A fault on that line of the node.
    pub(crate) fn fault(self, line: u32, fault: RunFault) -> FaultAt<'p>
        ensures { Faults (fault_of result) ≡ faults_at (placed self.entry) line fault }
    {
        FaultAt {
            fault,
            file: self.file,
            line,
            node: &self.node.title,
        }
    }
}

/// The nodes of a project, found by their titles.
#[derive(Drop)]
pub struct Titles<'p> {
    pub(crate) files: &'p [File],
    first: BTreeMap<&'p str, NodeAt<'p>>,
}

impl<'p> Titles<'p> {
    pub fn new(alloc: Global, files: &'p [File]) -> Result<Titles<'p>, Memory>
        ensures files { IfOk result (λ t. t.files.now ≡ files.now) }
        ensures all { IfOk result HasAll }
    {
        let mut first = BTreeMap::new(alloc);
        let mut rest = files;
        while let Some((file, before)) = rest.split_last() {
            add_nodes(&mut first, before.len(), file.nodes.as_slice())?;
            rest = before;
        }
        Ok(Titles { files, first })
    }

    /// The first node of that title.
    pub fn find(&self, title: &Text) -> Option<NodeAt<'p>>
        requires { HasAll self.now }
        ensures { option_map placed result ≡ find title.now (map file_tree self.now.files.now) }
    {
        self.first.get(title.as_str()).copied()
    }
}

// Puts the nodes of the file at that place before those of the map.
fn add_nodes<'p>(
    first: &mut BTreeMap<&'p str, NodeAt<'p>>,
    place: usize,
    nodes: &'p [Node],
) -> Result<(), Memory>
    ensures { OnOk result (PutsBefore first.old first.new (nodes_at place (map node_tree nodes.now))) }
{
    let file = u32::try_from(place).map_err(|_| Memory)?;
    for node in nodes.iter().rev() {
        first.insert(node.title.as_str(), NodeAt { node, file })?;
    }
    Ok(())
}

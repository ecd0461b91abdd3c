//! The trees of the lines that were read.
ghost use Rattle.std.specs.Prelude.{All, IfOk, map};
ghost use Rattle.yarn_tree.specs.Growing.{HasShallowBody, HasShallowBodies};
ghost use Rattle.yarn_tree.specs.Project.{IsNodeOf, AreNodesOf, IsFileOf, AreFilesOf};
ghost use Rattle.yarn_tree.specs.Reading.{lines_in};

use crate::{Body, File, Node};
use std::alloc::Global;
use yarn_base::{List, Memory};
use yarn_nodes::{FileLines, FileRead, NodeLines};

/// The trees of the files.
pub(crate) fn grow_files(alloc: Global, reads: List<FileRead>) -> Result<List<File>, Memory>
    requires { All HasShallowBodies reads }
    ensures { IfOk result (λ files. AreFilesOf (map lines_in reads) files) }
{
    let mut files = Vec::new(alloc);
    for read in reads.into_vec() {
        files.push(grow_file(alloc, read.file)?)?;
    }
    Ok(List::from_vec(files))
}

/// The tree of a file.
pub(crate) fn grow_file(alloc: Global, lines: FileLines) -> Result<File, Memory>
    requires { All HasShallowBody lines.nodes }
    ensures { IfOk result (λ file. IsFileOf lines file) }
{
    let FileLines { name, tags, nodes } = lines;
    let nodes = grow_nodes(alloc, nodes)?;
    Ok(File { name, tags, nodes })
}

fn grow_nodes(alloc: Global, nodes: List<NodeLines>) -> Result<List<Node>, Memory>
    requires { All HasShallowBody nodes }
    ensures { IfOk result (λ grown. AreNodesOf nodes grown) }
{
    let mut grown = Vec::new(alloc);
    for node in nodes.into_vec() {
        grown.push(grow_node(alloc, node)?)?;
    }
    Ok(List::from_vec(grown))
}

fn grow_node(alloc: Global, lines: NodeLines) -> Result<Node, Memory>
    requires { HasShallowBody lines }
    ensures { IfOk result (λ node. IsNodeOf lines node) }
{
    let NodeLines {
        title,
        headers,
        line,
        end_line,
        body,
    } = lines;
    let body = Body::of(alloc, body)?;
    Ok(Node {
        title,
        headers,
        line,
        end_line,
        body,
    })
}

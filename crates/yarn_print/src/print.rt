//! The canonical text of a file (docs/language.md, Canonical text).
ghost use Rattle.std.specs.Prelude.{◌≡◌, ◌++◌, ◌∷◌, IfOk, OnOk};
ghost use Rattle.yarn_print.specs.Print.{print_of, file_tags_text, nodes_text, node_text, ended, headers_text, header_line, value_text};

use crate::statements::write_statements;
use std::alloc::Global;
use yarn_base::{List, Memory, Text};
use yarn_items::Header;
use yarn_tree::{File, Node};

/// The canonical text of the file. Comments aren't kept.
#[tactic(auto, unfolding(crate::specs::Print::print_of))]
pub fn print_file(alloc: Global, file: &File) -> Result<Text, Memory>
    ensures { IfOk result (λ text. text ≡ print_of file.now) }
{
    let mut out = Text::from_str(alloc, "")?;
    write_file_tags(&mut out, &file.tags)?;
    write_nodes(alloc, &mut out, &file.nodes)?;
    Ok(out)
}

fn write_file_tags(out: &mut Text, tags: &List<Text>) -> Result<(), Memory>
    ensures { OnOk result (out.new ≡ out.old ++ file_tags_text tags.now) }
{
    for tag in tags.as_slice() {
        write_file_tag(out, tag)?;
    }
    Ok(())
}

fn write_file_tag(out: &mut Text, tag: &Text) -> Result<(), Memory>
    ensures { OnOk result (out.new ≡ out.old ++ ended (35 ∷ tag.now)) }
{
    out.push_str("#")?;
    out.push_str(tag.as_str())?;
    out.push_str("\n")?;
    Ok(())
}

fn write_nodes(alloc: Global, out: &mut Text, nodes: &List<Node>) -> Result<(), Memory>
    ensures { OnOk result (out.new ≡ out.old ++ nodes_text nodes.now) }
{
    for node in nodes.as_slice() {
        write_node(alloc, out, node)?;
    }
    Ok(())
}

fn write_node(alloc: Global, out: &mut Text, node: &Node) -> Result<(), Memory>
    ensures { OnOk result (out.new ≡ out.old ++ node_text node.now) }
{
    write_headers(out, &node.headers)?;
    out.push_str("---\n")?;
    write_statements(alloc, out, 0, node.body.as_slice())?;
    out.push_str("===\n")?;
    Ok(())
}

fn write_headers(out: &mut Text, headers: &List<Header>) -> Result<(), Memory>
    ensures { OnOk result (out.new ≡ out.old ++ headers_text headers.now) }
{
    for header in headers.as_slice() {
        write_header(out, header)?;
    }
    Ok(())
}

fn write_header(out: &mut Text, header: &Header) -> Result<(), Memory>
    ensures { OnOk result (out.new ≡ out.old ++ ended (header_line header.now)) }
{
    out.push_str(header.key.as_str())?;
    out.push_str(":")?;
    write_value(out, header.value.as_str())?;
    out.push_str("\n")?;
    Ok(())
}

/// A blank and the value, where it isn't empty.
fn write_value(out: &mut Text, value: &str) -> Result<(), Memory>
    ensures { OnOk result (out.new ≡ out.old ++ value_text value.now) }
{
    if !value.is_empty() {
        out.push_str(" ")?;
        out.push_str(value)?;
    }
    Ok(())
}

//! The refusals that are found in the lines of nodes: nodes, titles and ids.
ghost use Rattle.std.specs.Prelude.{◌≡◌, ◌++◌, [], slice_get, IfOk, OnOk};
ghost use Rattle.std.specs.List.{list_any};
ghost use Rattle.std.specs.Option.{option_copied};
ghost use Rattle.yarn_blocks.specs.BodyLine.{what_of};
ghost use Rattle.yarn_blocks.specs.BodyLines.{leaf_of};
ghost use Rattle.yarn_blocks.specs.declared.entry.What.TheVariants as what;
ghost use Rattle.yarn_items.specs.Text.{is_id};
ghost use Rattle.yarn_nodes.specs.Entries.{said_by};
ghost use Rattle.yarn_tree.specs.Checks.{and_id, noted_in, extra_node, begun_at, titles_in, titles_seen, ids_in, ids_within, ids_of as all_ids, ids_seen, has_own, own_in, is_own, own_within, own_of};
ghost use Rattle.yarn_tree.specs.Names.{no_sight, sees_all, sight_of};
ghost use Rattle.yarn_tree.specs.Places.{first_place};

use crate::names::Seen;
use std::alloc::Global;
use yarn_base::{Memory, Place, Text};
use yarn_blocks::{BodyLines, BodyWhat, LineText, Simple, Stmt, What};
use yarn_nodes::{FileRead, NodeLines, Note, Titled};

const MOST_NODES: usize = 65536;

const MOST_COUNTED: usize = 4294967295;

/// The first place that was noted of the files.
pub(crate) fn first_noted(note: Note, reads: &[FileRead]) -> Option<Place>
    ensures { result ≡ first_place (noted_in note) reads.now }
{
    for read in reads {
        let place = noted_of(note, read);
        if place.is_some() {
            return place;
        }
    }
    None
}

fn noted_of(note: Note, read: &FileRead) -> Option<Place>
    ensures { result ≡ noted_in note read.now }
{
    let line = read.notes.line_of(note)?;
    Some(Place {
        file: read.number,
        line,
    })
}

/// The `---` of the first node that is one too many.
pub(crate) fn extra_node_in(reads: &[FileRead]) -> Option<Place>
    ensures { result ≡ extra_node 65536 reads.now }
{
    let mut left = MOST_NODES;
    for read in reads {
        let place = node_behind(left, read);
        if place.is_some() {
            return place;
        }
        left = left.saturating_sub(read.file.nodes.len());
    }
    None
}

// The `---` of the node behind so many of the file.
fn node_behind(before: usize, read: &FileRead) -> Option<Place>
    ensures { result ≡ begun_at read.now.number (slice_get read.now.file.nodes before) }
{
    let nodes = read.file.nodes.as_slice();
    if before >= nodes.len() {
        return None;
    }
    Some(Place {
        file: read.number,
        line: nodes[before].line,
    })
}

/// The titles of the files, and the first that comes again.
pub(crate) fn see_titles<'a>(alloc: Global, reads: &'a [FileRead]) -> Result<Seen<'a>, Memory>
    ensures { IfOk result (λ seen. sight_of seen ≡ titles_seen reads.now) }
{
    let mut seen = Seen::new(alloc);
    for read in reads {
        see_titles_in(&mut seen, read.number, read.titles.as_slice())?;
    }
    Ok(seen)
}

fn see_titles_in<'a>(seen: &mut Seen<'a>, file: u32, titles: &'a [Titled]) -> Result<(), Memory>
    ensures { OnOk result (sight_of seen.new ≡ sees_all (sight_of seen.old) (titles_in file titles.now)) }
{
    for titled in titles {
        let place = Place {
            file,
            line: titled.line,
        };
        seen.see(titled.title.as_str(), place)?;
    }
    Ok(())
}

/// Whether a line may have an id that isn't its node's title and its place in the node.
pub(crate) fn has_own_ids(reads: &[FileRead]) -> bool
    ensures { result ≡ own_of reads.now }
{
    for read in reads {
        if has_own_within(read.file.nodes.as_slice()) {
            return true;
        }
    }
    false
}

fn has_own_within(nodes: &[NodeLines]) -> bool
    ensures { result ≡ own_within nodes.now }
{
    for node in nodes {
        if may_be_own(node) {
            return true;
        }
    }
    false
}

fn may_be_own(node: &NodeLines) -> bool
    ensures { result ≡ is_own node.now }
{
    node.body.len() > MOST_COUNTED || has_own_in(&node.body)
}

fn has_own_in(body: &BodyLines) -> bool
    ensures { result ≡ own_in body.now }
{
    let mut left = body.lines();
    while let Some(found) = left.take_notable() {
        if is_named(found.what) {
            return true;
        }
    }
    false
}

// Whether the line has a hashtag that is an id.
fn is_named(what: BodyWhat<'_>) -> bool
    ensures { result ≡ has_own (said_by (what_of what.entry)) }
{
    match said_on(what) {
        Some(text) => has_id_tag(text.tags.as_slice()),
        None => false,
    }
}

// What has an id: a line that is said and an option.
fn said_on<'a>(what: BodyWhat<'a>) -> Option<&'a LineText>
    ensures { option_copied result ≡ said_by (what_of what.entry) }
{
    match what {
        BodyWhat::Statement(stmt) => said_in_statement(stmt),
        BodyWhat::Structure(what) => said_in(what),
    }
}

fn said_in_statement(stmt: &Stmt) -> Option<&LineText>
    ensures { option_copied result ≡ said_by (what.Statement (leaf_of stmt.now)) }
{
    match stmt {
        Stmt::Line(text) => Some(text),
        _ => None,
    }
}

fn said_in(what: &What) -> Option<&LineText>
    ensures { option_copied result ≡ said_by what.now }
{
    match what {
        What::Statement(Simple::Line(text)) => Some(text),
        What::Offer(text, _) => Some(text),
        _ => None,
    }
}

fn has_id_tag(tags: &[Text]) -> bool
    ensures { result ≡ list_any is_id tags.now }
{
    for tag in tags {
        if is_id_tag(tag.as_str()) {
            return true;
        }
    }
    false
}

fn is_id_tag(tag: &str) -> bool
    ensures { result ≡ is_id tag.now }
{
    tag.as_bytes().starts_with(b"line:")
}

/// The place of the first id that an earlier line has. The ids are written out for that alone.
pub(crate) fn second_id(alloc: Global, reads: &[FileRead]) -> Result<Option<Place>, Memory>
    ensures { IfOk result (λ again. again ≡ (ids_seen reads.now).again) }
{
    let ids = ids_of(alloc, reads)?;
    first_again(alloc, ids.as_slice())
}

// The place of the first of these that comes again.
fn first_again(alloc: Global, ids: &[(Text, Place)]) -> Result<Option<Place>, Memory>
    ensures { IfOk result (λ again. again ≡ (sees_all no_sight ids.now).again) }
{
    let mut seen = Seen::new(alloc);
    for id in ids {
        seen.see(id.0.as_str(), id.1)?;
    }
    Ok(seen.again)
}

// The ids of all lines, each with its place.
fn ids_of(alloc: Global, reads: &[FileRead]) -> Result<Vec<(Text, Place)>, Memory>
    ensures { IfOk result (λ ids. ids.items ≡ all_ids reads.now) }
{
    let mut ids = Vec::new(alloc);
    for read in reads {
        push_ids_within(alloc, &mut ids, read.number, read.file.nodes.as_slice())?;
    }
    Ok(ids)
}

fn push_ids_within(
    alloc: Global,
    ids: &mut Vec<(Text, Place)>,
    file: u32,
    nodes: &[NodeLines],
) -> Result<(), Memory>
    ensures { OnOk result (ids.new.items ≡ ids.old.items ++ ids_within file nodes.now) }
{
    for node in nodes {
        push_ids_in(alloc, ids, file, &node.body)?;
    }
    Ok(())
}

fn push_ids_in(
    alloc: Global,
    ids: &mut Vec<(Text, Place)>,
    file: u32,
    body: &BodyLines,
) -> Result<(), Memory>
    ensures { OnOk result (ids.new.items ≡ ids.old.items ++ ids_in file body.now) }
{
    let mut left = body.lines();
    while let Some(found) = left.take_first() {
        let place = Place {
            file,
            line: found.line,
        };
        push_id(alloc, ids, place, found.what)?;
    }
    Ok(())
}

fn push_id(
    alloc: Global,
    ids: &mut Vec<(Text, Place)>,
    place: Place,
    what: BodyWhat<'_>,
) -> Result<(), Memory>
    ensures { OnOk result (ids.new.items ≡ ids.old.items ++ and_id (said_by (what_of what.entry)) place []) }
{
    if let Some(text) = said_on(what) {
        ids.push((text.id.to_text(alloc)?, place))?;
    }
    Ok(())
}

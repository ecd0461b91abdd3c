//! The ids of lines and options.
ghost use Rattle.std.specs.Prelude.{◌≡◌, IfOk};
ghost use Rattle.yarn_items.specs.Text.{is_id};
ghost use Rattle.yarn_blocks.specs.LineIds.{line_id};
ghost use Rattle.yarn_nodes.specs.Ids.{id_among};
ghost use Rattle.yarn_nodes.specs.Nodes.{id_given, titled_of};

use crate::node::Titled;
use std::alloc::Global;
use yarn_base::{List, Memory, Text};
use yarn_blocks::{LineId, SharedText};

/// The id of a line with these hashtags, behind so many lines and options of its node; none where ids aren't wanted.
pub(crate) fn id_for(
    alloc: Global,
    ids: bool,
    tags: &List<Text>,
    title: &Option<Titled>,
    before: u64,
) -> Result<LineId, Memory>
    ensures { IfOk result (λ id. id ≡ id_given ids tags.now (titled_of title.now).title before) }
{
    if ids {
        id_in(alloc, tags.as_slice(), title, before)
    } else {
        Ok(LineId::none())
    }
}

// The first hashtag that is an id, and else the place in the node.
fn id_in(
    alloc: Global,
    tags: &[Text],
    title: &Option<Titled>,
    before: u64,
) -> Result<LineId, Memory>
    ensures { IfOk result (λ id. id ≡ id_among tags.now (line_id (titled_of title.now).title before)) }
{
    for tag in tags {
        if is_id_tag(tag.as_str()) {
            return LineId::own(alloc, tag.copy()?);
        }
    }
    Ok(LineId::placed(title_in(alloc, title)?, before))
}

fn is_id_tag(tag: &str) -> bool
    ensures { result ≡ is_id tag.now }
{
    tag.as_bytes().starts_with(b"line:")
}

// The title; it is empty where there is none.
fn title_in(alloc: Global, title: &Option<Titled>) -> Result<SharedText, Memory>
    ensures { IfOk result (λ text. text ≡ (titled_of title.now).title) }
{
    match title {
        Some(titled) => titled.title.share(),
        None => SharedText::new(alloc, Text::from_str(alloc, "")?),
    }
}

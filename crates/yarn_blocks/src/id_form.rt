//! What the id of a line is made of.

use crate::shared_text::SharedText;
use yarn_base::{Boxed, Text};

/// What the id of a line is made of.
#[derive(Debug, Drop)]
pub(crate) enum IdForm {
    /// No id.
    Empty,
    /// A hashtag.
    Own(Boxed<Text>),
    /// The title of the node, and how many lines and options stand before the line there.
    Placed(SharedText, u64),
}

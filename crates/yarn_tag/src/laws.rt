//! Laws of tagging (docs/language.md, Tags). Each is proved as the contract of a function that does nothing but cite the
//! laws of items and of reading.
ghost use Rattle.yarn_tag.specs.TagLaws.{TaggedStands, TaggedOnce};

use yarn_items::{items_are_found, one_item};
use yarn_tree::laws::file_read_exactly;

/// What is read of a tagged file is the same file, but that each line and each option without an id has one more hashtag,
/// which is an id.
pub fn tagged_stands()
    ensures { TaggedStands }
{
    items_are_found();
    one_item();
    file_read_exactly();
}

/// Tagging again changes nothing: a tagged file is tagged to itself, whatever the first number is.
pub fn tagged_once()
    ensures { TaggedOnce }
{
    items_are_found();
    one_item();
    file_read_exactly();
}

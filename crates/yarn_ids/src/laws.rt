//! The laws of this crate. Each is proved as the contract of a function that does nothing, or but cite the law of items.
ghost use Rattle.yarn_ids.specs.BaseLaws.{IdsDiffer, TextsAreTemplates, RowsAreTheTable, RowsAreInRange};

use yarn_items::items_are_found;

/// No id of an accepted project comes again.
pub fn ids_differ()
    ensures { IdsDiffer }
{}

/// Each text of an accepted project is a template with its row's holes, of which there are at most 16.
pub fn texts_are_templates()
    ensures { TextsAreTemplates }
{
    items_are_found();
}

/// The rows of a project, looked up by ids, are the base table of `yarn_meaning`.
pub fn rows_are_the_table()
    ensures { RowsAreTheTable }
{}

/// The places of each row are among the files, and among the nodes of all files.
pub fn rows_are_in_range()
    ensures { RowsAreInRange }
{}

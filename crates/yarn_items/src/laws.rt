//! Laws that tie what is found of a line to what the line is (docs/language.md, Nodes and Body lines). Each is proved
//! as the contract of a function that does nothing.
ghost use Rattle.yarn_items.specs.Laws.{ItemsAreFound, OneItem, NothingIsLeft, PlainLinesAreSaid};

/// The item that is found of a line is the one that its text is.
pub fn items_are_found()
    ensures { ItemsAreFound }
{}

/// A line has at most one item, and its expressions the same tokens.
pub fn one_item()
    ensures { OneItem }
{}

/// Nothing is found exactly where the text of a line is no item.
pub fn nothing_is_left()
    ensures { NothingIsLeft }
{}

/// A plain text is found as a line that is said as it stands.
pub fn plain_lines_are_said()
    ensures { PlainLinesAreSaid }
{}

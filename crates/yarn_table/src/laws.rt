//! What holds of every table.
ghost use Rattle.yarn_table.specs.Written.{WrittenIsRead};
ghost use Rattle.yarn_table.specs.Laws.{BadIsFirst, RecordsAreAll, TablesFit};

/// What is written of a base whose ids are distinct and whose texts are templates is read as the table of its own texts.
pub fn written_is_read()
    ensures { WrittenIsRead }
{}

/// The table of a base's own texts, and each table that a file is read as, have each id of the base with as many holes.
pub fn tables_fit()
    ensures { TablesFit }
{}

/// The record that can't be read is the first that isn't good.
pub fn bad_is_first()
    ensures { BadIsFirst }
{}

/// The records of a text are those that csv's `next_record` gives one after the other.
pub fn records_are_all()
    ensures { RecordsAreAll }
{}

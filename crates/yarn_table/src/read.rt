//! Reads a file record by record, and keeps of it only the texts of the base's ids.
ghost use Rattle.std.specs.Prelude.{◌≡◌, ◌++◌, [], ◌∷◌, List, Ok, IfOk, IfErr, OnOk};
ghost use Rattle.csv.specs.Records.{fields_of};
ghost use Rattle.yarn_value.specs.declared.base.BaseLine.{BaseLine};
ghost use Rattle.yarn_table.specs.Records.{Row};
ghost use Rattle.yarn_table.specs.Tables.{AreDistinct, Fits, TellsFault, table_of};
ghost use Rattle.yarn_table.specs.Gathering.{IsGathered, rows_by, TellsUnder};

use crate::gathered::Gathered;
use crate::header::{field, find_columns};
use crate::records::{open, read_one};
use crate::{StringTable, TableFault};
use csv::StringRecord;
use std::alloc::Global;
use yarn_base::{List, Memory};
use yarn_value::Base;

/// The table that a file is read as for a base, or its first fault (docs/formats.md, Templates and string tables).
///
/// `BadCsv` counts records from 0, the header. The other faults name an id. The memory is that of the base's texts and
/// of the longest record.
pub fn read_table(alloc: Global, bytes: &List<u8>, base: &Base) -> Result<StringTable, TableFault>
    requires { AreDistinct base.now }
    ensures table { IfOk result (λ table. table_of bytes.now base.now ≡ Ok table) }
    ensures fits { IfOk result (λ table. Fits table base.now) }
    ensures fault { IfErr result (λ fault. TellsFault (table_of bytes.now base.now) fault) }
{
    let mut reader = open(alloc, bytes.as_slice());
    let mut row = StringRecord::new(alloc);
    match read_one(&mut reader, &mut row, 0) {
        Ok(true) => {}
        Ok(false) => return Err(TableFault::NoColumn),
        Err(fault) => return Err(fault),
    }
    let columns = find_columns(&row);
    let mut gathered = Gathered::new(alloc, base)?;
    for at in 1..usize::MAX {
        match read_one(&mut reader, &mut row, at) {
            Ok(true) => {}
            Ok(false) => return under_columns(alloc, columns, gathered),
            Err(fault) => return Err(fault),
        }
        if take_row(alloc, columns, &row, &mut gathered).is_err() {
            return Err(TableFault::Memory);
        }
    }
    Err(TableFault::Memory)
}

// Takes the row of this record. Where a column isn't there, no row is taken.
fn take_row(
    alloc: Global,
    columns: Option<(usize, usize)>,
    from: &StringRecord,
    gathered: &mut Gathered,
) -> Result<(), Memory>
    ensures { OnOk result ((base : List BaseLine) (rows : List Row) → IsGathered base rows gathered.old → IsGathered base (rows ++ rows_by columns (fields_of from.now ∷ [])) gathered.new) }
{
    match columns {
        Some((id, text)) => gathered.take(alloc, field(from, id), field(from, text)),
        None => Ok(()),
    }
}

// The table of what was gathered, where the header had both columns.
fn under_columns(
    alloc: Global,
    columns: Option<(usize, usize)>,
    gathered: Gathered,
) -> Result<StringTable, TableFault>
    ensures { TellsUnder columns gathered result }
{
    match columns {
        Some(_) => gathered.finish(alloc),
        None => Err(TableFault::NoColumn),
    }
}

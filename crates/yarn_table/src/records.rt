//! The records of a file, read one by one.
ghost use Rattle.std.specs.Prelude.{◌≡◌, [], ℕ, List, Some, length};
ghost use Rattle.csv.specs.Reading.{strip_bom};
ghost use Rattle.csv.specs.Records.{fields_of};
ghost use Rattle.yarn_table.specs.Records.{Fields};
ghost use Rattle.yarn_table.specs.Reader.{IsReading, ReadsOne};

use crate::TableFault;
use crate::fault::fault_at;
use csv::{Reader, ReaderBuilder, StringRecord};
use std::alloc::Global;

// A reader of these bytes that has read no record. csv takes the header as a record like any other.
pub(crate) fn open(alloc: Global, bytes: &[u8]) -> Reader<&[u8]>
    ensures { IsReading (λ s. Some s.now) (strip_bom (strip_bom bytes.now)) [] result }
{
    ReaderBuilder::new()
        .has_headers(false)
        .from_reader(alloc, without_mark(bytes))
}

// Reads the record behind so many good ones; false where there is none.
pub(crate) fn read_one(
    reader: &mut Reader<&[u8]>,
    row: &mut StringRecord,
    at: usize,
) -> Result<bool, TableFault>
    ensures { (text : List ℕ) (rows : List Fields) → length rows ≡ at → IsReading (λ s. Some s.now) text rows reader.old
        → ReadsOne (λ s. Some s.now) text rows reader.new (fields_of row.new) result }
{
    match reader.read_record(row) {
        Ok(found) => Ok(found),
        Err(error) => Err(fault_at(&error, at)),
    }
}

// The bytes behind a byte order mark.
#[tactic(auto, unfolding(csv::specs::Reading::strip_bom))]
fn without_mark(bytes: &[u8]) -> &[u8]
    ensures { result.now ≡ strip_bom bytes.now }
{
    match bytes {
        [0xEF, 0xBB, 0xBF, rest @ ..] => rest,
        _ => bytes,
    }
}

//! Why a file gives no table.
ghost use Rattle.std.specs.Prelude.{◌≡◌};
ghost use Rattle.csv.specs.Reading.{error_kind};
ghost use Rattle.yarn_table.specs.Steps.{fault_of};

use csv::{Error, ErrorKind};
use yarn_base::{Memory, Text};

/// Why a file gives no table: the first of these in this order (docs/formats.md, Templates and string tables).
#[derive(Debug, Drop, PartialEq, Eq)]
pub enum TableFault {
    /// The first record that has another length than the header or isn't UTF-8. The header is record 0.
    BadCsv(u64),
    /// The header lacks `id` or `text`, or the file has no record.
    NoColumn,
    /// The id of the first record whose id is one of the base and stood before.
    DuplicateId(Text),
    /// The first id of the base without a record.
    MissingId(Text),
    /// The first id of the base whose text isn't a template with the holes of the base row.
    BadTemplate(Text),
    /// Want of memory.
    Memory,
}

impl From<Memory> for TableFault {
    ghost use Rattle.std.specs.Prelude.{◌≡◌};
    ghost use Rattle.yarn_table.specs.declared.fault.TableFault.TheVariants as fault;

    ghost from_gives = { λ _ e. e ≡ fault.Memory };

    fn from(_: Memory) -> TableFault {
        TableFault::Memory
    }
}

// The fault of an error at this record. A slice has no read that fails, so what csv calls `Io` is want of memory.
pub(crate) fn fault_at(error: &Error, at: usize) -> TableFault
    ensures { result ≡ fault_of at (error_kind error.now) }
{
    match error.kind() {
        ErrorKind::UnequalLengths { .. } | ErrorKind::Utf8 { .. } => TableFault::BadCsv(at as u64),
        ErrorKind::Io(_)
        | ErrorKind::OutOfMemory
        | ErrorKind::Serialize(_)
        | ErrorKind::Deserialize { .. } => TableFault::Memory,
    }
}

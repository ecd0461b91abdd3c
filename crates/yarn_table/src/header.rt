//! The fields of a record, and the columns of a header.
ghost use Rattle.std.specs.Prelude.{◌≡◌, [], get_or};
ghost use Rattle.csv.specs.Records.{fields_of};
ghost use Rattle.yarn_table.specs.Records.{column, columns_of};

use csv::StringRecord;

// The places of the columns `id` and `text`, where the header has both.
pub(crate) fn find_columns(header: &StringRecord) -> Option<(usize, usize)>
    ensures { result ≡ columns_of (fields_of header.now) }
{
    let id = find_column(header, "id")?;
    let text = find_column(header, "text")?;
    Some((id, text))
}

// The place of the first field of this name.
fn find_column(header: &StringRecord, name: &str) -> Option<usize>
    ensures { result ≡ column name.now (fields_of header.now) }
{
    for at in 0..header.len() {
        if field(header, at) == name {
            return Some(at);
        }
    }
    None
}

// The field at this place, which is empty where there is none.
pub(crate) fn field(from: &StringRecord, at: usize) -> &str
    ensures { result.now ≡ get_or (fields_of from.now) at [] }
{
    match from.get(at) {
        Some(text) => text,
        None => "",
    }
}

//! The records of a comma-separated text, up to a number of them.

ghost use Rattle.std.specs.Prelude.{◌≡◌, ◌<◌, ◌≤◌, map, length, IfOk, IfSome, IfNone};
ghost use Rattle.csv.specs.Records.{fields_of};
ghost use Rattle.vc_table.specs.Records.{records_of};

use csv::{ByteRecord, ReaderBuilder};
use std::alloc::{AllocError, Global};

// All records, or none where there are more than `most`.
pub(crate) fn all_records(
    alloc: Global,
    text: &[u8],
    most: usize,
) -> Result<Option<Vec<ByteRecord>>, AllocError>
    ensures records { IfOk result (λ o. IfSome o (λ rows. map fields_of rows.items ≡ records_of text.now)) }
    ensures few { IfOk result (λ o. IfSome o (λ rows. length rows.items ≤ most)) }
    ensures many { IfOk result (λ o. IfNone o (most < length (records_of text.now))) }
{
    let reader = ReaderBuilder::new()
        .has_headers(false)
        .flexible(true)
        .from_reader(alloc, text);
    let mut rows = Vec::new(alloc);
    for row in reader.into_byte_records() {
        match row {
            Ok(record) => {
                if rows.len() >= most {
                    return Ok(None);
                }
                rows.push(record)?;
            }
            Err(_) => return Err(AllocError),
        }
    }
    Ok(Some(rows))
}

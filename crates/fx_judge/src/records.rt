ghost use Rattle.std.specs.Prelude.{◌≡◌, IfOk, length, map, take};
ghost use Rattle.csv.specs.Records.{fields_of};
ghost use Rattle.fx_judge.specs.Reading.{csv_records};

use csv::{ByteRecord, ReaderBuilder};
use fx_base::NoMemory;
use std::alloc::Global;

/// The first records of a text, at most 4,098: one more than a plan can have.
pub(crate) fn read_records(alloc: Global, text: &[u8]) -> Result<Vec<ByteRecord>, NoMemory>
    ensures { IfOk result (λ v. map fields_of v.items ≡ take 4098 (csv_records text.now)) }
{
    let rdr = ReaderBuilder::new()
        .has_headers(false)
        .flexible(true)
        .from_reader(alloc, text);
    let mut records = Vec::new(alloc);
    for record in rdr.into_byte_records() {
        let Ok(record) = record else {
            return Err(NoMemory);
        };
        if records.push(record).is_err() {
            return Err(NoMemory);
        }
        if records.len() == 4098 {
            return Ok(records);
        }
    }
    Ok(records)
}

ghost use Rattle.std.specs.Prelude.{◌≡◌, ◌<◌, ◌≤◌, [], length, drop, slice_index_or, IfOk};
ghost use Rattle.csv.specs.Records.{fields_of};
ghost use Rattle.fx_judge.specs.Reading.{unread_columns};

use crate::name::is_same_name;
use csv::ByteRecord;
use fx_base::{Bytes, Items, NoMemory};
use std::alloc::Global;

/// The field at `i`, counted from 0.
pub(crate) fn field(row: &ByteRecord, i: usize) -> &[u8]
    requires { i < length (fields_of row.now) }
    ensures { result.now ≡ slice_index_or (fields_of row.now) i [] }
{
    match row.get(i) {
        Some(field) => field,
        None => b"",
    }
}

/// How many columns are left unread: a first one named BLOCK is.
pub(crate) fn unread(head: &ByteRecord) -> usize
    ensures columns { result ≡ unread_columns (fields_of head.now) }
    ensures most { result ≤ length (fields_of head.now) }
{
    if head.len() == 0 {
        return 0;
    }
    if is_same_name(field(head, 0), b"BLOCK") {
        return 1;
    }
    0
}

/// The fields of a record from `first` on.
pub(crate) fn fields_from(
    alloc: Global,
    row: &ByteRecord,
    first: usize,
) -> Result<Items<Bytes>, NoMemory>
    requires { first ≤ length (fields_of row.now) }
    ensures { IfOk result (λ names. names ≡ drop first (fields_of row.now)) }
{
    let mut names = Items::new(alloc);
    for i in first..row.len() {
        names.push(Bytes::from_slice(alloc, field(row, i))?)?;
    }
    Ok(names)
}

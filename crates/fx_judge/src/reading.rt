ghost use Rattle.std.specs.Prelude.{◌≡◌, ◌<◌, ◌≤◌, ◌+◌, ◌-◌, [], All, IfErr, IfOk, IsTrue, MatchOption, MatchResult};
ghost use Rattle.std.specs.Prelude.{None, Ok, Some, false, drop, length, map, slice_index_or};
ghost use Rattle.csv.specs.Records.{fields_of};
ghost use Rattle.fx_designs.specs.Galois.{is_order};
ghost use Rattle.fx_designs.specs.Vectors.{IsVector};
ghost use Rattle.fx_runs.specs.Levels.{default_values};
ghost use Rattle.fx_judge.specs.Plans.{component_total};
ghost use Rattle.fx_judge.specs.Reading.{are_names, are_values, codes_in, first_fault, factor_names, plan_in};
ghost use Rattle.fx_judge.specs.Reading.{plan_fault, plan_of_text, csv_records, row_fault, unread_columns};
ghost use Rattle.fx_judge.specs.Steps.{AreCodes, Explains, GoesOn, IsFirst, StopsAt};

use crate::fault::{FaultKind, PlanFault, PlanStop};
use crate::field::{field, fields_from, unread};
use crate::name::are_names;
use crate::plan::Plan;
use crate::records::read_records;
use crate::value::value_code;
use csv::ByteRecord;
use fx_base::{Bytes, Items};
use fx_galois::Field;
use fx_runs::default_values;
use fx_vectors::Vector;
use std::alloc::Global;

/// The plan of a text of comma-separated fields: a head line with the names of the factors, and a line
/// for each run with the default values of its levels. A first column named BLOCK is left unread.
///
/// # Errors
///
/// `Refused` with the first fault of the text, or `NoMemory`.
pub fn read_plan(alloc: Global, text: &[u8], field: Field) -> Result<Plan, PlanStop>
    requires { length text.now ≤ 1048576 }
    ensures plan { IfOk result (λ plan. plan_of_text field text.now ≡ Ok plan) }
    ensures refused { IfErr result (λ stop. Explains stop (plan_of_text field text.now)) }
{
    read_text(alloc, text, field)
}

/// The plan of a text, whatever its length.
fn read_text(alloc: Global, text: &[u8], field: Field) -> Result<Plan, PlanStop>
    ensures none { IfOk result (λ plan. first_fault field (csv_records text.now) ≡ None) }
    ensures plan { IfOk result (λ plan. plan ≡ plan_in field (csv_records text.now)) }
    ensures refused { IfErr result (λ stop. IsFirst stop (first_fault field (csv_records text.now))) }
{
    let Ok(records) = read_records(alloc, text) else {
        return Err(PlanStop::NoMemory);
    };
    plan_from(alloc, records.as_slice(), field)
}

/// The plan of the first records of a text, of which there are at most 4,098.
fn plan_from(alloc: Global, records: &[ByteRecord], field: Field) -> Result<Plan, PlanStop>
    requires { length records.now ≤ 4098 }
    ensures none { IfOk result (λ plan. first_fault field (map fields_of records.now) ≡ None) }
    ensures plan { IfOk result (λ plan. plan ≡ plan_in field (map fields_of records.now)) }
    ensures refused { IfErr result (λ stop. IsFirst stop
        (first_fault field (map fields_of records.now))) }
{
    if records.is_empty() {
        return Err(refused(FaultKind::NoRuns, 1));
    }
    let q = field.q();
    let head = &records[0];
    let first = unread(head);
    if head.len() - first > 40 {
        return Err(refused(FaultKind::InvalidNames, 1));
    }
    let Ok(names) = fields_from(alloc, head, first) else {
        return Err(PlanStop::NoMemory);
    };
    if !are_names(names.as_slice()) {
        return Err(refused(FaultKind::InvalidNames, 1));
    }
    if component_total(q, names.len() as u8) > 300 {
        return Err(refused(FaultKind::TooManyComponents, 1));
    }
    if records.len() == 1 {
        return Err(refused(FaultKind::NoRuns, 2));
    }
    let rows = rows_of(alloc, q, records, first)?;
    Ok(Plan::new(field, names, rows))
}

fn refused(kind: FaultKind, number: u32) -> PlanStop
    ensures { result ≡ PlanStop.Refused (plan_fault kind number) }
{
    PlanStop::Refused(PlanFault { kind, number })
}

/// How many components of one and two of `s` factors there are.
fn component_total(q: u8, s: u8) -> u32
    requires levels { 1 ≤ q }
    requires few { s ≤ 40 }
    ensures { result ≡ component_total q s }
{
    let mut total = 0;
    for i in 0..u32::from(s) {
        total += 1 + i * (u32::from(q) - 1);
    }
    total
}

/// The codes of the rows behind the head, whose columns before `first` are left unread.
fn rows_of(
    alloc: Global,
    q: u8,
    records: &[ByteRecord],
    first: usize,
) -> Result<Items<Vector>, PlanStop>
    requires some { 0 < length records.now }
    requires few { length records.now ≤ 4098 }
    requires order { IsTrue (is_order q) }
    requires unread { first ≡ unread_columns (slice_index_or (map fields_of records.now) 0 []) }
    requires within { first ≤ length (slice_index_or (map fields_of records.now) 0 []) }
    requires factors { length (slice_index_or (map fields_of records.now) 0 []) ≤ first + 40 }
    ensures none { let head = slice_index_or (map fields_of records.now) 0 [] in
        IfOk result (λ rows. row_fault q head 2 (drop 1 (map fields_of records.now)) ≡ None) }
    ensures rows { let head = slice_index_or (map fields_of records.now) 0 [] in
        IfOk result (λ rows. rows ≡ map (codes_in q head) (drop 1 (map fields_of records.now))) }
    ensures each { IfOk result (λ rows. All (λ x. IsVector q
        (length (slice_index_or (map fields_of records.now) 0 []) - first) x) rows) }
    ensures refused { let head = slice_index_or (map fields_of records.now) 0 [] in
        IfErr result (λ stop. IsFirst stop (row_fault q head 2 (drop 1 (map fields_of records.now)))) }
{
    let Ok(values) = default_values(alloc, q) else {
        return Err(PlanStop::NoMemory);
    };
    let mut rows = Items::new(alloc);
    for k in 1..records.len() {
        match codes_of(
            q,
            values.as_slice(),
            &records[0],
            &records[k],
            first,
            k as u32 + 1,
        ) {
            Ok(codes) => {
                if rows.push(codes).is_err() {
                    return Err(PlanStop::NoMemory);
                }
            }
            Err(found) => return Err(PlanStop::Refused(found)),
        }
    }
    Ok(rows)
}

/// The codes of the row with this number, or its fault.
fn codes_of(
    q: u8,
    values: &[Bytes],
    head: &ByteRecord,
    row: &ByteRecord,
    first: usize,
    number: u32,
) -> Result<Vector, PlanFault>
    requires order { IsTrue (is_order q) }
    requires values { values.now ≡ default_values q }
    requires unread { first ≡ unread_columns (fields_of head.now) }
    requires within { first ≤ length (fields_of head.now) }
    requires factors { length (fields_of head.now) ≤ first + 40 }
    ensures { MatchResult result (GoesOn q (fields_of head.now) number (fields_of row.now))
        (StopsAt q (fields_of head.now) number (fields_of row.now)) }
{
    if number == 4098 {
        return Err(PlanFault {
            kind: FaultKind::TooManyRuns,
            number,
        });
    }
    if row.len() != head.len() {
        return Err(PlanFault {
            kind: FaultKind::OtherLength,
            number,
        });
    }
    match codes_from(q, values, head, row, first) {
        Some(codes) => Ok(codes),
        None => Err(PlanFault {
            kind: FaultKind::NoLevel,
            number,
        }),
    }
}

/// The codes of the fields of a row from `first` on, where each is a value.
fn codes_from(
    q: u8,
    values: &[Bytes],
    head: &ByteRecord,
    row: &ByteRecord,
    first: usize,
) -> Option<Vector>
    requires order { IsTrue (is_order q) }
    requires values { values.now ≡ default_values q }
    requires unread { first ≡ unread_columns (fields_of head.now) }
    requires within { first ≤ length (fields_of row.now) }
    requires factors { length (fields_of row.now) ≤ first + 40 }
    ensures { MatchOption result (are_values q (drop first (fields_of row.now)) ≡ false)
        (AreCodes q (fields_of head.now) (fields_of row.now)) }
{
    let _head = head;
    let count = row.len() - first;
    let mut codes = Vector::zero(count);
    for i in 0..count {
        match value_code(q, values, field(row, first + i)) {
            Some(code) => codes.set(i, code as u8),
            None => return None,
        }
    }
    Some(codes)
}

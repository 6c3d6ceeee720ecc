ghost use Rattle.std.specs.Prelude.{◌≡◌, ◌≤◌, ◌^◌, length, drop, All, IfOk};
ghost use Rattle.fx_book.specs.declared.fault.BookStop.TheVariants.{Fault};
ghost use Rattle.fx_book.specs.Faults.{fault};
ghost use Rattle.fx_book.specs.Parts.{lines_of};
ghost use Rattle.fx_table_book.specs.Tables.{IsBase, IsBook, IsProper, IsSmall};
ghost use Rattle.fx_table_book.specs.Texts.{
  IsBookReading,
  IsEntriesReading,
  book_of,
  entries,
  from_base,
  from_demands,
  from_key,
  from_order,
  from_pattern,
  from_size,
};

use crate::base::Base;
use crate::book::{Entry, TableBook};
use crate::front::{base_of, key_of, order_from, pattern_of, size_of};
use crate::line::read_line;
use crate::order::{Order, parts};
use fx_base::Items;
use fx_book::{BookFault, BookStop, FaultKind, is_word, line_end};
use std::alloc::Global;

/// The most bytes of the book of a table, so that its entries take less than 1 GB of memory.
pub const MOST_TABLE_BYTES: usize = 33_554_432;

/// The book of a table that a text is; it can be checked. The work is linear in the bytes, and no line is copied.
///
/// # Errors
///
/// `Fault`, the first fault of a text that is no such book, and `NoMemory`.
#[tactic(auto, unfolding(crate::specs::Texts::book_of))]
pub fn read_table_book(alloc: Global, bytes: &[u8]) -> Result<TableBook, BookStop>
    ensures read { IsBookReading (book_of bytes.now) result }
    ensures valid { IfOk result IsBook }
{
    if bytes.len() > MOST_TABLE_BYTES {
        return Err(stop(FaultKind::TooLong, 1));
    }
    let end = line_end(bytes, 0);
    if end == bytes.len() {
        return Err(stop(FaultKind::Title, 1));
    }
    if is_word(&bytes[0..end], b"factex-table 2") {
        return from_base(alloc, bytes, end + 1);
    }
    if is_word(&bytes[0..end], b"factex-table 1") {
        return from_size(alloc, bytes, end + 1);
    }
    Err(stop(FaultKind::Title, 1))
}

/// The book whose line 2 begins at `at`.
fn from_base(alloc: Global, bytes: &[u8], at: usize) -> Result<TableBook, BookStop>
    requires at { at ≤ length bytes.now }
    requires few { length bytes.now ≤ 33554432 }
    ensures read { IsBookReading (from_base (lines_of (drop at bytes.now))) result }
    ensures valid { IfOk result IsBook }
{
    let end = line_end(bytes, at);
    if end == bytes.len() {
        return Err(stop(FaultKind::Unfinished, 2));
    }
    match base_of(&bytes[at..end]) {
        Err(kind) => Err(stop(kind, 2)),
        Ok(base) => from_order(alloc, bytes, end + 1, base),
    }
}

/// The book whose line 3 begins at `at`.
fn from_order(alloc: Global, bytes: &[u8], at: usize, base: Base) -> Result<TableBook, BookStop>
    requires at { at ≤ length bytes.now }
    requires few { length bytes.now ≤ 33554432 }
    requires base { IsBase base }
    requires proper { IsProper base }
    ensures read { IsBookReading (from_order base (lines_of (drop at bytes.now))) result }
    ensures valid { IfOk result IsBook }
{
    let end = line_end(bytes, at);
    if end == bytes.len() {
        return Err(stop(FaultKind::Unfinished, 3));
    }
    match order_from(&bytes[at..end]) {
        Err(kind) => Err(stop(kind, 3)),
        Ok(order) => from_key(alloc, bytes, end + 1, base, order),
    }
}

/// The book whose line 4 begins at `at`.
fn from_key(
    alloc: Global,
    bytes: &[u8],
    at: usize,
    base: Base,
    order: Order,
) -> Result<TableBook, BookStop>
    requires at { at ≤ length bytes.now }
    requires few { length bytes.now ≤ 33554432 }
    requires base { IsBase base }
    requires proper { IsProper base }
    ensures read { IsBookReading (from_key base order (lines_of (drop at bytes.now))) result }
    ensures valid { IfOk result IsBook }
{
    let end = line_end(bytes, at);
    if end == bytes.len() {
        return Err(stop(FaultKind::Unfinished, 4));
    }
    let count = parts(alloc, base, order)?.len();
    match key_of(alloc, base, count, &bytes[at..end]) {
        Err(e) => Err(e),
        Ok(key) => match read_entries(alloc, bytes, end + 1, base) {
            Err(e) => Err(e),
            Ok(entries) => Ok(TableBook {
                base,
                order,
                key,
                entries,
            }),
        },
    }
}

/// The book of the first version whose line 2 begins at `at`.
fn from_size(alloc: Global, bytes: &[u8], at: usize) -> Result<TableBook, BookStop>
    requires at { at ≤ length bytes.now }
    requires few { length bytes.now ≤ 33554432 }
    ensures read { IsBookReading (from_size (lines_of (drop at bytes.now))) result }
    ensures valid { IfOk result IsBook }
{
    let end = line_end(bytes, at);
    if end == bytes.len() {
        return Err(stop(FaultKind::Unfinished, 2));
    }
    match size_of(&bytes[at..end]) {
        Err(kind) => Err(stop(kind, 2)),
        Ok(base) => from_demands(alloc, bytes, end + 1, base),
    }
}

/// The book of the first version whose line 3 begins at `at`.
fn from_demands(alloc: Global, bytes: &[u8], at: usize, base: Base) -> Result<TableBook, BookStop>
    requires at { at ≤ length bytes.now }
    requires few { length bytes.now ≤ 33554432 }
    requires base { IsBase base }
    requires proper { IsProper base }
    ensures read { IsBookReading (from_demands base (lines_of (drop at bytes.now))) result }
    ensures valid { IfOk result IsBook }
{
    let end = line_end(bytes, at);
    if end == bytes.len() {
        return Err(stop(FaultKind::Unfinished, 3));
    }
    if !is_word(&bytes[at..end], b"resolution 3") {
        return Err(stop(FaultKind::Range, 3));
    }
    from_pattern(alloc, bytes, end + 1, base)
}

/// The book of the first version whose line 4 begins at `at`.
fn from_pattern(alloc: Global, bytes: &[u8], at: usize, base: Base) -> Result<TableBook, BookStop>
    requires at { at ≤ length bytes.now }
    requires few { length bytes.now ≤ 33554432 }
    requires base { IsBase base }
    requires proper { IsProper base }
    ensures read { IsBookReading (from_pattern base (lines_of (drop at bytes.now))) result }
    ensures valid { IfOk result IsBook }
{
    let end = line_end(bytes, at);
    if end == bytes.len() {
        return Err(stop(FaultKind::Unfinished, 4));
    }
    let order = Order::FactorsFirst;
    let count = parts(alloc, base, order)?.len();
    match pattern_of(alloc, base, count, &bytes[at..end]) {
        Err(e) => Err(e),
        Ok(key) => match read_entries(alloc, bytes, end + 1, base) {
            Err(e) => Err(e),
            Ok(entries) => Ok(TableBook {
                base,
                order,
                key,
                entries,
            }),
        },
    }
}

/// The entries of the lines that begin at `from`, of which the first has the number 5.
///
/// # Errors
///
/// `Fault`, the first of a line from the fifth on, and `NoMemory`.
fn read_entries(
    alloc: Global,
    bytes: &[u8],
    from: usize,
    base: Base,
) -> Result<Items<Entry>, BookStop>
    requires from { from ≤ length bytes.now }
    requires few { length bytes.now ≤ 33554432 }
    requires base { IsBase base }
    ensures read { IsEntriesReading (entries base 5 (lines_of (drop from bytes.now))) result }
    ensures valid { IfOk result (All (IsSmall base)) }
    ensures few { IfOk result (λ read. length read ≤ 2 ^ 28) }
{
    let runs = base.power(base.m);
    let mut entries = Items::new(alloc);
    let mut at = from;
    let mut line = 5;
    while at < bytes.len() {
        let end = line_end(bytes, at);
        if end == bytes.len() {
            return Err(stop(FaultKind::Unfinished, line));
        }
        let text = &bytes[at..end];
        at = end + 1;
        if is_word(text, b"END") {
            if at < bytes.len() {
                return Err(stop(FaultKind::Trailing, line + 1));
            }
            return Ok(entries);
        }
        match read_line(base, runs, text) {
            Ok(entry) => entries.push(entry)?,
            Err(kind) => return Err(stop(kind, line)),
        }
        line += 1;
    }
    Err(stop(FaultKind::Unfinished, line))
}

/// The fault in a line.
fn stop(kind: FaultKind, line: u32) -> BookStop
    ensures { result ≡ Fault (fault kind line) }
{
    BookStop::Fault(BookFault { kind, line })
}

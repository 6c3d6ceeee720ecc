ghost use Rattle.std.specs.Prelude.{◌≡◌, ◌≤◌, ◌<◌, ◌^◌, false, length, nat_lt, IfOk, IfSome, All, None};
ghost use Rattle.std.specs.List.{list_all};
ghost use Rattle.std.specs.Option.{option_map};
ghost use Rattle.fx_book.specs.Parts.{parts_of, parts_after};
ghost use Rattle.fx_strata.specs.Books as books;
ghost use Rattle.fx_table_book.specs.Tables.{IsBase, IsSmall};
ghost use Rattle.fx_table_book.specs.Texts.{
  entry_of,
  image_from,
  image_of,
  of_row,
  read_as,
  row_of,
  row_within,
  some_numbers,
};

use crate::base::Base;
use crate::book::{Entry, MOST_INDEXES};
use arrayvec::ArrayVec;
use fx_book::{FaultKind, is_word, next_stop, number};

/// The entry of a line, under a base of so many runs.
///
/// # Errors
///
/// `Form` where the line is of no entry's form, `Range` where a number is out of its range.
pub(crate) fn read_line(base: Base, runs: u16, line: &[u8]) -> Result<Entry, FaultKind>
    requires base { IsBase base }
    requires runs { runs ≡ base.q ^ base.m }
    ensures entry { read_as result ≡ entry_of base (parts_of line.now) }
    ensures valid { IfOk result (IsSmall base) }
{
    let end = next_stop(line, 0, b' ');
    if is_word(&line[..end], b"O") {
        return branch(base, runs, line, end);
    }
    if is_word(&line[..end], b"P") {
        return worse(base, runs, line, end);
    }
    if is_word(&line[..end], b"I") {
        return image(base, runs, line, end);
    }
    if is_word(&line[..end], b"R") {
        return no_room(base, runs, line, end);
    }
    if is_word(&line[..end], b"F") {
        return floor(base, runs, line, end);
    }
    if is_word(&line[..end], b"W") {
        return Err(FaultKind::Range);
    }
    Err(FaultKind::Form)
}

/// The branch whose row is the only part after `end`.
fn branch(base: Base, runs: u16, line: &[u8], end: usize) -> Result<Entry, FaultKind>
    requires runs { runs ≡ base.q ^ base.m }
    requires within { end ≤ length line.now }
    ensures entry { read_as result ≡ of_row books.Branch (row_of (base.q ^ base.m) (parts_after end line.now)) }
    ensures valid { IfOk result (IsSmall base) }
{
    match row_after(runs, line, end) {
        Ok(row) => Ok(Entry::Branch { row }),
        Err(kind) => Err(kind),
    }
}

/// The prefix of a key that is not less, whose row is the only part after `end`.
fn worse(base: Base, runs: u16, line: &[u8], end: usize) -> Result<Entry, FaultKind>
    requires runs { runs ≡ base.q ^ base.m }
    requires within { end ≤ length line.now }
    ensures entry { read_as result ≡ of_row books.Worse (row_of (base.q ^ base.m) (parts_after end line.now)) }
    ensures valid { IfOk result (IsSmall base) }
{
    match row_after(runs, line, end) {
        Ok(row) => Ok(Entry::Worse { row }),
        Err(kind) => Err(kind),
    }
}

/// The prefix without room whose row is the only part after `end`.
fn no_room(base: Base, runs: u16, line: &[u8], end: usize) -> Result<Entry, FaultKind>
    requires runs { runs ≡ base.q ^ base.m }
    requires within { end ≤ length line.now }
    ensures entry { read_as result ≡ of_row books.NoRoom (row_of (base.q ^ base.m) (parts_after end line.now)) }
    ensures valid { IfOk result (IsSmall base) }
{
    match row_after(runs, line, end) {
        Ok(row) => Ok(Entry::NoRoom { row }),
        Err(kind) => Err(kind),
    }
}

/// The prefix above its floor whose row is the only part after `end`.
fn floor(base: Base, runs: u16, line: &[u8], end: usize) -> Result<Entry, FaultKind>
    requires runs { runs ≡ base.q ^ base.m }
    requires within { end ≤ length line.now }
    ensures entry { read_as result ≡ of_row books.Floor (row_of (base.q ^ base.m) (parts_after end line.now)) }
    ensures valid { IfOk result (IsSmall base) }
{
    match row_after(runs, line, end) {
        Ok(row) => Ok(Entry::Floor { row }),
        Err(kind) => Err(kind),
    }
}

/// The row that is the only part after `end`.
fn row_after(runs: u16, line: &[u8], end: usize) -> Result<u16, FaultKind>
    requires { end ≤ length line.now }
    ensures row { result ≡ row_of runs (parts_after end line.now) }
    ensures below { IfOk result (λ row. row < runs) }
{
    if end == line.len() {
        return Err(FaultKind::Form);
    }
    let at = end + 1;
    let end = next_stop(line, at, b' ');
    if end < line.len() {
        return Err(FaultKind::Form);
    }
    row_within(runs, number(&line[at..end]))
}

fn row_within(runs: u16, row: Option<u128>) -> Result<u16, FaultKind>
    ensures row { result ≡ row_within runs row }
    ensures below { IfOk result (λ row. row < runs) }
{
    match row {
        None => Err(FaultKind::Form),
        Some(row) => {
            if row < u128::from(runs) {
                Ok(row as u16)
            } else {
                Err(FaultKind::Range)
            }
        }
    }
}

/// The image of the parts after `end`: a row, and the numbers of a change.
fn image(base: Base, runs: u16, line: &[u8], end: usize) -> Result<Entry, FaultKind>
    requires base { IsBase base }
    requires runs { runs ≡ base.q ^ base.m }
    requires within { end ≤ length line.now }
    ensures entry { read_as result ≡ image_of base (parts_after end line.now) }
    ensures valid { IfOk result (IsSmall base) }
{
    if end == line.len() {
        return Err(FaultKind::Form);
    }
    let at = end + 1;
    let end = next_stop(line, at, b' ');
    image_from(
        base,
        runs,
        number(&line[at..end]),
        numbers_after(base.m, line, end),
    )
}

/// The image of a row under a change, if their numbers are below the number of runs.
fn image_from(
    base: Base,
    runs: u16,
    row: Option<u128>,
    numbers: Option<ArrayVec<u128, MOST_INDEXES>>,
) -> Result<Entry, FaultKind>
    requires runs { runs ≡ base.q ^ base.m }
    requires count { IfSome numbers (λ numbers. length numbers.items ≡ base.m) }
    ensures entry { read_as result ≡ image_from (base.q ^ base.m) row (option_map (λ v. v.items) numbers) }
    ensures valid { IfOk result (IsSmall base) }
{
    match row {
        None => Err(FaultKind::Form),
        Some(row) => match numbers {
            None => Err(FaultKind::Form),
            Some(numbers) => {
                if row >= u128::from(runs) {
                    return Err(FaultKind::Range);
                }
                match change_of(runs, numbers.as_slice()) {
                    None => Err(FaultKind::Range),
                    Some(change) => Ok(Entry::Image {
                        row: row as u16,
                        change,
                    }),
                }
            }
        },
    }
}

/// The numbers of a change, if all are below the number of runs.
fn change_of(runs: u16, numbers: &[u128]) -> Option<ArrayVec<u16, MOST_INDEXES>>
    requires few { length numbers.now ≤ 10 }
    ensures same { IfSome result (λ change. change.items ≡ numbers.now) }
    ensures below { IfSome result (λ change. All (λ a. a < runs) change.items) }
    ensures some_are_not { result ≡ None → list_all (λ a. nat_lt a runs) numbers.now ≡ false }
{
    let mut change = ArrayVec::new();
    for number in numbers {
        if *number >= u128::from(runs) {
            return None;
        }
        change.push(*number as u16);
    }
    Some(change)
}

/// The numbers that the parts after `end` write, of which there are to be so many.
pub(crate) fn numbers_after(
    count: u8,
    line: &[u8],
    end: usize,
) -> Option<ArrayVec<u128, MOST_INDEXES>>
    requires few { count ≤ 10 }
    requires within { end ≤ length line.now }
    ensures read { option_map (λ v. v.items) result ≡ some_numbers count (parts_after end line.now) }
    ensures count { IfSome result (λ v. length v.items ≡ count) }
{
    let count = usize::from(count);
    let mut numbers = ArrayVec::new();
    let mut end = end;
    while end < line.len() {
        if numbers.len() == count {
            return None;
        }
        let at = end + 1;
        end = next_stop(line, at, b' ');
        match number(&line[at..end]) {
            None => return None,
            Some(n) => numbers.push(n),
        }
    }
    if numbers.len() < count {
        None
    } else {
        Some(numbers)
    }
}

ghost use Rattle.std.specs.Prelude.{◌≡◌, ◌≤◌, ◌+◌, ◌^◌, length, drop, IfOk};
ghost use Rattle.fx_vectors.specs.Shape.{IsShape};
ghost use Rattle.fx_book.specs.Valid.{IsValidBook};
ghost use Rattle.fx_book.specs.Parts.{lines_of};
ghost use Rattle.fx_book.specs.Reading.{IsReading};
ghost use Rattle.fx_book.specs.Heads.{book_of, head_of, with_head};

use crate::fault::{BookStop, FaultKind};
use crate::front::read_head;
use crate::part::next_stop;
use crate::reading::{read_entries, stop};
use crate::version::{Version, version_of};
use fx_vectors::{Book, Shape};
use std::alloc::Global;

/// The most bytes of a book.
const MOST_BYTES: usize = 268_435_456;

/// The book that a text is; it is valid. The work is linear in the bytes, and no line is copied.
///
/// # Errors
///
/// `Fault`, the first fault of a text that is no book, and `NoMemory`.
#[tactic(auto, unfolding(crate::specs::Heads::book_of))]
pub fn read_book(alloc: Global, bytes: &[u8]) -> Result<Book, BookStop>
    ensures read { IsReading (book_of bytes.now) result }
    ensures valid { IfOk result IsValidBook }
{
    if bytes.len() > MOST_BYTES {
        return Err(stop(FaultKind::TooLong, 1));
    }
    let end = next_stop(bytes, 0, b'\n');
    if end == bytes.len() {
        return Err(stop(FaultKind::Title, 1));
    }
    match version_of(&bytes[0..end]) {
        None => Err(stop(FaultKind::Title, 1)),
        Some(version) => from_head(alloc, version, bytes, end + 1),
    }
}

/// The book whose line 2 begins at `at`.
fn from_head(alloc: Global, version: Version, bytes: &[u8], at: usize) -> Result<Book, BookStop>
    requires at { at ≤ length bytes.now }
    requires few { length bytes.now ≤ 268435456 }
    ensures read { IsReading (with_head version (head_of version (lines_of (drop at bytes.now)))) result }
    ensures valid { IfOk result IsValidBook }
{
    match read_head(alloc, version, bytes, at) {
        Err(e) => Err(e),
        Ok(front) => {
            let head = front.head;
            let shape = head.question.shape;
            let beaten = head.beat.is_some();
            match read_entries(
                alloc,
                bytes,
                front.from,
                version,
                shape,
                word_count(shape),
                beaten,
            ) {
                Err(e) => Err(e),
                Ok(marks) => Ok(Book { head, marks }),
            }
        }
    }
}

/// How many vectors there are over all rows.
pub fn word_count(shape: Shape) -> u128
    requires { IsShape shape }
    ensures { result ≡ shape.q ^ (shape.s + shape.t) }
{
    u128::from(shape.q).pow(u32::from(shape.s) + u32::from(shape.t))
}

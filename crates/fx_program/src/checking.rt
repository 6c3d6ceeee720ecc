ghost use Rattle.std.specs.Prelude.{◌≡◌, ◌<◌, ◌++◌, Err, IfOk, Ok, OnOk, false};
ghost use Rattle.fx_book.specs.Heads.{book_of};
ghost use Rattle.fx_book.specs.Reading.{IsReading};
ghost use Rattle.fx_book.specs.Valid.{IsValidBook};
ghost use Rattle.fx_program.specs.declared.words.Settings.TheVariants.{Check};
ghost use Rattle.fx_program.specs.Commands.{checked_output, command_of, is_of_table};
ghost use Rattle.fx_program.specs.Output.{message, verdict_output};
ghost use Rattle.fx_program.specs.Outside.{
  IsCarriedOut,
  Lists,
  ShelfView,
  outside,
  sink_view,
  source_view,
};
ghost use Rattle.fx_program.specs.Verdicts.{
  book_fault_line,
  rejected_line,
  verdict_lines,
  verdict_status,
};

use crate::listing::list;
use crate::stop::Stop;
use crate::table_checking::check_table_text;
use fx_base::{Bytes, NoMemory, Sink, Source, Taken, put, put_number, read_all};
use fx_book::{BookFault, BookStop, FaultKind, read_book, write_head};
use fx_checker::{Verdict, check};
use fx_vectors::{Book, Head};
use std::alloc::Global;

/// The greatest number of bytes of a book.
pub(crate) const BOOK_LIMIT: usize = 268435456;

/// The fault of a text that is longer than that.
pub(crate) const TOO_LONG: BookFault = BookFault {
    kind: FaultKind::TooLong,
    line: 1,
};

/// The exit status where a book is rejected.
const REJECTED: u8 = 1;

/// The command `check`: reads a book, and lists whether it is accepted.
pub(crate) fn check_text<S: Source, K: Sink>(
    alloc: Global,
    source: &mut S,
    listing: &mut K,
) -> Result<u8, Stop>
    ensures { (shelf : ShelfView) → shelf.begun ≡ false → IsCarriedOut (command_of Check)
        (outside (source_view S.Source source.old) (sink_view K.Sink listing.old) shelf)
        (outside (source_view S.Source source.new) (sink_view K.Sink listing.new) shelf) result }
{
    let text = match read_all(alloc, source, BOOK_LIMIT)? {
        Taken::Whole(text) => text,
        Taken::TooLong => return refuse_book(alloc, TOO_LONG, listing),
    };
    check_whole(alloc, text, listing)
}

/// Lists the verdict on a text, as a book of the kind as which it begins.
fn check_whole<K: Sink>(alloc: Global, text: Bytes, listing: &mut K) -> Result<u8, Stop>
    ensures { Lists (checked_output text)
        (sink_view K.Sink listing.old) (sink_view K.Sink listing.new) result }
{
    if is_of_table(text.as_slice()) {
        return check_table_text(alloc, text, listing);
    }
    match take_book(alloc, text) {
        Ok(book) => list_verdict(alloc, &book, listing),
        Err(BookStop::Fault(fault)) => refuse_book(alloc, fault, listing),
        Err(BookStop::NoMemory) => Err(Stop::NoMemory),
    }
}

/// Whether a text has the first line of a book of a table, of either version.
fn is_of_table(text: &[u8]) -> bool
    ensures { result ≡ is_of_table text.now }
{
    text.strip_prefix(b"factex-table 1\n").is_some()
        || text.strip_prefix(b"factex-table 2\n").is_some()
}

/// The book of a text, which is let go.
pub(crate) fn take_book(alloc: Global, text: Bytes) -> Result<Book, BookStop>
    ensures read { IsReading (book_of text) result }
    ensures valid { IfOk result IsValidBook }
{
    read_book(alloc, text.as_slice())
}

/// Lists whether a book is accepted.
fn list_verdict<K: Sink>(alloc: Global, book: &Book, listing: &mut K) -> Result<u8, Stop>
    requires { IsValidBook book.now }
    ensures { Lists (verdict_output (Ok book.now))
        (sink_view K.Sink listing.old) (sink_view K.Sink listing.new) result }
{
    let verdict = check(alloc, book)?;
    let mut lines = Bytes::new(alloc);
    put_verdict(&mut lines, &book.head, verdict)?;
    list(listing, lines.as_slice(), status_of(verdict))
}

/// 0 for a book that is accepted, 1 for one that is rejected.
fn status_of(verdict: Verdict) -> u8
    ensures status { result ≡ verdict_status verdict }
    ensures low { result < 4 }
{
    match verdict {
        Verdict::Accepted => 0,
        Verdict::Rejected { .. } => REJECTED,
    }
}

/// Lists where a text is no book, and why.
pub(crate) fn refuse_book<K: Sink>(
    alloc: Global,
    fault: BookFault,
    listing: &mut K,
) -> Result<u8, Stop>
    ensures { Lists (message (book_fault_line fault) 1)
        (sink_view K.Sink listing.old) (sink_view K.Sink listing.new) result }
{
    let mut line = Bytes::new(alloc);
    put_rejected(&mut line, u128::from(fault.line), b"B", fault.kind.code())?;
    list(listing, line.as_slice(), REJECTED)
}

/// Appends the lines of a verdict on a book with this head.
fn put_verdict(out: &mut Bytes, head: &Head, verdict: Verdict) -> Result<(), NoMemory>
    ensures { OnOk result (out.new ≡ out.old ++ verdict_lines head.now verdict) }
{
    match verdict {
        Verdict::Accepted => {
            put(out, b"accepted\n")?;
            write_head(head, out)
        }
        Verdict::Rejected { line, reason } => {
            put_rejected(out, u128::from(line), b"K", reason.code())
        }
    }
}

/// Appends the line that names the place of a fault and, by a letter and a number, its kind.
pub(crate) fn put_rejected(
    out: &mut Bytes,
    line: u128,
    letter: &[u8],
    code: u8,
) -> Result<(), NoMemory>
    ensures { OnOk result (out.new ≡ out.old ++ rejected_line line letter.now code) }
{
    put(out, b"rejected line ")?;
    put_number(out, line)?;
    put(out, b" ")?;
    put(out, letter)?;
    put_number(out, u128::from(code))?;
    put(out, b"\n")?;
    Ok(())
}

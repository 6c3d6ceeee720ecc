ghost use Rattle.std.specs.Prelude.{◌≡◌, ◌<◌, ◌++◌, Ok, OnOk, IfOk};
ghost use Rattle.fx_table_book.specs.Tables.{IsBook};
ghost use Rattle.fx_table_book.specs.Texts.{IsBookReading, base_text, book_of, contents, key_text, order_text};
ghost use Rattle.fx_program.specs.Outside.{Lists, sink_view};
ghost use Rattle.fx_program.specs.TableVerdicts.{code_of, front_text, table_verdict, verdict_lines, verdict_status};

use crate::checking::{put_rejected, refuse_book};
use crate::listing::list;
use crate::stop::Stop;
use fx_base::{Bytes, NoMemory, Sink, put};
use fx_book::{BookStop, put_line};
use fx_table_book::{Base, Order, TableBook, read_table_book};
use fx_table_check::{Reason, Verdict, check_table};
use fx_vectors::Pattern;
use std::alloc::Global;

/// Lists the verdict on a text that begins as a book of a table does.
pub(crate) fn check_table_text<K: Sink>(
    alloc: Global,
    text: Bytes,
    listing: &mut K,
) -> Result<u8, Stop>
    ensures { Lists (table_verdict (book_of text))
        (sink_view K.Sink listing.old) (sink_view K.Sink listing.new) result }
{
    match take_table(alloc, text) {
        Ok(book) => list_verdict(alloc, &book, listing),
        Err(BookStop::Fault(fault)) => refuse_book(alloc, fault, listing),
        Err(BookStop::NoMemory) => Err(Stop::NoMemory),
    }
}

/// The book of a text, which is dropped.
fn take_table(alloc: Global, text: Bytes) -> Result<TableBook, BookStop>
    ensures read { IsBookReading (book_of text) result }
    ensures valid { IfOk result IsBook }
{
    read_table_book(alloc, text.as_slice())
}

/// Lists whether a book is accepted.
fn list_verdict<K: Sink>(alloc: Global, book: &TableBook, listing: &mut K) -> Result<u8, Stop>
    requires { IsBook book.now }
    ensures { Lists (table_verdict (Ok (contents book.now)))
        (sink_view K.Sink listing.old) (sink_view K.Sink listing.new) result }
{
    let verdict = check_table(alloc, book)?;
    let mut lines = Bytes::new(alloc);
    put_verdict(&mut lines, book, verdict)?;
    list(listing, lines.as_slice(), status_of(verdict))
}

/// 0 for a book that is accepted, 1 for one that is rejected.
fn status_of(verdict: Verdict) -> u8
    ensures status { result ≡ verdict_status verdict }
    ensures low { result < 4 }
{
    match verdict {
        Verdict::Accepted => 0,
        Verdict::Rejected { .. } => 1,
    }
}

/// Appends the lines of a verdict on a book, whose entries begin in line 5.
fn put_verdict(out: &mut Bytes, book: &TableBook, verdict: Verdict) -> Result<(), NoMemory>
    ensures { OnOk result (out.new ≡ out.old ++ verdict_lines (contents book.now) verdict) }
{
    match verdict {
        Verdict::Accepted => {
            put(out, b"accepted\n")?;
            put_front(out, book)
        }
        Verdict::Rejected { place, reason } => {
            put_rejected(out, place as u128 + 5, b"K", code_of(reason))
        }
    }
}

/// Appends the lines 2 to 4 of a book.
fn put_front(out: &mut Bytes, book: &TableBook) -> Result<(), NoMemory>
    ensures { OnOk result (out.new ≡ out.old ++ front_text (contents book.now)) }
{
    put_base(out, book.base)?;
    put_order(out, book.order)?;
    put_key(out, &book.key)
}

fn put_base(out: &mut Bytes, base: Base) -> Result<(), NoMemory>
    ensures { OnOk result (out.new ≡ out.old ++ base_text base) }
{
    let q = u128::from(base.q);
    let m = u128::from(base.m);
    let h = u128::from(base.h);
    let w = u128::from(base.w);
    let n = u128::from(base.n);
    put_line(out, b"base", &[q, m, h, w, n])
}

fn put_order(out: &mut Bytes, order: Order) -> Result<(), NoMemory>
    ensures { OnOk result (out.new ≡ out.old ++ order_text order) }
{
    match order {
        Order::FactorsFirst => put(out, b"order FF\n"),
        Order::ChengWuFirst => put(out, b"order W1\n"),
        Order::ChengWuSecond => put(out, b"order W2\n"),
        Order::SitterChenFeder => put(out, b"order SCF\n"),
        Order::MostClear => put(out, b"order CLEAR\n"),
    }
}

fn put_key(out: &mut Bytes, key: &Option<Pattern>) -> Result<(), NoMemory>
    ensures { OnOk result (out.new ≡ out.old ++ key_text key.now) }
{
    match key {
        None => put(out, b"key none\n"),
        Some(key) => put_line(out, b"key", key.as_slice()),
    }
}

/// The number by which messages name a reason: 1 for K1.
fn code_of(reason: Reason) -> u8
    ensures { result ≡ code_of reason }
{
    match reason {
        Reason::NoTurn => 2,
        Reason::Ended => 6,
        Reason::OtherRow => 1,
        Reason::Whole => 7,
        Reason::LowKey => 5,
        Reason::NoEarlierImage => 8,
        Reason::HasRoom => 10,
        Reason::LowFloor => 11,
    }
}

ghost use Rattle.std.specs.Prelude.{◌≡◌, ◌++◌, ◌∷◌, codes, OnErr, OnOk};
ghost use Rattle.fx_base.specs.Writing.{HoldsPart};
ghost use Rattle.fx_book.specs.Writing.{line_text, spaced};
ghost use Rattle.fx_table_book.specs.Tables.{entries_of, entry_of};
ghost use Rattle.fx_table_book.specs.Texts.{
  base_text,
  book_text,
  entries_text,
  entry_text,
  key_text,
  order_text,
};

use crate::base::Base;
use crate::book::{Entry, TableBook};
use crate::order::Order;
use fx_base::{Bytes, Items, NoMemory, put};
use fx_book::{put_after_blank, put_line};
use fx_vectors::Pattern;

/// The first line.
const TITLE: &[u8] = b"factex-table 2\n";

/// The last line.
const END: &[u8] = b"END\n";

/// Appends the text of the book of a table.
///
/// # Errors
///
/// `NoMemory`; `out` then holds a prefix of the text after what it held.
#[tactic(auto, using(fx_base::proofs::Held::nothing, fx_base::proofs::Held::past_first))]
pub fn write_table_book(book: &TableBook, out: &mut Bytes) -> Result<(), NoMemory>
    ensures ok { OnOk result (out.new ≡ out.old ++ book_text book.now) }
    ensures err { OnErr result (HoldsPart out.old out.new (book_text book.now)) }
{
    put(out, TITLE)?;
    put_base(out, book.base)?;
    put_order(out, book.order)?;
    put_key(out, &book.key)?;
    put_entries(out, &book.entries)?;
    put(out, END)?;
    Ok(())
}

fn put_base(out: &mut Bytes, base: Base) -> Result<(), NoMemory>
    ensures ok { OnOk result (out.new ≡ out.old ++ base_text base) }
    ensures err { OnErr result (HoldsPart out.old out.new (base_text base)) }
{
    let q = u128::from(base.q);
    let m = u128::from(base.m);
    let h = u128::from(base.h);
    let w = u128::from(base.w);
    let n = u128::from(base.n);
    put_line(out, b"base", &[q, m, h, w, n])
}

#[tactic(auto, using(fx_base::proofs::Held::nothing, fx_base::proofs::Held::past_first))]
fn put_order(out: &mut Bytes, order: Order) -> Result<(), NoMemory>
    ensures ok { OnOk result (out.new ≡ out.old ++ order_text order) }
    ensures err { OnErr result (HoldsPart out.old out.new (order_text order)) }
{
    match order {
        Order::FactorsFirst => put(out, b"order FF\n"),
        Order::ChengWuFirst => put(out, b"order W1\n"),
        Order::ChengWuSecond => put(out, b"order W2\n"),
        Order::SitterChenFeder => put(out, b"order SCF\n"),
        Order::MostClear => put(out, b"order CLEAR\n"),
    }
}

#[tactic(auto, using(fx_base::proofs::Held::nothing))]
fn put_key(out: &mut Bytes, key: &Option<Pattern>) -> Result<(), NoMemory>
    ensures ok { OnOk result (out.new ≡ out.old ++ key_text key.now) }
    ensures err { OnErr result (HoldsPart out.old out.new (key_text key.now)) }
{
    match key {
        None => put(out, b"key none\n"),
        Some(key) => put_line(out, b"key", key.as_slice()),
    }
}

fn put_entries(out: &mut Bytes, entries: &Items<Entry>) -> Result<(), NoMemory>
    ensures ok { OnOk result (out.new ≡ out.old ++ entries_text (entries_of entries.now)) }
    ensures err { OnErr result (HoldsPart out.old out.new (entries_text (entries_of entries.now))) }
{
    for i in 0..entries.len() {
        write_table_entry(entries.get(i), out)?;
    }
    Ok(())
}

/// Appends the line of an entry.
///
/// # Errors
///
/// `NoMemory`; `out` then holds a prefix of the line after what it held.
pub fn write_table_entry(entry: &Entry, out: &mut Bytes) -> Result<(), NoMemory>
    ensures ok { OnOk result (out.new ≡ out.old ++ entry_text (entry_of entry.now)) }
    ensures err { OnErr result (HoldsPart out.old out.new (entry_text (entry_of entry.now))) }
{
    match entry {
        Entry::Branch { row } => put_line(out, b"O", &[u128::from(*row)]),
        Entry::Worse { row } => put_line(out, b"P", &[u128::from(*row)]),
        Entry::Image { row, change } => put_image(out, *row, change.as_slice()),
        Entry::NoRoom { row } => put_line(out, b"R", &[u128::from(*row)]),
        Entry::Floor { row } => put_line(out, b"F", &[u128::from(*row)]),
    }
}

#[tactic(auto, using(fx_base::proofs::Held::nothing, fx_base::proofs::Held::in_first, fx_base::proofs::Held::past_first))]
fn put_image(out: &mut Bytes, row: u16, change: &[u16]) -> Result<(), NoMemory>
    ensures ok { OnOk result (out.new ≡ out.old ++ line_text (codes "I") (row ∷ change.now)) }
    ensures err { OnErr result (HoldsPart out.old out.new (line_text (codes "I") (row ∷ change.now))) }
{
    put(out, b"I")?;
    put_after_blank(out, u128::from(row))?;
    put_numbers(out, change)?;
    out.push(b'\n')
}

fn put_numbers(out: &mut Bytes, numbers: &[u16]) -> Result<(), NoMemory>
    ensures ok { OnOk result (out.new ≡ out.old ++ spaced numbers.now) }
    ensures err { OnErr result (HoldsPart out.old out.new (spaced numbers.now)) }
{
    for n in numbers {
        put_after_blank(out, u128::from(*n))?;
    }
    Ok(())
}

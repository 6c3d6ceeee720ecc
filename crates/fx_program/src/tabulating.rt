ghost use Rattle.std.specs.Prelude.{◌≡◌, ◌<◌, ◌≤◌, ◌^◌, ◌∷◌, ℕ, [], false, None, Some, IfOk};
ghost use Rattle.fx_program.specs.Listings.{HasShortName, book_events};
ghost use Rattle.fx_program.specs.Outside.{WritesSome, shelf_view, sink_view};
ghost use Rattle.fx_table_book.specs.Tables.{IsBase, IsProper};
ghost use Rattle.fx_table_lines.specs.Lines.{Holds};
ghost use Rattle.fx_table_lines.specs.declared.line.TableLine.TheVariants as line;
ghost use Rattle.fx_program.specs.TableWords.{IsAsked, first_line};
ghost use Rattle.fx_program.specs.Tabulating.{IsGiven, IsNumber, IsOfTable, book_file, files_of, line_output, line_status, open_given};
ghost use Rattle.fx_program.specs.Tables.{IsLine, IsReadable, IsShort, base_at};

use crate::lister::{BookFile, Lines, ListedLine, NO_DESIGN, Numbers, list_lines};
use crate::session::Session;
use crate::stop::Stop;
use crate::table_names::book_name;
use crate::table_words::{AskedTable, first_line};
use arrayvec::ArrayVec;
use fx_base::{Bytes, Items, NoMemory, Shelf, Sink};
use fx_table_book::{Base, MOST_TABLE_BYTES, Order, TableBook, write_table_book};
use fx_table_lines::{TableLine, put_head, put_line, table_line};
use fx_vectors::MOST_FACTORS;
use std::alloc::Global;
use std::thread::Threads;

/// No book has more entries.
const MOST_ENTRIES: usize = 5_000_000;

/// The rows of a design.
type Rows = ArrayVec<u16, MOST_FACTORS>;

/// The lines of a table.
#[derive(Drop)]
struct TableLines {
    asked: AskedTable,
}

impl Lines for TableLines {
    /// The rows of the design of the line before, with which the search for the next begins.
    type Before = Rows;

    ghost is_number = { λ x n. IsNumber x.asked n };

    ghost is_line = { λ x n given. IsGiven x.asked n given };

    ghost some = { λ x n is. line_output (base_at x.asked n) x.asked.order (line.Open 0 None) };

    ghost some_line = { λ x n is. open_given x.asked n };

    fn start(&self) -> Rows {
        Rows::new()
    }

    fn line<R: Threads + Sync>(
        &self,
        session: &Session<'_, R>,
        n: u8,
        before: &mut Rows,
    ) -> Result<ListedLine, NoMemory> {
        let alloc = session.alloc;
        let asked = self.asked;
        let base = base_at(asked, n);
        let line = line_for(alloc, asked, n, before.as_slice())?;
        let mut text = Bytes::new(alloc);
        put_line(alloc, &mut text, base, asked.order, &line)?;
        let listed = ListedLine {
            book: book_of(alloc, base, asked.order, &line)?,
            text,
            status: line_status(&line),
        };
        *before = rows_of(line);
        Ok(listed)
    }
}

/// Lists a table: its head, and then a line for each number of factors outside the base, up to the first without a
/// design.
pub(crate) fn list_table<R: Threads + Sync, K: Sink, F: Shelf>(
    rt: &R,
    alloc: Global,
    asked: AskedTable,
    listing: &mut K,
    shelf: &mut F,
) -> Result<u8, Stop>
    requires asked { IsAsked asked }
    requires ended { F.begun shelf.old ≡ false }
    ensures { WritesSome (IsOfTable asked)
        (sink_view K.Sink listing.old) (sink_view K.Sink listing.new)
        (shelf_view F.Shelf shelf.old) (shelf_view F.Shelf shelf.new) result }
{
    let mut head = Bytes::new(alloc);
    put_head(&mut head, base_at(asked, asked.upto), asked.order)?;
    let session = Session {
        rt,
        alloc,
        threads: 1,
        seed: 0,
    };
    let numbers = Numbers {
        first: first_line(asked),
        last: asked.upto,
    };
    let lines = TableLines { asked };
    list_lines(&session, head.as_slice(), &lines, numbers, listing, shelf)
}

/// Designs with n factors outside the base.
fn base_at(asked: AskedTable, n: u8) -> Base
    requires asked { IsAsked asked }
    requires line { (first_line asked ≤ n) × (n ≤ asked.upto) }
    ensures base { result ≡ base_at asked n }
    ensures valid { IsBase result }
    ensures proper { IsProper result }
{
    Base {
        q: asked.q,
        m: asked.m,
        h: asked.h,
        w: asked.inside,
        n,
    }
}

/// The line for n factors outside the base. It is open where the text of its book would be too long to be read.
fn line_for(alloc: Global, asked: AskedTable, n: u8, before: &[u16]) -> Result<TableLine, NoMemory>
    requires asked { IsAsked asked }
    requires line { (first_line asked ≤ n) × (n ≤ asked.upto) }
    ensures { IfOk result (IsLine asked n) }
{
    let base = base_at(asked, n);
    let line = table_line(alloc, base, asked.order, asked.entries as u32, before)?;
    if has_long_book(alloc, &line)? {
        return Ok(opened(line));
    }
    Ok(line)
}

/// Whether the text of a line's book would be too long.
fn has_long_book(alloc: Global, line: &TableLine) -> Result<bool, NoMemory>
    ensures { IfOk result (λ is_long. is_long ≡ false → IsReadable line.now) }
{
    match line {
        TableLine::Least {
            rows: _,
            rules: _,
            key: _,
            book,
        } => is_long(alloc, book),
        TableLine::Nothing { book } => is_long(alloc, book),
        TableLine::Open { .. } => Ok(false),
    }
}

/// Whether the text of a book would be too long.
fn is_long(alloc: Global, book: &TableBook) -> Result<bool, NoMemory>
    ensures { IfOk result (λ is_long. is_long ≡ false → IsShort book.now) }
{
    let mut text = Bytes::new(alloc);
    write_table_book(book, &mut text)?;
    Ok(text.len() > MOST_TABLE_BYTES)
}

/// The line that is open after the entries of its book.
fn opened(line: TableLine) -> TableLine
    ensures holds { (base : Base) (order : Order) (budget : ℕ)
        → Holds base order budget line → Holds base order budget result }
    ensures readable { IsReadable result }
{
    match line {
        TableLine::Least {
            rows,
            rules: _rules,
            key: _key,
            book,
        } => TableLine::Open {
            entries: book.entries.len().min(MOST_ENTRIES) as u32,
            rows: Some(rows),
        },
        TableLine::Nothing { book } => TableLine::Open {
            entries: book.entries.len().min(MOST_ENTRIES) as u32,
            rows: None,
        },
        TableLine::Open { entries, rows } => TableLine::Open { entries, rows },
    }
}

/// The rows of the design of a line, if it has one.
fn rows_of(line: TableLine) -> Rows {
    match line {
        TableLine::Least {
            rows,
            rules: _rules,
            key: _key,
            book: _book,
        } => rows,
        TableLine::Nothing { book: _book } => Rows::new(),
        TableLine::Open { entries: _, rows } => match rows {
            Some(rows) => rows,
            None => Rows::new(),
        },
    }
}

/// The status of a line: 0 for a design, 1 for none, 2 where it is open.
fn line_status(line: &TableLine) -> u8
    ensures status { result ≡ line_status line.now }
    ensures low { result < 4 }
{
    match line {
        TableLine::Least { .. } => 0,
        TableLine::Nothing { .. } => NO_DESIGN,
        TableLine::Open { .. } => 2,
    }
}

/// The file of the book of a line that is not open.
fn book_of(
    alloc: Global,
    base: Base,
    order: Order,
    line: &TableLine,
) -> Result<Option<BookFile>, NoMemory>
    requires { IsBase base }
    ensures { IfOk result (λ file. (book_events file ≡ files_of base order line.now) × HasShortName file) }
{
    match line {
        TableLine::Least {
            rows: _,
            rules: _,
            key: _,
            book,
        } => Ok(Some(file_of(alloc, base, order, book)?)),
        TableLine::Nothing { book } => Ok(Some(file_of(alloc, base, order, book)?)),
        TableLine::Open {
            entries: _,
            rows: _,
        } => Ok(None),
    }
}

/// The file of the book of a line.
fn file_of(alloc: Global, base: Base, order: Order, book: &TableBook) -> Result<BookFile, NoMemory>
    requires { IsBase base }
    ensures { IfOk result (λ file. (book_events (Some file) ≡ book_file base order book.now ∷ []) × HasShortName (Some file)) }
{
    let mut text = Bytes::new(alloc);
    write_table_book(book, &mut text)?;
    let mut pieces = Items::new(alloc);
    pieces.push(text)?;
    Ok(BookFile {
        name: book_name(base, order),
        pieces,
    })
}

ghost use Rattle.std.specs.Prelude.{◌≡◌, ◌<◌, ◌≤◌, [], ◌∷◌, Some, false, length, refl, IfOk};
ghost use Rattle.fx_vectors.specs.Shape.{IsShape};
ghost use Rattle.fx_catalogue.specs.Catalogues.{book_file, book_name, entry_at, files_of, shape_at};
ghost use Rattle.fx_program.specs.Cataloguing.{HasShapedBook, IsNumber, catalogue_output, entry_output, line_status};
ghost use Rattle.fx_program.specs.CommandLine.{IsCatalogue};
ghost use Rattle.fx_program.specs.Listings.{HasShortName, book_events};
ghost use Rattle.fx_program.specs.Outside.{Writes, shelf_view, sink_view};

use crate::lister::{BOOK_NAME, BookFile, Lines, ListedLine, NO_DESIGN, Numbers, list_lines};
use crate::session::Session;
use crate::stop::Stop;
use crate::words::append;
use arrayvec::ArrayVec;
use fx_base::{Bytes, NoMemory, Shelf, Sink};
use fx_board::FreeGate;
use fx_book::book_pieces;
use fx_catalogue::{Line, least_line, put_head, put_line};
use fx_vectors::{Book, Shape};
use itoa::Buffer;
use std::alloc::Global;
use std::thread::Threads;

/// The numbers of a catalogue.
#[derive(Clone, Copy)]
pub(crate) struct CatalogueNumbers {
    /// How many levels the factors have.
    pub(crate) q: u8,
    /// How many run indexes the designs have.
    pub(crate) m: u8,
    /// The greatest number of factors.
    pub(crate) upto: u8,
    /// How many nodes each question may have.
    pub(crate) nodes: u64,
}

impl CatalogueNumbers {
    /// The shape of the line for this number of factors.
    fn shape(self, s: u8) -> Shape
        ensures { result ≡ shape_at self.q self.m s }
    {
        Shape {
            q: self.q,
            m: self.m,
            s,
            t: 0,
        }
    }
}

/// The lines of a catalogue.
#[derive(Drop)]
struct CatalogueLines {
    asked: CatalogueNumbers,
}

impl Lines for CatalogueLines {
    type Before = ();

    ghost is_number = { λ x n. IsNumber x.asked.q x.asked.m x.asked.upto x.asked.nodes n };

    ghost is_line = { λ x n given. given ≡ entry_output x.asked.nodes (entry_at x.asked.q x.asked.m x.asked.nodes n) };

    ghost some = { λ x n is. entry_output x.asked.nodes (entry_at x.asked.q x.asked.m x.asked.nodes n) };

    ghost some_line = { λ x n is. refl };

    fn start(&self) {}

    /// The book is let go before the next question is asked.
    fn line<R: Threads + Sync>(
        &self,
        session: &Session<'_, R>,
        n: u8,
        _before: &mut (),
    ) -> Result<ListedLine, NoMemory> {
        let nodes = self.asked.nodes;
        let shape = self.asked.shape(n);
        let line = least_line(
            session.rt,
            session.alloc,
            shape,
            nodes,
            session.threads,
            &FreeGate,
        )?;
        let mut text = Bytes::new(session.alloc);
        put_line(&mut text, n, &line, nodes)?;
        Ok(ListedLine {
            book: book_of(session, n, &line)?,
            text,
            status: line_status(&line),
        })
    }
}

/// Lists a catalogue: its head, and then a line for each number of factors, up to the first without a design.
pub(crate) fn list_catalogue<R: Threads + Sync, K: Sink, F: Shelf>(
    session: &Session<'_, R>,
    asked: CatalogueNumbers,
    listing: &mut K,
    shelf: &mut F,
) -> Result<u8, Stop>
    requires numbers { IsCatalogue asked.q asked.m asked.upto asked.nodes }
    requires ended { F.begun shelf.old ≡ false }
    ensures { Writes (catalogue_output asked.q asked.m asked.upto asked.nodes)
        (sink_view K.Sink listing.old) (sink_view K.Sink listing.new)
        (shelf_view F.Shelf shelf.old) (shelf_view F.Shelf shelf.new) result }
{
    let mut head = Bytes::new(session.alloc);
    put_head(&mut head, asked.shape(asked.upto))?;
    let numbers = Numbers {
        first: asked.m + 1,
        last: asked.upto,
    };
    let lines = CatalogueLines { asked };
    list_lines(session, head.as_slice(), &lines, numbers, listing, shelf)
}

/// The status of a line: 0 for a design, 1 for none, 2 where the budget ended.
fn line_status(line: &Line) -> u8
    ensures status { result ≡ line_status line.now }
    ensures low { result < 4 }
{
    match line {
        Line::Least { .. } => 0,
        Line::Nothing { .. } => NO_DESIGN,
        Line::Budget => 2,
    }
}

/// The file of the book of a line, where its question was finished.
fn book_of<R: Threads + Sync>(
    session: &Session<'_, R>,
    factors: u8,
    line: &Line,
) -> Result<Option<BookFile>, NoMemory>
    requires shaped { HasShapedBook line.now }
    ensures { IfOk result (λ file. (book_events file ≡ files_of factors line.now) × HasShortName file) }
{
    match line {
        Line::Least {
            matrix: _,
            pattern: _,
            nodes: _,
            book,
        } => Ok(Some(file_of(session, factors, book)?)),
        Line::Nothing { nodes: _, book } => Ok(Some(file_of(session, factors, book)?)),
        Line::Budget => Ok(None),
    }
}

/// The file of the book of the line for this number of factors.
fn file_of<R: Threads + Sync>(
    session: &Session<'_, R>,
    factors: u8,
    book: &Book,
) -> Result<BookFile, NoMemory>
    requires shaped { IsShape book.now.head.question.shape }
    ensures { IfOk result (λ file. (book_events (Some file) ≡ book_file factors book.now ∷ []) × HasShortName (Some file)) }
{
    Ok(BookFile {
        name: book_name(factors),
        pieces: book_pieces(session.rt, session.alloc, book, session.threads)?,
    })
}

/// The name of the file of the book of the line for this number of factors.
fn book_name(factors: u8) -> ArrayVec<u8, BOOK_NAME>
    ensures name { result.items ≡ book_name factors }
    ensures short { (1 ≤ length result.items) × (length result.items ≤ 64) }
{
    let mut number = Buffer::new();
    let mut file = ArrayVec::new();
    append(&mut file, b"catalogue-");
    append(&mut file, number.format(factors).as_bytes());
    append(&mut file, b".book");
    file
}

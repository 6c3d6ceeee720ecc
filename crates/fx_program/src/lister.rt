ghost use Rattle.std.specs.Prelude.{◌≡◌, ◌<◌, ◌≤◌, List, ℕ, false, IfOk};
ghost use Rattle.fx_program.specs.Listings.{IsListable, IsListing, HasShortName, book_events, line_given};
ghost use Rattle.fx_program.specs.Outside.{ShelvesFiles, Writes, WritesSome, shelf_view, sink_view};

use crate::listing::list;
use crate::session::Session;
use crate::status::worse;
use crate::stop::Stop;
use arrayvec::ArrayVec;
use fx_base::{Bytes, Items, NoMemory, Shelf, Sink, shelve_pieces};
use std::thread::Threads;

/// The room for the name of a book's file.
pub(crate) const BOOK_NAME: usize = 256;

/// The status of a line without a design.
pub(crate) const NO_DESIGN: u8 = 1;

/// The file of a book: its name, and its bytes in pieces.
#[derive(Drop)]
pub(crate) struct BookFile {
    pub(crate) name: ArrayVec<u8, BOOK_NAME>,
    pub(crate) pieces: Items<Bytes>,
}

/// A line of a listing.
#[derive(Drop)]
pub(crate) struct ListedLine {
    /// The file of its book, where it has one.
    pub(crate) book: Option<BookFile>,
    pub(crate) text: Bytes,
    /// 0 for a design, 1 for none, 2 where its budget ended.
    pub(crate) status: u8,
}

/// The lines of a listing, one for each number of factors.
pub(crate) trait Lines {
    ghost use Rattle.std.specs.Thread.{IsSync};
    ghost use Rattle.fx_program.specs.Output.{Output};

    /// What one line leaves for the next.
    type Before: Drop;

    /// There is a line for this number of factors.
    ghost is_number: { Self → ℕ → Type 0 };

    /// This may be given for the line of this number.
    ghost is_line: { Self → ℕ → Output → Type 0 };

    /// Something may be given for each.
    ghost some: { (s : Self) (n : ℕ) → is_number s n → Output };

    ghost some_line: { (s : Self) (n : ℕ) (is : is_number s n) → is_line s n (some s n is) };

    /// What there is before the first line.
    fn start(&self) -> Self::Before;

    /// The line for this number of factors.
    ///
    /// # Errors
    ///
    /// `NoMemory`.
    fn line<R: Threads + Sync>(
        &self,
        session: &Session<'_, R>,
        n: u8,
        before: &mut Self::Before,
    ) -> Result<ListedLine, NoMemory>
        requires sync { IsSync R.row }
        requires number { is_number self.now n }
        ensures listable { IfOk result IsListable }
        ensures line { IfOk result (λ line. is_line self.now n (line_given line)) };
}

/// The numbers of factors of which a listing has a line.
#[derive(Clone, Copy)]
pub(crate) struct Numbers {
    pub(crate) first: u8,
    pub(crate) last: u8,
}

/// Lists a head, and then the line for each number of factors from the first on, up to the first line without a design
/// or to the last number. The file of a line's book is shelved before the line is listed.
pub(crate) fn list_lines<R: Threads + Sync, L: Lines, K: Sink, F: Shelf>(
    session: &Session<'_, R>,
    head: &[u8],
    lines: &L,
    numbers: Numbers,
    listing: &mut K,
    shelf: &mut F,
) -> Result<u8, Stop>
    requires numbers { (n : ℕ) → numbers.first ≤ n → n ≤ numbers.last → L.is_number lines.now n }
    requires last { numbers.last < 255 }
    requires ended { F.begun shelf.old ≡ false }
    ensures { WritesSome (IsListing head.now (L.is_line lines.now) numbers.first numbers.last)
        (sink_view K.Sink listing.old) (sink_view K.Sink listing.new)
        (shelf_view F.Shelf shelf.old) (shelf_view F.Shelf shelf.new) result }
{
    list(listing, head, 0)?;
    let mut status = 0;
    let mut before = lines.start();
    for n in numbers.first..numbers.last + 1 {
        let line = lines.line(session, n, &mut before)?;
        let ended = list_line(&line, listing, shelf)?;
        status = worse(status, ended);
        // With more factors there is none either.
        if ended == NO_DESIGN {
            return Ok(status);
        }
    }
    Ok(status)
}

/// Lists a line, once the file of its book is shelved, and returns its status.
fn list_line<K: Sink, F: Shelf>(
    line: &ListedLine,
    listing: &mut K,
    shelf: &mut F,
) -> Result<u8, Stop>
    requires listable { IsListable line.now }
    requires ended { F.begun shelf.old ≡ false }
    ensures { Writes (line_given line.now)
        (sink_view K.Sink listing.old) (sink_view K.Sink listing.new)
        (shelf_view F.Shelf shelf.old) (shelf_view F.Shelf shelf.new) result }
{
    shelve_book(&line.book, shelf)?;
    list(listing, line.text.as_slice(), line.status)
}

/// Shelves the file of a book, where there is one.
fn shelve_book<F: Shelf>(book: &Option<BookFile>, shelf: &mut F) -> Result<(), Stop>
    requires name { HasShortName book.now }
    requires ended { F.begun shelf.old ≡ false }
    ensures { ShelvesFiles (book_events book.now)
        (shelf_view F.Shelf shelf.old) (shelf_view F.Shelf shelf.new) result }
{
    match book {
        Some(file) => {
            shelve_pieces(shelf, file.name.as_slice(), file.pieces.as_slice())?;
            Ok(())
        }
        None => Ok(()),
    }
}

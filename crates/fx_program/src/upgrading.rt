ghost use Rattle.std.specs.Prelude.{◌≡◌, false};
ghost use Rattle.fx_vectors.specs.Shape.{IsShape};
ghost use Rattle.fx_book.specs.Writing.{book_text};
ghost use Rattle.fx_program.specs.declared.words.Settings.TheVariants.{Upgrade};
ghost use Rattle.fx_program.specs.Commands.{command_of};
ghost use Rattle.fx_program.specs.Output.{message};
ghost use Rattle.fx_program.specs.Outside.{
  IsCarriedOut,
  Lists,
  ShelfView,
  outside,
  sink_view,
  source_view,
};

use crate::checking::{BOOK_LIMIT, TOO_LONG, refuse_book, take_book};
use crate::stop::Stop;
use fx_base::{Sink, Source, Taken, read_all};
use fx_book::{BookStop, stream_book};
use fx_vectors::Book;
use std::alloc::Global;

/// The command `upgrade`: reads a book of either version, and lists its text in version 2. It does not
/// check whether the book is good.
pub(crate) fn upgrade_text<S: Source, K: Sink>(
    alloc: Global,
    source: &mut S,
    listing: &mut K,
) -> Result<u8, Stop>
    ensures { (shelf : ShelfView) → shelf.begun ≡ false → IsCarriedOut (command_of Upgrade)
        (outside (source_view S.Source source.old) (sink_view K.Sink listing.old) shelf)
        (outside (source_view S.Source source.new) (sink_view K.Sink listing.new) shelf) result }
{
    let text = match read_all(alloc, source, BOOK_LIMIT)? {
        Taken::Whole(text) => text,
        Taken::TooLong => return refuse_book(alloc, TOO_LONG, listing),
    };
    match take_book(alloc, text) {
        Ok(book) => list_book(alloc, &book, listing),
        Err(BookStop::Fault(fault)) => refuse_book(alloc, fault, listing),
        Err(BookStop::NoMemory) => Err(Stop::NoMemory),
    }
}

/// Lists the text of a book.
fn list_book<K: Sink>(alloc: Global, book: &Book, listing: &mut K) -> Result<u8, Stop>
    requires { IsShape book.now.head.question.shape }
    ensures { Lists (message (book_text book.now) 0)
        (sink_view K.Sink listing.old) (sink_view K.Sink listing.new) result }
{
    stream_book(alloc, book, listing)?;
    Ok(0)
}

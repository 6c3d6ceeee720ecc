ghost use Rattle.std.specs.Prelude.{◌≡◌, ◌≤◌, ◌++◌, IfOk, codes, length, slice_range};
ghost use Rattle.fx_vectors.specs.Shape.{IsShape, dimensions_of};
ghost use Rattle.fx_book.specs.declared.version.Version.TheVariants.{Second};
ghost use Rattle.fx_book.specs.Entries.{entries_text};
ghost use Rattle.fx_book.specs.Streaming.{WritesTo};
ghost use Rattle.fx_book.specs.Writing.{book_text};

use crate::writing::{END, front_of, put_range};
use fx_base::{Bytes, Failed, NoMemory, Sink, write_all};
use fx_vectors::{Book, Marks, Shape};
use std::alloc::Global;
use thiserror::Error;

/// How many entries are held as text at a time.
const PART: usize = 16_384;

/// Why a book was not written whole.
#[derive(Debug, Clone, Copy, Error)]
pub enum WriteStop {
    /// Memory ran out.
    #[error("memory ran out")]
    NoMemory,
    /// A call on the sink failed.
    #[error("writing failed")]
    WriteFault,
}

impl From<NoMemory> for WriteStop {
    ghost use Rattle.std.specs.Prelude.{◌≡◌};
    ghost use Rattle.fx_book.specs.declared.streaming.WriteStop.TheVariants as stop;

    ghost from_gives = { λ _ e. e ≡ stop.NoMemory };

    fn from(_e: NoMemory) -> WriteStop {
        WriteStop::NoMemory
    }
}

impl From<Failed> for WriteStop {
    ghost use Rattle.std.specs.Prelude.{◌≡◌};
    ghost use Rattle.fx_book.specs.declared.streaming.WriteStop.TheVariants as stop;

    ghost from_gives = { λ _ e. e ≡ stop.WriteFault };

    fn from(_e: Failed) -> WriteStop {
        WriteStop::WriteFault
    }
}

/// Writes the text of a book to a sink, part after part, so that it is never held whole.
///
/// # Errors
///
/// `NoMemory` and `WriteFault`; the sink then has a prefix of the text, and no further call is made.
pub fn stream_book<K: Sink>(alloc: Global, book: &Book, sink: &mut K) -> Result<(), WriteStop>
    requires shaped { IsShape book.now.head.question.shape }
    ensures { WritesTo K.Sink (book_text book.now) sink.old sink.new result }
{
    let front = front_of(alloc, &book.head)?;
    write_all(sink, front.as_slice())?;
    stream_entries(alloc, book.head.question.shape, &book.marks, sink)?;
    write_all(sink, END)?;
    Ok(())
}

/// Writes the entries of a book to a sink.
fn stream_entries<K: Sink>(
    alloc: Global,
    shape: Shape,
    marks: &Marks,
    sink: &mut K,
) -> Result<(), WriteStop>
    requires shaped { IsShape shape }
    ensures { WritesTo K.Sink (entries_text Second (dimensions_of shape) marks.now) sink.old sink.new result }
{
    let mut at = 0;
    while at < marks.len() {
        let next = at + (marks.len() - at).min(PART);
        stream_range(alloc, shape, marks, at, next, sink)?;
        at = next;
    }
    Ok(())
}

/// Writes the entries from `from` on up to `to` to a sink.
fn stream_range<K: Sink>(
    alloc: Global,
    shape: Shape,
    marks: &Marks,
    from: usize,
    to: usize,
    sink: &mut K,
) -> Result<(), WriteStop>
    requires shaped { IsShape shape }
    requires ordered { from ≤ to }
    requires within { to ≤ length marks.now }
    ensures { WritesTo K.Sink (entries_text Second (dimensions_of shape) (slice_range marks.now from to)) sink.old sink.new result }
{
    let mut text = Bytes::new(alloc);
    put_range(&mut text, shape, marks, from, to)?;
    write_all(sink, text.as_slice())?;
    Ok(())
}

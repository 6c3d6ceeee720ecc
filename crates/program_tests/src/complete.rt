ghost use Rattle.std.specs.Prelude.{◌≢◌, ◌<◌, ◌≤◌, ◌+◌, length, IfOk};
ghost use Rattle.fx_base.specs.Acts.{files_of, pieces};
ghost use Rattle.fx_base.specs.Memory.{room_of};
ghost use Rattle.fx_program.specs.CommandLine.{bytes_of};
ghost use Rattle.fx_program.specs.Commands.{AreGiven};
ghost use Rattle.fx_program.specs.Output.{Output};

use fx_base::{Bytes, NoMemory, SureShelf, SureSink, SureSource};
use fx_program::factex;
use std::alloc::Global;
use std::thread::Threads;

/// How many bytes a call moves at most.
const STEP: usize = 4096;

/// The status of a command line over a text in memory, where the listing and the shelf have more room than the
/// defined output takes: no call fails.
///
/// # Errors
///
/// `NoMemory`: the room is not there.
fn status_with_room<R: Threads + Sync>(
    rt: &R,
    alloc: Global,
    words: &[Vec<u8>],
    text: Bytes,
    listing_room: usize,
    shelf_room: usize,
) -> Result<u8, NoMemory>
    requires listing { (output : Output) → AreGiven (bytes_of words.now) text output
        → length (pieces output.events) < listing_room }
    requires shelf { (output : Output) → AreGiven (bytes_of words.now) text output
        → room_of (files_of output.events) + 64 ≤ shelf_room }
    ensures { IfOk result (λ status. (status ≤ 5) × (status ≢ 4)) }
{
    let mut source = SureSource::new(text, STEP);
    let mut listing = SureSink::new(alloc, STEP, listing_room)?;
    let mut shelf = SureShelf::new(alloc, STEP, shelf_room)?;
    let status = factex(rt, alloc, words, &mut source, &mut listing, &mut shelf);
    // Their counts, once read, are known to be 0 where they have room.
    let _listed = listing.faults();
    let _shelved = shelf.faults();
    Ok(status)
}

/// Refused words are listed.
#[test]
fn with_room_no_call_fails(rt: HostRuntime) {
    let alloc = rt.alloc();
    let words = Vec::new(alloc);
    let status = status_with_room(&rt, alloc, words.as_slice(), Bytes::new(alloc), 64, 64);
    assert!(rt; status.expect(&rt, "memory") == 3);
}

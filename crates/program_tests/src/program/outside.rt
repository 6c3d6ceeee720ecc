ghost use Rattle.std.specs.Prelude.{◌≡◌, false};
ghost use Rattle.fx_base.specs.Memory.{has_open};

use fx_base::{Bytes, MemoryShelf, MemorySink, MemorySource};
use fx_program::factex;
use std::alloc::Global;
use std::process::Abort;
use std::thread::Threads;

/// How many bytes the objects outside take in a call, how much room they have, and from which of their
/// calls on, counted from 1, each fails.
#[derive(Clone, Copy)]
pub(super) struct Limits {
    pub(super) step: usize,
    pub(super) listing_room: usize,
    pub(super) shelf_room: usize,
    pub(super) first_read: Option<usize>,
    pub(super) first_write: Option<usize>,
    pub(super) first_file: Option<usize>,
}

/// Objects outside with room enough, none of whose calls fails.
pub(super) const SURE: Limits = Limits {
    step: 7,
    listing_room: 2000,
    shelf_room: 10000,
    first_read: None,
    first_write: None,
    first_file: None,
};

/// The objects outside, in memory, and the status that a call of `factex` on them has returned.
pub(super) struct Outside {
    pub(super) status: u8,
    pub(super) source: MemorySource,
    pub(super) listing: MemorySink,
    pub(super) shelf: MemoryShelf,
}

/// By hand, so that a function that drops the objects calls this one, and is not proved with each part that is dropped.
impl Drop for Outside {
    fn drop(self) {
        let Outside {
            status: _status,
            source: _source,
            listing: _listing,
            shelf: _shelf,
        } = self;
    }
}

impl Outside {
    /// How many calls failed.
    pub(super) fn faults(&self) -> u64 {
        self.source
            .faults()
            .saturating_add(self.listing.faults())
            .saturating_add(self.shelf.faults())
    }
}

/// The words of a command line, between blanks.
pub(super) fn words_in(rt: &impl Abort, alloc: Global, line: &str) -> Vec<Vec<u8>> {
    let mut words = Vec::new(alloc);
    for word in line.split_whitespace() {
        let word = word.as_bytes().to_vec(alloc).expect(rt, "memory");
        words.push(word).expect(rt, "memory");
    }
    words
}

/// The numbers of all calls from this one on, counted from 1, or of none. No test that names one makes
/// as many calls as there are numbers.
fn calls_from(rt: &impl Abort, alloc: Global, first: Option<usize>) -> Bytes {
    let mut calls = Bytes::new(alloc);
    if let Some(first) = first {
        for call in first..=255 {
            calls.push(call as u8).expect(rt, "memory");
        }
    }
    calls
}

/// The source of a text within these limits.
fn source_of(rt: &impl Abort, alloc: Global, text: &[u8], limits: Limits) -> MemorySource {
    let content = Bytes::from_slice(alloc, text).expect(rt, "memory");
    let calls = calls_from(rt, alloc, limits.first_read);
    MemorySource::new(content, limits.step.max(1), calls)
}

/// An empty listing within these limits.
fn listing_within(rt: &impl Abort, alloc: Global, limits: Limits) -> MemorySink {
    let calls = calls_from(rt, alloc, limits.first_write);
    MemorySink::new(alloc, limits.step.max(1), limits.listing_room, calls).expect(rt, "memory")
}

/// An empty shelf within these limits.
fn shelf_within(rt: &impl Abort, alloc: Global, limits: Limits) -> MemoryShelf
    ensures { has_open result.files ≡ false }
{
    let calls = calls_from(rt, alloc, limits.first_file);
    MemoryShelf::new(alloc, limits.step.max(1), limits.shelf_room, calls).expect(rt, "memory")
}

/// What `factex` leaves outside, with the words of a line and a text, within these limits.
pub(super) fn left_by<R: Threads + Sync + Abort>(
    rt: &R,
    alloc: Global,
    line: &str,
    text: &[u8],
    limits: Limits,
) -> Outside {
    let words = words_in(rt, alloc, line);
    let mut source = source_of(rt, alloc, text, limits);
    let mut listing = listing_within(rt, alloc, limits);
    let mut shelf = shelf_within(rt, alloc, limits);
    let status = factex(
        rt,
        alloc,
        words.as_slice(),
        &mut source,
        &mut listing,
        &mut shelf,
    );
    Outside {
        status,
        source,
        listing,
        shelf,
    }
}

/// Whether the status and the listing are these, and no call failed.
fn has_listed(left: &Outside, status: u8, listing: &str) -> bool {
    left.status == status && left.faults() == 0 && left.listing.bytes() == listing.as_bytes()
}

/// Whether the words of a line end with this status and list just this of a text, and no call fails.
pub(super) fn lists<R: Threads + Sync + Abort>(
    rt: &R,
    alloc: Global,
    line: &str,
    text: &[u8],
    limits: Limits,
    status: u8,
    listing: &str,
) -> bool {
    has_listed(&left_by(rt, alloc, line, text, limits), status, listing)
}

/// What a call of `factex` left, in numbers.
#[derive(Clone, Copy)]
pub(super) struct Tally {
    pub(super) status: u8,
    /// How many reads, writes to the listing and calls on the shelf failed.
    pub(super) read_faults: u64,
    pub(super) write_faults: u64,
    pub(super) file_faults: u64,
    /// How many bytes are listed, how many files are begun, and how many of them are ended.
    pub(super) listed: usize,
    pub(super) files: usize,
    pub(super) ended: usize,
}

/// How many files of a shelf are ended.
fn ended_files(shelf: &MemoryShelf) -> usize {
    let mut ended = 0usize;
    for i in 0..shelf.files() {
        ended = ended.saturating_add(usize::from(shelf.is_ended(i)));
    }
    ended
}

/// The numbers of what is left, where what is listed is the beginning of this listing.
fn numbers_of(left: &Outside, listing: &str) -> Option<Tally> {
    if !listing.as_bytes().starts_with(left.listing.bytes()) {
        return None;
    }
    Some(Tally {
        status: left.status,
        read_faults: left.source.faults(),
        write_faults: left.listing.faults(),
        file_faults: left.shelf.faults(),
        listed: left.listing.bytes().len(),
        files: left.shelf.files(),
        ended: ended_files(&left.shelf),
    })
}

/// What the words of a line leave, where what is listed is the beginning of this listing.
pub(super) fn tally_of<R: Threads + Sync + Abort>(
    rt: &R,
    alloc: Global,
    line: &str,
    text: &[u8],
    limits: Limits,
    listing: &str,
) -> Option<Tally> {
    numbers_of(&left_by(rt, alloc, line, text, limits), listing)
}

/// Whether a file of the shelf is whole, with this name and this content.
fn is_file(shelf: &MemoryShelf, i: usize, name: &str, content: &[u8]) -> bool {
    i < shelf.files()
        && shelf.is_ended(i)
        && shelf.name(i) == name.as_bytes()
        && shelf.content(i) == content
}

/// Whether the shelf has just these files, all whole.
fn has_files(shelf: &MemoryShelf, files: &[(&str, &str)]) -> bool {
    for (i, (name, content)) in files.iter().enumerate() {
        if !is_file(shelf, i, name, content.as_bytes()) {
            return false;
        }
    }
    shelf.files() == files.len()
}

/// Whether the status, the listing and the files are these.
fn has_left(left: &Outside, status: u8, listing: &str, files: &[(&str, &str)]) -> bool {
    left.status == status
        && left.listing.bytes() == listing.as_bytes()
        && has_files(&left.shelf, files)
}

/// Whether a run of a text ends with this status, and leaves this listing and these files.
pub(super) fn shelves<R: Threads + Sync + Abort>(
    rt: &R,
    alloc: Global,
    line: &str,
    text: &str,
    limits: Limits,
    status: u8,
    listing: &str,
    files: &[(&str, &str)],
) -> bool {
    let left = left_by(rt, alloc, line, text.as_bytes(), limits);
    has_left(&left, status, listing, files)
}

/// The content of the only file, where the status and the listing are these, or nothing.
fn only_file<'a>(left: &'a Outside, status: u8, listing: &str) -> &'a [u8] {
    if left.status == status
        && left.listing.bytes() == listing.as_bytes()
        && left.shelf.files() == 1
        && left.shelf.is_ended(0)
    {
        left.shelf.content(0)
    } else {
        "".as_bytes()
    }
}

/// The only file that a run of a text leaves, with this status and this listing, or nothing.
pub(super) fn file_of<R: Threads + Sync + Abort>(
    rt: &R,
    alloc: Global,
    text: &[u8],
    limits: Limits,
    status: u8,
    listing: &str,
) -> Bytes {
    let left = left_by(rt, alloc, "run", text, limits);
    Bytes::from_slice(alloc, only_file(&left, status, listing)).expect(rt, "memory")
}

/// How often a byte is in a text.
pub(super) fn count(text: &[u8], byte: u8) -> usize {
    let mut count = 0usize;
    for own in text {
        count = count.saturating_add(usize::from(*own == byte));
    }
    count
}

ghost use Rattle.std.specs.Prelude.{◌≡◌, false};
ghost use Rattle.fx_base.specs.Memory.{has_open};

use fx_base::{
    Bytes, Failed, Items, MemoryShelf, MemorySink, MemorySource, NoMemory, ReadStop, Shelf, Sink,
    Source, SureShelf, SureSink, SureSource, Taken, Values, put, put_number, read_all, shelve,
    write_all,
};
use std::alloc::Global;
use std::process::Abort;

// What fails where memory runs out ends the test, by `expect`: each error that a function hands on is another way
// out of it, which is proved with all that is dropped there.

#[test]
fn items_grow_at_the_end(rt: HostRuntime) {
    let mut items = Items::new(rt.alloc());
    items.push(7).expect(&rt, "memory");
    items.push(8).expect(&rt, "memory");
    assert!(rt; items.as_slice() == [7, 8].as_slice());
    let mut more = Items::new(rt.alloc());
    more.push(9).expect(&rt, "memory");
    items.append(more).expect(&rt, "memory");
    assert!(rt; items.as_slice() == [7, 8, 9].as_slice());
}

#[test]
fn values_grow_at_the_end(rt: HostRuntime) {
    let mut values = Values::new(rt.alloc());
    values.push(7).expect(&rt, "memory");
    values.extend_from_slice(&[8, 9]).expect(&rt, "memory");
    let given = Values::from_slice(rt.alloc(), &[7u32, 8, 9]).expect(&rt, "memory");
    assert!(rt; given.as_slice() == [7, 8, 9].as_slice());
    assert!(rt; values.as_slice() == given.as_slice());
}

#[test]
fn text_and_numbers_are_appended(rt: HostRuntime) {
    let mut out = Bytes::from_slice(rt.alloc(), b"m = ").expect(&rt, "memory");
    put_number(&mut out, 0).expect(&rt, "memory");
    put(&mut out, b", most = ").expect(&rt, "memory");
    put_number(&mut out, u128::MAX).expect(&rt, "memory");
    let text = "m = 0, most = 340282366920938463463374607431768211455";
    assert!(rt; out.as_slice() == text.as_bytes());
}

/// Limits, each with whether a text of five bytes is read whole, or None where it is too long.
const LIMITS: [(usize, Option<bool>); 5] = [
    (5, Some(true)),
    (6, Some(true)),
    (usize::MAX, Some(true)),
    (0, None),
    (4, None),
];

fn is_read(rt: &impl Abort, alloc: Global, limit: usize) -> Option<bool> {
    let text = b"abcde".as_slice();
    let content = Bytes::from_slice(alloc, text).expect(rt, "memory");
    let mut source = SureSource::new(content, 2);
    match read_all(alloc, &mut source, limit).expect(rt, "a text") {
        Taken::Whole(bytes) => Some(bytes.as_slice() == text),
        Taken::TooLong => None,
    }
}

#[test]
fn more_than_the_limit_is_too_long(rt: HostRuntime) {
    for (limit, read) in LIMITS {
        assert!(rt; is_read(&rt, rt.alloc(), limit) == read, "{limit}");
    }
}

/// A source whose second call fails.
fn source(rt: &impl Abort, alloc: Global) -> MemorySource {
    let content = Bytes::from_slice(alloc, b"abcde").expect(rt, "memory");
    let failing = Bytes::from_slice(alloc, &[2]).expect(rt, "memory");
    MemorySource::new(content, 2, failing)
}

/// Whether the calls take these numbers of bytes, or fail at None, and leave these in the buffer.
fn reads(source: &mut MemorySource, numbers: &[Option<usize>], left: &[u8; 4]) -> bool {
    let mut buffer = [0; 4];
    for number in numbers {
        if source.read(&mut buffer).ok() != *number {
            return false;
        }
    }
    buffer == *left
}

#[test]
fn a_source_fails_at_its_second_call(rt: HostRuntime) {
    const NUMBERS: [Option<usize>; 5] = [Some(2), None, Some(2), Some(1), Some(0)];
    let mut source = source(&rt, rt.alloc());
    assert!(rt; reads(&mut source, &NUMBERS, b"ed\0\0") && source.faults() == 1);
}

/// The next bytes are still there: no call followed the failed one.
#[test]
fn a_fault_is_handed_on(rt: HostRuntime) {
    let mut source = source(&rt, rt.alloc());
    let read = read_all(rt.alloc(), &mut source, 9);
    assert!(rt; matches!(read, Err(ReadStop::ReadFault)));
    assert!(rt; reads(&mut source, &[Some(2)], b"cd\0\0"));
}

/// Whether calls take these numbers of bytes of four, or fail at None.
fn writes(sink: &mut MemorySink, numbers: &[Option<usize>]) -> bool {
    for number in numbers {
        if sink.write(b"abcd").ok() != *number {
            return false;
        }
    }
    true
}

fn sink(rt: &impl Abort, alloc: Global) -> MemorySink {
    let failing = Bytes::from_slice(alloc, &[2]).expect(rt, "memory");
    MemorySink::new(alloc, 3, 5, failing).expect(rt, "memory")
}

#[test]
fn a_sink_fails_where_its_room_is_used_up(rt: HostRuntime) {
    const TAKEN: [Option<usize>; 4] = [Some(3), None, Some(2), None];
    let mut sink = sink(&rt, rt.alloc());
    assert!(rt; writes(&mut sink, &TAKEN));
    assert!(rt; sink.bytes() == b"abcab".as_slice() && sink.faults() == 2);
}

#[test]
fn a_front_part_is_written(rt: HostRuntime) {
    let mut sink = SureSink::new(rt.alloc(), 3, 5).expect(&rt, "memory");
    assert!(rt; write_all(&mut sink, b"abcd").is_ok() && write_all(&mut sink, b"ef").is_err());
    assert!(rt; sink.bytes() == b"abcde".as_slice());
}

/// Puts two files on a shelf, and tries a third.
fn shelve_files(shelf: &mut SureShelf) -> Result<bool, Failed>
    requires { has_open shelf.old.files ≡ false }
{
    shelve(shelf, b"runs.csv", b"A,B\n")?;
    shelve(shelf, b"none", b"")?;
    Ok(shelve(shelf, b"more", b"").is_err())
}

fn has_two_files(shelf: &SureShelf) -> bool {
    shelf.files() == 2
        && shelf.name(0) == b"runs.csv".as_slice()
        && shelf.content(0) == b"A,B\n".as_slice()
        && shelf.name(1) == b"none".as_slice()
        && shelf.content(1).is_empty()
        && shelf.is_ended(1)
}

#[test]
fn a_shelf_holds_two_files(rt: HostRuntime) {
    let mut shelf = SureShelf::new(rt.alloc(), 3, 132).expect(&rt, "memory");
    assert!(rt; shelve_files(&mut shelf) == Ok(true) && has_two_files(&shelf));
}

/// Puts a file on a shelf, and tries a second.
fn shelve_amid(shelf: &mut MemoryShelf) -> Result<bool, Failed>
    requires { has_open shelf.old.files ≡ false }
{
    shelve(shelf, b"runs.csv", b"A,B\n")?;
    Ok(shelve(shelf, b"blocks.csv", b"BLOCK\n").is_err())
}

fn has_begun_a_second(shelf: &MemoryShelf) -> bool {
    shelf.files() == 2
        && shelf.name(1) == b"blocks.csv".as_slice()
        && shelf.content(1).is_empty()
        && !shelf.is_ended(1)
}

#[test]
fn a_shelf_fails_amid_its_second_file(rt: HostRuntime) {
    let calls = Bytes::from_slice(rt.alloc(), &[6]).expect(&rt, "memory");
    let mut shelf = MemoryShelf::new(rt.alloc(), 3, 1000, calls).expect(&rt, "memory");
    assert!(rt; shelve_amid(&mut shelf) == Ok(true) && has_begun_a_second(&shelf));
}

#[test]
fn errors_have_messages(rt: HostRuntime) {
    let text = format!(in rt.alloc();
        "{}; {}; {}; {}",
        Failed,
        NoMemory,
        ReadStop::NoMemory,
        ReadStop::ReadFault
    )
    .expect(&rt, "memory");
    assert!(rt;
        text.as_str()
            == "a call on an object outside the program failed; memory ran out; memory ran out; reading failed"
    );
}

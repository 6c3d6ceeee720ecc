//! Each call outside fails in turn, and the room for each byte is missing in turn. What is left is the
//! beginning of the whole, and no call follows the one that failed.
use super::outside::{Limits, Outside, SURE, left_by};
use crate::rows_of;
use fx_base::{Bytes, MemoryShelf, put};
use std::alloc::Global;
use std::process::Abort;
use std::thread::Threads;

/// Two plans of one step, and a step without a design, whose book comes after the first listing.
const TWO_PLANS: &str =
    "proc factex;factors A B;model r=3;output out=z randomize(0);output out=y;run;proc factex;factors A B C;size design=2;model r=3;";

/// What is listed of its first step.
const FIRST_LISTING: &str =
    "step 1\nfactors 2 levels 2\ndesign 4 runs\nno defining words\nnodes 2\nrules\n  none\noutput z.csv 4 rows seed 0\noutput y.csv 4 rows\n";

/// A step with a listing of classes, and with a book.
const CLASSES: &str =
    "proc factex;factors A B C D E;size design=8;model resolution=max;examine aliasing;";

/// A step with a book under a pattern.
const LEAST: &str =
    "proc factex;factors A B C D;size design=8;model resolution=max / minabs;examine aberration;";

/// A step with a book, a plan and classes.
const ALL: &str =
    "proc factex;factors Pressure Temp Speed Feed Angle;size design=16;model resolution=max;examine aliasing;output out=SaveDesign randomize(8911) Pressure nvals=(10 20) Temp cvals=('Low' 'High');";

/// A step with a plan and a fold-over.
const FOLDED: &str = "proc factex;factors A B;model r=3;output out=z;foldover;";

/// A plan, and two that are crossed with it.
const CROSSED: &str =
    "proc factex;factors N;size design=2;model r=3;output out=n;proc factex;factors A B;size design=4;model r=3;output out=x pointrep=n;output out=y designrep=n;";

/// A book that is accepted.
const BOOK: &str =
    "factex-book 1\nsize 2 1 2 0\neffects 1 2 /\npattern none\nO 1\nW 1 3\nW 0 2\nW 0 1\nEND\n";

/// A plan that is judged.
const JUDGED: &str = "A,B,C\n-1,-1,-1\n-1,1,1\n1,-1,1\n1,1,-1\n";

/// A step with rules, and a plan of it.
const GIVEN: &str = "rules C=A*B\nproc factex; factors A B C; size design=4; output out=inner;";

/// How many bytes a call takes where each piece is to go in one.
const PIECE: usize = 5000;

/// Words and texts, with how many bytes a call takes, and how many calls are made: reads, the last of which
/// finds the end, writes to the listing, and calls on the shelf, which begin a file, write it and end it.
const CALLS: [(&str, &str, usize, [usize; 3]); 16] = [
    ("run", TWO_PLANS, PIECE, [2, 2, 9]),
    ("run", TWO_PLANS, 1, [TWO_PLANS.len() + 1, 198, 115]),
    ("run", CLASSES, PIECE, [2, 1, 3]),
    ("run", LEAST, PIECE, [2, 1, 3]),
    ("run", ALL, PIECE, [2, 1, 6]),
    ("run", FOLDED, PIECE, [2, 1, 6]),
    ("run", CROSSED, PIECE, [2, 2, 9]),
    ("run", "proc factor;", PIECE, [2, 1, 0]),
    ("check", BOOK, 1, [BOOK.len() + 1, 49, 0]),
    ("upgrade", BOOK, 1, [BOOK.len() + 1, 90, 0]),
    ("upgrade", BOOK, PIECE, [2, 3, 0]),
    ("judge 2", JUDGED, 1, [JUDGED.len() + 1, 143, 0]),
    ("judge 4", JUDGED, PIECE, [2, 1, 0]),
    ("make 1", "", PIECE, [0, 1, 0]),
    ("large 2", "", 1, [0, 43, 0]),
    ("catalogue 2 3 5", "", PIECE, [0, 3, 6]),
];

/// What fails: a call of the source, the listing or the shelf, or the room of listing or shelf.
#[derive(Clone, Copy)]
enum Failing {
    Reads,
    Writes,
    Files,
    ListingRoom,
    ShelfRoom,
}

/// The limits where this is missing from the call or the byte of this number on, counted from 1.
fn limits_of(failing: Failing, from: usize, step: usize) -> Limits {
    match failing {
        Failing::Reads => Limits {
            step,
            first_read: Some(from),
            ..SURE
        },
        Failing::Writes => Limits {
            step,
            first_write: Some(from),
            ..SURE
        },
        Failing::Files => Limits {
            step,
            first_file: Some(from),
            ..SURE
        },
        Failing::ListingRoom => Limits {
            step,
            listing_room: from.saturating_sub(1),
            ..SURE
        },
        Failing::ShelfRoom => Limits {
            step,
            shelf_room: from.saturating_sub(1),
            ..SURE
        },
    }
}

/// What a run has left: its status, how many calls failed, the listing, and the files as one text.
#[derive(Drop)]
struct Left {
    status: u8,
    faults: u64,
    listed: Bytes,
    files: Bytes,
}

/// Appends a file as a text.
fn put_file(rt: &impl Abort, out: &mut Bytes, name: &[u8], content: &[u8], is_ended: bool) {
    let parts = ["\x01".as_bytes(), name, "\x02".as_bytes(), content];
    for part in parts {
        put(out, part).expect(rt, "memory");
    }
    if is_ended {
        put(out, "\x03".as_bytes()).expect(rt, "memory");
    }
}

/// Appends the files of a shelf as a text, which is a prefix of that of another shelf where the acts that
/// made the files are a prefix of those that made the other's.
fn put_files(rt: &impl Abort, out: &mut Bytes, shelf: &MemoryShelf) {
    for i in 0..shelf.files() {
        put_file(rt, out, shelf.name(i), shelf.content(i), shelf.is_ended(i));
    }
}

/// What a run has left outside.
fn left_in(rt: &impl Abort, alloc: Global, outside: &Outside) -> Left {
    let mut files = Bytes::new(alloc);
    put_files(rt, &mut files, &outside.shelf);
    Left {
        status: outside.status,
        faults: outside.faults(),
        listed: Bytes::from_slice(alloc, outside.listing.bytes()).expect(rt, "memory"),
        files,
    }
}

/// What a run leaves within these limits.
fn run_within<R: Threads + Sync + Abort>(
    rt: &R,
    alloc: Global,
    line: &str,
    text: &str,
    limits: Limits,
) -> Left {
    left_in(
        rt,
        alloc,
        &left_by(rt, alloc, line, text.as_bytes(), limits),
    )
}

/// Whether one call failed, and a part is the beginning of the whole.
fn is_beginning(part: &Left, whole: &Left) -> bool {
    part.status == 4
        && part.faults == 1
        && whole.listed.as_slice().starts_with(part.listed.as_slice())
        && whole.files.as_slice().starts_with(part.files.as_slice())
}

/// Whether nothing failed, and two runs left the same.
fn are_same(one: &Left, other: &Left) -> bool {
    one.status == other.status
        && one.faults == 0
        && one.listed.as_slice() == other.listed.as_slice()
        && one.files.as_slice() == other.files.as_slice()
}

/// What a part of a run is.
#[derive(Clone, Copy, PartialEq, Eq)]
enum Part {
    /// One call failed, and the part is the beginning of the whole.
    Beginning,
    /// Nothing failed, and the part is the whole.
    Whole,
    Other,
}

/// What of a whole run the run within these limits leaves.
fn part_within<R: Threads + Sync + Abort>(
    rt: &R,
    alloc: Global,
    line: &str,
    text: &str,
    limits: Limits,
    whole: &Left,
) -> Part {
    let part = run_within(rt, alloc, line, text, limits);
    if is_beginning(&part, whole) {
        Part::Beginning
    } else if are_same(&part, whole) {
        Part::Whole
    } else {
        Part::Other
    }
}

/// How many calls are made, or how much room is taken: with less the run fails and leaves a beginning.
fn needed<R: Threads + Sync + Abort>(
    rt: &R,
    alloc: Global,
    line: &str,
    text: &str,
    step: usize,
    failing: Failing,
    whole: &Left,
) -> usize {
    for from in 1..=PIECE {
        match part_within(rt, alloc, line, text, limits_of(failing, from, step), whole) {
            Part::Beginning => {}
            Part::Whole => return from - 1,
            Part::Other => panic!(rt; "neither a beginning nor the whole"),
        }
    }
    panic!(rt; "too many calls")
}

/// Tests how many calls of each object a run makes.
fn makes_calls<R: Threads + Sync + Abort>(
    rt: &R,
    alloc: Global,
    line: &str,
    text: &str,
    step: usize,
    wanted: &[usize; 3],
    whole: &Left,
) {
    let reads = needed(rt, alloc, line, text, step, Failing::Reads, whole);
    let writes = needed(rt, alloc, line, text, step, Failing::Writes, whole);
    let files = needed(rt, alloc, line, text, step, Failing::Files, whole);
    assert!(rt; [reads, writes, files] == *wanted, "{line} {text}");
}

/// Tests how many calls of each object the runs make.
fn all_make_calls<R: Threads + Sync + Abort>(
    rt: &R,
    alloc: Global,
    cases: &[(&str, &str, usize, [usize; 3])],
) {
    for (line, text, step, calls) in cases {
        let limits = Limits {
            step: *step,
            ..SURE
        };
        let whole = run_within(rt, alloc, line, text, limits);
        makes_calls(rt, alloc, line, text, *step, calls, &whole);
    }
}

#[test]
fn each_call_fails_in_turn(rt: HostRuntime) {
    all_make_calls(&rt, rt.alloc(), &CALLS);
}

/// Words and texts of one step or one line, with how many reads, writes to the listing and calls on the shelf are made, each
/// piece in one call, and how many of these writes come before the files.
const FEW_CALLS: [(&str, &str, [usize; 3], usize); 10] = [
    ("run", ALL, [2, 1, 6], 0),
    ("run", FOLDED, [2, 1, 6], 0),
    ("run", "proc factor;", [2, 1, 0], 0),
    ("plan", GIVEN, [2, 1, 3], 0),
    ("check", BOOK, [2, 1, 0], 0),
    ("upgrade", BOOK, [2, 3, 0], 0),
    ("judge 2", JUDGED, [2, 1, 0], 0),
    ("make 1", "", [0, 1, 0], 0),
    ("catalogue 2 3 4", "", [0, 2, 3], 1),
    ("tables 2 3 4", "", [0, 2, 3], 1),
];

/// The limits where one call fails, and each call that is made after it on any of the objects, and not before.
fn limits_after(failing: Failing, call: usize, calls: &[usize; 3], before: usize) -> Limits {
    let reads = Some(calls[0].saturating_add(1));
    match failing {
        Failing::Reads => Limits {
            step: PIECE,
            first_read: Some(call),
            first_write: Some(1),
            first_file: Some(1),
            ..SURE
        },
        Failing::Writes => Limits {
            step: PIECE,
            first_read: reads,
            first_write: Some(call),
            first_file: Some(if call <= before {
                1
            } else {
                calls[2].saturating_add(1)
            }),
            ..SURE
        },
        Failing::Files | Failing::ListingRoom | Failing::ShelfRoom => Limits {
            step: PIECE,
            first_read: reads,
            first_write: Some(before.saturating_add(1)),
            first_file: Some(call),
            ..SURE
        },
    }
}

/// Tests that no call follows where calls of one object fail, the first to the last of so many.
fn none_follows<R: Threads + Sync + Abort>(
    rt: &R,
    alloc: Global,
    asked: (&str, &str),
    failing: Failing,
    count: usize,
    calls: &[usize; 3],
    before: usize,
) {
    let (line, text) = asked;
    for call in 1..=count {
        let limits = limits_after(failing, call, calls, before);
        let left = left_by(rt, alloc, line, text.as_bytes(), limits);
        assert!(rt; left.status == 4 && left.faults() == 1, "{line} {call}");
    }
}

/// After the first failed call none is made on any object, no read at the end and no write of nothing either: each would
/// fail, too, and be counted.
#[test]
fn no_call_follows_the_first_failed_one(rt: HostRuntime) {
    for (line, text, calls, before) in rows_of(&FEW_CALLS) {
        let asked = (*line, *text);
        none_follows(
            &rt,
            rt.alloc(),
            asked,
            Failing::Reads,
            calls[0],
            calls,
            *before,
        );
        none_follows(
            &rt,
            rt.alloc(),
            asked,
            Failing::Writes,
            calls[1],
            calls,
            *before,
        );
        none_follows(
            &rt,
            rt.alloc(),
            asked,
            Failing::Files,
            calls[2],
            calls,
            *before,
        );
        // With all calls there is no fault.
        let limits = limits_after(Failing::Reads, calls[0].saturating_add(1), calls, *before);
        let whole = Limits {
            first_write: None,
            first_file: None,
            ..limits
        };
        assert!(rt; left_by(&rt, rt.alloc(), line, text.as_bytes(), whole).faults() == 0);
    }
}

/// Whether the run takes just the room of its listing there, and room on the shelf.
fn takes_room<R: Threads + Sync + Abort>(rt: &R, alloc: Global, text: &str, whole: &Left) -> bool {
    let listing = needed(rt, alloc, "run", text, 1, Failing::ListingRoom, whole);
    let shelf = needed(rt, alloc, "run", text, 1, Failing::ShelfRoom, whole);
    listing == whole.listed.len() && shelf > 64
}

/// Tests that each run takes the room of what it leaves.
fn all_take_room<R: Threads + Sync + Abort>(rt: &R, alloc: Global, cases: &[&str]) {
    for text in cases {
        let whole = run_within(rt, alloc, "run", text, Limits { step: 1, ..SURE });
        assert!(rt; takes_room(rt, alloc, text, &whole), "{text}");
    }
}

/// Each byte in turn finds no room. A file takes 64 bytes of the room, and its content.
#[test]
fn each_byte_fails_in_turn(rt: HostRuntime) {
    const TEXTS: [&str; 4] = [TWO_PLANS, CLASSES, LEAST, ALL];
    all_take_room(&rt, rt.alloc(), &TEXTS);
}

/// What of a file is there, where the whole has this content.
fn state_of(content: &[u8], is_ended: bool, whole: &[u8]) -> &'static str {
    if is_ended {
        " ended, "
    } else if content.is_empty() {
        " empty, "
    } else if content == whole {
        " whole, "
    } else {
        " cut, "
    }
}

/// Appends the names of the files of a shelf, each with what of it is there.
fn put_states(rt: &impl Abort, out: &mut Bytes, part: &MemoryShelf, whole: &MemoryShelf) {
    for i in 0..part.files().min(whole.files()) {
        put(out, part.name(i)).expect(rt, "memory");
        let state = state_of(part.content(i), part.is_ended(i), whole.content(i));
        put(out, state.as_bytes()).expect(rt, "memory");
    }
}

/// Whether these are the files and the listing of a part of a whole run, of which one call failed.
fn is_left(
    rt: &impl Abort,
    alloc: Global,
    part: &Outside,
    whole: &Outside,
    files: &str,
    listing: &str,
) -> bool {
    let mut states = Bytes::new(alloc);
    put_states(rt, &mut states, &part.shelf, &whole.shelf);
    part.status == 4
        && part.faults() == 1
        && states.as_slice() == files.as_bytes()
        && part.listing.bytes() == listing.as_bytes()
}

/// Whether a run within these limits leaves these files of a whole run, and this listing.
fn leaves<R: Threads + Sync + Abort>(
    rt: &R,
    alloc: Global,
    text: &str,
    limits: Limits,
    whole: &Outside,
    files: &str,
    listing: &str,
) -> bool {
    let part = left_by(rt, alloc, "run", text.as_bytes(), limits);
    is_left(rt, alloc, &part, whole, files, listing)
}

/// Tests what is there of the files, and what is listed, where calls of one object fail from one on.
fn each_leaves<R: Threads + Sync + Abort>(
    rt: &R,
    alloc: Global,
    text: &str,
    whole: &Outside,
    cases: &[(Failing, usize, &str, &str)],
) {
    for (failing, from, files, listing) in cases {
        let limits = limits_of(*failing, *from, PIECE);
        let is_so = leaves(rt, alloc, text, limits, whole, files, listing);
        assert!(rt; is_so, "{files}");
    }
}

/// Objects outside that take each piece in one call, none of which fails.
const PIECEWISE: Limits = Limits {
    step: PIECE,
    ..SURE
};

/// What is there of the files where calls of an object fail from this one on: each piece goes in one call. Nothing is listed.
const ONE_STEP: [(Failing, usize, &str, &str); 9] = [
    (Failing::Reads, 1, "", ""),
    (Failing::Reads, 2, "", ""),
    (Failing::Files, 1, "", ""),
    (Failing::Files, 2, "step1-4.book empty, ", ""),
    (Failing::Files, 3, "step1-4.book whole, ", ""),
    (Failing::Files, 4, "step1-4.book ended, ", ""),
    (
        Failing::Files,
        5,
        "step1-4.book ended, savedesign.csv empty, ",
        "",
    ),
    (
        Failing::Files,
        6,
        "step1-4.book ended, savedesign.csv whole, ",
        "",
    ),
    (
        Failing::Writes,
        1,
        "step1-4.book ended, savedesign.csv ended, ",
        "",
    ),
];

/// The files of a step come before its listing, the books before the plans.
#[test]
fn files_come_before_the_listing(rt: HostRuntime) {
    let whole = left_by(&rt, rt.alloc(), "run", ALL.as_bytes(), PIECEWISE);
    each_leaves(&rt, rt.alloc(), ALL, &whole, &ONE_STEP);
}

/// The same for two steps, with what is listed.
const TWO_STEPS: [(Failing, usize, &str, &str); 9] = [
    (Failing::Files, 1, "", ""),
    (Failing::Files, 4, "z.csv ended, ", ""),
    (Failing::Files, 5, "z.csv ended, y.csv empty, ", ""),
    (Failing::Files, 6, "z.csv ended, y.csv whole, ", ""),
    (Failing::Writes, 1, "z.csv ended, y.csv ended, ", ""),
    (
        Failing::Files,
        7,
        "z.csv ended, y.csv ended, ",
        FIRST_LISTING,
    ),
    (
        Failing::Files,
        8,
        "z.csv ended, y.csv ended, step2-1.book empty, ",
        FIRST_LISTING,
    ),
    (
        Failing::Files,
        9,
        "z.csv ended, y.csv ended, step2-1.book whole, ",
        FIRST_LISTING,
    ),
    (
        Failing::Writes,
        2,
        "z.csv ended, y.csv ended, step2-1.book ended, ",
        FIRST_LISTING,
    ),
];

/// A step is listed before the files of the next.
#[test]
fn steps_come_one_after_another(rt: HostRuntime) {
    let whole = left_by(&rt, rt.alloc(), "run", TWO_PLANS.as_bytes(), PIECEWISE);
    each_leaves(&rt, rt.alloc(), TWO_PLANS, &whole, &TWO_STEPS);
}

//! Catalogues, and the words that ask for them.
use super::*;

/// Two levels in eight runs, whole.
const EIGHT: &str =
    "catalogue levels 2 runs 8\nfactors 4 nodes 7 resolution 4 A4 1\nfactors 5 nodes 13 resolution 3 A3 2 A4 1\nfactors 6 nodes 17 resolution 3 A3 4 A4 3\nfactors 7 nodes 18 resolution 3 A3 7 A4 7 A7 1\nfactors 8 nodes 18 none\n";

/// Three levels in nine runs, whole.
const NINE: &str =
    "catalogue levels 3 runs 9\nfactors 3 nodes 4 resolution 3 A3 1\nfactors 4 nodes 5 resolution 3 A3 4\nfactors 5 nodes 5 none\n";

/// What is listed of the first two lines of eight runs.
const FIVE: &str =
    "catalogue levels 2 runs 8\nfactors 4 nodes 7 resolution 4 A4 1\nfactors 5 nodes 13 resolution 3 A3 2 A4 1\n";

const FOUR_ENDED: &str = "catalogue levels 2 runs 8\nfactors 4 budget ended after 6 nodes\n";

/// Catalogues, each with its listing, the number of its books, and its status.
const CATALOGUES: [(&str, &str, usize, u8); 10] = [
    ("catalogue 2 3 5", FIVE, 2, 0),
    ("catalogue 2 3 5 --threads=8", FIVE, 2, 0),
    ("catalogue 3 2 6", NINE, 3, 1),
    ("catalogue 3 2 6 --threads=8", NINE, 3, 1),
    ("catalogue 2 3 4 --nodes=6", FOUR_ENDED, 0, 2),
    ("catalogue 2 3 4 --threads=8 --nodes=6", FOUR_ENDED, 0, 2),
    ("catalogue 2 3 8", EIGHT, 5, 1),
    // No line comes after the one without a design.
    ("catalogue 2 3 63 --nodes=18", EIGHT, 5, 1),
    // A line that its budget ended is followed by others, each of which has the whole budget.
    (
        "catalogue 2 3 7 --nodes=12",
        "catalogue levels 2 runs 8\nfactors 4 nodes 7 resolution 4 A4 1\nfactors 5 budget ended after 12 nodes\nfactors 6 budget ended after 12 nodes\nfactors 7 budget ended after 12 nodes\n",
        1,
        2,
    ),
    (
        "catalogue 9 1 3 --nodes=5000000",
        "catalogue levels 9 runs 9\nfactors 2 nodes 1 none\n",
        1,
        1,
    ),
];

/// Whether a line lists this, ends with this status, and leaves so many files, all whole. The source is not read.
fn is_catalogue<R: Threads + Sync + Abort>(
    rt: &R,
    alloc: Global,
    line: &str,
    listing: &str,
    files: usize,
    status: u8,
) -> bool {
    match tally_of(rt, alloc, line, HALF.as_bytes(), UNREAD, listing) {
        Some(left) => left.status == status
            && left.read_faults == 0
            && left.listed == listing.len()
            && left.files == files
            && left.ended == files,
        None => false,
    }
}

#[test]
fn catalogues_are_listed(rt: HostRuntime) {
    for (line, listing, files, status) in rows_of(&CATALOGUES) {
        assert!(rt;
            is_catalogue(&rt, rt.alloc(), line, listing, *files, *status),
            "{line}"
        );
    }
}

/// Each line has the book of its own question, under its number of factors.
#[test]
fn a_line_has_its_book(rt: HostRuntime) {
    let four =
        "factex-book 2\nsize 2 3 4 0\nresolution 3\npattern 0 0 0 1\nO 1\nO 2\nO 4\nP 7\nP 6\nP 5\nP 3\nEND\n";
    let listing = "catalogue levels 2 runs 8\nfactors 4 nodes 7 resolution 4 A4 1\n";
    let files = [("catalogue-4.book", four)];
    assert!(rt;
        shelves(
            &rt,
            rt.alloc(),
            "catalogue 2 3 4",
            "",
            UNREAD,
            0,
            listing,
            &files
        )
    );
    let left = left_by(&rt, rt.alloc(), "catalogue 2 3 8", &[], UNREAD);
    let heads = [
        ("catalogue-4.book", "factex-book 2\nsize 2 3 4 0\n"),
        ("catalogue-5.book", "factex-book 2\nsize 2 3 5 0\n"),
        ("catalogue-6.book", "factex-book 2\nsize 2 3 6 0\n"),
        ("catalogue-7.book", "factex-book 2\nsize 2 3 7 0\n"),
        ("catalogue-8.book", "factex-book 2\nsize 2 3 8 0\n"),
    ];
    assert!(rt; begin_so(&left, &heads));
}

/// Whether the files have these names, and begin so.
fn begin_so(left: &Outside, files: &[(&str, &str)]) -> bool {
    for (i, (name, front)) in files.iter().enumerate() {
        if i >= left.shelf.files()
            || left.shelf.name(i) != name.as_bytes()
            || !left.shelf.content(i).starts_with(front.as_bytes())
        {
            return false;
        }
    }
    left.shelf.files() == files.len()
}

/// Where a write fails between two lines, what was listed before stands, with the book of the line that failed.
#[test]
fn no_line_follows_a_failed_one(rt: HostRuntime) {
    for (call, listed, files) in [(1, 0, 0), (2, 26, 1), (3, 62, 2)] {
        let limits = Limits {
            step: 5000,
            first_write: Some(call),
            ..UNREAD
        };
        let left = tally_of(&rt, rt.alloc(), "catalogue 2 3 8", &[], limits, EIGHT);
        assert!(rt; is_after_write(left, listed) && has_ended(left, files));
    }
}

/// Whether there are so many files, all whole.
fn has_ended(left: Option<Tally>, files: usize) -> bool {
    match left {
        Some(left) => left.files == files && left.ended == files,
        None => false,
    }
}

/// Command lines that are refused, each with the message.
const REFUSED_CATALOGUES: [(&str, &str); 39] = [
    ("Catalogue 2 3 4", "C2 word 1"),
    ("catalogue", "C6 word 2"),
    ("catalogue 2", "C6 word 3"),
    ("catalogue 2 3", "C6 word 4"),
    ("catalogue --nodes=1 2 3 4", "C4 word 2"),
    ("catalogue 0 3 4", "C4 word 2"),
    ("catalogue 6 2 4", "C4 word 2"),
    ("catalogue 10 2 4", "C4 word 2"),
    ("catalogue 258 3 4", "C4 word 2"),
    ("catalogue 000000000000000000002 3 4", "C4 word 2"),
    ("catalogue 2 0 4", "C4 word 3"),
    ("catalogue 2 11 12", "C4 word 3"),
    ("catalogue 3 7 8", "C4 word 3"),
    ("catalogue 4 6 7", "C4 word 3"),
    ("catalogue 5 5 6", "C4 word 3"),
    ("catalogue 7 4 5", "C4 word 3"),
    ("catalogue 8 4 5", "C4 word 3"),
    ("catalogue 9 4 5", "C4 word 3"),
    ("catalogue 2 000000000000000000003 4", "C4 word 3"),
    ("catalogue 2 3 0", "C4 word 4"),
    ("catalogue 2 3 3", "C4 word 4"),
    ("catalogue 2 3 64", "C4 word 4"),
    ("catalogue 3 2 64", "C4 word 4"),
    ("catalogue 4 2 41", "C4 word 4"),
    ("catalogue 2 3 260", "C4 word 4"),
    ("catalogue 2 3 000000000000000000004", "C4 word 4"),
    ("catalogue 2 3 --nodes=1", "C4 word 4"),
    ("catalogue 2 3 4 5", "C3 word 5"),
    ("catalogue 2 3 4 --seed=1", "C3 word 5"),
    ("catalogue 2 3 4 --nodes", "C3 word 5"),
    ("catalogue 2 3 4 --nodes=", "C4 word 5"),
    ("catalogue 2 3 4 --nodes=0", "C4 word 5"),
    ("catalogue 2 3 4 --nodes=5000001", "C4 word 5"),
    ("catalogue 2 3 4 --threads=0", "C4 word 5"),
    ("catalogue 2 3 4 --threads=65", "C4 word 5"),
    ("catalogue 2 3 4 --nodes=1 --nodes=x", "C5 word 6"),
    (
        "catalogue 2 3 4 --threads=1 --nodes=1 --threads=1",
        "C5 word 7",
    ),
    ("run --nodes=1", "C3 word 2"),
    ("large 1 --nodes=1", "C3 word 3"),
];

#[test]
fn refused_catalogues_are_told(rt: HostRuntime) {
    words_are_refused(&rt, rt.alloc(), &REFUSED_CATALOGUES);
}

/// Command lines at the limits of their numbers, and with options in either order, with the numbers in the order of the
/// words: threads come before nodes.
const ASKED: [(&str, (u8, u8, u8, u8, u64)); 10] = [
    ("catalogue 2 10 63", (2, 10, 63, 1, 1_000_000)),
    ("catalogue 3 6 63", (3, 6, 63, 1, 1_000_000)),
    ("catalogue 4 5 40", (4, 5, 40, 1, 1_000_000)),
    ("catalogue 5 4 40", (5, 4, 40, 1, 1_000_000)),
    ("catalogue 7 3 40", (7, 3, 40, 1, 1_000_000)),
    ("catalogue 8 3 40", (8, 3, 40, 1, 1_000_000)),
    ("catalogue 9 1 2", (9, 1, 2, 1, 1_000_000)),
    (
        "catalogue 02 003 00000000000000000004",
        (2, 3, 4, 1, 1_000_000),
    ),
    (
        "catalogue 2 3 4 --nodes=5000000 --threads=64",
        (2, 3, 4, 64, 5_000_000),
    ),
    ("catalogue 2 3 4 --threads=2 --nodes=1", (2, 3, 4, 2, 1)),
];

#[test]
fn numbers_of_catalogues_are_read(rt: HostRuntime) {
    for (line, (q, m, upto, threads, nodes)) in rows_of(&ASKED) {
        let settings = Settings::Catalogue {
            q: *q,
            m: *m,
            upto: *upto,
            threads: *threads,
            nodes: *nodes,
        };
        assert!(rt; are_settings(&rt, rt.alloc(), line, settings), "{line}");
    }
}

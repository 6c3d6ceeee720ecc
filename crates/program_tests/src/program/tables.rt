//! Tables: lines, books, words, and writes that fail.
mod books;
mod words;

use super::*;

// That keys are least was found by another program, too. Figures of all lines were computed from the rules in Python.

/// Two levels in eight runs, whole.
const EIGHT: &str =
    "table levels 2 runs 8\nfactors 4 entries 7 resolution 4 A4 1\nrules X4=X1*X2*X3\nfactors 5 entries 7 resolution 3 A3 2 A4 1\nrules X4=X1*X2*X3 X5=X1*X2\nfactors 6 entries 12 resolution 3 A3 4 A4 3\nrules X4=X1*X2*X3 X5=X1*X3 X6=X1*X2\nfactors 7 entries 12 resolution 3 A3 7 A4 7 A7 1\nrules X4=X1*X2*X3 X5=X2*X3 X6=X1*X3 X7=X1*X2\nfactors 8 entries 3 none\n";

/// The first two lines of it.
const FIVE: &str =
    "table levels 2 runs 8\nfactors 4 entries 7 resolution 4 A4 1\nrules X4=X1*X2*X3\nfactors 5 entries 7 resolution 3 A3 2 A4 1\nrules X4=X1*X2*X3 X5=X1*X2\n";

/// Two levels in eight runs and two blocks, whole.
const TWO_BLOCKS: &str =
    "table levels 2 runs 8 blocks 2\nfactors 2 entries 1 no defining words\nrules none\nfactors 3 entries 6 no defining words B3 1\nrules [1]=X1*X2*X3\nfactors 4 entries 6 resolution 4 A4 1 B2 2\nrules X4=X1*X2*X3 [1]=X2*X3\nfactors 5 entries 11 resolution 3 A3 2 A4 1 B2 2 B3 2\nrules X3=X1*X2 X5=X1*X2*X4 [1]=X2*X4\nfactors 6 entries 11 resolution 3 A3 4 A4 3 B2 3 B3 4 B6 1\nrules X4=X1*X2 X5=X1*X3 X6=X2*X3 [1]=X1*X2*X3\nfactors 7 entries 2 none\n";

/// Two factors inside four whole plots of 16 runs.
const WHOLE_PLOTS: &str =
    "table levels 2 runs 16 whole plots 4 inside 2\nfactors 2 2 entries 1 no defining words\nrules none\nfactors 2 3 entries 14 resolution 5 A5 1 B3 1 B4 2\nrules X5=X1*X2*X3*X4\nfactors 2 4 entries 27 resolution 4 A4 3 B2 1 B3 4 B4 2 B5 2\nrules X5=X2*X3*X4 X6=X1*X3*X4\n";

/// Objects outside with room for tables.
const WIDE: Limits = Limits {
    step: 4096,
    listing_room: 100000,
    shelf_room: 100000,
    ..SURE
};

/// Whether so many files are left, all whole.
fn has_whole_files(left: &Outside, files: usize) -> bool {
    for i in 0..left.shelf.files() {
        if !left.shelf.is_ended(i) {
            return false;
        }
    }
    left.shelf.files() == files
}

/// Lines, each with its listing, the number of its books, and its status.
const TABLES: [(&str, &str, usize, u8); 16] = [
    ("tables 2 3 5", FIVE, 2, 0),
    // No line comes after the one without a design.
    ("tables 2 3 63", EIGHT, 5, 1),
    ("tables 2 3 63 --blocks=2", TWO_BLOCKS, 6, 1),
    (
        "tables 2 3 63 --blocks=4",
        "table levels 2 runs 8 blocks 4\nfactors 1 entries 1 no defining words\nrules none\nfactors 2 entries 1 no defining words B2 1\nrules [1]=X1*X2\nfactors 3 entries 4 no defining words B2 3\nrules [1]=X1*X3 [2]=X1*X2\nfactors 4 entries 6 resolution 4 A4 1 B2 6\nrules X4=X1*X2*X3 [1]=X2*X3 [2]=X1*X3\nfactors 5 entries 1 none\n",
        5,
        1,
    ),
    ("tables 2 4 4 --whole-plots=4 --inside=2", WHOLE_PLOTS, 3, 0),
    ("tables 2 4 4 --inside=2 --whole-plots=4", WHOLE_PLOTS, 3, 0),
    // Of seven factors without words of three, 15 interactions are clear.
    (
        "tables 2 5 7 --order=CLEAR",
        "table levels 2 runs 32 order CLEAR\nfactors 6 entries 31 resolution 6 clear 15 A6 1\nrules X6=X1*X2*X3*X4*X5\nfactors 7 entries 102 resolution 4 clear 15 A4 1 A5 2\nrules X6=X1*X2*X4*X5 X7=X1*X2*X3\n",
        2,
        0,
    ),
    (
        "tables 2 3 3 --whole-plots=2 --inside=1 --order=CLEAR",
        "table levels 2 runs 8 whole plots 2 inside 1 order CLEAR\nfactors 1 2 entries 1 no defining words clear 3\nrules none\nfactors 1 3 entries 7 resolution 4 clear 0 A4 1 B3 1\nrules X4=X1*X2*X3\n",
        2,
        0,
    ),
    // The two orders differ in the words of five factors.
    (
        "tables 2 4 5 --blocks=2 --order=W1",
        "table levels 2 runs 16 blocks 2 order W1\nfactors 3 entries 1 no defining words\nrules none\nfactors 4 entries 14 no defining words B4 1\nrules [1]=X1*X2*X3*X4\nfactors 5 entries 36 resolution 5 A5 1 B2 1 B3 1\nrules X5=X1*X2*X3*X4 [1]=X2*X3*X4\n",
        3,
        0,
    ),
    (
        "tables 2 4 5 --blocks=2 --order=SCF",
        "table levels 2 runs 16 blocks 2 order SCF\nfactors 3 entries 1 no defining words\nrules none\nfactors 4 entries 14 no defining words B4 1\nrules [1]=X1*X2*X3*X4\nfactors 5 entries 41 resolution 4 A4 1 B3 2\nrules X5=X1*X3*X4 [1]=X2*X3*X4\n",
        3,
        0,
    ),
    // The second of these orders tells apart what the third does not.
    (
        "tables 2 5 6 --blocks=2 --order=W2",
        "table levels 2 runs 32 blocks 2 order W2\nfactors 4 entries 1 no defining words\nrules none\nfactors 5 entries 30 no defining words B5 1\nrules [1]=X1*X2*X3*X4*X5\nfactors 6 entries 97 resolution 6 A6 1 B3 2\nrules X6=X1*X2*X3*X4*X5 [1]=X3*X4*X5\n",
        3,
        0,
    ),
    (
        "tables 3 2 6",
        "table levels 3 runs 9\nfactors 3 entries 2 resolution 3 A3 1\nrules X3=X1*X2\nfactors 4 entries 4 resolution 3 A3 4\nrules X3=X1^2*X2 X4=X1*X2\nfactors 5 entries 2 none\n",
        3,
        1,
    ),
    (
        "tables 3 2 6 --blocks=3 --order=FF",
        "table levels 3 runs 9 blocks 3\nfactors 1 entries 1 no defining words\nrules none\nfactors 2 entries 1 no defining words B2 1\nrules [1]=X1^2*X2\nfactors 3 entries 3 resolution 3 A3 1 B2 3\nrules X3=X1*X2 [1]=X1^2*X2\nfactors 4 entries 1 none\n",
        4,
        1,
    ),
    (
        "tables 4 2 2 --whole-plots=4 --inside=1",
        "table levels 4 runs 16 whole plots 4 inside 1\nfactors 1 1 entries 1 no defining words\nrules none\nfactors 1 2 entries 2 resolution 3 A3 1 B2 1 B3 2\nrules X3=X1*X2\n",
        2,
        0,
    ),
    (
        "tables 9 1 3",
        "table levels 9 runs 9\nfactors 2 entries 1 none\n",
        1,
        1,
    ),
    // Ten run indexes are the most. A prefix of blocks has its images by all of them.
    (
        "tables 2 10 3 --blocks=512 --nodes=512",
        "table levels 2 runs 1024 blocks 512\nfactors 1 entries 1 no defining words\nrules none\nfactors 2 entries 1 no defining words B2 1\nrules [1]=X1*X2\nfactors 3 entries 512 no defining words B2 3\nrules [1]=X1*X3 [2]=X1*X2\n",
        3,
        0,
    ),
];

#[test]
fn tables_are_listed(rt: HostRuntime) {
    for (line, listing, files, status) in rows_of(&TABLES) {
        let left = left_by(&rt, rt.alloc(), line, b"", WIDE);
        assert!(rt; left.listing.bytes() == listing.as_bytes(), "{line}");
        assert!(rt;
            left.status == *status && has_whole_files(&left, *files),
            "{line}"
        );
    }
}

/// Tables of which some lines are open, each with its listing and the number of its books. The books have 7, 7, 12, 12
/// and 3 entries.
const OPEN: [(&str, &str, usize); 4] = [
    (
        "tables 2 3 5 --nodes=6",
        "table levels 2 runs 8\nfactors 4 open after 6 entries\nfactors 5 open after 6 entries\n",
        0,
    ),
    // A line that is closed after it takes nothing back, even the one without a design.
    (
        "tables 2 3 63 --nodes=7",
        "table levels 2 runs 8\nfactors 4 entries 7 resolution 4 A4 1\nrules X4=X1*X2*X3\nfactors 5 entries 7 resolution 3 A3 2 A4 1\nrules X4=X1*X2*X3 X5=X1*X2\nfactors 6 open after 7 entries\nfactors 7 open after 7 entries\nfactors 8 entries 3 none\n",
        3,
    ),
    (
        "tables 2 3 6 --nodes=11",
        "table levels 2 runs 8\nfactors 4 entries 7 resolution 4 A4 1\nrules X4=X1*X2*X3\nfactors 5 entries 7 resolution 3 A3 2 A4 1\nrules X4=X1*X2*X3 X5=X1*X2\nfactors 6 open after 11 entries\n",
        2,
    ),
    // Nor is there a line without a design where that is open.
    (
        "tables 2 3 9 --nodes=2",
        "table levels 2 runs 8\nfactors 4 open after 2 entries\nfactors 5 open after 2 entries\nfactors 6 open after 2 entries\nfactors 7 open after 2 entries\nfactors 8 open after 2 entries\nfactors 9 open after 2 entries\n",
        0,
    ),
];

#[test]
fn open_lines_are_followed_by_others(rt: HostRuntime) {
    for (line, listing, files) in rows_of(&OPEN) {
        let left = left_by(&rt, rt.alloc(), line, b"", WIDE);
        assert!(rt; left.listing.bytes() == listing.as_bytes(), "{line}");
        assert!(rt;
            left.status == 2 && has_whole_files(&left, *files),
            "{line}"
        );
    }
}

/// As many entries as its longest book has close each line of a table.
#[test]
fn a_line_with_as_many_entries_as_its_book_is_closed(rt: HostRuntime) {
    let left = left_by(&rt, rt.alloc(), "tables 2 3 63 --nodes=12", b"", WIDE);
    assert!(rt; left.listing.bytes() == EIGHT.as_bytes());
    assert!(rt; left.status == 1 && has_whole_files(&left, 5));
}

/// Where a write fails, the listing is what was written before, with the book of the line that failed.
#[test]
fn no_line_of_a_table_follows_a_failed_one(rt: HostRuntime) {
    for (call, listed, files) in [(1, 0, 0), (2, 22, 1), (3, 78, 2)] {
        let limits = Limits {
            first_write: Some(call),
            ..WIDE
        };
        let left = left_by(&rt, rt.alloc(), "tables 2 3 8", b"", limits);
        assert!(rt; left.status == 4 && has_whole_files(&left, files));
        assert!(rt;
            left.listing.bytes().len() == listed
                && EIGHT.as_bytes().starts_with(left.listing.bytes())
        );
    }
}

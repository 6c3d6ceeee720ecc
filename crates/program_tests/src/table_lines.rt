ghost use Rattle.fx_table_book.specs.Tables.{IsBook};

use crate::rows_of;
use fx_base::Bytes;
use fx_table_book::{TableBook, read_table_book, write_table_book};
use fx_table_check::{Verdict, check_table};
use fx_table_lines::{TableLine, table_line};
use std::alloc::Global;
use std::process::Abort;

// The keys were found by another program, in C++, and those in two, four and eight blocks, and of split plots of eight
// and sixteen runs, by going through all sets of points and all subspaces, too.

/// The numbers of a base, an order, the least key, or an empty one where there is no design, and the most entries that
/// the book may have.
type Case<'a> = (&'a str, &'a str, &'a [u128], usize);

const TWO_LEVELS: [Case<'static>; 11] = [
    ("2 3 1 0 3", "FF", &[0, 0, 1], 6),
    ("2 3 1 0 6", "FF", &[4, 3, 0, 0, 3, 4, 0, 0, 1], 11),
    ("2 3 1 0 7", "FF", &[], 2),
    ("2 4 2 0 6", "FF", &[0, 3, 0, 0, 3, 8, 0, 0, 1], 43),
    ("2 4 1 0 7", "W1", &[0, 7, 0, 0, 0, 7, 0, 0, 0, 0, 1], 72),
    ("2 4 1 0 5", "SCF", &[0, 0, 1, 2, 0, 0, 0], 41),
    ("2 4 1 0 5", "W1", &[0, 0, 1, 1, 1, 0, 0], 36),
    ("2 4 2 2 4", "FF", &[0, 3, 0, 0, 1, 4, 2, 2, 0], 27),
    ("2 5 0 0 9", "CLEAR", &[0, 21, 7, 7, 0, 0, 0, 1], 204),
    ("2 5 0 0 9", "FF", &[0, 6, 8, 0, 0, 1, 0], 227),
    ("2 3 1 1 5", "FF", &[4, 3, 0, 0, 2, 2, 2, 1, 0], 12),
];

const MORE_LEVELS: [Case<'static>; 10] = [
    ("3 3 1 0 6", "W2", &[2, 3, 9, 0, 6, 2, 9, 6, 3], 57),
    ("3 3 1 1 4", "FF", &[1, 3, 0, 0, 3, 5, 0], 29),
    ("3 2 0 0 5", "FF", &[], 2),
    ("4 2 1 1 3", "FF", &[4, 1, 3, 7, 5], 5),
    ("4 2 0 0 5", "FF", &[10, 5, 6], 7),
    ("5 2 1 0 3", "FF", &[1, 3, 2], 5),
    ("7 2 1 0 3", "FF", &[1, 3, 4], 7),
    ("8 2 1 0 3", "FF", &[1, 3, 5], 8),
    ("9 2 1 0 3", "FF", &[1, 3, 6], 9),
    ("9 2 0 0 4", "FF", &[4, 6], 10),
];

/// A book without a key and entries, of this base and order.
fn head_of(rt: &impl Abort, alloc: Global, base: &str, order: &str) -> TableBook
    ensures { IsBook result }
{
    let text = format!(in alloc;
        "factex-table 2\nbase {base}\norder {order}\nkey none\nEND\n"
    ).expect(rt, "memory");
    read_table_book(alloc, text.as_bytes()).expect(rt, "a head")
}

/// Tests that a line is proved with this key, by at most so many entries.
fn line_is_closed(rt: &impl Abort, alloc: Global, case: &Case) {
    let (base, order, key, most) = *case;
    let head = head_of(rt, alloc, base, order);
    match table_line(alloc, head.base, head.order, 1_000, &[]).expect(rt, "memory") {
        TableLine::Least {
            rows: _,
            rules: _,
            key: own,
            book,
        } => {
            assert!(rt; own.as_slice() == key, "{base} {order}");
            book_is_accepted(rt, alloc, &book, most);
        }
        TableLine::Nothing { book } => {
            assert!(rt; key.is_empty(), "{base} {order}");
            book_is_accepted(rt, alloc, &book, most);
        }
        TableLine::Open { .. } => panic!(rt; "open: {base} {order}"),
    }
}

/// Tests that the text of a book is a book that is accepted, with at most so many entries.
fn book_is_accepted(rt: &impl Abort, alloc: Global, book: &TableBook, most: usize)
    requires { IsBook book.now }
{
    let mut text = Bytes::new(alloc);
    write_table_book(book, &mut text).expect(rt, "memory");
    let read = read_table_book(alloc, text.as_slice()).expect(rt, "the book of a table");
    assert!(rt; read.entries.len() <= most, "{most}");
    let verdict = check_table(alloc, &read).expect(rt, "memory");
    assert!(rt; verdict == Verdict::Accepted, "{most}");
}

#[test]
fn lines_of_two_levels_are_closed(rt: HostRuntime) {
    for case in rows_of(&TWO_LEVELS) {
        line_is_closed(&rt, rt.alloc(), case);
    }
}

#[test]
fn lines_of_more_levels_are_closed(rt: HostRuntime) {
    for case in rows_of(&MORE_LEVELS) {
        line_is_closed(&rt, rt.alloc(), case);
    }
}

/// The number of entries that a line is open after, or None for another line.
fn open_after(rt: &impl Abort, alloc: Global, base: &str, budget: u32) -> Option<u32> {
    let head = head_of(rt, alloc, base, "FF");
    assert!(rt; budget <= 5_000_000);
    match table_line(alloc, head.base, head.order, budget, &[]).expect(rt, "memory") {
        TableLine::Open { entries, rows: _ } => Some(entries),
        TableLine::Least { .. } | TableLine::Nothing { .. } => None,
    }
}

/// The book of six factors in 16 runs and four blocks has 43 entries.
#[test]
fn a_budget_ends_the_line_of_a_longer_book(rt: HostRuntime) {
    for budget in [0, 1, 42] {
        let open = open_after(&rt, rt.alloc(), "2 4 2 0 6", budget);
        assert!(&rt; open == Some(budget), "{budget}");
    }
    assert!(&rt; open_after(&rt, rt.alloc(), "2 4 2 0 6", 43).is_none());
}

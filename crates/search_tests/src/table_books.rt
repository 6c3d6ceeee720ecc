use fx_base::{Bytes, put};
use fx_book::BookStop;
use fx_table_book::{Entry, Order, parts, read_table_book, write_table_book};
use std::alloc::Global;
use std::process::Abort;

/// A text with an entry of each kind.
const BOOK: &str =
    "factex-table 2\nbase 2 3 1 0 4\norder W2\nkey 0 1 2 0 1\nO 1\nI 7 1 2 7\nR 0\nF 6\nP 5\nEND\n";

/// The code and the line of a text's first fault, or None for the book of a table.
fn fault(alloc: Global, text: &[u8]) -> Option<(u8, u32)> {
    match read_table_book(alloc, text) {
        Err(BookStop::Fault(fault)) => Some((fault.kind.code(), fault.line)),
        Err(BookStop::NoMemory) | Ok(_) => None,
    }
}

/// Whether the text of the book that a text is is this one.
fn becomes(rt: &impl Abort, alloc: Global, text: &str, other: &str) -> bool {
    let book = read_table_book(alloc, text.as_bytes()).expect(rt, "the book of a table");
    let mut out = Bytes::new(alloc);
    write_table_book(&book, &mut out).expect(rt, "memory");
    out.as_slice() == other.as_bytes()
}

/// The entries of a text, of which the second is an image.
#[test]
fn table_book_is_read(rt: HostRuntime) {
    let book = read_table_book(rt.alloc(), BOOK.as_bytes()).expect(&rt, "the book of a table");
    assert!(rt; book.order == Order::ChengWuSecond);
    assert!(rt; book.base.n == 4 && book.base.h == 1 && book.base.w == 0);
    assert!(rt; book.entries.len() == 5);
    let image = match book.entries.get(1) {
        Entry::Image { row, change } => *row == 7 && change.as_slice() == [1, 2, 7].as_slice(),
        Entry::Branch { .. } | Entry::Worse { .. } | Entry::NoRoom { .. } | Entry::Floor { .. } =>
            false,
    };
    assert!(rt; image);
}

/// Texts of each order, and within the limits.
#[test]
fn table_books_come_back(rt: HostRuntime) {
    const TEXTS: [&str; 6] = [
        BOOK,
        "factex-table 2\nbase 3 3 1 1 3\norder FF\nkey 0 0 0 0 85070591730234615865843651857942052863\nEND\n",
        "factex-table 2\nbase 2 10 0 0 63\norder FF\nkey none\nI 1023 1 2 4 8 16 32 64 128 256 1023\nEND\n",
        "factex-table 2\nbase 2 4 2 2 2\norder W1\nkey 0 1 1 0 0\nO 1\nEND\n",
        "factex-table 2\nbase 9 3 0 0 3\norder SCF\nkey 0\nR 728\nEND\n",
        "factex-table 2\nbase 8 2 1 0 2\norder CLEAR\nkey 0 1\nEND\n",
    ];
    for text in &TEXTS {
        assert!(rt; becomes(&rt, rt.alloc(), text, text), "{text}");
    }
}

/// Texts of the first version, as `tables` wrote them.
#[test]
fn first_table_books_are_read(rt: HostRuntime) {
    const TEXTS: [(&str, &str); 2] = [
        (
            "factex-table 1\nsize 2 3 4 0\nresolution 3\npattern 0 0 0 1\nO 1\nO 2\nO 4\nO 7\nP 7\nEND\n",
            "factex-table 2\nbase 2 3 0 0 4\norder FF\nkey 0 1\nO 1\nO 2\nO 4\nO 7\nP 7\nEND\n",
        ),
        (
            "factex-table 1\nsize 2 3 8 0\nresolution 3\npattern none\nO 1\nO 2\nR 4\nEND\n",
            "factex-table 2\nbase 2 3 0 0 8\norder FF\nkey none\nO 1\nO 2\nR 4\nEND\n",
        ),
    ];
    for (text, other) in &TEXTS {
        assert!(rt; becomes(&rt, rt.alloc(), text, other), "{text}");
    }
}

/// A fault of each kind, but for a text that is too long.
#[test]
fn table_books_have_their_faults(rt: HostRuntime) {
    const CASES: [(&str, u8, u32); 15] = [
        ("", 2, 1),
        ("factex-book 2\nbase 2 3 1 0 4\n", 2, 1),
        ("factex-table 2\nbase 2 3 1 0\n", 6, 2),
        ("factex-table 2\nbase 2 3 1 0 63\n", 8, 3),
        ("factex-table 2\nbase 2 3 1 0 64\n", 7, 2),
        ("factex-table 2\nbase 2 3 1 0 4\norder\n", 6, 3),
        ("factex-table 2\nbase 2 3 1 0 4\norder W3\n", 7, 3),
        (
            "factex-table 2\nbase 2 3 1 0 4\norder FF\nkey 0 1 2 0\n",
            6,
            4,
        ),
        (
            "factex-table 2\nbase 2 3 1 0 4\norder FF\nkey 0 1 2 0 170141183460469231731687303715884105728\n",
            7,
            4,
        ),
        (
            "factex-table 2\nbase 2 3 1 0 4\norder FF\nkey none\nI 7 1 2\nEND\n",
            6,
            5,
        ),
        (
            "factex-table 2\nbase 2 3 1 0 4\norder FF\nkey none\nO 7\nI 7 1 2 8\nEND\n",
            7,
            6,
        ),
        (
            "factex-table 2\nbase 2 3 1 0 4\norder FF\nkey none\nR 7\nEND",
            8,
            6,
        ),
        (
            "factex-table 2\nbase 2 3 1 0 4\norder FF\nkey none\nR 7\nEND\nEND\n",
            9,
            7,
        ),
        (
            "factex-table 1\nsize 2 3 4 0\nresolution 4\npattern none\nEND\n",
            7,
            3,
        ),
        (
            "factex-table 1\nsize 2 3 4 0\nresolution 3\npattern 0 1 0 1\nEND\n",
            7,
            4,
        ),
    ];
    for (text, code, line) in &CASES {
        assert!(rt;
            fault(rt.alloc(), text.as_bytes()) == Some((*code, *line)),
            "{text}"
        );
    }
}

/// How many entries the orders have for 63 factors.
#[test]
fn orders_have_their_parts(rt: HostRuntime) {
    const CASES: [(&str, usize); 7] = [
        ("1 0 63\norder FF", 61 + 62),
        ("1 0 63\norder W1", 61 + 62),
        ("1 0 63\norder W2", 61 + 62),
        ("1 0 63\norder SCF", 61 + 62),
        ("1 0 63\norder CLEAR", 1 + 61 + 62),
        ("0 0 63\norder FF", 61),
        ("0 0 63\norder CLEAR", 1 + 61),
    ];
    for (lines, count) in &CASES {
        let mut text = Bytes::new(rt.alloc());
        put(&mut text, b"factex-table 2\nbase 2 6 ").expect(&rt, "memory");
        put(&mut text, lines.as_bytes()).expect(&rt, "memory");
        put(&mut text, b"\nkey none\nEND\n").expect(&rt, "memory");
        let book = read_table_book(rt.alloc(), text.as_slice()).expect(&rt, "the book of a table");
        let parts = parts(rt.alloc(), book.base, book.order).expect(&rt, "memory");
        assert!(rt; parts.len() == *count, "{lines}");
    }
}

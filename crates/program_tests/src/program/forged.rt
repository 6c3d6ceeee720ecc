//! Small books, each of whose lines is changed in turn. What `check` lists of them was found by a checker in
//! another language, written from what docs/BOOKS.md says of books.
use super::books::NO_FIVE_BEFORE;
use super::outside::{SURE, count, left_by, lists};
use fx_base::{Bytes, put};
use std::alloc::Global;
use std::process::Abort;
use std::thread::Threads;

/// A change of a line.
#[derive(Clone, Copy)]
enum Change {
    /// This text before it.
    Before(&'static str),
    /// The first of its bytes that is this one becomes this text.
    First(u8, &'static str),
    /// The last of its bytes that is this one becomes this text.
    Last(u8, &'static str),
    /// Without it.
    LeftOut,
    /// The line twice.
    Doubled,
    /// The next line before it.
    Exchanged,
    /// Nothing after it.
    EndsHere,
}

/// The changes that are tried.
const CHANGES: [Change; 39] = [
    Change::Before(" "),
    Change::Before("\n"),
    Change::Before("0"),
    Change::Before("O 1\n"),
    Change::Before("END\n"),
    Change::First(b' ', "  "),
    Change::First(b' ', "\t"),
    Change::First(b' ', ""),
    Change::First(b' ', " 0"),
    Change::First(b' ', " +"),
    Change::First(b' ', " 1"),
    Change::Last(b' ', " 0"),
    Change::Last(b' ', " 9"),
    Change::Last(b'\n', ""),
    Change::Last(b'\n', "\r\n"),
    Change::Last(b'\n', " \n"),
    Change::Last(b'\n', "0\n"),
    Change::Last(b'\n', " 1\n"),
    Change::First(b'O', "o"),
    Change::First(b'O', "W"),
    Change::First(b'O', "P"),
    Change::First(b'P', "O"),
    Change::First(b'P', "W"),
    Change::First(b'W', "O"),
    Change::First(b'W', "P"),
    Change::First(b'1', "0"),
    Change::First(b'1', "2"),
    Change::First(b'3', "1"),
    Change::First(b'2', "3"),
    Change::Last(b'0', "1"),
    Change::Last(b'2', "4"),
    Change::Last(b'2', "1"),
    Change::Last(b'1', "2"),
    Change::Last(b'7', "8"),
    Change::Last(b'9', "10"),
    Change::LeftOut,
    Change::Doubled,
    Change::Exchanged,
    Change::EndsHere,
];

/// Good books: under a pattern, of effects of three levels, and with a block factor. Each with a line for each
/// change, of the verdicts on the lines of the book that have what is changed, in order: the line and the code
/// of the rejection.
const BOOKS: [(&str, &str); 3] = [
    (
        "factex-book 1\nsize 2 3 4 0\nresolution 3\npattern 0 0 0 1\nO 1\nO 2\nO 4\nP 7\nP 6\nP 5\nP 3\nEND\n",
        "\
        1 B2, 2 B3, 3 B4, 4 B5, 5 B6, 6 B6, 7 B6, 8 B6, 9 B6, 10 B6, 11 B6, 12 B6\n\
        1 B2, 2 B3, 3 B4, 4 B5, 5 B6, 6 B6, 7 B6, 8 B6, 9 B6, 10 B6, 11 B6, 12 B6\n\
        1 B2, 2 B3, 3 B4, 4 B5, 5 B6, 6 B6, 7 B6, 8 B6, 9 B6, 10 B6, 11 B6, 12 B6\n\
        1 B2, 2 B3, 3 B4, 4 B5, 6 K1, 6 K1, 7 K1, 8 K1, 9 K1, 10 K1, 11 K1, 12 K2\n\
        1 B2, 2 B3, 3 B4, 4 B5, 6 B9, 7 B9, 8 B9, 9 B9, 10 B9, 11 B9, 12 B9, 13 B9\n\
        1 B2, 2 B3, 3 B4, 4 B5, 5 B6, 6 B6, 7 B6, 8 B6, 9 B6, 10 B6, 11 B6\n\
        1 B2, 2 B3, 3 B4, 4 B5, 5 B6, 6 B6, 7 B6, 8 B6, 9 B6, 10 B6, 11 B6\n\
        1 B2, 2 B3, 3 B4, 4 B5, 5 B6, 6 B6, 7 B6, 8 B6, 9 B6, 10 B6, 11 B6\n\
        1 B2, 2 B3, 3 B4, 4 B5, 5 B6, 6 B6, 7 B6, 8 B6, 9 B6, 10 B6, 11 B6\n\
        1 B2, 2 B3, 3 B4, 4 B5, 5 B6, 6 B6, 7 B6, 8 B6, 9 B6, 10 B6, 11 B6\n\
        1 B2, 2 B3, accepted, 8 K5, 5 B7, 6 B7, 7 B7, 8 B7, 9 B7, 10 B7, 11 B7\n\
        1 B2, 2 B3, 3 B4, 4 B5, 5 B6, 6 B6, 7 B6, 8 B6, 9 B6, 10 B6, 11 B6\n\
        1 B2, 2 B3, accepted, 8 K5, 5 B7, 6 B7, 7 B7, 8 B7, 9 B7, 10 B7, 11 B7\n\
        1 B2, 2 B3, 3 B4, 4 B5, 5 B6, 6 B6, 7 B6, 8 B6, 9 B6, 10 B6, 11 B6, 12 B8\n\
        1 B2, 2 B3, 3 B4, 4 B5, 5 B6, 6 B6, 7 B6, 8 B6, 9 B6, 10 B6, 11 B6, 12 B6\n\
        1 B2, 2 B3, 3 B4, 4 B5, 5 B6, 6 B6, 7 B6, 8 B6, 9 B6, 10 B6, 11 B6, 12 B6\n\
        1 B2, 2 B3, accepted, 8 K5, 5 B7, 6 B7, 7 B7, 8 B7, 9 B7, 10 B7, 11 B7, 12 B6\n\
        1 B2, 2 B3, 3 B4, 4 B5, 5 B6, 6 B6, 7 B6, 8 B6, 9 B6, 10 B6, 11 B6, 12 B6\n\
        5 B6, 6 B6, 7 B6\n\
        5 B6, 6 B6, 7 B6\n\
        5 K5, 6 K5, 7 K5\n\
        8 K7, 9 K7, 10 K7, 11 K7\n\
        8 B6, 9 B6, 10 B6, 11 B6\n\
        \n\
        \n\
        1 B2, accepted, 5 K1\n\
        accepted, 8 K5, 5 K1\n\
        6 B7, 3 B4, 11 K1\n\
        6 K1, 6 K1\n\
        4 B5, 8 K5\n\
        6 K1, 6 K1\n\
        2 B3, 6 K1\n\
        accepted, 8 K5, 5 K1\n\
        8 B7\n\
        \n\
        1 B2, 2 B3, 3 B4, 4 B5, 5 K1, 6 K1, 7 K1, 8 K1, 9 K1, 10 K1, 11 K6, 12 B8\n\
        2 B3, 3 B4, 4 B5, 5 B6, 6 K1, 7 K1, 8 K1, 9 K1, 10 K1, 11 K1, 12 K2, 13 B9\n\
        1 B2, 2 B3, 3 B4, 4 B5, 5 K1, 6 K1, 7 K1, 8 K1, 9 K1, 10 K1, 12 B9\n\
        2 B3, 3 B4, 4 B5, 5 B8, 6 B8, 7 B8, 8 B8, 9 B8, 10 B8, 11 B8, 12 B8\n",
    ),
    (
        "factex-book 1\nsize 3 1 2 0\neffects 1 3 / 2\npattern none\nO 1\nW 1 7\nW 0 6\nW 0 2\nEND\n",
        "\
        1 B2, 2 B3, 3 B4, 4 B5, 5 B6, 6 B6, 7 B6, 8 B6, 9 B6\n\
        1 B2, 2 B3, 3 B4, 4 B5, 5 B6, 6 B6, 7 B6, 8 B6, 9 B6\n\
        1 B2, 2 B3, 3 B4, 4 B5, 5 B6, 6 B6, 7 B6, 8 B6, 9 B6\n\
        1 B2, 2 B3, 3 B4, 4 B5, 6 K7, 6 K7, 7 K1, 8 K1, 9 K2\n\
        1 B2, 2 B3, 3 B4, 4 B5, 6 B9, 7 B9, 8 B9, 9 B9, 10 B9\n\
        1 B2, 2 B3, 3 B4, 4 B5, 5 B6, 6 B6, 7 B6, 8 B6\n\
        1 B2, 2 B3, 3 B4, 4 B5, 5 B6, 6 B6, 7 B6, 8 B6\n\
        1 B2, 2 B3, 3 B4, 4 B5, 5 B6, 6 B6, 7 B6, 8 B6\n\
        1 B2, 2 B3, 3 B4, 4 B5, 5 B6, 6 B6, 7 B6, 8 B6\n\
        1 B2, 2 B3, 3 B4, 4 B5, 5 B6, 6 B6, 7 B6, 8 B6\n\
        1 B2, 2 B3, 3 B4, 4 B5, 5 B7, 6 B7, 7 B7, 8 B7\n\
        1 B2, 2 B3, 3 B4, 4 B5, 5 B6, 6 B6, 7 B6, 8 B6\n\
        1 B2, 2 B3, 3 B4, 4 B5, 5 B7, 6 B7, 7 B7, 8 B7\n\
        1 B2, 2 B3, 3 B4, 4 B5, 5 B6, 6 B6, 7 B6, 8 B6, 9 B8\n\
        1 B2, 2 B3, 3 B4, 4 B5, 5 B6, 6 B6, 7 B6, 8 B6, 9 B6\n\
        1 B2, 2 B3, 3 B4, 4 B5, 5 B6, 6 B6, 7 B6, 8 B6, 9 B6\n\
        1 B2, 2 B3, 3 B4, 4 B5, 5 B7, 6 B7, 7 B7, 8 B7, 9 B6\n\
        1 B2, 2 B3, 3 B4, 4 B5, 5 B6, 6 B6, 7 B6, 8 B6, 9 B6\n\
        5 B6\n\
        5 B6\n\
        5 B6\n\
        \n\
        \n\
        6 B6, 7 B6, 8 B6\n\
        6 B6, 7 B6, 8 B6\n\
        1 B2, 2 B3, 3 B4, 5 K1, 6 K1\n\
        6 B6, 6 K1, 3 B4, 5 K1, 6 K1\n\
        2 B3, 3 B4\n\
        accepted, 3 B4, 8 K3\n\
        accepted, 7 K1, 8 K1\n\
        accepted, 3 B4, 8 K3\n\
        3 B4, 3 B4, accepted\n\
        6 B6, 6 K1, 3 B4, 5 K1, 6 K1\n\
        6 K3\n\
        \n\
        1 B2, 2 B3, 3 B4, 4 B5, 5 K3, 6 K1, 7 K3, 8 K6, 9 B8\n\
        2 B3, 3 B4, 4 B5, 5 B6, 6 K7, 7 K1, 8 K3, 9 K2, 10 B9\n\
        1 B2, 2 B3, 3 B4, 4 B5, 5 K3, 6 K1, 7 K3, 9 B9\n\
        2 B3, 3 B4, 4 B5, 5 B8, 6 B8, 7 B8, 8 B8, 9 B8\n",
    ),
    (
        "factex-book 1\nsize 2 2 3 1\nresolution 3\npattern none\nO 1\nO 2\nO 3\nW 3 12\nW 2 10\nW 1 9\nW 0 8\nEND\n",
        "\
        1 B2, 2 B3, 3 B4, 4 B5, 5 B6, 6 B6, 7 B6, 8 B6, 9 B6, 10 B6, 11 B6, 12 B6\n\
        1 B2, 2 B3, 3 B4, 4 B5, 5 B6, 6 B6, 7 B6, 8 B6, 9 B6, 10 B6, 11 B6, 12 B6\n\
        1 B2, 2 B3, 3 B4, 4 B5, 5 B6, 6 B6, 7 B6, 8 B6, 9 B6, 10 B6, 11 B6, 12 B6\n\
        1 B2, 2 B3, 3 B4, 4 B5, 6 K1, 6 K1, 7 K1, 8 K1, 9 K1, 10 K7, 11 K1, 12 K2\n\
        1 B2, 2 B3, 3 B4, 4 B5, 6 B9, 7 B9, 8 B9, 9 B9, 10 B9, 11 B9, 12 B9, 13 B9\n\
        1 B2, 2 B3, 3 B4, 4 B5, 5 B6, 6 B6, 7 B6, 8 B6, 9 B6, 10 B6, 11 B6\n\
        1 B2, 2 B3, 3 B4, 4 B5, 5 B6, 6 B6, 7 B6, 8 B6, 9 B6, 10 B6, 11 B6\n\
        1 B2, 2 B3, 3 B4, 4 B5, 5 B6, 6 B6, 7 B6, 8 B6, 9 B6, 10 B6, 11 B6\n\
        1 B2, 2 B3, 3 B4, 4 B5, 5 B6, 6 B6, 7 B6, 8 B6, 9 B6, 10 B6, 11 B6\n\
        1 B2, 2 B3, 3 B4, 4 B5, 5 B6, 6 B6, 7 B6, 8 B6, 9 B6, 10 B6, 11 B6\n\
        1 B2, 2 B3, accepted, 4 B5, 5 B7, 6 B7, 7 B7, 8 B7, 9 B7, 10 B7, 11 B7\n\
        1 B2, 2 B3, 3 B4, 4 B5, 5 B6, 6 B6, 7 B6, 8 B6, 9 B6, 10 B6, 11 B6\n\
        1 B2, 2 B3, accepted, 4 B5, 5 B7, 6 B7, 7 B7, 8 B7, 9 B7, 10 B7, 11 B7\n\
        1 B2, 2 B3, 3 B4, 4 B5, 5 B6, 6 B6, 7 B6, 8 B6, 9 B6, 10 B6, 11 B6, 12 B8\n\
        1 B2, 2 B3, 3 B4, 4 B5, 5 B6, 6 B6, 7 B6, 8 B6, 9 B6, 10 B6, 11 B6, 12 B6\n\
        1 B2, 2 B3, 3 B4, 4 B5, 5 B6, 6 B6, 7 B6, 8 B6, 9 B6, 10 B6, 11 B6, 12 B6\n\
        1 B2, accepted, accepted, 4 B5, 5 B7, 6 B7, 7 B7, 8 B7, 9 B7, 10 B7, 11 B7, 12 B6\n\
        1 B2, 2 B3, 3 B4, 4 B5, 5 B6, 6 B6, 7 B6, 8 B6, 9 B6, 10 B6, 11 B6, 12 B6\n\
        5 B6, 6 B6, 7 B6\n\
        5 B6, 6 B6, 7 B6\n\
        5 B6, 6 B6, 7 B6\n\
        \n\
        \n\
        8 B6, 9 B6, 10 B6, 11 B6\n\
        8 B6, 9 B6, 10 B6, 11 B6\n\
        1 B2, 8 B7, 5 K1, 8 B6, 9 B6, 10 K1\n\
        8 B6, accepted, 5 K1, 8 B7, 9 B7, 10 K1\n\
        8 B7, 3 B4, 7 K1, 8 K1\n\
        6 K1, 6 K1, 8 K3, 9 K1\n\
        9 K3, 11 K1\n\
        7 K1, 6 B7, 8 K3, 9 B7\n\
        6 B7, 6 K1, 8 K4, 9 K1\n\
        8 B6, accepted, 5 K1, 8 B7, 9 B7, 10 K1\n\
        \n\
        10 K3\n\
        1 B2, 2 B3, 3 B4, 4 B5, 5 K1, 6 K1, 7 K3, 8 K1, 9 K1, 10 K1, 11 K6, 12 B8\n\
        2 B3, 3 B4, 4 B5, 5 B6, 6 K1, 7 K1, 8 K7, 9 K1, 10 K1, 11 K1, 12 K2, 13 B9\n\
        1 B2, 2 B3, 3 B4, 4 B5, 5 K1, 6 K1, 7 K3, 8 K1, 9 K1, 10 K1, 12 B9\n\
        2 B3, 3 B4, 4 B5, 5 B8, 6 B8, 7 B8, 8 B8, 9 B8, 10 B8, 11 B8, 12 B8\n",
    ),
];

/// The first line of a text with its line feed, if it has one, and what follows it.
fn first_line(text: &[u8]) -> (&[u8], &[u8]) {
    match text.iter().position(|byte| *byte == b'\n') {
        Some(end) if end < text.len() => text.split_at(end + 1),
        _ => (text, "".as_bytes()),
    }
}

fn append(rt: &impl Abort, out: &mut Bytes, text: &[u8]) {
    put(out, text).expect(rt, "memory");
}

/// Appends a line with this text in the place of its byte at `at`.
fn put_replaced(rt: &impl Abort, out: &mut Bytes, line: &[u8], at: Option<usize>, new: &str) {
    match at {
        Some(at) if at < line.len() => {
            append(rt, out, &line[..at]);
            append(rt, out, new.as_bytes());
            append(rt, out, &line[at + 1..]);
        }
        _ => append(rt, out, line),
    }
}

/// Appends a changed line, and what follows it.
fn put_changed(rt: &impl Abort, out: &mut Bytes, line: &[u8], rest: &[u8], change: Change) {
    match change {
        Change::Before(text) => append(rt, out, text.as_bytes()),
        Change::Doubled => append(rt, out, line),
        Change::Exchanged => append(rt, out, first_line(rest).0),
        _ => {}
    }
    match change {
        Change::First(old, new) => {
            put_replaced(
                rt,
                out,
                line,
                line.iter().position(|byte| *byte == old),
                new,
            );
        }
        Change::Last(old, new) => {
            put_replaced(
                rt,
                out,
                line,
                line.iter().rposition(|byte| *byte == old),
                new,
            );
        }
        Change::LeftOut => {}
        _ => append(rt, out, line),
    }
    match change {
        Change::EndsHere => {}
        Change::Exchanged => append(rt, out, first_line(rest).1),
        _ => append(rt, out, rest),
    }
}

/// Whether a line with this text after it has what the change is of.
fn fits(line: &[u8], rest: &[u8], change: Change) -> bool {
    match change {
        Change::First(old, _) | Change::Last(old, _) => line.contains(&old),
        Change::Exchanged | Change::EndsHere => !rest.is_empty(),
        _ => true,
    }
}

/// Appends a line without what comes before the place of a rejection, and without its line feed.
fn put_verdict(rt: &impl Abort, out: &mut Bytes, line: &[u8]) {
    if !out.is_empty() {
        append(rt, out, ", ".as_bytes());
    }
    let line = line.strip_suffix("\n".as_bytes()).unwrap_or(line);
    let place = line.strip_prefix("rejected line ".as_bytes());
    append(rt, out, place.unwrap_or(line));
}

/// Appends the verdict of `check` on a text: the first line that it lists.
fn judge<R: Threads + Sync + Abort>(rt: &R, alloc: Global, text: &[u8], out: &mut Bytes) {
    let left = left_by(rt, alloc, "check", text, SURE);
    put_verdict(rt, out, first_line(left.listing.bytes()).0);
}

/// Appends the verdicts on a book with each line changed in turn.
fn judge_each<R: Threads + Sync + Abort>(
    rt: &R,
    alloc: Global,
    book: &[u8],
    change: Change,
    out: &mut Bytes,
) {
    let mut rest = book;
    for _line in 0..count(book, b'\n') {
        let front = book.len().saturating_sub(rest.len());
        let (line, after) = first_line(rest);
        rest = after;
        if fits(line, rest, change) {
            let mut text = Bytes::new(alloc);
            append(rt, &mut text, book.get(..front).unwrap_or(book));
            put_changed(rt, &mut text, line, rest, change);
            judge(rt, alloc, text.as_slice(), out);
        }
    }
}

/// Whether these are the verdicts on a book with each line changed in turn.
fn has_verdicts<R: Threads + Sync + Abort>(
    rt: &R,
    alloc: Global,
    book: &[u8],
    change: Change,
    wanted: &str,
) -> bool {
    let mut found = Bytes::new(alloc);
    judge_each(rt, alloc, book, change, &mut found);
    found.as_slice() == wanted.as_bytes()
}

/// Tests the verdicts on a book with each change: a line for each.
fn are_judged<R: Threads + Sync + Abort>(
    rt: &R,
    alloc: Global,
    changes: &[Change],
    book: &str,
    wanted: &str,
) {
    let mut rows = wanted.lines();
    for change in changes {
        let row = rows.next().expect(rt, "a line for each change");
        assert!(rt;
            has_verdicts(rt, alloc, book.as_bytes(), *change, row),
            "{row}"
        );
    }
    assert!(rt; rows.next().is_none());
}

/// Tests the verdicts on each of these books.
fn all_are_judged<R: Threads + Sync + Abort>(
    rt: &R,
    alloc: Global,
    changes: &[Change],
    books: &[(&str, &str)],
) {
    for (book, wanted) in books {
        are_judged(rt, alloc, changes, book, wanted);
    }
}

#[test]
fn forged_lines_are_rejected(rt: HostRuntime) {
    all_are_judged(&rt, rt.alloc(), &CHANGES, &BOOKS);
}

/// Lines of the book of five factors in eight runs at resolution 4, each with what is in its place, and the
/// verdict. With the last the next child of the prefix of the rows 1, 2, 4 and 6 is row 5, and the word of line
/// 13 has the sum 3 there.
const REPLACED: [(usize, &str, &str); 14] = [
    (1, "factex-book 3\n", "1 B2"),
    (2, "size 2 3 41 0\n", "2 B3"),
    (2, "size 2 3 5 0\r\n", "2 B3"),
    (3, "resolution 04\n", "3 B4"),
    (4, "pattern 1\n", "4 B5"),
    (8, "P 7\n", "8 B6"),
    (9, "W 8 25\n", "9 B7"),
    (9, "W 6 0\n", "9 B7"),
    (9, "W 6  25\n", "9 B6"),
    (15, "END", "15 B8"),
    (15, "END\nO 1\n", "16 B9"),
    (9, "", "9 K1"),
    (9, "O 6\n", "9 K7"),
    (12, "O 6\n", "13 K3"),
];

/// The book with another text in the place of a line, counted from 1.
fn with_line(rt: &impl Abort, alloc: Global, line: usize, other: &str) -> Bytes {
    let mut text = Bytes::new(alloc);
    for (i, own) in NO_FIVE_BEFORE.lines().enumerate() {
        if i.saturating_add(1) == line {
            append(rt, &mut text, other.as_bytes());
        } else {
            append(rt, &mut text, own.as_bytes());
            append(rt, &mut text, "\n".as_bytes());
        }
    }
    text
}

/// Whether a text is rejected with this verdict, and nothing else is listed.
fn is_rejected<R: Threads + Sync + Abort>(
    rt: &R,
    alloc: Global,
    text: &[u8],
    wanted: &str,
) -> bool {
    let line = format!(in alloc; "rejected line {wanted}\n").expect(rt, "memory");
    lists(rt, alloc, "check", text, SURE, 1, line.as_str())
}

/// Tests that the book is rejected with each of these lines replaced, with this verdict.
fn replaced_are_rejected<R: Threads + Sync + Abort>(
    rt: &R,
    alloc: Global,
    cases: &[(usize, &str, &str)],
) {
    for (line, other, wanted) in cases {
        let text = with_line(rt, alloc, *line, other);
        assert!(rt; is_rejected(rt, alloc, text.as_slice(), wanted), "{wanted}");
    }
}

#[test]
fn replaced_lines_are_rejected(rt: HostRuntime) {
    replaced_are_rejected(&rt, rt.alloc(), &REPLACED);
    assert!(rt; is_rejected(&rt, rt.alloc(), "".as_bytes(), "1 B2"));
}

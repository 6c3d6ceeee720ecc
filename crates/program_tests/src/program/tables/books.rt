use super::*;
use fx_base::MemoryShelf;

/// Tables, each with the names of its books.
const NAMES: [(&str, &[&[u8]]); 7] = [
    ("tables 2 3 5", &[b"table-2-3-4.book", b"table-2-3-5.book"]),
    ("tables 2 2 3 --order=W2", &[b"table-2-2-3-W2.book"]),
    (
        "tables 2 3 2 --blocks=4",
        &[b"table-2-3-1-blocks-4.book", b"table-2-3-2-blocks-4.book"],
    ),
    (
        "tables 3 2 2 --blocks=3 --order=SCF",
        &[
            b"table-3-2-1-blocks-3-SCF.book",
            b"table-3-2-2-blocks-3-SCF.book",
        ],
    ),
    (
        "tables 2 4 2 --whole-plots=4 --inside=3",
        &[b"table-2-4-2-whole-4-3.book"],
    ),
    (
        "tables 2 3 2 --whole-plots=2 --inside=1 --order=CLEAR",
        &[b"table-2-3-2-whole-2-1-CLEAR.book"],
    ),
    (
        "tables 2 3 2 --blocks=2 --order=W1",
        &[b"table-2-3-2-blocks-2-W1.book"],
    ),
];

#[test]
fn books_have_names(rt: HostRuntime) {
    for (line, names) in rows_of(&NAMES) {
        let left = left_by(&rt, rt.alloc(), line, b"", WIDE);
        assert!(rt; has_names(&left.shelf, names), "{line}");
    }
}

/// Whether the files have these names.
fn has_names(shelf: &MemoryShelf, names: &[&[u8]]) -> bool {
    if shelf.files() != names.len() {
        return false;
    }
    for i in 0..shelf.files() {
        if i < names.len() && shelf.name(i) != names[i] {
            return false;
        }
    }
    true
}

/// Tables, each with the text of its last book, and what is listed where that is accepted.
const LAST: [(&str, &str, &str); 6] = [
    (
        "tables 2 3 4",
        "factex-table 2\nbase 2 3 0 0 4\norder FF\nkey 0 1\nO 1\nO 2\nO 4\nP 7\nP 6\nP 5\nP 3\nEND\n",
        "accepted\nbase 2 3 0 0 4\norder FF\nkey 0 1\n",
    ),
    (
        "tables 2 3 8",
        "factex-table 2\nbase 2 3 0 0 8\norder FF\nkey none\nO 1\nO 2\nR 4\nEND\n",
        "accepted\nbase 2 3 0 0 8\norder FF\nkey none\n",
    ),
    (
        "tables 2 3 4 --blocks=2 --order=W1",
        "factex-table 2\nbase 2 3 1 0 4\norder W1\nkey 0 1 2 0 0\nO 2\nO 4\nF 7\nP 6\nF 5\nR 3\nEND\n",
        "accepted\nbase 2 3 1 0 4\norder W1\nkey 0 1 2 0 0\n",
    ),
    // One factor has no words to compare.
    (
        "tables 3 2 1 --blocks=3",
        "factex-table 2\nbase 3 2 1 0 1\norder FF\nkey\nP 3\nEND\n",
        "accepted\nbase 3 2 1 0 1\norder FF\nkey\n",
    ),
    (
        "tables 2 4 4 --whole-plots=4 --inside=2",
        "factex-table 2\nbase 2 4 2 2 4\norder FF\nkey 0 3 0 0 1 4 2 2 0\nO 1\nO 2\nO 4\nO 8\nF 15\nO 14\nP 13\nP 12\nP 11\nP 10\nP 9\nP 7\nP 6\nP 5\nI 13 2 1 4 8\nP 12\nO 11\nP 10\nP 9\nP 7\nP 6\nP 5\nP 10\nP 9\nF 7\nP 6\nP 5\nEND\n",
        "accepted\nbase 2 4 2 2 4\norder FF\nkey 0 3 0 0 1 4 2 2 0\n",
    ),
    (
        "tables 2 3 3 --whole-plots=2 --inside=1 --order=CLEAR",
        "factex-table 2\nbase 2 3 1 1 3\norder CLEAR\nkey 0 6 1 0 1 0\nO 1\nO 2\nO 4\nP 7\nP 6\nP 5\nP 3\nEND\n",
        "accepted\nbase 2 3 1 1 3\norder CLEAR\nkey 0 6 1 0 1 0\n",
    ),
];

#[test]
fn the_book_of_a_line_is_accepted(rt: HostRuntime) {
    for (line, book, listing) in rows_of(&LAST) {
        let left = left_by(&rt, rt.alloc(), line, b"", WIDE);
        assert!(rt; is_last(&left.shelf, book.as_bytes()), "{line}");
        let checked = left_by(&rt, rt.alloc(), "check", book.as_bytes(), WIDE);
        assert!(rt;
            checked.status == 0 && checked.listing.bytes() == listing.as_bytes(),
            "{line}"
        );
    }
}

/// Whether the last file has this content.
fn is_last(shelf: &MemoryShelf, content: &[u8]) -> bool {
    let files = shelf.files();
    files > 0 && shelf.content(files - 1) == content
}

/// Books of the first version, each with what is listed.
const BEFORE: [(&str, &str); 9] = [
    (
        "factex-table 1\nsize 2 3 4 0\nresolution 3\npattern 0 0 0 1\nO 1\nO 2\nO 4\nP 7\nP 6\nP 5\nP 3\nEND\n",
        "accepted\nbase 2 3 0 0 4\norder FF\nkey 0 1\n",
    ),
    (
        "factex-table 1\nsize 2 3 8 0\nresolution 3\npattern none\nO 1\nO 2\nR 4\nEND\n",
        "accepted\nbase 2 3 0 0 8\norder FF\nkey none\n",
    ),
    (
        "factex-table 1\nsize 2 3 4 0\nresolution 3\npattern none\nO 1\nO 2\nO 4\nP 7\nEND\n",
        "rejected line 8 K5\n",
    ),
    (
        "factex-table 1\nsize 2 3 4\nresolution 3\npattern 0 0 0 1\nEND\n",
        "rejected line 2 B6\n",
    ),
    (
        "factex-table 1\nsize 2 3 4 1\nresolution 3\npattern 0 0 0 1\nEND\n",
        "rejected line 2 B7\n",
    ),
    (
        "factex-table 1\nsize 2 3 4 0\nresolution 4\npattern 0 0 0 1\nEND\n",
        "rejected line 3 B7\n",
    ),
    (
        "factex-table 1\nsize 2 3 4 0\nresolution 3\npattern 0 0 0\nEND\n",
        "rejected line 4 B6\n",
    ),
    (
        "factex-table 1\nsize 2 3 4 0\nresolution 3\npattern 0 1 0 1\nEND\n",
        "rejected line 4 B7\n",
    ),
    (
        "factex-table 1\nbase 2 3 0 0 4\nresolution 3\npattern 0 0 0 1\nEND\n",
        "rejected line 2 B6\n",
    ),
];

#[test]
fn books_of_the_first_version_are_checked(rt: HostRuntime) {
    for (book, listing) in rows_of(&BEFORE) {
        let left = left_by(&rt, rt.alloc(), "check", book.as_bytes(), WIDE);
        assert!(rt; left.listing.bytes() == listing.as_bytes(), "{book}");
        assert!(rt;
            (left.status == 0) == listing.starts_with("accepted"),
            "{book}"
        );
    }
}

/// What is before, between and behind the parts of a book that is changed.
struct Frame {
    front: &'static str,
    back: &'static str,
}

/// The book of four factors in eight runs, from its third entry on.
const FOUR_FACTORS: Frame = Frame {
    front: "factex-table 2\nbase 2 3 0 0 4\norder FF\nkey 0 1\nO 1\nO 2\n",
    back: "END\n",
};

/// Entries of it, each with what is listed.
const ENTRIES: [(&str, &str); 15] = [
    ("O 4\nI 7 1 2 3\n", "rejected line 8 K8\n"),
    ("O 4\nI 7 2 1 4\n", "rejected line 8 K8\n"),
    ("O 4\nR 7\n", "rejected line 8 K10\n"),
    ("O 4\nO 7\n", "rejected line 8 K7\n"),
    ("F 4\n", "rejected line 7 K11\n"),
    ("P 4\n", "rejected line 7 K5\n"),
    ("O 4\nF 7\nF 6\nP 3\n", "rejected line 10 K1\n"),
    (
        "O 4\nP 7\nP 6\nI 5 2 1 4\nI 3 4 1 2\nP 3\n",
        "rejected line 12 K2\n",
    ),
    (
        "O 4\nP 7\nP 6\nI 5 1 2 4\nI 3 4 1 2\n",
        "rejected line 10 K8\n",
    ),
    ("O 4\nP 7\nP 6\nI 5 2 1 4\n", "rejected line 11 K6\n"),
    (
        "O 4\nP 7\nP 6\nI 5 2 1\nI 3 4 1 2\n",
        "rejected line 10 B6\n",
    ),
    (
        "O 4\nP 7\nP 6\nI 5 2 1 8\nI 3 4 1 2\n",
        "rejected line 10 B7\n",
    ),
    ("O 4\nP 8\n", "rejected line 8 B7\n"),
    ("O 4\nP\n", "rejected line 8 B6\n"),
    ("O 4\nX 7\n", "rejected line 8 B6\n"),
];

#[test]
fn false_entries_are_rejected(rt: HostRuntime) {
    for (entries, listing) in rows_of(&ENTRIES) {
        is_rejected(&rt, rt.alloc(), FOUR_FACTORS, entries, listing);
    }
}

/// Tests what is listed of a book with this part.
fn is_rejected<R: Threads + Sync + Abort>(
    rt: &R,
    alloc: Global,
    book: Frame,
    part: &str,
    listing: &str,
) {
    let Frame { front, back } = book;
    let text = format!(in alloc; "{front}{part}{back}").expect(rt, "memory");
    let left = left_by(rt, alloc, "check", text.as_bytes(), WIDE);
    assert!(rt;
        left.status == 1 && left.listing.bytes() == listing.as_bytes(),
        "{part}"
    );
}

/// The book of two factors inside four whole plots and four outside, but for an entry with an image.
const SIX_FACTORS: Frame = Frame {
    front: "factex-table 2\nbase 2 4 2 2 4\norder FF\nkey 0 3 0 0 1 4 2 2 0\nO 1\nO 2\nO 4\nO 8\nF 15\nO 14\nP 13\nP 12\nP 11\nP 10\nP 9\nP 7\nP 6\nP 5\n",
    back: "P 12\nO 11\nP 10\nP 9\nP 7\nP 6\nP 5\nP 10\nP 9\nF 7\nP 6\nP 5\nEND\n",
};

/// Entries in its place, each with what is listed. A change keeps the base, and moves rows to the unit vectors.
const IMAGES: [(&str, &str); 6] = [
    ("I 13 4 1 2 8\n", "rejected line 19 K8\n"),
    ("I 13 1 2 4 8\n", "rejected line 19 K8\n"),
    ("I 13 1 3 4 8\n", "rejected line 19 K8\n"),
    ("I 13 2 1 4\n", "rejected line 19 B6\n"),
    ("I 13 2 1 4 16\n", "rejected line 19 B7\n"),
    ("I 12 2 1 4 8\n", "rejected line 19 K1\n"),
];

#[test]
fn false_images_are_rejected(rt: HostRuntime) {
    for (entry, listing) in rows_of(&IMAGES) {
        is_rejected(&rt, rt.alloc(), SIX_FACTORS, entry, listing);
    }
}

/// What all texts of books of these tests begin with.
const TITLE: Frame = Frame {
    front: "factex-table ",
    back: "END\n",
};

/// Texts with it, each with what is listed. Without entries, a book that is read ends too early.
const FRONTS: [(&str, &str); 25] = [
    ("3\n", "rejected line 1 B2\n"),
    (
        "2\nsize 2 3 4 0\norder FF\nkey 0 1\n",
        "rejected line 2 B6\n",
    ),
    (
        "2\nbase 2 3 0 0\norder FF\nkey 0 1\n",
        "rejected line 2 B6\n",
    ),
    (
        "2\nbase 6 3 0 0 4\norder FF\nkey none\n",
        "rejected line 2 B7\n",
    ),
    // Factors span the runs, and those inside the base, if any, span it.
    (
        "2\nbase 2 3 0 0 2\norder FF\nkey none\n",
        "rejected line 2 B7\n",
    ),
    (
        "2\nbase 2 3 0 0 3\norder FF\nkey none\n",
        "rejected line 5 K6\n",
    ),
    (
        "2\nbase 2 3 1 0 1\norder FF\nkey none\n",
        "rejected line 2 B7\n",
    ),
    (
        "2\nbase 2 3 1 0 2\norder FF\nkey none\n",
        "rejected line 5 K6\n",
    ),
    (
        "2\nbase 2 3 4 0 4\norder FF\nkey none\n",
        "rejected line 2 B7\n",
    ),
    (
        "2\nbase 2 3 0 1 4\norder FF\nkey none\n",
        "rejected line 2 B7\n",
    ),
    (
        "2\nbase 2 3 2 1 4\norder FF\nkey none\n",
        "rejected line 2 B7\n",
    ),
    (
        "2\nbase 2 3 2 2 4\norder FF\nkey none\n",
        "rejected line 5 K6\n",
    ),
    (
        "2\nbase 2 3 1 1 62\norder FF\nkey none\n",
        "rejected line 5 K6\n",
    ),
    (
        "2\nbase 2 3 1 1 63\norder FF\nkey none\n",
        "rejected line 2 B7\n",
    ),
    (
        "2\nbase 9 2 0 0 37\norder FF\nkey none\n",
        "rejected line 5 K6\n",
    ),
    (
        "2\nbase 9 2 0 0 38\norder FF\nkey none\n",
        "rejected line 2 B7\n",
    ),
    (
        "2\nbase 2 3 0 0 4\norder\nkey 0 1\n",
        "rejected line 3 B6\n",
    ),
    (
        "2\nbase 2 3 0 0 4\norder ff\nkey 0 1\n",
        "rejected line 3 B7\n",
    ),
    (
        "2\nbase 2 3 0 0 4\norder FF\npattern 0 0 0 1\n",
        "rejected line 4 B6\n",
    ),
    (
        "2\nbase 2 3 0 0 4\norder FF\nkey 0\n",
        "rejected line 4 B6\n",
    ),
    (
        "2\nbase 2 3 0 0 4\norder FF\nkey 0 1 0\n",
        "rejected line 4 B6\n",
    ),
    // An entry of a key times the levels less 1 is below 2^127.
    (
        "2\nbase 2 3 0 0 4\norder FF\nkey 0 170141183460469231731687303715884105727\n",
        "rejected line 5 K6\n",
    ),
    (
        "2\nbase 2 3 0 0 4\norder FF\nkey 0 170141183460469231731687303715884105728\n",
        "rejected line 4 B7\n",
    ),
    (
        "2\nbase 3 2 0 0 3\norder FF\nkey 85070591730234615865843651857942052863\n",
        "rejected line 5 K6\n",
    ),
    (
        "2\nbase 3 2 0 0 3\norder FF\nkey 85070591730234615865843651857942052864\n",
        "rejected line 4 B7\n",
    ),
];

#[test]
fn false_fronts_are_rejected(rt: HostRuntime) {
    for (front, listing) in rows_of(&FRONTS) {
        is_rejected(&rt, rt.alloc(), TITLE, front, listing);
    }
}

/// Texts that are not whole, or go on, each with what is listed.
const UNFINISHED: [(&str, &str); 8] = [
    ("", "rejected line 1 B2\n"),
    ("factex-table 2", "rejected line 1 B2\n"),
    ("factex-table 2\n", "rejected line 2 B8\n"),
    ("factex-table 2\nbase 2 3 0 0 4\n", "rejected line 3 B8\n"),
    (
        "factex-table 2\nbase 2 3 0 0 4\norder FF\n",
        "rejected line 4 B8\n",
    ),
    (
        "factex-table 2\nbase 2 3 0 0 4\norder FF\nkey 0 1\nO 1\n",
        "rejected line 6 B8\n",
    ),
    (
        "factex-table 2\nbase 2 3 0 0 4\norder FF\nkey 0 1\nO 1\nEND",
        "rejected line 6 B8\n",
    ),
    (
        "factex-table 2\nbase 2 3 0 0 4\norder FF\nkey 0 1\nO 1\nEND\n\n",
        "rejected line 7 B9\n",
    ),
];

#[test]
fn books_end_with_their_last_line(rt: HostRuntime) {
    for (text, listing) in rows_of(&UNFINISHED) {
        let left = left_by(&rt, rt.alloc(), "check", text.as_bytes(), WIDE);
        assert!(rt;
            left.status == 1 && left.listing.bytes() == listing.as_bytes(),
            "{text}"
        );
    }
}

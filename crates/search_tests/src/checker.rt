use fx_base::Bytes;
use fx_book::read_book;
use fx_checker::{Reason, Verdict, check};
use std::alloc::Global;
use std::process::Abort;

/// The verdict on a text that is a book.
fn judged(rt: &impl Abort, alloc: Global, text: &[u8]) -> Verdict {
    let book = read_book(alloc, text).expect(rt, "a book");
    check(alloc, &book).expect(rt, "memory")
}

/// The book of five factors in eight runs at resolution 4 with these entries, of which the first has line 5.
fn book_in_eight(rt: &impl Abort, alloc: Global, entries: &str) -> Bytes {
    let front = "factex-book 1\nsize 2 3 5 0\nresolution 4\npattern none\n";
    let mut text = Bytes::from_slice(alloc, front.as_bytes()).expect(rt, "memory");
    text.extend_from_slice(entries.as_bytes())
        .expect(rt, "memory");
    text.extend_from_slice(b"END\n").expect(rt, "memory");
    text
}

/// The verdict on that book.
fn judged_in_eight(rt: &impl Abort, alloc: Global, entries: &str) -> Verdict {
    judged(rt, alloc, book_in_eight(rt, alloc, entries).as_slice())
}

/// Whether the verdict rejects this line, for the reason of this code.
fn is_rejection(verdict: Verdict, line: u32, code: u8) -> bool {
    match verdict {
        Verdict::Accepted => false,
        Verdict::Rejected { line: own, reason } => own == line && reason.code() == code,
    }
}

/// Tests that the book in eight runs with each of these entries is accepted.
fn entries_are_accepted(rt: &impl Abort, alloc: Global, cases: &[&str]) {
    for entries in cases {
        let verdict = judged_in_eight(rt, alloc, entries);
        assert!(rt; verdict == Verdict::Accepted, "{entries}");
    }
}

/// Tests that each of these books is accepted.
fn texts_are_accepted(rt: &impl Abort, alloc: Global, cases: &[&str]) {
    for text in cases {
        assert!(rt;
            judged(rt, alloc, text.as_bytes()) == Verdict::Accepted,
            "{text}"
        );
    }
}

/// Five factors of two levels in eight runs have no resolution 4; any forbidden word will do.
#[test]
fn good_books_are_accepted(rt: HostRuntime) {
    const IN_EIGHT: [&str; 2] = [
        "O 1\nO 2\nO 4\nO 7\nW 6 25\nW 5 26\nW 3 28\nW 6 14\nW 5 13\nW 3 11\n",
        "O 1\nO 2\nO 4\nO 7\nW 6 22\nW 5 26\nW 3 28\nW 6 14\nW 5 13\nW 3 11\n",
    ];
    entries_are_accepted(&rt, rt.alloc(), &IN_EIGHT);
    const TEXTS: [&str; 3] = [
        "factex-book 1\nsize 2 1 2 0\neffects 1 2 /\npattern none\nO 1\nW 1 3\nW 0 2\nW 0 1\nEND\n",
        "factex-book 1\nsize 3 2 5 0\nresolution 3\npattern none\nO 1\nO 3\nO 5\nO 4\nO 4\nEND\n",
        "factex-book 1\nsize 2 3 4 0\nresolution 3\npattern 0 0 0 1\nO 1\nO 2\nO 4\nP 7\nP 6\nP 5\nP 3\nEND\n",
    ];
    texts_are_accepted(&rt, rt.alloc(), &TEXTS);
}

/// Tests that the book in eight runs with each of these entries is false in this line, for this reason.
fn entries_are_rejected(rt: &impl Abort, alloc: Global, cases: &[(&str, u32, u8)]) {
    for (entries, line, code) in cases {
        let verdict = judged_in_eight(rt, alloc, entries);
        assert!(rt; is_rejection(verdict, *line, *code), "{entries}");
    }
}

#[test]
fn each_reason_is_found(rt: HostRuntime) {
    const REJECTED: [(&str, u32, u8); 7] = [
        (
            "O 1\nO 2\nO 4\nO 7\nW 5 26\nW 6 25\nW 3 28\nW 6 14\nW 5 13\nW 3 11\n",
            9,
            1,
        ),
        (
            "O 1\nO 2\nO 4\nO 7\nW 6 25\nW 5 26\nW 3 28\nW 6 14\nW 5 13\nW 3 11\nW 3 11\n",
            15,
            2,
        ),
        ("O 1\nO 2\nO 4\nO 7\nW 6 24\n", 9, 3),
        ("O 1\nO 2\nO 4\nO 7\nW 6 9\n", 9, 3),
        ("O 1\nO 2\nO 4\nW 7 15\n", 8, 4),
        (
            "O 1\nO 2\nO 4\nO 7\nW 6 25\nW 5 26\nW 3 28\nW 6 14\nW 5 13\n",
            14,
            6,
        ),
        ("", 5, 6),
    ];
    entries_are_rejected(&rt, rt.alloc(), &REJECTED);
}

/// Tests that each of these books is false in line 8, for this reason.
fn texts_are_rejected(rt: &impl Abort, alloc: Global, cases: &[(&str, Reason)]) {
    for (text, reason) in cases {
        let rejected = Verdict::Rejected {
            line: 8,
            reason: *reason,
        };
        assert!(rt; judged(rt, alloc, text.as_bytes()) == rejected, "{text}");
    }
}

/// In the second book the word of D = ABC has weight 4, and no word has weight 3: a pattern less than this.
#[test]
fn branches_end_and_patterns_are_compared(rt: HostRuntime) {
    const REJECTED: [(&str, Reason); 2] = [
        (
            "factex-book 1\nsize 2 3 4 0\nresolution 3\npattern none\nO 1\nO 2\nO 4\nO 7\nEND\n",
            Reason::Whole,
        ),
        (
            "factex-book 1\nsize 2 3 4 0\nresolution 3\npattern 0 0 1 0\nO 1\nO 2\nO 4\nP 7\nP 6\nP 5\nP 3\nEND\n",
            Reason::Beats,
        ),
    ];
    texts_are_rejected(&rt, rt.alloc(), &REJECTED);
}

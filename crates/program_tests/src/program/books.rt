ghost use Rattle.std.specs.Prelude.{◌<◌};

use super::outside::count;
use super::*;

/// That no five factors of two levels have resolution 4 in eight runs.
const NO_FIVE: &str =
    "factex-book 2\nsize 2 3 5 0\nresolution 4\npattern none\nO 1\nO 2\nO 4\nO 7\nW 6 1:1 4:1 5:1\nW 5 2:1 4:1 5:1\nW 3 3:1 4:1 5:1\nW 6 2:1 3:1 4:1\nW 5 1:1 3:1 4:1\nW 3 1:1 2:1 4:1\nEND\n";

/// The same in version 1.
pub(super) const NO_FIVE_BEFORE: &str =
    "factex-book 1\nsize 2 3 5 0\nresolution 4\npattern none\nO 1\nO 2\nO 4\nO 7\nW 6 25\nW 5 26\nW 3 28\nW 6 14\nW 5 13\nW 3 11\nEND\n";

/// What is listed where that book is accepted.
const NO_FIVE_ACCEPTED: &str = "accepted\nsize 2 3 5 0\nresolution 4\npattern none\n";

/// Each text with its listing, its books by name and content, and its status.
const BOOKS: &[(&str, &str, &[(&str, &str)], u8)] = &[
    (
        "proc factex;factors A B C D E;size design=8;model resolution=4;",
        "step 1\nfactors 5 levels 2\nno design in 8 runs\nnodes 10\nbook step1-1.book\n",
        &[("step1-1.book", NO_FIVE)],
        1,
    ),
    // The second question of a step has the same book, which is named before the sections.
    (
        "proc factex nodes=15;factors A B C D E;size design=8;model resolution=max;examine aberration;",
        "step 1\nfactors 5 levels 2\ndesign 8 runs\nresolution 3 highest\nnodes 15\nrules\n  D = A*B*C\n  E = B*C\nbook step1-2.book\naberration\n  A3 2\n  A4 1\n",
        &[("step1-2.book", NO_FIVE)],
        0,
    ),
    // A question that the budget ends has none.
    (
        "proc factex nodes=14;factors A B C D E;size design=8;model resolution=max;",
        "step 1\nfactors 5 levels 2\nbudget ended after 14 nodes\ndesign 8 runs not proved best\nresolution 3\nrules\n  D = A*B*C\n  E = B*C\n",
        &[],
        2,
    ),
    // Those that were finished before it have theirs.
    (
        "proc factex nodes=13;factors A B C D E F;size design=min;model resolution=4;",
        "step 1\nfactors 6 levels 2\nbudget ended after 13 nodes\nbook step1-1.book\nbook step1-2.book\n",
        &[
            (
                "step1-1.book",
                "factex-book 2\nsize 2 1 6 0\nresolution 4\npattern none\nO 1\nEND\n",
            ),
            (
                "step1-2.book",
                "factex-book 2\nsize 2 2 6 0\nresolution 4\npattern none\nO 1\nO 2\nW 3 1:1 2:1 3:1\nEND\n",
            ),
        ],
        2,
    ),
    (
        "proc factex;factors A B;size design=2;model estimate=(A B);",
        "step 1\nfactors 2 levels 2\nno design in 2 runs\nnodes 4\nbook step1-1.book\n",
        &[(
            "step1-1.book",
            "factex-book 2\nsize 2 1 2 0\neffects 1 2 /\npattern none\nO 1\nW 1 1:1 2:1\nW 0 2:1\nW 0 1:1\nEND\n",
        )],
        1,
    ),
    // A least pattern has one, whose pattern is that of the design. The plan is shelved after it.
    (
        "proc factex;factors A B C D;size design=8;model resolution=max / minabs;output out=half;",
        "step 1\nfactors 4 levels 2\ndesign 8 runs\nresolution 4 least aberration\nnodes 7\nrules\n  D = A*B*C\nbook step1-1.book\noutput half.csv 8 rows\n",
        &[
            (
                "step1-1.book",
                "factex-book 2\nsize 2 3 4 0\nresolution 3\npattern 0 0 0 1\nO 1\nO 2\nO 4\nP 7\nP 6\nP 5\nP 3\nEND\n",
            ),
            (
                "half.csv",
                "A,B,C,D\n-1,-1,-1,-1\n-1,-1,1,1\n-1,1,-1,1\n-1,1,1,-1\n1,-1,-1,1\n1,-1,1,-1\n1,1,-1,-1\n1,1,1,1\n",
            ),
        ],
        0,
    ),
];

#[test]
fn books_are_shelved(rt: HostRuntime) {
    are_shelved(&rt, rt.alloc(), BOOKS);
}

/// A step with a least pattern of 282 nodes.
const LEAST: &str =
    "proc factex;factors A B C D E F G;size design=32;model resolution=max / minabs;";

/// What is listed of it.
const LEAST_LISTING: &str =
    "step 1\nfactors 7 levels 2\ndesign 32 runs\nresolution 4 least aberration\nnodes 282\nrules\n  F = B*C*D*E\n  G = A*C*D*E\nbook step1-1.book\n";

/// Its book has four lines and one for each node, and ends.
#[test]
fn the_book_of_a_least_pattern_is_accepted(rt: HostRuntime) {
    let book = file_of(&rt, rt.alloc(), LEAST.as_bytes(), SURE, 0, LEAST_LISTING);
    let head = "factex-book 2\nsize 2 5 7 0\nresolution 3\npattern 0 0 0 1 2 0 0\n";
    assert!(rt; book.as_slice().starts_with(head.as_bytes()));
    assert!(rt; count(book.as_slice(), b'\n') == 4 + 282 + 1);
    let listing = "accepted\nsize 2 5 7 0\nresolution 3\npattern 0 0 0 1 2 0 0\n";
    assert!(rt; lists(&rt, rt.alloc(), "check", book.as_slice(), SURE, 0, listing));
}

/// Books that claim the same, each with what `check` lists of it and its status.
const JUDGED: [(&str, &str, u8); 10] = [
    (NO_FIVE, NO_FIVE_ACCEPTED, 0),
    (NO_FIVE_BEFORE, NO_FIVE_ACCEPTED, 0),
    // Another word that closes the same prefix.
    (
        "factex-book 1\nsize 2 3 5 0\nresolution 4\npattern none\nO 1\nO 2\nO 4\nO 7\nW 6 22\nW 5 26\nW 3 28\nW 6 14\nW 5 13\nW 3 11\nEND\n",
        NO_FIVE_ACCEPTED,
        0,
    ),
    (
        "factex-book 1\nsize 2 3 5 0\nresolution 4\npattern none\nO 1\nO 2\nO 4\nO 7\nW 6 25\nW 5 26\n",
        "rejected line 11 B8\n",
        1,
    ),
    (
        "factex-book 1\nsize 2 3 5 0\nresolution 4\npattern none\nO 1\nO 2\nO 4\nO 7\nW 5 26\nW 6 25\nW 3 28\nW 6 14\nW 5 13\nW 3 11\nEND\n",
        "rejected line 9 K1\n",
        1,
    ),
    (
        "factex-book 1\nsize 2 3 5 0\nresolution 4\npattern none\nO 1\nO 2\nO 4\nO 7\nW 6 24\nW 5 26\nW 3 28\nW 6 14\nW 5 13\nW 3 11\nEND\n",
        "rejected line 9 K3\n",
        1,
    ),
    (
        "factex-book 1\nsize 2 3 5 0\nresolution 4\npattern none\nO 1\nO 2\nO 4\nW 7 15\nW 6 25\nW 5 26\nW 3 28\nW 6 14\nW 5 13\nW 3 11\nEND\n",
        "rejected line 8 K4\n",
        1,
    ),
    (
        "factex-book 1\nsize 2 3 5 0\nresolution 4\npattern none\nO 1\nO 2\nO 4\nO 7\nW 6 25\nW 5 26\nW 3 28\nW 6 14\nW 5 13\nEND\n",
        "rejected line 14 K6\n",
        1,
    ),
    (
        "factex-book 1\nsize 2 3 5 0\nresolution 4\npattern none\nO 1\nO 2\nO 4\nO 7\nW 6 25\nW 5 26\nW 3 28\nW 6 14\nW 5 13\nW 3 11\nW 3 11\nEND\n",
        "rejected line 15 K2\n",
        1,
    ),
    (HALF, "rejected line 1 B2\n", 1),
];

/// Tests that `check` lists this of each book, with this status.
fn verdicts_are_listed<R: Threads + Sync + Abort>(
    rt: &R,
    alloc: Global,
    cases: &[(&str, &str, u8)],
) {
    for (book, listing, status) in cases {
        let is_so = lists(rt, alloc, "check", book.as_bytes(), SURE, *status, listing);
        assert!(rt; is_so, "{listing}");
    }
}

#[test]
fn books_are_judged(rt: HostRuntime) {
    verdicts_are_listed(&rt, rt.alloc(), &JUDGED);
}

/// Texts, each with what `upgrade` lists of it and its status.
const UPGRADED: [(&str, &str, u8); 5] = [
    (NO_FIVE_BEFORE, NO_FIVE, 0),
    (NO_FIVE, NO_FIVE, 0),
    // A book that `check` rejects is upgraded all the same.
    (
        "factex-book 1\nsize 2 1 2 0\neffects 1 2 /\npattern none\nO 1\nO 1\nW 1 3\nEND\n",
        "factex-book 2\nsize 2 1 2 0\neffects 1 2 /\npattern none\nO 1\nO 1\nW 1 1:1 2:1\nEND\n",
        0,
    ),
    (
        "factex-book 1\nsize 2 1 2 0\neffects 1 2 /\npattern none\nO 1\nW 1 1:1 2:1\nEND\n",
        "rejected line 6 B6\n",
        1,
    ),
    (HALF, "rejected line 1 B2\n", 1),
];

#[test]
fn books_are_upgraded(rt: HostRuntime) {
    for (book, listing, status) in &UPGRADED {
        let is_so = lists(
            &rt,
            rt.alloc(),
            "upgrade",
            book.as_bytes(),
            SURE,
            *status,
            listing,
        );
        assert!(rt; is_so, "{listing}");
    }
}

/// After a failed read of a book nothing is read again and nothing is written, and after a failed
/// write nothing is written again.
#[test]
fn no_call_follows_a_failed_one_of_a_check(rt: HostRuntime) {
    let book = NO_FIVE.as_bytes();
    for call in 1..=book.len().div_ceil(STEP) + 1 {
        let limits = Limits {
            first_read: Some(call),
            first_write: Some(1),
            ..SURE
        };
        let left = tally_of(&rt, rt.alloc(), "check", book, limits, NO_FIVE_ACCEPTED);
        assert!(rt; is_after_read(left));
    }
    for call in 1..=NO_FIVE_ACCEPTED.len().div_ceil(STEP) {
        let limits = Limits {
            first_write: Some(call),
            ..SURE
        };
        let left = tally_of(&rt, rt.alloc(), "check", book, limits, NO_FIVE_ACCEPTED);
        assert!(rt; is_after_write(left, (call - 1) * STEP));
    }
}

//! Texts at each limit and one past it, where the language's own tests do not have them, and steps that need as
//! many nodes as they may.
use super::outside::{Limits, count, file_of, left_by, lists};
use fx_base::{Bytes, put};
use std::alloc::Global;
use std::process::Abort;
use std::thread::Threads;

/// Objects outside with room for long output.
const ROOMY: Limits = Limits {
    step: 4096,
    listing_room: 10000,
    shelf_room: 600000,
    first_read: None,
    first_write: None,
    first_file: None,
};

/// Whether a text has this status and this listing.
fn runs<R: Threads + Sync + Abort>(
    rt: &R,
    alloc: Global,
    text: &str,
    status: u8,
    listing: &str,
) -> bool {
    lists(rt, alloc, "run", text.as_bytes(), ROOMY, status, listing)
}

/// Whether one factor with `q` levels has a design of so many runs.
fn has_design<R: Threads + Sync + Abort>(rt: &R, alloc: Global, q: u32, size: u32) -> bool {
    let text = format!(in alloc;
        "proc factex;factors A/nlev={q};size design={size};model r=3;"
    ).expect(rt, "memory");
    let listing = format!(in alloc;
        "step 1\nfactors 1 levels {q}\ndesign {size} runs\nno defining words\nnodes 1\nrules\n  none\n"
    ).expect(rt, "memory");
    runs(rt, alloc, text.as_str(), 0, listing.as_str())
}

/// Whether so many runs are refused.
fn is_too_large<R: Threads + Sync + Abort>(rt: &R, alloc: Global, q: u32, size: u32) -> bool {
    let text = format!(in alloc;
        "proc factex;factors A/nlev={q};size design={size};model r=3;"
    ).expect(rt, "memory");
    runs(
        rt,
        alloc,
        text.as_str(),
        3,
        "factex: E9 1:42 more than 1024 runs\n",
    )
}

/// Tests that each number of levels has a design of so many runs, and no larger one.
fn are_greatest<R: Threads + Sync + Abort>(rt: &R, alloc: Global, cases: &[(u32, u32)]) {
    for (q, size) in cases {
        assert!(rt; has_design(rt, alloc, *q, *size));
        assert!(rt; is_too_large(rt, alloc, *q, size.saturating_mul(*q)));
    }
}

/// Each number of levels with its greatest power of at most 1,024.
#[test]
fn at_most_1024_runs_for_each_number_of_levels(rt: HostRuntime) {
    const SIZES: [(u32, u32); 7] = [
        (2, 1024),
        (3, 729),
        (4, 1024),
        (5, 625),
        (7, 343),
        (8, 512),
        (9, 729),
    ];
    are_greatest(&rt, rt.alloc(), &SIZES);
}

/// A text whose step may be asked with so many nodes.
const TEXT: &str = "factors A;model r=3;";

/// What is listed of it.
const LISTING: &str =
    "step 1\nfactors 1 levels 2\ndesign 2 runs\nno defining words\nnodes 1\nrules\n  none\n";

/// Whether the words of a line and so many nodes lead to this status and this listing.
fn runs_with<R: Threads + Sync + Abort>(
    rt: &R,
    alloc: Global,
    line: &str,
    nodes: &str,
    status: u8,
    listing: &str,
) -> bool {
    let text = format!(in alloc; "proc factex nodes={nodes};{TEXT}").expect(rt, "memory");
    lists(rt, alloc, line, text.as_bytes(), ROOMY, status, listing)
}

/// Tests each command line with so many nodes.
fn all_run_with<R: Threads + Sync + Abort>(
    rt: &R,
    alloc: Global,
    cases: &[(&str, &str, u8, &str)],
) {
    for (line, nodes, status, listing) in cases {
        assert!(rt;
            runs_with(rt, alloc, line, nodes, *status, listing),
            "{line}"
        );
    }
}

#[test]
fn budgets_and_threads_have_limits(rt: HostRuntime) {
    const ASKED: [(&str, &str, u8, &str); 9] = [
        ("run", "1", 0, LISTING),
        ("run", "5000000", 0, LISTING),
        ("run", "0", 3, "factex: E29 1:19 number is out of range\n"),
        (
            "run",
            "5000001",
            3,
            "factex: E29 1:19 number is out of range\n",
        ),
        ("run --threads=1", "1", 0, LISTING),
        ("run --threads=64", "1", 0, LISTING),
        ("run --threads=0", "1", 3, "factex: C4 word 2\n"),
        ("run --threads=65", "1", 3, "factex: C4 word 2\n"),
        ("large 1 --threads=65", "1", 3, "factex: C4 word 3\n"),
    ];
    all_run_with(&rt, rt.alloc(), &ASKED);
}

/// A name of 32 bytes, and one more byte of a name.
#[test]
fn names_have_at_most_32_bytes(rt: HostRuntime) {
    let text = "proc factex;\nfactors A2345678901234567890123456789012;model r=3;";
    assert!(rt; runs(&rt, rt.alloc(), text, 0, LISTING));
    let text = "proc factex;\nfactors A23456789012345678901234567890123";
    let message = "factex: L5 2:9 name is too long\n";
    assert!(rt; runs(&rt, rt.alloc(), text, 3, message));
}

/// Whether a text has status 0 and a listing that begins so, with so many rules.
fn begins_with<R: Threads + Sync + Abort>(
    rt: &R,
    alloc: Global,
    text: &str,
    first: &str,
    rules: usize,
) -> bool {
    let left = left_by(rt, alloc, "run", text.as_bytes(), ROOMY);
    let listing = left.listing.bytes();
    left.status == 0 && listing.starts_with(first.as_bytes()) && count(listing, b'=') == rules
}

/// Sixty-three factors of two levels, and one more.
#[test]
fn a_step_has_at_most_63_factors(rt: HostRuntime) {
    let text = "proc factex;\nfactors F1-F64;\nrun;\n";
    let message = "factex: E10 2:9 too many factors\n";
    assert!(rt; runs(&rt, rt.alloc(), text, 3, message));
    let text = "proc factex;\nfactors F1-F63;\nsize design=64;\nmodel resolution=3;\n";
    let first =
        "step 1\nfactors 63 levels 2\ndesign 64 runs\nresolution 3\nnodes 63\nrules\n  F7 = F1*F2*F3*F4*F5*F6\n";
    assert!(rt; begins_with(&rt, rt.alloc(), text, first, 57));
}

/// Forty factors of nine levels, and one more.
#[test]
fn a_step_has_at_most_40_factors_of_many_levels(rt: HostRuntime) {
    let text = "proc factex;\nfactors F1-F41 / nlev=9;\nrun;\n";
    let message = "factex: E10 2:9 too many factors\n";
    assert!(rt; runs(&rt, rt.alloc(), text, 3, message));
    let text = "proc factex;\nfactors F1-F40 / nlev=9;\nsize design=729;\nmodel resolution=3;\n";
    let first =
        "step 1\nfactors 40 levels 9\ndesign 729 runs\nresolution 3\nnodes 40\nrules\n  F4 = F1^8*F2^8*F3\n";
    assert!(rt; begins_with(&rt, rt.alloc(), text, first, 37));
}

#[test]
fn pairs_to_be_told_apart_have_a_limit(rt: HostRuntime) {
    let text =
        "proc factex;\nfactors A B C D / nlev=9;\nsize design=729;\nmodel estimate=(A*B*C*D);\n";
    let listing = "factex: E22 4:7 more than 2000000 demands\n";
    assert!(rt; runs(&rt, rt.alloc(), text, 3, listing));
}

/// The text of a hundred steps.
fn hundred_steps(rt: &impl Abort, alloc: Global) -> Bytes {
    let mut text = Bytes::new(alloc);
    for _step in 0..100 {
        put(&mut text, b"proc factex;factors A;model r=3;").expect(rt, "memory");
    }
    text
}

/// Whether a text is run, and its listing ends so.
fn ends_with<R: Threads + Sync + Abort>(rt: &R, alloc: Global, text: &[u8], end: &str) -> bool {
    let left = left_by(rt, alloc, "run", text, ROOMY);
    left.status == 0 && left.listing.bytes().ends_with(end.as_bytes())
}

#[test]
fn a_hundred_steps_are_run(rt: HostRuntime) {
    let text = hundred_steps(&rt, rt.alloc());
    let last =
        "step 100\nfactors 1 levels 2\ndesign 2 runs\nno defining words\nnodes 1\nrules\n  none\n";
    assert!(rt; ends_with(&rt, rt.alloc(), text.as_slice(), last));
}

/// A plan of as many rows as one may have: the first half of them with the low level.
#[test]
fn a_plan_has_at_most_200000_rows(rt: HostRuntime) {
    let text = "proc factex;factors A;model r=3;output out=a pointrep=100000;";
    let listing =
        "step 1\nfactors 1 levels 2\ndesign 2 runs\nno defining words\nnodes 1\nrules\n  none\noutput a.csv 200000 rows\n";
    let plan = file_of(&rt, rt.alloc(), text.as_bytes(), ROOMY, 0, listing);
    assert!(rt; plan.len() == 500002 && count(plan.as_slice(), b'\n') == 200001);
    assert!(rt; plan.as_slice().ends_with("\n1\n1\n".as_bytes()));
    let text = "proc factex;factors A;model r=3;output out=a pointrep=100001;";
    assert!(rt;
        runs(
            &rt,
            rt.alloc(),
            text,
            3,
            "factex: E21 1:44 more than 200000 rows\n"
        )
    );
}

/// Sixteen factors in sixteen runs: each node is a branch, since no row that may follow closes a prefix.
#[test]
fn a_book_of_branches_is_accepted(rt: HostRuntime) {
    let text = "proc factex;factors X1-X16;size design=16;model resolution=3;";
    let listing =
        "step 1\nfactors 16 levels 2\nno design in 16 runs\nnodes 2051\nbook step1-1.book\n";
    let book = file_of(&rt, rt.alloc(), text.as_bytes(), ROOMY, 1, listing);
    assert!(rt; book.len() == 8325 && count(book.as_slice(), b'O') == 2051);
    assert!(rt; count(book.as_slice(), b'W') == 0);
    let listing = "accepted\nsize 2 4 16 0\nresolution 3\npattern none\n";
    assert!(rt; lists(&rt, rt.alloc(), "check", book.as_slice(), ROOMY, 0, listing));
}

/// A book of 19,263 entries, more than are held as text at a time, is upgraded to itself.
#[test]
fn a_long_book_is_upgraded_in_parts(rt: HostRuntime) {
    let text = "proc factex;factors X1-X11;size design=32;model resolution=3 / minabs;";
    let listing =
        "step 1\nfactors 11 levels 2\ndesign 32 runs\nresolution 4 least aberration\nnodes 19263\nrules\n  X6 = X1*X2*X3*X4*X5\n  X7 = X3*X4*X5\n  X8 = X2*X4*X5\n  X9 = X1*X4*X5\n  X10 = X2*X3*X5\n  X11 = X1*X3*X5\nbook step1-1.book\n";
    let book = file_of(&rt, rt.alloc(), text.as_bytes(), ROOMY, 0, listing);
    let roomy = Limits {
        listing_room: 100000,
        ..ROOMY
    };
    let left = left_by(&rt, rt.alloc(), "upgrade", book.as_slice(), roomy);
    assert!(rt; left.status == 0 && left.listing.bytes() == book.as_slice());
}

/// Thirty-two factors in thirty-two runs need more nodes than a step has by default.
#[test]
fn the_default_budget_ends(rt: HostRuntime) {
    let text = "proc factex;factors X1-X32;size design=32;model resolution=3;";
    let listing = "step 1\nfactors 32 levels 2\nbudget ended after 1000000 nodes\n";
    assert!(rt; runs(&rt, rt.alloc(), text, 2, listing));
}

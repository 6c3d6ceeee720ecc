use super::*;

/// Command lines that are refused, each with the message.
const NUMBERS: [(&str, &str); 21] = [
    ("tables", "factex: C6 word 2\n"),
    ("tables 2", "factex: C6 word 3\n"),
    ("tables 2 3", "factex: C6 word 4\n"),
    ("tables 6 2 4", "factex: C4 word 2\n"),
    ("tables check", "factex: C4 word 2\n"),
    ("tables 2 0 4", "factex: C4 word 3\n"),
    ("tables 2 11 12", "factex: C4 word 3\n"),
    ("tables 2 3 0", "factex: C4 word 4\n"),
    ("tables 2 3 64", "factex: C4 word 4\n"),
    ("tables 4 2 41", "factex: C4 word 4\n"),
    ("tables 2 3 4 5", "factex: C3 word 5\n"),
    ("tables 2 3 4 --order", "factex: C3 word 5\n"),
    ("tables 2 3 4 --threads=2", "factex: C3 word 5\n"),
    ("tables 2 3 4 --nodes=0", "factex: C4 word 5\n"),
    ("tables 2 3 4 --nodes=5000001", "factex: C4 word 5\n"),
    ("tables 2 3 4 --nodes=1 --nodes=0", "factex: C5 word 6\n"),
    ("tables 2 3 4 --order=ff", "factex: C4 word 5\n"),
    ("tables 2 3 4 --order=", "factex: C4 word 5\n"),
    ("tables 2 3 4 --order=FFF", "factex: C4 word 5\n"),
    ("tables 2 3 4 --order=FF --order=W1", "factex: C5 word 6\n"),
    ("Tables 2 3 4", "factex: C2 word 1\n"),
];

#[test]
fn words_of_tables_are_refused(rt: HostRuntime) {
    for (line, message) in rows_of(&NUMBERS) {
        is_refused(&rt, rt.alloc(), line, message);
    }
}

/// Tests that a line is refused.
fn is_refused<R: Threads + Sync + Abort>(rt: &R, alloc: Global, line: &str, message: &str) {
    let left = left_by(rt, alloc, line, b"", WIDE);
    assert!(rt;
        left.status == 3 && left.listing.bytes() == message.as_bytes(),
        "{line}"
    );
    assert!(rt; left.shelf.files() == 0, "{line}");
}

/// Lines with groups of runs that are refused.
const GROUPS: [(&str, &str); 21] = [
    ("tables 2 3 4 --blocks=1", "factex: C4 word 5\n"),
    ("tables 2 3 4 --blocks=3", "factex: C4 word 5\n"),
    ("tables 2 3 4 --blocks=8", "factex: C4 word 5\n"),
    ("tables 3 2 4 --blocks=9", "factex: C4 word 5\n"),
    ("tables 2 1 4 --blocks=2", "factex: C4 word 5\n"),
    (
        "tables 2 3 4 --whole-plots=1 --inside=1",
        "factex: C4 word 5\n",
    ),
    (
        "tables 2 3 4 --whole-plots=8 --inside=3",
        "factex: C4 word 5\n",
    ),
    ("tables 2 3 4 --blocks=2 --blocks=4", "factex: C5 word 6\n"),
    (
        "tables 2 3 4 --blocks=2 --whole-plots=2",
        "factex: C5 word 6\n",
    ),
    (
        "tables 2 3 4 --whole-plots=2 --blocks=2",
        "factex: C5 word 6\n",
    ),
    ("tables 2 3 4 --inside=1 --inside=1", "factex: C5 word 6\n"),
    ("tables 2 3 4 --inside=0", "factex: C4 word 5\n"),
    ("tables 2 3 4 --inside=64", "factex: C4 word 5\n"),
    ("tables 2 3 4 --whole-plots=2", "factex: C6 word 6\n"),
    (
        "tables 2 3 4 --nodes=9 --whole-plots=2",
        "factex: C6 word 7\n",
    ),
    ("tables 2 3 4 --inside=63", "factex: C6 word 6\n"),
    ("tables 2 3 4 --blocks=2 --inside=1", "factex: C6 word 7\n"),
    (
        "tables 2 4 4 --whole-plots=4 --inside=1",
        "factex: C4 word 6\n",
    ),
    (
        "tables 2 4 4 --whole-plots=4 --inside=4",
        "factex: C4 word 6\n",
    ),
    (
        "tables 2 4 4 --inside=4 --order=FF --whole-plots=4",
        "factex: C4 word 5\n",
    ),
    (
        "tables 3 3 5 --whole-plots=9 --inside=5",
        "factex: C4 word 6\n",
    ),
];

#[test]
fn groups_of_tables_are_refused(rt: HostRuntime) {
    for (line, message) in rows_of(&GROUPS) {
        is_refused(&rt, rt.alloc(), line, message);
    }
}

/// Lines whose last line of a table would be before the first, or beyond the limits. Other faults come before.
const ENDS: [(&str, &str); 10] = [
    ("tables 2 3 3", "factex: C4 word 4\n"),
    ("tables 2 3 1 --blocks=2", "factex: C4 word 4\n"),
    (
        "tables 2 4 1 --whole-plots=4 --inside=2",
        "factex: C4 word 4\n",
    ),
    (
        "tables 2 3 63 --whole-plots=2 --inside=1",
        "factex: C4 word 4\n",
    ),
    (
        "tables 4 2 40 --whole-plots=4 --inside=1",
        "factex: C4 word 4\n",
    ),
    ("tables 9 2 38", "factex: C4 word 4\n"),
    (
        "tables 9 2 37 --whole-plots=9 --inside=1",
        "factex: C4 word 4\n",
    ),
    ("tables 2 3 3 --threads=2", "factex: C3 word 5\n"),
    ("tables 2 3 3 --nodes=0", "factex: C4 word 5\n"),
    (
        "tables 2 4 1 --whole-plots=4 --inside=4",
        "factex: C4 word 6\n",
    ),
];

#[test]
fn ends_of_tables_are_refused(rt: HostRuntime) {
    for (line, message) in rows_of(&ENDS) {
        is_refused(&rt, rt.alloc(), line, message);
    }
}

/// Lines at the other sides of the limits.
const ALLOWED: [&str; 16] = [
    "tables 2 3 4 --nodes=1",
    "tables 2 2 3 --nodes=5000000",
    "tables 2 10 11 --nodes=1",
    "tables 2 3 63",
    "tables 2 3 2 --blocks=2",
    "tables 2 3 63 --blocks=4",
    "tables 2 10 2 --blocks=512",
    "tables 3 2 3 --blocks=3",
    "tables 4 2 40",
    "tables 4 2 39 --whole-plots=4 --inside=1",
    "tables 9 2 37",
    "tables 9 2 36 --whole-plots=9 --inside=1",
    "tables 2 3 62 --whole-plots=2 --inside=1",
    "tables 2 4 2 --whole-plots=4 --inside=2",
    "tables 2 4 2 --whole-plots=4 --inside=3",
    "tables 3 3 1 --whole-plots=9 --inside=4",
];

#[test]
fn words_of_tables_are_allowed(rt: HostRuntime) {
    for line in rows_of(&ALLOWED) {
        let left = left_by(&rt, rt.alloc(), line, b"", WIDE);
        assert!(rt; left.status < 3, "{line}");
        assert!(rt;
            left.listing
                .bytes()
                .starts_with(b"table levels ".as_slice()),
            "{line}"
        );
    }
}

//! Which effects and listings of components are refused, and which accepted.
use crate::rows_of;
use crate::statements::{are_accepted, are_refused, refusal, text_of};
use fx_base::{Bytes, put, put_number};
use std::alloc::Global;
use std::process::Abort;

/// Effects are refused at their names and numbers.
const NAMES_AND_NUMBERS: [(&str, u8, u32, u32); 8] = [
    ("size design=4; model estimate=(A B Z);", 4, 2, 36),
    ("model e=(A) n=(B Z@1);", 4, 2, 18),
    ("model e=(A X2-X1);", 30, 2, 12),
    ("model e=(A) nonneg=(B-A);", 30, 2, 21),
    ("model e=(A*B|C*A@1);", 29, 2, 18),
    ("model e=(A) n=(B@0);", 29, 2, 18),
    ("model estimate=(A) / minabs;", 12, 2, 22),
    ("model e=(A) n=(B)/minabs;", 12, 2, 19),
];

/// Too many effects are refused at their words.
const TOO_MANY: [(&str, u8, u32, u32); 3] = [
    (
        "model e=(X1|X2|X3|X4|X5|X6|X7|X8|X9|X10|X11|X12|X13|X14|X15|X16|X17);",
        23,
        2,
        7,
    ),
    (
        "model e=(X1) n=(X1|X2|X3|X4|X5|X6|X7|X8|X9|X10|X11|X12|X13|X14|X15|X16|X17);",
        23,
        2,
        14,
    ),
    ("model e=(X1|X2|X3|X4|X5|X6|X7|X8|X9|X10|X11);", 22, 2, 7),
];

/// Those within the limits are accepted.
const NOT_TOO_MANY: [&str; 2] = [
    "model e=(X1|X2|X3|X4|X5|X6|X7|X8|X9|X10);",
    "model e=(X1) n=(X1|X2|X3|X4|X5|X6|X7|X8|X9|X10|X11|X12|X13|X14|X15|X16);",
];

/// Appends `X1|X2|..` with so many factors.
fn put_bars(rt: &impl Abort, out: &mut Bytes, count: u8) {
    for i in 1..=count {
        let front = if i > 1 { "|X" } else { "X" };
        put(out, front.as_bytes()).expect(rt, "memory");
        put_number(out, u128::from(i)).expect(rt, "memory");
    }
}

/// Appends a list of effects: its front, the bars of so many factors and the rest.
fn put_list(rt: &impl Abort, out: &mut Bytes, front: &str, (count, rest): (u8, &str)) {
    put(out, front.as_bytes()).expect(rt, "memory");
    put_bars(rt, out, count);
    put(out, rest.as_bytes()).expect(rt, "memory");
}

/// Effects of 40 factors: numbers of factors with what follows their bars, in both lists, and what they are
/// refused for. There are 2,031,554 pairs, and 1,834,952; 101,583 effects, and 92,170. Unknown names in the
/// second list are reported before too many effects in the first.
const BARS: [((u8, &str), (u8, &str), Option<(u8, u32, u32)>); 5] = [
    ((6, "@5)"), (15, ");"), Some((22, 2, 1))),
    ((6, "@4)"), (15, ");"), None),
    ((1, ")"), (27, "@5);"), Some((23, 2, 7))),
    ((1, ")"), (39, "@4);"), None),
    ((17, ")"), (2, " Z);"), Some((4, 2, 72))),
];

/// What effects of 40 factors are refused for.
fn bars_refusal(
    rt: &impl Abort,
    alloc: Global,
    first: (u8, &str),
    second: (u8, &str),
) -> Option<(u8, u32, u32)> {
    let front = "proc factex;factors X1-X40;size design=4;model\n";
    let mut text = text_of(rt, alloc, front, "");
    put_list(rt, &mut text, "e=(", first);
    put_list(rt, &mut text, "n=(", second);
    refusal(rt, alloc, text.as_slice())
}

#[test]
fn limits_of_effects_and_pairs_are_exact_to_a_factor(rt: HostRuntime) {
    for (first, second, wanted) in rows_of(&BARS) {
        assert!(rt; bars_refusal(&rt, rt.alloc(), *first, *second) == *wanted);
    }
}

/// 100,000 effects in the second list, and one more.
#[test]
fn the_limit_of_effects_is_exact(rt: HostRuntime) {
    const FRONT: &str =
        "proc factex;factors X1-X40;size design=4;\nmodel e=(X1*X18) n=(X1|X2|X3|X4|X5|X6|X7|X8|X9|X10|X11|X12|X13|X14|X15|X16 X17|X18|X19|X20|X21|X22|X23|X24|X25|X26|X27|X28|X29|X30|X31 X32|X33|X34|X35|X36|X37|X38|X39|X40 X1|X2|X3|X4|X5|X32|X33|X34|X35|X36 X17|X18|X19|X20|X37|X38|X39|X40 X1*X17";
    are_accepted(&rt, rt.alloc(), FRONT, &[");"]);
    are_refused(&rt, rt.alloc(), FRONT, &[(" X2*X17);", 23, 2, 18)]);
}

/// 1,000 vectors to be told from 2,000, and from 2,002.
#[test]
fn the_limit_of_pairs_is_exact(rt: HostRuntime) {
    let front = "proc factex;factors X1-X10/nlev=3;size design=9;\n";
    const TEXTS: [&str; 1] = [
        "model e=(X1*X2*X3 X1*X2*X3*X4*X5 X1*X2*X3*X4*X5*X6 X1*X2*X3*X4*X5*X6*X7 X1*X2*X3*X4*X5*X6*X7*X8 X1*X2*X3*X4*X5*X6*X7*X8*X9) n=(X2*X3*X4 X2*X3*X4*X5*X6 X2*X3*X4*X5*X6*X7 X2*X3*X4*X5*X6*X7*X8 X2*X3*X4*X5*X6*X7*X8*X9 X2*X3*X4*X5*X6*X7*X8*X9*X10);",
    ];
    are_accepted(&rt, rt.alloc(), front, &TEXTS);
    const CASES: [(&str, u8, u32, u32); 1] = [(
        "model e=(X1*X2*X3 X1*X2*X3*X4*X5 X1*X2*X3*X4*X5*X6 X1*X2*X3*X4*X5*X6*X7 X1*X2*X3*X4*X5*X6*X7*X8 X1*X2*X3*X4*X5*X6*X7*X8*X9) n=(X1 X2*X3*X4 X2*X3*X4*X5*X6 X2*X3*X4*X5*X6*X7 X2*X3*X4*X5*X6*X7*X8 X2*X3*X4*X5*X6*X7*X8*X9 X2*X3*X4*X5*X6*X7*X8*X9*X10);",
        22,
        2,
        7,
    )];
    are_refused(&rt, rt.alloc(), front, &CASES);
}

/// Long listings are refused at their first word.
const LONG_LISTINGS: [(&str, u8, u32, u32); 5] = [
    (
        "proc factex;factors X1-X40;size design=4;\nmodel e=(X1*X2*X3*X4);examine aliasing;",
        23,
        2,
        31,
    ),
    (
        "proc factex;factors X1-X35/nlev=5;size design=25;\nmodel e=(X1) n=(X1*X2*X3);examine design blocked aliasing;",
        23,
        2,
        42,
    ),
    (
        "proc factex;factors X1-X22/nlev=9;size design=81;examine design;\nmodel e=(X1*X2*X3);run;examine blocked;examine aliasing;",
        23,
        2,
        32,
    ),
    (
        "proc factex;factors X1-X27;size design=4;model e=(X1-X27 X1|X2|X3*X4*X5);\noutput out=a pointrep=0;examine aliasing;",
        23,
        2,
        33,
    ),
    (
        "proc factex;factors X1-X27;size design=4;model e=(X1*X2*X3*X4*X5);\nexamine aliasing;blocks nblocks=8;",
        16,
        2,
        33,
    ),
];

/// Listings within the limit are accepted.
const LISTINGS_WITHIN_THE_LIMIT: [&str; 6] = [
    "factors X1-X39;size design=4;model e=(X1*X2*X3*X4);examine aliasing blocked;",
    "factors X1-X34/nlev=5;size design=25;model e=(X1) n=(X1*X2*X3);examine aliasing;",
    "factors X1-X12/nlev=3;size design=9;model e=(X1*X2*X3*X4*X5*X6*X7);examine blocked;",
    "factors X1-X40;size design=4;model e=(X1*X2*X3*X4*X5);examine design aberration;",
    "factors X1-X40/nlev=9;size design=9;model r=3;examine aliasing;",
    "factors X1-X40/nlev=9;size design=9;model e=(X1-X40);examine blocked;",
];

#[test]
fn effects_are_judged(rt: HostRuntime) {
    let alloc = rt.alloc();
    are_refused(
        &rt,
        alloc,
        "proc factex;factors A B C;\n",
        &NAMES_AND_NUMBERS,
    );
    are_refused(
        &rt,
        alloc,
        "proc factex;factors X1-X17;size design=4;\n",
        &TOO_MANY,
    );
    are_accepted(
        &rt,
        alloc,
        "proc factex;factors X1-X17;size design=4;\n",
        &NOT_TOO_MANY,
    );
    are_refused(&rt, alloc, "", &LONG_LISTINGS);
    are_accepted(&rt, alloc, "proc factex;", &LISTINGS_WITHIN_THE_LIMIT);
}

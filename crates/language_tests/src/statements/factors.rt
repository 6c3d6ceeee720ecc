//! Which factors are refused, and which accepted.
use crate::statements::{are_accepted, are_refused};

/// Factors are refused at their items.
const REFUSED: [(&str, u8, u32, u32); 17] = [
    ("factors X1-X3 X2;", 5, 2, 15),
    ("factors A b a;", 5, 2, 13),
    ("factors X2 x1-x3;", 5, 2, 12),
    ("factors X2-Y5;", 30, 2, 9),
    ("factors X5-X2;", 30, 2, 9),
    ("factors X01-X3;", 30, 2, 9),
    ("factors X1-X03;", 30, 2, 9),
    ("factors X00-X1;", 30, 2, 9),
    ("factors X-X3;", 30, 2, 9),
    ("factors A X1-X;", 30, 2, 11),
    ("factors X1-X64;", 10, 2, 9),
    ("factors X1-X64/nlev=3;", 10, 2, 9),
    ("factors X1-X41/nlev=4;", 10, 2, 9),
    ("factors X1-X63 Y;", 10, 2, 16),
    ("factors Y X1-X63 Z;", 10, 2, 11),
    ("factors X1-X30 Y;blocks nblkfacs=1;", 10, 2, 16),
    ("blocks nblkfacs=1;factors X1-X31;", 10, 2, 27),
];

/// A step without factors is refused at proc.
const WITHOUT_FACTORS: [(&str, u8, u32, u32); 4] = [
    ("proc factex;\nrun;", 7, 1, 1),
    ("proc factex;\noutput out=a;", 7, 1, 1),
    (
        "proc factex;factors A;\nquit; proc factex;size design=8;",
        7,
        2,
        7,
    ),
    ("\n proc factex;\nproc factex;factors A;", 7, 2, 2),
];

/// Factors within the limits are accepted.
const WITHIN_THE_LIMITS: [&str; 13] = [
    "factors X1-X63;size design=8;",
    "factors X1-X63/nlev=3;size design=9;",
    "factors Y X2-X40/nlev=4;size design=4;",
    "factors X1-X30;model r=3;size design=8;blocks nblkfacs=1;",
    "factors X0-X2 x3-X3 X9-X11 X01 _9-_10;size design=8;",
    "factors size a1b2-A1B3 nlev;",
    "factors X1-X10;",
    "factors X1-X6 / nlev=3;",
    "factors X1-X5 / nlev=4;",
    "factors A / nlev=5;",
    "factors A / nlev=7;",
    "factors A / nlev=8;",
    "factors A1-A3 / nlev=9;",
];

#[test]
fn factors_are_judged(rt: HostRuntime) {
    let alloc = rt.alloc();
    are_refused(&rt, alloc, "proc factex;\n", &REFUSED);
    are_refused(&rt, alloc, "", &WITHOUT_FACTORS);
    are_accepted(&rt, alloc, "proc factex;\n", &WITHIN_THE_LIMITS);
}

//! Which settings and blocks are refused, and which accepted.
use crate::statements::{are_accepted, are_refused};

/// What comes before the other statements of a step.
const FOUR_FACTORS: &str = "proc factex;factors A B C D;\n";

/// Levels and budgets are refused at their numbers.
const LEVELS_AND_BUDGETS: [(&str, u8, u32, u32); 8] = [
    ("proc factex;\nfactors A B / nlev=6;\nrun;", 6, 2, 20),
    ("proc factex;factors A / nlev=0;", 6, 1, 30),
    ("proc factex;factors A / nlev=1;", 6, 1, 30),
    ("proc factex;factors A / nlev=10;", 6, 1, 30),
    ("proc factex;factors A / nlev=258;", 6, 1, 30),
    ("proc factex nodes=0;\nfactors A;", 29, 1, 19),
    ("proc factex nodes=5000001;factors A;", 29, 1, 19),
    (
        "proc factex nodes=18446744073709551617;factors A;",
        29,
        1,
        19,
    ),
];

/// Sizes are refused at their numbers.
const SIZES: [(&str, u8, u32, u32); 10] = [
    ("size design=12;", 8, 2, 13),
    ("size design=1;", 8, 2, 13),
    ("size design=0;", 8, 2, 13),
    ("size fraction=3;", 8, 2, 15),
    ("size fraction=16;", 8, 2, 15),
    ("size fraction=0;", 8, 2, 15),
    ("size nrunfacs=0;", 8, 2, 15),
    ("size design=2048;", 9, 2, 13),
    ("size nrunfacs=11;", 9, 2, 15),
    ("size design=1024;model r=3;blocks nblkfacs=11;", 16, 2, 44),
];

/// More than 1024 runs are refused.
const MORE_THAN_1024_RUNS: [(&str, u8, u32, u32); 5] = [
    ("proc factex;\nfactors X1-X11;", 9, 2, 1),
    ("proc factex;\nfactors X1-X7 / nlev=3;", 9, 2, 1),
    ("proc factex;\nfactors X1-X12;size fraction=2;", 9, 2, 30),
    (
        "proc factex;\nfactors X1-X3/nlev=3;size design=2187;",
        9,
        2,
        34,
    ),
    (
        "proc factex;\nfactors X1-X3/nlev=9;size nrunfacs=4;",
        9,
        2,
        36,
    ),
];

/// Resolutions are refused at their numbers.
const RESOLUTIONS: [(&str, u8, u32, u32); 4] = [
    ("model resolution=2;", 11, 2, 18),
    ("model res=0/minabs;", 11, 2, 11),
    ("model r=100;", 11, 2, 9),
    ("model r=259;", 11, 2, 9),
];

/// What cannot stand together is refused.
const CANNOT_STAND_TOGETHER: [(&str, u8, u32, u32); 12] = [
    ("blocks nblkfacs=max;", 13, 2, 1),
    ("model r=max;blocks nblocks=max;", 13, 2, 13),
    ("model r=max;blocks size=min;", 13, 2, 13),
    ("model r=4/minabs;blocks size=2;", 13, 2, 18),
    ("blocks nblkfacs=max;model r=max / minabs;", 13, 2, 1),
    ("size design=min;", 14, 2, 13),
    ("size design=min;blocks nblkfacs=1;", 14, 2, 13),
    ("size fraction=max;model r=max;", 14, 2, 15),
    ("size nrunfacs=minimum;model r=3/minabs;", 14, 2, 15),
    ("size design=min;model r=3;blocks nblkfacs=max;", 14, 2, 13),
    ("size design=min;model r=3;blocks nblocks=max;", 14, 2, 13),
    ("size design=min;model r=3;blocks size=min;", 14, 2, 13),
];

/// Blocks are refused at their numbers.
const BLOCKS: [(&str, u8, u32, u32); 9] = [
    ("blocks nblkfacs=0;", 15, 2, 17),
    ("blocks nblocks=3;", 15, 2, 16),
    ("blocks nblocks=1;", 15, 2, 16),
    ("blocks nblocks=0;", 15, 2, 16),
    ("blocks size=3;", 15, 2, 13),
    ("blocks size=8;", 15, 2, 13),
    ("blocks nblkfacs=4;", 16, 2, 17),
    ("blocks nblkfacs=257;", 16, 2, 17),
    ("blocks nblocks=16;", 16, 2, 16),
];

/// Blocks of a least size are refused at their numbers.
const BLOCKS_OF_A_LEAST_SIZE: [(&str, u8, u32, u32); 5] = [
    ("blocks nblkfacs=0;", 15, 2, 17),
    ("blocks nblocks=6;", 15, 2, 16),
    ("blocks size=1024;", 15, 2, 13),
    ("blocks nblkfacs=11;", 16, 2, 17),
    ("blocks nblocks=2048;", 16, 2, 16),
];

/// Settings within the limits are accepted.
const WITHIN_THE_LIMITS: [&str; 20] = [
    "size design=2;",
    "size design=01024;",
    "size fraction=1;",
    "size fraction=8;",
    "size nrunfacs=1;",
    "size nrunfacs=10;",
    "model r=3;",
    "model r=99;",
    "model r=max / minabs;",
    "size design=8;model r=3;blocks nblkfacs=3;",
    "size design=1024;model r=3;blocks nblkfacs=10;",
    "blocks nblkfacs=1;",
    "model r=max;blocks nblocks=2;",
    "model r=max;blocks size=2;",
    "size design=8;model r=3;blocks nblocks=8;",
    "size design=8;model r=3;blocks size=1;",
    "size design=8;model r=3;blocks size=4;",
    "size design=min;model r=3;blocks nblkfacs=10;",
    "size design=min;model r=3;blocks nblocks=1024;",
    "size design=min;model r=3;blocks size=512;",
];

/// Budgets within the limits are accepted.
const BUDGETS_WITHIN_THE_LIMITS: [&str; 4] = [
    "proc factex nodes=1;factors A;",
    "proc factex nodes=5000000;factors A;",
    "",
    " ;run;quit; /* ; */ * no step;",
];

#[test]
fn settings_and_blocks_are_judged(rt: HostRuntime) {
    let alloc = rt.alloc();
    are_refused(&rt, alloc, "", &LEVELS_AND_BUDGETS);
    are_refused(&rt, alloc, FOUR_FACTORS, &SIZES);
    are_refused(&rt, alloc, "", &MORE_THAN_1024_RUNS);
    are_refused(&rt, alloc, FOUR_FACTORS, &RESOLUTIONS);
    are_refused(&rt, alloc, FOUR_FACTORS, &CANNOT_STAND_TOGETHER);
    are_refused(
        &rt,
        alloc,
        "proc factex;factors A B C D;size design=8;model r=3;\n",
        &BLOCKS,
    );
    are_refused(
        &rt,
        alloc,
        "proc factex;factors A B C D;size design=min;model r=3;\n",
        &BLOCKS_OF_A_LEAST_SIZE,
    );
    are_accepted(&rt, alloc, FOUR_FACTORS, &WITHIN_THE_LIMITS);
    are_accepted(&rt, alloc, "", &BUDGETS_WITHIN_THE_LIMITS);
}

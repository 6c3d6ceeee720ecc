//! Which outputs are refused, and which accepted.
use crate::statements::{are_accepted, are_refused};

/// Plans are refused.
const REFUSED: [(&str, u8, u32, u32); 20] = [
    ("output out=a;output out=A;", 18, 2, 25),
    ("output out=a pointrep=0;", 20, 2, 23),
    ("output out=a designrep=200001;", 20, 2, 24),
    ("output out=a pointrep=200000;", 21, 2, 12),
    ("output out=a pointrep=2 designrep=6251;", 21, 2, 12),
    ("output out=a randomize(18446744073709551616);", 19, 2, 24),
    ("output out=a blockname=day;", 31, 2, 14),
    ("output out=a A nvals=(1 2 3);", 17, 2, 16),
    ("output out=a a cvals=('x');", 17, 2, 16),
    ("output out=a A cvals=('x' 'y') Z nvals=(1 2);", 4, 2, 32),
    ("output out=a A cvals=('x' 'y') a nvals=(1 2);", 28, 2, 32),
    ("output out=a[]=D;", 2, 2, 14),
    ("output out=a[A]=D;", 35, 2, 13),
    ("output out=a[A B C D E]=F;", 35, 2, 13),
    ("output out=a[A Z]=D;", 4, 2, 16),
    ("output out=a[A a]=D;", 28, 2, 16),
    ("output out=a[A B]=D A nvals=(1 2);", 28, 2, 21),
    ("output out=a[A B]=D nvals=(1 2);", 17, 2, 21),
    ("output out=a[A B]=c;", 34, 2, 19),
    (
        "size design=min;model r=3;output out=a pointrep=196;",
        21,
        2,
        38,
    ),
];

/// Columns of blocks are refused.
const COLUMNS_OF_BLOCKS: [(&str, u8, u32, u32); 4] = [
    ("blocks nblkfacs=1;output out=a blockname=a;", 5, 2, 42),
    ("blocks nblkfacs=1;output out=a;", 5, 2, 19),
    (
        "blocks nblkfacs=2;output out=a blockname=b nvals=(1 2);",
        17,
        2,
        44,
    ),
    (
        "blocks nblkfacs=max;output out=a blockname=b cvals=('x' 'y');",
        17,
        2,
        46,
    ),
];

/// An out name is refused in a later step.
const LATER_STEP: [(&str, u8, u32, u32); 2] = [
    (
        "proc factex;factors A;output out=Plan;\nproc factex;factors B;output out=plan;",
        18,
        2,
        34,
    ),
    (
        "proc factex;factors A;output out=a;quit;\nproc factex;factors A;run;output out=b;output out=a;",
        18,
        2,
        51,
    ),
];

/// Three factors of nine levels have 729 levels together.
const MANY_LEVELS: [(&str, u8, u32, u32); 1] = [("output out=a[A B C]=D;", 35, 2, 13)];

/// A step whose plan may be named, and one that names plans.
const TWO_STEPS: &str = "proc factex;factors N M;size design=2;output out=outer;\
    proc factex;factors A B;size design=4;\n";

/// What is wrong with a named plan.
const NAMED_PLANS: [(&str, u8, u32, u32); 11] = [
    ("output out=four [A B]=D designrep=none;", 33, 2, 35),
    ("output out=b pointrep=b;", 33, 2, 23),
    ("output out=b designrep=c;output out=c;", 33, 2, 24),
    ("output out=b designrep=d pointrep=c;", 33, 2, 35),
    ("output out=b designrep=outer pointrep=25001;", 21, 2, 12),
    (
        "output out=b pointrep=OUTER;output out=c pointrep=b designrep=6251;",
        21,
        2,
        40,
    ),
    (
        "output out=b pointrep=outer;output out=c pointrep=b;",
        34,
        2,
        51,
    ),
    (
        "output out=b pointrep=outer;\nproc factex;factors C N;output out=c designrep=b;",
        34,
        3,
        48,
    ),
    ("output out=b designrep=outer pointrep=outer;", 34, 2, 39),
    ("output out=b pointrep=outer[A B]=n;", 34, 2, 34),
    (
        "blocks nblkfacs=1;output out=x;\nproc factex;factors C D;size design=4;blocks nblkfacs=1;output out=y designrep=x;",
        34,
        3,
        80,
    ),
];

/// Named plans are accepted.
const KNOWN_PLANS: [&str; 5] = [
    "output out=b pointrep=OUTER;",
    "output out=b designrep=outer pointrep=25000;",
    "output out=pointrep pointrep=outer[A B]=D;output out=c;",
    "output out=b designrep=outer;\nproc factex;factors C D;output out=c pointrep=b;",
    "blocks nblkfacs=1;output out=x;\nproc factex;factors C D;size design=4;blocks nblkfacs=1;output out=y blockname=day designrep=x;",
];

/// Plans within the limits are accepted.
const WITHIN_THE_LIMITS: [&str; 7] = [
    "output out=a pointrep=50000;",
    "output out=a pointrep=2 designrep=25000;",
    "output out=a novalran randomize(18446744073709551615);",
    "output out=a A nvals=(1 2);",
    "size design=min;model r=3;output out=a pointrep=195;",
    "model r=3;blocks nblkfacs=2;output out=a blockname=day nvals=(1 2 -3 .5);",
    "model r=3;blocks nblkfacs=max;output out=a blockname=day;",
];

#[test]
fn plans_are_judged(rt: HostRuntime) {
    let alloc = rt.alloc();
    are_refused(&rt, alloc, "proc factex;factors A B C D;\n", &REFUSED);
    are_refused(
        &rt,
        alloc,
        "proc factex;factors A Block;size design=4;model r=3;\n",
        &COLUMNS_OF_BLOCKS,
    );
    are_refused(&rt, alloc, "", &LATER_STEP);
    are_refused(
        &rt,
        alloc,
        "proc factex;factors A B C / nlev=9;size design=81;\n",
        &MANY_LEVELS,
    );
    are_refused(&rt, alloc, TWO_STEPS, &NAMED_PLANS);
    are_accepted(&rt, alloc, TWO_STEPS, &KNOWN_PLANS);
    are_accepted(
        &rt,
        alloc,
        "proc factex;factors A Block;\n",
        &WITHIN_THE_LIMITS,
    );
}

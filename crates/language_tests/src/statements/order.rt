//! What is judged first where several things are wrong.
use crate::statements::are_refused;

/// The grammar is judged before the meaning.
const GRAMMAR_BEFORE_MEANING: [(&str, u8, u32, u32); 3] = [
    ("proc factex nodes=0;factors A A;\ntitle x;", 1, 2, 1),
    (
        "proc factex;proc factex;factors A;size design=3;size design=2;",
        26,
        1,
        49,
    ),
    ("proc factex;factors A;model e=(A)/;", 2, 1, 35),
];

/// An earlier step is judged first.
const EARLIER_STEP: [(&str, u8, u32, u32); 2] = [
    ("proc factex;factors A A;\nproc factex;", 5, 1, 23),
    (
        "proc factex;factors A;output out=a pointrep=0;proc factex;factors B B;",
        20,
        1,
        45,
    ),
];

/// The meaning of a step is judged in its order.
const MEANING: [(&str, u8, u32, u32); 23] = [
    ("proc factex nodes=0;size design=3;", 7, 1, 1),
    ("proc factex;factors A A X2-X1;", 5, 1, 23),
    ("proc factex;factors A X2-X1 A;", 30, 1, 23),
    ("proc factex;factors X1-X63 X1;", 10, 1, 28),
    ("proc factex;factors X1-X63 X2-X1;", 30, 1, 28),
    ("proc factex;factors A A / nlev=6;", 5, 1, 23),
    ("proc factex nodes=0;factors A / nlev=6;", 6, 1, 38),
    ("proc factex nodes=0;size design=3;factors A;", 29, 1, 19),
    ("proc factex;factors A;model r=2;size design=3;", 8, 1, 45),
    (
        "proc factex;model r=2;size design=2048;factors A;",
        9,
        1,
        35,
    ),
    (
        "proc factex;factors A;blocks nblkfacs=0;model r=2/minabs;",
        11,
        1,
        49,
    ),
    (
        "proc factex;factors A;blocks nblkfacs=max;size design=min;model r=max;",
        13,
        1,
        23,
    ),
    (
        "proc factex;factors A;model r=3/minabs;blocks nblkfacs=0;",
        13,
        1,
        40,
    ),
    (
        "proc factex;factors A;size design=min;model r=3;blocks nblkfacs=max;output out=a pointrep=0;",
        14,
        1,
        35,
    ),
    (
        "proc factex;output out=a pointrep=0;factors A;model r=3;blocks nblkfacs=0;",
        15,
        1,
        73,
    ),
    (
        "proc factex;output out=a pointrep=0;factors A;model r=3;blocks nblkfacs=2;",
        16,
        1,
        73,
    ),
    (
        "proc factex;factors A;model e=(A)/minabs;size design=2048;",
        9,
        1,
        54,
    ),
    (
        "proc factex;factors A;blocks nblkfacs=1;model e=(A)/minabs;",
        12,
        1,
        53,
    ),
    (
        "proc factex;factors A;size design=min;model e=(A) / minabs;",
        12,
        1,
        53,
    ),
    (
        "proc factex;factors A;model e=(Z);blocks nblkfacs=max;size design=min;",
        14,
        1,
        67,
    ),
    (
        "proc factex;factors A;blocks nblkfacs=0;model e=(Z);",
        4,
        1,
        50,
    ),
    (
        "proc factex;factors A B C D E F G/nlev=3;blocks nblkfacs=0;model e=(A|B|C|D|E|F|G);size design=27;",
        22,
        1,
        66,
    ),
    (
        "proc factex;factors A;output out=a pointrep=0;model e=(A) n=(B);",
        4,
        1,
        62,
    ),
];

/// A plan is judged in its order.
const PLANS: [(&str, u8, u32, u32); 11] = [
    ("output out=a designrep=0 pointrep=0;", 18, 2, 12),
    ("output out=b designrep=0 pointrep=0;", 20, 2, 35),
    ("output out=b pointrep=200000 designrep=0;", 20, 2, 40),
    ("output out=b designrep=c pointrep=0;", 20, 2, 35),
    ("output out=b designrep=c pointrep=200000;", 33, 2, 24),
    ("output out=b[A]=D pointrep=a;", 35, 2, 13),
    (
        "output out=b pointrep=200000 randomize(18446744073709551616);",
        21,
        2,
        12,
    ),
    (
        "output out=b blockname=A randomize(18446744073709551616);",
        19,
        2,
        36,
    ),
    ("output out=b Z nvals=(1) blockname=A;", 31, 2, 26),
    ("output out=b A nvals=(1) Z nvals=(1);", 17, 2, 16),
    ("output out=b pointrep=0;output out=a;", 20, 2, 23),
];

#[test]
fn what_comes_first_is_refused_first(rt: HostRuntime) {
    let alloc = rt.alloc();
    are_refused(&rt, alloc, "", &GRAMMAR_BEFORE_MEANING);
    are_refused(&rt, alloc, "", &EARLIER_STEP);
    are_refused(&rt, alloc, "", &MEANING);
    are_refused(&rt, alloc, "proc factex;factors A;output out=a;\n", &PLANS);
}

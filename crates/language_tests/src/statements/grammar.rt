//! What the grammar and the rules on repeated words refuse.
use crate::statements::{are_refused, read, refusal};
use fx_base::{Bytes, put};
use std::alloc::Global;
use std::process::Abort;

/// Words and signs are refused by the grammar.
const WORDS_AND_SIGNS: [(&str, u8, u32, u32); 18] = [
    ("title x;", 1, 1, 1),
    ("proc means;", 1, 1, 6),
    ("proc factex;\ntitle x;", 1, 2, 1),
    ("proc factex;\nfactors A", 2, 2, 10),
    ("proc factex;\n/**/ factors ;", 2, 2, 14),
    ("proc factex;\nfactors A / levels=2;", 3, 2, 13),
    ("proc factex;\nsize runs=8;", 3, 2, 6),
    ("proc factex;\nsize design=maximum;", 2, 2, 13),
    ("proc factex time=60;\nfactors A B;\nrun;", 24, 1, 13),
    ("proc factex nocheck;", 24, 1, 13),
    ("proc factex namelen=8;", 24, 1, 13),
    ("proc factex;\nuniteffect A;", 24, 2, 1),
    ("proc factex;\nmodel r=3/minabs(3);", 24, 2, 17),
    ("proc factex;\nexamine aliasing(2);", 24, 2, 17),
    ("proc factex;\nexamine aberration(2);", 24, 2, 19),
    ("proc factex;\noutput out=a pointrep=;", 2, 2, 23),
    ("proc factex;\noutput out=a designrep=.5;", 2, 2, 24),
    ("proc factex;\noutput out=a [A];", 2, 2, 17),
];

/// What stands twice or too late is refused.
const TWICE_OR_TOO_LATE: [(&str, u8, u32, u32); 11] = [
    (
        "proc factex;\nfactors A B C;\nsize design=8;\nsize design=8;",
        26,
        4,
        1,
    ),
    ("proc factex;factors A;\nFactors B;", 26, 2, 1),
    ("proc factex;factors A;\nmodel r=3;model r=3;", 26, 2, 11),
    (
        "proc factex;factors A;\nblocks nblkfacs=1;blocks nblkfacs=1;",
        26,
        2,
        19,
    ),
    ("proc factex;factors A;run;\nsize design=2;", 27, 2, 1),
    ("proc factex;factors A;run;\nfactors B;", 27, 2, 1),
    ("proc factex;factors A;run;\nmodel r=3;", 27, 2, 1),
    ("proc factex;factors A;run;\nblocks nblkfacs=1;", 27, 2, 1),
    ("proc factex nodes=1 nodes=1;", 28, 1, 21),
    (
        "proc factex;factors A;\noutput out=a novalran randomize novalran;",
        28,
        2,
        33,
    ),
    (
        "proc factex;factors A;\noutput out=a pointrep=1 pointrep=1;",
        28,
        2,
        25,
    ),
];

#[test]
fn the_grammar_refuses(rt: HostRuntime) {
    let alloc = rt.alloc();
    are_refused(&rt, alloc, "", &WORDS_AND_SIGNS);
    are_refused(&rt, alloc, "", &TWICE_OR_TOO_LATE);
}

/// The text of a hundred steps.
fn hundred_steps(rt: &impl Abort, alloc: Global) -> Bytes {
    let mut text = Bytes::new(alloc);
    for _step in 0..100 {
        put(&mut text, b"proc factex;factors A;\n").expect(rt, "memory");
    }
    text
}

#[test]
fn a_hundred_steps_are_the_most(rt: HostRuntime) {
    let mut text = hundred_steps(&rt, rt.alloc());
    let program = read(&rt, rt.alloc(), text.as_slice()).expect(&rt, "a program");
    assert!(rt; program.len() == 100);
    put(&mut text, b" proc factex;factors A;").expect(&rt, "memory");
    assert!(rt; refusal(&rt, rt.alloc(), text.as_slice()) == Some((32, 101, 2)));
}

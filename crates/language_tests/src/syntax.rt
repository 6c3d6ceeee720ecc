use crate::rows_of;
use fx_base::{Bytes, put};
use fx_language::{Symbol, first_by_grammar, first_by_rules, first_refusal, symbols};
use fx_lexer::lex;
use std::alloc::Global;
use std::process::Abort;

/// The refusal of a text.
fn refusal(rt: &impl Abort, alloc: Global, text: &[u8]) -> Option<(u8, usize)> {
    assert!(rt; text.len() <= 1_048_576);
    let tokens = lex(alloc, text).expect(rt, "tokens");
    let read = symbols(alloc, text, &tokens).expect(rt, "memory");
    first_refusal(read.as_slice())
}

/// The refusal of a text of two parts.
fn refusal_of_both(rt: &impl Abort, alloc: Global, front: &str, rest: &str) -> Option<(u8, usize)> {
    let mut text = Bytes::from_slice(alloc, front.as_bytes()).expect(rt, "memory");
    put(&mut text, rest.as_bytes()).expect(rt, "memory");
    refusal(rt, alloc, text.as_slice())
}

/// Tests that each text after the front is refused for this, or accepted.
fn are_judged(rt: &impl Abort, alloc: Global, front: &str, cases: &[(&str, Option<(u8, usize)>)]) {
    for (text, wanted) in cases {
        assert!(rt;
            refusal_of_both(rt, alloc, front, text) == *wanted,
            "{text}"
        );
    }
}

/// What comes before the statements of a step, with the symbols 0 to 2.
const FRONT: &str = "proc factex;";

#[test]
fn programs_are_accepted(rt: HostRuntime) {
    const PROGRAMS: [&str; 5] = [
        "",
        ";; run; quit; proc factex nodes=5; ; run; quit; run; proc factex; proc factex;",
        "proc factex; factors A B C-F time / nlev=3; size fraction=maximum; model r=max / minabs;",
        "proc factex; model e=(A A*B A|B*C|D@2 A-C) n=(size); blocks size=min; examine; examine aliasing design aberration;",
        "proc factex; output out=out randomize(7) novalran blockname=b nvals=(1 -2 .5) x cvals=('lo' 'hi') pointrep=2 designrep=3;",
    ];
    for program in rows_of(&PROGRAMS) {
        assert!(rt;
            refusal(&rt, rt.alloc(), program.as_bytes()).is_none(),
            "{program}"
        );
    }
}

/// Symbols outside of statements are refused.
const OUTSIDE_OF_STATEMENTS: [(&str, Option<(u8, usize)>); 10] = [
    ("factors;", Some((1, 0))),
    ("uniteffect;", Some((24, 0))),
    ("proc", Some((2, 1))),
    ("proc means;", Some((1, 1))),
    ("proc factex seed", Some((3, 2))),
    ("proc factex nodes=namelen;", Some((24, 4))),
    ("proc factex; run", Some((2, 4))),
    ("proc factex; fold;", Some((1, 3))),
    ("proc factex; (", Some((2, 3))),
    ("proc factex; quit; size", Some((1, 5))),
];

/// Symbols of statements are refused.
const IN_STATEMENTS: [(&str, Option<(u8, usize)>); 18] = [
    ("factors A-;", Some((2, 6))),
    ("factors A / levels=2;", Some((3, 6))),
    ("factors A / nlev=2 B;", Some((2, 9))),
    ("size runs=8;", Some((3, 4))),
    ("size fraction=minimum;", Some((2, 6))),
    ("blocks size=maximum;", Some((2, 6))),
    ("model resolution=4 / minabs(3);", Some((24, 9))),
    ("model estimate=();", Some((2, 7))),
    ("model estimate=(A-B*C);", Some((2, 10))),
    ("model estimate=(A*B-C);", Some((2, 10))),
    ("model estimate=(A) resolution=4;", Some((3, 9))),
    ("examine aberration(2);", Some((24, 5))),
    ("examine design(2);", Some((2, 5))),
    ("output data=A;", Some((3, 4))),
    ("output out=A pointrep=B designrep=nvals;", None),
    ("output out=A B nvals=(1 -[2]);", Some((2, 13))),
    ("output out=A [B", Some((2, 9))),
    ("output out=A [B C]=D cvals=('x');", None),
];

/// Values behind the block column are its own or a factors.
const BEHIND_THE_BLOCK_COLUMN: [(&str, Option<(u8, usize)>); 4] = [
    (
        "output out=A blockname=b nvals=(1 2) cvals=('x');",
        Some((2, 17)),
    ),
    ("output out=A blockname=b nvals cvals=('x');", None),
    ("output out=A blockname=b cvals nvals=(1 2);", None),
    ("output out=A blockname=b nvals x;", Some((3, 11))),
];

/// The earlier refusal comes.
const EARLIER_REFUSAL: [(&str, Option<(u8, usize)>); 5] = [
    ("size design=8; size 8;", Some((26, 8))),
    ("size 8; size design=8;", Some((2, 4))),
    ("run; size design=8;", Some((27, 5))),
    ("output out=A novalran novalran [", Some((28, 8))),
    ("size design=8; run; size", Some((27, 10))),
];

#[test]
fn programs_are_judged(rt: HostRuntime) {
    let alloc = rt.alloc();
    are_judged(&rt, alloc, "", &OUTSIDE_OF_STATEMENTS);
    are_judged(&rt, alloc, FRONT, &IN_STATEMENTS);
    are_judged(&rt, alloc, FRONT, &BEHIND_THE_BLOCK_COLUMN);
    are_judged(&rt, alloc, FRONT, &EARLIER_REFUSAL);
}

/// The symbols of so many steps, and these.
fn steps(rt: &impl Abort, alloc: Global, count: u8, rest: &[Symbol]) -> Vec<Symbol> {
    let step = [Symbol::Proc, Symbol::Factex, Symbol::Semicolon];
    let mut program = Vec::new(alloc);
    for _step in 0..count {
        program.extend_from_slice(&step).expect(rt, "memory");
    }
    program.extend_from_slice(rest).expect(rt, "memory");
    program
}

#[test]
fn step_101_is_refused_by_a_rule_alone(rt: HostRuntime) {
    let program = steps(&rt, rt.alloc(), 101, &[]);
    assert!(rt; first_by_grammar(&program).is_none());
    assert!(rt; first_refusal(&program) == Some((32, 300)));
}

#[test]
fn step_101_is_refused(rt: HostRuntime) {
    let program = steps(&rt, rt.alloc(), 100, &[]);
    assert!(rt; first_by_rules(&program).is_none());
    let program = steps(&rt, rt.alloc(), 100, &[Symbol::Proc, Symbol::Factex]);
    assert!(rt; first_by_rules(&program) == Some((32, 300)));
}

//! Which fold-overs are refused, and which factors the accepted ones fold.
use crate::statements::{are_refused, read, text_of};
use fx_statements::{Fold, Program};
use std::alloc::Global;
use std::process::Abort;

/// What is refused behind two factors of two levels.
const REFUSED: [(&str, u8, u32, u32); 14] = [
    ("foldover;foldover A;", 26, 2, 10),
    ("run;foldover;", 27, 2, 5),
    ("foldover A-;", 2, 2, 12),
    ("foldover A*X1;", 2, 2, 11),
    ("foldover A / nlev=2;", 2, 2, 12),
    ("foldover X2-X1;", 30, 2, 10),
    ("foldover A X1-Y2;", 30, 2, 12),
    ("foldover A B;", 4, 2, 12),
    ("foldover X1-X3 B;", 4, 2, 10),
    ("model r=3;blocks nblkfacs=1;foldover;", 36, 2, 29),
    ("foldover B;model r=3;blocks nblkfacs=1;", 36, 2, 1),
    ("foldover;output out=a pointrep=0;", 20, 2, 32),
    ("foldover B;output out=a pointrep=0;", 4, 2, 10),
    ("foldover;size design=2048;", 9, 2, 22),
];

/// What is refused whatever its factors are.
const OTHERS: [(&str, u8, u32, u32); 3] = [
    ("proc factex;\nfoldover;", 7, 1, 1),
    ("proc factex;factors A B/nlev=3;\nfoldover;", 36, 2, 1),
    (
        "proc factex;factors A/nlev=3;\nfoldover B;examine design;",
        36,
        2,
        1,
    ),
];

/// The codes that FOLDOVER gives A, X1, X2 and X3, as digits.
const FOLDED: [(&str, u32); 8] = [
    ("foldover;", 1111),
    ("foldover A;", 1000),
    ("foldover a A a;", 1000),
    ("foldover X3 A;", 1001),
    ("foldover x1-X2;", 110),
    ("foldover X2-X3 X1-X2;", 111),
    ("foldover A X1 X2 X3;", 1111),
    ("foldover X1-X3 A;", 1111),
];

/// The codes of the fold of the only step, as digits; 2 where it has none.
fn codes(program: &Program) -> u32 {
    let mut digits = 2;
    if let [step] = program.as_slice() {
        if let Fold::Factors(folded) = &step.fold {
            digits = 0;
            for i in 0..folded.len() {
                digits = digits % 1000 * 10 + u32::from(folded.code(i));
            }
        }
    }
    digits
}

/// The codes that this statement gives A, X1, X2 and X3.
fn folded(rt: &impl Abort, alloc: Global, statement: &str) -> u32 {
    let text = text_of(
        rt,
        alloc,
        "proc factex;factors A X1-X3;size design=8;",
        statement,
    );
    match read(rt, alloc, text.as_slice()) {
        Ok(program) => codes(&program),
        Err(_stop) => 3,
    }
}

#[test]
fn fold_overs_are_judged(rt: HostRuntime) {
    let alloc = rt.alloc();
    are_refused(&rt, alloc, "proc factex;factors A X1-X2;\n", &REFUSED);
    are_refused(&rt, alloc, "", &OTHERS);
}

#[test]
fn fold_overs_fold_the_factors_that_they_name(rt: HostRuntime) {
    let alloc = rt.alloc();
    assert!(rt; folded(&rt, alloc, "") == 2);
    for (statement, digits) in &FOLDED {
        assert!(rt; folded(&rt, alloc, statement) == *digits, "{statement}");
    }
}

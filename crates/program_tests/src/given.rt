use crate::alias::{are_few, is_for, matrix_of, program_of};
use fx_alias::{BlockMarks, alias_listing, given_listing};
use fx_base::Bytes;
use fx_statements::Step;
use fx_vectors::{Matrix, Shape};
use std::alloc::Global;
use std::process::Abort;

// The expected lines were computed apart from this program, in Python, from the runs alone.

/// Whether the head of a step with this design, and then its aliases with marks, are these.
fn is_listed(
    rt: &impl Abort,
    alloc: Global,
    step: &Step,
    matrix: &Matrix,
    met: Option<bool>,
    expected: &str,
) -> bool {
    assert!(rt; is_for(matrix, step));
    assert!(rt; are_few(matrix.shape()));
    let mut out = Bytes::new(alloc);
    given_listing(alloc, 1, step, matrix, met, &mut out).expect(rt, "memory");
    alias_listing(alloc, BlockMarks::With, step, matrix, &mut out).expect(rt, "memory");
    out.as_slice() == expected.as_bytes()
}

/// Tests that a design of the text's only step is listed as this.
fn lists(
    rt: &impl Abort,
    alloc: Global,
    text: &str,
    matrix: &Matrix,
    met: Option<bool>,
    expected: &str,
) {
    let program = program_of(rt, alloc, text.as_bytes());
    assert!(rt; program.len() == 1);
    let is_so = is_listed(rt, alloc, program.get(0), matrix, met, expected);
    assert!(rt; is_so, "{text}");
}

/// E = A*B*C, F = B*C*D, and blocks by A*C*D and A*B*D.
const FOUR_BLOCKS: &str = "\
step 1
factors 6 levels 2
design 16 runs in 4 blocks given
resolution 4
meets the model
clear 6 of 6 factors, 0 of 15 two-factor interactions
confounded with blocks B2 3 B3 8 B6 1
aliasing
  A
  B
  C
  D
  E
  F
  A*B = C*E
  A*C = B*E
  A*D = E*F
  A*E = B*C = D*F = blocks
  A*F = D*E
  B*D = C*F
  B*F = C*D
";

#[test]
fn two_levels_in_four_blocks(rt: HostRuntime) {
    let shape = Shape {
        q: 2,
        m: 4,
        s: 6,
        t: 2,
    };
    let text = "proc factex; factors A B C D E F; size design=16; blocks nblocks=4; \
model resolution=4;";
    let matrix = matrix_of(&rt, shape, &[1, 2, 4, 8, 7, 14, 13, 11]);
    lists(&rt, rt.alloc(), text, &matrix, Some(true), FOUR_BLOCKS);
}

/// D = A*B^2, E = A*C, and blocks by B*C^2.
const THREE_BLOCKS: &str = "\
step 1
factors 5 levels 3
design 27 runs in 3 blocks given
resolution 3
clear 0 of 5 factors, 3 of 20 two-factor components
confounded with blocks B2 1 B3 5 B4 2 B5 1
aliasing
  A = B*D = C^2*E
  B = A^2*D
  C = A^2*E
  D = A^2*B
  E = A*C
  A*B = A*D = B^2*D
  A^2*C = A*E = C*E
  B*C = D^2*E
  B^2*C = blocks
  B*E
  B^2*E = C*D
  C^2*D
  D*E
";

#[test]
fn three_levels_in_three_blocks(rt: HostRuntime) {
    let shape = Shape {
        q: 3,
        m: 3,
        s: 5,
        t: 1,
    };
    let text = "proc factex; factors A B C D E / nlev=3; size design=27; blocks nblocks=3;";
    let matrix = matrix_of(&rt, shape, &[1, 3, 9, 7, 10, 21]);
    lists(&rt, rt.alloc(), text, &matrix, None, THREE_BLOCKS);
}

/// C is constant, so that A and A*C are aliased.
const WITH_A_CONSTANT: &str = "\
step 1
factors 3 levels 2
design 4 runs given
resolution 1
does not meet the model
clear 0 of 3 factors, 1 of 3 two-factor interactions
aliasing
  mean = C
  A = A*C
  B = B*C
  A*B
";

#[test]
fn a_constant_factor(rt: HostRuntime) {
    let shape = Shape {
        q: 2,
        m: 2,
        s: 3,
        t: 0,
    };
    let text = "proc factex; factors A B C; size design=4; model resolution=3;";
    let matrix = matrix_of(&rt, shape, &[1, 2, 0]);
    lists(&rt, rt.alloc(), text, &matrix, Some(false), WITH_A_CONSTANT);
}

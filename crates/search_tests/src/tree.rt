ghost use Rattle.std.specs.Prelude.{◌≡◌, IfOk};
ghost use Rattle.fx_vectors.specs.Question.{IsValid};

use crate::questions::prefix_of;
use fx_base::NoMemory;
use fx_tree::{before, children, is_canonical};
use fx_vectors::{Demands, Effect, Effects, Question, Shape};
use std::alloc::Global;
use std::process::Abort;

/// Asks for seven factors of two levels in sixteen runs, at resolution 4.
fn seven_factors() -> Question
    ensures valid { IsValid result }
    ensures shape { result.shape ≡ record { q = 2; m = 4; s = 7; t = 0 } }
{
    Question {
        shape: Shape {
            q: 2,
            m: 4,
            s: 7,
            t: 0,
        },
        demands: Demands::Resolution { r: 4 },
        least: false,
    }
}

/// Asks for three factors of two levels in eight runs, in four blocks, at resolution 3.
fn in_blocks() -> Question
    ensures valid { IsValid result }
    ensures shape { result.shape ≡ record { q = 2; m = 3; s = 3; t = 2 } }
{
    Question {
        shape: Shape {
            q: 2,
            m: 3,
            s: 3,
            t: 2,
        },
        demands: Demands::Resolution { r: 3 },
        least: false,
    }
}

/// Asks for the main effects of two of three factors of three levels in nine runs.
fn two_effects(alloc: Global) -> Result<Question, NoMemory>
    ensures valid { IfOk result IsValid }
    ensures shape { IfOk result (λ question.
        question.shape ≡ record { q = 3; m = 2; s = 3; t = 0 }) }
{
    let estimate = Effects::from_slice(alloc, &[Effect(1), Effect(2)])?;
    Ok(Question {
        shape: Shape {
            q: 3,
            m: 2,
            s: 3,
            t: 0,
        },
        demands: Demands::Effects {
            estimate,
            nonnegligible: Effects::new(alloc),
        },
        least: false,
    })
}

/// Tests that a prefix of these rows is canonical, and these are its children.
fn has_children(rt: &impl Abort, alloc: Global, question: &Question, rows: &[u16], wanted: &[u16])
    requires { IsValid question.now }
{
    let prefix = prefix_of(rt, question.shape, rows);
    assert!(rt; is_canonical(question, &prefix));
    let children = children(alloc, question, &prefix).expect(rt, "memory");
    assert!(rt; children.as_slice() == wanted);
}

#[test]
fn unit_rows_come_first_and_later_rows_fall(rt: HostRuntime) {
    const AFTER_FOUR: [u16; 11] = [15, 14, 13, 12, 11, 10, 9, 7, 6, 5, 3];
    let alloc = rt.alloc();
    let question = seven_factors();
    has_children(&rt, alloc, &question, &[], &[1]);
    has_children(&rt, alloc, &question, &[1, 2, 4, 8], &AFTER_FOUR);
    has_children(&rt, alloc, &question, &[1, 2, 4, 8, 9], &[7, 6, 5, 3]);
    let prefix = prefix_of(&rt, question.shape, &[1, 2, 4, 8, 9, 10]);
    assert!(rt; !is_canonical(&question, &prefix));
}

/// The rank is to become 2: after the rows 1 and 1 only the second unit row can raise it.
#[test]
fn effects_leave_the_unit_rows_free(rt: HostRuntime) {
    let alloc = rt.alloc();
    let question = two_effects(alloc).expect(&rt, "memory");
    has_children(&rt, alloc, &question, &[1], &[3, 1, 0]);
    has_children(&rt, alloc, &question, &[1, 1], &[3]);
    has_children(&rt, alloc, &question, &[1, 3], &[5, 4, 3, 1, 0]);
}

#[test]
fn block_rows_may_repeat_and_be_zero(rt: HostRuntime) {
    let alloc = rt.alloc();
    let question = in_blocks();
    has_children(&rt, alloc, &question, &[1, 2, 4], &[7, 6, 5, 4, 3, 2, 1, 0]);
    has_children(&rt, alloc, &question, &[1, 2, 4, 6, 6], &[]);
}

/// Whether a prefix of five rows is before another.
fn is_before(rt: &impl Abort, rows: &[u16], others: &[u16]) -> bool {
    const SHAPE: Shape = Shape {
        q: 2,
        m: 3,
        s: 3,
        t: 2,
    };
    before(&prefix_of(rt, SHAPE, rows), &prefix_of(rt, SHAPE, others))
}

#[test]
fn a_prefix_stands_before_its_extensions(rt: HostRuntime) {
    assert!(rt; !is_before(&rt, &[1], &[1]));
    assert!(rt; is_before(&rt, &[1], &[1, 2]) && !is_before(&rt, &[1, 2], &[1]));
    assert!(rt; is_before(&rt, &[1, 4], &[1, 2]) && !is_before(&rt, &[1, 2], &[1, 4]));
}

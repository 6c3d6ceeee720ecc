ghost use Rattle.std.specs.Prelude.{◌≡◌, ◌≤◌, ◌<◌, ◌+◌, ◌^◌};
ghost use Rattle.fx_vectors.specs.Effects.{numbers_of};
ghost use Rattle.fx_vectors.specs.Question.{CanBeTold, IsValid};
ghost use Rattle.fx_vectors.specs.Shape.{IsShape};

use fx_runs::{Runs, block_number, constant_in_blocks, is_balanced, is_constant, list_runs, meets};
use fx_vectors::{Demands, Effect, Effects, Matrix, Question, Shape, Vector};
use std::alloc::Global;
use std::process::Abort;

const TWO_LEVELS: Shape = Shape {
    q: 2,
    m: 3,
    s: 4,
    t: 0,
};

const THREE_LEVELS: Shape = Shape {
    q: 3,
    m: 2,
    s: 4,
    t: 0,
};

/// Three factors of two levels, and a block factor.
const IN_BLOCKS: Shape = Shape {
    q: 2,
    m: 3,
    s: 3,
    t: 1,
};

/// The same in four blocks.
const FOUR_BLOCKS: Shape = Shape {
    q: 2,
    m: 3,
    s: 3,
    t: 2,
};

const TWO_FACTORS: Shape = Shape {
    q: 2,
    m: 1,
    s: 2,
    t: 0,
};

const NINE_RUNS: Shape = Shape {
    q: 3,
    m: 2,
    s: 3,
    t: 0,
};

const TWELVE_RUNS: Shape = Shape {
    q: 2,
    m: 4,
    s: 3,
    t: 0,
};

const ONE_FACTOR: Shape = Shape {
    q: 2,
    m: 1,
    s: 1,
    t: 0,
};

/// A, B, C and ABC.
const HALF: [[u8; 4]; 8] = [
    [0, 0, 0, 0],
    [0, 0, 1, 1],
    [0, 1, 0, 1],
    [0, 1, 1, 0],
    [1, 0, 0, 1],
    [1, 0, 1, 0],
    [1, 1, 0, 0],
    [1, 1, 1, 1],
];

/// A, B, A + B and A + 2 B.
const NINTH: [[u8; 4]; 9] = [
    [0, 0, 0, 0],
    [0, 1, 1, 2],
    [0, 2, 2, 1],
    [1, 0, 1, 1],
    [1, 1, 2, 0],
    [1, 2, 0, 2],
    [2, 0, 2, 2],
    [2, 1, 0, 1],
    [2, 2, 1, 0],
];

/// Whether these are the rows.
fn has_rows(runs: &Runs, rows: &[[u8; 4]]) -> bool {
    for i in 0..runs.len() {
        let row = runs.row(i);
        if row.len() != 4 || i >= rows.len() {
            return false;
        }
        for k in 0..4 {
            if row.code(k) != rows[i][k] {
                return false;
            }
        }
    }
    runs.len() == rows.len()
}

/// The runs of a rule matrix of these rows.
fn runs_of(rt: &impl Abort, alloc: Global, shape: Shape, rows: [u16; 4]) -> Runs
    requires { IsShape shape }
    ensures { result.shape ≡ shape }
{
    let mut matrix = Matrix::new(shape);
    for row in rows {
        assert!(rt; matrix.len() < shape.rows() && row < shape.runs());
        matrix.push(row);
    }
    assert!(rt; matrix.len() == shape.rows());
    list_runs(alloc, &matrix).expect(rt, "memory")
}

/// Whether the vector of four factors of this number is constant over the runs, and not balanced.
fn is_only_constant(runs: &Runs, number: u128) -> bool
    requires rows { runs.now.shape.s + runs.now.shape.t ≡ 4 }
    requires below { number < runs.now.shape.q ^ 4 }
{
    let word = Vector::of_number(runs.shape().field(), 4, number);
    is_constant(&word, runs) && !is_balanced(&word, runs)
}

/// Whether it is balanced over the runs, and not constant.
fn is_only_balanced(runs: &Runs, number: u128) -> bool
    requires rows { runs.now.shape.s + runs.now.shape.t ≡ 4 }
    requires below { number < runs.now.shape.q ^ 4 }
{
    let word = Vector::of_number(runs.shape().field(), 4, number);
    is_balanced(&word, runs) && !is_constant(&word, runs)
}

#[test]
fn the_first_index_changes_slowest(rt: HostRuntime) {
    let runs = runs_of(&rt, rt.alloc(), TWO_LEVELS, [1, 2, 4, 7]);
    assert!(rt; has_rows(&runs, &HALF));
    assert!(rt; is_only_constant(&runs, 15) && is_only_balanced(&runs, 3));
}

/// A + B + 2 (A + B) is 0, and A + C is 2 A + B.
#[test]
fn three_levels(rt: HostRuntime) {
    let runs = runs_of(&rt, rt.alloc(), THREE_LEVELS, [1, 3, 4, 7]);
    assert!(rt; has_rows(&runs, &NINTH));
    assert!(rt; is_only_constant(&runs, 22) && is_only_balanced(&runs, 10));
}

/// Whether these are the numbers of the blocks.
fn has_blocks(runs: &Runs, blocks: &[u16]) -> bool
    requires { runs.now.shape.q ^ runs.now.shape.t ≤ 1024 }
{
    for (i, block) in blocks.iter().enumerate() {
        if i >= runs.len() || block_number(runs, i) != *block {
            return false;
        }
    }
    runs.len() == blocks.len()
}

/// Whether the vector of three factors of this number is constant in each block.
fn is_confounded(runs: &Runs, number: u128) -> bool
    requires factors { runs.now.shape.s ≡ 3 }
    requires below { number < runs.now.shape.q ^ 3 }
{
    constant_in_blocks(&Vector::of_number(runs.shape().field(), 3, number), runs)
}

/// ABC is confounded with blocks, and AB is not.
#[test]
fn blocks_are_counted_from_one(rt: HostRuntime) {
    let runs = runs_of(&rt, rt.alloc(), IN_BLOCKS, [1, 2, 4, 7]);
    assert!(rt; has_rows(&runs, &HALF));
    assert!(rt; has_blocks(&runs, &[1, 2, 2, 1, 2, 1, 1, 2]));
    assert!(rt; is_confounded(&runs, 7) && !is_confounded(&runs, 3));
}

/// The runs 0, 0 and 1 of one factor.
fn three_runs(rt: &impl Abort, alloc: Global) -> Runs
    ensures { result.shape ≡ record { q = 2; m = 1; s = 1; t = 0 } }
{
    let mut runs = Runs::new(alloc, ONE_FACTOR);
    runs.push(Vector::zero(1)).expect(rt, "memory");
    runs.push(Vector::zero(1)).expect(rt, "memory");
    let one = Vector::of_number(ONE_FACTOR.field(), 1, 1);
    runs.push(one).expect(rt, "memory");
    runs
}

/// How many of these hold: a factor is constant over the runs, balanced, and constant in blocks.
fn count_of_truths(runs: &Runs) -> u8
    requires { runs.now.shape ≡ record { q = 2; m = 1; s = 1; t = 0 } }
{
    let u = Vector::of_number(ONE_FACTOR.field(), 1, 1);
    let constant = u8::from(is_constant(&u, runs));
    let balanced = u8::from(is_balanced(&u, runs));
    constant + balanced + u8::from(constant_in_blocks(&u, runs))
}

/// The runs 0, 0 and 1 are neither constant nor balanced, and no runs are both.
#[test]
fn any_runs_are_judged(rt: HostRuntime) {
    let none = Runs::new(rt.alloc(), ONE_FACTOR);
    assert!(rt; none.is_empty() && count_of_truths(&none) == 3);
    let runs = three_runs(&rt, rt.alloc());
    assert!(rt; runs.len() == 3 && block_number(&runs, 2) == 1);
    assert!(rt; count_of_truths(&runs) == 0);
}

/// Asks for a resolution.
fn at_resolution(shape: Shape, r: u8) -> Question
    requires shaped { IsShape shape }
    requires resolution { (3 ≤ r) × (r ≤ 99) }
    ensures valid { IsValid result }
    ensures shape { result.shape ≡ shape }
{
    Question {
        shape,
        demands: Demands::Resolution { r },
        least: false,
    }
}

/// Asks for effects.
fn for_effects(
    rt: &impl Abort,
    alloc: Global,
    shape: Shape,
    estimate: &[Effect],
    nonnegligible: &[Effect],
) -> Question
    requires shaped { IsShape shape }
    requires told { CanBeTold shape.q shape.s (numbers_of estimate.now)
        (numbers_of nonnegligible.now) }
    ensures valid { IsValid result }
{
    Question {
        shape,
        demands: Demands::Effects {
            estimate: Effects::from_slice(alloc, estimate).expect(rt, "memory"),
            nonnegligible: Effects::from_slice(alloc, nonnegligible).expect(rt, "memory"),
        },
        least: false,
    }
}

/// Whether the runs of the rows meet the demands.
fn met(rt: &impl Abort, alloc: Global, rows: &[u16], question: &Question) -> bool
    requires { IsValid question.now }
{
    let shape = question.shape;
    let mut matrix = Matrix::new(shape);
    for row in rows {
        assert!(rt; matrix.len() < shape.rows() && *row < shape.runs());
        matrix.push(*row);
    }
    assert!(rt; matrix.len() == shape.rows());
    let runs = list_runs(alloc, &matrix).expect(rt, "memory");
    meets(question, &runs)
}

/// Tests that the runs of these rows meet a resolution or not, as is said of each.
fn are_met_at(rt: &impl Abort, alloc: Global, shape: Shape, cases: &[(u8, &[u16], bool)])
    requires { IsShape shape }
{
    for (r, rows, is_met) in cases {
        assert!(rt; 3 <= *r && *r <= 99);
        assert!(rt; met(rt, alloc, rows, &at_resolution(shape, *r)) == *is_met);
    }
}

/// Tests that the runs of these rows meet the demands or not, as is said of each.
fn are_met(rt: &impl Abort, alloc: Global, question: &Question, cases: &[(&[u16], bool)])
    requires { IsValid question.now }
{
    for (rows, is_met) in cases {
        assert!(rt; met(rt, alloc, rows, question) == *is_met);
    }
}

/// Resolutions, rows of four factors of two levels, and whether their runs meet them: with D = ABC, BC
/// and C.
const TWO_LEVEL_CASES: &[(u8, &[u16], bool)] = &[
    (3, &[1, 2, 4, 7], true),
    (4, &[1, 2, 4, 7], true),
    (5, &[1, 2, 4, 7], false),
    (99, &[1, 2, 4, 7], false),
    (3, &[1, 2, 4, 6], true),
    (4, &[1, 2, 4, 6], false),
    (3, &[1, 2, 4, 4], false),
];

/// A, B, C and ABC are at resolution 4; A, B, A + B and A + 2 B over GF(3) at 3.
#[test]
fn resolutions_are_met(rt: HostRuntime) {
    are_met_at(&rt, rt.alloc(), TWO_LEVELS, TWO_LEVEL_CASES);
    const CASES: &[(u8, &[u16], bool)] = &[(3, &[1, 3, 4, 7], true), (4, &[1, 3, 4, 7], false)];
    are_met_at(&rt, rt.alloc(), THREE_LEVELS, CASES);
}

/// With D = ABC, AB is distinguished from A, B and C. With D = AB it is not, and neither is A from C = A.
#[test]
fn an_interaction_is_told_from_main_effects(rt: HostRuntime) {
    let effects = [Effect(1), Effect(2), Effect(4), Effect(8), Effect(3)];
    const CASES: &[(&[u16], bool)] = &[
        (&[1, 2, 4, 7], true),
        (&[1, 2, 4, 3], false),
        (&[1, 2, 1, 7], false),
    ];
    let question = for_effects(&rt, rt.alloc(), TWO_LEVELS, &effects, &[]);
    are_met(&rt, rt.alloc(), &question, CASES);
}

/// With D = ABC, AB is not distinguished from CD; with D = AB it is.
#[test]
fn an_effect_is_told_from_another_not_estimated(rt: HostRuntime) {
    const CASES: &[(&[u16], bool)] = &[(&[1, 2, 4, 7], false), (&[1, 2, 4, 3], true)];
    let question = for_effects(&rt, rt.alloc(), TWO_LEVELS, &[Effect(3)], &[Effect(12)]);
    are_met(&rt, rt.alloc(), &question, CASES);
}

/// A factor at one level has no effect.
#[test]
fn an_effect_is_told_from_zero(rt: HostRuntime) {
    const CASES: &[(&[u16], bool)] = &[(&[1], true), (&[0], false)];
    let question = for_effects(&rt, rt.alloc(), ONE_FACTOR, &[Effect(1)], &[]);
    are_met(&rt, rt.alloc(), &question, CASES);
}

/// Two factors with the same levels have one effect.
#[test]
fn two_factors_in_two_runs_are_not_told_apart(rt: HostRuntime) {
    const CASES: &[(&[u16], bool)] = &[(&[1, 1], false)];
    let question = for_effects(&rt, rt.alloc(), TWO_FACTORS, &[Effect(1), Effect(2)], &[]);
    are_met(&rt, rt.alloc(), &question, CASES);
}

/// Over GF(3) AB is A + B and A + 2 B, up to multiples, and so not distinguished from C = A + B or A + 2 B;
/// from C = A it is.
#[test]
fn an_interaction_of_three_levels(rt: HostRuntime) {
    const CASES: &[(&[u16], bool)] = &[
        (&[1, 3, 4], false),
        (&[1, 3, 7], false),
        (&[1, 3, 1], true),
    ];
    let question = for_effects(&rt, rt.alloc(), NINE_RUNS, &[Effect(3)], &[Effect(4)]);
    are_met(&rt, rt.alloc(), &question, CASES);
}

/// Resolutions, rows of three factors and a block factor, and whether their runs meet them: with blocks
/// by ABC, AB and A.
const BLOCK_CASES: &[(u8, &[u16], bool)] = &[
    (3, &[1, 2, 4, 7], true),
    (4, &[1, 2, 4, 7], true),
    (5, &[1, 2, 4, 7], true),
    (3, &[1, 2, 4, 3], true),
    (4, &[1, 2, 4, 3], true),
    (5, &[1, 2, 4, 3], false),
    (3, &[1, 2, 4, 1], false),
    (4, &[1, 2, 4, 1], false),
    (5, &[1, 2, 4, 1], false),
];

/// The same at resolution 3 with two block factors: by BC and AC, whose interaction is AB; by ABC and BC,
/// whose interaction is A; and twice by ABC, so that two of four blocks are empty.
const FOUR_BLOCK_CASES: &[(u8, &[u16], bool)] = &[
    (3, &[1, 2, 4, 6, 5], true),
    (3, &[1, 2, 4, 7, 6], false),
    (3, &[1, 2, 4, 7, 7], false),
];

#[test]
fn main_effects_are_told_from_blocks(rt: HostRuntime) {
    are_met_at(&rt, rt.alloc(), IN_BLOCKS, BLOCK_CASES);
    are_met_at(&rt, rt.alloc(), FOUR_BLOCKS, FOUR_BLOCK_CASES);
}

/// A and AB beside blocks by ABC, and by AB.
#[test]
fn an_interaction_is_told_from_blocks(rt: HostRuntime) {
    const CASES: &[(&[u16], bool)] = &[(&[1, 2, 4, 7], true), (&[1, 2, 4, 3], false)];
    let question = for_effects(&rt, rt.alloc(), IN_BLOCKS, &[Effect(1), Effect(3)], &[]);
    are_met(&rt, rt.alloc(), &question, CASES);
}

/// Three columns of the twelve runs of Plackett and Burman, which are those of no rule matrix.
fn twelve_runs(rt: &impl Abort, alloc: Global) -> Runs
    ensures { result.shape ≡ record { q = 2; m = 4; s = 3; t = 0 } }
{
    let field = TWELVE_RUNS.field();
    let mut runs = Runs::new(alloc, TWELVE_RUNS);
    for number in [3, 6, 5, 2, 4, 0, 1, 3, 7, 6, 5, 0] {
        assert!(rt; number < 8);
        runs.push(Vector::of_number(field, 3, number))
            .expect(rt, "memory");
    }
    runs
}

/// Whether the runs meet a resolution.
fn meet_at(runs: &Runs, r: u8) -> bool
    requires { (3 ≤ r) × (r ≤ 99) }
{
    meets(&at_resolution(runs.shape(), r), runs)
}

/// They are at resolution 3, and no runs are at 99.
#[test]
fn runs_of_no_rules_are_judged(rt: HostRuntime) {
    assert!(rt; meet_at(&Runs::new(rt.alloc(), TWELVE_RUNS), 99));
    let runs = twelve_runs(&rt, rt.alloc());
    assert!(rt; meet_at(&runs, 3) && !meet_at(&runs, 4));
}

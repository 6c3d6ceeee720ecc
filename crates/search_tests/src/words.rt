ghost use Rattle.std.specs.Prelude.{◌≡◌, [], ◌∷◌, length};

use fx_vectors::{Matrix, Pattern, Shape};
use fx_words::{Tally, compare, is_less, pattern_of, resolution};
use std::alloc::Global;
use std::cmp::Ordering;
use std::process::Abort;

/// A, B, C, D = AB, E = AC and F = BC.
fn six_factors(rt: &impl Abort, alloc: Global) -> Tally
    ensures { result
        ≡ record {
          shape = record { q = 2; m = 3; s = 7; t = 0 };
          rows = 1 ∷ 2 ∷ 4 ∷ 3 ∷ 5 ∷ 6 ∷ [];
        } }
{
    let shape = Shape {
        q: 2,
        m: 3,
        s: 7,
        t: 0,
    };
    let mut tally = Tally::new(alloc, shape).expect(rt, "memory");
    tally.push(1);
    tally.push(2);
    tally.push(4);
    tally.push(3);
    tally.push(5);
    tally.push(6);
    tally
}

/// Whether G = ABC leads to this pattern, of which 7 words are of weight 3, before it is added and after, and
/// to one that is less once it is taken away.
fn ends_with(rt: &impl Abort, alloc: Global, tally: &mut Tally, all: &Pattern) -> bool
    requires tally { tally.old
        ≡ record {
          shape = record { q = 2; m = 3; s = 7; t = 0 };
          rows = 1 ∷ 2 ∷ 4 ∷ 3 ∷ 5 ∷ 6 ∷ [];
        } }
    requires entries { length all.now ≡ 7 }
{
    let is_less = tally.less_with(7, all.as_slice());
    let words = tally.words_with(7, 2);
    tally.push(7);
    let pattern = tally.pattern(alloc).expect(rt, "memory");
    let is_same = pattern.as_slice() == all.as_slice();
    let is_less_at_end = tally.less_than(all);
    tally.pop();
    let is_less_again = tally.less_than(all);
    !is_less && words == 7 && is_same && !is_less_at_end && is_less_again
}

/// Whether the patterns compare so, and the greater has resolution 3.
fn is_between(fewer: &Pattern, all: &Pattern) -> bool
    requires fewer { length fewer.now ≡ 7 }
    requires all { length all.now ≡ 7 }
{
    is_less(fewer.as_slice(), all.as_slice())
        && !is_less(all.as_slice(), all.as_slice())
        && compare(fewer, all) == Ordering::Less
        && compare(all, fewer) == Ordering::Greater
        && resolution(all) == 3
}

/// The words of D = AB, E = AC, F = BC and G = ABC are those of the Hamming code of length 7.
#[test]
fn a_saturated_design_has_seven_words_of_three(rt: HostRuntime) {
    let mut tally = six_factors(&rt, rt.alloc());
    tally.push(7);
    let all = tally.pattern(rt.alloc()).expect(&rt, "memory");
    tally.pop();
    assert!(rt; all.as_slice() == [0, 0, 7, 7, 0, 0, 1].as_slice());
    assert!(rt; ends_with(&rt, rt.alloc(), &mut tally, &all));
    let fewer = tally.pattern(rt.alloc()).expect(&rt, "memory");
    assert!(rt; fewer.as_slice() == [0, 0, 4, 3, 0, 0, 0].as_slice());
    assert!(rt; is_between(&fewer, &all));
}

/// The nine runs of four factors of three levels have four words of weight 3, each with its double.
#[test]
fn a_word_and_its_multiples_count_once(rt: HostRuntime) {
    let shape = Shape {
        q: 3,
        m: 2,
        s: 4,
        t: 0,
    };
    let mut tally = Tally::new(rt.alloc(), shape).expect(&rt, "memory");
    tally.push(1);
    tally.push(3);
    tally.push(4);
    tally.push(7);
    let pattern = tally.pattern(rt.alloc()).expect(&rt, "memory");
    assert!(rt; pattern.as_slice() == [0, 0, 4, 0].as_slice());
}

/// Five factors of four levels in sixteen runs: the weights of the code [5, 3, 3] over GF(4).
#[test]
fn four_levels_are_those_of_a_field(rt: HostRuntime) {
    let shape = Shape {
        q: 4,
        m: 2,
        s: 5,
        t: 0,
    };
    let mut matrix = Matrix::new(shape);
    matrix.push(1);
    matrix.push(4);
    matrix.push(5);
    matrix.push(9);
    matrix.push(13);
    let all = pattern_of(rt.alloc(), &matrix).expect(&rt, "memory");
    assert!(rt; all.as_slice() == [0, 0, 10, 5, 6].as_slice());
}

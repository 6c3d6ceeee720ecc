ghost use Rattle.std.specs.Prelude.{◌≡◌};
ghost use Rattle.fx_vectors.specs.Shape.{IsShape, dimensions_of};

use crate::questions::{main_effects, question, shape_of};
use fx_demands::ForbiddenVectors;
use fx_search::{Barred, Pruner, forbidden_vectors_of};
use fx_vectors::Shape;
use std::process::Abort;

/// Adds a row that does not close the prefix.
fn push_open(rt: &impl Abort, shape: Shape, barred: &mut Barred, row: u16)
    requires shaped { IsShape shape }
    requires shape { barred.old.problem.dimensions ≡ dimensions_of shape }
    ensures shape { barred.new.problem.dimensions ≡ dimensions_of shape }
{
    assert!(rt; barred.len() < shape.rows());
    assert!(rt; row < shape.runs());
    assert!(rt; !barred.closes(row));
    barred.push(row).expect(rt, "memory");
}

/// Whether the first eight rows are barred.
fn bars_eight(rt: &impl Abort, shape: Shape, barred: &Barred) -> bool
    requires shaped { IsShape shape }
    requires shape { barred.now.problem.dimensions ≡ dimensions_of shape }
{
    assert!(rt; barred.len() < shape.rows());
    barred.barred().next_absent_below(8).is_none()
}

/// The word by which a row closes the prefix.
fn closing_word(rt: &impl Abort, shape: Shape, barred: &Barred, row: u16) -> u128
    requires shaped { IsShape shape }
    requires shape { barred.now.problem.dimensions ≡ dimensions_of shape }
{
    assert!(rt; barred.len() < shape.rows());
    assert!(rt; row < shape.runs());
    assert!(rt; barred.closes(row));
    barred.word(row)
}

/// A, B, C and D = ABC in eight runs: at resolution 4 no fifth factor is left, and 6, which is BC or
/// AD, is barred by the word ADE.
#[test]
fn all_rows_are_barred_after_a_half_fraction(rt: HostRuntime) {
    let question = question(&rt, shape_of(&rt, (2, 3, 5, 0)), 4, false);
    let shape = question.shape;
    let words = forbidden_vectors_of(rt.alloc(), &question).expect(&rt, "memory");
    let mut barred = Barred::of(rt.alloc(), &question, &words).expect(&rt, "memory");
    push_open(&rt, shape, &mut barred, 1);
    push_open(&rt, shape, &mut barred, 2);
    push_open(&rt, shape, &mut barred, 4);
    push_open(&rt, shape, &mut barred, 7);
    assert!(rt; bars_eight(&rt, shape, &barred));
    assert!(rt; closing_word(&rt, shape, &barred, 6) == 25);
}

/// Whether the vectors have these numbers.
fn have_numbers(vectors: &ForbiddenVectors, numbers: &[u128]) -> bool {
    if vectors.len() != numbers.len() {
        return false;
    }
    for i in 0..numbers.len() {
        if vectors.get(i).number != numbers[i] {
            return false;
        }
    }
    true
}

/// A and B are estimated at three levels where A, B, A^2*B and A*B are balanced. For a resolution no vectors are
/// listed.
#[test]
fn vectors_of_two_main_effects_are_listed(rt: HostRuntime) {
    let shape = shape_of(&rt, (3, 2, 2, 0));
    assert!(rt; shape.s >= 2);
    let effects = main_effects(rt.alloc(), shape).expect(&rt, "memory");
    let listed = forbidden_vectors_of(rt.alloc(), &effects).expect(&rt, "memory");
    assert!(rt; have_numbers(&listed, &[1, 3, 5, 4]));
    let resolution = question(&rt, shape, 3, false);
    let none = forbidden_vectors_of(rt.alloc(), &resolution).expect(&rt, "memory");
    assert!(rt; none.is_empty());
}

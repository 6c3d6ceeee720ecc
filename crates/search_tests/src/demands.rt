ghost use Rattle.std.specs.Prelude.{◌≡◌, IfOk};
ghost use Rattle.fx_vectors.specs.Question.{IsValid};

use crate::questions::prefix_of;
use fx_base::NoMemory;
use fx_demands::{EffectStop, Forbidden, Vectors, bars, effect_vectors, pair_count};
use fx_vectors::{Demands, Effect, Effects, Matrix, Question, Shape};
use std::alloc::Global;
use std::process::Abort;

/// Asks for five factors of two levels in eight runs, at resolution 4.
fn half_fraction() -> Question
    ensures valid { IsValid result }
    ensures shape { result.shape ≡ record { q = 2; m = 3; s = 5; t = 0 } }
{
    Question {
        shape: Shape {
            q: 2,
            m: 3,
            s: 5,
            t: 0,
        },
        demands: Demands::Resolution { r: 4 },
        least: false,
    }
}

/// Asks for three factors of two levels in eight runs, in four blocks, at resolution 3.
fn in_blocks() -> Question
    ensures valid { IsValid result }
    ensures shape { result.shape ≡ record { q = 2; m = 3; s = 3; t = 2 } }
{
    Question {
        shape: Shape {
            q: 2,
            m: 3,
            s: 3,
            t: 2,
        },
        demands: Demands::Resolution { r: 3 },
        least: false,
    }
}

/// Asks for the main effects of two factors of two levels in two runs.
fn two_effects(alloc: Global) -> Result<Question, NoMemory>
    ensures valid { IfOk result IsValid }
    ensures shape { IfOk result (λ question.
        question.shape ≡ record { q = 2; m = 1; s = 2; t = 0 }) }
{
    let estimate = Effects::from_slice(alloc, &[Effect(1), Effect(2)])?;
    Ok(Question {
        shape: Shape {
            q: 2,
            m: 1,
            s: 2,
            t: 0,
        },
        demands: Demands::Effects {
            estimate,
            nonnegligible: Effects::new(alloc),
        },
        least: false,
    })
}

/// BC, AD and BC again: AD precedes BC, and their union is ABCD.
#[test]
fn unions_come_once_and_in_order(rt: HostRuntime) {
    let stars = Effects::from_slice(rt.alloc(), &[Effect(6), Effect(9), Effect(6)]).expect(
        &rt, "memory",
    );
    let unions = bars(rt.alloc(), &stars, 4).expect(&rt, "memory");
    assert!(rt; unions.as_slice() == [Effect(9), Effect(6), Effect(15)].as_slice());
    let pairs = bars(rt.alloc(), &stars, 2).expect(&rt, "memory");
    assert!(rt; pairs.as_slice() == [Effect(9), Effect(6)].as_slice());
}

/// Seventeen factors have 131,071 effects, 17 of them of one factor.
#[test]
fn too_many_unions_are_refused(rt: HostRuntime) {
    let mut stars = Effects::new(rt.alloc());
    for i in 0u32..17 {
        stars.push(Effect(1 << i)).expect(&rt, "memory");
    }
    assert!(rt; matches!(bars(rt.alloc(), &stars, 17), Err(EffectStop::TooMany)));
    let unions = bars(rt.alloc(), &stars, 1).expect(&rt, "memory");
    assert!(rt; unions.len() == 17);
}

/// Of A and AB beside C at three levels: 6 vectors times 8.
#[test]
fn pairs_are_counted(rt: HostRuntime) {
    let shape = Shape {
        q: 3,
        m: 2,
        s: 3,
        t: 0,
    };
    let estimate = Effects::from_slice(rt.alloc(), &[Effect(1), Effect(3)]).expect(&rt, "memory");
    let mut others = Effects::from_slice(rt.alloc(), &[Effect(4)]).expect(&rt, "memory");
    assert!(rt; pair_count(shape.field(), &estimate, &others) == Some(48));
    others.push(Effect(u64::MAX)).expect(&rt, "memory");
    assert!(rt; pair_count(shape.field(), &estimate, &others).is_none());
}

/// The number of the closing word of a prefix, where it has one and that is forbidden.
fn closing_number(forbidden: &Forbidden, prefix: &Matrix) -> Option<u128>
    requires { prefix.now.shape ≡ forbidden.now.shape }
{
    match forbidden.closing_word(prefix) {
        None => None,
        Some(word) => {
            let number = word.number(forbidden.shape().field());
            if forbidden.holds(&word) {
                Some(number)
            } else {
                None
            }
        }
    }
}

/// Tests that a prefix of these rows has the closing word of this number, or is allowed where there is none.
fn closes_at(rt: &impl Abort, alloc: Global, question: Question, rows: &[u16], number: Option<u128>)
    requires { IsValid question }
{
    let forbidden = Forbidden::of(alloc, &question).expect(rt, "memory");
    let prefix = prefix_of(rt, forbidden.shape(), rows);
    assert!(rt; forbidden.allows(&prefix) == number.is_none());
    assert!(rt; closing_number(&forbidden, &prefix) == number);
}

/// A, B, C and ABC are at resolution 4; BC with A and ABC has the sum zero.
#[test]
fn a_fifth_row_closes_a_half_fraction(rt: HostRuntime) {
    closes_at(&rt, rt.alloc(), half_fraction(), &[1, 2, 4, 7], None);
    closes_at(&rt, rt.alloc(), half_fraction(), &[1, 2, 4, 7, 6], Some(25));
}

/// Blocks by ABC and BC have the interaction A.
#[test]
fn an_interaction_of_blocks_is_forbidden(rt: HostRuntime) {
    closes_at(&rt, rt.alloc(), in_blocks(), &[1, 2, 4, 7], None);
    closes_at(&rt, rt.alloc(), in_blocks(), &[1, 2, 4, 7, 6], Some(25));
}

#[test]
fn two_factors_are_told_apart(rt: HostRuntime) {
    let question = two_effects(rt.alloc()).expect(&rt, "memory");
    closes_at(&rt, rt.alloc(), question, &[1], None);
    let question = two_effects(rt.alloc()).expect(&rt, "memory");
    closes_at(&rt, rt.alloc(), question, &[1, 1], Some(3));
}

/// Whether the vector at this place has these two codes.
fn has_codes(vectors: &Vectors, place: usize, first: u8, second: u8) -> bool {
    place < vectors.len()
        && vectors.get(place).len() == 2
        && vectors.get(place).code(0) == first
        && vectors.get(place).code(1) == second
}

/// At three levels A*B has the vectors (1, 1), (2, 1), (1, 2) and (2, 2), whose numbers rise.
#[test]
fn vectors_of_an_effect_rise(rt: HostRuntime) {
    let field = Shape {
        q: 3,
        m: 1,
        s: 1,
        t: 0,
    }
    .field();
    let vectors = effect_vectors(rt.alloc(), field, 2, &Effect(3)).expect(&rt, "memory");
    assert!(rt; vectors.len() == 4);
    assert!(rt; has_codes(&vectors, 0, 1, 1) && has_codes(&vectors, 1, 2, 1));
    assert!(rt; has_codes(&vectors, 2, 1, 2) && has_codes(&vectors, 3, 2, 2));
}

ghost use Rattle.fx_table_book.specs.Tables.{IsBase};

use crate::basis::{Basis, plus};
use crate::points::{Comparison, Points, compared_at};
use arrayvec::ArrayVec;
use fx_table_book::{Base, MOST_INDEXES};

/// How many turns an order with its multiples takes, which is compared row by row.
const SCALING: u32 = 8;

/// A vector of a basis by its index, and the code that it is multiplied by.
#[derive(Clone, Copy, Default)]
pub(crate) struct Place {
    pub(crate) index: usize,
    pub(crate) code: u8,
}

/// An order of the vectors of a basis, each times a code: those of the base space come first.
pub(crate) type Scaling = ArrayVec<Place, MOST_INDEXES>;

/// A scaling at more than two levels in which the image is before the prefix, if one is found.
pub(crate) fn earlier_scaling(points: &Points, basis: &Basis, turns: &mut u32) -> Option<Scaling> {
    let most = scaling_count(points.base).min(*turns / SCALING);
    for number in 0..most {
        *turns = turns.saturating_sub(SCALING);
        let scaling = scaling_of(points.base, number);
        if is_earlier(points, basis, &scaling) {
            return Some(scaling);
        }
    }
    None
}

/// The number of scalings. The last code is 1, since a multiple of a point counts as the point.
fn scaling_count(base: Base) -> u32 {
    let codes = u32::from(base.q.saturating_sub(1).max(1));
    let high = base.m.saturating_sub(base.h);
    let mut count = 1u32;
    for i in 0..base.m {
        let left = if i < base.h {
            base.h - i
        } else {
            high - (i - base.h).min(high)
        };
        count = count.saturating_mul(u32::from(left.max(1)));
        if i + 1 < base.m {
            count = count.saturating_mul(codes);
        }
    }
    count
}

/// The scaling of a number, whose digits to changing bases choose a vector of those that are left, and its code.
fn scaling_of(base: Base, number: u32) -> Scaling {
    let mut scaling = ArrayVec::new();
    let low = usize::from(base.h).min(MOST_INDEXES);
    let all = usize::from(base.m).min(MOST_INDEXES);
    let rest = choose(&mut scaling, base, [0, low], number);
    choose(&mut scaling, base, [low, all], rest);
    scaling
}

/// Appends the vectors of some indexes in an order, and returns what is left of the number.
fn choose(scaling: &mut Scaling, base: Base, range: [usize; 2], number: u32) -> u32 {
    let codes = u32::from(base.q.saturating_sub(1).max(1));
    let mut left = indexes(range);
    let mut rest = number;
    for _ in 0..MOST_INDEXES {
        let count = left.len();
        if count == 0 {
            return rest;
        }
        let index = left.remove(rest as usize % count);
        rest /= count as u32;
        let is_last = count == 1 && range[1] == usize::from(base.m);
        let code = if is_last { 1 } else { (rest % codes) as u8 + 1 };
        rest = if is_last { rest } else { rest / codes };
        let _ = scaling.try_push(Place { index, code });
    }
    rest
}

fn indexes(range: [usize; 2]) -> ArrayVec<usize, MOST_INDEXES> {
    let mut indexes = ArrayVec::new();
    for index in range[0]..range[1].min(MOST_INDEXES) {
        let _ = indexes.try_push(index);
    }
    indexes
}

/// Whether the image is before the prefix: at the first difference it has the greater row. The rows of whole-plot
/// factors come first.
fn is_earlier(points: &Points, basis: &Basis, scaling: &Scaling) -> bool {
    let base = points.base;
    let blocks = base.blocks();
    match compared(points, false, basis, scaling, [1, blocks]) {
        Comparison::Before => true,
        Comparison::Same => {
            let runs = base.shape().runs();
            compared(points, true, basis, scaling, [blocks, runs]) == Comparison::Before
        }
        Comparison::After => false,
    }
}

/// How the image compares with the prefix at the rows in a range, those of whole-plot factors or of the others.
fn compared(
    points: &Points,
    outside: bool,
    basis: &Basis,
    scaling: &Scaling,
    range: [u16; 2],
) -> Comparison {
    let own = if outside {
        &points.outside
    } else {
        &points.inside
    };
    for row in (range[0]..range[1]).rev() {
        if may_follow_units(points.base, row) {
            let found = compared_at(own, point_of(points.base, basis, scaling, row), row);
            if found != Comparison::Same {
                return found;
            }
        }
    }
    Comparison::Same
}

/// Whether a row is normal, and no unit vector, so that it may follow them: its last digit is 1, and another is not 0.
fn may_follow_units(base: Base, row: u16) -> bool
    requires { IsBase base }
{
    let q = u16::from(base.shape().field().q());
    let mut rest = row;
    let mut unit = 1u16;
    for _ in 0..MOST_INDEXES {
        if rest < q {
            return rest == 1 && row != unit;
        }
        rest /= q;
        unit = unit.saturating_mul(q);
    }
    false
}

/// The point of which a row is the image.
fn point_of(base: Base, basis: &Basis, scaling: &Scaling, row: u16) -> u16
    requires { IsBase base }
{
    let field = base.shape().field();
    let q = u16::from(field.q());
    let mut rest = row;
    let mut point = 0;
    for place in scaling.as_slice() {
        let code = field.mul((rest % q) as u8, place.code.min(base.q - 1));
        point = plus(
            base,
            point,
            basis.vectors[place.index.min(MOST_INDEXES - 1)],
            code,
        );
        rest /= q;
    }
    point
}

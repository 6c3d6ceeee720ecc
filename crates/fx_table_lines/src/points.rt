ghost use Rattle.std.specs.Prelude.{◌≡◌, ◌<◌, ◌≤◌};
ghost use Rattle.fx_table_book.specs.Tables.{IsBase};

use crate::basis::multiple;
use fx_points::PointSet;
use fx_table_book::Base;
use fx_table_check::Prefix;

/// The rows of a prefix and their multiples.
#[derive(Drop)]
pub(crate) struct Points {
    pub(crate) base: Base,
    /// Those of the whole-plot factors.
    pub(crate) inside: PointSet,
    /// Those of the other factors.
    pub(crate) outside: PointSet,
    /// Whether there are rows of other factors.
    pub(crate) reaches_outside: bool,
    ghost valid: { IsBase base },
}

/// How an image compares with the prefix at some rows.
#[derive(Clone, Copy, PartialEq, Eq)]
pub(crate) enum Comparison {
    Before,
    Same,
    After,
}

impl Points {
    /// Those of a prefix.
    pub(crate) fn of(prefix: &Prefix) -> Points {
        let base = prefix.base();
        let field = base.shape().field();
        let mut inside = PointSet::empty(field, base.m);
        let mut outside = PointSet::empty(field, base.m);
        for k in 0..prefix.len() {
            if k < usize::from(base.w) {
                insert_multiples(&mut inside, base, prefix.row(k));
            } else {
                insert_multiples(&mut outside, base, prefix.row(k));
            }
        }
        Points {
            base,
            inside,
            outside,
            reaches_outside: prefix.len() > usize::from(base.w),
        }
    }
}

fn insert_multiples(points: &mut PointSet, base: Base, row: u16)
    requires { IsBase base }
{
    for code in 1..base.q {
        let point = multiple(base, row, code);
        if point < 1024 {
            points.insert(point);
        }
    }
}

/// How the image of a point compares with the prefix at this row.
pub(crate) fn compared_at(own: &PointSet, point: u16, row: u16) -> Comparison {
    if has(own, point) == has(own, row) {
        Comparison::Same
    } else if has(own, row) {
        Comparison::After
    } else {
        Comparison::Before
    }
}

fn has(points: &PointSet, point: u16) -> bool {
    point < 1024 && points.contains(point)
}

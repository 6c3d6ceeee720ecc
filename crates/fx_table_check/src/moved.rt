ghost use Rattle.std.specs.Prelude.{◌≡◌, ◌==◌, ◌<◌, ◌≤◌, ◌+◌, ◌^◌, ◌++◌, All, length};
ghost use Rattle.std.specs.List.{list_any};
ghost use Rattle.fx_designs.specs.Answers.{falling};
ghost use Rattle.fx_strata.specs.Changes.{moved};
ghost use Rattle.fx_strata.specs.Canonical.{units, dimensions_of};
ghost use Rattle.fx_strata.specs.Images.{moved_rows};
ghost use Rattle.fx_table_book.specs.Tables.{strata_of, IsBase};
ghost use Rattle.fx_table_check.specs.Moves.{AreMoved};

use arrayvec::ArrayVec;
use fx_strata::moved_row;
use fx_table_book::{Base, MOST_INDEXES};
use fx_vectors::MOST_FACTORS;

/// What a change makes of the rows of a stage that each design below a prefix has: of its unit vectors, and of the rows
/// of the prefix.
#[derive(Drop)]
pub(crate) struct Moved {
    pub(crate) units: ArrayVec<u16, MOST_INDEXES>,
    pub(crate) rows: ArrayVec<u16, MOST_FACTORS>,
}

impl Moved {
    /// What a change makes of so many unit vectors, and of these rows.
    pub(crate) fn of(base: Base, change: &[u16], from: u8, len: u8, rows: &[u16]) -> Moved
        requires base { IsBase base }
        requires count { length change.now ≡ base.m }
        requires below { All (λ a. a < base.q ^ base.m) change.now }
        requires units { from + len ≤ base.m }
        requires rows { All (λ r. r < base.q ^ base.m) rows.now }
        requires few { length rows.now ≤ MOST_FACTORS }
        ensures { AreMoved (strata_of base) change.now from len rows.now result }
    {
        Moved {
            units: moved_units(base, change, from, len),
            rows: moved_rows(base, change, rows),
        }
    }

    /// Whether a vector is among the images.
    pub(crate) fn has(&self, to: u16) -> bool
        ensures { result ≡ list_any (λ y. y == to) (self.now.units.items ++ self.now.rows.items) }
    {
        if self.units.as_slice().contains(&to) {
            return true;
        }
        self.rows.as_slice().contains(&to)
    }
}

/// What a change makes of so many unit vectors.
fn moved_units(base: Base, change: &[u16], from: u8, len: u8) -> ArrayVec<u16, MOST_INDEXES>
    requires base { IsBase base }
    requires count { length change.now ≡ base.m }
    requires below { All (λ a. a < base.q ^ base.m) change.now }
    requires units { from + len ≤ base.m }
    ensures { result.items ≡ moved_rows (strata_of base) change.now (units base.q from len) }
{
    let mut images = ArrayVec::new();
    for i in 0..len {
        images.push(moved_unit(base, change, from + i));
    }
    images
}

/// What a change makes of a row.
fn image_of(base: Base, change: &[u16], row: u16) -> u16
    requires base { IsBase base }
    requires count { length change.now ≡ base.m }
    requires below { All (λ a. a < base.q ^ base.m) change.now }
    requires row { row < base.q ^ base.m }
    ensures { result ≡ moved (dimensions_of (strata_of base)) change.now row }
{
    moved_row(base.shape(), change, row)
}

/// What a change makes of the unit vector with its 1 at a place.
fn moved_unit(base: Base, change: &[u16], place: u8) -> u16
    requires base { IsBase base }
    requires count { length change.now ≡ base.m }
    requires below { All (λ a. a < base.q ^ base.m) change.now }
    requires place { place < base.m }
    ensures { result ≡ moved (dimensions_of (strata_of base)) change.now (base.q ^ place) }
{
    image_of(base, change, base.power(place))
}

/// Whether a change moves some row below a bound to a vector.
pub(crate) fn moves_below(base: Base, change: &[u16], bound: u16, to: u16) -> bool
    requires base { IsBase base }
    requires count { length change.now ≡ base.m }
    requires below { All (λ a. a < base.q ^ base.m) change.now }
    requires bound { bound ≤ base.q ^ base.m }
    ensures { result
        ≡ list_any (λ r. moved (dimensions_of (strata_of base)) change.now r == to) (falling bound) }
{
    for row in (0..bound).rev() {
        if image_of(base, change, row) == to {
            return true;
        }
    }
    false
}

/// What a change makes of each row.
fn moved_rows(base: Base, change: &[u16], rows: &[u16]) -> ArrayVec<u16, MOST_FACTORS>
    requires base { IsBase base }
    requires count { length change.now ≡ base.m }
    requires below { All (λ a. a < base.q ^ base.m) change.now }
    requires rows { All (λ r. r < base.q ^ base.m) rows.now }
    requires few { length rows.now ≤ MOST_FACTORS }
    ensures { result.items ≡ moved_rows (strata_of base) change.now rows.now }
{
    let mut images = ArrayVec::new();
    for row in rows {
        images.push(image_of(base, change, *row));
    }
    images
}

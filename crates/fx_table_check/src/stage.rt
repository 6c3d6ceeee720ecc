ghost use Rattle.std.specs.Prelude.{◌≡◌, ◌<◌, ◌≤◌, ◌+◌};
ghost use Rattle.fx_strata.specs.Stages.{stage_at};
ghost use Rattle.fx_table_book.specs.Tables.{strata_of, IsBase};
ghost use Rattle.fx_table_check.specs.Prefixes.{stage_of};

use fx_table_book::Base;

/// The rows of the inside factors, or those of the outside factors: first come their unit vectors.
#[derive(Clone, Copy)]
pub(crate) struct Stage {
    /// The place of the 1 in the first unit vector.
    pub(crate) first_unit: u8,
    pub(crate) units: u8,
    /// The place of the first row.
    pub(crate) begin: u8,
    /// The place behind the last row.
    pub(crate) end: u8,
}

impl Stage {
    /// The stage of the row at a place.
    pub(crate) fn at(base: Base, place: usize) -> Stage
        requires { IsBase base }
        ensures stage { stage_of result ≡ stage_at (strata_of base) place }
        ensures first { result.first_unit ≤ base.m }
        ensures units { result.first_unit + result.units ≤ base.m }
        ensures small { result.first_unit + result.units < 256 }
        ensures begin { result.begin ≤ place }
        ensures end { result.end ≤ 63 }
    {
        if place < usize::from(base.w) {
            Stage {
                first_unit: 0,
                units: base.h,
                begin: 0,
                end: base.w,
            }
        } else {
            Stage {
                first_unit: base.h,
                units: base.m - base.h,
                begin: base.w,
                end: base.w + base.n,
            }
        }
    }
}

ghost use Rattle.std.specs.Prelude.{◌≡◌, ◌<◌, ◌≤◌, ◌+◌, ◌-◌, ◌^◌, length, true, false, IsTrue};
ghost use Rattle.fx_strata.specs.Canonical.{is_later, dimensions_of};
ghost use Rattle.fx_strata.specs.Stages.{stage_after, has_units, bound, missing, may_follow, has_no_room, later_rows};
ghost use Rattle.fx_table_book.specs.Tables.{strata_of};
ghost use Rattle.fx_table_check.specs.Prefixes.{stage_of};

use crate::prefix::Prefix;
use crate::stage::Stage;
use fx_vectors::MOST_FACTORS;

impl Prefix {
    /// The stage of the next row.
    pub(crate) fn stage(&self) -> Stage
        ensures stage { stage_of result ≡ stage_after (strata_of self.now.base) self.now.rows }
        ensures first { result.first_unit ≤ self.now.base.m }
        ensures units { result.first_unit + result.units ≤ self.now.base.m }
        ensures small { result.first_unit + result.units < 256 }
        ensures begin { result.begin ≤ length self.now.rows }
        ensures end { result.end ≤ MOST_FACTORS }
    {
        Stage::at(self.base(), self.len())
    }

    /// Whether all unit vectors of the stage of the next row are there.
    pub(crate) fn has_units(&self) -> bool
        ensures { result ≡ has_units (strata_of self.now.base) self.now.rows }
    {
        let stage = self.stage();
        usize::from(stage.begin) + usize::from(stage.units) <= self.len()
    }

    /// What the next row is below, once the unit vectors of its stage are there.
    pub(crate) fn bound(&self) -> u16
        requires { has_units (strata_of self.now.base) self.now.rows ≡ true }
        ensures bound { result ≡ bound (strata_of self.now.base) self.now.rows }
        ensures low { result ≤ self.now.base.q ^ self.now.base.m }
    {
        let stage = self.stage();
        if self.len() == usize::from(stage.begin) + usize::from(stage.units) {
            self.base().power(stage.first_unit + stage.units)
        } else {
            self.row(self.len() - 1)
        }
    }

    /// How many rows of the stage of the next row are missing.
    pub(crate) fn missing(&self) -> usize
        ensures missing { result ≡ missing (strata_of self.now.base) self.now.rows }
        ensures few { result ≤ MOST_FACTORS }
    {
        usize::from(self.stage().end) - self.len()
    }

    /// The first unit vector of the stage of the next row. What comes behind the unit vectors is not less.
    pub(crate) fn least_row(&self) -> u16
        ensures { result
            ≡ self.now.base.q ^ (stage_after (strata_of self.now.base) self.now.rows).first_unit }
    {
        self.base().power(self.stage().first_unit)
    }

    /// Whether a row can come behind the unit vectors of the stage of the next row, of which `least` is the first.
    pub(crate) fn is_later(&self, least: u16, row: u16) -> bool
        requires least { least
            ≡ self.now.base.q ^ (stage_after (strata_of self.now.base) self.now.rows).first_unit }
        requires row { row < self.now.base.q ^ self.now.base.m }
        ensures { result
            ≡ is_later (dimensions_of (strata_of self.now.base))
            (stage_after (strata_of self.now.base) self.now.rows).first_unit row }
    {
        row >= least && self.others().contains(row)
    }

    /// Whether a row is normal and no unit vector, so that it can come behind those.
    pub fn is_other(&self, row: u16) -> bool
        requires { row < self.now.base.q ^ self.now.base.m }
    {
        self.others().contains(row)
    }

    /// Whether the row may come next.
    pub(crate) fn may_follow(&self, row: u16) -> bool
        requires room { length self.now.rows < self.now.base.w + self.now.base.n }
        ensures follow { result ≡ may_follow (strata_of self.now.base) self.now.rows row }
        ensures below { IsTrue result → row < self.now.base.q ^ self.now.base.m }
    {
        if self.has_units() {
            return row < self.bound() && self.is_later(self.least_row(), row);
        }
        row == self.next_unit()
    }

    /// The unit vector that comes next, where one is missing.
    pub(crate) fn next_unit(&self) -> u16
        requires { has_units (strata_of self.now.base) self.now.rows ≡ false }
        ensures unit { let x = strata_of self.now.base in let stage = stage_after x self.now.rows in
            result ≡ x.q ^ (stage.first_unit + (length self.now.rows - stage.begin)) }
        ensures below { result < self.now.base.q ^ self.now.base.m }
    {
        let stage = self.stage();
        self.base().power(stage.first_unit + (self.len() - usize::from(stage.begin)) as u8)
    }

    /// Whether fewer rows can follow than are missing.
    pub fn has_no_room(&self) -> bool
        ensures { result ≡ has_no_room (strata_of self.now.base) self.now.rows }
    {
        self.has_units() && self.later_count() < self.missing()
    }

    /// How many rows can still follow in the stage of the next row.
    fn later_count(&self) -> usize
        requires { has_units (strata_of self.now.base) self.now.rows ≡ true }
        ensures { result ≡ length (later_rows (strata_of self.now.base) self.now.rows) }
    {
        let least = self.least_row();
        let mut count = 0;
        for row in 0..self.bound() {
            if self.is_later(least, row) {
                count += 1;
            }
        }
        count
    }
}

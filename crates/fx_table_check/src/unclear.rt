ghost use Rattle.std.specs.Prelude.{◌≡◌, ◌<◌, ◌≤◌, ◌+◌, ◌-◌, ◌*◌, ◌^◌, ◌++◌, [], ◌∷◌, length, true, count_by};
ghost use Rattle.fx_strata.specs.Canonical.{unclear};
ghost use Rattle.fx_strata.specs.Clear.{pairs};
ghost use Rattle.fx_strata.specs.Floors.{is_spare, taking, unclear_floor};
ghost use Rattle.fx_strata.specs.Stages.{has_units, later_rows};
ghost use Rattle.fx_table_book.specs.Tables.{strata_of};
ghost use Rattle.fx_table_check.specs.Effects.{AreEffects};

use crate::effects::Effects;
use crate::prefix::Prefix;

impl Prefix {
    /// How many words of two factors are not clear with this row added.
    pub(crate) fn unclear_with(&mut self, row: u16) -> u128
        requires room { length self.old.rows < self.old.base.w + self.old.base.n }
        requires below { row < self.old.base.q ^ self.old.base.m }
        ensures unclear { result ≡ unclear (strata_of self.old.base) (self.old.rows ++ row ∷ []) }
        ensures small { result < 2 ^ 127 }
        ensures same { self.new ≡ self.old }
    {
        self.push(row);
        let effects = self.effects();
        let unclear = self.unclear(&effects);
        self.pop();
        unclear
    }

    /// With this row added, the floor of the words of two factors that are not clear.
    pub(crate) fn unclear_floor_with(&mut self, row: u16, none: bool) -> u128
        requires room { length self.old.rows < self.old.base.w + self.old.base.n }
        requires below { row < self.old.base.q ^ self.old.base.m }
        requires units { has_units (strata_of self.old.base) (self.old.rows ++ row ∷ []) ≡ true }
        ensures floor { result ≡ unclear_floor (strata_of self.old.base) none (self.old.rows ++ row ∷ []) }
        ensures same { self.new ≡ self.old }
    {
        self.push(row);
        let floor = self.unclear_floor(none);
        self.pop();
        floor
    }

    /// At least so many words of two factors are not clear in each design below the prefix.
    fn unclear_floor(&self, none: bool) -> u128
        requires units { has_units (strata_of self.now.base) self.now.rows ≡ true }
        ensures { result ≡ unclear_floor (strata_of self.now.base) none self.now.rows }
    {
        let base = self.base();
        let effects = self.effects();
        let all = pairs(base.q, usize::from(base.w + base.n));
        let multiples = u128::from(base.q - 1);
        let taking = multiples * self.taking(none, &effects) as u128;
        let left = (all + taking).saturating_sub(u128::from(effects.live_sums(base)));
        self.unclear(&effects).max(left)
    }

    /// The words of one factor and of two by their sums.
    fn effects(&self) -> Effects
        ensures { AreEffects self.now.base.q self.now.base.m self.now.rows result }
    {
        let rows = self.all_rows();
        Effects::of(self.base(), self.sums(), rows.as_slice())
    }

    /// How many words of two factors are not clear.
    fn unclear(&self, effects: &Effects) -> u128
        requires effects { AreEffects self.now.base.q self.now.base.m self.now.rows effects.now }
        ensures unclear { result ≡ unclear (strata_of self.now.base) self.now.rows }
        ensures small { result < 2 ^ 127 }
    {
        let base = self.base();
        pairs(base.q, self.len()) - u128::from(effects.clear_sums(base))
    }

    /// How many of the missing rows take away their own live sums.
    fn taking(&self, none: bool, effects: &Effects) -> usize
        requires units { has_units (strata_of self.now.base) self.now.rows ≡ true }
        requires effects { AreEffects self.now.base.q self.now.base.m self.now.rows effects.now }
        ensures taking { result ≡ taking (strata_of self.now.base) none self.now.rows }
        ensures few { result ≤ 63 }
    {
        let base = self.base();
        if self.len() < usize::from(base.w) {
            return usize::from(base.n);
        }
        self.missing()
            .saturating_sub(self.spare_count(none, effects))
    }

    /// How many rows can follow in the stage of the next row without taking away live sums.
    fn spare_count(&self, none: bool, effects: &Effects) -> usize
        requires units { has_units (strata_of self.now.base) self.now.rows ≡ true }
        requires second { self.now.base.w ≤ length self.now.rows }
        requires effects { AreEffects self.now.base.q self.now.base.m self.now.rows effects.now }
        ensures { let x = strata_of self.now.base in
            result ≡ count_by (is_spare x none self.now.rows) (later_rows x self.now.rows) }
    {
        let least = self.least_row();
        let mut count = 0;
        for row in 0..self.bound() {
            if !self.is_later(least, row) {
                continue;
            }
            if self.is_spare(none, effects, row) {
                count += 1;
            }
        }
        count
    }

    /// Whether a row may come without taking away live sums: it is dead itself, and where no word of three factors may
    /// be constant it makes none.
    fn is_spare(&self, none: bool, effects: &Effects, row: u16) -> bool
        requires second { self.now.base.w ≤ length self.now.rows }
        requires effects { AreEffects self.now.base.q self.now.base.m self.now.rows effects.now }
        requires row { row < self.now.base.q ^ self.now.base.m }
        ensures { result ≡ is_spare (strata_of self.now.base) none self.now.rows row }
    {
        let base = self.base();
        if effects.is_live(base, row) {
            return false;
        }
        if !none {
            return true;
        }
        !effects.has_word_of_two(base, row)
    }
}

/// How many words of two factors so many factors have.
fn pairs(q: u8, factors: usize) -> u128
    requires some { 0 < q }
    requires levels { q ≤ 9 }
    requires few { factors ≤ 63 }
    ensures pairs { result ≡ pairs q factors }
    ensures fits { result ≤ 2 ^ 32 }
{
    let codes = u128::from(q - 1);
    let mut pairs = 0;
    for k in 0..factors {
        pairs += codes * (codes * k as u128);
    }
    pairs
}

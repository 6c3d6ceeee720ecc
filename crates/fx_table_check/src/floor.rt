ghost use Rattle.std.specs.Prelude.{◌≡◌, ◌<◌, ◌≤◌, ◌+◌, ◌-◌, ◌^◌, ◌++◌, [], ◌∷◌, All, length, true, map, Some};
ghost use Rattle.fx_strata.specs.Floors.{least_sum};
ghost use Rattle.fx_table_check.specs.Least.{least_of};
ghost use Rattle.fx_strata.specs.Canonical.{words};
ghost use Rattle.fx_strata.specs.Floors.{new_words, does_not_beat, cannot_beat};
ghost use Rattle.fx_strata.specs.Stages.{has_units, missing, later_rows};
ghost use Rattle.fx_table_book.specs.Tables.{strata_of, parts_of, IsWeight};
ghost use Rattle.fx_table_check.specs.Goals.{IsGoal, value_at, floor_of};

use crate::goal::Goal;
use crate::least::{put_among_least, total};
use crate::prefix::Prefix;
use arrayvec::ArrayVec;
use fx_table_book::Part;
use fx_vectors::MOST_FACTORS;

impl Prefix {
    /// Whether the key with this row added is not less than what is to be beaten.
    pub fn does_not_beat(&mut self, row: u16, goal: &Goal) -> bool
        requires room { length self.old.rows < self.old.base.w + self.old.base.n }
        requires below { row < self.old.base.q ^ self.old.base.m }
        requires goal { IsGoal (self.old.base.w + self.old.base.n) goal.now }
        ensures beat { result
            ≡ does_not_beat (strata_of self.old.base) (parts_of goal.now.parts) goal.now.beat
            (self.old.rows ++ row ∷ []) }
        ensures same { self.new ≡ self.old }
    {
        match &goal.beat {
            None => false,
            Some(beat) => self.is_no_less(row, goal.parts.as_slice(), beat.as_slice()),
        }
    }

    /// Whether the key with this row added is not less than another.
    fn is_no_less(&mut self, row: u16, parts: &[Part], beat: &[u128]) -> bool
        requires room { length self.old.rows < self.old.base.w + self.old.base.n }
        requires below { row < self.old.base.q ^ self.old.base.m }
        requires parts { All (IsWeight (self.old.base.w + self.old.base.n)) parts.now }
        requires entries { length beat.now ≡ length parts.now }
        ensures beat { result
            ≡ does_not_beat (strata_of self.old.base) (parts_of parts.now) (Some beat.now)
            (self.old.rows ++ row ∷ []) }
        ensures same { self.new ≡ self.old }
    {
        for i in 0..beat.len() {
            let value = self.value_with(row, parts[i]);
            if value != beat[i] {
                return beat[i] < value;
            }
        }
        true
    }

    /// What an entry of an order is worth with this row added.
    pub(crate) fn value_with(&mut self, row: u16, part: Part) -> u128
        requires room { length self.old.rows < self.old.base.w + self.old.base.n }
        requires below { row < self.old.base.q ^ self.old.base.m }
        requires part { IsWeight (self.old.base.w + self.old.base.n) part }
        ensures value { result ≡ value_at self.old.base (self.old.rows ++ row ∷ []) part }
        ensures small { result < 2 ^ 127 }
        ensures same { self.new ≡ self.old }
    {
        match part {
            Part::Constant { weight } => self.words_with(row, false, usize::from(weight) - 1),
            Part::Confounded { weight } => self.words_with(row, true, usize::from(weight) - 1),
            Part::Unclear => self.unclear_with(row),
        }
    }

    /// Whether the unit vectors of its stage are there with this row added, and the floor is not less than what is to
    /// be beaten.
    pub fn cannot_beat(&mut self, row: u16, goal: &Goal) -> bool
        requires room { length self.old.rows < self.old.base.w + self.old.base.n }
        requires below { row < self.old.base.q ^ self.old.base.m }
        requires goal { IsGoal (self.old.base.w + self.old.base.n) goal.now }
        ensures beat { result
            ≡ cannot_beat (strata_of self.old.base) (parts_of goal.now.parts) goal.now.beat
            (self.old.rows ++ row ∷ []) }
        ensures same { self.new ≡ self.old }
    {
        match &goal.beat {
            None => false,
            Some(beat) => {
                if !self.has_units_with(row) {
                    return false;
                }
                self.has_high_floor(row, goal, beat.as_slice())
            }
        }
    }

    /// Whether with this row added all unit vectors of the stage of the next row are there.
    fn has_units_with(&mut self, row: u16) -> bool
        requires room { length self.old.rows < self.old.base.w + self.old.base.n }
        requires below { row < self.old.base.q ^ self.old.base.m }
        ensures units { result ≡ has_units (strata_of self.old.base) (self.old.rows ++ row ∷ []) }
        ensures same { self.new ≡ self.old }
    {
        self.push(row);
        let units = self.has_units();
        self.pop();
        units
    }

    /// Whether with this row added, where the unit vectors are there, the floor is not less than a key.
    fn has_high_floor(&mut self, row: u16, goal: &Goal, beat: &[u128]) -> bool
        requires room { length self.old.rows < self.old.base.w + self.old.base.n }
        requires below { row < self.old.base.q ^ self.old.base.m }
        requires units { has_units (strata_of self.old.base) (self.old.rows ++ row ∷ []) ≡ true }
        requires goal { IsGoal (self.old.base.w + self.old.base.n) goal.now }
        requires beat { goal.now.beat ≡ Some beat.now }
        ensures beat { result
            ≡ cannot_beat (strata_of self.old.base) (parts_of goal.now.parts) (Some beat.now)
            (self.old.rows ++ row ∷ []) }
        ensures same { self.new ≡ self.old }
    {
        let parts = goal.parts.as_slice();
        for i in 0..beat.len() {
            let floor = self.floor_at(row, goal.none, parts[i]);
            if floor != beat[i] {
                return beat[i] < floor;
            }
        }
        true
    }

    /// With this row added, the floor of an entry of an order.
    fn floor_at(&mut self, row: u16, none: bool, part: Part) -> u128
        requires room { length self.old.rows < self.old.base.w + self.old.base.n }
        requires below { row < self.old.base.q ^ self.old.base.m }
        requires units { has_units (strata_of self.old.base) (self.old.rows ++ row ∷ []) ≡ true }
        requires part { IsWeight (self.old.base.w + self.old.base.n) part }
        ensures floor { result ≡ floor_of self.old.base none (self.old.rows ++ row ∷ []) part }
        ensures same { self.new ≡ self.old }
    {
        match part {
            Part::Constant { weight } => self.words_floor(row, false, usize::from(weight) - 1),
            Part::Confounded { weight } => self.words_floor(row, true, usize::from(weight) - 1),
            Part::Unclear => self.unclear_floor_with(row, none),
        }
    }

    /// With this row added, the floor of the words of weight i + 1.
    fn words_floor(&mut self, row: u16, confounded: bool, i: usize) -> u128
        requires room { length self.old.rows < self.old.base.w + self.old.base.n }
        requires below { row < self.old.base.q ^ self.old.base.m }
        requires units { has_units (strata_of self.old.base) (self.old.rows ++ row ∷ []) ≡ true }
        requires entry { i < self.old.base.w + self.old.base.n }
        ensures floor { let x = strata_of self.old.base in let rows = self.old.rows ++ row ∷ [] in
            result
            ≡ words x rows confounded (i + 1)
            + least_sum (missing x rows) (map (λ r. new_words x rows r confounded (i + 1)) (later_rows x rows)) }
        ensures same { self.new ≡ self.old }
    {
        let own = self.words_with(row, confounded, i);
        self.push(row);
        let new = self.least_new(confounded, i, own);
        self.pop();
        own + new
    }

    /// The least that the missing rows of the stage of the next row add to the words of weight i + 1, of which there
    /// are so many now.
    fn least_new(&mut self, confounded: bool, i: usize, own: u128) -> u128
        requires units { has_units (strata_of self.old.base) self.old.rows ≡ true }
        requires entry { i < self.old.base.w + self.old.base.n }
        requires own { own ≡ words (strata_of self.old.base) self.old.rows confounded (i + 1) }
        ensures least { let x = strata_of self.old.base in
            result
            ≡ least_sum (missing x self.old.rows)
            (map (λ r. new_words x self.old.rows r confounded (i + 1)) (later_rows x self.old.rows)) }
        ensures fits { result ≤ 2 ^ 126 }
        ensures same { self.new ≡ self.old }
    {
        // The base, once read, is known to be valid.
        let _known = self.base();
        let missing = self.missing();
        if missing == 0 {
            return 0;
        }
        let least = self.least_values(confounded, i, own, missing);
        total(least.as_slice())
    }

    /// The least of what later rows alone add, at most so many.
    fn least_values(
        &mut self,
        confounded: bool,
        i: usize,
        own: u128,
        most: usize,
    ) -> ArrayVec<u128, MOST_FACTORS>
        requires units { has_units (strata_of self.old.base) self.old.rows ≡ true }
        requires room { length self.old.rows < self.old.base.w + self.old.base.n }
        requires entry { i < self.old.base.w + self.old.base.n }
        requires own { own ≡ words (strata_of self.old.base) self.old.rows confounded (i + 1) }
        requires some { 0 < most }
        requires few { most ≤ MOST_FACTORS }
        ensures least { let x = strata_of self.old.base in
            result.items
            ≡ least_of most
            (map (λ r. new_words x self.old.rows r confounded (i + 1)) (later_rows x self.old.rows)) }
        ensures same { self.new ≡ self.old }
    {
        let _known = self.base();
        let first = self.least_row();
        let mut least = ArrayVec::new();
        for row in 0..self.bound() {
            if !self.is_later(first, row) {
                continue;
            }
            let new = self.words_with(row, confounded, i) - own;
            put_among_least(&mut least, most, new);
        }
        least
    }
}

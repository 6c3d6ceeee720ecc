ghost use Rattle.std.specs.Prelude.{◌≡◌, ◌<◌, ◌≤◌, ◌+◌, ◌-◌, ◌^◌, ◌++◌, [], ◌∷◌, ℕ, List, All, count_by, length, min, nat_lt, slice_index};
ghost use Rattle.std.specs.List.{range_with_len};
ghost use Rattle.fx_designs.specs.Galois.{digits};
ghost use Rattle.fx_points.specs.Sums.{sum_of};
ghost use Rattle.fx_strata.specs.Clear.{is_live, live_sums, is_clear_sum};
ghost use Rattle.fx_strata.specs.Spreads.{sums_at};
ghost use Rattle.fx_table_book.specs.Tables.{strata_of, IsBase};
ghost use Rattle.fx_table_check.specs.Effects.{AreEffects, AreCounted, AreFew, IsCapped};

use fx_points::Sums;
use fx_table_book::Base;

/// The most runs of a design.
const MOST_RUNS: usize = 1024;

/// Over some rows, how many words of no factor, of one and of two have each sum, counted up to 2.
#[derive(Drop)]
pub(crate) struct Effects {
    none: [u8; MOST_RUNS],
    ones: [u8; MOST_RUNS],
    twos: [u8; MOST_RUNS],
}

impl Effects {
    /// Those of these rows.
    pub(crate) fn of(base: Base, sums: &Sums, rows: &[u16]) -> Effects
        requires base { IsBase base }
        requires sums { sums.now ≡ record { q = base.q; m = base.m } }
        requires rows { All (λ r. r < base.q ^ base.m) rows.now }
        ensures { AreEffects base.q base.m rows.now result }
    {
        let mut effects = Effects::of_none(base);
        for row in rows {
            effects.add(sums, *row);
        }
        effects
    }

    /// Those of no rows.
    fn of_none(base: Base) -> Effects
        requires { IsBase base }
        ensures capped { IsCapped (base.q ^ base.m) result }
        ensures counted { AreEffects base.q base.m [] result }
    {
        // Zero alone is the sum of no factors.
        let mut none = zeros();
        none[0] = 1;
        Effects {
            none,
            ones: zeros(),
            twos: zeros(),
        }
    }

    /// Adds the words with a row more.
    fn add(&mut self, sums: &Sums, row: u16)
        requires row { row < sums.now.q ^ sums.now.m }
        requires capped { IsCapped (sums.now.q ^ sums.now.m) self.old }
        ensures capped { IsCapped (sums.now.q ^ sums.now.m) self.new }
        ensures counted { (rows : List ℕ) → AreEffects sums.now.q sums.now.m rows self.old
            → AreEffects sums.now.q sums.now.m (rows ++ row ∷ []) self.new }
    {
        // The order of the field, once read, is known to be one of the seven.
        let _known = sums.q();
        add_row(&mut self.twos, &self.ones, sums, row);
        add_row(&mut self.ones, &self.none, sums, row);
    }

    /// Whether a sum is live.
    pub(crate) fn is_live(&self, base: Base, sum: u16) -> bool
        requires base { IsBase base }
        requires sum { sum < base.q ^ base.m }
        ensures { (rows : List ℕ) → AreEffects base.q base.m rows self.now
            → result ≡ is_live (strata_of base) rows (digits base.q base.m sum) }
    {
        if sum < base.blocks() {
            return false;
        }
        if self.ones[usize::from(sum)] != 0 {
            return false;
        }
        self.twos[usize::from(sum)] < 2
    }

    /// Whether a sum is that of a clear word.
    fn is_clear(&self, base: Base, sum: u16) -> bool
        requires base { IsBase base }
        requires sum { sum < base.q ^ base.m }
        ensures { (rows : List ℕ) → AreEffects base.q base.m rows self.now
            → result ≡ is_clear_sum (strata_of base) rows (digits base.q base.m sum) }
    {
        if !self.is_live(base, sum) {
            return false;
        }
        self.twos[usize::from(sum)] == 1
    }

    /// How many sums are live.
    pub(crate) fn live_sums(&self, base: Base) -> u16
        requires base { IsBase base }
        ensures { (rows : List ℕ) → AreEffects base.q base.m rows self.now
            → result ≡ live_sums (strata_of base) rows }
    {
        let mut count = 0;
        for sum in 0..base.power(base.m) {
            if self.is_live(base, sum) {
                count += 1;
            }
        }
        count
    }

    /// How many sums are those of clear words.
    pub(crate) fn clear_sums(&self, base: Base) -> u16
        requires base { IsBase base }
        ensures { (rows : List ℕ) → AreEffects base.q base.m rows self.now
            → result
            ≡ count_by (λ r. is_clear_sum (strata_of base) rows (digits base.q base.m r))
            (range_with_len 0 (base.q ^ base.m)) }
    {
        let mut count = 0;
        for sum in 0..base.power(base.m) {
            if self.is_clear(base, sum) {
                count += 1;
            }
        }
        count
    }

    /// Whether a word of two factors has this sum.
    pub(crate) fn has_word_of_two(&self, base: Base, sum: u16) -> bool
        requires base { IsBase base }
        requires sum { sum < base.q ^ base.m }
        ensures { (rows : List ℕ) → AreEffects base.q base.m rows self.now
            → result ≡ nat_lt 0 (sums_at (strata_of base) rows 2 sum) }
    {
        self.twos[usize::from(sum)] > 0
    }
}

/// A count for each run, none of any.
fn zeros() -> [u8; MOST_RUNS]
    ensures len { length result ≡ MOST_RUNS }
    ensures zeros { (i : ℕ) → i < MOST_RUNS → slice_index result i ≡ 0 }
{
    [0; MOST_RUNS]
}

/// Adds the words that a row makes with those of one factor less.
fn add_row(counts: &mut [u8], lighter: &[u8], sums: &Sums, row: u16)
    requires row { row < sums.now.q ^ sums.now.m }
    requires few { AreFew (sums.now.q ^ sums.now.m) counts.old }
    requires lighter { AreFew (sums.now.q ^ sums.now.m) lighter.now }
    ensures few { AreFew (sums.now.q ^ sums.now.m) counts.new }
    ensures counted { (rows : List ℕ) (k : ℕ)
        → AreCounted sums.now.q sums.now.m rows k lighter.now
        → AreCounted sums.now.q sums.now.m rows (k + 1) counts.old
        → AreCounted sums.now.q sums.now.m (rows ++ row ∷ []) (k + 1) counts.new }
{
    for c in 1..sums.q() {
        add_moved(counts, lighter, sums, sums.minus(sums.times(row, c)));
    }
}

/// Adds to each count the lighter one at the sum of its point and another.
fn add_moved(counts: &mut [u8], lighter: &[u8], sums: &Sums, point: u16)
    requires point { point < sums.now.q ^ sums.now.m }
    requires few { AreFew (sums.now.q ^ sums.now.m) counts.old }
    requires lighter { AreFew (sums.now.q ^ sums.now.m) lighter.now }
    ensures few { AreFew (sums.now.q ^ sums.now.m) counts.new }
    ensures added { (x : ℕ) → x < sums.now.q ^ sums.now.m
        → slice_index counts.new x
        ≡ min 2 (slice_index counts.old x
        + slice_index lighter.now (sum_of sums.now.q 1 sums.now.m x point)) }
{
    for x in 0..sums.size() {
        let more = lighter[usize::from(sums.plus(x, point))];
        let at = usize::from(x);
        counts[at] = up_to_two(counts[at], more);
    }
}

/// The sum of two counts, up to 2.
fn up_to_two(a: u8, b: u8) -> u8
    requires first { a ≤ 2 }
    requires second { b ≤ 2 }
    ensures sum { result ≡ min 2 (a + b) }
    ensures few { result ≤ 2 }
{
    (a + b).min(2)
}

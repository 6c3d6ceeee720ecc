ghost use Rattle.std.specs.Prelude.{◌≡◌, ◌+◌, ◌-◌, ◌*◌, ◌^◌, ◌<◌, ◌≤◌, ◌++◌, [], ◌∷◌, ℕ, IfOk, IfSome};
ghost use Rattle.std.specs.Prelude.{length, take, slice_index_or, ◌==◌};
ghost use Rattle.std.specs.Prelude.{true, false, None, All};
ghost use Rattle.std.specs.Option.{IfNone};
ghost use Rattle.std.specs.List.{AllByRecursion};
ghost use Rattle.fx_designs.specs.Galois.{neg};
ghost use Rattle.fx_demands.specs.declared.forbidden_list.ForbiddenVector.{ForbiddenVector};
ghost use Rattle.fx_designs.specs.Problems.{Dimensions, Requirement};
ghost use Rattle.fx_designs.specs.Vectors.{IsVector};
ghost use Rattle.fx_demands.specs.EffectVectors.{AreFactorParts};
ghost use Rattle.fx_points.specs.Points.{has};
ghost use Rattle.fx_barred.specs.BestWords.{AreBest, AreWithin};
ghost use Rattle.fx_points.specs.Sums.{sum_of};
ghost use Rattle.fx_barred.specs.Places.{AreLists};
ghost use Rattle.fx_barred.specs.Keeping.{AreKept};
ghost use Rattle.fx_barred.specs.FirstWords.{FirstWordsView, AreFirstWords, AreWords, IsFirst, HasNone};
ghost use Rattle.fx_vectors.specs.declared.shape.TheConstants.{MOST_FACTORS};

use crate::best_words::{Best, fill_listed};
use crate::kept::{Kept, none_kept};
use crate::next_vectors::{LISTS, drop_lists, empty_lists, fill_with};
use crate::reached::{Reached, filled};
use fx_base::{NoMemory, Values};
use fx_demands::ForbiddenVectors;
use fx_galois::Field;
use fx_points::PointSet;
use fx_vectors::Vector;
use std::alloc::Global;
use std::marker::Model;

/// The rows so far, and for each point that may come next the first forbidden vector that it brings
/// to zero. Clauses see the rows and the vectors.
pub struct FirstWords<'a> {
    alloc: Global,
    /// The rows and their multiples. No rows are taken together here.
    reached: Reached,
    words: &'a ForbiddenVectors,
    /// For each number of rows, and each sum over them, one more than the first vector that has it and
    /// its last factor right after these rows, or 0.
    tables: Vec<usize>,
    /// For each number of rows lists of places that stand for all vectors with their last factor right after these
    /// rows.
    lists: Vec<Values<usize>>,
    /// For each number of rows places that stand for all of these vectors, whatever the first rows are.
    kept: Vec<Kept>,
}

// Not derived, so that a place that drops one is proved with one call.
impl Drop for FirstWords<'_> {
    fn drop(self) {
        let FirstWords {
            alloc: _,
            reached: _,
            words: _,
            tables: _,
            lists: _,
            kept: _,
        } = self;
    }
}

impl<'a> Model for FirstWords<'a> {
    ghost use Rattle.fx_barred.specs.FirstWords.{FirstWordsView, AreFirstWords};
    ghost use Rattle.fx_barred.specs.Places.{AreLists};
    ghost use Rattle.fx_barred.specs.Keeping.{AreKept};

    ghost Value = { FirstWordsView };

    ghost view = { λ x. record { q = x.reached.q; m = x.reached.m; room = x.reached.room; words = x.words.now; rows = x.reached.rows } };

    ghost invariant = { λ x. AreFirstWords x.reached x.words.now x.tables.items × AreLists x.reached x.words.now x.lists.items × AreKept x.reached.q x.reached.m x.reached.room x.words.now x.kept.items };
}

impl<'a> FirstWords<'a> {
    /// No rows, and place for `s` of them, where these vectors over `s` factors are forbidden.
    ///
    /// # Errors
    ///
    /// `NoMemory`.
    pub fn of(
        alloc: Global,
        field: Field,
        m: u8,
        s: usize,
        words: &'a ForbiddenVectors,
    ) -> Result<FirstWords<'a>, NoMemory>
        requires runs { field ^ m ≤ 1024 }
        requires some { 1 ≤ s }
        requires room { s ≤ MOST_FACTORS }
        requires fits { field ^ s < 2 ^ 127 }
        requires words { AreWords field s words.now }
        ensures { IfOk result (λ first.
            first ≡ record { q = field; m = m; room = s; words = words.now; rows = [] }) }
    {
        let reached = Reached::of(alloc, field, m, 0, s)?;
        let mut lists = empty_lists(alloc, LISTS * s)?;
        let mut kept = none_kept(alloc, s)?;
        let mut tables = filled(alloc, 0usize, s * usize::from(reached.size()))?;
        fill_with(
            alloc,
            &reached,
            words.as_slice(),
            tables.as_mut_slice(),
            lists.as_mut_slice(),
            kept.as_mut_slice(),
        );
        Ok(FirstWords {
            alloc,
            reached,
            words,
            tables,
            lists,
            kept,
        })
    }

    /// How many rows there are.
    pub fn len(&self) -> usize
        ensures count { result ≡ length self.now.rows }
        ensures fits { result ≤ self.now.room }
        ensures points { AllByRecursion (λ r. r < self.now.q ^ self.now.m) self.now.rows }
    {
        self.reached.len()
    }

    /// The place of the first vector that this row, which comes next, brings to zero.
    pub fn first(&self, row: u16) -> Option<usize>
        requires room { length self.now.rows < self.now.room }
        requires point { row < self.now.q ^ self.now.m }
        ensures some { IfSome result (λ k.
            IsFirst self.now.q self.now.m self.now.rows self.now.words (length self.now.rows)
            (sum_of self.now.q (neg self.now.q 1) self.now.m 0 row) k) }
        ensures none { IfNone result
            (HasNone self.now.q self.now.m self.now.rows self.now.words (length self.now.rows)
            (sum_of self.now.q (neg self.now.q 1) self.now.m 0 row)
            (length self.now.words)) }
    {
        let size = usize::from(self.reached.size());
        let place = self.reached.len() * size + usize::from(self.reached.minus(row));
        let found = self.tables[place];
        if found == 0 { None } else { Some(found - 1) }
    }

    /// The rows that a vector brings to zero, where another row may come.
    pub fn barred(&self) -> PointSet
        requires room { length self.now.rows < self.now.room }
        ensures some { (x : ℕ) → x < self.now.q ^ self.now.m → has result x ≡ true
            → (k : ℕ)
            × IsFirst self.now.q self.now.m self.now.rows self.now.words (length self.now.rows)
            (sum_of self.now.q (neg self.now.q 1) self.now.m 0 x) k }
        ensures none { (x : ℕ) → x < self.now.q ^ self.now.m → has result x ≡ false
            → HasNone self.now.q self.now.m self.now.rows self.now.words (length self.now.rows)
            (sum_of self.now.q (neg self.now.q 1) self.now.m 0 x)
            (length self.now.words) }
    {
        let mut set = self.reached.no_points();
        for x in 0..self.size() {
            if self.first(x).is_some() {
                set.insert(x);
            }
        }
        set
    }

    /// How many points there are.
    pub(crate) fn size(&self) -> u16
        ensures points { result ≡ self.now.q ^ self.now.m }
        ensures few { result ≤ 1024 }
    {
        self.reached.size()
    }

    /// Puts in for each point, from place `first` on, the best word for a block row that comes right
    /// after the factor rows, of which these are the parts on the factors.
    pub fn fill_listed(&self, parts: &[Vector], tables: &mut [Option<Best>], first: usize)
        requires parts { All (λ v. IsVector self.now.q self.now.room v) parts.now }
        requires all { length self.now.rows ≡ self.now.room }
        requires there { first + self.now.q ^ self.now.m ≤ length tables.old }
        ensures len { length tables.new ≡ length tables.old }
        ensures kept { (k : ℕ) → k < first → slice_index_or tables.new k None ≡ slice_index_or tables.old k None }
        ensures within { AreWithin self.now.q self.now.m (length self.now.rows) first tables.new }
        ensures best { (d : Dimensions) (wanted : Requirement) → d.q ≡ self.now.q → d.m ≡ self.now.m
            → length self.now.rows ≡ d.s → AreFactorParts d wanted parts.now
            → AreBest d wanted self.now.rows first tables.new }
    {
        fill_listed(&self.reached, parts, tables, first);
    }

    /// The number of the vector at this place.
    pub fn number(&self, k: usize) -> u128
        requires { k < length self.now.words }
        ensures { (d : ForbiddenVector) → result ≡ (slice_index_or self.now.words k d).number }
    {
        self.words.as_slice()[k].number
    }

    /// Adds a row.
    pub fn push(&mut self, row: u16)
        requires room { length self.old.rows < self.old.room }
        requires below { row < self.old.q ^ self.old.m }
        ensures { self.new ≡ record self.old { rows = self.old.rows ++ row ∷ [] } }
    {
        self.reached.push(row);
        if self.reached.len() < self.reached.room() {
            fill_with(
                self.alloc,
                &self.reached,
                self.words.as_slice(),
                self.tables.as_mut_slice(),
                self.lists.as_mut_slice(),
                self.kept.as_mut_slice(),
            );
        }
    }

    /// Takes the last row away.
    pub fn pop(&mut self)
        requires { 0 < length self.old.rows }
        ensures { self.new
            ≡ record self.old { rows = take (length self.old.rows - 1) self.old.rows } }
    {
        // There are at most `MOST_FACTORS` rows.
        let _room = self.reached.room();
        drop_lists(self.alloc, self.reached.len(), self.lists.as_mut_slice());
        self.reached.pop();
    }
}

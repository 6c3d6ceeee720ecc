ghost use Rattle.std.specs.Prelude.{◌≡◌, ◌<◌, ◌≤◌, ◌+◌, ◌-◌, ◌*◌, ◌^◌, ◌++◌, ◌≢◌, ℕ, [], ◌∷◌, length, take, slice_index, IfOk};
ghost use Rattle.fx_strata.specs.Canonical.{words};
ghost use Rattle.fx_table_book.specs.Tables.{strata_of, shape_of, IsBase};
ghost use Rattle.fx_table_check.specs.Counts.{confounded_at};
ghost use Rattle.fx_table_check.specs.Prefixes.{PrefixView};

use crate::coset::coset;
use crate::others::Others;
use fx_base::NoMemory;
use fx_points::Sums;
use fx_table_book::Base;
use fx_vectors::MOST_FACTORS;
use fx_words::Tally;
use std::alloc::Global;
use std::marker::Model;

/// The rows of a prefix of a design, from which the words of each kind are counted. Clauses see the base and the rows.
pub struct Prefix {
    base: Base,
    /// The rows.
    rows: Tally,
    /// The rows modulo the base.
    cosets: Tally,
    /// Once all inside factors are there: of each weight from 1 on their confounded words, a word and its
    /// multiples once.
    inside: [u128; MOST_FACTORS],
    others: Others,
    sums: Sums,
}

// Not derived, so that a place that drops one is proved with one call.
impl Drop for Prefix {
    fn drop(self) {
        let Prefix {
            base: _,
            rows: _,
            cosets: _,
            inside: _,
            others: _,
            sums: _,
        } = self;
    }
}

impl Model for Prefix {
    ghost use Rattle.fx_table_check.specs.Prefixes.{PrefixView, IsPrefix};

    ghost Value = { PrefixView };

    ghost view = { λ x. record { base = x.base; rows = x.rows.rows } };

    ghost invariant = { λ x. IsPrefix x.base x.rows x.cosets x.inside x.others x.sums };
}

impl Prefix {
    /// A prefix without rows. It takes all its memory now.
    ///
    /// # Errors
    ///
    /// `NoMemory`.
    pub fn new(alloc: Global, base: Base) -> Result<Prefix, NoMemory>
        requires { IsBase base }
        ensures { IfOk result (λ prefix. prefix ≡ record { base = base; rows = [] }) }
    {
        let rows = Tally::new(alloc, base.shape())?;
        let cosets = Tally::new(alloc, base.shape())?;
        Ok(Prefix {
            base,
            rows,
            cosets,
            inside: [0; MOST_FACTORS],
            others: Others::of(alloc, base.shape())?,
            sums: Sums::of(alloc, base.shape().field(), base.m)?,
        })
    }

    /// The base, which is valid.
    pub fn base(&self) -> Base
        ensures base { result ≡ self.now.base }
        ensures valid { IsBase self.now.base }
    {
        self.base
    }

    /// How many rows there are.
    pub fn len(&self) -> usize
        ensures count { result ≡ length self.now.rows }
        ensures few { result ≤ self.now.base.w + self.now.base.n }
        ensures fits { result ≤ MOST_FACTORS }
    {
        self.rows.prefix().len()
    }

    /// The row at `i`, counted from 0.
    pub fn row(&self, i: usize) -> u16
        requires { i < length self.now.rows }
        ensures row { result ≡ slice_index self.now.rows i }
        ensures below { result < self.now.base.q ^ self.now.base.m }
    {
        self.rows.prefix().row(i)
    }

    /// The rows that can come behind unit vectors.
    pub(crate) fn others(&self) -> &Others
        ensures { result.now ≡ shape_of self.now.base }
    {
        &self.others
    }

    /// The sums of the points of the base.
    pub(crate) fn sums(&self) -> &Sums
        ensures { result.now ≡ record { q = self.now.base.q; m = self.now.base.m } }
    {
        &self.sums
    }

    /// Adds a row, below q^m.
    pub fn push(&mut self, row: u16)
        requires room { length self.old.rows < self.old.base.w + self.old.base.n }
        requires below { row < self.old.base.q ^ self.old.base.m }
        ensures { self.new ≡ record self.old { rows = self.old.rows ++ row ∷ [] } }
    {
        if self.len() + 1 == usize::from(self.base.w) {
            self.push_last_inside(row);
        } else {
            self.push_other(row);
        }
    }

    /// Adds the row of the last inside factor.
    fn push_last_inside(&mut self, row: u16)
        requires last { length self.old.rows + 1 ≡ self.old.base.w }
        requires below { row < self.old.base.q ^ self.old.base.m }
        ensures { self.new ≡ record self.old { rows = self.old.rows ++ row ∷ [] } }
    {
        let inside = self.inside_with(row);
        self.cosets.push(coset(self.base, row));
        self.rows.push(row);
        self.inside = inside;
    }

    /// Adds another row.
    fn push_other(&mut self, row: u16)
        requires room { length self.old.rows < self.old.base.w + self.old.base.n }
        requires other { length self.old.rows + 1 ≢ self.old.base.w }
        requires below { row < self.old.base.q ^ self.old.base.m }
        ensures { self.new ≡ record self.old { rows = self.old.rows ++ row ∷ [] } }
    {
        self.cosets.push(coset(self.base, row));
        self.rows.push(row);
    }

    /// With this row added, of each weight from 1 on the confounded words, a word and its multiples once.
    fn inside_with(&mut self, row: u16) -> [u128; MOST_FACTORS]
        requires room { length self.old.rows < self.old.base.w + self.old.base.n }
        requires below { row < self.old.base.q ^ self.old.base.m }
        ensures words { (i : ℕ) → i < self.old.base.w + self.old.base.n
            → slice_index result i ≡ confounded_at (strata_of self.old.base) (self.old.rows ++ row ∷ []) i }
        ensures same { self.new ≡ self.old }
    {
        let mut inside = [0; MOST_FACTORS];
        for i in 0..usize::from(self.base.w + self.base.n) {
            inside[i] = self.confounded_with(row, i);
        }
        inside
    }

    /// Removes the last row.
    pub fn pop(&mut self)
        requires { 0 < length self.old.rows }
        ensures { self.new
            ≡ record self.old { rows = take (length self.old.rows - 1) self.old.rows } }
    {
        self.cosets.pop();
        self.rows.pop();
    }

    /// With this row added, the entry at `i` of the pattern of the rows modulo the base, less that of the rows.
    fn confounded_with(&mut self, row: u16, i: usize) -> u128
        requires room { length self.old.rows < self.old.base.w + self.old.base.n }
        requires below { row < self.old.base.q ^ self.old.base.m }
        requires entry { i < self.old.base.w + self.old.base.n }
        ensures words { result ≡ confounded_at (strata_of self.old.base) (self.old.rows ++ row ∷ []) i }
        ensures same { self.new ≡ self.old }
    {
        let all = self.cosets.words_with(coset(self.base, row), i);
        all.saturating_sub(self.rows.words_with(row, i))
    }

    /// With this row added, how many words of weight i + 1 there are, the confounded ones or the constant ones.
    pub(crate) fn words_with(&mut self, row: u16, confounded: bool, i: usize) -> u128
        requires room { length self.old.rows < self.old.base.w + self.old.base.n }
        requires below { row < self.old.base.q ^ self.old.base.m }
        requires entry { i < self.old.base.w + self.old.base.n }
        ensures words { result
            ≡ words (strata_of self.old.base) (self.old.rows ++ row ∷ []) confounded (i + 1) }
        ensures fits { result ≤ 2 ^ 120 }
        ensures same { self.new ≡ self.old }
    {
        // Its rows, once read, are known to be below q^m.
        let _known = self.rows.prefix().shape();
        let multiples = u128::from(self.base.q - 1);
        if !confounded {
            return multiples * self.rows.words_with(row, i);
        }
        if self.len() < usize::from(self.base.w) {
            return 0;
        }
        let all = self.confounded_with(row, i);
        multiples * all.saturating_sub(self.inside[i])
    }
}

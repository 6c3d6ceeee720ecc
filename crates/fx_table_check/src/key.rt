ghost use Rattle.std.specs.Prelude.{◌≡◌, ◌==◌, ◌<◌, ◌≤◌, ◌+◌, ◌^◌, ◌&&◌, ◌++◌, ℕ, List, [], ◌∷◌, All, Some, length, false, IfOk, IsTrue};
ghost use Rattle.fx_strata.specs.Stages.{is_proper, do_follow};
ghost use Rattle.fx_strata.specs.Canonical.{words, figures};
ghost use Rattle.fx_strata.specs.Designs.{key_of};
ghost use Rattle.fx_table_book.specs.Tables.{strata_of, order_of, parts_of, multiplied, IsBase, IsKey, IsWeight};
ghost use Rattle.fx_table_check.specs.Keys.{IsKeyOf, IsLeastOf};

use crate::prefix::Prefix;
use fx_base::NoMemory;
use fx_table_book::{Base, Order, Part, parts};
use fx_vectors::Pattern;
use std::alloc::Global;

/// The key of rows, where a word and its multiples count as one, if they are those of a canonical design. It is least
/// where a good book has it as the one to beat.
///
/// # Errors
///
/// `NoMemory`.
pub fn key_of_rows(
    alloc: Global,
    base: Base,
    order: Order,
    rows: &[u16],
) -> Result<Option<Pattern>, NoMemory>
    requires { IsBase base }
    ensures key { IfOk result (IsKeyOf (strata_of base) (order_of order (strata_of base)) rows.now) }
    ensures least { IfOk result (IsLeastOf (strata_of base) (order_of order (strata_of base)) rows.now) }
    ensures valid { IfOk result (IsKey base.q (length (order_of order (strata_of base)))) }
{
    let parts = parts(alloc, base, order)?;
    let mut prefix = Prefix::new(alloc, base)?;
    if !is_proper(base) {
        return Ok(None);
    }
    if !prefix.is_design(rows) {
        return Ok(None);
    }
    let key = prefix.key(alloc, parts.as_slice())?;
    Ok(Some(key))
}

/// Whether the numbers of a design fit.
fn is_proper(base: Base) -> bool
    requires { IsBase base }
    ensures { result ≡ is_proper (strata_of base) }
{
    let others = u16::from(base.h) + u16::from(base.n);
    base.h <= base.m && u16::from(base.m) <= others && (base.w == 0 || base.h <= base.w)
}

impl Prefix {
    /// The key of all the rows, where a word and its multiples count as one.
    ///
    /// # Errors
    ///
    /// `NoMemory`.
    fn key(&mut self, alloc: Global, parts: &[Part]) -> Result<Pattern, NoMemory>
        requires some { 0 < length self.old.rows }
        requires parts { All (IsWeight (self.old.base.w + self.old.base.n)) parts.now }
        ensures key { IfOk result (λ key. multiplied self.old.base.q key
            ≡ key_of (parts_of parts.now) (figures (strata_of self.old.base) self.old.rows)) }
        ensures valid { IfOk result (λ key. IsKey self.old.base.q (length parts.now) (Some key)) }
    {
        // The rows, once read, are known to be below q^m.
        let _low = self.all_rows();
        let last = self.row(self.len() - 1);
        self.pop();
        let multiples = u128::from(self.base().q - 1);
        let mut key = Pattern::new(alloc);
        for part in parts {
            key.push(self.value_with(last, *part) / multiples)?;
        }
        Ok(key)
    }

    /// Takes rows, from a prefix without rows on, and tells whether they are those of a canonical design, where its
    /// numbers fit.
    fn is_design(&mut self, rows: &[u16]) -> bool
        requires start { self.old.rows ≡ [] }
        ensures design { let x = strata_of self.old.base in
            result
            ≡ ((length rows.now == x.w + x.n)
            && (do_follow x [] rows.now && ((words x rows.now false 1 == 0) && (words x rows.now false 2 == 0)))) }
        ensures base { self.new.base ≡ self.old.base }
        ensures rows { IsTrue result → self.new.rows ≡ rows.now }
    {
        let base = self.base();
        if rows.len() != usize::from(base.w + base.n) {
            return false;
        }
        if !self.follow(rows) {
            return false;
        }
        self.has_no_short_words()
    }

    /// Adds rows as long as they may follow, from a prefix without rows on, and tells whether all do.
    fn follow(&mut self, rows: &[u16]) -> bool
        requires start { self.old.rows ≡ [] }
        requires few { length rows.now ≤ self.old.base.w + self.old.base.n }
        ensures follow { result ≡ do_follow (strata_of self.old.base) [] rows.now }
        ensures base { self.new.base ≡ self.old.base }
        ensures rows { IsTrue result → self.new.rows ≡ rows.now }
    {
        for row in rows {
            if !self.may_follow(*row) {
                return false;
            }
            self.push(*row);
        }
        true
    }

    /// Whether no words of one factor or two are constant.
    fn has_no_short_words(&mut self) -> bool
        requires { 0 < length self.old.rows }
        ensures none { let x = strata_of self.old.base in
            result ≡ ((words x self.old.rows false 1 == 0) && (words x self.old.rows false 2 == 0)) }
        ensures same { self.new ≡ self.old }
    {
        let last = self.row(self.len() - 1);
        self.pop();
        let one = self.words_with(last, false, 0);
        let two = self.words_of_two_with(last);
        self.push(last);
        one == 0 && two == 0
    }

    /// How many words of two factors are constant with this row added.
    fn words_of_two_with(&mut self, row: u16) -> u128
        requires room { length self.old.rows < self.old.base.w + self.old.base.n }
        requires below { row < self.old.base.q ^ self.old.base.m }
        ensures words { result ≡ words (strata_of self.old.base) (self.old.rows ++ row ∷ []) false 2 }
        ensures same { self.new ≡ self.old }
    {
        let base = self.base();
        // A single factor has none.
        if usize::from(base.w + base.n) < 2 {
            return 0;
        }
        self.words_with(row, false, 1)
    }
}

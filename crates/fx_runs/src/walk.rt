ghost use Rattle.std.specs.Prelude.{◌≡◌, ℕ, ◌-◌, ◌/◌, ◌%◌, ◌≤◌, ◌==◌, ◌&&◌, ◌↔◌, if◌then◌else◌, not, nat_le, List, IsTrue, length, take, min};
ghost use Rattle.fx_designs.specs.Vectors.{IsVector, is_zero, weight};
ghost use Rattle.fx_designs.specs.Demands.{effect_of};
ghost use Rattle.fx_runs.specs.Runs.{AreRuns};
ghost use Rattle.fx_vectors.specs.Supports.{differs};
ghost use Rattle.fx_vectors.specs.declared.shape.TheConstants.{MOST_FACTORS};
ghost use Rattle.fx_runs.specs.Supports.{bit_of, is_among, each_balanced, is_balanced_over, AreBalancedFrom};

use crate::balance::is_balanced;
use crate::block_balance::is_balanced_in_blocks;
use crate::runs::Runs;
use fx_vectors::{MOST_FACTORS, Vector};

/// Where a vector is to be balanced.
#[derive(Clone, Copy)]
pub(crate) enum Within {
    /// Over all runs together.
    AllRuns,
    /// Inside each block.
    EachBlock,
}

/// The sets of factors that have all those of `inner`, none outside `outer`, and at most `most` in
/// all. Bit i-1 represents factor i.
#[derive(Clone, Copy)]
pub(crate) struct Supports {
    inner: u64,
    outer: u64,
    most: usize,
}

impl Supports {
    /// The sets of at most `most` factors.
    pub(crate) fn of_at_most(most: usize) -> Supports
        ensures { (f : List ℕ)
            → length f ≤ MOST_FACTORS
            → is_among result.inner result.outer result.most f ≡ nat_le (weight f) most }
    {
        Supports {
            inner: 0,
            outer: u64::MAX,
            most,
        }
    }

    /// The effect `e` alone.
    pub(crate) fn of_effect(e: u64) -> Supports
        ensures { (f : List ℕ)
            → length f ≤ MOST_FACTORS
            → is_among result.inner result.outer result.most f ≡ (e == effect_of f) }
    {
        Supports {
            inner: e,
            outer: e,
            most: MOST_FACTORS,
        }
    }

    /// The supports of the differences of a vector of the effect `u` and one of the effect `v`,
    /// where 0 represents the zero vector.
    pub(crate) fn of_differences(q: u8, u: u64, v: u64) -> Supports
        ensures { (f : List ℕ)
            → length f ≤ MOST_FACTORS
            → is_among result.inner result.outer result.most f
            ≡ differs q u v (effect_of f) }
    {
        let apart = u ^ v;
        Supports {
            inner: apart,
            // At two levels the codes of factors in both are the same.
            outer: if q == 2 { apart } else { u | v },
            most: MOST_FACTORS,
        }
    }

    /// Whether each vector over the factors that has such a support and is not zero is balanced.
    pub(crate) fn are_balanced(self, runs: &Runs, within: Within) -> bool
        ensures balanced { result
            ≡ each_balanced runs.now within
            (λ f. not (is_zero f)
            && is_among self.inner self.outer self.most f) }
        ensures valid { AreRuns runs.now.shape runs.now.rows }
    {
        let mut f = Vector::zero(usize::from(runs.shape().s));
        self.are_balanced_from(runs, within, &mut f, 0)
    }

    /// Whether this holds of the vectors that have their first `i` codes from `f`, where the
    /// supports are those of the codes from `i` on.
    fn are_balanced_from(self, runs: &Runs, within: Within, f: &mut Vector, i: usize) -> bool
        requires vector { IsVector runs.now.shape.q runs.now.shape.s f.old }
        requires place { i ≤ runs.now.shape.s }
        ensures each { IsTrue result
            ↔ AreBalancedFrom runs.now within self.inner self.outer self.most
            (take i f.old) }
        ensures kept { take i f.new ≡ take i f.old }
        ensures vector { IsVector runs.now.shape.q runs.now.shape.s f.new }
    {
        if i == f.len() {
            return self.inner != 0 || f.weight() == 0 || is_balanced_over(f, runs, within);
        }
        for c in self.least_code()..self.codes(runs.shape().q) {
            f.set(i, c);
            if !self.behind(c).are_balanced_from(runs, within, f, i + 1) {
                return false;
            }
        }
        true
    }

    /// The least code that the first factor may have.
    fn least_code(self) -> u8
        ensures { result ≡ self.inner % 2 }
    {
        (self.inner % 2) as u8
    }

    /// The codes that the first factor may have are below this one.
    fn codes(self, q: u8) -> u8
        ensures { result ≡ (if min (self.outer % 2) self.most == 0 then 1 else q) }
    {
        if self.outer % 2 == 0 || self.most == 0 {
            1
        } else {
            q
        }
    }

    /// The supports of the other factors where the first has the code `c`.
    fn behind(self, c: u8) -> Supports
        ensures inner { result.inner ≡ self.inner / 2 }
        ensures outer { result.outer ≡ self.outer / 2 }
        ensures most { result.most ≡ self.most - bit_of c }
    {
        Supports {
            inner: self.inner / 2,
            outer: self.outer / 2,
            most: self.most.saturating_sub(usize::from(c != 0)),
        }
    }
}

/// Whether `f`, a vector over the factors, is balanced.
fn is_balanced_over(f: &Vector, runs: &Runs, within: Within) -> bool
    requires { IsVector runs.now.shape.q runs.now.shape.s f.now }
    ensures { result ≡ is_balanced_over runs.now within f.now }
{
    match within {
        Within::AllRuns => is_balanced(f, runs),
        Within::EachBlock => is_balanced_in_blocks(f, runs),
    }
}

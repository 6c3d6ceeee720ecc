ghost use Rattle.std.specs.Prelude.{◌≡◌, ◌≢◌, ◌↔◌, ◌+◌, ◌*◌, ◌<◌, ◌≤◌, List, ℕ, count_by, length, map, IsTrue, slice_index};
ghost use Rattle.fx_designs.specs.Vectors.{IsVector, dot};
ghost use Rattle.fx_judge.specs.Tallies.{AreValueCounts, AreExpected, HasLine, IsLine};
ghost use Rattle.fx_judge.specs.Kinships.{kinship};
ghost use Rattle.fx_judge.specs.Listing.{is_aliased_pair, is_orthogonal_pair, is_partial_pair};

use crate::plan::Plan;
use crate::tally::{counts_of, pairs_of};
use fx_galois::Field;
use fx_vectors::Vector;

/// What the runs of a plan show of two components.
#[derive(Debug, Clone, Copy, PartialEq, Eq)]
pub enum Kinship {
    /// Where one is known, so is the other: u - c v has one value for some nonzero c.
    Aliased,
    /// Each two values come together as often as is expected of the two alone.
    Orthogonal,
    Partial,
}

/// Whether two components are aliased over the runs of a plan, else orthogonal, else partial.
pub fn kinship_of(u: &Vector, v: &Vector, plan: &Plan) -> Kinship
    requires first { IsVector plan.now.q (length plan.now.names) u.now }
    requires second { IsVector plan.now.q (length plan.now.names) v.now }
    requires different { u.now ≢ v.now }
    ensures { result ≡ kinship plan.now.q plan.now.rows u.now v.now }
{
    let left = counts_of(u, plan);
    let right = counts_of(v, plan);
    let pairs = pairs_of(u, v, plan);
    kinship_by(plan.field(), plan.len() as u32, &left, &right, &pairs)
}

/// What the counts show of two components: how often each value comes as u.x and as v.x, and how
/// often each two values do.
pub(crate) fn kinship_by(
    field: Field,
    runs: u32,
    left: &[u32; 9],
    right: &[u32; 9],
    pairs: &[u32; 81],
) -> Kinship
    requires { (1 ≤ runs) × (runs ≤ 4096) }
    ensures { (rows : List (List ℕ)) (u v : List ℕ) → length rows ≡ runs
        → AreValueCounts 9 (map (λ x. dot field u x) rows) left.now
        → AreValueCounts 9 (map (λ x. dot field v x) rows) right.now
        → AreValueCounts 81 (map (λ x. 9 * dot field u x + dot field v x) rows) pairs.now
        → result ≡ kinship field rows u v }
{
    let levels = field.q();
    if has_line(field, pairs) {
        return Kinship::Aliased;
    }
    if are_expected(levels, runs, left, right, pairs) {
        return Kinship::Orthogonal;
    }
    Kinship::Partial
}

/// Whether u - c v has one value for some nonzero c.
fn has_line(field: Field, pairs: &[u32; 81]) -> bool
    ensures { IsTrue result ↔ HasLine field pairs.now }
{
    for c in 1..field.q() {
        for k in 0..field.q() {
            if is_line(field, pairs, c, k) {
                return true;
            }
        }
    }
    false
}

/// Whether u.x is c times v.x plus k on all runs.
fn is_line(field: Field, pairs: &[u32; 81], c: u8, k: u8) -> bool
    requires factor { c < field }
    requires constant { k < field }
    ensures { IsTrue result ↔ IsLine field pairs.now c k }
{
    for b in 0..field.q() {
        let there = field.add(k, field.mul(c, b));
        if !is_only(field, pairs, there, b) {
            return false;
        }
    }
    true
}

/// Whether `b` comes with no other value than `there`.
fn is_only(field: Field, pairs: &[u32; 81], there: u8, b: u8) -> bool
    requires { b < field }
    ensures { IsTrue result ↔ ((a : ℕ) → a < field → a ≢ there
        → slice_index pairs.now (9 * a + b) ≡ 0) }
{
    for a in 0..field.q() {
        if a != there && pairs[9 * usize::from(a) + usize::from(b)] > 0 {
            return false;
        }
    }
    true
}

/// Whether each two values come as often as is expected.
fn are_expected(q: u8, runs: u32, left: &[u32; 9], right: &[u32; 9], pairs: &[u32; 81]) -> bool
    requires { q ≤ 9 }
    ensures { IsTrue result ↔ AreExpected q runs left.now right.now pairs.now }
{
    for a in 0..usize::from(q) {
        for b in 0..usize::from(q) {
            let found = u64::from(runs) * u64::from(pairs[9 * a + b]);
            if found != u64::from(left[a]) * u64::from(right[b]) {
                return false;
            }
        }
    }
    true
}

/// How many of these are aliased.
pub(crate) fn count_aliased(kinds: &[Kinship]) -> usize
    ensures { result ≡ count_by is_aliased_pair kinds.now }
{
    kinds.iter().filter(|kind| is_aliased_pair(**kind)).count()
}

/// How many of these are orthogonal.
pub(crate) fn count_orthogonal(kinds: &[Kinship]) -> usize
    ensures { result ≡ count_by is_orthogonal_pair kinds.now }
{
    kinds
        .iter()
        .filter(|kind| is_orthogonal_pair(**kind))
        .count()
}

/// How many of these are partially aliased.
pub(crate) fn count_partial(kinds: &[Kinship]) -> usize
    ensures { result ≡ count_by is_partial_pair kinds.now }
{
    kinds.iter().filter(|kind| is_partial_pair(**kind)).count()
}

fn is_aliased_pair(kind: Kinship) -> bool
    ensures { result ≡ is_aliased_pair kind }
{
    match kind {
        Kinship::Aliased => true,
        Kinship::Orthogonal => false,
        Kinship::Partial => false,
    }
}

fn is_orthogonal_pair(kind: Kinship) -> bool
    ensures { result ≡ is_orthogonal_pair kind }
{
    match kind {
        Kinship::Aliased => false,
        Kinship::Orthogonal => true,
        Kinship::Partial => false,
    }
}

fn is_partial_pair(kind: Kinship) -> bool
    ensures { result ≡ is_partial_pair kind }
{
    match kind {
        Kinship::Aliased => false,
        Kinship::Orthogonal => false,
        Kinship::Partial => true,
    }
}

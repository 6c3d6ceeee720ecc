ghost use Rattle.std.specs.Prelude.{◌≡◌, ◌≤◌, ◌<◌, ◌↔◌, ◌^◌, ◌*◌, All, IsTrue, MatchOption, length, map};
ghost use Rattle.fx_designs.specs.Vectors.{IsVector};
ghost use Rattle.fx_runs.specs.Counts.{AreEqual};
ghost use Rattle.fx_judge.specs.Bases.{AreEven, basic_key, rank};
ghost use Rattle.fx_judge.specs.Tallies.{AreValueCounts};

use arrayvec::ArrayVec;
use fx_base::Items;
use fx_galois::Field;
use fx_vectors::Vector;

/// Whether each factor is basic.
pub(crate) type Marks = ArrayVec<bool, 40>;

/// The most runs of a plan, and so the most combinations that can all occur.
const MOST: usize = 4096;

/// Whether each combination of codes at the basic factors comes equally often among the differences.
pub(crate) fn are_even(field: Field, differences: &Items<Vector>, basic: &Marks) -> bool
    requires each { All (λ d. IsVector field (length basic.now.items) d) differences.now }
    requires some { 1 ≤ length differences.now }
    requires few { length differences.now ≤ 4096 }
    requires fit { AreEven field basic.now.items differences.now
        → field ^ rank basic.now.items ≤ length differences.now }
    ensures { IsTrue result ↔ AreEven field basic.now.items differences.now }
{
    match combinations_within(field, basic.as_slice(), differences.len()) {
        Some(size) => are_equal(&tally(field, differences, basic.as_slice()), size),
        None => false,
    }
}

/// How many combinations of codes the basic factors have, where they are at most `limit`.
fn combinations_within(field: Field, basic: &[bool], limit: usize) -> Option<usize>
    requires { (1 ≤ limit) × (limit ≤ 4096) }
    ensures { MatchOption result (limit < field ^ rank basic.now)
        (λ size. (size ≡ field ^ rank basic.now) × (0 < size) × (size ≤ limit)) }
{
    let q = usize::from(field.q());
    let mut size = 1;
    for i in 0..basic.len() {
        if basic[i] {
            size *= q;
            if size > limit {
                return None;
            }
        }
    }
    Some(size)
}

/// How often each combination comes among the differences, by its number.
fn tally(field: Field, differences: &Items<Vector>, basic: &[bool]) -> [u32; MOST]
    requires each { All (λ d. IsVector field (length basic.now) d) differences.now }
    requires few { length differences.now ≤ 4096 }
    requires combinations { field ^ rank basic.now ≤ 4096 }
    ensures { AreValueCounts 4096 (map (basic_key field basic.now) differences.now) result }
{
    let mut counts = [0u32; MOST];
    for k in 0..differences.len() {
        counts[key_of(field, basic, differences.get(k))] += 1;
    }
    counts
}

/// The number of the codes of `d` at the basic factors.
fn key_of(field: Field, basic: &[bool], d: &Vector) -> usize
    requires vector { IsVector field (length basic.now) d.now }
    requires combinations { field ^ rank basic.now ≤ 4096 }
    ensures key { result ≡ basic_key field basic.now d.now }
    ensures below { result < field ^ rank basic.now }
{
    let q = usize::from(field.q());
    let mut key = 0;
    for i in (0..basic.len()).rev() {
        if basic[i] {
            key = usize::from(d.code(i)) + q * key;
        }
    }
    key
}

/// Whether the first `size` counts are equal.
fn are_equal(counts: &[u32; MOST], size: usize) -> bool
    requires { size ≤ 4096 }
    ensures { IsTrue result ↔ AreEqual size counts.now }
{
    for y in 1..size {
        if counts[y] != counts[0] {
            return false;
        }
    }
    true
}

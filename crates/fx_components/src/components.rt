ghost use Rattle.std.specs.Prelude.{◌≡◌, ◌<◌, ◌≤◌, ◌+◌, ◌-◌, [], ◌∷◌, ◌++◌, All, IfOk, OnOk, Bool, List, length, map, slice_set};
ghost use Rattle.std.specs.List.{flat_map, range_with_len};
ghost use Rattle.fx_designs.specs.Vectors.{IsVector};
ghost use Rattle.fx_designs.specs.Components.{components, normal_vectors, supports};
ghost use Rattle.fx_vectors.specs.declared.shape.TheConstants.{MOST_FACTORS};

use arrayvec::ArrayVec;
use fx_base::{Items, NoMemory};
use fx_vectors::{MOST_FACTORS, Vector};
use std::alloc::Global;

/// Whether each factor is in a set.
type Support = ArrayVec<bool, MOST_FACTORS>;

/// The components of 1 to `most` of `s` factors, at `q` levels, in order: first by their number of
/// factors, then by the places of these, then by number.
pub fn list_components(alloc: Global, q: u8, s: u8, most: u8) -> Result<Items<Vector>, NoMemory>
    requires levels { 2 ≤ q }
    requires few { s ≤ MOST_FACTORS }
    ensures components { IfOk result (λ found. found ≡ components q s most) }
    ensures each { IfOk result (All (λ u. IsVector q s u)) }
{
    let mut found = Items::new(alloc);
    for k in 0..most {
        put_from(alloc, &mut found, q, &Support::new(), k + 1, s)?;
    }
    Ok(found)
}

/// Adds the components of the sets that begin with `chosen` and have `count` of the `more` factors
/// after it.
fn put_from(
    alloc: Global,
    found: &mut Items<Vector>,
    q: u8,
    chosen: &Support,
    count: u8,
    more: u8,
) -> Result<(), NoMemory>
    requires few { length chosen.now.items + more ≤ MOST_FACTORS }
    ensures { OnOk result (found.new ≡ found.old
        ++ flat_map (λ set. normal_vectors q (chosen.now.items ++ set)) (supports count more)) }
{
    if more == 0 {
        return put_whole(alloc, found, q, chosen, count);
    }
    if count == 0 {
        return put_from(alloc, found, q, &extended(chosen, false), 0, more - 1);
    }
    put_from(
        alloc,
        found,
        q,
        &extended(chosen, true),
        count - 1,
        more - 1,
    )?;
    put_from(alloc, found, q, &extended(chosen, false), count, more - 1)
}

/// Adds the components of a whole set, where it lacks no factor.
fn put_whole(
    alloc: Global,
    found: &mut Items<Vector>,
    q: u8,
    chosen: &Support,
    count: u8,
) -> Result<(), NoMemory>
    ensures { OnOk result (found.new ≡ found.old
        ++ flat_map (λ set. normal_vectors q (chosen.now.items ++ set)) (supports count 0)) }
{
    if count > 0 {
        return Ok(());
    }
    for v in normal_vectors(alloc, q, chosen.as_slice())?.into_vec() {
        found.push(v)?;
    }
    Ok(())
}

/// The set, and whether the next factor is in it.
fn extended(set: &Support, is_in: bool) -> Support
    requires { length set.now.items < MOST_FACTORS }
    ensures { result.items ≡ set.now.items ++ is_in ∷ [] }
{
    let mut longer = Support::new();
    for b in set.as_slice() {
        longer.push(*b);
    }
    longer.push(is_in);
    longer
}

/// The normal vectors with this support, in rising order of number.
fn normal_vectors(alloc: Global, q: u8, support: &[bool]) -> Result<Items<Vector>, NoMemory>
    requires { length support.now ≤ MOST_FACTORS }
    ensures { IfOk result (λ vectors. vectors ≡ normal_vectors q support.now) }
{
    let mut vectors = Items::new(alloc);
    vectors.push(Vector::zero(support.len()))?;
    // The last code is 1; those before it are any but 0.
    let mut bound = 2;
    for i in (0..support.len()).rev() {
        if support[i] {
            vectors = with_codes(alloc, &vectors, i, bound)?;
            bound = q;
        }
    }
    Ok(vectors)
}

/// Each vector with each code from 1 up, and below `bound`, at `i`.
fn with_codes(
    alloc: Global,
    vectors: &Items<Vector>,
    i: usize,
    bound: u8,
) -> Result<Items<Vector>, NoMemory>
    requires { All (λ v. i < length v) vectors.now }
    ensures { IfOk result (λ longer. longer
        ≡ flat_map (λ v. map (λ c. slice_set v i c) (range_with_len 1 (bound - 1))) vectors.now) }
{
    let mut longer = Items::new(alloc);
    for v in vectors.as_slice() {
        put_codes(&mut longer, v, i, bound)?;
    }
    Ok(longer)
}

/// Adds the vector with each code from 1 up, and below `bound`, at `i`.
fn put_codes(longer: &mut Items<Vector>, v: &Vector, i: usize, bound: u8) -> Result<(), NoMemory>
    requires { i < length v.now }
    ensures { OnOk result (longer.new
        ≡ longer.old ++ map (λ c. slice_set v.now i c) (range_with_len 1 (bound - 1))) }
{
    for c in 1..bound {
        longer.push(with_code(v, i, c))?;
    }
    Ok(())
}

/// The vector with the code `c` at `i`.
fn with_code(v: &Vector, i: usize, c: u8) -> Vector
    requires { i < length v.now }
    ensures { result ≡ slice_set v.now i c }
{
    let mut copy = Vector::zero(v.len());
    for k in 0..v.len() {
        copy.set(k, v.code(k));
    }
    copy.set(i, c);
    copy
}

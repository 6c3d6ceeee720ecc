ghost use Rattle.std.specs.Prelude.{◌≡◌, ◌<◌, ◌≤◌, ◌^◌, ◌+◌, ◌-◌, ◌++◌, [], ◌∷◌, if◌then◌else◌, IfOk, OnOk, ℕ, List, length, map, All};
ghost use Rattle.std.specs.List.{range_with_len};
ghost use Rattle.fx_designs.specs.Vectors.{IsVector};
ghost use Rattle.fx_designs.specs.Problems.{Dimensions, ForEffects};
ghost use Rattle.fx_vectors.specs.Effects.{numbers_of, AreEffects};
ghost use Rattle.fx_vectors.specs.declared.shape.TheConstants.{MOST_FACTORS};
ghost use Rattle.fx_demands.specs.EffectVectors.{vectors_to, vectors_of_all, with_codes, AreFactorParts};

use fx_base::{Items, NoMemory};
use fx_galois::Field;
use fx_vectors::{Effect, Effects, Vector};
use std::alloc::Global;

/// Vectors in order.
pub type Vectors = Items<Vector>;

/// The vectors of an effect over `s` factors, which are not zero on just its factors, by rising
/// number.
///
/// # Errors
///
/// `NoMemory`.
pub fn effect_vectors(
    alloc: Global,
    field: Field,
    s: u8,
    effect: &Effect,
) -> Result<Vectors, NoMemory>
    requires room { s ≤ MOST_FACTORS }
    requires fits { field ^ s < 2 ^ 127 }
    ensures { IfOk result (λ vectors. vectors ≡ vectors_to field effect.now.0 s) }
{
    // Its order, once read, is known to be one of the seven.
    let _known = field.q();
    let mut vectors = Items::new(alloc);
    vectors.push(Vector::zero(0))?;
    for i in 0..s {
        let has_factor = (effect.0 >> i) % 2 == 1;
        vectors = longer(alloc, field, &vectors, usize::from(i), has_factor)?;
    }
    Ok(vectors)
}

/// The vectors, which have `len` codes, with one code more: each that is not zero where the effect
/// has the factor, else zero.
fn longer(
    alloc: Global,
    field: Field,
    vectors: &Vectors,
    len: usize,
    has_factor: bool,
) -> Result<Vectors, NoMemory>
    requires room { len < MOST_FACTORS }
    requires fits { field ^ (len + 1) < 2 ^ 127 }
    requires vectors { All (λ v. IsVector field len v) vectors.now }
    ensures { IfOk result (λ all.
        all ≡ with_codes vectors.now (if has_factor then range_with_len 1 (field - 1) else range_with_len 0 1)) }
{
    if has_factor {
        with_each_code(alloc, field, vectors, len, 1, field.q())
    } else {
        with_each_code(alloc, field, vectors, len, 0, 1)
    }
}

/// The vectors with each code from `first` to the one before `end` after them.
fn with_each_code(
    alloc: Global,
    field: Field,
    vectors: &Vectors,
    len: usize,
    first: u8,
    end: u8,
) -> Result<Vectors, NoMemory>
    requires room { len < MOST_FACTORS }
    requires fits { field ^ (len + 1) < 2 ^ 127 }
    requires vectors { All (λ v. IsVector field len v) vectors.now }
    requires codes { end ≤ field }
    requires order { first ≤ end }
    ensures { IfOk result (λ all. all ≡ with_codes vectors.now (range_with_len first (end - first))) }
{
    let mut all = Items::new(alloc);
    for c in first..end {
        add_with_code(field, vectors, len, c, &mut all)?;
    }
    Ok(all)
}

/// Adds the vectors with this code after them.
fn add_with_code(
    field: Field,
    vectors: &Vectors,
    len: usize,
    c: u8,
    all: &mut Vectors,
) -> Result<(), NoMemory>
    requires room { len < MOST_FACTORS }
    requires fits { field ^ (len + 1) < 2 ^ 127 }
    requires vectors { All (λ v. IsVector field len v) vectors.now }
    requires code { c < field }
    ensures { OnOk result (all.new ≡ all.old ++ map (λ v. v ++ c ∷ []) vectors.now) }
{
    for v in vectors.as_slice() {
        all.push(with_code(field, v, len, c))?;
    }
    Ok(())
}

/// The vector, which has `len` codes, with one code more.
fn with_code(field: Field, v: &Vector, len: usize, c: u8) -> Vector
    requires room { len < MOST_FACTORS }
    requires fits { field ^ (len + 1) < 2 ^ 127 }
    requires vector { IsVector field len v.now }
    requires code { c < field }
    ensures { result ≡ v.now ++ c ∷ [] }
{
    // Its order, once read, is known to be one of the seven.
    let _known = field.q();
    let power = u128::from(field.q()).pow(len as u32);
    Vector::of_number(field, len + 1, v.number(field) + u128::from(c) * power)
}

/// The vectors over `s` factors that are zero or of one of the effects: what a word that is not zero on
/// the block factors may have on the factors where it is forbidden.
///
/// # Errors
///
/// `NoMemory`.
pub fn factor_parts(
    alloc: Global,
    field: Field,
    s: u8,
    estimate: &Effects,
) -> Result<Vectors, NoMemory>
    requires factors { s ≤ MOST_FACTORS }
    requires fits { field ^ s < 2 ^ 127 }
    requires estimate { AreEffects s (numbers_of estimate.now) }
    ensures vectors { IfOk result (All (λ v. IsVector field s v)) }
    ensures lists { (d : Dimensions) (besides : List ℕ) → d.q ≡ field → d.s ≡ s
        → IfOk result (AreFactorParts d (ForEffects (numbers_of estimate.now) besides)) }
{
    // Its order, once read, is known to be one of the seven.
    let _known = field.q();
    let mut vectors = vectors_of(alloc, field, s, estimate)?;
    vectors.push(Vector::zero(usize::from(s)))?;
    Ok(vectors)
}

/// The vectors of the effects over `s` factors, effect by effect.
pub(crate) fn vectors_of(
    alloc: Global,
    field: Field,
    s: u8,
    effects: &Effects,
) -> Result<Vectors, NoMemory>
    requires room { s ≤ MOST_FACTORS }
    requires fits { field ^ s < 2 ^ 127 }
    ensures { IfOk result (λ vectors. vectors ≡ vectors_of_all field s (numbers_of effects.now)) }
{
    // Its order, once read, is known to be one of the seven.
    let _known = field.q();
    let mut all = Items::new(alloc);
    for effect in effects.as_slice() {
        let vectors = effect_vectors(alloc, field, s, effect)?;
        add_all(field, s, &vectors, &mut all)?;
    }
    Ok(all)
}

/// Adds copies of the vectors, which have `s` codes.
fn add_all(field: Field, s: u8, vectors: &Vectors, all: &mut Vectors) -> Result<(), NoMemory>
    requires room { s ≤ MOST_FACTORS }
    requires fits { field ^ s < 2 ^ 127 }
    requires vectors { All (λ v. IsVector field s v) vectors.now }
    ensures { OnOk result (all.new ≡ all.old ++ vectors.now) }
{
    for v in vectors.as_slice() {
        all.push(Vector::of_number(field, usize::from(s), v.number(field)))?;
    }
    Ok(())
}

//! Sixteen words of 64 bits, which are taken together as the lanes of a vector.
ghost use Rattle.std.specs.Prelude.{◌≡◌, ◌<◌, ◌≤◌, ◌^◌, ◌*◌, ◌/◌, ◌-◌, ◌||◌, ℕ, bit_xor, slice_index, IfSome};
ghost use Rattle.std.specs.Option.{IfNone};
ghost use Rattle.std.specs.Int.{bit_at};
ghost use Rattle.fx_points.specs.Points.{AreWords, AreZeros, IsLastBit, IsLastOne, bit_in, is_one};

use crate::swap::HALVES;
use std::simd::prelude::*;

/// The words that have a 1 where one of two has.
pub(crate) fn either(words: [u64; 16], others: [u64; 16]) -> [u64; 16]
    requires words { AreWords words }
    requires others { AreWords others }
    ensures words { AreWords result }
    ensures either { (x : ℕ) → x < 1024 → is_one result x ≡ (is_one words x || is_one others x) }
{
    (u64x16::from_array(words) | u64x16::from_array(others)).to_array()
}

/// The words that have a 1 where these have none.
pub(crate) fn complement(words: [u64; 16]) -> [u64; 16]
    requires words { AreWords words }
    ensures words { AreWords result }
    ensures bits { (x : ℕ) → x < 1024 → bit_in result x ≡ 1 - bit_in words x }
{
    (u64x16::from_array(words) ^ u64x16::splat(u64::MAX)).to_array()
}

/// The words whose bits at each place are those at the exclusive or of the place and `x`.
pub(crate) fn moved_words(words: u64x16, x: u16) -> u64x16
    requires words { AreWords words }
    requires number { x < 64 }
    ensures words { AreWords result }
    ensures bits { (k i : ℕ) → k < 16 → i < 64
        → bit_at (slice_index result k) i ≡ bit_at (slice_index words k) (bit_xor i x) }
{
    let mut moved = words;
    for b in 0..6u32 {
        if x >> b & 1 == 1 {
            moved = swapped_words(moved, b);
        }
    }
    moved
}

/// The words with the bits exchanged whose places differ in bit `b` alone.
fn swapped_words(words: u64x16, b: u32) -> u64x16
    requires words { AreWords words }
    requires bit { b < 6 }
    ensures words { AreWords result }
    ensures bits { (k i : ℕ) → k < 16 → i < 64
        → bit_at (slice_index result k) i ≡ bit_at (slice_index words k) (bit_xor i (2 ^ b)) }
{
    let half = u64x16::splat(HALVES[b as usize]);
    let by = u64x16::splat(1u64 << b);
    (words & half) << by | words >> by & half
}

/// The greatest number below x at which the words have a 1.
pub(crate) fn last_one_below(words: &[u64; 16], x: u16) -> Option<u16>
    requires words { AreWords words.now }
    requires number { x ≤ 1024 }
    ensures some { IfSome result (λ y. IsLastOne words.now x y) }
    ensures none { IfNone result (AreZeros words.now 0 x) }
{
    if let Some(y) = last_one_of_word(words, x) {
        return Some(y);
    }
    last_one_before(words, x / 64)
}

/// The same in the word that has the place x.
fn last_one_of_word(words: &[u64; 16], x: u16) -> Option<u16>
    requires words { AreWords words.now }
    requires number { x ≤ 1024 }
    ensures some { IfSome result (λ y. IsLastOne words.now x y) }
    ensures none { IfNone result (AreZeros words.now (64 * (x / 64)) x) }
{
    if x == 1024 {
        return None;
    }
    let rest = words[usize::from(x / 64)] & ((1 << (x % 64)) - 1);
    if rest == 0 {
        return None;
    }
    Some(64 * (x / 64) + last_bit(rest))
}

/// The same in the first `count` words.
fn last_one_before(words: &[u64; 16], count: u16) -> Option<u16>
    requires words { AreWords words.now }
    requires count { count ≤ 16 }
    ensures some { IfSome result (λ y. IsLastOne words.now (64 * count) y) }
    ensures none { IfNone result (AreZeros words.now 0 (64 * count)) }
{
    let some = words_with_ones(words) & ((1 << count) - 1);
    if some == 0 {
        return None;
    }
    let last = last_bit(some);
    Some(64 * last + last_bit(words[usize::from(last)]))
}

/// Which words have a 1: bit i is that of word i.
fn words_with_ones(words: &[u64; 16]) -> u64
    requires { AreWords words.now }
    ensures none { (i : ℕ) → i < 16 → bit_at result i ≡ 0 → slice_index words.now i ≡ 0 }
    ensures some { (i : ℕ) → i < 16 → bit_at result i ≡ 1 → 0 < slice_index words.now i }
{
    u64x16::from_array(*words)
        .simd_ne(u64x16::splat(0))
        .to_bitmask()
}

/// The last place where the word, which is not 0, has a 1.
fn last_bit(word: u64) -> u16
    requires { 0 < word }
    ensures { IsLastBit word result }
{
    63 - word.leading_zeros() as u16
}

ghost use Rattle.std.specs.Prelude.{◌≡◌, ◌<◌, ◌≤◌, ◌↔◌, IsTrue, IsSome, IfSome};
ghost use Rattle.fx_designs.specs.Galois.{add, mul, neg, inv, is_order};
ghost use Rattle.fx_galois.specs.TableEntries.{pair_place, code_place};

use crate::tables::{INVERSES, NEGATIVES, PRODUCTS, SUMS};
use std::marker::Model;

/// A field GF(q). Its values are the codes 0 to q-1; for q = 4, 8 and 9 a code represents the
/// polynomial that has the code's digits in base 2 or 3 as coefficients.
#[derive(Clone, Copy, PartialEq, Eq)]
pub struct Field {
    q: u8,
}

impl Model for Field {
    ghost use Rattle.std.specs.Prelude.{ℕ, IsTrue};
    ghost use Rattle.fx_designs.specs.Galois.{is_order};

    ghost Value = { ℕ };

    ghost view = { λ f. f.q };

    ghost invariant = { λ f. IsTrue (is_order f.q) };

    ghost inverse = { λ n. record { q = n } };
}

impl Field {
    /// The field of order `q`; none where `q` is not 2, 3, 4, 5, 7, 8 or 9.
    pub fn of(q: u8) -> Option<Field>
        ensures known { IsSome result ↔ IsTrue (is_order q) }
        ensures order { IfSome result (λ f. f ≡ q) }
    {
        match q {
            2 | 3 | 4 | 5 | 7 | 8 | 9 => Some(Field { q }),
            _ => None,
        }
    }

    /// How many codes there are.
    pub fn q(&self) -> u8
        ensures order { result ≡ self.now }
        ensures known { IsTrue (is_order self.now) }
        ensures least { 2 ≤ self.now }
        ensures most { self.now ≤ 9 }
    {
        self.q
    }

    pub fn add(&self, a: u8, b: u8) -> u8
        requires left { a < self.now }
        requires right { b < self.now }
        ensures sum { result ≡ add self.now a b }
        ensures code { result < self.now }
    {
        SUMS[place_of_pair(self.q, a, b)]
    }

    /// The additive inverse of `a`.
    pub fn neg(&self, a: u8) -> u8
        requires { a < self.now }
        ensures negative { result ≡ neg self.now a }
        ensures code { result < self.now }
    {
        NEGATIVES[place_of_code(self.q, a)]
    }

    pub fn mul(&self, a: u8, b: u8) -> u8
        requires left { a < self.now }
        requires right { b < self.now }
        ensures product { result ≡ mul self.now a b }
        ensures code { result < self.now }
    {
        PRODUCTS[place_of_pair(self.q, a, b)]
    }

    /// The multiplicative inverse of `a`, which is not 0.
    pub fn inv(&self, a: u8) -> u8
        requires nonzero { 0 < a }
        requires code { a < self.now }
        ensures inverse { result ≡ inv self.now a }
        ensures code { result < self.now }
    {
        INVERSES[place_of_code(self.q, a)]
    }
}

/// Where the tables of sums and products have the entry for `a` and `b`.
fn place_of_pair(q: u8, a: u8, b: u8) -> usize
    requires order { IsTrue (is_order q) }
    requires left { a < q }
    requires right { b < q }
    ensures place { result ≡ pair_place q a b }
    ensures within { result < 248 }
{
    let first = match q {
        2 => 0,
        3 => 4,
        4 => 13,
        5 => 29,
        7 => 54,
        8 => 103,
        _ => 167,
    };
    first + q as usize * a as usize + b as usize
}

/// Where the tables of negatives and inverses have the entry for `a`.
fn place_of_code(q: u8, a: u8) -> usize
    requires order { IsTrue (is_order q) }
    requires code { a < q }
    ensures place { result ≡ code_place q a }
    ensures within { result < 38 }
{
    let first = match q {
        2 => 0,
        3 => 2,
        4 => 5,
        5 => 9,
        7 => 14,
        8 => 21,
        _ => 29,
    };
    first + a as usize
}

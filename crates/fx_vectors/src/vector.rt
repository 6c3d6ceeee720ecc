ghost use Rattle.std.specs.Prelude.{◌≡◌, ℕ, ◌^◌, ◌<◌, ◌≤◌, ◌↔◌, [], IsTrue, length, slice_index, slice_set};
ghost use Rattle.fx_designs.specs.Galois.{digits, number, inv, is_order};
ghost use Rattle.fx_designs.specs.Vectors.{IsVector, is_normal, last_nonzero, dot, plus, scale, weight, zeros};

use crate::shape::MOST_FACTORS;
use arrayvec::ArrayVec;
use fx_galois::Field;
use std::marker::Model;

/// A vector of at most `MOST_FACTORS` codes. Clauses see the list of its codes.
#[derive(Drop, PartialEq, Eq)]
pub struct Vector {
    codes: ArrayVec<u8, MOST_FACTORS>,
}

impl Model for Vector {
    ghost use Rattle.std.specs.Prelude.{List, ℕ};

    ghost Value = { List ℕ };

    ghost view = { λ v. v.codes.items };

    ghost inverse = { λ v. record { codes = record { items = v } } };
}

impl Vector {
    /// The vector of `len` zeros.
    pub fn zero(len: usize) -> Vector
        requires { len ≤ MOST_FACTORS }
        ensures zeros { result ≡ zeros len }
        ensures vector { (q : ℕ) → 0 < q → IsVector q len result }
    {
        let mut codes = ArrayVec::new();
        for _ in 0..len {
            codes.push(0);
        }
        Vector { codes }
    }

    /// The vector of `len` codes with the number `n`: its codes are the digits of `n` to the base q,
    /// the lowest first.
    pub fn of_number(field: Field, len: usize, n: u128) -> Vector
        requires { len ≤ MOST_FACTORS }
        ensures digits { result ≡ digits field len n }
        ensures vector { IsVector field len result }
    {
        let q = u128::from(field.q());
        let mut codes = ArrayVec::new();
        let mut rest = n;
        for _ in 0..len {
            codes.push((rest % q) as u8);
            rest /= q;
        }
        Vector { codes }
    }

    /// The number v_1 + v_2 q + .. of the codes v_1, v_2, ..
    pub fn number(&self, field: Field) -> u128
        requires vector { IsVector field (length self.now) self.now }
        requires fits { field ^ length self.now < 2 ^ 127 }
        ensures number { result ≡ number field self.now }
        ensures below { result < field ^ length self.now }
    {
        let q = u128::from(field.q());
        let mut number = 0;
        for i in (0..self.len()).rev() {
            number = number * q + u128::from(self.code(i));
        }
        number
    }

    pub fn len(&self) -> usize
        ensures count { result ≡ length self.now }
        ensures fits { result ≤ MOST_FACTORS }
    {
        self.codes.len()
    }

    /// Whether there is no code.
    pub fn is_empty(&self) -> bool
        ensures { IsTrue result ↔ (self.now ≡ []) }
    {
        self.codes.is_empty()
    }

    /// The code at `i`, counted from 0.
    pub fn code(&self, i: usize) -> u8
        requires { i < length self.now }
        ensures { result ≡ slice_index self.now i }
    {
        self.codes.as_slice()[i]
    }

    /// Puts `c` at `i`, counted from 0.
    pub fn set(&mut self, i: usize, c: u8)
        requires { i < length self.old }
        ensures codes { self.new ≡ slice_set self.old i c }
        ensures vector { (q n : ℕ) → IsVector q n self.old → c < q → IsVector q n self.new }
    {
        self.codes.as_mut_slice()[i] = c;
    }

    /// How many codes are not 0.
    pub fn weight(&self) -> usize
        ensures count { result ≡ weight self.now }
        ensures fits { result ≤ length self.now }
    {
        self.codes.as_slice().iter().filter(|c| **c > 0).count()
    }

    /// The sum of the products of the codes at the same places.
    pub fn dot(&self, field: Field, other: &Vector) -> u8
        requires mine { IsVector field (length self.now) self.now }
        requires same { IsVector field (length self.now) other.now }
        ensures product { result ≡ dot field self.now other.now }
        ensures code { result < field }
    {
        // Its order, once read, is known to be one of the seven.
        let _known = field.q();
        let mut sum = 0;
        for i in 0..self.len() {
            sum = field.add(sum, field.mul(self.code(i), other.code(i)));
        }
        sum
    }

    /// Adds `c` times the other vector.
    pub fn add_scaled(&mut self, field: Field, other: &Vector, c: u8)
        requires mine { IsVector field (length self.old) self.old }
        requires same { IsVector field (length self.old) other.now }
        requires code { c < field }
        ensures sum { self.new ≡ plus field self.old (scale field c other.now) }
        ensures vector { IsVector field (length self.old) self.new }
    {
        for i in 0..self.len() {
            let code = field.add(self.code(i), field.mul(c, other.code(i)));
            self.set(i, code);
        }
    }

    /// Whether the last code that is not 0 is 1.
    pub fn is_normal(&self) -> bool
        ensures { result ≡ is_normal self.now }
    {
        self.last_nonzero() == 1
    }

    /// The multiple of this vector, which is not zero, that is normal.
    pub fn normal(&self, field: Field) -> Vector
        requires vector { IsVector field (length self.now) self.now }
        requires nonzero { 0 < weight self.now }
        ensures normal { IsTrue (is_normal result) }
        ensures multiple { result ≡ scale field (inv field (last_nonzero self.now)) self.now }
        ensures factor { 0 < inv field (last_nonzero self.now) }
        ensures vector { IsVector field (length self.now) result }
    {
        // Its order, once read, is known to be one of the seven.
        let _known = field.q();
        let factor = field.inv(self.last_nonzero());
        let mut multiple = Vector::zero(self.len());
        multiple.add_scaled(field, self, factor);
        multiple
    }

    /// The last code that is not 0, or 0 where there is none.
    fn last_nonzero(&self) -> u8
        ensures { result ≡ last_nonzero self.now }
    {
        let mut last = 0;
        for c in self.codes.as_slice() {
            if *c != 0 {
                last = *c;
            }
        }
        last
    }
}

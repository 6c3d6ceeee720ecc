ghost use Rattle.std.specs.Prelude.{◌≡◌, ◌+◌, ◌-◌, ◌^◌, ◌<◌, ◌≤◌, ◌↔◌, IsTrue, [], ◌∷◌, ◌++◌, length, take, slice_index};
ghost use Rattle.fx_designs.specs.Galois.{number};
ghost use Rattle.fx_designs.specs.Vectors.{IsVector, combination, vectors_of};
ghost use Rattle.fx_vectors.specs.Shape.{IsShape};
ghost use Rattle.fx_vectors.specs.Matrix.{MatrixView, IsMatrix};

use crate::shape::{MOST_FACTORS, Shape};
use crate::vector::Vector;
use arrayvec::ArrayVec;
use std::marker::Model;

/// The first rows of a rule matrix of a shape: its factor rules, and then its block rules. A row is
/// the number of its vector of m codes.
#[derive(Drop, PartialEq, Eq)]
pub struct Matrix {
    shape: Shape,
    rows: ArrayVec<u16, MOST_FACTORS>,
}

impl Model for Matrix {
    ghost use Rattle.fx_vectors.specs.Matrix.{MatrixView, IsMatrix};

    ghost Value = { MatrixView };

    ghost view = { λ x. record { shape = x.shape; rows = x.rows.items } };

    ghost invariant = { λ x. IsMatrix x.shape x.rows.items };

    ghost inverse = { λ v. record { shape = v.shape; rows = record { items = v.rows } } };
}

impl Matrix {
    /// A matrix without rows.
    pub fn new(shape: Shape) -> Matrix
        requires { IsShape shape }
        ensures { result ≡ record { shape = shape; rows = [] } }
    {
        Matrix {
            shape,
            rows: ArrayVec::new(),
        }
    }

    pub fn shape(&self) -> Shape
        ensures shape { result ≡ self.now.shape }
        ensures valid { IsMatrix self.now.shape self.now.rows }
        ensures indexes { result.m ≤ 10 }
        ensures rows { result.s + result.t ≤ MOST_FACTORS }
    {
        self.shape
    }

    pub fn len(&self) -> usize
        ensures count { result ≡ length self.now.rows }
        ensures fits { result ≤ MOST_FACTORS }
    {
        self.rows.len()
    }

    /// Whether there is no row.
    pub fn is_empty(&self) -> bool
        ensures { IsTrue result ↔ (self.now.rows ≡ []) }
    {
        self.rows.is_empty()
    }

    /// The row at `i`, counted from 0.
    pub fn row(&self, i: usize) -> u16
        requires { i < length self.now.rows }
        ensures row { result ≡ slice_index self.now.rows i }
        ensures below { result < self.now.shape.q ^ self.now.shape.m }
    {
        self.rows.as_slice()[i]
    }

    /// Adds a row at the end.
    pub fn push(&mut self, row: u16)
        requires room { length self.old.rows < self.old.shape.s + self.old.shape.t }
        requires below { row < self.old.shape.q ^ self.old.shape.m }
        ensures { self.new ≡ record self.old { rows = self.old.rows ++ row ∷ [] } }
    {
        self.rows.push(row);
    }

    /// The same rows and one more at the end.
    pub fn with_row(&self, row: u16) -> Matrix
        requires room { length self.now.rows < self.now.shape.s + self.now.shape.t }
        requires below { row < self.now.shape.q ^ self.now.shape.m }
        ensures { result ≡ record self.now { rows = self.now.rows ++ row ∷ [] } }
    {
        let mut longer = self.copy();
        longer.push(row);
        longer
    }

    /// The same matrix once more.
    pub fn copy(&self) -> Matrix
        ensures { result ≡ self.now }
    {
        let mut copy = Matrix::new(self.shape);
        for i in 0..self.len() {
            copy.push(self.row(i));
        }
        copy
    }

    /// Takes the last row away.
    pub fn pop(&mut self)
        requires { 0 < length self.old.rows }
        ensures { self.new
            ≡ record self.old { rows = take (length self.old.rows - 1) self.old.rows } }
    {
        let _ = self.rows.pop();
    }

    /// The number of the sum of each row times the code of `u` at its place.
    pub fn sum(&self, u: &Vector) -> u16
        requires { IsVector self.now.shape.q (length self.now.rows) u.now }
        ensures sum { let q = self.now.shape.q in let m = self.now.shape.m in
            result ≡ number q (combination q m u.now (vectors_of q m self.now.rows)) }
        ensures below { result < self.now.shape.q ^ self.now.shape.m }
    {
        let field = self.shape.field();
        let m = usize::from(self.shape.m);
        let mut sum = Vector::zero(m);
        for i in 0..self.len() {
            let row = Vector::of_number(field, m, u128::from(self.row(i)));
            sum.add_scaled(field, &row, u.code(i));
        }
        sum.number(field) as u16
    }
}

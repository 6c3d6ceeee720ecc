ghost use Rattle.std.specs.Prelude.{◌≡◌, ◌+◌, ◌^◌, ◌≤◌, IsTrue};
ghost use Rattle.fx_designs.specs.Galois.{is_order};

use fx_galois::Field;

/// The most factors of a design, with two or three levels and without block factors.
pub const MOST_FACTORS: usize = 63;

/// The most factors with four levels or more.
pub const MOST_FACTORS_OF_MANY_LEVELS: usize = 40;

/// The most factors in blocks.
pub const MOST_FACTORS_IN_BLOCKS: usize = 30;

/// The dimensions of a design. Its runs are q^m, at most 1,024.
#[derive(Clone, Copy, PartialEq, Eq)]
pub struct Shape {
    /// Levels of a factor: 2, 3, 4, 5, 7, 8 or 9.
    pub q: u8,
    /// Run indexes, at least 1.
    pub m: u8,
    /// Factors, at least 1, and at most as many as the constants above allow.
    pub s: u8,
    /// Block factors, 0 to 10.
    pub t: u8,
}

impl Shape {
    ghost use Rattle.fx_vectors.specs.Shape.{IsShape};

    /// The field of the levels.
    pub fn field(&self) -> Field
        requires { IsTrue (is_order self.now.q) }
        ensures { result ≡ self.now.q }
    {
        Field::of(self.q).unwrap()
    }

    /// The number of runs.
    pub fn runs(&self) -> u16
        requires { IsShape self.now }
        ensures runs { result ≡ self.now.q ^ self.now.m }
        ensures few { result ≤ 1024 }
    {
        u16::from(self.q).pow(u32::from(self.m))
    }

    /// The number of rows of a rule matrix: one for each factor and for each block factor.
    pub fn rows(&self) -> usize
        ensures { result ≡ self.now.s + self.now.t }
    {
        usize::from(self.s) + usize::from(self.t)
    }
}

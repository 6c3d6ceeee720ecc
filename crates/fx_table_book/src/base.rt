ghost use Rattle.std.specs.Prelude.{◌≡◌, ◌<◌, ◌≤◌, ◌^◌};
ghost use Rattle.fx_vectors.specs.Shape.{IsShape};
ghost use Rattle.fx_table_book.specs.Tables.{shape_of, IsBase};

use fx_vectors::Shape;

/// The dimensions of designs with a base space: in blocks, where `w` is 0, and split plots; where `h` is 0, too, the
/// designs are in no blocks.
#[derive(Clone, Copy, PartialEq, Eq)]
pub struct Base {
    /// Levels of a factor.
    pub q: u8,
    /// Run indexes.
    pub m: u8,
    /// The dimension of the base space: there are q^h blocks, or whole plots.
    pub h: u8,
    /// Whole-plot factors.
    pub w: u8,
    /// The other factors.
    pub n: u8,
}

impl Base {
    /// The shape of the designs, which says nothing of the base space.
    pub fn shape(self) -> Shape
        requires { IsBase self }
        ensures shape { result ≡ shape_of self }
        ensures valid { IsShape result }
    {
        Shape {
            q: self.q,
            m: self.m,
            s: self.w + self.n,
            t: 0,
        }
    }

    /// The number of vectors of the base space.
    pub fn blocks(self) -> u16
        requires { IsBase self }
        ensures blocks { result ≡ self.q ^ self.h }
        ensures some { 0 < result }
        ensures few { result ≤ self.q ^ self.m }
    {
        self.power(self.h)
    }

    /// The unit vector with its 1 at a place, or behind the last place the number of runs.
    pub fn power(self, place: u8) -> u16
        requires base { IsBase self }
        requires place { place ≤ self.m }
        ensures power { result ≡ self.q ^ place }
        ensures some { 0 < result }
        ensures few { result ≤ self.q ^ self.m }
    {
        u16::from(self.q).pow(u32::from(place))
    }
}

ghost use Rattle.std.specs.Prelude.{[], ◌≡◌, ◌+◌, ◌-◌, ◌<◌, ◌≤◌, ◌==◌, ◌||◌, ◌*◌, ◌/◌, ◌%◌, ◌^◌, ℕ, bit_xor, length, slice_index, IsTrue, IfOk};
ghost use Rattle.fx_designs.specs.Galois.{is_order, neg};
ghost use Rattle.fx_points.specs.Sums.{SumsView, AreSums, sum_of, is_even};

use crate::point_set::PointSet;
use fx_base::{NoMemory, Values};
use fx_demands::sum_with;
use fx_galois::Field;
use std::alloc::Global;
use std::marker::Model;

/// The sums of points of m codes, which are given by their numbers. Where q is odd, the codes are
/// taken in two parts, and a table has the sums of each part. Clauses see q and m.
pub struct Sums {
    field: Field,
    m: u8,
    even: bool,
    /// How many points there are, and how many words of a set they take.
    size: u16,
    blocks: usize,
    /// How many codes the lower part has.
    half: u8,
    /// How many lower parts there are, and how many upper parts.
    width: u16,
    height: u16,
    low: Vec<u16>,
    high: Vec<u16>,
    /// The lower and the upper part of each point.
    lower: Vec<u16>,
    upper: Vec<u16>,
    /// Minus each point.
    opposite: Vec<u16>,
    /// For each code from 1 on the multiples of the points.
    multiples: Vec<u16>,
}

// Not derived, so that a place that drops one is proved with one call.
impl Drop for Sums {
    fn drop(self) {
        let Sums {
            field: _,
            m: _,
            even: _,
            size: _,
            blocks: _,
            half: _,
            width: _,
            height: _,
            low: _,
            high: _,
            lower: _,
            upper: _,
            opposite: _,
            multiples: _,
        } = self;
    }
}

impl Model for Sums {
    ghost use Rattle.fx_points.specs.Sums.{SumsView, AreSums};

    ghost Value = { SumsView };

    ghost view = { λ x. record { q = x.field; m = x.m } };

    ghost invariant = { λ x. AreSums x.field x.m x.even x.size x.blocks x.half x.width x.height x.low.items
        x.high.items x.lower.items x.upper.items x.opposite.items x.multiples.items };
}

impl Sums {
    /// The sums of points of m codes.
    ///
    /// # Errors
    ///
    /// `NoMemory`.
    pub fn of(alloc: Global, field: Field, m: u8) -> Result<Sums, NoMemory>
        requires { field ^ m ≤ 1024 }
        ensures { IfOk result (λ sums. sums ≡ record { q = field; m = m }) }
    {
        let even = is_even(field);
        let half = if even { 0 } else { m / 2 };
        let rest = m - half;
        let low = table(alloc, field, half)?;
        let high = if even {
            Vec::new(alloc)
        } else {
            table(alloc, field, rest)?
        };
        let size = power(field, m);
        let width = power(field, half);
        let lower = if even {
            Vec::new(alloc)
        } else {
            remainders(alloc, size, width)?
        };
        let upper = if even {
            Vec::new(alloc)
        } else {
            quotients(alloc, size, width)?
        };
        let opposite = opposites(alloc, field, m, size)?;
        let multiples = multiples(alloc, field, m, size)?;
        Ok(Sums {
            field,
            m,
            even,
            size,
            blocks: (usize::from(size) + 63) / 64,
            half,
            width,
            height: power(field, rest),
            low,
            high,
            lower,
            upper,
            opposite,
            multiples,
        })
    }

    /// A set without points.
    pub fn no_points(&self) -> PointSet
        ensures { result ≡ record { q = self.now.q; m = self.now.m; numbers = [] } }
    {
        PointSet::empty(self.field, self.m)
    }

    /// The field of the codes.
    pub fn field(&self) -> Field
        ensures { result ≡ self.now.q }
    {
        self.field
    }

    /// How many codes the field has.
    pub fn q(&self) -> u8
        ensures order { result ≡ self.now.q }
        ensures known { IsTrue (is_order self.now.q) }
        ensures least { 2 ≤ result }
        ensures most { result ≤ 9 }
        ensures runs { self.now.q ^ self.now.m ≤ 1024 }
    {
        self.field.q()
    }

    /// How many points there are.
    pub fn size(&self) -> u16
        ensures { result ≡ self.now.q ^ self.now.m }
    {
        self.size
    }

    /// How many words of a set the points take.
    pub fn blocks(&self) -> usize
        ensures wide { self.now.q ^ self.now.m ≤ 64 * result }
        ensures fits { result ≤ 16 }
    {
        self.blocks
    }

    /// Whether sums are taken bit by bit.
    pub fn is_even(&self) -> bool
        ensures { result ≡ is_even self.now.q }
    {
        self.even
    }

    /// The number of `c` times the point.
    pub fn times(&self, x: u16, c: u8) -> u16
        requires point { x < self.now.q ^ self.now.m }
        requires some { 0 < c }
        requires code { c < self.now.q }
        ensures multiple { result ≡ sum_of self.now.q c self.now.m 0 x }
        ensures below { result < self.now.q ^ self.now.m }
    {
        self.multiples[usize::from(c - 1) * usize::from(self.size) + usize::from(x)]
    }

    /// The number of the point that gives zero with this one.
    pub fn minus(&self, x: u16) -> u16
        requires { x < self.now.q ^ self.now.m }
        ensures negative { result ≡ sum_of self.now.q (neg self.now.q 1) self.now.m 0 x }
        ensures below { result < self.now.q ^ self.now.m }
    {
        part(self.opposite.as_slice(), x)
    }

    /// The number of the sum of two points.
    pub fn plus(&self, x: u16, y: u16) -> u16
        requires left { x < self.now.q ^ self.now.m }
        requires right { y < self.now.q ^ self.now.m }
        ensures total { result ≡ sum_of self.now.q 1 self.now.m x y }
        ensures below { result < self.now.q ^ self.now.m }
    {
        if self.even {
            return x ^ y;
        }
        let low = self.low[usize::from(part(self.lower.as_slice(), x)) * usize::from(self.width)
            + usize::from(part(self.lower.as_slice(), y))];
        let high = self.high[usize::from(part(self.upper.as_slice(), x)) * usize::from(self.height)
            + usize::from(part(self.upper.as_slice(), y))];
        low + self.width * high
    }
}

pub(crate) fn power(field: Field, n: u8) -> u16
    requires { field ^ n ≤ 1024 }
    ensures { result ≡ field ^ n }
{
    u16::from(field.q()).pow(u32::from(n))
}

/// The sums of points of n codes, one point after another, each with one after another.
fn table(alloc: Global, field: Field, n: u8) -> Result<Vec<u16>, NoMemory>
    requires { field ^ n ≤ 1024 }
    ensures len { IfOk result (λ sums. length sums.items ≡ field ^ n * field ^ n) }
    ensures are { IfOk result (λ sums. (i : ℕ) → i < field ^ n * field ^ n
        → slice_index sums.items i ≡ sum_of field 1 n (i / field ^ n) (i % field ^ n)) }
{
    let count = u32::from(field.q()).pow(u32::from(n));
    let mut sums = Values::new(alloc);
    for i in 0..count * count {
        sums.push(sum_with(field, n, (i / count) as u16, (i % count) as u16, 1))?;
    }
    Ok(sums.into_vec())
}

/// Minus each point.
fn opposites(alloc: Global, field: Field, m: u8, size: u16) -> Result<Vec<u16>, NoMemory>
    requires runs { field ^ m ≤ 1024 }
    requires size { size ≡ field ^ m }
    ensures len { IfOk result (λ points. length points.items ≡ field ^ m) }
    ensures are { IfOk result (λ points. (i : ℕ) → i < field ^ m
        → slice_index points.items i ≡ sum_of field (neg field 1) m 0 i) }
{
    let _known = field.q();
    let minus = field.neg(1);
    let mut points = Values::new(alloc);
    for x in 0..size {
        points.push(sum_with(field, m, 0, x, minus))?;
    }
    Ok(points.into_vec())
}

/// The multiples of the points: for each code from 1 on, one point after another.
fn multiples(alloc: Global, field: Field, m: u8, size: u16) -> Result<Vec<u16>, NoMemory>
    requires runs { field ^ m ≤ 1024 }
    requires size { size ≡ field ^ m }
    ensures len { IfOk result (λ points. length points.items ≡ (field - 1) * field ^ m) }
    ensures are { IfOk result (λ points. (i : ℕ) → i < (field - 1) * field ^ m
        → slice_index points.items i ≡ sum_of field (i / field ^ m + 1) m 0 (i % field ^ m)) }
{
    // Its order, once read, is known to be one of the seven.
    let codes = u32::from(field.q() - 1);
    let runs = u32::from(size);
    let mut points = Values::new(alloc);
    for i in 0..codes * runs {
        points.push(sum_with(field, m, 0, (i % runs) as u16, (i / runs) as u8 + 1))?;
    }
    Ok(points.into_vec())
}

/// What the table has for the point.
fn part(table: &[u16], x: u16) -> u16
    requires { x < length table.now }
    ensures { result ≡ slice_index table.now x }
{
    table[usize::from(x)]
}

/// The remainders of the first `count` numbers by `width`.
fn remainders(alloc: Global, count: u16, width: u16) -> Result<Vec<u16>, NoMemory>
    requires { 0 < width }
    ensures len { IfOk result (λ parts. length parts.items ≡ count) }
    ensures are { IfOk result (λ parts. (i : ℕ) → i < count → slice_index parts.items i ≡ i % width) }
{
    let mut parts = Values::new(alloc);
    for x in 0..count {
        parts.push(x % width)?;
    }
    Ok(parts.into_vec())
}

/// The quotients of the first `count` numbers by `width`.
fn quotients(alloc: Global, count: u16, width: u16) -> Result<Vec<u16>, NoMemory>
    requires { 0 < width }
    ensures len { IfOk result (λ parts. length parts.items ≡ count) }
    ensures are { IfOk result (λ parts. (i : ℕ) → i < count → slice_index parts.items i ≡ i / width) }
{
    let mut parts = Values::new(alloc);
    for x in 0..count {
        parts.push(x / width)?;
    }
    Ok(parts.into_vec())
}

/// Whether sums are taken bit by bit: at two, four and eight levels.
pub(crate) fn is_even(field: Field) -> bool
    ensures even { result ≡ is_even field }
    ensures known { IsTrue (is_order field) }
{
    let q = field.q();
    q == 2 || q == 4 || q == 8
}

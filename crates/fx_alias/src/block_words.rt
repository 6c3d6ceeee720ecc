ghost use Rattle.std.specs.Prelude.{◌≡◌, ◌<◌, ◌≤◌, ◌+◌, ◌^◌, IfOk, IsTrue, if◌then◌else◌, length, slice_index};
ghost use Rattle.fx_designs.specs.Galois.{is_order};
ghost use Rattle.fx_designs.specs.Patterns.{pattern_of};
ghost use Rattle.fx_designs.specs.Vectors.{vectors_of};
ghost use Rattle.fx_points.specs.Points.{has};
ghost use Rattle.fx_vectors.specs.Shape.{dimensions_of};
ghost use Rattle.fx_words.specs.Spreads.{spread};
ghost use Rattle.fx_alias.specs.BlockSpans.{IsBlockSpan};
ghost use Rattle.fx_alias.specs.BlockWords.{block_words_of, factors_of, with_room};

use crate::block_span::block_span;
use fx_base::NoMemory;
use fx_points::PointSet;
use fx_vectors::{Matrix, Pattern, Shape};
use fx_words::Tally;
use std::alloc::Global;

/// How many words are confounded with blocks (Sun, Wu and Chen): B_1 to B_s, where B_k counts the
/// vectors of weight k over the factors that are constant inside each block, and not over all runs, a
/// vector and its multiples once.
///
/// # Errors
///
/// `NoMemory`.
pub(crate) fn block_words(alloc: Global, matrix: &Matrix) -> Result<Pattern, NoMemory>
    requires complete { length matrix.now.rows ≡ matrix.now.shape.s + matrix.now.shape.t }
    requires few { matrix.now.shape.q ^ matrix.now.shape.t ≤ 1024 }
    ensures { IfOk result (λ b. b ≡ block_words_of matrix.now) }
{
    if matrix.shape().t == 0 {
        return no_words(alloc, matrix);
    }
    let span = block_span(matrix);
    let mut tally = factor_tally(alloc, matrix)?;
    let own = tally.pattern(alloc)?;
    words(alloc, matrix, &span, &mut tally, own.as_slice())
}

/// Without block rules there are none.
fn no_words(alloc: Global, matrix: &Matrix) -> Result<Pattern, NoMemory>
    requires complete { length matrix.now.rows ≡ matrix.now.shape.s + matrix.now.shape.t }
    requires none { matrix.now.shape.t ≡ 0 }
    ensures { IfOk result (λ b. b ≡ block_words_of matrix.now) }
{
    let mut words = Pattern::new(alloc);
    for _i in 0..matrix.shape().s {
        words.push(0)?;
    }
    Ok(words)
}

/// A tally of the factor rules, with room for one more.
fn factor_tally(alloc: Global, matrix: &Matrix) -> Result<Tally, NoMemory>
    requires complete { length matrix.now.rows ≡ matrix.now.shape.s + matrix.now.shape.t }
    requires blocks { 0 < matrix.now.shape.t }
    ensures { IfOk result (λ tally. tally ≡ factors_of matrix.now) }
{
    let shape = matrix.shape();
    let mut tally = Tally::new(alloc, with_room(shape))?;
    for i in 0..usize::from(shape.s) {
        tally.push(matrix.row(i));
    }
    Ok(tally)
}

/// The shape with one factor more, and without block factors.
fn with_room(shape: Shape) -> Shape
    requires { shape.s < 255 }
    ensures { result ≡ with_room shape }
{
    Shape {
        q: shape.q,
        m: shape.m,
        s: shape.s + 1,
        t: 0,
    }
}

/// How many words are confounded, from a tally of the factor rules and their own pattern.
fn words(
    alloc: Global,
    matrix: &Matrix,
    span: &PointSet,
    tally: &mut Tally,
    own: &[u128],
) -> Result<Pattern, NoMemory>
    requires complete { length matrix.now.rows ≡ matrix.now.shape.s + matrix.now.shape.t }
    requires span { IsBlockSpan matrix.now span.now }
    requires tally { tally.old ≡ factors_of matrix.now }
    requires own { own.now ≡ pattern_of (dimensions_of tally.old.shape) tally.old.rows }
    ensures { IfOk result (λ b. b ≡ block_words_of matrix.now) }
{
    let mut words = Pattern::new(alloc);
    for i in 0..usize::from(matrix.shape().s) {
        words.push(words_at(matrix, span, tally, own, i))?;
    }
    Ok(words)
}

/// The entry at `i`, counted from 0.
fn words_at(matrix: &Matrix, span: &PointSet, tally: &mut Tally, own: &[u128], i: usize) -> u128
    requires complete { length matrix.now.rows ≡ matrix.now.shape.s + matrix.now.shape.t }
    requires span { IsBlockSpan matrix.now span.now }
    requires tally { tally.old ≡ factors_of matrix.now }
    requires own { own.now ≡ pattern_of (dimensions_of tally.old.shape) tally.old.rows }
    requires entry { i < matrix.now.shape.s }
    ensures words { result ≡ slice_index (block_words_of matrix.now) i }
    ensures same { tally.new ≡ tally.old }
{
    let shape = matrix.shape();
    let mut count = 0u128;
    // The sum of a vector that is constant over all runs is zero.
    for x in 1..shape.runs() {
        count += vectors_with(tally, own, span, x, i + 1);
    }
    count / (u128::from(shape.q) - 1)
}

/// How many vectors of weight k over the factors have the sum x, where the blocks span it.
fn vectors_with(tally: &mut Tally, own: &[u128], span: &PointSet, x: u16, k: usize) -> u128
    requires order { IsTrue (is_order tally.old.shape.q) }
    requires few { tally.old.shape.q ^ tally.old.shape.m ≤ 1024 }
    requires own { own.now ≡ pattern_of (dimensions_of tally.old.shape) tally.old.rows }
    requires room { length tally.old.rows < tally.old.shape.s }
    requires point { x < tally.old.shape.q ^ tally.old.shape.m }
    requires weight { k < tally.old.shape.s }
    ensures count { result
        ≡ (if has span.now x
        then spread tally.old.shape.q tally.old.shape.m
        (vectors_of tally.old.shape.q tally.old.shape.m tally.old.rows) k x
        else 0) }
    ensures same { tally.new ≡ tally.old }
{
    if !span.contains(x) {
        return 0;
    }
    // With the sum as one row more, each such vector makes a word that is heavier by one.
    tally.words_with(x, k) - own[k]
}

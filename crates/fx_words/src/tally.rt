ghost use Rattle.std.specs.Prelude.{◌≡◌, ◌<◌, ◌≤◌, ◌-◌, ◌*◌, ◌+◌, ◌^◌, ℕ, List, [], ◌∷◌, ◌++◌, length, take, slice_index, IfOk};
ghost use Rattle.fx_designs.specs.Patterns.{pattern_of, is_less};
ghost use Rattle.fx_designs.specs.Vectors.{vectors_of};
ghost use Rattle.fx_vectors.specs.Matrix.{MatrixView};
ghost use Rattle.fx_vectors.specs.Shape.{IsShape, dimensions_of};
ghost use Rattle.fx_words.specs.Tables.{AreOf, IsLevel, IsTally, AreAdded, IsAdded};

use crate::classes::Classes;
use crate::level;
use fx_base::NoMemory;
use fx_vectors::{MOST_FACTORS, Matrix, Pattern, Shape};
use std::alloc::Global;
use std::marker::Model;

/// How many weights a vector of factors may have.
const WEIGHTS: usize = MOST_FACTORS + 1;

/// The factor rows of a prefix, with counts of the sums of its first rows by weight and point, from which
/// its pattern is read. Clauses see the prefix. At the limits of a shape the counts take 67 MB, and the
/// classes of the points 2 MB.
pub struct Tally {
    prefix: Matrix,
    classes: Classes,
    /// For each number of rows, and each weight, a count for each point that is kept.
    counts: Vec<u128>,
    /// For each number of rows of how many weights, from 0 on, the counts are made: most prefixes are
    /// told from the best design by the least weights.
    made: [usize; WEIGHTS],
}

// Not derived, so that a place that drops one is proved with one call.
impl Drop for Tally {
    fn drop(self) {
        let Tally {
            prefix: _,
            classes: _,
            counts: _,
            made: _,
        } = self;
    }
}

impl Model for Tally {
    ghost use Rattle.fx_vectors.specs.Matrix.{MatrixView};
    ghost use Rattle.fx_words.specs.Tables.{AreOf, IsTally};

    ghost Value = { MatrixView };

    ghost view = { λ x. x.prefix };

    ghost invariant = { λ x. record {
      classes : AreOf x.prefix.shape x.classes;
      counts : IsTally x.prefix.shape x.classes.points x.prefix.rows x.counts.items x.made;
    } };
}

impl Tally {
    /// A tally of no rows, for a shape within the limits. It takes all its memory now.
    ///
    /// # Errors
    ///
    /// `NoMemory`.
    pub fn new(alloc: Global, shape: Shape) -> Result<Tally, NoMemory>
        requires { IsShape shape }
        ensures { IfOk result (λ tally. tally ≡ record { shape = shape; rows = [] }) }
    {
        let classes = Classes::of(alloc, shape.field(), shape.m)?;
        let counts = counts_of_no_rows(alloc, shape, &classes)?;
        Ok(Tally {
            prefix: Matrix::new(shape),
            classes,
            counts,
            made: [usize::from(shape.s) + 1; WEIGHTS],
        })
    }

    /// The factor rows.
    pub fn prefix(&self) -> &Matrix
        ensures { result.now ≡ self.now }
    {
        &self.prefix
    }

    /// Adds a row, below q^m, where a factor row is still to come.
    pub fn push(&mut self, row: u16)
        requires room { length self.old.rows < self.old.shape.s }
        requires below { row < self.old.shape.q ^ self.old.shape.m }
        ensures { self.new ≡ record self.old { rows = self.old.rows ++ row ∷ [] } }
    {
        self.made[self.prefix.len() + 1] = 0;
        self.prefix.push(row);
    }

    /// Removes the last row, where there is one.
    pub fn pop(&mut self)
        requires { 0 < length self.old.rows }
        ensures { self.new
            ≡ record self.old { rows = take (length self.old.rows - 1) self.old.rows } }
    {
        self.prefix.pop();
    }

    /// Whether the pattern with this row added is less than another of s entries. The row is not pushed, and
    /// the first weight that decides ends the comparison.
    pub fn less_with(&mut self, row: u16, other: &[u128]) -> bool
        requires room { length self.old.rows < self.old.shape.s }
        requires below { row < self.old.shape.q ^ self.old.shape.m }
        requires entries { length other.now ≡ self.old.shape.s }
        ensures less { result
            ≡ is_less (pattern_of (dimensions_of self.old.shape) (self.old.rows ++ row ∷ []))
            other.now }
        ensures same { self.new ≡ self.old }
    {
        for i in 0..other.len() {
            let words = self.words_with(row, i);
            if words != other[i] {
                return words < other[i];
            }
        }
        false
    }

    /// The entry at `i`, counted from 0, of the pattern with this row added.
    pub fn words_with(&mut self, row: u16, i: usize) -> u128
        requires room { length self.old.rows < self.old.shape.s }
        requires below { row < self.old.shape.q ^ self.old.shape.m }
        requires entry { i < self.old.shape.s }
        ensures words { result
            ≡ slice_index
            (pattern_of (dimensions_of self.old.shape) (self.old.rows ++ row ∷ []))
            i }
        ensures same { self.new ≡ self.old }
    {
        let len = self.prefix.len();
        let counts = self.counts.as_mut_slice();
        if self.made[len] >= i + 2 {
            let level = level_of(counts, &self.made, &self.prefix, &self.classes, len);
            return level::words_with(level, &self.prefix, &self.classes, row, i);
        }
        // Most prefixes have few rows to be tried, and their counts are never made.
        make(
            counts,
            &mut self.made,
            &self.prefix,
            &self.classes,
            len - 1,
            i + 2,
        );
        let level = level_of(counts, &self.made, &self.prefix, &self.classes, len - 1);
        level::words_with_both(level, &self.prefix, &self.classes, row, i)
    }

    /// Whether the pattern is less than another of s entries.
    pub fn less_than(&mut self, other: &Pattern) -> bool
        requires entries { length other.now ≡ self.old.shape.s }
        ensures less { result
            ≡ is_less (pattern_of (dimensions_of self.old.shape) self.old.rows) other.now }
        ensures same { self.new ≡ self.old }
    {
        let weights = usize::from(self.prefix.shape().s) + 1;
        let counts = self.counts.as_mut_slice();
        let len = self.prefix.len();
        make(
            counts,
            &mut self.made,
            &self.prefix,
            &self.classes,
            len,
            weights,
        );
        let level = level_of(counts, &self.made, &self.prefix, &self.classes, len);
        level::less_than(level, &self.prefix, &self.classes, other.as_slice())
    }

    /// The pattern: A_1 to A_s, where the rows to come have no words.
    ///
    /// # Errors
    ///
    /// `NoMemory`.
    pub fn pattern(&mut self, alloc: Global) -> Result<Pattern, NoMemory>
        ensures pattern { IfOk result (λ pattern.
            pattern ≡ pattern_of (dimensions_of self.old.shape) self.old.rows) }
        ensures same { self.new ≡ self.old }
    {
        let weights = usize::from(self.prefix.shape().s) + 1;
        let counts = self.counts.as_mut_slice();
        let len = self.prefix.len();
        make(
            counts,
            &mut self.made,
            &self.prefix,
            &self.classes,
            len,
            weights,
        );
        let level = level_of(counts, &self.made, &self.prefix, &self.classes, len);
        level::pattern(alloc, level, &self.prefix, &self.classes)
    }
}

/// The word-length pattern of the factor rows of a prefix: A_1 to A_s, where the rows to come have no
/// words.
///
/// # Errors
///
/// `NoMemory`.
pub fn pattern_of(alloc: Global, matrix: &Matrix) -> Result<Pattern, NoMemory>
    ensures { IfOk result (λ pattern.
        pattern ≡ pattern_of (dimensions_of matrix.now.shape) matrix.now.rows) }
{
    let shape = matrix.shape();
    let mut tally = Tally::new(alloc, shape)?;
    for i in 0..matrix.len().min(usize::from(shape.s)) {
        tally.push(matrix.row(i));
    }
    tally.pattern(alloc)
}

/// The counts of the first k rows of the prefix, as far as they are made.
fn level_of<'a>(
    counts: &'a [u128],
    made: &[usize],
    prefix: &Matrix,
    classes: &Classes,
    k: usize,
) -> &'a [u128]
    requires counts { IsTally prefix.now.shape classes.now.points prefix.now.rows counts.now made.now }
    requires rows { k ≤ length prefix.now.rows }
    ensures { IsLevel prefix.now.shape.q prefix.now.shape.m (slice_index made.now k)
        (vectors_of prefix.now.shape.q prefix.now.shape.m (take k prefix.now.rows)) classes.now.points result.now }
{
    let from = k * level_size(prefix.shape(), classes);
    &counts[from..from + made[k] * classes.len()]
}

/// How many counts there are for a number of rows.
fn level_size(shape: Shape, classes: &Classes) -> usize
    requires { IsShape shape }
    ensures size { result ≡ (shape.s + 1) * length classes.now.points }
    ensures fits { result ≤ 65536 }
{
    (usize::from(shape.s) + 1) * classes.len()
}

fn counts_of_no_rows(alloc: Global, shape: Shape, classes: &Classes) -> Result<Vec<u128>, NoMemory>
    requires shaped { IsShape shape }
    requires classes { AreOf shape classes.now }
    ensures { IfOk result (λ counts.
        (made : List ℕ) → shape.s < length made
        → ((k : ℕ) → k ≤ shape.s → slice_index made k ≡ shape.s + 1)
        → IsTally shape classes.now.points [] counts.items made) }
{
    // Zero alone is the sum of no rows, and it is kept first.
    let kept = classes.len();
    let count = (usize::from(shape.s) + 1) * ((usize::from(shape.s) + 1) * kept);
    let mut counts = match vec![in alloc; 0u128; count] {
        Ok(counts) => counts,
        Err(_) => return Err(NoMemory),
    };
    counts[0] = 1;
    Ok(counts)
}

/// Makes the counts of the first `weights` weights for each number of rows up to `rows`, as far as they are not
/// made.
fn make(
    counts: &mut [u128],
    made: &mut [usize],
    prefix: &Matrix,
    classes: &Classes,
    rows: usize,
    weights: usize,
)
    requires counts { IsTally prefix.now.shape classes.now.points prefix.now.rows counts.old made.old }
    requires classes { AreOf prefix.now.shape classes.now }
    requires rows { rows ≤ length prefix.now.rows }
    requires weights { weights ≤ prefix.now.shape.s + 1 }
    ensures counts { IsTally prefix.now.shape classes.now.points prefix.now.rows counts.new made.new }
    ensures made { weights ≤ slice_index made.new rows }
{
    if made[rows] >= weights {
        return;
    }
    make_all(counts, made, prefix, classes, rows, weights);
}

/// The same, where they are not all made.
// Apart from the test before it, which is asked for each weight of each comparison.
#[inline(never)]
fn make_all(
    counts: &mut [u128],
    made: &mut [usize],
    prefix: &Matrix,
    classes: &Classes,
    rows: usize,
    weights: usize,
)
    requires counts { IsTally prefix.now.shape classes.now.points prefix.now.rows counts.old made.old }
    requires classes { AreOf prefix.now.shape classes.now }
    requires rows { rows ≤ length prefix.now.rows }
    requires weights { weights ≤ prefix.now.shape.s + 1 }
    ensures counts { IsTally prefix.now.shape classes.now.points prefix.now.rows counts.new made.new }
    ensures made { weights ≤ slice_index made.new rows }
{
    for k in 0..rows {
        make_next(counts, made, prefix, classes, k, weights);
    }
}

/// Makes those of the first k rows and one more, where those of the first k rows are made.
fn make_next(
    counts: &mut [u128],
    made: &mut [usize],
    prefix: &Matrix,
    classes: &Classes,
    k: usize,
    weights: usize,
)
    requires counts { IsTally prefix.now.shape classes.now.points prefix.now.rows counts.old made.old }
    requires classes { AreOf prefix.now.shape classes.now }
    requires row { k < length prefix.now.rows }
    requires weights { weights ≤ slice_index made.old k }
    ensures counts { IsTally prefix.now.shape classes.now.points prefix.now.rows counts.new made.new }
    ensures made { weights ≤ slice_index made.new (k + 1) }
{
    for weight in made[k + 1]..weights {
        add_weight(counts, made, prefix, classes, k);
        made[k + 1] = weight + 1;
    }
}

/// Adds the counts of the next weight for the first k rows and one more.
fn add_weight(counts: &mut [u128], made: &[usize], prefix: &Matrix, classes: &Classes, k: usize)
    requires counts { IsTally prefix.now.shape classes.now.points prefix.now.rows counts.old made.now }
    requires classes { AreOf prefix.now.shape classes.now }
    requires row { k < length prefix.now.rows }
    requires known { slice_index made.now (k + 1) < slice_index made.now k }
    ensures { IsAdded prefix.now.shape classes.now.points prefix.now.rows counts.new made.now k }
{
    // The points that are kept are below q^m.
    let _kept = classes.len();
    let shape = prefix.shape();
    let row = prefix.row(k);
    if made[k + 1] == 0 {
        add_zeros(counts, made, prefix, classes, k, row);
        return;
    }
    // No word over so many rows has a greater weight than their number.
    if made[k + 1] > k + 1 {
        return;
    }
    add_first(counts, made, prefix, classes, k, row);
    for c in 2..shape.q {
        add_next(counts, made, prefix, classes, k, row, c);
    }
}

/// Adds those of weight 0, which are those of the rows before.
fn add_zeros(
    counts: &mut [u128],
    made: &[usize],
    prefix: &Matrix,
    classes: &Classes,
    k: usize,
    row: u16,
)
    requires counts { IsTally prefix.now.shape classes.now.points prefix.now.rows counts.old made.now }
    requires classes { AreOf prefix.now.shape classes.now }
    requires room { k < length prefix.now.rows }
    requires known { slice_index made.now (k + 1) < slice_index made.now k }
    requires none { slice_index made.now (k + 1) ≡ 0 }
    ensures { AreAdded prefix.now.shape classes.now.points prefix.now.rows counts.new made.now k row 0 1 0 (length classes.now.points) }
{
    let kept = classes.len();
    let size = level_size(prefix.shape(), classes);
    let from = k * size;
    let to = from + size;
    for j in 0..kept {
        counts[to + j] = counts[from + j];
    }
}

/// Adds those of a weight above 0 with the entries 0 and 1 for the row.
fn add_first(
    counts: &mut [u128],
    made: &[usize],
    prefix: &Matrix,
    classes: &Classes,
    k: usize,
    row: u16,
)
    requires counts { IsTally prefix.now.shape classes.now.points prefix.now.rows counts.old made.now }
    requires classes { AreOf prefix.now.shape classes.now }
    requires room { k < length prefix.now.rows }
    requires row { row < prefix.now.shape.q ^ prefix.now.shape.m }
    requires known { slice_index made.now (k + 1) < slice_index made.now k }
    requires some { 0 < slice_index made.now (k + 1) }
    requires weight { slice_index made.now (k + 1) ≤ k + 1 }
    ensures { AreAdded prefix.now.shape classes.now.points prefix.now.rows counts.new made.now k row
        (slice_index made.now (k + 1)) 2 0 (length classes.now.points) }
{
    let kept = classes.len();
    let size = level_size(prefix.shape(), classes);
    let lighter = k * size + (made[k + 1] - 1) * kept;
    let from = lighter + kept;
    let to = from + size;
    let moves = classes.moves(row, 1);
    for j in 0..kept {
        counts[to + j] = counts[from + j] + counts[lighter + usize::from(moves[j])];
    }
}

/// Adds those with the entry c for the row, after those with the lesser entries.
fn add_next(
    counts: &mut [u128],
    made: &[usize],
    prefix: &Matrix,
    classes: &Classes,
    k: usize,
    row: u16,
    c: u8,
)
    requires added { AreAdded prefix.now.shape classes.now.points prefix.now.rows counts.old made.now k row
        (slice_index made.now (k + 1)) c 0 (length classes.now.points) }
    requires classes { AreOf prefix.now.shape classes.now }
    requires room { k < length prefix.now.rows }
    requires row { row < prefix.now.shape.q ^ prefix.now.shape.m }
    requires known { slice_index made.now (k + 1) < slice_index made.now k }
    requires some { 0 < slice_index made.now (k + 1) }
    requires weight { slice_index made.now (k + 1) ≤ k + 1 }
    requires entry { 0 < c }
    requires code { c < prefix.now.shape.q }
    ensures { AreAdded prefix.now.shape classes.now.points prefix.now.rows counts.new made.now k row
        (slice_index made.now (k + 1)) (c + 1) 0 (length classes.now.points) }
{
    let kept = classes.len();
    let size = level_size(prefix.shape(), classes);
    let lighter = k * size + (made[k + 1] - 1) * kept;
    let to = lighter + kept + size;
    let moves = classes.moves(row, c);
    for j in 0..kept {
        counts[to + j] += counts[lighter + usize::from(moves[j])];
    }
}

ghost use Rattle.std.specs.Prelude.{◌≡◌, ◌≢◌, ◌+◌, ◌-◌, ◌*◌, ◌/◌, ◌<◌, ◌≤◌, ◌^◌, ℕ, List, true, All, Contains, Option, None, length, take, slice_index_or};
ghost use Rattle.std.specs.Option.{is_some};
ghost use Rattle.fx_designs.specs.Problems.{Dimensions, Requirement, AtResolution};
ghost use Rattle.fx_designs.specs.Vectors.{IsVector};
ghost use Rattle.fx_demands.specs.EffectVectors.{AreFactorParts};
ghost use Rattle.fx_points.specs.Points.{has};
ghost use Rattle.fx_barred.specs.declared.best_words.Best.{Best};
ghost use Rattle.fx_barred.specs.BestWords.{preferred, with_code, IsBest, AreBest, IsWithin, AreWithin};

use crate::reached::Reached;
use fx_points::PointSet;
use fx_vectors::Vector;

/// A word, by its weight and number.
#[derive(Clone, Copy)]
pub struct Best {
    pub weight: usize,
    pub number: u128,
}

/// Puts in for each point, from place `first` on, the best word for a block row that comes right after
/// the factor rows, under a resolution of which `most` factors are half, rounded down.
pub fn fill_light(reached: &Reached, most: usize, tables: &mut [Option<Best>], first: usize)
    requires few { most ≤ 100 }
    requires most { most ≤ reached.now.most }
    requires there { first + reached.now.q ^ reached.now.m ≤ length tables.old }
    ensures len { length tables.new ≡ length tables.old }
    ensures kept { (k : ℕ) → k < first → slice_index_or tables.new k None ≡ slice_index_or tables.old k None }
    ensures within { AreWithin reached.now.q reached.now.m (length reached.now.rows) first tables.new }
    ensures best { (d : Dimensions) (r : ℕ) → d.q ≡ reached.now.q → d.m ≡ reached.now.m
        → length reached.now.rows ≡ d.s → 0 < d.t → (r - 1) / 2 ≡ most
        → AreBest d (AtResolution r) reached.now.rows first tables.new }
{
    for x in 0..reached.size() {
        tables[first + usize::from(x)] = lightest(reached, most, x);
    }
}

/// The best word for this block row.
fn lightest(reached: &Reached, most: usize, x: u16) -> Option<Best>
    requires few { most ≤ 100 }
    requires most { most ≤ reached.now.most }
    requires point { x < reached.now.q ^ reached.now.m }
    ensures within { IsWithin reached.now.q (length reached.now.rows) result }
    ensures best { (d : Dimensions) (r : ℕ) → d.q ≡ reached.now.q → d.m ≡ reached.now.m
        → length reached.now.rows ≡ d.s → 0 < d.t → (r - 1) / 2 ≡ most
        → IsBest d (AtResolution r) reached.now.rows x result }
{
    // Its order and its rows, once read, are known to be valid.
    let _known = reached.q();
    let _points = reached.len();
    for weight in 0..most + 1 {
        if reached.reaches(weight, x) {
            let number = reached.word(weight, x);
            return Some(Best { weight, number });
        }
    }
    None
}

/// The same where these are zero and the vectors to be estimated.
pub(crate) fn fill_listed(
    reached: &Reached,
    vectors: &[Vector],
    tables: &mut [Option<Best>],
    first: usize,
)
    requires vectors { All (λ v. IsVector reached.now.q reached.now.room v) vectors.now }
    requires all { length reached.now.rows ≡ reached.now.room }
    requires there { first + reached.now.q ^ reached.now.m ≤ length tables.old }
    ensures len { length tables.new ≡ length tables.old }
    ensures kept { (k : ℕ) → k < first → slice_index_or tables.new k None ≡ slice_index_or tables.old k None }
    ensures within { AreWithin reached.now.q reached.now.m (length reached.now.rows) first tables.new }
    ensures best { (d : Dimensions) (wanted : Requirement) → d.q ≡ reached.now.q → d.m ≡ reached.now.m
        → length reached.now.rows ≡ d.s → AreFactorParts d wanted vectors.now
        → AreBest d wanted reached.now.rows first tables.new }
{
    // Its order, once read, is known to be one of the seven, and words of all its rows to have numbers.
    let _known = reached.q();
    let _words = reached.room();
    clear(tables, first, usize::from(reached.size()));
    for v in vectors {
        let x = reached.minus(reached.sum(v));
        let best = Best {
            weight: v.weight(),
            number: v.number(reached.field()),
        };
        put(tables, first + usize::from(x), best);
    }
}

/// The points that have a word in the table from place `first` on.
pub fn points_with_words(reached: &Reached, tables: &[Option<Best>], first: usize) -> PointSet
    requires there { first + reached.now.q ^ reached.now.m ≤ length tables.now }
    ensures { (x : ℕ) → x < reached.now.q ^ reached.now.m
        → has result x ≡ is_some (slice_index_or tables.now (first + x) None) }
{
    let mut set = reached.no_points();
    for x in 0..reached.size() {
        if tables[first + usize::from(x)].is_some() {
            set.insert(x);
        }
    }
    set
}

/// Puts in None.
fn clear(tables: &mut [Option<Best>], first: usize, size: usize)
    requires { first + size ≤ length tables.old }
    ensures len { length tables.new ≡ length tables.old }
    ensures none { (x : ℕ) → x < size → slice_index_or tables.new (first + x) None ≡ None }
    ensures kept { (k : ℕ) → k < first → slice_index_or tables.new k None ≡ slice_index_or tables.old k None }
{
    for x in 0..size {
        tables[first + x] = None;
    }
}

/// Puts in the word where it is better.
fn put(tables: &mut [Option<Best>], place: usize, best: Best)
    requires { place < length tables.old }
    ensures len { length tables.new ≡ length tables.old }
    ensures here { slice_index_or tables.new place None ≡ preferred (slice_index_or tables.old place None) (Some best) }
    ensures others { (k : ℕ) → k ≢ place → slice_index_or tables.new k None ≡ slice_index_or tables.old k None }
{
    tables[place] = preferred(tables[place], Some(best));
}

/// Puts in for each point, from place `first` on, the best word over the rows, where the table from
/// place `before` on has the best over the rows before the last.
pub fn fill_next(rows: &Reached, tables: &mut [Option<Best>], before: usize, first: usize)
    requires some { 0 < length rows.now.rows }
    requires order { before + rows.now.q ^ rows.now.m ≤ first }
    requires there { first + rows.now.q ^ rows.now.m ≤ length tables.old }
    requires within { AreWithin rows.now.q rows.now.m (length rows.now.rows - 1) before tables.old }
    ensures len { length tables.new ≡ length tables.old }
    ensures kept { (k : ℕ) → k < first → slice_index_or tables.new k None ≡ slice_index_or tables.old k None }
    ensures within { AreWithin rows.now.q rows.now.m (length rows.now.rows) first tables.new }
    ensures best { (d : Dimensions) (wanted : Requirement) → d.q ≡ rows.now.q → d.m ≡ rows.now.m
        → d.s < length rows.now.rows
        → AreBest d wanted (take (length rows.now.rows - 1) rows.now.rows) before tables.old
        → AreBest d wanted rows.now.rows first tables.new }
{
    for x in 0..rows.size() {
        tables[first + usize::from(x)] = best_with_last(rows, tables, before, x);
    }
}

/// The best word over the rows for this point.
fn best_with_last(rows: &Reached, tables: &[Option<Best>], before: usize, x: u16) -> Option<Best>
    requires some { 0 < length rows.now.rows }
    requires there { before + rows.now.q ^ rows.now.m ≤ length tables.now }
    requires point { x < rows.now.q ^ rows.now.m }
    requires within { AreWithin rows.now.q rows.now.m (length rows.now.rows - 1) before tables.now }
    ensures within { IsWithin rows.now.q (length rows.now.rows) result }
    ensures best { (d : Dimensions) (wanted : Requirement) → d.q ≡ rows.now.q → d.m ≡ rows.now.m
        → d.s < length rows.now.rows
        → AreBest d wanted (take (length rows.now.rows - 1) rows.now.rows) before tables.now
        → IsBest d wanted rows.now.rows x result }
{
    let last = rows.len() - 1;
    let mut best = tables[before + usize::from(x)];
    for code in 1..rows.q() {
        let y = rows.with_row(x, last, code);
        let shorter = tables[before + usize::from(y)];
        best = preferred(best, with_code(rows, shorter, last, code));
    }
    best
}

/// The word with this code for row `last` besides.
fn with_code(rows: &Reached, best: Option<Best>, last: usize, code: u8) -> Option<Best>
    requires row { last < length rows.now.rows }
    requires code { code < rows.now.q }
    requires within { IsWithin rows.now.q last best }
    ensures longer { result ≡ with_code best (code * rows.now.q ^ last) }
    ensures within { IsWithin rows.now.q (last + 1) result }
{
    let added = rows.place_value(last, code);
    match best {
        None => None,
        Some(word) => Some(Best {
            weight: word.weight + 1,
            number: word.number + added,
        }),
    }
}

/// The better of two words: that of less weight, or of the same weight and greater number.
fn preferred(a: Option<Best>, b: Option<Best>) -> Option<Best>
    ensures { result ≡ preferred a b }
{
    match a {
        None => b,
        Some(x) => match b {
            None => Some(x),
            Some(y) => {
                if y.weight < x.weight || (y.weight == x.weight && x.number <= y.number) {
                    Some(y)
                } else {
                    Some(x)
                }
            }
        },
    }
}

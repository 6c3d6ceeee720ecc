ghost use Rattle.std.specs.Prelude.{◌≡◌, ◌≤◌, ◌<◌, ◌+◌, ◌^◌, IfSome, Option, ℕ, nat_le, true};
ghost use Rattle.fx_designs.specs.Galois.{is_order};
ghost use Rattle.fx_vectors.specs.Shape.{IsShape};
ghost use Rattle.fx_book.specs.Parts.{parts_of};
ghost use Rattle.fx_book.specs.Heads.{shape_of, shape_from};

use crate::part::{is_word, next_stop, number};
use crate::version::Version;
use fx_vectors::{MOST_FACTORS_IN_BLOCKS, Shape};

/// The shape of line 2: a word and four numbers.
pub(crate) fn shape_of(version: Version, line: &[u8]) -> Option<Shape>
    ensures shape { result ≡ shape_of version (parts_of line.now) }
    ensures valid { IfSome result IsShape }
{
    let word = next_stop(line, 0, b' ');
    if word == line.len() {
        return None;
    }
    let q = next_stop(line, word + 1, b' ');
    if q == line.len() {
        return None;
    }
    let m = next_stop(line, q + 1, b' ');
    if m == line.len() {
        return None;
    }
    let s = next_stop(line, m + 1, b' ');
    if s == line.len() {
        return None;
    }
    let t = next_stop(line, s + 1, b' ');
    if t < line.len() {
        return None;
    }
    if !is_word(&line[..word], b"size") {
        return None;
    }
    shape_from(
        version,
        number(&line[word + 1..q]),
        number(&line[q + 1..m]),
        number(&line[m + 1..s]),
        number(&line[s + 1..t]),
    )
}

fn shape_from(
    version: Version,
    q: Option<u128>,
    m: Option<u128>,
    s: Option<u128>,
    t: Option<u128>,
) -> Option<Shape>
    ensures shape { result ≡ shape_from version q m s t }
    ensures valid { IfSome result IsShape }
{
    let q = q?;
    let m = m?;
    let s = s?;
    let t = t?;
    if is_order(q)
        && 1 <= m
        && m <= 10
        && has_few_runs(q, m)
        && 1 <= s
        && s <= version.most_factors(q)
        && t <= 10
        && (t == 0 || s <= MOST_FACTORS_IN_BLOCKS as u128)
    {
        Some(Shape {
            q: q as u8,
            m: m as u8,
            s: s as u8,
            t: t as u8,
        })
    } else {
        None
    }
}

fn is_order(q: u128) -> bool
    ensures { result ≡ is_order q }
{
    q == 2 || q == 3 || q == 4 || q == 5 || q == 7 || q == 8 || q == 9
}

/// Whether there are at most 1,024 runs.
fn has_few_runs(q: u128, m: u128) -> bool
    requires order { is_order q ≡ true }
    requires indexes { m ≤ 10 }
    ensures { result ≡ nat_le (q ^ m) 1024 }
{
    q.pow(m as u32) <= 1024
}

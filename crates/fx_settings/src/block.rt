ghost use Rattle.std.specs.Prelude.{◌≡◌, ℕ, ◌≤◌, ◌<◌, Some, false, IfSome};
ghost use Rattle.fx_settings.specs.Blocks.{are_most, are_too_many_blocks, block_factors_by_word, block_factors_of, blocks_by};
ghost use Rattle.fx_settings.specs.Blocks.{blocks_of, is_too_many, most_run_factors};

use crate::power::{exponent_or, greatest, is_within};
use crate::said::{BlocksSaid, BlocksWord};
use crate::settings::{Blocks, Size};

/// Whether as many blocks as can be are wanted.
pub(crate) fn are_most(said: Option<BlocksSaid>) -> bool
    ensures { result ≡ are_most said }
{
    match said {
        None => false,
        Some(said) => said.value.number.is_none(),
    }
}

/// The number of block factors of a step of this size: 0 where what BLOCKS says is no number of blocks
/// or of their runs, and none where there is no BLOCKS or where it asks for the most.
pub(crate) fn block_factors_of(q: u8, size: Size, said: Option<BlocksSaid>) -> Option<u128>
    requires { 2 ≤ q }
    ensures { result ≡ block_factors_of q size said }
{
    let m = most_run_factors(q, size);
    match said {
        None => None,
        Some(said) => said.value.number.map(|n| block_factors(q, m, said.word, n)),
    }
}

/// The most run factors that the size may have.
fn most_run_factors(q: u8, size: Size) -> u8
    requires { 2 ≤ q }
    ensures { result ≡ most_run_factors q size }
{
    match size {
        Size::Runs { m } => m,
        Size::Minimum => greatest(q),
    }
}

/// The number of block factors of `m` run factors by the number after this word.
fn block_factors(q: u8, m: u8, word: BlocksWord, n: u128) -> u128
    ensures { result ≡ block_factors_by_word q m word n }
{
    let m = u128::from(m);
    match word {
        BlocksWord::Nblkfacs => n,
        BlocksWord::Nblocks => exponent_or(0, q, n),
        BlocksWord::Size => m.saturating_sub(exponent_or(m, q, n)),
    }
}

/// Whether `t` block factors make more blocks than there are runs.
pub(crate) fn are_too_many_blocks(q: u8, size: Size, t: Option<u128>) -> bool
    requires { 2 ≤ q }
    ensures value { result ≡ are_too_many_blocks q size t }
    ensures bound { result ≡ false → IfSome t (λ t. t < 256) }
{
    match t {
        None => false,
        Some(t) => is_too_many(q, size, t),
    }
}

fn is_too_many(q: u8, size: Size, t: u128) -> bool
    requires { 2 ≤ q }
    ensures value { result ≡ is_too_many q size t }
    ensures bound { result ≡ false → t < 256 }
{
    match size {
        Size::Runs { m } => u128::from(m) < t,
        Size::Minimum => !is_within(q, t),
    }
}

/// The blocks of a step. `t` is the number of block factors, where it is given.
pub(crate) fn blocks_of(q: u8, size: Size, said: Option<BlocksSaid>, t: Option<u128>) -> Blocks
    requires levels { 2 ≤ q }
    requires few { IfSome t (λ t. t < 256) }
    ensures { result ≡ blocks_of q size said t }
{
    match (said, t) {
        (None, _) => Blocks::Without,
        (Some(_), None) => Blocks::Most,
        (Some(said), Some(t)) => blocks_by(q, size, said.word, t as u8),
    }
}

fn blocks_by(q: u8, size: Size, word: BlocksWord, t: u8) -> Blocks
    requires { 2 ≤ q }
    ensures { result ≡ blocks_by q size word t }
{
    match (size, word) {
        (Size::Minimum, BlocksWord::Size) => Blocks::PerBlock {
            k: greatest(q).saturating_sub(t),
        },
        (_, _) => Blocks::Factors { t },
    }
}

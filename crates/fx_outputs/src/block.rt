// `blockname` is `BLOCKNAME = name NVALS = ( .. )`: the word itself has index 0, the name 2, and its
// values begin at 3.

ghost use Rattle.std.specs.Prelude.{◌≡◌, ◌∷◌, ◌++◌, [], if◌then◌else◌, drop, slice_get, IfOk, IfErr, OnOk, Some};
ghost use Rattle.fx_text.specs.Refusals.{IsRefused};
ghost use Rattle.fx_outputs.specs.BlockColumns.{block_values, check_blockname, check_column, check_free, column_name, has_blocks, name_or_empty, values_wanted};

use crate::context::{BlockCount, OutputContext};
use crate::value::values_if_any;
use fx_base::{Bytes, NoMemory};
use fx_language::code;
use fx_text::{Lexeme, Names, ParseStop, Phrase, Refusal, place_of};
use std::alloc::Global;

/// Tests that BLOCKNAME is allowed in this step. `blockname` is what stands from that word on, if
/// anything.
///
/// # Errors
///
/// E31 at BLOCKNAME in a step without blocks.
pub fn check_blockname(blocks: BlockCount, blockname: &Phrase<'_>) -> Result<(), Refusal>
    ensures { result ≡ check_blockname blocks (slice_get blockname.now 0) }
{
    match blockname.at(0) {
        None => Ok(()),
        Some(word) => {
            if has_blocks(blocks) {
                return Ok(());
            }
            Err(word.refused(code::BLOCKNAME_WITHOUT_BLOCKS))
        }
    }
}

/// Tests that the name of the block column, if there is one, is no factor's.
///
/// # Errors
///
/// E5 at BLOCKNAME's name, or at the word OUTPUT where the column is called BLOCK.
pub fn check_column(
    context: &OutputContext<'_>,
    output: &Lexeme<'_>,
    blockname: &Phrase<'_>,
) -> Result<(), Refusal>
    ensures { result ≡ check_column context.now output.now (slice_get blockname.now 2) }
{
    match blockname.at(2) {
        Some(name) => check_free(context.factors, name.text(), name),
        None => {
            if has_blocks(context.blocks) {
                return check_free(context.factors, b"BLOCK", output);
            }
            Ok(())
        }
    }
}

/// BLOCKNAME's name, empty where there is none.
pub fn block_name(alloc: Global, blockname: &Phrase<'_>) -> Result<Bytes, NoMemory>
    ensures { IfOk result (λ name. name ≡ name_or_empty (slice_get blockname.now 2)) }
{
    match blockname.at(2) {
        Some(name) => Bytes::from_slice(alloc, name.text()),
        None => Ok(Bytes::new(alloc)),
    }
}

/// Adds the name of the block column, if there are blocks. The text's name for it may be empty.
pub fn push_column(
    alloc: Global,
    blocks: BlockCount,
    name: &[u8],
    names: &mut Names,
) -> Result<(), NoMemory>
    ensures { OnOk result (names.new ≡ names.old ++ (if has_blocks blocks
        then column_name name.now ∷ [] else [])) }
{
    if !has_blocks(blocks) {
        return Ok(());
    }
    names.push(column_name(alloc, name)?)
}

/// The name of the block column, where the text's name for it may be empty.
fn column_name(alloc: Global, name: &[u8]) -> Result<Bytes, NoMemory>
    ensures { IfOk result (λ column. column ≡ column_name name.now) }
{
    if name.is_empty() {
        return Bytes::from_slice(alloc, b"BLOCK");
    }
    Bytes::from_slice(alloc, name)
}

/// The values of the block column, if BLOCKNAME has any.
///
/// # Errors
///
/// E17 at NVALS or CVALS, where there are not as many as blocks, or the number of blocks is not
/// known; `NoMemory`.
pub fn block_values(
    alloc: Global,
    blocks: BlockCount,
    blockname: &Phrase<'_>,
) -> Result<Names, ParseStop>
    ensures ok { IfOk result (λ values. block_values blocks (drop 3 blockname.now) ≡ Ok values) }
    ensures refused { IfErr result (IsRefused (block_values blocks (drop 3 blockname.now))) }
{
    values_if_any(alloc, values_wanted(blocks), &blockname.from(3))
}

/// Tests that no factor has this name.
///
/// # Errors
///
/// E5 at this place: a factor has it.
fn check_free(factors: &[Bytes], name: &[u8], at: &Lexeme<'_>) -> Result<(), Refusal>
    ensures { result ≡ check_free factors.now name.now at.now }
{
    if place_of(name, factors).is_some() {
        return Err(at.refused(code::REPEATED_NAME));
    }
    Ok(())
}

fn has_blocks(blocks: BlockCount) -> bool
    ensures { result ≡ has_blocks blocks }
{
    match blocks {
        BlockCount::Without => false,
        BlockCount::Fixed(_) => true,
        BlockCount::Open => true,
    }
}

/// How many values the block column may have in the place of its numbers.
fn values_wanted(blocks: BlockCount) -> Option<u32>
    ensures { result ≡ values_wanted blocks }
{
    match blocks {
        BlockCount::Without => None,
        BlockCount::Fixed(count) => Some(count),
        BlockCount::Open => None,
    }
}

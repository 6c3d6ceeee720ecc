ghost use Rattle.std.specs.Prelude.{◌≡◌, ◌<◌, ◌≤◌, ◌+◌, ◌^◌, IfOk, IfSome, All, length};
ghost use Rattle.fx_table_book.specs.Tables.{IsBase, IsSmall};
ghost use Rattle.fx_table_check.specs.Goals.{IsGoal};
ghost use Rattle.fx_table_lines.specs.Walks.{AreMade, HasRoom, IsWalked};

use crate::image::earlier_image;
use arrayvec::ArrayVec;
use fx_base::{Items, NoMemory};
use fx_table_book::{Base, Entry};
use fx_table_check::{Goal, Prefix};
use fx_vectors::MOST_FACTORS;
use std::alloc::Global;

/// How many turns the search for images may take at first.
const FIRST_TURNS: u32 = 1_000_000;

/// How many more it may take with each entry, so that the time is bounded by the number of entries.
const TURNS: u32 = 16_384;

/// How many times as many entries all walks of a line may make as its book may have.
const WALKS: u32 = 4;

/// The rows of a design.
pub(crate) type Rows = ArrayVec<u16, MOST_FACTORS>;

/// The best design so far, if there is one, and what the others are compared with: its key.
#[derive(Drop)]
pub(crate) struct Best {
    pub(crate) rows: Option<Rows>,
    pub(crate) goal: Goal,
}

/// How a walk through the prefixes of canonical designs ends.
#[derive(Drop)]
enum Walked {
    /// All prefixes have their entries: no design is better than the best.
    Whole { entries: Items<Entry> },
    /// A better design is found, after so many entries.
    Better { entries: u32 },
    /// There are more entries than the walk may make.
    Open,
}

/// The entries of a book: of a walk that begins with the best design that there is. So the walk begins again with each
/// better one that it finds. None where there are more than `most`.
///
/// # Errors
///
/// `NoMemory`.
pub(crate) fn make_entries(
    alloc: Global,
    base: Base,
    best: &mut Best,
    most: u32,
) -> Result<Option<Items<Entry>>, NoMemory>
    requires base { IsBase base }
    requires goal { IsGoal (base.w + base.n) best.old.goal }
    requires few { most ≤ 5000000 }
    ensures entries { IfOk result (λ made. IfSome made (AreMade base most)) }
{
    let mut left = most * WALKS;
    for _walk in 0..most * WALKS + 1 {
        match walk(alloc, base, best, most.min(left))? {
            Walked::Whole { entries } => return Ok(Some(entries)),
            Walked::Better { entries } => left = left.saturating_sub(entries),
            Walked::Open => return Ok(None),
        }
    }
    Ok(None)
}

/// A walk through the prefixes, the greatest row first. A prefix is left out where its key or its floor is not less
/// than the best, where it has no room, or where an image is before it. At most `most` entries are made.
fn walk(alloc: Global, base: Base, best: &mut Best, most: u32) -> Result<Walked, NoMemory>
    requires base { IsBase base }
    requires goal { IsGoal (base.w + base.n) best.old.goal }
    requires few { most ≤ 5000000 }
    ensures goal { IfOk result (λ walked. IsGoal (base.w + base.n) best.new.goal) }
    ensures walked { IfOk result (IsWalked base most) }
{
    let mut prefix = Prefix::new(alloc, base)?;
    let mut entries = Items::new(alloc);
    let mut turns = FIRST_TURNS;
    let mut below = base.shape().runs();
    for made in 0..most + 1 {
        let row = match prefix.next_turn(below) {
            Some(row) => row,
            None => return Ok(Walked::Whole { entries }),
        };
        if made == most {
            return Ok(Walked::Open);
        }
        if improves(alloc, &mut prefix, best, row)? {
            return Ok(Walked::Better { entries: made + 1 });
        }
        turns = turns.saturating_add(TURNS);
        let entry = entry_of(&mut prefix, &best.goal, row, &mut turns);
        below = follow(&mut prefix, row, &entry);
        entries.push(entry)?;
    }
    Ok(Walked::Open)
}

/// Takes the design that the prefix is with this row, if it is whole and better than the best, and tells whether.
fn improves(alloc: Global, prefix: &mut Prefix, best: &mut Best, row: u16) -> Result<bool, NoMemory>
    requires room { length prefix.old.rows < prefix.old.base.w + prefix.old.base.n }
    requires below { row < prefix.old.base.q ^ prefix.old.base.m }
    requires goal { IsGoal (prefix.old.base.w + prefix.old.base.n) best.old.goal }
    ensures goal { IfOk result (λ better. IsGoal (prefix.old.base.w + prefix.old.base.n) best.new.goal) }
    ensures same { prefix.new ≡ prefix.old }
{
    let base = prefix.base();
    if prefix.len() + 1 < usize::from(base.w + base.n) || prefix.does_not_beat(row, &best.goal) {
        return Ok(false);
    }
    best.goal.beat_with(alloc, prefix, row)?;
    let mut rows = prefix.all_rows();
    let _ = rows.try_push(row);
    best.rows = Some(rows);
    Ok(true)
}

/// The entry of the prefix with this row: it is left out if it can be.
fn entry_of(prefix: &mut Prefix, goal: &Goal, row: u16, turns: &mut u32) -> Entry
    requires room { length prefix.old.rows < prefix.old.base.w + prefix.old.base.n }
    requires below { row < prefix.old.base.q ^ prefix.old.base.m }
    requires goal { IsGoal (prefix.old.base.w + prefix.old.base.n) goal.now }
    ensures entry { IsSmall prefix.old.base result }
    ensures part { HasRoom prefix.old result }
    ensures same { prefix.new ≡ prefix.old }
{
    let base = prefix.base();
    let is_whole = prefix.len() + 1 >= usize::from(base.w + base.n);
    if is_whole || prefix.does_not_beat(row, goal) {
        return Entry::Worse { row };
    }
    if has_no_room(prefix, row) {
        return Entry::NoRoom { row };
    }
    if prefix.cannot_beat(row, goal) {
        return Entry::Floor { row };
    }
    prefix.push(row);
    let change = earlier_image(prefix, turns);
    prefix.pop();
    match change {
        None => Entry::Branch { row },
        Some(change) => Entry::Image { row, change },
    }
}

/// Whether too few rows can follow the prefix with this row.
fn has_no_room(prefix: &mut Prefix, row: u16) -> bool
    requires room { length prefix.old.rows < prefix.old.base.w + prefix.old.base.n }
    requires below { row < prefix.old.base.q ^ prefix.old.base.m }
    ensures { prefix.new ≡ prefix.old }
{
    prefix.push(row);
    let none = prefix.has_no_room();
    prefix.pop();
    none
}

/// Adds the row where the entry is a branch, and returns what the rows that have their turn next are below.
fn follow(prefix: &mut Prefix, row: u16, entry: &Entry) -> u16
    requires below { row < prefix.old.base.q ^ prefix.old.base.m }
    requires room { length prefix.old.rows < prefix.old.base.w + prefix.old.base.n }
    requires part { HasRoom prefix.old entry.now }
    ensures base { prefix.new.base ≡ prefix.old.base }
    ensures room { length prefix.new.rows < prefix.old.base.w + prefix.old.base.n }
    ensures below { result ≤ prefix.old.base.q ^ prefix.old.base.m }
{
    match entry {
        Entry::Branch { row: _ } => {
            prefix.push(row);
            prefix.base().shape().runs()
        }
        Entry::Worse { row: _ } => row,
        Entry::Image { row: _, change: _ } => row,
        Entry::NoRoom { row: _ } => row,
        Entry::Floor { row: _ } => row,
    }
}

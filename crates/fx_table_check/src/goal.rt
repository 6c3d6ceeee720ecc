ghost use Rattle.std.specs.Prelude.{◌≡◌, ◌+◌, ◌<◌, ◌*◌, ◌-◌, ◌^◌, All, IfOk, length};
ghost use Rattle.fx_table_book.specs.Tables.{IsBase, IsBook, claim_of, multiplied};
ghost use Rattle.fx_table_check.specs.Goals.{IsGoal, claim_in, needs_none_of};

use crate::prefix::Prefix;
use fx_base::{Items, NoMemory};
use fx_table_book::{Base, Order, Part, TableBook, parts};
use fx_vectors::Pattern;
use std::alloc::Global;

/// What designs are compared with.
#[derive(Drop)]
pub struct Goal {
    /// The entries of the order.
    pub(crate) parts: Items<Part>,
    /// The key to beat, where a word and its multiples count each.
    pub(crate) beat: Option<Pattern>,
    /// Whether what beats it has no constant words of three factors.
    pub(crate) none: bool,
}

impl Goal {
    /// What a book compares with.
    ///
    /// # Errors
    ///
    /// `NoMemory`.
    pub(crate) fn of(alloc: Global, book: &TableBook) -> Result<Goal, NoMemory>
        requires { IsBook book.now }
        ensures claim { IfOk result (λ goal. claim_in book.now.base goal ≡ claim_of book.now) }
        ensures valid { IfOk result (λ goal. IsGoal (book.now.base.w + book.now.base.n) goal) }
    {
        let parts = parts(alloc, book.base, book.order)?;
        let beat = match &book.key {
            None => None,
            Some(key) => Some(multiplied(alloc, book.base.q, key.as_slice())?),
        };
        let none = needs_none(parts.as_slice(), &beat);
        Ok(Goal { parts, beat, none })
    }
}

impl Goal {
    /// The goal where there is no key to beat.
    ///
    /// # Errors
    ///
    /// `NoMemory`.
    pub fn without_key(alloc: Global, base: Base, order: Order) -> Result<Goal, NoMemory>
        requires { IsBase base }
        ensures { IfOk result (IsGoal (base.w + base.n)) }
    {
        Ok(Goal {
            parts: parts(alloc, base, order)?,
            beat: None,
            none: false,
        })
    }

    /// Takes the key of a prefix with a row as the one to beat.
    ///
    /// # Errors
    ///
    /// `NoMemory`. The goal is then what it was.
    pub fn beat_with(
        &mut self,
        alloc: Global,
        prefix: &mut Prefix,
        row: u16,
    ) -> Result<(), NoMemory>
        requires goal { IsGoal (prefix.old.base.w + prefix.old.base.n) self.old }
        requires room { length prefix.old.rows < prefix.old.base.w + prefix.old.base.n }
        requires below { row < prefix.old.base.q ^ prefix.old.base.m }
        ensures goal { IsGoal (prefix.old.base.w + prefix.old.base.n) self.new }
        ensures same { prefix.new ≡ prefix.old }
    {
        let mut beat = Pattern::new(alloc);
        for part in self.parts.as_slice() {
            beat.push(prefix.value_with(row, *part))?;
        }
        let beat = Some(beat);
        self.none = needs_none(self.parts.as_slice(), &beat);
        self.beat = beat;
        Ok(())
    }
}

/// A key, where a word and its multiples count each.
fn multiplied(alloc: Global, q: u8, key: &[u128]) -> Result<Pattern, NoMemory>
    requires some { 0 < q }
    requires small { All (λ a. (q - 1) * a < 2 ^ 127) key.now }
    ensures { IfOk result (λ beat. beat ≡ multiplied q key.now) }
{
    let mut beat = Pattern::new(alloc);
    for a in key {
        beat.push(u128::from(q - 1) * *a)?;
    }
    Ok(beat)
}

/// Whether what has a less key has no constant words of three factors: these come first, and the key has none.
fn needs_none(parts: &[Part], beat: &Option<Pattern>) -> bool
    ensures { result ≡ needs_none_of parts.now beat.now }
{
    match beat {
        None => false,
        Some(beat) => is_none(parts, beat.as_slice()),
    }
}

/// The same where there is a key to beat.
fn is_none(parts: &[Part], key: &[u128]) -> bool
    ensures { result ≡ needs_none_of parts.now (Some key.now) }
{
    if parts.is_empty() || key.is_empty() {
        return false;
    }
    match parts[0] {
        Part::Constant { weight } => weight == 3 && key[0] == 0,
        Part::Confounded { weight: _ } => false,
        Part::Unclear => false,
    }
}

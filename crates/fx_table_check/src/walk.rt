ghost use Rattle.std.specs.Prelude.{◌≡◌, ◌<◌, ◌≤◌, ◌+◌, ◌^◌, ◌++◌, [], ◌∷◌, length, true, None, IfSome, IfOk, All};
ghost use Rattle.fx_strata.specs.Books.{turns_after};
ghost use Rattle.fx_strata.specs.Laws.{NoneBetter};
ghost use Rattle.fx_strata.specs.Stages.{has_units};
ghost use Rattle.fx_table_book.specs.Tables.{strata_of, IsBook, IsSmall, claim_of, entry_of, entries_of};
ghost use Rattle.fx_table_check.specs.declared.reason.Verdict.TheVariants.{Accepted};
ghost use Rattle.fx_table_check.specs.Goals.{IsGoal, claim_in};
ghost use Rattle.fx_table_check.specs.Checking.{reason_of, flaw, flaw_of, verdict_of, pending, IsNext, IsGreatest};

use crate::goal::Goal;
use crate::prefix::Prefix;
use crate::reason::{Reason, Verdict};
use fx_base::{Items, NoMemory};
use fx_table_book::{Entry, TableBook};
use std::alloc::Global;

/// Whether a book is good, or the place of its first false entry and why that is false. What a book that is accepted
/// claims is so, of every design in blocks or split plot of its dimensions.
///
/// # Errors
///
/// `NoMemory`.
pub fn check_table(alloc: Global, book: &TableBook) -> Result<Verdict, NoMemory>
    requires { IsBook book.now }
    ensures verdict { IfOk result (λ verdict.
        verdict ≡ verdict_of (flaw_of (claim_of book.now) (entries_of book.now.entries))) }
    ensures proved { IfOk result (λ verdict. verdict ≡ Accepted → NoneBetter (claim_of book.now)) }
{
    let goal = Goal::of(alloc, book)?;
    let mut prefix = Prefix::new(alloc, book.base)?;
    Ok(prefix.walk(&goal, &book.entries))
}

impl Prefix {
    /// Takes the entries one after another, from a prefix without rows on, up to the first that is false.
    fn walk(&mut self, goal: &Goal, entries: &Items<Entry>) -> Verdict
        requires start { self.old.rows ≡ [] }
        requires goal { IsGoal (self.old.base.w + self.old.base.n) goal.now }
        requires entries { All (IsSmall self.old.base) entries.now }
        ensures { result ≡ verdict_of (flaw_of (claim_in self.old.base goal.now) (entries_of entries.now)) }
    {
        let base = self.base();
        let mut below = base.power(base.m);
        for place in 0..entries.len() {
            let row = match self.next_turn(below) {
                Some(row) => row,
                None => {
                    return Verdict::Rejected {
                        place,
                        reason: Reason::NoTurn,
                    };
                }
            };
            let entry = entries.get(place);
            if let Some(reason) = self.flaw(goal, row, entry) {
                return Verdict::Rejected { place, reason };
            }
            below = self.go_on(goal, row, entry);
        }
        match self.next_turn(below) {
            None => Verdict::Accepted,
            Some(_) => Verdict::Rejected {
                place: entries.len(),
                reason: Reason::Ended,
            },
        }
    }

    /// The greatest row below a bound that may come next.
    pub fn next_row(&self, below: u16) -> Option<u16>
        requires below { below ≤ self.now.base.q ^ self.now.base.m }
        requires room { length self.now.rows < self.now.base.w + self.now.base.n }
        ensures next { IsGreatest (strata_of self.now.base) self.now.rows below result }
        ensures below { IfSome result (λ row. row < below) }
    {
        if self.has_units() {
            return self.next_later(below);
        }
        let unit = self.next_unit();
        if unit < below { Some(unit) } else { None }
    }

    /// The same where the unit vectors of the stage are there.
    fn next_later(&self, below: u16) -> Option<u16>
        requires units { has_units (strata_of self.now.base) self.now.rows ≡ true }
        requires below { below ≤ self.now.base.q ^ self.now.base.m }
        ensures next { IsGreatest (strata_of self.now.base) self.now.rows below result }
        ensures below { IfSome result (λ row. row < below) }
    {
        let least = self.least_row();
        for row in (0..below.min(self.bound())).rev() {
            if self.is_later(least, row) {
                return Some(row);
            }
        }
        None
    }

    /// Goes on to the prefix whose turn it is, once of this prefix the children from a bound on are done: the rows are
    /// then its rows without the last, which is returned.
    pub fn next_turn(&mut self, below: u16) -> Option<u16>
        requires below { below ≤ self.old.base.q ^ self.old.base.m }
        requires room { length self.old.rows < self.old.base.w + self.old.base.n }
        ensures next { IsNext (strata_of self.old.base) (pending (strata_of self.old.base) self.old.rows below)
            self.new.rows result }
        ensures below { IfSome result (λ row. row < self.old.base.q ^ self.old.base.m) }
        ensures base { self.new.base ≡ self.old.base }
        ensures room { length self.new.rows < self.old.base.w + self.old.base.n }
    {
        let mut below = below;
        for k in (0..self.len() + 1).rev() {
            if let Some(row) = self.next_row(below) {
                return Some(row);
            }
            if k == 0 {
                return None;
            }
            below = self.row(k - 1);
            self.pop();
        }
        None
    }

    /// What is wrong with an entry where the prefix with this row added has its turn, if anything is.
    fn flaw(&mut self, goal: &Goal, row: u16, entry: &Entry) -> Option<Reason>
        requires goal { IsGoal (self.old.base.w + self.old.base.n) goal.now }
        requires room { length self.old.rows < self.old.base.w + self.old.base.n }
        requires below { row < self.old.base.q ^ self.old.base.m }
        requires entry { IsSmall self.old.base entry.now }
        ensures flaw { result
            ≡ flaw (claim_in self.old.base goal.now) (self.old.rows ++ row ∷ []) (entry_of entry.now) }
        ensures same { self.new ≡ self.old }
    {
        match entry {
            Entry::Branch { row: own } => {
                let base = self.base();
                let part = self.len() + 1 < usize::from(base.w) + usize::from(base.n);
                reason_of(*own, row, part, Reason::Whole)
            }
            Entry::Worse { row: own } => {
                let worse = self.does_not_beat(row, goal);
                reason_of(*own, row, worse, Reason::LowKey)
            }
            Entry::Image { row: own, change } => {
                self.push(row);
                let earlier = self.has_earlier_image(change.as_slice());
                self.pop();
                reason_of(*own, row, earlier, Reason::NoEarlierImage)
            }
            Entry::NoRoom { row: own } => {
                self.push(row);
                let none = self.has_no_room();
                self.pop();
                reason_of(*own, row, none, Reason::HasRoom)
            }
            Entry::Floor { row: own } => {
                let high = self.cannot_beat(row, goal);
                reason_of(*own, row, high, Reason::LowFloor)
            }
        }
    }

    /// Adds the row where the entry is a branch, and returns what the children that have their turn next are below.
    fn go_on(&mut self, goal: &Goal, row: u16, entry: &Entry) -> u16
        requires room { length self.old.rows < self.old.base.w + self.old.base.n }
        requires below { row < self.old.base.q ^ self.old.base.m }
        requires right { flaw (claim_in self.old.base goal.now) (self.old.rows ++ row ∷ []) (entry_of entry.now)
            ≡ None }
        ensures turns { let x = claim_in self.old.base goal.now in
            turns_after x (self.old.rows ++ row ∷ []) (entry_of entry.now) (pending x.strata self.old.rows row)
            ≡ pending x.strata self.new.rows result }
        ensures base { self.new.base ≡ self.old.base }
        ensures room { length self.new.rows < self.old.base.w + self.old.base.n }
        ensures below { result ≤ self.old.base.q ^ self.old.base.m }
    {
        match entry {
            Entry::Branch { row: _ } => {
                self.push(row);
                let base = self.base();
                base.power(base.m)
            }
            Entry::Worse { row: _ } => row,
            Entry::Image { row: _, change: _ } => row,
            Entry::NoRoom { row: _ } => row,
            Entry::Floor { row: _ } => row,
        }
    }
}

/// The reason, where the row of an entry is that of the prefix, unless something holds.
fn reason_of(own: u16, row: u16, holds: bool, reason: Reason) -> Option<Reason>
    ensures { result ≡ reason_of own row holds reason }
{
    if own != row {
        return Some(Reason::OtherRow);
    }
    if holds { None } else { Some(reason) }
}

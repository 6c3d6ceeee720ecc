ghost use Rattle.std.specs.Prelude.{◌≡◌, ◌+◌, ◌-◌, ◌*◌, ◌^◌, ◌<◌, ◌≤◌, ◌≢◌, [], ℕ, IfOk};
ghost use Rattle.std.specs.Prelude.{length, slice_index, slice_index_or, ◌==◌, if◌then◌else◌};
ghost use Rattle.std.specs.Prelude.{replicate};
ghost use Rattle.std.specs.Bool.{OnTrue, OnFalse};
ghost use Rattle.fx_demands.specs.declared.forbidden_list.ForbiddenVector.{ForbiddenVector};
ghost use Rattle.fx_demands.specs.EffectVectors.{IsInOrder};
ghost use Rattle.fx_barred.specs.Places.{StandFor, IsKnown, IsAdded, IsRange, AreLists, place_at, place_count};
ghost use Rattle.fx_barred.specs.Keeping.{AreAlikeBefore, AreKept, IsAddedBefore, IsKept, IsStoodByOne, StandBefore};
ghost use Rattle.fx_barred.specs.declared.kept.Kept.{Kept};
ghost use Rattle.fx_barred.specs.FirstWords.{AreWords, AreFirst, sum_to, vector_at};
ghost use Rattle.fx_vectors.specs.declared.shape.TheConstants.{MOST_FACTORS};

use crate::kept::{Kept, same_from};
use crate::reached::{Reached, filled};
use fx_base::{NoMemory, Values};
use fx_demands::ForbiddenVector;
use fx_vectors::{MOST_FACTORS, Vector};
use std::alloc::Global;

/// How many lists of places there are for each number of rows. The first is always empty.
pub(crate) const LISTS: usize = 4;

/// At most so many places are kept for other first rows, and they are found only where so many of the last rows have
/// stayed.
const MOST_KEPT: usize = 512;

const FEWEST_STAYED: usize = 4;

/// In how many slots places are looked up.
const SLOTS: usize = 4096;

/// Of how many vectors lists of places are made, and of how many times the points. Fewer are looked at one by one.
const MANY: usize = 1024;

/// The rows so far, and the forbidden vectors, of which those with their last factor right after these rows stand
/// from `start` to before `end`.
#[derive(Drop)]
struct NextVectors<'a> {
    alloc: Global,
    reached: &'a Reached,
    words: &'a [ForbiddenVector],
    start: usize,
    end: usize,
    ghost room: { length reached.now.rows < reached.now.room },
    ghost range: { IsRange words.now (length reached.now.rows) start end },
}

/// Fills the table for the rows so far, and makes lists of places where it is worth it.
pub(crate) fn fill_with(
    alloc: Global,
    reached: &Reached,
    words: &[ForbiddenVector],
    tables: &mut [usize],
    lists: &mut [Values<usize>],
    kept: &mut [Kept],
)
    requires room { length reached.now.rows < reached.now.room }
    requires words { AreWords reached.now.q reached.now.room words.now }
    requires tables { length tables.old ≡ reached.now.room * reached.now.q ^ reached.now.m }
    requires lists { AreLists reached.now words.now lists.old }
    requires known { AreKept reached.now.q reached.now.m reached.now.room words.now kept.old }
    ensures len { length tables.new ≡ length tables.old }
    ensures kept { (k : ℕ) → k < length reached.now.rows * reached.now.q ^ reached.now.m
        → slice_index tables.new k ≡ slice_index tables.old k }
    ensures first { let i = length reached.now.rows in
        AreFirst reached.now.q reached.now.m reached.now.rows words.now i (length words.now)
        (i * reached.now.q ^ reached.now.m) tables.new }
    ensures lists { AreLists reached.now words.now lists.new }
    ensures known { AreKept reached.now.q reached.now.m reached.now.room words.now kept.new }
{
    // There are at most `MOST_FACTORS` rows.
    let _room = reached.room();
    let n = reached.len();
    let next = NextVectors {
        alloc,
        reached,
        words,
        start: start_of(words, n + 1),
        end: start_of(words, n + 2),
    };
    if next.fill_kept(tables, &kept[n]) {
        return;
    }
    if next.fill_table(tables, lists) {
        kept[n] = next.renewed(&kept[n]);
    }
}

impl NextVectors<'_> {
    /// Fills the table for the rows so far with the places that were kept, where only first rows are others. Whether
    /// it did.
    fn fill_kept(&self, tables: &mut [usize], kept: &Kept) -> bool
        requires words { AreWords self.now.reached.now.q self.now.reached.now.room self.now.words.now }
        requires tables { let r = self.now.reached.now in length tables.old ≡ r.room * r.q ^ r.m }
        requires known { let r = self.now.reached.now in IsKept r.q r.m self.now.words.now (length r.rows) kept.now }
        ensures len { length tables.new ≡ length tables.old }
        ensures kept { let r = self.now.reached.now in
            (k : ℕ) → k < length r.rows * r.q ^ r.m → slice_index tables.new k ≡ slice_index tables.old k }
        ensures full { let r = self.now.reached.now in let i = length r.rows in
            OnTrue result (AreFirst r.q r.m r.rows self.now.words.now i (length self.now.words.now) (i * r.q ^ r.m) tables.new) }
    {
        if kept.list.len() == 0 {
            return false;
        }
        if same_from(self.reached.rows(), kept.rows.as_slice()) > kept.depth {
            return false;
        }
        // Its order, once read, is known to be one of the seven.
        let _known = self.reached.q();
        let count = self.count(&kept.list);
        let _ = self.fill(tables, &kept.list, count);
        true
    }

    /// The places to be kept after these, where the rows that have stayed are enough.
    fn renewed(&self, old: &Kept) -> Kept
        requires words { AreWords self.now.reached.now.q self.now.reached.now.room self.now.words.now }
        ensures { let r = self.now.reached.now in IsKept r.q r.m self.now.words.now (length r.rows) result }
    {
        let rows = self.reached.rows();
        let depth = same_from(rows, old.rows.as_slice());
        let Ok(rows) = Values::from_slice(self.alloc, rows) else {
            return Kept::none(self.alloc);
        };
        let list = self.places_before(depth);
        Kept { rows, depth, list }
    }

    /// Of the vectors those that stand for all, whatever the first `depth` rows are: each other one comes after one of
    /// these with the same codes on those rows and the same sum. None where they would be too many, or the rows after
    /// those too few.
    fn places_before(&self, depth: usize) -> Values<usize>
        requires words { AreWords self.now.reached.now.q self.now.reached.now.room self.now.words.now }
        requires depth { depth ≤ length self.now.reached.now.rows }
        ensures { let r = self.now.reached.now in 0 < length result
            → StandBefore r.q r.m r.rows self.now.words.now (length r.rows) depth (slice_index result) (length result) }
    {
        let mut list = Values::new(self.alloc);
        if self.reached.len() - depth < FEWEST_STAYED {
            return list;
        }
        let Ok(slots) = filled(self.alloc, 0usize, SLOTS) else {
            return list;
        };
        let mut slots = slots;
        for k in self.start..self.end {
            if list.len() >= MOST_KEPT {
                return Values::new(self.alloc);
            }
            if !self.add_before(slots.as_mut_slice(), k, depth, &mut list) {
                return Values::new(self.alloc);
            }
        }
        list
    }

    /// Adds place `k`, unless the vector of the place whose number is in its slot stands for it, and puts its number
    /// there. Tells whether there was memory for it.
    fn add_before(
        &self,
        slots: &mut [usize],
        k: usize,
        depth: usize,
        list: &mut Values<usize>,
    ) -> bool
        requires words { AreWords self.now.reached.now.q self.now.reached.now.room self.now.words.now }
        requires slots { length slots.old ≡ 4096 }
        requires there { k < length self.now.words.now }
        requires depth { depth ≤ length self.now.reached.now.rows }
        requires places { (x : ℕ) → x < length list.old → slice_index list.old x < length self.now.words.now }
        ensures len { length slots.new ≡ length slots.old }
        ensures added { let r = self.now.reached.now in
            OnTrue result (IsAddedBefore r.q r.m r.rows self.now.words.now (length r.rows) depth k list.old list.new) }
    {
        let vector = &self.words[k].vector;
        let sum = self.reached.sum(vector);
        let slot = slot_of(vector, depth, sum);
        if self.is_stood_for(list, slots[slot], k, sum, depth) {
            return true;
        }
        slots[slot] = list.len();
        if list.push(k).is_err() {
            return false;
        }
        true
    }

    /// Whether the list has a place of this number, and the vector there stands for that one at place `k`, which has
    /// this sum.
    fn is_stood_for(
        &self,
        list: &Values<usize>,
        known: usize,
        k: usize,
        sum: u16,
        depth: usize,
    ) -> bool
        requires words { AreWords self.now.reached.now.q self.now.reached.now.room self.now.words.now }
        requires places { (x : ℕ) → x < length list.now → slice_index list.now x < length self.now.words.now }
        requires there { k < length self.now.words.now }
        requires depth { depth ≤ length self.now.reached.now.rows }
        requires sum { let r = self.now.reached.now in
            sum ≡ sum_to r.q r.m r.rows (vector_at self.now.words.now k) (length r.rows) }
        ensures { let r = self.now.reached.now in
            OnTrue result (IsStoodByOne r.q r.m r.rows self.now.words.now (length r.rows) depth list.now k) }
    {
        if known >= list.len() {
            return false;
        }
        self.is_alike(list.get(known), k, sum, depth)
    }

    /// Whether the vectors at places `p` and `k`, of which the second has this sum, have the same codes on the first
    /// `depth` rows and the same sum.
    fn is_alike(&self, p: usize, k: usize, sum: u16, depth: usize) -> bool
        requires words { AreWords self.now.reached.now.q self.now.reached.now.room self.now.words.now }
        requires first { p < length self.now.words.now }
        requires second { k < length self.now.words.now }
        requires depth { depth ≤ length self.now.reached.now.rows }
        requires sum { let r = self.now.reached.now in
            sum ≡ sum_to r.q r.m r.rows (vector_at self.now.words.now k) (length r.rows) }
        ensures { let r = self.now.reached.now in
            OnTrue result (AreAlikeBefore r.q r.m r.rows self.now.words.now (length r.rows) depth p k) }
    {
        let vector = &self.words[p].vector;
        if !agree(vector, &self.words[k].vector, 0, depth) {
            return false;
        }
        self.reached.sum(vector) == sum
    }

    /// Fills the table for the rows so far. Whether it took long.
    fn fill_table(&self, tables: &mut [usize], lists: &mut [Values<usize>]) -> bool
        requires words { AreWords self.now.reached.now.q self.now.reached.now.room self.now.words.now }
        requires tables { let r = self.now.reached.now in length tables.old ≡ r.room * r.q ^ r.m }
        requires lists { AreLists self.now.reached.now self.now.words.now lists.old }
        ensures len { length tables.new ≡ length tables.old }
        ensures kept { let r = self.now.reached.now in
            (k : ℕ) → k < length r.rows * r.q ^ r.m → slice_index tables.new k ≡ slice_index tables.old k }
        ensures first { let r = self.now.reached.now in let i = length r.rows in
            AreFirst r.q r.m r.rows self.now.words.now i (length self.now.words.now) (i * r.q ^ r.m) tables.new }
        ensures lists { AreLists self.now.reached.now self.now.words.now lists.new }
    {
        // There are at most `MOST_FACTORS` rows.
        let _room = self.reached.room();
        let n = self.reached.len();
        let last = last_list(lists, LISTS * n);
        if last > 0 {
            self.fill_by_lists(tables, lists, last);
            return false;
        }
        // Often few vectors have all sums.
        if self.fill_soon(tables, &lists[LISTS * n]) {
            return false;
        }
        self.fill_by_lists(tables, lists, last);
        true
    }

    /// Fills the table for the rows so far, and tells whether it has all. Else the places are so many that lists of
    /// fewer are worth it.
    fn fill_soon(&self, tables: &mut [usize], list: &Values<usize>) -> bool
        requires words { AreWords self.now.reached.now.q self.now.reached.now.room self.now.words.now }
        requires tables { let r = self.now.reached.now in length tables.old ≡ r.room * r.q ^ r.m }
        requires stand { let r = self.now.reached.now in let n = length r.rows in
            StandFor r.q r.m r.rows self.now.words.now n n
            (place_at list.now self.now.start) (place_count list.now self.now.start self.now.end) }
        ensures len { length tables.new ≡ length tables.old }
        ensures kept { let r = self.now.reached.now in
            (k : ℕ) → k < length r.rows * r.q ^ r.m → slice_index tables.new k ≡ slice_index tables.old k }
        ensures full { let r = self.now.reached.now in let i = length r.rows in
            OnTrue result (AreFirst r.q r.m r.rows self.now.words.now i (length self.now.words.now) (i * r.q ^ r.m) tables.new) }
    {
        let count = self.count(list);
        if count < MANY || count < 4 * usize::from(self.reached.size()) {
            let _ = self.fill(tables, list, count);
            return true;
        }
        self.fill(tables, list, count / 16)
    }

    /// Fills the table for the rows so far with the lists of places after the last, as far as they are worth it.
    fn fill_by_lists(&self, tables: &mut [usize], lists: &mut [Values<usize>], last: usize)
        requires words { AreWords self.now.reached.now.q self.now.reached.now.room self.now.words.now }
        requires tables { let r = self.now.reached.now in length tables.old ≡ r.room * r.q ^ r.m }
        requires lists { AreLists self.now.reached.now self.now.words.now lists.old }
        requires last { last ≤ 3 }
        ensures len { length tables.new ≡ length tables.old }
        ensures kept { let r = self.now.reached.now in
            (k : ℕ) → k < length r.rows * r.q ^ r.m → slice_index tables.new k ≡ slice_index tables.old k }
        ensures first { let r = self.now.reached.now in let i = length r.rows in
            AreFirst r.q r.m r.rows self.now.words.now i (length self.now.words.now) (i * r.q ^ r.m) tables.new }
        ensures lists { AreLists self.now.reached.now self.now.words.now lists.new }
    {
        let source = self.make_lists(tables, lists, last);
        let count = self.count(&lists[source]);
        let _ = self.fill(tables, &lists[source], count);
    }

    /// Makes the lists after the last for the rows so far, as far as they are worth it. Returns the place of the last
    /// that has places, or of the first.
    fn make_lists(&self, tables: &mut [usize], lists: &mut [Values<usize>], last: usize) -> usize
        requires words { AreWords self.now.reached.now.q self.now.reached.now.room self.now.words.now }
        requires tables { let r = self.now.reached.now in length tables.old ≡ r.room * r.q ^ r.m }
        requires lists { AreLists self.now.reached.now self.now.words.now lists.old }
        requires last { last ≤ 3 }
        ensures len { length tables.new ≡ length tables.old }
        ensures kept { let r = self.now.reached.now in
            (k : ℕ) → k < length r.rows * r.q ^ r.m → slice_index tables.new k ≡ slice_index tables.old k }
        ensures lists { AreLists self.now.reached.now self.now.words.now lists.new }
        ensures least { 4 * length self.now.reached.now.rows ≤ result }
        ensures most { result ≤ 4 * length self.now.reached.now.rows + 3 }
    {
        // There are at most `MOST_FACTORS` rows.
        let _room = self.reached.room();
        let mut source = LISTS * self.reached.len() + last;
        for l in last + 1..LISTS {
            source = self.make_list(tables, lists, source, l);
        }
        source
    }

    /// Makes list `l` for the rows so far of the one at this place. Returns its place, or the same where it is not
    /// worth it.
    fn make_list(
        &self,
        tables: &mut [usize],
        lists: &mut [Values<usize>],
        source: usize,
        l: usize,
    ) -> usize
        requires words { AreWords self.now.reached.now.q self.now.reached.now.room self.now.words.now }
        requires tables { let r = self.now.reached.now in length tables.old ≡ r.room * r.q ^ r.m }
        requires lists { AreLists self.now.reached.now self.now.words.now lists.old }
        requires some { 0 < l }
        requires few { l ≤ 3 }
        requires least { 4 * length self.now.reached.now.rows ≤ source }
        requires most { source < 4 * length self.now.reached.now.rows + l }
        ensures len { length tables.new ≡ length tables.old }
        ensures kept { let r = self.now.reached.now in
            (k : ℕ) → k < length r.rows * r.q ^ r.m → slice_index tables.new k ≡ slice_index tables.old k }
        ensures lists { AreLists self.now.reached.now self.now.words.now lists.new }
        ensures least { 4 * length self.now.reached.now.rows ≤ result }
        ensures most { result ≤ 4 * length self.now.reached.now.rows + l }
    {
        // There are at most `MOST_FACTORS` rows.
        let _room = self.reached.room();
        let n = self.reached.len();
        let tail = tail(l);
        if n <= tail {
            return source;
        }
        let made = self.places(tables, &lists[source], n - tail);
        if made.is_empty() {
            return source;
        }
        lists[LISTS * n + l] = made;
        LISTS * n + l
    }

    /// How many places a list has, where an empty one has all.
    fn count(&self, list: &Values<usize>) -> usize
        ensures { result ≡ place_count list.now self.now.start self.now.end }
    {
        if list.is_empty() {
            self.end - self.start
        } else {
            list.len()
        }
    }

    /// The place at `j` of such a list.
    fn place(&self, list: &Values<usize>, j: usize) -> usize
        requires { j < place_count list.now self.now.start self.now.end }
        ensures { result ≡ place_at list.now self.now.start j }
    {
        // Here only for what is known of the count.
        let _count = self.count(list);
        if list.is_empty() {
            self.start + j
        } else {
            list.get(j)
        }
    }

    /// Fills the table for the rows so far with the vectors at the first `most` of these places, which stand for all,
    /// and tells whether it has all sums.
    fn fill(&self, tables: &mut [usize], list: &Values<usize>, most: usize) -> bool
        requires words { AreWords self.now.reached.now.q self.now.reached.now.room self.now.words.now }
        requires tables { let r = self.now.reached.now in length tables.old ≡ r.room * r.q ^ r.m }
        requires most { most ≤ place_count list.now self.now.start self.now.end }
        requires stand { let r = self.now.reached.now in let n = length r.rows in
            StandFor r.q r.m r.rows self.now.words.now n n
            (place_at list.now self.now.start) (place_count list.now self.now.start self.now.end) }
        ensures len { length tables.new ≡ length tables.old }
        ensures kept { let r = self.now.reached.now in
            (k : ℕ) → k < length r.rows * r.q ^ r.m → slice_index tables.new k ≡ slice_index tables.old k }
        ensures full { let r = self.now.reached.now in let i = length r.rows in
            OnTrue result (AreFirst r.q r.m r.rows self.now.words.now i (length self.now.words.now) (i * r.q ^ r.m) tables.new) }
        ensures all { let r = self.now.reached.now in let i = length r.rows in
            most ≡ place_count list.now self.now.start self.now.end
            → AreFirst r.q r.m r.rows self.now.words.now i (length self.now.words.now) (i * r.q ^ r.m) tables.new }
    {
        // There are at most `MOST_FACTORS` rows.
        let _room = self.reached.room();
        let n = self.reached.len();
        let size = usize::from(self.reached.size());
        let first = n * size;
        clear(tables, first, size);
        let mut known = 0;
        for j in 0..most {
            // Once each sum has its vector, later ones change nothing.
            known = first_without(tables, first, known, size);
            if known == size {
                return true;
            }
            let k = self.place(list, j);
            let sum = self.reached.sum(&self.words[k].vector);
            put_first(tables, first + usize::from(sum), k);
        }
        false
    }

    /// Of these places those that stand for all: each other one comes after one of these whose vector has the same sum
    /// over the first `depth` rows and the same codes after them. None where they would be more than a quarter. The
    /// table for these rows is used.
    fn places(&self, tables: &mut [usize], source: &Values<usize>, depth: usize) -> Values<usize>
        requires words { AreWords self.now.reached.now.q self.now.reached.now.room self.now.words.now }
        requires tables { let r = self.now.reached.now in length tables.old ≡ r.room * r.q ^ r.m }
        requires depth { depth ≤ length self.now.reached.now.rows }
        requires stand { let r = self.now.reached.now in let n = length r.rows in
            StandFor r.q r.m r.rows self.now.words.now n depth
            (place_at source.now self.now.start) (place_count source.now self.now.start self.now.end) }
        ensures len { length tables.new ≡ length tables.old }
        ensures kept { let r = self.now.reached.now in
            (k : ℕ) → k < length r.rows * r.q ^ r.m → slice_index tables.new k ≡ slice_index tables.old k }
        ensures stand { let r = self.now.reached.now in
            0 < length result
            → StandFor r.q r.m r.rows self.now.words.now (length r.rows) depth (slice_index result) (length result) }
    {
        // There are at most `MOST_FACTORS` rows.
        let _room = self.reached.room();
        let n = self.reached.len();
        let size = usize::from(self.reached.size());
        let first = n * size;
        // For each sum one more than the last place that has it, or 0.
        clear(tables, first, size);
        let mut list = Values::new(self.alloc);
        let count = self.count(source);
        if count < 64 {
            return list;
        }
        for j in 0..count {
            if list.len() >= count / 8 + j / 8 {
                return Values::new(self.alloc);
            }
            let k = self.place(source, j);
            let sum = self.reached.sum_to(depth, &self.words[k].vector);
            if !self.add_place(tables, first + usize::from(sum), k, depth, &mut list) {
                return Values::new(self.alloc);
            }
        }
        list
    }

    /// Adds place `k`, unless the vector there is like that one before the place in the table, and puts one more than
    /// it in the table. Tells whether there was memory for it.
    fn add_place(
        &self,
        tables: &mut [usize],
        place: usize,
        k: usize,
        depth: usize,
        list: &mut Values<usize>,
    ) -> bool
        requires words { AreWords self.now.reached.now.q self.now.reached.now.room self.now.words.now }
        requires place { place < length tables.old }
        requires there { k < length self.now.words.now }
        requires known { slice_index tables.old place ≤ length self.now.words.now }
        ensures len { length tables.new ≡ length tables.old }
        ensures others { (j : ℕ) → j ≢ place → slice_index tables.new j ≡ slice_index tables.old j }
        ensures added { OnTrue result (IsAdded self.now.words.now depth (length self.now.reached.now.rows) k
            (slice_index tables.old place) (slice_index tables.new place) list.old list.new) }
    {
        if !is_new(self.words, tables[place], k, depth, self.reached.len()) {
            return true;
        }
        if list.push(k).is_err() {
            return false;
        }
        tables[place] = k + 1;
        true
    }
}

/// So many empty lists.
pub(crate) fn empty_lists(alloc: Global, count: usize) -> Result<Vec<Values<usize>>, NoMemory>
    ensures { IfOk result (λ lists. lists.items ≡ replicate count []) }
{
    let mut lists = Vec::new(alloc);
    for _ in 0..count {
        if lists.push(Values::new(alloc)).is_err() {
            return Err(NoMemory);
        }
    }
    Ok(lists)
}

/// The slot of a vector with this sum, by its first `depth` codes.
fn slot_of(vector: &Vector, depth: usize, sum: u16) -> usize
    requires { depth ≤ length vector.now }
    ensures { result < 4096 }
{
    let mut slot = usize::from(sum) % SLOTS;
    for x in 0..depth {
        slot = (5 * slot + usize::from(vector.code(x))) % SLOTS;
    }
    slot
}

/// How many of the rows come after those that list `l` took into its sums.
fn tail(l: usize) -> usize
    requires { l ≤ 3 }
    ensures { result ≡ 16 - 4 * l }
{
    16 - 4 * l
}

/// Empties the lists that took the last of `n` rows into their sums.
pub(crate) fn drop_lists(alloc: Global, n: usize, lists: &mut [Values<usize>])
    requires rows { n ≤ MOST_FACTORS }
    ensures len { length lists.new ≡ length lists.old }
    ensures kept { (k : ℕ) → 0 < length (slice_index_or lists.new k [])
        → slice_index_or lists.new k [] ≡ slice_index_or lists.old k [] }
    ensures dropped { (l : ℕ) → 0 < l → l < 4
        → slice_index_or lists.new (4 * (n + (16 - 4 * l)) + l) [] ≡ [] }
{
    for l in 1..LISTS {
        drop_list(alloc, LISTS * (n + tail(l)) + l, lists);
    }
}

/// Empties the list at this place, where there is one.
fn drop_list(alloc: Global, place: usize, lists: &mut [Values<usize>])
    ensures len { length lists.new ≡ length lists.old }
    ensures others { (k : ℕ) → k ≢ place → slice_index_or lists.new k [] ≡ slice_index_or lists.old k [] }
    ensures here { slice_index_or lists.new place [] ≡ [] }
{
    if place < lists.len() {
        lists[place] = Values::new(alloc);
    }
}

/// Which of these lists is the last that is not empty, or 0.
fn last_list(lists: &[Values<usize>], first: usize) -> usize
    requires { first + 4 ≤ length lists.now }
    ensures { result ≤ 3 }
{
    for l in (1..LISTS).rev() {
        if !lists[first + l].is_empty() {
            return l;
        }
    }
    0
}

/// Whether the vector at place `k` differs, at a place from `depth` on and before `n`, from that one before place `known`,
/// or there is none.
fn is_new(words: &[ForbiddenVector], known: usize, k: usize, depth: usize, n: usize) -> bool
    requires there { k < length words.now }
    requires known { known ≤ length words.now }
    requires vectors { (x : ℕ) → x < length words.now → n ≤ length (vector_at words.now x) }
    ensures { OnFalse result (IsKnown words.now depth n known k) }
{
    if known == 0 {
        return true;
    }
    !agree(&words[known - 1].vector, &words[k].vector, depth, n)
}

/// Whether two vectors have the same codes from place `depth` on and before place `n`.
fn agree(u: &Vector, v: &Vector, depth: usize, n: usize) -> bool
    requires first { n ≤ length u.now }
    requires second { n ≤ length v.now }
    ensures { OnTrue result ((x : ℕ) → depth ≤ x → x < n → slice_index u.now x ≡ slice_index v.now x) }
{
    for x in depth..n {
        if u.code(x) != v.code(x) {
            return false;
        }
    }
    true
}

/// The first place from `from` on and before `size` that has a zero, counted from `first` on, or `size`.
fn first_without(tables: &[usize], first: usize, from: usize, size: usize) -> usize
    requires there { first + size ≤ length tables.now }
    requires from { from ≤ size }
    ensures most { result ≤ size }
    ensures known { (y : ℕ) → from ≤ y → y < result → slice_index tables.now (first + y) ≢ 0 }
{
    for y in from..size {
        if tables[first + y] == 0 {
            return y;
        }
    }
    size
}

/// Puts in zeros.
fn clear(tables: &mut [usize], first: usize, size: usize)
    requires { first + size ≤ length tables.old }
    ensures len { length tables.new ≡ length tables.old }
    ensures zeros { (y : ℕ) → y < size → slice_index tables.new (first + y) ≡ 0 }
    ensures kept { (k : ℕ) → k < first → slice_index tables.new k ≡ slice_index tables.old k }
{
    for y in 0..size {
        tables[first + y] = 0;
    }
}

/// Puts in one more than k where there is a zero.
fn put_first(tables: &mut [usize], place: usize, k: usize)
    requires there { place < length tables.old }
    requires fits { k + 1 < 2 ^ 64 }
    ensures len { length tables.new ≡ length tables.old }
    ensures others { (j : ℕ) → j ≢ place → slice_index tables.new j ≡ slice_index tables.old j }
    ensures here { slice_index tables.new place ≡ (if slice_index tables.old place == 0 then k + 1 else slice_index tables.old place) }
{
    if tables[place] == 0 {
        tables[place] = k + 1;
    }
}

/// How many vectors have their last factor before the one at this position.
fn start_of(words: &[ForbiddenVector], last: usize) -> usize
    requires order { IsInOrder words.now }
    requires last { last ≤ MOST_FACTORS + 1 }
    ensures bound { result ≤ length words.now }
    ensures before { (k : ℕ) (d : ForbiddenVector) → k < result
        → (slice_index_or words.now k d).class < 64 * last }
    ensures after { (k : ℕ) (d : ForbiddenVector) → result ≤ k → k < length words.now
        → 64 * last ≤ (slice_index_or words.now k d).class }
{
    let class = 64 * last as u16;
    words.partition_point(|word| word.class < class)
}

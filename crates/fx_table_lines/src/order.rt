ghost use Rattle.std.specs.Prelude.{◌<◌, IfSome};

use crate::basis::Basis;
use crate::points::{Comparison, Points, compared_at};
use arrayvec::ArrayVec;
use fx_points::PointSet;
use fx_table_book::MOST_INDEXES;

/// The first places of an order of the vectors of a basis at two levels: those of the base space come first, and then
/// the others. The greatest row of the image is the sum of all, and the next ones lack vectors of the first places
/// alone, so a few places settle the greatest rows.
#[derive(Drop)]
struct Order<'a> {
    points: &'a Points,
    vectors: [u16; MOST_INDEXES],
    /// How many vectors are of the base space, and how many there are in all.
    low: usize,
    all: usize,
    /// The sums of the vectors of the base space, and of all.
    low_sum: u16,
    sum: u16,
    /// The vectors of the places that are taken, by their indexes.
    places: ArrayVec<usize, MOST_INDEXES>,
    /// For each set of the places the sum of their vectors.
    sums: [u16; 1024],
    /// No index before this one is still to be tried at the next place.
    next: usize,
}

/// The indexes of the vectors of a basis in an order in which the image is before the prefix, if one is found. At each
/// place the vectors that are left are tried, until a row differs. Each costs one of the turns.
pub(crate) fn earlier_order(
    points: &Points,
    basis: &Basis,
    turns: &mut u32,
) -> Option<ArrayVec<usize, MOST_INDEXES>> {
    let mut order = Order::of(points, basis);
    match order.start() {
        Comparison::Before => return Some(order.filled()),
        Comparison::Same => {}
        Comparison::After => return None,
    }
    for _turn in 0..*turns {
        *turns = turns.saturating_sub(1);
        match order.next_index() {
            Some(index) => match order.compared_with(index) {
                Comparison::Before => {
                    order.take(index);
                    return Some(order.filled());
                }
                Comparison::Same => order.push(index),
                Comparison::After => order.next = index.saturating_add(1),
            },
            None => {
                if order.places.is_empty() {
                    return None;
                }
                order.pop();
            }
        }
    }
    None
}

impl<'a> Order<'a> {
    /// An order of which no place is taken.
    fn of(points: &'a Points, basis: &Basis) -> Order<'a> {
        let low = usize::from(points.base.h).min(MOST_INDEXES);
        let all = usize::from(points.base.m).min(MOST_INDEXES);
        Order {
            points,
            vectors: basis.vectors,
            low,
            all,
            low_sum: sum_of(&basis.vectors, low),
            sum: sum_of(&basis.vectors, all),
            places: ArrayVec::new(),
            sums: [0; 1024],
            next: 0,
        }
    }

    /// How the image compares with the prefix at its greatest row.
    fn start(&self) -> Comparison {
        let base = self.points.base;
        if base.w > 0 {
            return compared_at(&self.points.inside, self.low_sum, ones(self.low));
        }
        compared_at(&self.points.outside, self.sum, ones(self.all))
    }

    /// The next index that is to be tried at the next place, if there is one.
    fn next_index(&self) -> Option<usize>
        ensures { IfSome result (λ index. index < MOST_INDEXES) }
    {
        let (from, end) = if self.places.len() < self.low {
            (0, self.low)
        } else {
            (self.low, self.all)
        };
        for index in self.next.max(from)..end.min(MOST_INDEXES) {
            if !self.is_taken(index) {
                return Some(index);
            }
        }
        None
    }

    fn is_taken(&self, index: usize) -> bool {
        self.places.as_slice().iter().any(|taken| *taken == index)
    }

    /// How the image compares with the prefix at the rows that the next place settles, if it takes this vector.
    fn compared_with(&mut self, index: usize) -> Comparison
        requires { index < MOST_INDEXES }
    {
        let count = 1usize << self.places.len().min(9);
        self.add_sums(count, self.vectors[index]);
        let is_low = self.places.len() < self.low;
        if !is_low || self.points.base.w == 0 {
            return self.compared_outside(count, 2 * count);
        }
        let inside = compared(
            &self.points.inside,
            &self.sums,
            [self.low_sum, ones(self.low)],
            [count, 2 * count],
        );
        if inside == Comparison::Same
            && self.places.len().saturating_add(1) == self.low
            && self.points.reaches_outside
        {
            return self.compared_outside(0, 2 * count);
        }
        inside
    }

    /// The sums with a further vector, behind those without it.
    fn add_sums(&mut self, count: usize, vector: u16) {
        for i in 0..count.min(512) {
            self.sums[count.min(512) + i] = self.sums[i] ^ vector;
        }
    }

    /// The same at rows of other factors, whose sums have these places.
    fn compared_outside(&self, from: usize, end: usize) -> Comparison {
        compared(
            &self.points.outside,
            &self.sums,
            [self.sum, ones(self.all)],
            [from, end],
        )
    }

    /// Takes a vector at the next place.
    fn take(&mut self, index: usize) {
        let _ = self.places.try_push(index);
        self.next = 0;
    }

    /// The same, unless that is the last place at which something is compared.
    fn push(&mut self, index: usize) {
        let end = if self.points.reaches_outside {
            self.all
        } else {
            self.low
        };
        if self.places.len().saturating_add(1) < end {
            self.take(index);
        } else {
            self.next = index.saturating_add(1);
        }
    }

    /// Takes the last vector away, and goes on with those after it.
    fn pop(&mut self) {
        if let Some(index) = self.places.pop() {
            self.next = index.saturating_add(1);
        }
    }

    /// The whole order: the vectors that are not taken come behind those of their kind.
    fn filled(&self) -> ArrayVec<usize, MOST_INDEXES> {
        let mut places = ArrayVec::new();
        let taken = self.places.len().min(self.low);
        self.fill(&mut places, [0, taken], [0, self.low]);
        self.fill(
            &mut places,
            [taken, self.places.len()],
            [self.low, self.all],
        );
        places
    }

    /// Appends the vectors of some places, and those of some indexes that are not taken, as far as there is room.
    fn fill(
        &self,
        places: &mut ArrayVec<usize, MOST_INDEXES>,
        taken: [usize; 2],
        left: [usize; 2],
    ) {
        for place in taken[0]..taken[1].min(self.places.len()) {
            let _ = places.try_push(self.places[place]);
        }
        for index in left[0]..left[1].min(MOST_INDEXES) {
            if !self.is_taken(index) {
                let _ = places.try_push(index);
            }
        }
    }
}

/// The sum of the first vectors.
fn sum_of(vectors: &[u16; MOST_INDEXES], count: usize) -> u16 {
    let mut sum = 0;
    for i in 0..count.min(MOST_INDEXES) {
        sum ^= vectors[i];
    }
    sum
}

/// The row with so many ones.
fn ones(count: usize) -> u16 {
    ((1u32 << count.min(MOST_INDEXES)) - 1) as u16
}

/// How the image compares with the prefix at the rows of some sums: each lacks the vectors of a sum. `all` has what all
/// vectors make, and the row of it.
fn compared(own: &PointSet, sums: &[u16; 1024], all: [u16; 2], range: [usize; 2]) -> Comparison {
    for i in range[0]..range[1].min(1024) {
        let found = compared_at(own, all[0] ^ sums[i], all[1] ^ i as u16);
        if found != Comparison::Same {
            return found;
        }
    }
    Comparison::Same
}

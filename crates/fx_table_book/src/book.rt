use crate::base::Base;
use crate::order::Order;
use arrayvec::ArrayVec;
use fx_base::Items;
use fx_vectors::Pattern;

/// The most run indexes of a shape.
pub const MOST_INDEXES: usize = 10;

/// An entry of the book of a table, with the last row of the prefix whose turn it is.
#[derive(Drop)]
pub enum Entry {
    /// The children of the prefix have their turn next.
    Branch {
        row: u16,
    },
    /// The key of the prefix is not less than what is to be beaten.
    Worse {
        row: u16,
    },
    /// A change of the run indexes gives an image that precedes the prefix. `change` has the numbers of m vectors.
    Image {
        row: u16,
        change: ArrayVec<u16, MOST_INDEXES>,
    },
    /// Fewer rows can still follow than are missing.
    NoRoom {
        row: u16,
    },
    /// The floor of the prefix is not less than what is to be beaten.
    Floor {
        row: u16,
    },
}

/// Why no design of these dimensions has a key that is less than the one to beat, or why there is no design.
#[derive(Drop)]
pub struct TableBook {
    pub base: Base,
    pub order: Order,
    /// The key to beat: for each entry of the order its words, where a word and its multiples count as one.
    pub key: Option<Pattern>,
    pub entries: Items<Entry>,
}

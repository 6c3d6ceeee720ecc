/// Why an entry of a book is false.
#[derive(Clone, Copy, PartialEq, Eq)]
pub enum Reason {
    /// No prefix has its turn.
    NoTurn,
    /// The entries end while a prefix has its turn.
    Ended,
    /// The row is not the last one of the prefix whose turn it is.
    OtherRow,
    /// A branch has all its rows.
    Whole,
    /// There is no key to beat, or that of the prefix is less.
    LowKey,
    /// The change is none that keeps the base and moves rows to the unit vectors, or the image does not precede
    /// the prefix.
    NoEarlierImage,
    /// As many rows can still follow as are missing.
    HasRoom,
    /// There is no key to beat, or the floor of the prefix is less.
    LowFloor,
}

/// The judgement of a book.
#[derive(Clone, Copy, PartialEq, Eq)]
pub enum Verdict {
    /// The book is good.
    Accepted,
    /// The place of the first false entry, counted from 0, or the number of entries where they end too early; and why.
    Rejected { place: usize, reason: Reason },
}

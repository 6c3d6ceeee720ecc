ghost use Rattle.std.specs.Prelude.{◌≡◌, ◌<◌, ◌≤◌, ◌+◌, ◌^◌, ◌++◌, ℕ, Bool, List, Ok, All, codes, length, IsTrue};
ghost use Rattle.fx_designs.specs.Galois.{is_order};
ghost use Rattle.fx_designs.specs.Problems.{Dimensions};
ghost use Rattle.fx_designs.specs.Nodes.{Mark};
ghost use Rattle.fx_vectors.specs.declared.book.Book.{Book};
ghost use Rattle.fx_vectors.specs.declared.shape.TheConstants.{MOST_FACTORS};
ghost use Rattle.fx_book.specs.declared.version.Version.{Version};
ghost use Rattle.fx_book.specs.Versions.{most_factors_in};
ghost use Rattle.fx_book.specs.Writing.{text_in, book_text};
ghost use Rattle.fx_book.specs.Heads.{book_of};
ghost use Rattle.fx_book.specs.Parts.{lines_of};
ghost use Rattle.fx_book.specs.Entries.{entries_text};
ghost use Rattle.fx_book.specs.Reading.{entries};
ghost use Rattle.fx_book.specs.Valid.{IsEntry, IsValidBook};

/// Entries that were written are read as they were.
pub fn entries_come_back()
    ensures { (version : Version) (d : Dimensions) (beaten : Bool) (marks : List Mark)
        → IsTrue (is_order d.q)
        → d.s + d.t ≤ MOST_FACTORS
        → d.q ^ d.m ≤ 1024
        → d.q ^ (d.s + d.t) < 2 ^ 127
        → All (IsEntry d beaten) marks
        → entries version d beaten 5 (lines_of (entries_text version d marks ++ codes "END\n")) ≡ Ok marks }
{}

/// A valid book is read as it was written in either version, where it has no more factors than that
/// version allows, and its text is within the limit.
pub fn books_come_back()
    ensures { (version : Version) (book : Book) → IsValidBook book → book.head.question.shape.s ≤ most_factors_in version book.head.question.shape.q
        → length (text_in version book) ≤ 268435456 → book_of (text_in version book) ≡ Ok book }
{}

/// No other text is read as a book: it is what is written of it in one of the versions.
pub fn only_books_are_read()
    ensures { (text : List ℕ) (book : Book) → book_of text ≡ Ok book → (version : Version) × (text ≡ text_in version book) }
{}

/// What is read as a book is valid.
pub fn read_books_are_valid()
    ensures { (text : List ℕ) (book : Book) → book_of text ≡ Ok book → IsValidBook book }
{}

/// What is written of the book that a text is, which is in the second version whatever that of the
/// text, is read as the same book, where it is within the limit.
pub fn rewritten_books_are_the_same()
    ensures { (text : List ℕ) (book : Book) → book_of text ≡ Ok book → length (book_text book) ≤ 268435456
        → book_of (book_text book) ≡ book_of text }
{}

ghost use Rattle.std.specs.Prelude.{◌≡◌, ◌≤◌, ◌⊎◌, ℕ, List, Ok, length};
ghost use Rattle.fx_table_book.specs.declared.book.TableBook.{TableBook};
ghost use Rattle.fx_table_book.specs.Tables.{IsBook};
ghost use Rattle.fx_table_book.specs.Texts.{IsFirst, book_of, book_text, contents, first_text};

/// A book is read as it was written, where its text is within the limit.
pub fn table_books_come_back()
    ensures { (book : TableBook) → IsBook book → length (book_text book) ≤ 33554432
        → book_of (book_text book) ≡ Ok (contents book) }
{}

/// A book without blocks is read from its text of the first version, too.
pub fn first_table_books_come_back()
    ensures { (book : TableBook) → IsBook book → IsFirst (contents book)
        → length (first_text (contents book)) ≤ 33554432
        → book_of (first_text (contents book)) ≡ Ok (contents book) }
{}

/// No other text is read as a book: it is what is written of it, or what the first version had of it.
pub fn only_table_books_are_read()
    ensures { (text : List ℕ) (book : TableBook) → book_of text ≡ Ok (contents book)
        → (text ≡ book_text book) ⊎ (IsFirst (contents book) × (text ≡ first_text (contents book))) }
{}

/// What is read as a book can be checked.
pub fn read_table_books_are_valid()
    ensures { (text : List ℕ) (book : TableBook) → book_of text ≡ Ok (contents book) → IsBook book }
{}

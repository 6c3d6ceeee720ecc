ghost use Rattle.std.specs.Prelude.{◌≡◌, ◌<◌, ◌≤◌, ◌+◌, ◌^◌, ◌++◌, length, codes, decimal, IfOk, OnOk};
ghost use Rattle.fx_table_book.specs.Tables.{IsBase};
ghost use Rattle.fx_table_lines.specs.Listing.{order_text};
ghost use Rattle.fx_program.specs.Tabulating.{book_name, groups_name, whole_name};

use crate::lister::BOOK_NAME;
use crate::words::append;
use arrayvec::ArrayVec;
use fx_table_book::{Base, Order};
use itoa::Buffer;

/// The name of the file of a book: `table-`, five numbers of at most 40 digits with signs between them, an order, and
/// `.book`.
pub(crate) fn book_name(base: Base, order: Order) -> ArrayVec<u8, BOOK_NAME>
    requires { IsBase base }
    ensures { result.items ≡ book_name base order }
{
    let mut levels = Buffer::new();
    let mut indexes = Buffer::new();
    let mut factors = Buffer::new();
    let mut file = ArrayVec::new();
    append(&mut file, b"table-");
    append(&mut file, levels.format(base.q).as_bytes());
    append(&mut file, b"-");
    append(&mut file, indexes.format(base.m).as_bytes());
    append(&mut file, b"-");
    append(&mut file, factors.format(base.n).as_bytes());
    append_groups(&mut file, base);
    append_order(&mut file, order);
    append(&mut file, b".book");
    file
}

/// Appends the groups of the runs, where there is a base.
fn append_groups(file: &mut ArrayVec<u8, BOOK_NAME>, base: Base)
    requires base { IsBase base }
    requires room { length file.old.items ≤ 150 }
    ensures text { file.new.items ≡ file.old.items ++ groups_name base }
    ensures room { length file.new.items ≤ length file.old.items + 88 }
{
    if base.h == 0 {
        return;
    }
    if base.w == 0 {
        return append_blocks(file, base);
    }
    append_whole_plots(file, base)
}

/// Appends the number of blocks.
fn append_blocks(file: &mut ArrayVec<u8, BOOK_NAME>, base: Base)
    requires base { IsBase base }
    requires room { length file.old.items ≤ 150 }
    ensures text { file.new.items ≡ file.old.items ++ (codes "-blocks-" ++ decimal (base.q ^ base.h)) }
    ensures room { length file.new.items ≤ length file.old.items + 88 }
{
    let mut blocks = Buffer::new();
    append(file, b"-blocks-");
    append(file, blocks.format(base.blocks()).as_bytes());
}

/// Appends the number of whole plots, and that of the factors inside.
fn append_whole_plots(file: &mut ArrayVec<u8, BOOK_NAME>, base: Base)
    requires base { IsBase base }
    requires room { length file.old.items ≤ 150 }
    ensures text { file.new.items ≡ file.old.items ++ whole_name base }
    ensures room { length file.new.items ≤ length file.old.items + 88 }
{
    let mut plots = Buffer::new();
    let mut inside = Buffer::new();
    append(file, b"-whole-");
    append(file, plots.format(base.blocks()).as_bytes());
    append(file, b"-");
    append(file, inside.format(base.w).as_bytes());
}

/// Appends the order, where it is not that of factors first.
fn append_order(file: &mut ArrayVec<u8, BOOK_NAME>, order: Order)
    requires { length file.old.items ≤ 240 }
    ensures text { file.new.items ≡ file.old.items ++ order_text (codes "-") order }
    ensures room { length file.new.items ≤ length file.old.items + 6 }
{
    match order {
        Order::FactorsFirst => (),
        Order::ChengWuFirst => append(file, b"-W1"),
        Order::ChengWuSecond => append(file, b"-W2"),
        Order::SitterChenFeder => append(file, b"-SCF"),
        Order::MostClear => append(file, b"-CLEAR"),
    }
}

ghost use Rattle.std.specs.Prelude.{◌≡◌, ◌^◌, ◌++◌, codes, decimal, OnOk};
ghost use Rattle.fx_table_book.specs.Tables.{IsBase};
ghost use Rattle.fx_table_lines.specs.Listing.{factors_text, groups_text, head_text, inside_text, order_text, whole_plots_text};

use fx_base::{Bytes, NoMemory, put, put_number};
use fx_table_book::{Base, Order};

/// Appends the first line of a table of such designs, whatever the number of factors outside the base.
///
/// # Errors
///
/// `NoMemory`; `out` then holds a prefix of the line after what it held.
pub fn put_head(out: &mut Bytes, base: Base, order: Order) -> Result<(), NoMemory>
    requires { IsBase base }
    ensures { OnOk result (out.new ≡ out.old ++ head_text base order) }
{
    put(out, b"table levels ")?;
    put_number(out, u128::from(base.q))?;
    put(out, b" runs ")?;
    put_number(out, u128::from(base.shape().runs()))?;
    put_groups(out, base)?;
    put_order(out, order)?;
    put(out, b"\n")?;
    Ok(())
}

/// Appends the groups of the runs, where there is a base.
fn put_groups(out: &mut Bytes, base: Base) -> Result<(), NoMemory>
    requires { IsBase base }
    ensures { OnOk result (out.new ≡ out.old ++ groups_text base) }
{
    if base.h == 0 {
        return Ok(());
    }
    if base.w == 0 {
        return put_blocks(out, base);
    }
    put_whole_plots(out, base)
}

/// Appends the number of blocks.
fn put_blocks(out: &mut Bytes, base: Base) -> Result<(), NoMemory>
    requires { IsBase base }
    ensures { OnOk result (out.new ≡ out.old ++ (codes " blocks " ++ decimal (base.q ^ base.h))) }
{
    put(out, b" blocks ")?;
    put_number(out, u128::from(base.blocks()))
}

/// Appends the number of whole plots, and that of the factors inside.
fn put_whole_plots(out: &mut Bytes, base: Base) -> Result<(), NoMemory>
    requires { IsBase base }
    ensures { OnOk result (out.new ≡ out.old ++ whole_plots_text base) }
{
    put(out, b" whole plots ")?;
    put_number(out, u128::from(base.blocks()))?;
    put(out, b" inside ")?;
    put_number(out, u128::from(base.w))?;
    Ok(())
}

/// Appends the order, where it is not that of factors first.
fn put_order(out: &mut Bytes, order: Order) -> Result<(), NoMemory>
    ensures { OnOk result (out.new ≡ out.old ++ order_text (codes " order ") order) }
{
    match order {
        Order::FactorsFirst => Ok(()),
        Order::ChengWuFirst => put(out, b" order W1"),
        Order::ChengWuSecond => put(out, b" order W2"),
        Order::SitterChenFeder => put(out, b" order SCF"),
        Order::MostClear => put(out, b" order CLEAR"),
    }
}

/// Appends the factors of a line.
pub(crate) fn put_factors(out: &mut Bytes, base: Base) -> Result<(), NoMemory>
    ensures { OnOk result (out.new ≡ out.old ++ factors_text base) }
{
    put(out, b"factors ")?;
    put_inside(out, base.w)?;
    put_number(out, u128::from(base.n))?;
    put(out, b" ")
}

/// Appends the number of factors inside the base, where there are some.
fn put_inside(out: &mut Bytes, inside: u8) -> Result<(), NoMemory>
    ensures { OnOk result (out.new ≡ out.old ++ inside_text inside) }
{
    if inside == 0 {
        return Ok(());
    }
    put_number(out, u128::from(inside))?;
    put(out, b" ")
}

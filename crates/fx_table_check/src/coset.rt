ghost use Rattle.std.specs.Prelude.{◌≡◌, ◌≤◌};
ghost use Rattle.fx_table_book.specs.Tables.{strata_of, IsBase};
ghost use Rattle.fx_table_check.specs.Counts.{coset};

use fx_table_book::Base;

/// A row modulo the base.
pub(crate) fn coset(base: Base, row: u16) -> u16
    requires { IsBase base }
    ensures coset { result ≡ coset (strata_of base) row }
    ensures low { result ≤ row }
{
    row / base.blocks() * base.blocks()
}

ghost use Rattle.std.specs.Prelude.{◌≡◌, ◌≤◌, ◌+◌, ◌++◌, [], ◌∷◌, map, false, true, All, IfOk, OnOk};
ghost use Rattle.fx_strata.specs.Designs.{Words};
ghost use Rattle.fx_strata.specs.Orders.{
  cheng_wu_first,
  cheng_wu_second,
  compared,
  factors_first,
  most_clear,
  sitter_chen_feder,
  weights,
};
ghost use Rattle.fx_table_book.specs.Tables.{IsBase, IsWeight, order_of, parts_of, strata_of};

use crate::base::Base;
use fx_base::{Items, NoMemory};
use std::alloc::Global;

/// The orders of designs, by the constant words A3, A4, .. and the confounded words B2, B3, ..
#[derive(Clone, Copy, PartialEq, Eq)]
pub enum Order {
    /// A3 A4 .., then B2 B3 ..
    FactorsFirst,
    /// A3 A4 B2 A5 A6 B3 ..
    ChengWuFirst,
    /// A3 B2 A4 A5 B3 A6 A7 ..
    ChengWuSecond,
    /// A3 B2 A4 B3 ..
    SitterChenFeder,
    /// A3, the words of two factors that are not clear, A4 A5 .., then B2 B3 ..
    MostClear,
}

/// An entry of an order.
#[derive(Clone, Copy, PartialEq, Eq)]
pub enum Part {
    /// The constant words of a weight.
    Constant { weight: u8 },
    /// The confounded words of a weight.
    Confounded { weight: u8 },
    /// The words of two factors that are not clear.
    Unclear,
}

/// The entries of an order of such designs.
///
/// # Errors
///
/// `NoMemory`.
pub fn parts(alloc: Global, base: Base, order: Order) -> Result<Items<Part>, NoMemory>
    requires { IsBase base }
    ensures parts { IfOk result (λ parts. parts_of parts ≡ order_of order (strata_of base)) }
    ensures weights { IfOk result (λ parts. All (IsWeight (base.w + base.n)) parts) }
{
    match order {
        Order::FactorsFirst => factors_first(alloc, base),
        Order::ChengWuFirst => cheng_wu_first(alloc, base),
        Order::ChengWuSecond => cheng_wu_second(alloc, base),
        Order::SitterChenFeder => sitter_chen_feder(alloc, base),
        Order::MostClear => most_clear(alloc, base),
    }
}

fn factors_first(alloc: Global, base: Base) -> Result<Items<Part>, NoMemory>
    requires { IsBase base }
    ensures { IfOk result (λ parts. parts_of parts ≡ factors_first (strata_of base)) }
{
    let mut parts = Items::new(alloc);
    put_constant(&mut parts, base, 0)?;
    put_confounded(&mut parts, base)?;
    Ok(parts)
}

fn cheng_wu_first(alloc: Global, base: Base) -> Result<Items<Part>, NoMemory>
    requires { IsBase base }
    ensures { IfOk result (λ parts. parts_of parts ≡ cheng_wu_first (strata_of base)) }
{
    let mut parts = Items::new(alloc);
    for k in 1..base.w + base.n + 1 {
        put_constant_of(&mut parts, base, 2 * k - 1)?;
        put_constant_of(&mut parts, base, 2 * k)?;
        put_confounded_of(&mut parts, base, k)?;
    }
    Ok(parts)
}

fn cheng_wu_second(alloc: Global, base: Base) -> Result<Items<Part>, NoMemory>
    requires { IsBase base }
    ensures { IfOk result (λ parts. parts_of parts ≡ cheng_wu_second (strata_of base)) }
{
    let mut parts = Items::new(alloc);
    for k in 1..base.w + base.n + 1 {
        put_constant_of(&mut parts, base, 2 * k - 2)?;
        put_constant_of(&mut parts, base, 2 * k - 1)?;
        put_confounded_of(&mut parts, base, k)?;
    }
    Ok(parts)
}

fn sitter_chen_feder(alloc: Global, base: Base) -> Result<Items<Part>, NoMemory>
    requires { IsBase base }
    ensures { IfOk result (λ parts. parts_of parts ≡ sitter_chen_feder (strata_of base)) }
{
    let mut parts = Items::new(alloc);
    for k in 1..base.w + base.n + 1 {
        put_constant_of(&mut parts, base, k + 1)?;
        put_confounded_of(&mut parts, base, k)?;
    }
    Ok(parts)
}

fn most_clear(alloc: Global, base: Base) -> Result<Items<Part>, NoMemory>
    requires { IsBase base }
    ensures { IfOk result (λ parts. parts_of parts ≡ most_clear (strata_of base)) }
{
    let mut parts = Items::new(alloc);
    put_constant_of(&mut parts, base, 3)?;
    parts.push(Part::Unclear)?;
    put_constant(&mut parts, base, 3)?;
    put_confounded(&mut parts, base)?;
    Ok(parts)
}

/// Appends the constant words of the weights `more + 1`, `more + 2`, .., as far as they are compared.
fn put_constant(parts: &mut Items<Part>, base: Base, more: u8) -> Result<(), NoMemory>
    requires base { IsBase base }
    requires few { more ≤ 3 }
    ensures { OnOk result (parts_of parts.new
        ≡ parts_of parts.old
        ++ compared (strata_of base) (map (λ k. Words false (more + k)) (weights (strata_of base)))) }
{
    for k in 1..base.w + base.n + 1 {
        put_constant_of(parts, base, more + k)?;
    }
    Ok(())
}

/// Appends the confounded words of the weights 1, 2, .., as far as they are compared.
fn put_confounded(parts: &mut Items<Part>, base: Base) -> Result<(), NoMemory>
    requires { IsBase base }
    ensures { OnOk result (parts_of parts.new
        ≡ parts_of parts.old ++ compared (strata_of base) (map (Words true) (weights (strata_of base)))) }
{
    for k in 1..base.w + base.n + 1 {
        put_confounded_of(parts, base, k)?;
    }
    Ok(())
}

/// Appends the constant words of a weight, if they are compared.
fn put_constant_of(parts: &mut Items<Part>, base: Base, weight: u8) -> Result<(), NoMemory>
    requires { IsBase base }
    ensures { OnOk result (parts_of parts.new
        ≡ parts_of parts.old ++ compared (strata_of base) (Words false weight ∷ [])) }
{
    if 3 <= weight && weight <= base.w + base.n {
        parts.push(Part::Constant { weight })
    } else {
        Ok(())
    }
}

/// Appends the confounded words of a weight, if they are compared.
fn put_confounded_of(parts: &mut Items<Part>, base: Base, weight: u8) -> Result<(), NoMemory>
    requires { IsBase base }
    ensures { OnOk result (parts_of parts.new
        ≡ parts_of parts.old ++ compared (strata_of base) (Words true weight ∷ [])) }
{
    if 0 < base.h && 2 <= weight && weight <= base.w + base.n {
        parts.push(Part::Confounded { weight })
    } else {
        Ok(())
    }
}

ghost use Rattle.std.specs.Prelude.{◌≡◌, ℕ, ◌++◌, ◌∷◌, ◌==◌, ◌≤◌, List, map, length, if◌then◌else◌, OnOk, IfOk};
ghost use Rattle.fx_components.specs.Products.{product, remaining, term};

use fx_base::{Bytes, NoMemory, put, put_number};
use fx_vectors::Vector;

/// Appends the product of a vector over the named factors.
pub fn put_product(out: &mut Bytes, names: &[&Bytes], u: &Vector) -> Result<(), NoMemory>
    requires { length names.now ≤ length u.now }
    ensures { OnOk result (out.new ≡ out.old ++ product (map (λ n. n.now) names.now) u.now) }
{
    let mut is_first = true;
    for i in 0..names.len() {
        is_first = put_entry(out, names[i], u.code(i), is_first)?;
    }
    if is_first {
        return put(out, b"0");
    }
    Ok(())
}

/// Appends an entry of a product, where it is not 0, and returns whether the next term is still the
/// first.
fn put_entry(out: &mut Bytes, name: &Bytes, c: u8, is_first: bool) -> Result<bool, NoMemory>
    ensures { IfOk result (λ next. (ts : List (List ℕ))
        → out.new ++ remaining next ts
        ≡ out.old ++ remaining is_first (if c == 0 then ts else term name.now c ∷ ts)) }
{
    if c == 0 {
        return Ok(is_first);
    }
    if !is_first {
        put(out, b"*")?;
    }
    put_term(out, name, c)?;
    Ok(false)
}

/// Appends a factor's name, with its coefficient where that is not 1.
fn put_term(out: &mut Bytes, name: &Bytes, c: u8) -> Result<(), NoMemory>
    ensures { OnOk result (out.new ≡ out.old ++ term name.now c) }
{
    put(out, name.as_slice())?;
    if c == 1 {
        return Ok(());
    }
    put(out, b"^")?;
    put_number(out, u128::from(c))
}

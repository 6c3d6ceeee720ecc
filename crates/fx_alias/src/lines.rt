ghost use Rattle.std.specs.Prelude.{◌≡◌, ◌<◌, ◌≤◌, Bool, List, ℕ, [], ◌++◌, All, OnOk, IfOk, true, if◌then◌else◌, length, map, codes};
ghost use Rattle.fx_alias.specs.ClassNumbers.{at_places};
ghost use Rattle.fx_components.specs.Products.{product};
ghost use Rattle.fx_alias.specs.Aliasing.{class_line, equated_products, mean_line};

use fx_base::{Bytes, Items, NoMemory, put};
use fx_components::put_product;
use fx_text::Names;
use fx_vectors::Vector;
use std::alloc::Global;

/// The names, lent, as products take them.
pub(crate) fn lent<'a>(alloc: Global, names: &'a Names) -> Result<Vec<&'a Bytes>, NoMemory>
    ensures { IfOk result (λ lent. map (λ n. n.now) lent.items ≡ names.now) }
{
    let mut lent = Vec::new(alloc);
    for name in names.as_slice() {
        if lent.push(name).is_err() {
            return Err(NoMemory);
        }
    }
    Ok(lent)
}

/// Appends the line of the components that are constant, which are at these places.
pub(crate) fn put_mean(
    out: &mut Bytes,
    names: &[&Bytes],
    components: &Items<Vector>,
    places: &[usize],
) -> Result<(), NoMemory>
    requires long { All (λ u. length names.now ≤ length u) components.now }
    requires there { All (λ i. i < length components.now) places.now }
    ensures { OnOk result
        (out.new ≡ out.old
        ++ mean_line (map (λ n. n.now) names.now) (at_places components.now places.now)) }
{
    if places.is_empty() {
        return Ok(());
    }
    put(out, b"  mean = ")?;
    put_members(out, names, components, places)?;
    put(out, b"\n")
}

/// Appends the line of a class, whose members are at these places of the components, where there are
/// any. It ends with ` = blocks` where the first of them is marked.
pub(crate) fn put_class(
    out: &mut Bytes,
    names: &[&Bytes],
    components: &Items<Vector>,
    marked: &[bool],
    places: &[usize],
) -> Result<(), NoMemory>
    requires long { All (λ u. length names.now ≤ length u) components.now }
    requires there { All (λ i. i < length components.now) places.now }
    requires each { length marked.now ≡ length components.now }
    ensures { OnOk result ((is_marked : List ℕ → Bool)
        → marked.now ≡ map is_marked components.now
        → out.new ≡ out.old
        ++ class_line is_marked (map (λ n. n.now) names.now) (at_places components.now places.now)) }
{
    if places.is_empty() {
        return Ok(());
    }
    put(out, b"  ")?;
    put_members(out, names, components, places)?;
    put_end(out, marked[places[0]])
}

/// Appends the end of the line of a class.
fn put_end(out: &mut Bytes, is_marked: bool) -> Result<(), NoMemory>
    ensures { OnOk result
        (out.new ≡ out.old ++ ((if is_marked then codes " = blocks" else []) ++ codes "\n")) }
{
    if is_marked {
        return put(out, b" = blocks\n");
    }
    put(out, b"\n")
}

/// Appends the products of the components at these places, with ` = ` between them.
fn put_members(
    out: &mut Bytes,
    names: &[&Bytes],
    components: &Items<Vector>,
    places: &[usize],
) -> Result<(), NoMemory>
    requires long { All (λ u. length names.now ≤ length u) components.now }
    requires there { All (λ i. i < length components.now) places.now }
    ensures { OnOk result
        (out.new ≡ out.old
        ++ equated_products (map (λ n. n.now) names.now) true (at_places components.now places.now)) }
{
    let mut is_first = true;
    for i in places {
        put_member(out, names, components.get(*i), is_first)?;
        is_first = false;
    }
    Ok(())
}

/// Appends the product of a component, with ` = ` in front of it unless it is the first.
fn put_member(out: &mut Bytes, names: &[&Bytes], u: &Vector, is_first: bool) -> Result<(), NoMemory>
    requires { length names.now ≤ length u.now }
    ensures { OnOk result
        (out.new ≡ out.old ++ ((if is_first then [] else codes " = ")
        ++ product (map (λ n. n.now) names.now) u.now)) }
{
    if is_first {
        return put_product(out, names, u);
    }
    put(out, b" = ")?;
    put_product(out, names, u)
}

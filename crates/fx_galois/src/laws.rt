//! The laws of the fields. Each function has no code: its contract is the law.
ghost use Rattle.std.specs.Prelude.{ℕ, IsTrue};
ghost use Rattle.fx_designs.specs.Galois.{is_order, IsField};

/// Each of the seven orders has a field: sums and products commute and associate, products
/// distribute over sums, 0 and 1 are neutral, and negatives and inverses are there.
pub fn each_order_has_a_field()
    ensures { (q : ℕ) → IsTrue (is_order q) → IsField q }
{}

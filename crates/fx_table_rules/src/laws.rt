ghost use Rattle.std.specs.Prelude.{IsTrue};
ghost use Rattle.fx_designs.specs.Galois.{is_order};
ghost use Rattle.fx_strata.specs.Designs.{Strata, Order};
ghost use Rattle.fx_table_rules.specs.Rules.{RulesAreAlike, RulesHaveKey, RulesAreLeast};

/// The rules of a canonical design give one that is alike (`alike`), so with its key (`key`), and of least key where it
/// is (`least`).
pub fn rules_give_the_design()
    ensures alike { (x : Strata) → IsTrue (is_order x.q) → RulesAreAlike x }
    ensures key { (x : Strata) (order : Order) → IsTrue (is_order x.q) → RulesHaveKey x order }
    ensures least { (x : Strata) (order : Order) → IsTrue (is_order x.q) → RulesAreLeast x order }
{}

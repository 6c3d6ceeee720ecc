ghost use Rattle.std.specs.Prelude.{◌≡◌, ◌↔◌, ◌+◌, ◌<◌, ℕ, List, Some, None, IsTrue, true, false};
ghost use Rattle.fx_designs.specs.Galois.{is_order};
ghost use Rattle.fx_designs.specs.Problems.{Dimensions, Requirement, Problem};
ghost use Rattle.fx_designs.specs.Canonical.{is_canonical};
ghost use Rattle.fx_designs.specs.Answers.{answer, is_design};
ghost use Rattle.fx_laws.specs.Canonical.{IsCanonicalPrefix};
ghost use Rattle.fx_laws.specs.First.{IsFirstDesign};

/// Where no least pattern is asked, the answer of a problem is its first design: the answer, where
/// there is one, is that design, that design is the answer, and without an answer no canonical
/// matrix meets the requirement.
pub fn answer_is_the_first_design()
    ensures there { (p : Problem) (rows : List ℕ)
        → p.least ≡ false
        → answer p ≡ Some rows
        → IsFirstDesign p rows }
    ensures first { (p : Problem) (rows : List ℕ)
        → p.least ≡ false
        → 0 < p.dimensions.s + p.dimensions.t
        → IsFirstDesign p rows
        → answer p ≡ Some rows }
    ensures none { (p : Problem)
        → p.least ≡ false
        → 0 < p.dimensions.s + p.dimensions.t
        → answer p ≡ None
        → (rows : List ℕ)
        → is_design p rows ≡ false }
{}

/// For each order that is built, a list of rows is a canonical prefix exactly where it is not too
/// long, its rows are below q^m, and it keeps the rules on spans, on the rank and, under a
/// resolution, on unit vectors and falling numbers.
pub fn canonical_prefix_in_words()
    ensures { (d : Dimensions) (wanted : Requirement) (rows : List ℕ)
        → IsTrue (is_order d.q)
        → (is_canonical d wanted rows ≡ true) ↔ IsCanonicalPrefix d wanted rows }
{}

ghost use Rattle.std.specs.Prelude.{◌≡◌, ◌<◌, ◌≤◌, ◌↔◌, ◌==◌, ◌&&◌, if◌then◌else◌, nat_le, ℕ, List, IsTrue, true};
ghost use Rattle.std.specs.Prelude.{false, length, filter, count_by, ◌+◌, [], Bool};
ghost use Rattle.std.specs.List.{sum_by, AllByRecursion};
ghost use Rattle.fx_designs.specs.Galois.{is_order};
ghost use Rattle.fx_designs.specs.Vectors.{combination, is_normal, same, vectors_of, weight, IsVector};
ghost use Rattle.fx_designs.specs.Runs.{is_constant, runs_of};
ghost use Rattle.fx_designs.specs.Problems.{Dimensions, Requirement};
ghost use Rattle.fx_designs.specs.Canonical.{is_canonical};
ghost use Rattle.fx_designs.specs.Components.{components, listed_count};
ghost use Rattle.fx_designs.specs.Aliases.{is_aliased};
ghost use Rattle.fx_alias.specs.Classes.{IsMultiple, class_number, classes, constants, numbered_behind};
ghost use Rattle.fx_alias.specs.ComponentOrder.{is_before, IsRising};
ghost use Rattle.fx_alias.specs.Rules.{HasItsRule};

/// Over the runs of any rules, given by their numbers, vectors are aliased exactly where the sum of
/// the rules by the one is a multiple of their sum by the other.
pub fn aliased_where_sums_are_multiples()
    ensures { (q m : ℕ) (rows u v : List ℕ) → IsTrue (is_order q)
        → (is_aliased q (runs_of q m (vectors_of q m rows)) u v ≡ true)
        ↔ IsMultiple q (combination q m u (vectors_of q m rows)) (combination q m v (vectors_of q m rows)) }
{}

/// A vector is constant where the number of the normal multiple of its sum is 0, and any other is
/// aliased with those of the same number.
pub fn aliased_where_class_numbers_agree()
    ensures constant { (q m : ℕ) (rows u : List ℕ) → IsTrue (is_order q)
        → is_constant q u (runs_of q m (vectors_of q m rows))
        ≡ (class_number q (combination q m u (vectors_of q m rows)) == 0) }
    ensures aliased { (q m : ℕ) (rows u v : List ℕ) → IsTrue (is_order q)
        → is_constant q u (runs_of q m (vectors_of q m rows)) ≡ false
        → is_aliased q (runs_of q m (vectors_of q m rows)) u v
        ≡ (class_number q (combination q m u (vectors_of q m rows))
        == class_number q (combination q m v (vectors_of q m rows))) }
{}

/// The components that a listing has are as many as the limit on listings counts.
pub fn components_are_counted()
    ensures { (q s d : ℕ) → length (components q s d) ≡ listed_count q s d }
{}

/// The components that a listing has are the normal vectors of 1 to d factors, each once; they are in order by their
/// number of factors, then by the places of these, then by number.
pub fn components_are_the_normal_vectors()
    ensures once { (q s d : ℕ) (u : List ℕ) → IsVector q s u
        → count_by (λ v. same v u) (components q s d) ≡ (if is_normal u && nat_le (weight u) d then 1 else 0) }
    ensures vectors { (q s d : ℕ) → 2 ≤ q → AllByRecursion (IsVector q s) (components q s d) }
    ensures order { (q s d : ℕ) → 2 ≤ q → IsRising (is_before q) (components q s d) }
{}

/// Over the runs of any rules the classes of components are those of one class number.
pub fn classes_by_number()
    ensures mean { (q m : ℕ) (rows : List ℕ) (components : List (List ℕ)) → IsTrue (is_order q)
        → constants q (runs_of q m (vectors_of q m rows)) components
        ≡ filter (λ u. class_number q (combination q m u (vectors_of q m rows)) == 0) components }
    ensures classes { (q m : ℕ) (rows : List ℕ) (components : List (List ℕ)) → IsTrue (is_order q)
        → classes q (runs_of q m (vectors_of q m rows)) components
        ≡ numbered_behind (λ u. class_number q (combination q m u (vectors_of q m rows))) components [] components }
{}

/// Each component is listed once: on the line of those that are constant, or in one class.
pub fn each_component_once()
    ensures { (q m : ℕ) (rows : List ℕ) (components : List (List ℕ)) (test : List ℕ → Bool) → IsTrue (is_order q)
        → count_by test (constants q (runs_of q m (vectors_of q m rows)) components)
        + sum_by (λ class. count_by test class) (classes q (runs_of q m (vectors_of q m rows)) components)
        ≡ count_by test components }
{}

/// Each row of a canonical matrix has its line among the rules; a rule's product stands for the sum of the levels of
/// the rows that it names, each times its code, and this sum is the row's level at every run.
pub fn each_row_has_its_rule()
    ensures { (d : Dimensions) (wanted : Requirement) (factors : List (List ℕ)) (rows : List ℕ) (k : ℕ)
        → IsTrue (is_order d.q)
        → is_canonical d wanted rows ≡ true
        → length rows ≡ d.s + d.t
        → length factors ≡ d.s
        → k < d.s + d.t
        → HasItsRule d factors rows k }
{}

ghost use Rattle.std.specs.Prelude.{◌≡◌, ℕ, ◌<◌, ◌^◌, ◌==◌, List, IsTrue, true, false, drop, length, slice_index, take};
ghost use Rattle.fx_designs.specs.Galois.{digits};
ghost use Rattle.fx_designs.specs.Vectors.{IsVector, dot, vectors_of};
ghost use Rattle.fx_designs.specs.Runs.{levels_at};
ghost use Rattle.fx_designs.specs.Matrices.{IsRuleMatrix, row_numbers};
ghost use Rattle.fx_tree.specs.Introduced.{introduced, introducing};
ghost use Rattle.fx_vectors.specs.Shape.{dimensions_of};
ghost use Rattle.fx_designs.specs.Galois.{is_order};
ghost use Rattle.fx_designs.specs.Problems.{Dimensions, Requirement};
ghost use Rattle.fx_designs.specs.Canonical.{is_canonical};
ghost use Rattle.fx_vectors.specs.declared.shape.Shape.{Shape};
ghost use Rattle.fx_lexer.specs.Places.{place_after};
ghost use Rattle.fx_rules.specs.declared.parts.Part.{Part};
ghost use Rattle.fx_rules.specs.Parts.{blanked};
ghost use Rattle.fx_rules.specs.Laws.{AreFactors, IsGiven, WayBack};
ghost use Rattle.fx_rules.specs.Stepped.{IsStepped};
ghost use Rattle.fx_rules.specs.TableLines.{IsOfTable, MeanNumbers, TableWayBack};

/// What a listing prints of the rules of a matrix is read as this matrix.
pub fn printed_rules_are_read()
    ensures { (shape : Shape) (factors : List (List ℕ)) (rows : List ℕ)
        → AreFactors shape factors
        → IsGiven shape rows
        → WayBack shape factors rows }
{}

/// Each row of a canonical matrix is the next unit vector or a combination of the run indexes before.
pub fn canonical_matrices_are_stepped()
    ensures { (d : Dimensions) (wanted : Requirement) (rows : List ℕ)
        → IsTrue (is_order d.q)
        → is_canonical d wanted rows ≡ true
        → IsStepped d.q 0 rows }
{}

/// A matrix that rules give is a rule matrix, and its rows are the numbers of the rules' vectors.
pub fn given_matrices_are_rule_matrices()
    ensures matrix { (shape : Shape) (rows : List ℕ) → IsGiven shape rows
        → IsRuleMatrix (dimensions_of shape) (vectors_of shape.q shape.m (take shape.s rows))
        (vectors_of shape.q shape.m (drop shape.s rows)) }
    ensures numbers { (shape : Shape) (rows : List ℕ) → IsGiven shape rows
        → row_numbers (dimensions_of shape) (vectors_of shape.q shape.m (take shape.s rows))
        (vectors_of shape.q shape.m (drop shape.s rows)) ≡ rows }
{}

/// In a matrix that rules give the level of a row that introduces no run index is, at every run, the sum of the levels
/// of those rows before it that do, each times its code in the row: what its rule says.
pub fn given_rules_give_the_levels()
    ensures { (shape : Shape) (rows : List ℕ) (k : ℕ) (p : List ℕ)
        → IsGiven shape rows
        → k < length rows
        → (slice_index rows k == shape.q ^ introduced shape.q 0 (take k rows)) ≡ false
        → IsVector shape.q shape.m p
        → dot shape.q (digits shape.q shape.m (slice_index rows k))
        (introducing shape.q 0 (take k rows) (levels_at shape.q (vectors_of shape.q shape.m (take k rows)) p))
        ≡ dot shape.q (digits shape.q shape.m (slice_index rows k)) p }
{}

/// The rules of a line of `tables` are read as its matrix, where `X` and a number means the factor of this number.
pub fn table_rules_are_read()
    ensures { (shape : Shape) (factors : List (List ℕ)) (rows : List ℕ)
        → MeanNumbers shape factors
        → IsOfTable shape rows
        → TableWayBack shape factors rows }
{}

/// The places of a text stay where its parts are blanked.
pub fn blanks_keep_places()
    ensures { (text : List ℕ) (parts : List Part) (i : ℕ)
        → place_after (take i (blanked text parts)) ≡ place_after (take i text) }
{}

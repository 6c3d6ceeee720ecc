ghost use Rattle.std.specs.Prelude.{◌≡◌, ◌<◌, ◌≤◌, ◌↔◌, ℕ, IsTrue, length};
ghost use Rattle.fx_designs.specs.Galois.{is_order};
ghost use Rattle.fx_designs.specs.Matrices.{NoneMeets};
ghost use Rattle.fx_designs.specs.Nodes.{nodes};
ghost use Rattle.fx_designs.specs.Problems.{AtResolution, Dimensions};
ghost use Rattle.fx_vectors.specs.declared.shape.Shape.{Shape};
ghost use Rattle.fx_vectors.specs.Shape.{IsShape, dimensions_of};
ghost use Rattle.fx_book.specs.QuestionBooks.{book_for};
ghost use Rattle.fx_catalogue.specs.declared.line.Line.TheVariants.{Budget, Nothing};
ghost use Rattle.fx_catalogue.specs.Laws.{Holds, with_factors};
ghost use Rattle.fx_catalogue.specs.Lines.{line_of, problem_at};

/// What a line claims holds of all rule matrices of its shape, canonical or not: that none of resolution 3
/// or more has a less pattern, or that there is none; and its book is good (`claims`). Where there is none
/// and the budget suffices, the line is that (`none`).
pub fn lines_are_of_all_matrices()
    ensures claims { (shape : Shape) (budget : ℕ) → IsShape shape → shape.t ≡ 0
        → Holds shape budget (line_of shape budget) }
    ensures none { (shape : Shape) (budget : ℕ) → IsShape shape → shape.t ≡ 0
        → length (nodes (problem_at shape)) ≤ budget
        → NoneMeets (dimensions_of shape) (AtResolution 3)
        → line_of shape budget ≡ Nothing (length (nodes (problem_at shape))) (book_for (problem_at shape)) }
{}

/// The budget of a line ends exactly where its question has more nodes.
pub fn budget_ends_where_passed()
    ensures { (shape : Shape) (budget : ℕ)
        → (line_of shape budget ≡ Budget) ↔ (budget < length (nodes (problem_at shape))) }
{}

/// Where no rule matrix has a resolution, none with more factors has it, so a catalogue ends with its first
/// line without a design.
pub fn none_with_more_factors()
    ensures { (d : Dimensions) (r s : ℕ) → IsTrue (is_order d.q)
        → NoneMeets d (AtResolution r)
        → d.s ≤ s
        → NoneMeets (with_factors d s) (AtResolution r) }
{}

ghost use Rattle.std.specs.Prelude.{◌≡◌, ◌<◌, ◌+◌, ◌*◌, ◌^◌, ◌==◌, ℕ, Bool, List, count_by, length, IsPermutation};
ghost use Rattle.std.specs.List.{AllZip, range_with_len};
ghost use Rattle.fx_vectors.specs.Matrix.{IsMatrix, MatrixView};
ghost use Rattle.fx_runs.specs.Runs.{AreRuns, RunsView, design_of};
ghost use Rattle.fx_derived.specs.Tables.{TableView};
ghost use Rattle.fx_outputs.specs.declared.output.OutputSpec.{OutputSpec};
ghost use Rattle.fx_plan.specs.Columns.{column_values};
ghost use Rattle.fx_plan.specs.Products.{arrangement_of, plan_of, run_of};

/// The rows of a plan are those of the runs that are repeated by two tables, each exactly once, in some
/// order: what holds of this many of their numbers holds of as many rows of the plan. So each run is in
/// as many rows as any other.
pub fn each_row_once()
    ensures reordered { (runs : RunsView) (output : OutputSpec) (seed : ℕ) (inner outer : TableView)
        (test : ℕ → Bool)
        → AreRuns runs.shape runs.rows
        → count_by test (arrangement_of runs output seed inner outer).order
        ≡ count_by test (range_with_len 0 (length runs.rows * length inner.rows * length outer.rows)) }
    ensures as_often { (runs : RunsView) (output : OutputSpec) (seed : ℕ) (inner outer : TableView) (k : ℕ)
        → AreRuns runs.shape runs.rows
        → k < length runs.rows
        → count_by (λ r. run_of (length inner.rows) (length runs.rows) r == k)
        (arrangement_of runs output seed inner outer).order
        ≡ length inner.rows * length outer.rows }
{}

/// The plan of a whole matrix has a row for each run with each row of either table, so each run of the
/// design is in as many of them as any other; and the values of each column are a reordering of those
/// that it has.
pub fn plans_are_of_their_designs()
    ensures rows { (names : List (List ℕ)) (matrix : MatrixView) (output : OutputSpec) (seed : ℕ)
        (inner outer : TableView)
        → IsMatrix matrix.shape matrix.rows
        → length matrix.rows ≡ matrix.shape.s + matrix.shape.t
        → length (plan_of names (design_of matrix) output seed inner outer).rows
        ≡ matrix.shape.q ^ matrix.shape.m * (length inner.rows * length outer.rows) }
    ensures as_often { (matrix : MatrixView) (output : OutputSpec) (seed : ℕ) (inner outer : TableView) (k : ℕ)
        → IsMatrix matrix.shape matrix.rows
        → length matrix.rows ≡ matrix.shape.s + matrix.shape.t
        → k < matrix.shape.q ^ matrix.shape.m
        → count_by (λ r. run_of (length inner.rows) (matrix.shape.q ^ matrix.shape.m) r == k)
        (arrangement_of (design_of matrix) output seed inner outer).order
        ≡ length inner.rows * length outer.rows }
    ensures values { (runs : RunsView) (output : OutputSpec) (seed : ℕ) (inner outer : TableView)
        → AllZip IsPermutation (column_values runs.shape.q runs.shape.s output.recodes output.derived)
        (arrangement_of runs output seed inner outer).values }
{}

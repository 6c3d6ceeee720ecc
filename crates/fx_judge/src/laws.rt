ghost use Rattle.std.specs.Prelude.{◌≡◌, ◌≢◌, ◌<◌, ◌*◌, ◌↔◌, ℕ, Bool, List, true, count_by, length};
ghost use Rattle.fx_judge.specs.Bases.{AreEven};
ghost use Rattle.fx_judge.specs.declared.kinship.Kinship.TheVariants.{Partial};
ghost use Rattle.fx_judge.specs.Kinships.{kinship};
ghost use Rattle.fx_judge.specs.Plans.{IsPlan, PlanView};
ghost use Rattle.fx_judge.specs.Regular.{row_differences, is_regular_plan};
ghost use Rattle.fx_judge.specs.Rules.{basic_among};
ghost use Rattle.fx_designs.specs.Runs.{runs_of};
ghost use Rattle.fx_designs.specs.Aliases.{is_aliased};

/// Over rows that have each run of a rule matrix equally often, in any order, exactly those components
/// are aliased that are so over the runs: what is counted over the rows is so many times what is
/// counted over the runs.
pub fn aliased_over_replicated_runs()
    ensures { (q m k : ℕ) (rules rows : List (List ℕ)) (u v : List ℕ) → 0 < k
        → ((test : List ℕ → Bool) → count_by test rows ≡ k * count_by test (runs_of q m rules))
        → is_aliased q rows u v ≡ is_aliased q (runs_of q m rules) u v }
{}

/// No two vectors of a regular plan are partial: they are aliased, or each two values come together as
/// often as is expected.
pub fn regular_plans_have_no_partial_pair()
    ensures { (plan : PlanView) → IsPlan plan → is_regular_plan plan.q plan.rows ≡ true → (u v : List ℕ)
        → kinship plan.q plan.rows u v ≢ Partial }
{}

/// A plan is regular exactly where each combination of codes at its basic factors comes equally often
/// among the differences from the first run, and so among the runs.
pub fn regular_where_even()
    ensures { (plan : PlanView) → IsPlan plan
        → (is_regular_plan plan.q plan.rows ≡ true)
        ↔ AreEven plan.q (basic_among plan.q (length plan.names) (row_differences plan.q plan.rows) (length plan.names))
        (row_differences plan.q plan.rows) }
{}

ghost use Rattle.std.specs.Prelude.{length, All, IsTrue};
ghost use Rattle.std.specs.List.{IsDistinct};
ghost use Rattle.std.proofs.Props.{props};
ghost use Rattle.fx_text.specs.Names.{IsName, is_same_name};
ghost use Rattle.fx_settings.specs.Valid.{are_valid};
ghost use Rattle.fx_outputs.specs.Outputs.{names_of};
ghost use Rattle.fx_outputs.specs.Validity.{HasItsNames, IsWithinLimits};
ghost use Rattle.fx_statements.specs.Valid.{CanBeRequired, CanBeRequired-prop, HasFewComponents, is_count};
ghost use Rattle.fx_statements.specs.Requirements.{IsOfKind, IsOfKind-prop};
ghost use Rattle.fx_statements.specs.Contexts.{context};
ghost use Rattle.fx_statements.specs.Folds.{IsFold};
ghost use Rattle.fx_vectors.specs.Question.{requirement_of};

use crate::examine::Examine;
use crate::fold::Fold;
use fx_outputs::Outputs;
use fx_settings::StepSettings;
use fx_text::Names;
use fx_vectors::Demands;

/// A step of a program. No two of its factors have the same name, its settings are valid, the
/// effects that it names may be asked for (at least one to estimate, both lists in effect order,
/// none in both, at most 100,000 in each, at most 2,000,000 pairs), its listings have at most 100,000
/// components, and its outputs are within its limits. Names have 1 to 32 bytes, no two OUT names are
/// the same, and no factor has the name of the column of blocks.
pub struct Step {
    /// The names of its factors, at least one, and no more than a design with so many levels, in
    /// blocks or not, may have. They differ without regard to case.
    pub factors: Names,
    /// Its levels, runs, blocks and budget, and by what its designs are judged.
    pub settings: StepSettings,
    /// What a design must meet: with the highest resolution, at least resolution 3.
    pub demands: Demands,
    /// The sections of the listing that are asked for.
    pub examine: Examine,
    /// Which factors are folded over, if any.
    pub fold: Fold,
    /// The files that the step writes, in order.
    pub outputs: Outputs,
    ghost factor_count: { IsTrue (is_count settings.q (length factors) settings.blocks) },
    ghost distinct: { IsDistinct is_same_name factors } by { Prim.hlevel props },
    ghost settings_valid: { IsTrue (are_valid settings) },
    ghost factor_names: { All IsName factors },
    ghost kind: { IsOfKind settings.criterion (requirement_of demands) } by { IsOfKind-prop _ _ },
    ghost effects_askable: { CanBeRequired settings.q (length factors) (requirement_of demands) } by { CanBeRequired-prop _ _ _ },
    ghost few_components: { HasFewComponents
        settings.q
        (length factors)
        (requirement_of demands)
        examine },
    ghost fold_fits: { IsFold settings.q settings.blocks (length factors) fold },
    ghost outputs_within_limits: { All (IsWithinLimits (context factors settings)) outputs },
    ghost output_names: { All (HasItsNames (context factors settings)) outputs },
    ghost out_names_differ: { IsDistinct is_same_name (names_of outputs) } by { Prim.hlevel props },
}

// Not derived, so that a place that drops one is proved with one call.
impl Drop for Step {
    fn drop(self) {
        let Step {
            factors: _,
            settings: _,
            demands: _,
            examine: _,
            fold: _,
            outputs: _,
        } = self;
    }
}

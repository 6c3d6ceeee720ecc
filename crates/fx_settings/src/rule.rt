ghost use Rattle.std.specs.Prelude.{◌≡◌, ◌≤◌, ◌<◌, drop, IfOk, IfSome};
ghost use Rattle.std.specs.List.{AllByRecursion};
ghost use Rattle.fx_settings.specs.Rules.{DoesNotApply, first_refusal};
ghost use Rattle.fx_settings.specs.Settings.{block_rules_by, blocks_with_maximum, minabs_with_effects};
ghost use Rattle.fx_settings.specs.Settings.{minimum_with_maximum, rules_by};

use crate::block::{are_most, are_too_many_blocks};
use crate::model::{has_effects, has_highest, is_criterion, least_of};
use crate::said::StepSaid;
use crate::settings::{Size, budget_of, is_budget};
use crate::size::{are_too_many_runs, is_zero};
use fx_language::code::{
    BLOCKS_NOT_A_POWER, INVALID_RESOLUTION, MAXIMUM_WITH_BLOCKS, MINABS_WITH_ESTIMATE,
    MINIMUM_WITH_MAXIMUM, NUMBER_OUT_OF_RANGE, SIZE_NOT_A_POWER, TOO_MANY_BLOCKS, TOO_MANY_RUNS,
};
use fx_text::{Place, Refusal};

/// A rule on what a text says.
#[derive(Clone, Copy)]
pub struct Rule {
    pub code: u8,
    /// Where it refuses.
    pub place: Place,
    /// Whether it does.
    pub applies: bool,
}

impl Rule {
    ghost use Rattle.fx_settings.specs.Rules.{rule};

    fn new(code: u8, place: Place, applies: bool) -> Rule
        ensures { result ≡ rule code place applies }
    {
        Rule {
            code,
            place,
            applies,
        }
    }
}

/// The refusal by the first rule that applies.
pub(crate) fn first_refusal(rules: &[Rule]) -> Result<(), Refusal>
    ensures refused { result ≡ first_refusal rules.now }
    ensures kept { IfOk result (λ _. AllByRecursion DoesNotApply rules.now) }
{
    for rule in rules {
        if rule.applies {
            return Err(Refusal::at(rule.place, rule.code));
        }
    }
    Ok(())
}

/// The rules asked before the effects, except the first, on the levels: the others have no meaning
/// without it. `m` is the number of run factors.
pub(crate) fn later_rules(q: u8, m: Option<u128>, said: StepSaid) -> [Rule; 7]
    requires { 2 ≤ q }
    ensures rules { result ≡ drop 1 (rules_by q m said) }
    ensures bound { AllByRecursion DoesNotApply result → IfSome m (λ m. m ≤ 10) }
{
    let budget = budget_of(said);
    let at_nodes = said.value_place(said.nodes);
    let at_size = said.size_place();
    let at_resolution = said.resolution_place();
    let at_minabs = said.minabs_place();
    let at_blocks = said.blocks_place();
    [
        Rule::new(NUMBER_OUT_OF_RANGE, at_nodes, !is_budget(budget)),
        Rule::new(SIZE_NOT_A_POWER, at_size, is_zero(m)),
        Rule::new(TOO_MANY_RUNS, at_size, are_too_many_runs(q, m)),
        Rule::new(INVALID_RESOLUTION, at_resolution, !is_criterion(said.model)),
        Rule::new(MINABS_WITH_ESTIMATE, at_minabs, minabs_with_effects(said)),
        Rule::new(MAXIMUM_WITH_BLOCKS, at_blocks, blocks_with_maximum(said)),
        Rule::new(MINIMUM_WITH_MAXIMUM, at_size, minimum_with_maximum(m, said)),
    ]
}

/// The rules asked after the effects. `t` is the number of block factors.
pub(crate) fn block_rules(t: Option<u128>, q: u8, size: Size, said: StepSaid) -> [Rule; 2]
    requires { 2 ≤ q }
    ensures rules { result ≡ block_rules_by t q size said }
    ensures bound { AllByRecursion DoesNotApply result → IfSome t (λ t. t < 256) }
{
    let at_blocks = said.block_value_place();
    [
        Rule::new(BLOCKS_NOT_A_POWER, at_blocks, is_zero(t)),
        Rule::new(TOO_MANY_BLOCKS, at_blocks, are_too_many_blocks(q, size, t)),
    ]
}

/// MINABS with effects.
fn minabs_with_effects(said: StepSaid) -> bool
    ensures { result ≡ minabs_with_effects said }
{
    least_of(said.model) && has_effects(said.model)
}

/// BLOCKS with MINABS, or the most blocks with the highest resolution.
fn blocks_with_maximum(said: StepSaid) -> bool
    ensures { result ≡ blocks_with_maximum said }
{
    said.blocks.is_some()
        && (least_of(said.model) || has_highest(said.model) && are_most(said.blocks))
}

/// The least size with the highest resolution, with MINABS or with the most blocks.
fn minimum_with_maximum(m: Option<u128>, said: StepSaid) -> bool
    ensures { result ≡ minimum_with_maximum m said }
{
    m.is_none() && (has_highest(said.model) || least_of(said.model) || are_most(said.blocks))
}

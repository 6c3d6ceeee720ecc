ghost use Rattle.std.specs.Prelude.{◌≡◌, ◌≤◌, true, length, Ok, IfOk, IfErr};
ghost use Rattle.fx_text.specs.Refusals.{IsRefused};
ghost use Rattle.fx_text.specs.Statements.{statement_of};
ghost use Rattle.fx_language.specs.declared.symbol.Symbol.TheVariants.{Model};
ghost use Rattle.fx_settings.specs.declared.settings.Criterion.TheVariants as criterion;
ghost use Rattle.fx_settings.specs.Settings.{is_level};
ghost use Rattle.fx_statements.specs.Requirements.{IsOfKind, effects_by, effects_required, requirement_by};
ghost use Rattle.fx_statements.specs.Valid.{CanBeRequired};
ghost use Rattle.fx_vectors.specs.Question.{requirement_of};
ghost use Rattle.fx_vectors.specs.declared.shape.TheConstants.{MOST_FACTORS};

use fx_base::Bytes;
use fx_effects::effects_of;
use fx_galois::Field;
use fx_language::Symbol;
use fx_settings::Criterion;
use fx_text::{ParseStop, Phrase, Statement, find};
use fx_vectors::Demands;
use std::alloc::Global;

/// What a step with these factors of `q` levels demands of its design, where it is of this kind: of the
/// highest resolution at least 3, the lowest that may be asked for.
///
/// # Errors
///
/// Those of the effects that the MODEL statement names, and `NoMemory`.
pub(crate) fn demands_by(
    alloc: Global,
    q: u8,
    factors: &[Bytes],
    statements: &[Statement<'_>],
    criterion: Criterion,
) -> Result<Demands, ParseStop>
    requires level { is_level q ≡ true }
    requires few { length factors.now ≤ MOST_FACTORS }
    ensures requirement { IfOk result (λ demands.
        requirement_by q factors.now statements.now criterion ≡ Ok (requirement_of demands)) }
    ensures kind { IfOk result (λ demands. IsOfKind criterion (requirement_of demands)) }
    ensures askable { IfOk result (λ demands.
        CanBeRequired q (length factors.now) (requirement_of demands)) }
    ensures refused { IfErr result
        (IsRefused (requirement_by q factors.now statements.now criterion)) }
{
    match criterion {
        Criterion::Resolution { r } => Ok(Demands::Resolution { r }),
        Criterion::Highest => Ok(Demands::Resolution { r: 3 }),
        Criterion::Effects => effects_demanded(alloc, q, factors, statements),
    }
}

/// The effects that the MODEL statement names.
fn effects_demanded(
    alloc: Global,
    q: u8,
    factors: &[Bytes],
    statements: &[Statement<'_>],
) -> Result<Demands, ParseStop>
    requires level { is_level q ≡ true }
    requires few { length factors.now ≤ MOST_FACTORS }
    ensures requirement { IfOk result (λ demands.
        effects_required q factors.now (statement_of Model statements.now)
        ≡ Ok (requirement_of demands)) }
    ensures kind { IfOk result (λ demands. IsOfKind criterion.Effects (requirement_of demands)) }
    ensures askable { IfOk result (λ demands.
        CanBeRequired q (length factors.now) (requirement_of demands)) }
    ensures refused { IfErr result
        (IsRefused (effects_required q factors.now (statement_of Model statements.now))) }
{
    match find(Symbol::Model, statements) {
        None => effects_in(alloc, q, factors, &Phrase::new(&[])),
        Some(statement) => effects_in(alloc, q, factors, &statement),
    }
}

fn effects_in(
    alloc: Global,
    q: u8,
    factors: &[Bytes],
    statement: &Phrase<'_>,
) -> Result<Demands, ParseStop>
    requires level { is_level q ≡ true }
    requires few { length factors.now ≤ MOST_FACTORS }
    ensures requirement { IfOk result (λ demands.
        effects_by q factors.now statement.now ≡ Ok (requirement_of demands)) }
    ensures kind { IfOk result (λ demands. IsOfKind criterion.Effects (requirement_of demands)) }
    ensures askable { IfOk result (λ demands.
        CanBeRequired q (length factors.now) (requirement_of demands)) }
    ensures refused { IfErr result (IsRefused (effects_by q factors.now statement.now)) }
{
    let field = Field::of(q).unwrap();
    let effects = effects_of(alloc, field, factors, statement)?;
    Ok(Demands::Effects {
        estimate: effects.estimate,
        nonnegligible: effects.nonnegligible,
    })
}

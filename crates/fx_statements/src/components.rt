ghost use Rattle.std.specs.Prelude.{◌≡◌, ◌≤◌, true, min, nat_lt};
ghost use Rattle.fx_designs.specs.Components.{listed_count};
ghost use Rattle.fx_settings.specs.Settings.{is_level};
ghost use Rattle.fx_statements.specs.declared.components.TheConstants.{MOST_COMPONENTS};
ghost use Rattle.fx_statements.specs.Components.{check_components, components_asked, components_place, first_components, is_for_components, listed_factors};
ghost use Rattle.fx_vectors.specs.Question.{requirement_of};
ghost use Rattle.fx_vectors.specs.declared.shape.TheConstants.{MOST_FACTORS};

use fx_language::{Symbol, code};
use fx_text::{Lexeme, Phrase, Place, Refusal, Statement};
use fx_vectors::{Demands, most_factors};

/// The most components of a listing.
const MOST_COMPONENTS: u64 = 100_000;

/// Tests that no EXAMINE statement of a step with `s` factors of `q` levels asks for a listing of
/// more than 100,000 components.
///
/// # Errors
///
/// E23, at the first word ALIASING or BLOCKED: one does.
pub(crate) fn check_components(
    q: u8,
    s: u8,
    demands: &Demands,
    statements: &[Statement<'_>],
) -> Result<(), Refusal>
    requires level { is_level q ≡ true }
    requires few { s ≤ MOST_FACTORS }
    ensures { result
        ≡ check_components q s (requirement_of demands.now) (components_place statements.now) }
{
    match components_place(statements) {
        None => Ok(()),
        Some(place) => {
            if are_too_many(q, s, s.min(listed_factors(demands))) {
                Err(Refusal::at(place, code::TOO_MANY_EFFECTS))
            } else {
                Ok(())
            }
        }
    }
}

/// The place of the first word of a step, ALIASING or BLOCKED, that asks for a listing of
/// components.
fn components_place(statements: &[Statement<'_>]) -> Option<Place>
    ensures { result ≡ components_place statements.now }
{
    for statement in statements {
        let place = components_asked(statement);
        if place.is_some() {
            return place;
        }
    }
    None
}

/// The place of the first such word of a statement, where it is an EXAMINE statement.
fn components_asked(statement: &Statement<'_>) -> Option<Place>
    ensures { result ≡ components_asked statement.now }
{
    if statement.begins(Symbol::Examine) {
        first_components(statement)
    } else {
        None
    }
}

fn first_components(phrase: &Phrase<'_>) -> Option<Place>
    ensures { result ≡ first_components phrase.now }
{
    for w in phrase.lexemes() {
        if is_for_components(w) {
            return Some(w.place());
        }
    }
    None
}

fn is_for_components(w: &Lexeme<'_>) -> bool
    ensures { result ≡ is_for_components w.now }
{
    w.is(Symbol::Aliasing) || w.is(Symbol::Blocked)
}

/// The most factors of a listed component, in a step with as many factors: 2, or the number of factors
/// of the largest effect that the step names.
pub fn listed_factors(demands: &Demands) -> u8
    ensures { result ≡ listed_factors (requirement_of demands.now) }
{
    match demands {
        Demands::Resolution { .. } => 2,
        Demands::Effects {
            estimate,
            nonnegligible,
        } => most_factors(estimate)
            .max(most_factors(nonnegligible))
            .max(2),
    }
}

/// Whether more than 100,000 components have 1 to `d` of the `s` factors: normal vectors, whose
/// last nonzero code is 1.
fn are_too_many(q: u8, s: u8, d: u8) -> bool
    requires level { is_level q ≡ true }
    requires few { s ≤ MOST_FACTORS }
    requires some { d ≤ s }
    ensures { result ≡ nat_lt MOST_COMPONENTS (listed_count q s d) }
{
    let mut count = 0;
    // How many have k + 1 factors.
    let mut next = u64::from(s);
    for k in 0..d {
        count += next;
        if count > MOST_COMPONENTS {
            return true;
        }
        next = next * u64::from(s - k - 1) * u64::from(q - 1) / (u64::from(k) + 2);
    }
    false
}

ghost use Rattle.std.specs.Prelude.{◌≡◌, MatchOption, None, Some};
ghost use Rattle.fx_outputs.specs.Shuffles.{seed_written, seeded, shuffle_of};

use crate::option::option_of;
use fx_language::{Symbol, code};
use fx_text::{Lexeme, Phrase, Refusal};

/// What of a plan is shuffled.
#[derive(Clone, Copy, PartialEq, Eq)]
pub enum Shuffle {
    /// Nothing.
    Kept,
    /// The rows, and the values of the factors where `values` is set, by the program's seed.
    Default { values: bool },
    /// The same, by a seed of its own.
    Seed { seed: u64, values: bool },
}

/// What RANDOMIZE and NOVALRAN ask for.
///
/// # Errors
///
/// E19 at a seed of more than 64 bits.
pub fn shuffle_asked(options: &[Phrase<'_>]) -> Result<Shuffle, Refusal>
    ensures { result ≡ shuffle_of options.now }
{
    let randomize = option_of(Symbol::Randomize, options);
    if !randomize.begins(Symbol::Randomize) {
        return Ok(Shuffle::Kept);
    }
    let values = !option_of(Symbol::Novalran, options).begins(Symbol::Novalran);
    match seed_written(&randomize) {
        None => Ok(Shuffle::Default { values }),
        Some(seed) => seeded(seed, values),
    }
}

/// The number in parentheses after RANDOMIZE, which is first.
fn seed_written<'a>(phrase: &Phrase<'a>) -> Option<&'a Lexeme<'a>>
    ensures { MatchOption result (seed_written phrase.now ≡ None)
        (λ w. seed_written phrase.now ≡ Some w.now) }
{
    if phrase.from(1).begins(Symbol::Open) {
        return phrase.at(2);
    }
    None
}

/// Shuffled by this seed.
fn seeded(seed: &Lexeme<'_>, values: bool) -> Result<Shuffle, Refusal>
    ensures { result ≡ seeded values (Some seed.now) }
{
    match seed.number() {
        Some(n) if n <= u128::from(u64::MAX) => Ok(Shuffle::Seed {
            seed: n as u64,
            values,
        }),
        Some(_) => Err(seed.refused(code::SEED_TOO_LARGE)),
        None => Err(seed.refused(code::SEED_TOO_LARGE)),
    }
}

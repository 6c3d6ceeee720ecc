ghost use Rattle.std.specs.Prelude.{◌≡◌, ◌≤◌, ◌<◌, ◌^◌, length, Ok, Err, IfOk, IfErr};
ghost use Rattle.fx_text.specs.Names.{place_of};
ghost use Rattle.fx_effects.specs.Factors.{main_of};
ghost use Rattle.fx_vectors.specs.declared.shape.TheConstants.{MOST_FACTORS};

use fx_base::Bytes;
use fx_language::code;
use fx_text::{Lexeme, Refusal, place_of};
use fx_vectors::Effect;

/// The main effect of the factor with this name.
///
/// # Errors
///
/// E4 at `place`: no factor has it.
pub(crate) fn main_effect(
    factors: &[Bytes],
    place: &Lexeme<'_>,
    name: &[u8],
) -> Result<Effect, Refusal>
    requires { length factors.now ≤ MOST_FACTORS }
    ensures ok { IfOk result (λ e. main_of place.now (place_of name.now factors.now) ≡ Ok e.0) }
    ensures refused { IfErr result (λ refusal.
        main_of place.now (place_of name.now factors.now) ≡ Err refusal) }
{
    match place_of(name, factors) {
        Some(i) => Ok(Effect(bit(i))),
        None => Err(place.refused(code::UNKNOWN_FACTOR)),
    }
}

/// 2^i.
fn bit(i: usize) -> u64
    requires { i < MOST_FACTORS }
    ensures { result ≡ 2 ^ i }
{
    1 << i
}

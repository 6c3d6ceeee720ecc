ghost use Rattle.std.specs.Prelude.{◌≡◌};
ghost use Rattle.std.specs.List.{list_all};
ghost use Rattle.fx_lexer.specs.Bytes.{is_digit};
ghost use Rattle.fx_rules.specs.declared.reading.Stage.TheVariants as stage;
ghost use Rattle.fx_rules.specs.Naming.{place_in};
ghost use Rattle.fx_rules.specs.Building.{and_then, ruled};
ghost use Rattle.fx_rules.specs.Reading.{factor_at, first_at, front_at, is_next, keyword, left_side_at, power_in, run_number, says_run, then_at, worded_at};

use crate::building::Building;
use crate::naming::{is_decimal, place_in};
use crate::problem::Problem;
use crate::reading::{Reading, Stage};
use fx_text::{Names, is_same_name};

/// After a word.
pub(crate) fn word_at(
    stage: Stage,
    factors: &Names,
    word: &[u8],
    building: Building,
) -> Result<Reading, Problem>
    ensures { result ≡ worded_at stage factors.now word.now building }
{
    match stage {
        Stage::Head => keyword(b"rules", Stage::Front, word, building),
        Stage::Front => front_at(place_in(building.shape(), factors, word), word, building),
        Stage::Between => left_side_at(place_in(building.shape(), factors, word), building),
        Stage::Equals => Err(Problem::Form),
        Stage::First => first_word(factors, word, building),
        Stage::Factor => next_rule(factors, word, building),
        Stage::Next => factor_at(place_in(building.shape(), factors, word), building),
        Stage::Power => power_in(word, building),
        Stage::Powered => next_rule(factors, word, building),
        Stage::Whole => next_rule(factors, word, building),
        Stage::RunFactor => keyword(b"factor", Stage::RunNumber, word, building),
        Stage::RunNumber => run_number(word, building),
        Stage::Nothing => Err(Problem::Form),
    }
}

/// This stage is next, where nothing is wrong.
fn then_at(stage: Stage, built: Result<Building, Problem>) -> Result<Reading, Problem>
    ensures { result ≡ then_at stage built }
{
    match built {
        Ok(building) => Ok(Reading { stage, building }),
        Err(problem) => Err(problem),
    }
}

/// After a word that has to be this one.
fn keyword(
    expected: &[u8],
    next: Stage,
    word: &[u8],
    building: Building,
) -> Result<Reading, Problem>
    ensures { result ≡ keyword expected.now next word.now building }
{
    if is_same_name(word, expected) {
        return Ok(Reading {
            stage: next,
            building,
        });
    }
    Err(Problem::Form)
}

/// After the left side of a rule.
fn left_side_at(place: Option<usize>, building: Building) -> Result<Reading, Problem>
    ensures { result ≡ left_side_at place building }
{
    match place {
        Some(place) => then_at(Stage::Equals, building.begun(place)),
        None => Err(Problem::Unknown),
    }
}

/// After the first word behind `rules`.
fn front_at(place: Option<usize>, word: &[u8], building: Building) -> Result<Reading, Problem>
    ensures { result ≡ front_at place word.now building }
{
    if is_same_name(word, b"none") {
        return Ok(Reading {
            stage: Stage::Nothing,
            building,
        });
    }
    left_side_at(place, building)
}

/// After the left side of the rule behind this one.
fn next_rule(factors: &Names, word: &[u8], building: Building) -> Result<Reading, Problem>
    ensures { result ≡ and_then (ruled building) (left_side_at (place_in building.shape factors.now word.now)) }
{
    let place = place_in(building.shape(), factors, word);
    left_side_at(place, building.ruled()?)
}

/// After the first word behind `=`.
fn first_word(factors: &Names, word: &[u8], building: Building) -> Result<Reading, Problem>
    ensures { result ≡ worded_at stage.First factors.now word.now building }
{
    if word == b"0".as_slice() {
        return Ok(Reading {
            stage: Stage::Whole,
            building,
        });
    }
    first_at(place_in(building.shape(), factors, word), word, building)
}

/// After a first word behind `=` that is not `0`.
fn first_at(place: Option<usize>, word: &[u8], building: Building) -> Result<Reading, Problem>
    ensures { result ≡ first_at place word.now building }
{
    if says_run(word, &building) {
        return Ok(Reading {
            stage: Stage::RunFactor,
            building,
        });
    }
    factor_at(place, building)
}

/// Whether the word is `run`, and the rule is that of a block factor.
fn says_run(word: &[u8], building: &Building) -> bool
    ensures { result ≡ says_run word.now building.now }
{
    if is_same_name(word, b"run") {
        return usize::from(building.shape().s) <= building.len();
    }
    false
}

/// After a factor of a product.
fn factor_at(place: Option<usize>, building: Building) -> Result<Reading, Problem>
    ensures { result ≡ factor_at place building }
{
    match place {
        Some(place) => then_at(Stage::Factor, building.times(place)),
        None => Err(Problem::Unknown),
    }
}

/// After a power.
fn power_in(word: &[u8], building: Building) -> Result<Reading, Problem>
    ensures { result ≡ power_in word.now building }
{
    if word.len() != 1 {
        return Err(Problem::Power);
    }
    let c = word[0];
    if c.is_ascii_digit() {
        return then_at(Stage::Powered, building.to_power(c - b'0'));
    }
    Err(Problem::Power)
}

/// After the number of a run factor.
fn run_number(word: &[u8], building: Building) -> Result<Reading, Problem>
    ensures { result ≡ run_number word.now building }
{
    if is_next(word, &building) {
        return then_at(Stage::Between, building.with_index());
    }
    if is_number(word) {
        return Err(Problem::NotNext);
    }
    Err(Problem::Form)
}

/// Whether the word is the number of the next run index.
fn is_next(word: &[u8], building: &Building) -> bool
    ensures { result ≡ is_next word.now building.now }
{
    let count = building.indexes();
    count < usize::from(building.shape().m) && is_decimal(word, count as u64 + 1)
}

/// Whether all bytes are digits.
fn is_number(word: &[u8]) -> bool
    ensures { result ≡ list_all is_digit word.now }
{
    word.iter().all(|b| b.is_ascii_digit())
}

ghost use Rattle.std.specs.Prelude.{◌≡◌};
ghost use Rattle.fx_rules.specs.Building.{and_then, completed, ruled};
ghost use Rattle.fx_rules.specs.Reading.{ended_at, equals_at, power_at, signed, star_at};

use crate::building::Building;
use crate::parts::is_white;
use crate::problem::Problem;
use crate::reading::{Reading, Stage, is_name_byte};

/// After a byte behind a word.
pub(crate) fn sign_at(reading: Reading, b: u8) -> Result<Reading, Problem>
    ensures { result ≡ signed b reading }
{
    if is_name_byte(b) || is_white(b) {
        return Ok(reading);
    }
    let stage = reading.stage;
    match b {
        b'=' => equals_at(stage, reading.building),
        b'*' => star_at(stage, reading.building),
        b'^' => power_at(stage, reading.building),
        _ => Err(Problem::Form),
    }
}

/// After `=`.
fn equals_at(stage: Stage, building: Building) -> Result<Reading, Problem>
    ensures { result ≡ equals_at stage building }
{
    match stage {
        Stage::Equals => Ok(Reading {
            stage: Stage::First,
            building,
        }),
        _ => Err(Problem::Form),
    }
}

/// After `*`.
fn star_at(stage: Stage, building: Building) -> Result<Reading, Problem>
    ensures { result ≡ star_at stage building }
{
    match stage {
        Stage::Factor => Ok(Reading {
            stage: Stage::Next,
            building,
        }),
        Stage::Powered => Ok(Reading {
            stage: Stage::Next,
            building,
        }),
        _ => Err(Problem::Form),
    }
}

/// After `^`.
fn power_at(stage: Stage, building: Building) -> Result<Reading, Problem>
    ensures { result ≡ power_at stage building }
{
    match stage {
        Stage::Factor => Ok(Reading {
            stage: Stage::Power,
            building,
        }),
        _ => Err(Problem::Form),
    }
}

/// At the end of the text.
pub(crate) fn end_at(stage: Stage, building: Building) -> Result<Building, Problem>
    ensures { result ≡ ended_at stage building }
{
    match stage {
        Stage::Front => building.completed(),
        Stage::Between => building.completed(),
        Stage::Nothing => building.completed(),
        Stage::Factor => ruled_and_completed(building),
        Stage::Powered => ruled_and_completed(building),
        Stage::Whole => ruled_and_completed(building),
        _ => Err(Problem::Form),
    }
}

/// With the last rule, and what introduces run indexes behind it.
fn ruled_and_completed(building: Building) -> Result<Building, Problem>
    ensures { result ≡ and_then (ruled building) completed }
{
    building.ruled()?.completed()
}

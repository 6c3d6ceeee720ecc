ghost use Rattle.std.specs.Prelude.{◌≡◌, ◌<◌, ℕ, Option};
ghost use Rattle.fx_vectors.specs.Matrix.{MatrixView};
ghost use Rattle.fx_statements.specs.Endings.{ending_by};
ghost use Rattle.fx_program.specs.Statuses.{met_status, status_of};
ghost use Rattle.fx_program.specs.Output.{worse};

use fx_statements::End;

/// 0 for a design, 1 for none, 2 where the budget ended.
pub(crate) fn status_of(end: End) -> u8
    ensures status { (matrix : Option MatrixView) (count : ℕ)
        → result ≡ status_of (ending_by end matrix count) }
    ensures low { result < 4 }
{
    match end {
        End::Design => 0,
        End::NoDesign => 1,
        End::Budget => 2,
    }
}

/// 1 where a given design does not meet the model of its step; without a model there is nothing to meet.
pub(crate) fn met_status(is_met: Option<bool>) -> u8
    ensures status { result ≡ met_status is_met }
    ensures low { result < 4 }
{
    match is_met {
        None | Some(true) => 0,
        Some(false) => 1,
    }
}

/// The greater of two statuses.
pub fn worse(a: u8, b: u8) -> u8
    ensures { result ≡ worse a b }
{
    if a <= b { b } else { a }
}

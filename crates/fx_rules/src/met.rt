ghost use Rattle.std.specs.Prelude.{◌≡◌, IfOk};
ghost use Rattle.fx_designs.specs.Demands.{is_met};
ghost use Rattle.fx_vectors.specs.Question.{IsValid, requirement_of};
ghost use Rattle.fx_vectors.specs.Shape.{dimensions_of};
ghost use Rattle.fx_rules.specs.Laws.{IsOfRules};

use fx_base::NoMemory;
use fx_search::{Barred, Pruner, forbidden_vectors_of};
use fx_vectors::{Matrix, Question};
use std::alloc::Global;

/// Whether the runs of a matrix that rules give meet what a question asks.
///
/// It is judged as in a search, row by row: no row may be barred by those before it. So the time is that of as many
/// nodes as there are rows, and, where effects are asked for, of the list of their forbidden vectors; for a high
/// resolution over many factors to count the runs would take much longer.
///
/// # Errors
///
/// `NoMemory`.
pub fn are_met(alloc: Global, question: &Question, matrix: &Matrix) -> Result<bool, NoMemory>
    requires valid { IsValid question.now }
    requires given { IsOfRules question.now.shape matrix.now }
    ensures { IfOk result (λ met.
        met
        ≡ is_met (dimensions_of question.now.shape) (requirement_of question.now.demands) matrix.now.rows) }
{
    let words = forbidden_vectors_of(alloc, question)?;
    let mut barred = Barred::of(alloc, question, &words)?;
    for i in 0..matrix.len() {
        let row = matrix.row(i);
        if barred.closes(row) {
            return Ok(false);
        }
        barred.push(row)?;
    }
    Ok(true)
}

ghost use Rattle.std.specs.Prelude.{◌≡◌, [], ◌∷◌, false, true, IfOk};
ghost use Rattle.fx_designs.specs.Problems.{ForEffects};
ghost use Rattle.fx_vectors.specs.Question.{IsValid, problem_of};

use fx_base::NoMemory;
use fx_search::{Cutter, JobEnd, run_job};
use fx_vectors::{Demands, Effect, Effects, Matrix, Question, Shape};
use std::alloc::Global;

/// Four factors of two levels in two runs.
const SHAPE: Shape = Shape {
    q: 2,
    m: 1,
    s: 4,
    t: 0,
};

/// Stops a search at once, or lets it go on.
#[derive(Drop)]
struct Switch {
    off: bool,
}

impl Cutter for Switch {
    ghost stopped = { λ s. s.off };

    ghost may_become = { λ s t. s.off ≡ true → t.off ≡ true };

    fn cut(&mut self) -> bool {
        self.off
    }

    ghost stays = { λ s h. h };

    ghost goes_on = { λ s t u h k stopped. k (h stopped) };

    ghost lasts = { λ s t h stopped. h stopped };
}

/// Asks that A*B can be estimated, so that A or B is at one level.
fn halves(alloc: Global) -> Result<Question, NoMemory>
    ensures valid { IfOk result IsValid }
    ensures shape { IfOk result (λ question. question.shape ≡ record { q = 2; m = 1; s = 4; t = 0 }) }
    ensures problem { IfOk result (λ question. problem_of question
        ≡ record {
          dimensions = record { q = 2; m = 1; s = 4; t = 0 };
          requirement = ForEffects (3 ∷ []) [];
          least = false;
        }) }
{
    let estimate = Effects::from_slice(alloc, &[Effect(3)])?;
    Ok(Question {
        shape: SHAPE,
        demands: Demands::Effects {
            estimate,
            nonnegligible: Effects::new(alloc),
        },
        least: false,
    })
}

/// How many nodes a job took and the rows of its design, or None where it was cut.
fn told(end: &JobEnd) -> Option<(u64, bool)> {
    match end {
        JobEnd::Found {
            matrix,
            nodes,
            marks,
        } => {
            let whole = matrix.len() == 4
                && matrix.row(0) == 1
                && matrix.row(1) == 0
                && matrix.row(2) == 1
                && matrix.row(3) == 1;
            Some((*nodes, whole && marks.len() == 2))
        }
        JobEnd::Closed { .. } => None,
        JobEnd::Spent { nodes } => Some((*nodes, false)),
        JobEnd::Cut => None,
    }
}

/// The limit, whether the cutter is off, and what is told.
const ENDS: [(u64, bool, Option<(u64, bool)>); 4] = [
    (10, false, Some((2, true))),
    (2, false, Some((2, true))),
    (1, false, Some((2, false))),
    (10, true, None),
];

/// The job A, B, C = 1, 0, 1 ends with its first design, 1, 0, 1, 1.
#[test]
fn a_job_ends_at_its_design_or_its_limit_or_is_cut(rt: HostRuntime) -> Result<(), NoMemory> {
    let question = halves(rt.alloc())?;
    let mut job = Matrix::new(SHAPE);
    job.push(1);
    job.push(0);
    job.push(1);
    for (limit, off, expected) in ENDS {
        let mut cutter = Switch { off };
        let end = run_job(
            rt.alloc(),
            &question,
            &job,
            None,
            limit.min(10),
            &mut cutter,
        )?;
        assert!(rt; told(&end) == expected);
    }
    Ok(())
}

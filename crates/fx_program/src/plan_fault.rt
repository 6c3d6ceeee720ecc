use crate::text::TextFault;
use fx_base::NoMemory;
use fx_rules::Problem;
use fx_text::Place;

/// Why a text with rules gives no designs.
#[derive(Debug, Clone, Copy)]
pub enum PlanFault {
    /// The program, which the text is without its rules, is refused.
    Program(TextFault),
    /// The step at this place has no rules of its own, or the rules at this place have no step.
    Apart(Place),
    /// The step of the rules at this place leaves its runs, its blocks or a least pattern to a search.
    Searching(Place),
    /// The first thing that is wrong with the rules of a step, and where.
    Rules(Problem, Place),
}

/// Why no designs are given.
#[derive(Debug, Clone, Copy)]
pub enum PlanStop {
    /// The first fault of the text.
    Fault(PlanFault),
    /// Memory ran out.
    NoMemory,
}

impl From<NoMemory> for PlanStop {
    ghost use Rattle.std.specs.Prelude.{◌≡◌};
    ghost use Rattle.fx_program.specs.declared.plan_fault.PlanStop.TheVariants as stop;

    ghost from_gives = { λ _ e. e ≡ stop.NoMemory };

    fn from(_e: NoMemory) -> PlanStop {
        PlanStop::NoMemory
    }
}

ghost use Rattle.fx_vectors.specs.Shape.{IsShape};
ghost use Rattle.fx_statements.specs.Endings.{HasMatrix, HasMatrix-prop, ending_by};

use fx_vectors::{Books, Matrix, Shape};

/// How the search for a step's design ended.
#[derive(Clone, Copy)]
pub enum End {
    /// With a design that meets what is asked.
    Design,
    /// Without one: no rule matrix at all meets what is asked.
    NoDesign,
    /// With more nodes than the step's budget.
    Budget,
}

/// The outcome of a step. Its shape is within the limits. There is a matrix with `Design`, and there
/// may be one with `Budget`; it has all rows of the shape.
pub struct Outcome {
    pub end: End,
    /// The shape of the matrix, or of the last question where there is none.
    pub shape: Shape,
    /// The design. With `Budget`, the best matrix so far, if any.
    pub matrix: Option<Matrix>,
    /// The number of nodes of all questions, or the budget with `Budget`.
    pub nodes: u64,
    /// The resolution of the question whose answer the matrix is. 0 where there is none, where effects
    /// are asked for, and where the matrix is no answer but the best of a search that was cut short.
    pub reached: u8,
    /// The books of the finished questions.
    pub books: Books,
    ghost shaped: { IsShape shape },
    ghost whole: { HasMatrix shape (ending_by end matrix nodes) matrix } by { HasMatrix-prop shape (ending_by end matrix nodes) matrix },
}

// Not derived, so that a place that drops one is proved with one call.
impl Drop for Outcome {
    fn drop(self) {
        let Outcome {
            end: _,
            shape: _,
            matrix: _,
            nodes: _,
            reached: _,
            books: _,
        } = self;
    }
}

ghost use Rattle.std.specs.Prelude.{◌≡◌, None, Some};
ghost use Rattle.fx_designs.specs.Answers.{answer};
ghost use Rattle.fx_designs.specs.Nodes as nodes;
ghost use Rattle.fx_vectors.specs.Question.{problem_of};
ghost use Rattle.fx_book.specs.QuestionBooks.{beat_of, book_for};

use fx_vectors::{Book, Head, Marks, Pattern, Question};

/// The book of a question without an answer, of which these are the marks.
pub fn absence_book(question: Question, marks: Marks) -> Book
    requires none { answer (problem_of question) ≡ None }
    requires marks { marks ≡ nodes.marks (problem_of question) }
    ensures { result ≡ book_for (problem_of question) }
{
    let question = Question {
        shape: question.shape,
        demands: question.demands,
        least: false,
    };
    let head = Head {
        question,
        beat: None,
    };
    Book { head, marks }
}

/// The book of a question for a least pattern, of which this is the pattern of the answer, and these
/// are the marks.
pub fn least_book(question: Question, pattern: Pattern, marks: Marks) -> Book
    requires pattern { beat_of (problem_of question) ≡ Some pattern }
    requires marks { marks ≡ nodes.marks (problem_of question) }
    ensures { result ≡ book_for (problem_of question) }
{
    let head = Head {
        question,
        beat: Some(pattern),
    };
    Book { head, marks }
}

ghost use Rattle.std.specs.Prelude.{◌≡◌, ◌≤◌, ◌+◌, ◌-◌, [], ◌∷◌, ◌++◌, None, Some, OnOk};
ghost use Rattle.fx_designs.specs.Answers.{answer};
ghost use Rattle.fx_designs.specs.Nodes as nodes;
ghost use Rattle.fx_vectors.specs.Question.{problem_of};
ghost use Rattle.fx_statements.specs.Steps.{meaning_of};
ghost use Rattle.fx_statements.specs.Questions.{highest, lowest};
ghost use Rattle.fx_answer.specs.Books.{book_at};

use crate::question::lowest;
use fx_base::NoMemory;
use fx_book::{absence_book, least_book};
use fx_statements::Step;
use fx_vectors::{Book, Books, Marks, Matrix, NamedBook, Question};
use fx_words::pattern_of;
use std::alloc::Global;

/// Which of the questions of a step is that for `n`, counted from 1.
pub(crate) fn question_number(step: &Step, n: u8) -> u32
    requires { lowest (meaning_of step.now) step.now.settings.size ≤ n }
    ensures { result ≡ 1 + (n - lowest (meaning_of step.now) step.now.settings.size) }
{
    1 + u32::from(n - lowest(step))
}

/// Adds the book of a question without an answer, of which these are the marks.
///
/// # Errors
///
/// `NoMemory`.
pub(crate) fn add_absence(
    books: &mut Books,
    number: u32,
    question: Question,
    marks: Marks,
) -> Result<(), NoMemory>
    requires none { answer (problem_of question) ≡ None }
    requires marks { marks ≡ nodes.marks (problem_of question) }
    ensures { OnOk result (books.new ≡ books.old ++ book_at number (problem_of question)) }
{
    add(books, number, absence_book(question, marks))
}

/// Adds the book of a question that has this answer, where a least pattern is asked.
///
/// # Errors
///
/// `NoMemory`.
pub(crate) fn add_answer(
    alloc: Global,
    books: &mut Books,
    number: u32,
    question: Question,
    matrix: &Matrix,
    marks: Marks,
) -> Result<(), NoMemory>
    requires answer { answer (problem_of question) ≡ Some matrix.now.rows }
    requires shape { matrix.now.shape ≡ question.shape }
    requires marks { marks ≡ nodes.marks (problem_of question) }
    ensures { OnOk result (books.new ≡ books.old ++ book_at number (problem_of question)) }
{
    if !question.least {
        return Ok(());
    }
    let pattern = pattern_of(alloc, matrix)?;
    add(books, number, least_book(question, pattern, marks))
}

fn add(books: &mut Books, number: u32, book: Book) -> Result<(), NoMemory>
    ensures { OnOk result (books.new ≡ books.old ++ record { question = number; book = book } ∷ []) }
{
    books.push(NamedBook {
        question: number,
        book,
    })
}

ghost use Rattle.std.specs.Prelude.{◌≡◌, ◌<◌, ◌≤◌, IfOk, Some, length};
ghost use Rattle.fx_designs.specs.Answers.{answer};
ghost use Rattle.fx_designs.specs.Nodes as nodes;
ghost use Rattle.fx_vectors.specs.Shape.{IsShape};
ghost use Rattle.fx_catalogue.specs.Lines.{line_of, problem_at, question_of};
ghost use Rattle.fx_catalogue.specs.Listing.{IsShort};

use fx_base::NoMemory;
use fx_board::{Gate, ask};
use fx_book::{absence_book, least_book};
use fx_search::Asked;
use fx_vectors::{Book, Demands, Marks, Matrix, Pattern, Question, Shape};
use fx_words::pattern_of;
use std::alloc::Global;
use std::thread::Threads;

/// What a catalogue has for one number of factors.
#[derive(Drop)]
pub enum Line {
    /// The first canonical matrix of least pattern among those of resolution 3 or more, its word-length
    /// pattern, the number of nodes of the question, and the book that none has a less pattern.
    Least {
        matrix: Matrix,
        pattern: Pattern,
        nodes: u64,
        book: Book,
    },
    /// No rule matrix has resolution 3: the number of nodes, and the book that proves it.
    Nothing {
        nodes: u64,
        book: Book,
    },
    /// The question has more nodes than the budget.
    Budget,
}

/// The line of a shape without block factors and with more factors than run indexes, by 1 to 64 threads.
/// The budget is at most 5,000,000 nodes. Minimum aberration is that of Fries and Hunter.
///
/// # Errors
///
/// `NoMemory`.
pub fn least_line<R: Threads + Sync, G: Gate>(
    rt: &R,
    alloc: Global,
    shape: Shape,
    budget: u64,
    threads: u8,
    gate: &G,
) -> Result<Line, NoMemory>
    requires shaped { IsShape shape }
    requires no_blocks { shape.t ≡ 0 }
    requires dependent { shape.m < shape.s }
    requires budget { budget ≤ 5000000 }
    requires threads { (0 < threads) × (threads ≤ 64) }
    ensures line { IfOk result (λ line. line ≡ line_of shape budget) }
    ensures short { IfOk result IsShort }
{
    let question = question_of(shape);
    match ask(rt, alloc, &question, budget, threads, gate)? {
        Asked::Found {
            matrix,
            nodes,
            marks,
        } => least(alloc, budget, matrix, nodes, marks),
        Asked::Nothing { nodes, marks } => Ok(Line::Nothing {
            nodes,
            book: absence_book(question, marks),
        }),
        Asked::Budget { best: _ } => Ok(Line::Budget),
    }
}

/// The question of a line.
fn question_of(shape: Shape) -> Question
    ensures { result ≡ question_of shape }
{
    Question {
        shape,
        demands: Demands::Resolution { r: 3 },
        least: true,
    }
}

/// The line of a matrix that answers its question, with the marks of the question's nodes.
fn least(
    alloc: Global,
    budget: u64,
    matrix: Matrix,
    count: u64,
    marks: Marks,
) -> Result<Line, NoMemory>
    requires answer { answer (problem_at matrix.shape) ≡ Some matrix.rows }
    requires count { count ≡ length (nodes.nodes (problem_at matrix.shape)) }
    requires marks { marks ≡ nodes.marks (problem_at matrix.shape) }
    requires within { count ≤ budget }
    ensures { IfOk result (λ line. line ≡ line_of matrix.shape budget) }
{
    let pattern = pattern_of(alloc, &matrix)?;
    let beat = Pattern::from_slice(alloc, pattern.as_slice())?;
    let book = least_book(question_of(matrix.shape()), beat, marks);
    Ok(Line::Least {
        matrix,
        pattern,
        nodes: count,
        book,
    })
}

ghost use Rattle.std.specs.Prelude.{◌≡◌, ◌≤◌, ◌+◌, ◌^◌, IsTrue, length};
ghost use Rattle.fx_vectors.specs.Shape.{IsShape};

use fx_alias::{
    BlockMarks, alias_listing, blocked_listing, design_listing, head_listing, pattern_listing,
    rules_listing,
};
use fx_base::Bytes;
use fx_lexer::lex;
use fx_statements::{End, Outcome, Program, Step, parse};
use fx_vectors::{Books, Matrix, Shape};
use std::alloc::Global;
use std::process::Abort;

// The expected sections were computed apart from this program, in Python, from the runs alone.

/// The program of this text.
pub fn program_of(rt: &impl Abort, alloc: Global, text: &[u8]) -> Program {
    assert!(rt; text.len() <= 1_048_576);
    let tokens = lex(alloc, text).expect(rt, "tokens");
    parse(alloc, text, &tokens).expect(rt, "a program")
}

/// A rule matrix of these rows.
pub fn matrix_of(rt: &impl Abort, shape: Shape, rows: &[u16]) -> Matrix
    requires { IsShape shape }
{
    let mut matrix = Matrix::new(shape);
    for row in rows {
        push(rt, &mut matrix, *row);
    }
    matrix
}

pub fn push(rt: &impl Abort, matrix: &mut Matrix, row: u16) {
    let shape = matrix.shape();
    assert!(rt; matrix.len() < shape.rows());
    assert!(rt; row < shape.runs());
    matrix.push(row);
}

/// Whether there are at most 1,024 blocks.
pub fn are_few(shape: Shape) -> bool
    ensures { IsTrue result → shape.q ^ shape.t ≤ 1024 }
{
    match u16::from(shape.q).checked_pow(u32::from(shape.t)) {
        Some(count) => count <= 1024,
        None => false,
    }
}

/// Whether a matrix has a row for each factor of the step and of its blocks.
pub fn is_for(matrix: &Matrix, step: &Step) -> bool
    ensures complete { IsTrue result
        → length matrix.now.rows ≡ matrix.now.shape.s + matrix.now.shape.t }
    ensures factors { IsTrue result → matrix.now.shape.s ≡ length step.now.factors }
{
    let shape = matrix.shape();
    matrix.len() == shape.rows() && usize::from(shape.s) == step.factors.len()
}

/// Whether the aliases of a design of a step are these.
fn step_has_aliases(
    rt: &impl Abort,
    alloc: Global,
    step: &Step,
    matrix: &Matrix,
    expected: &str,
) -> bool {
    assert!(rt; is_for(matrix, step));
    let mut out = Bytes::new(alloc);
    alias_listing(alloc, BlockMarks::Without, step, matrix, &mut out).expect(rt, "memory");
    out.as_slice() == expected.as_bytes()
}

/// Tests that the aliases of a design of the text's only step are these.
fn has_aliases(rt: &impl Abort, alloc: Global, text: &str, matrix: &Matrix, expected: &str) {
    let program = program_of(rt, alloc, text.as_bytes());
    assert!(rt; program.len() == 1);
    let is_so = step_has_aliases(rt, alloc, program.get(0), matrix, expected);
    assert!(rt; is_so, "{text}");
}

#[test]
fn classes_of_two_levels(rt: HostRuntime) {
    let alloc = rt.alloc();
    let half = Shape {
        q: 2,
        m: 2,
        s: 3,
        t: 0,
    };
    let text = "proc factex; factors A B C; size design=4; model resolution=3;";
    let matrix = matrix_of(&rt, half, &[1, 2, 3]);
    has_aliases(
        &rt,
        alloc,
        text,
        &matrix,
        "aliasing\n  A = B*C\n  B = A*C\n  C = A*B\n",
    );
    // A and C have the same levels.
    let matrix = matrix_of(&rt, half, &[1, 2, 1]);
    has_aliases(
        &rt,
        alloc,
        text,
        &matrix,
        "aliasing\n  mean = A*C\n  A = C\n  B\n  A*B = B*C\n",
    );
}

/// C = A*B and D = A^2*B, of which effects of three factors are named.
#[test]
fn classes_of_three_levels(rt: HostRuntime) {
    let alloc = rt.alloc();
    let ninth = Shape {
        q: 3,
        m: 2,
        s: 4,
        t: 0,
    };
    let matrix = matrix_of(&rt, ninth, &[1, 3, 4, 5]);
    let text = "proc factex; factors A B C D / nlev=3; size design=9; \
model estimate=(A) nonneg=(B*C*D);";
    has_aliases(
        &rt,
        alloc,
        text,
        &matrix,
        "aliasing
  mean = A^2*B^2*C = A*B^2*D = A^2*C^2*D = B*C*D
  A = B^2*C = B^2*D = C^2*D = A*B^2*C = A^2*B^2*D = A*C^2*D
  B = A^2*C = A*D = C*D = A^2*B*C = A*B*D = B^2*C*D
  C = A*B = A^2*D = B*D = A*B*C = A^2*C*D = B*C^2*D
  D = A^2*B = A*C = B*C = A^2*B*D = A*C*D = B^2*C^2*D
",
    );
}

/// A sum is a multiple of another by 2 or 3 in the field of four codes.
#[test]
fn classes_of_four_levels(rt: HostRuntime) {
    let alloc = rt.alloc();
    let quarter = Shape {
        q: 4,
        m: 2,
        s: 3,
        t: 0,
    };
    let matrix = matrix_of(&rt, quarter, &[1, 4, 9]);
    let text = "proc factex; factors A B C / nlev=4; size design=16; model resolution=3;";
    has_aliases(
        &rt,
        alloc,
        text,
        &matrix,
        "aliasing
  A = B^2*C
  B = A*C
  C = A^3*B
  A*B = A^3*C = B^3*C
  A^2*B = A^2*C = B*C
",
    );
}

/// Appends the head of a step whose outcome has this matrix.
fn put_head(
    rt: &impl Abort,
    alloc: Global,
    step: &Step,
    end: End,
    matrix: Matrix,
    nodes: u64,
    out: &mut Bytes,
) {
    assert!(rt; end != End::NoDesign);
    assert!(rt; matrix.len() == matrix.shape().rows());
    let shape = matrix.shape();
    let outcome = Outcome {
        end,
        shape,
        matrix: Some(matrix),
        nodes,
        reached: 0,
        books: Books::new(alloc),
    };
    head_listing(alloc, 1, step, &outcome, out).expect(rt, "memory");
}

/// Whether the rules and the head of a step's outcome with this matrix are these.
fn has_rules_and_head(
    rt: &impl Abort,
    alloc: Global,
    step: &Step,
    end: End,
    matrix: Matrix,
    nodes: u64,
    expected: &str,
) -> bool {
    assert!(rt; is_for(&matrix, step));
    let mut out = Bytes::new(alloc);
    rules_listing(alloc, step, &matrix, &mut out).expect(rt, "memory");
    put_head(rt, alloc, step, end, matrix, nodes, &mut out);
    out.as_slice() == expected.as_bytes()
}

/// The rules and the head of nine runs in nine blocks.
const NINE_BLOCKS: &str = "\
rules
  C = A*B
  [1] = run factor 3
  [2] = B^2*[1]
step 1
factors 3 levels 3
budget ended after 30 nodes
design 27 runs in 9 blocks not proved best
resolution 3
";

/// Nine runs in nine blocks: the second block factor is a run factor of its own.
#[test]
fn block_factors_are_ruled(rt: HostRuntime) {
    let alloc = rt.alloc();
    let text = "proc factex; factors A B C / nlev=3; size design=27; \
model estimate=(A); blocks nblocks=9;";
    let in_blocks = Shape {
        q: 3,
        m: 3,
        s: 3,
        t: 2,
    };
    let matrix = matrix_of(&rt, in_blocks, &[1, 3, 4, 9, 15]);
    let program = program_of(&rt, alloc, text.as_bytes());
    assert!(rt; program.len() == 1);
    let step = program.get(0);
    assert!(rt; has_rules_and_head(&rt, alloc, step, End::Budget, matrix, 30, NINE_BLOCKS));
}

/// Whether the head of a step without a design, in at most 729 runs, is this.
fn has_head_of_none(rt: &impl Abort, alloc: Global, step: &Step, expected: &str) -> bool {
    let outcome = Outcome {
        end: End::NoDesign,
        shape: Shape {
            q: 3,
            m: 6,
            s: 2,
            t: 1,
        },
        matrix: None,
        nodes: 50,
        reached: 0,
        books: Books::new(alloc),
    };
    let mut out = Bytes::new(alloc);
    head_listing(alloc, 1, step, &outcome, &mut out).expect(rt, "memory");
    out.as_slice() == expected.as_bytes()
}

#[test]
fn no_design_of_the_least_size(rt: HostRuntime) {
    let text = "proc factex; factors A B / nlev=3; size design=min; model resolution=3; \
blocks nblocks=3;";
    let head = "step 1\nfactors 2 levels 3\nno design in at most 729 runs\nnodes 50\n";
    let program = program_of(&rt, rt.alloc(), text.as_bytes());
    assert!(rt; program.len() == 1);
    assert!(rt; has_head_of_none(&rt, rt.alloc(), program.get(0), head));
}

/// Whether the runs of a design of a step and what is confounded with blocks are these.
fn has_runs_and_blocked(
    rt: &impl Abort,
    alloc: Global,
    step: &Step,
    matrix: &Matrix,
    expected: &str,
) -> bool {
    assert!(rt; is_for(matrix, step));
    assert!(rt; are_few(matrix.shape()));
    let mut out = Bytes::new(alloc);
    design_listing(alloc, step, matrix, &mut out).expect(rt, "memory");
    blocked_listing(alloc, step, matrix, &mut out).expect(rt, "memory");
    out.as_slice() == expected.as_bytes()
}

/// The runs of a design in four blocks, and what is confounded with them.
const FOUR_BLOCKS: &str = "\
points BLOCK A B C
  1 1 -1 -1 -1
  2 4 -1 -1 1
  3 2 -1 1 -1
  4 3 -1 1 1
  5 3 1 -1 -1
  6 2 1 -1 1
  7 4 1 1 -1
  8 1 1 1 1
blocked
  A*B
  A*C
  B*C
";

/// The rules and the head of that design.
const FOUR_BLOCKS_HEAD: &str = "\
rules
  [1] = B*C
  [2] = A*C
step 1
factors 3 levels 2
design 8 runs in 4 blocks
no defining words
nodes 16
";

/// Eight runs in four blocks, by B*C and A*C.
#[test]
fn a_design_in_blocks_is_listed(rt: HostRuntime) {
    let alloc = rt.alloc();
    let in_blocks = Shape {
        q: 2,
        m: 3,
        s: 3,
        t: 2,
    };
    let aliases = "aliasing\n  A\n  B\n  C\n  A*B\n  A*C\n  B*C\n";
    let text = "proc factex; factors A B C; size design=8; model resolution=3; blocks nblocks=4;";
    let matrix = matrix_of(&rt, in_blocks, &[1, 2, 4, 6, 5]);
    let program = program_of(&rt, alloc, text.as_bytes());
    assert!(rt; program.len() == 1);
    let step = program.get(0);
    assert!(rt; has_runs_and_blocked(&rt, alloc, step, &matrix, FOUR_BLOCKS));
    assert!(rt; step_has_aliases(&rt, alloc, step, &matrix, aliases));
    assert!(rt; has_rules_and_head(&rt, alloc, step, End::Design, matrix, 16, FOUR_BLOCKS_HEAD));
}

#[test]
fn without_blocks_nothing_is_confounded(rt: HostRuntime) {
    let thirds = Shape {
        q: 3,
        m: 1,
        s: 2,
        t: 0,
    };
    let expected = "points Speed Feed\n  1 -1 -1\n  2 0 0\n  3 1 1\nblocked\n  none\n";
    let text = "proc factex; factors Speed Feed / nlev=3; size design=3; model resolution=3;";
    let matrix = matrix_of(&rt, thirds, &[1, 1]);
    let program = program_of(&rt, rt.alloc(), text.as_bytes());
    assert!(rt; program.len() == 1);
    assert!(rt; has_runs_and_blocked(&rt, rt.alloc(), program.get(0), &matrix, expected));
}

/// Whether the word-length pattern of a matrix is listed so.
fn has_pattern(rt: &impl Abort, alloc: Global, matrix: &Matrix, expected: &str) -> bool {
    let mut out = Bytes::new(alloc);
    pattern_listing(alloc, matrix, &mut out).expect(rt, "memory");
    out.as_slice() == expected.as_bytes()
}

#[test]
fn word_length_patterns_are_listed(rt: HostRuntime) {
    let shape = Shape {
        q: 2,
        m: 3,
        s: 5,
        t: 0,
    };
    // The words are ABD, ACE and BCDE.
    let fraction = matrix_of(&rt, shape, &[1, 2, 4, 3, 5]);
    assert!(rt; has_pattern(&rt, rt.alloc(), &fraction, "aberration\n  A3 2\n  A4 1\n"));
    let full = matrix_of(&rt, Shape { s: 3, ..shape }, &[1, 2, 4]);
    assert!(rt; has_pattern(&rt, rt.alloc(), &full, "aberration\n  none\n"));
}

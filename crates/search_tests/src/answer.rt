ghost use Rattle.std.specs.Prelude.{◌<◌, ◌≤◌};

use fx_answer::answer;
use fx_base::{Bytes, put, put_number};
use fx_board::{FreeGate, Gate};
use fx_lexer::lex;
use fx_statements::{End, Outcome, Program, Step, parse};
use fx_vectors::Matrix;
use std::alloc::Global;
use std::process::Abort;
use std::sync::atomic::{AtomicU64, Ordering};
use std::thread::Threads;

// The questions of each step, their nodes and their answers were computed apart from this program, in
// Python, from the definitions; those of the least pattern are of its documents.

/// What a step ends with: how, the m of q^m runs, the number of block factors, the rows, if any, the
/// number of nodes, and the resolution that was reached, or 0.
type Ended = (End, u8, u8, &'static [u16], u64, u8);

/// A step of fixed resolution: its question has 4 nodes.
const FIXED: &str = ";factors A B C D;size design=8;model resolution=4;";

/// Effects: 4 nodes.
const EFFECTS: &str = ";factors A B C D;size design=8;model estimate=(A B C A*B);";

/// The highest resolution: 5 nodes at resolution 3, which has a design, and 10 at 4, which has none.
const HIGHEST: &str = ";factors A B C D E;size design=8;model resolution=max;";

/// The least size: 1, 3, 10 and 17 nodes in 2, 4, 8 and 16 runs, of which only the last has a design.
const LEAST_SIZE: &str = ";factors A B C D E F;size design=min;model resolution=4;";

/// The least size in two blocks: 1, 7 and 4 nodes.
const LEAST_IN_BLOCKS: &str = ";factors A B C;size design=min;model resolution=3;blocks nblocks=2;";

/// The least size in blocks of two runs: 7 nodes in 4 runs, and 16 in 8.
const LEAST_IN_PAIRS: &str = ";factors A B C;size design=min;model resolution=3;blocks size=2;";

/// Two blocks: 4 nodes.
const TWO_BLOCKS: &str = ";factors A B C;size design=8;model resolution=3;blocks nblocks=2;";

/// The most blocks: 4, 16 and 91 nodes with 1, 2 and 3 block factors, of which the last has no design.
const MOST_BLOCKS: &str = ";factors A B C;size design=8;model resolution=3;blocks nblkfacs=max;";

/// The highest resolution in two blocks: 4 nodes at resolution 3 and 4 at 4, the last; both have a
/// design.
const CLEAR_OF_TWO_BLOCKS: &str =
    ";factors A B C;size design=8;model resolution=max;blocks nblocks=2;";

/// The highest resolution in four blocks: 9, 9 and 100 nodes at resolution 3, 4 and 5, of which the last
/// has no design.
const CLEAR_OF_FOUR_BLOCKS: &str = ";factors A B C D;size design=16;blocks nblocks=4;";

/// The least pattern: 282 nodes. The first lot ends with its 24th, the second with the 55th.
const LEAST_PATTERN: &str = ";factors A B C D E F G;size design=32;model resolution=max/minabs;";

/// X3 and X4 are free, and the rows of the ten after them have to be 0, which thousands of vectors say of the last.
const CONSTANT: &str =
    ";factors X1-X15;size design=4;model e=(X1|X2) n=(X5|X6|X7|X8|X9|X10|X11|X12|X13|X14 X15 X15*X1);";

const STEPS: &[(&str, u64, Ended)] = &[
    (FIXED, 3, (End::Budget, 3, 0, &[], 3, 0)),
    (FIXED, 4, (End::Design, 3, 0, &[1, 2, 4, 7], 4, 4)),
    (FIXED, 5, (End::Design, 3, 0, &[1, 2, 4, 7], 4, 4)),
    (EFFECTS, 3, (End::Budget, 3, 0, &[], 3, 0)),
    (EFFECTS, 4, (End::Design, 3, 0, &[1, 2, 4, 7], 4, 0)),
    (EFFECTS, 5, (End::Design, 3, 0, &[1, 2, 4, 7], 4, 0)),
    (HIGHEST, 4, (End::Budget, 3, 0, &[], 4, 0)),
    (HIGHEST, 5, (End::Budget, 3, 0, &[1, 2, 4, 7, 6], 5, 3)),
    (HIGHEST, 6, (End::Budget, 3, 0, &[1, 2, 4, 7, 6], 6, 3)),
    (HIGHEST, 14, (End::Budget, 3, 0, &[1, 2, 4, 7, 6], 14, 3)),
    (HIGHEST, 15, (End::Design, 3, 0, &[1, 2, 4, 7, 6], 15, 3)),
    (HIGHEST, 16, (End::Design, 3, 0, &[1, 2, 4, 7, 6], 15, 3)),
    (LEAST_SIZE, 1, (End::Budget, 2, 0, &[], 1, 0)),
    (LEAST_SIZE, 2, (End::Budget, 2, 0, &[], 2, 0)),
    (LEAST_SIZE, 3, (End::Budget, 2, 0, &[], 3, 0)),
    (LEAST_SIZE, 4, (End::Budget, 3, 0, &[], 4, 0)),
    (LEAST_SIZE, 5, (End::Budget, 3, 0, &[], 5, 0)),
    (LEAST_SIZE, 13, (End::Budget, 3, 0, &[], 13, 0)),
    (LEAST_SIZE, 14, (End::Budget, 4, 0, &[], 14, 0)),
    (LEAST_SIZE, 15, (End::Budget, 4, 0, &[], 15, 0)),
    (LEAST_SIZE, 30, (End::Budget, 4, 0, &[], 30, 0)),
    (
        LEAST_SIZE,
        31,
        (End::Design, 4, 0, &[1, 2, 4, 8, 14, 13], 31, 4),
    ),
    (
        LEAST_SIZE,
        32,
        (End::Design, 4, 0, &[1, 2, 4, 8, 14, 13], 31, 4),
    ),
    (LEAST_IN_BLOCKS, 11, (End::Budget, 3, 1, &[], 11, 0)),
    (
        LEAST_IN_BLOCKS,
        12,
        (End::Design, 3, 1, &[1, 2, 4, 7], 12, 3),
    ),
    (LEAST_IN_PAIRS, 6, (End::Budget, 2, 1, &[], 6, 0)),
    (LEAST_IN_PAIRS, 7, (End::Budget, 3, 2, &[], 7, 0)),
    (LEAST_IN_PAIRS, 22, (End::Budget, 3, 2, &[], 22, 0)),
    (
        LEAST_IN_PAIRS,
        23,
        (End::Design, 3, 2, &[1, 2, 4, 6, 5], 23, 3),
    ),
    (TWO_BLOCKS, 3, (End::Budget, 3, 1, &[], 3, 0)),
    (TWO_BLOCKS, 4, (End::Design, 3, 1, &[1, 2, 4, 7], 4, 3)),
    (TWO_BLOCKS, 5, (End::Design, 3, 1, &[1, 2, 4, 7], 4, 3)),
    (MOST_BLOCKS, 3, (End::Budget, 3, 1, &[], 3, 0)),
    (MOST_BLOCKS, 4, (End::Budget, 3, 1, &[1, 2, 4, 7], 4, 3)),
    (MOST_BLOCKS, 19, (End::Budget, 3, 1, &[1, 2, 4, 7], 19, 3)),
    (
        MOST_BLOCKS,
        20,
        (End::Budget, 3, 2, &[1, 2, 4, 6, 5], 20, 3),
    ),
    (
        MOST_BLOCKS,
        21,
        (End::Budget, 3, 2, &[1, 2, 4, 6, 5], 21, 3),
    ),
    (
        MOST_BLOCKS,
        110,
        (End::Budget, 3, 2, &[1, 2, 4, 6, 5], 110, 3),
    ),
    (
        MOST_BLOCKS,
        111,
        (End::Design, 3, 2, &[1, 2, 4, 6, 5], 111, 3),
    ),
    (
        MOST_BLOCKS,
        112,
        (End::Design, 3, 2, &[1, 2, 4, 6, 5], 111, 3),
    ),
    (CLEAR_OF_TWO_BLOCKS, 3, (End::Budget, 3, 1, &[], 3, 0)),
    (
        CLEAR_OF_TWO_BLOCKS,
        4,
        (End::Budget, 3, 1, &[1, 2, 4, 7], 4, 3),
    ),
    (
        CLEAR_OF_TWO_BLOCKS,
        5,
        (End::Budget, 3, 1, &[1, 2, 4, 7], 5, 3),
    ),
    (
        CLEAR_OF_TWO_BLOCKS,
        7,
        (End::Budget, 3, 1, &[1, 2, 4, 7], 7, 3),
    ),
    (
        CLEAR_OF_TWO_BLOCKS,
        8,
        (End::Design, 3, 1, &[1, 2, 4, 7], 8, 4),
    ),
    (
        CLEAR_OF_TWO_BLOCKS,
        9,
        (End::Design, 3, 1, &[1, 2, 4, 7], 8, 4),
    ),
    (CLEAR_OF_FOUR_BLOCKS, 8, (End::Budget, 4, 2, &[], 8, 0)),
    (
        CLEAR_OF_FOUR_BLOCKS,
        9,
        (End::Budget, 4, 2, &[1, 2, 4, 8, 15, 12], 9, 3),
    ),
    (
        CLEAR_OF_FOUR_BLOCKS,
        10,
        (End::Budget, 4, 2, &[1, 2, 4, 8, 15, 12], 10, 3),
    ),
    (
        CLEAR_OF_FOUR_BLOCKS,
        17,
        (End::Budget, 4, 2, &[1, 2, 4, 8, 15, 12], 17, 3),
    ),
    (
        CLEAR_OF_FOUR_BLOCKS,
        18,
        (End::Budget, 4, 2, &[1, 2, 4, 8, 15, 12], 18, 4),
    ),
    (
        CLEAR_OF_FOUR_BLOCKS,
        19,
        (End::Budget, 4, 2, &[1, 2, 4, 8, 15, 12], 19, 4),
    ),
    (
        CLEAR_OF_FOUR_BLOCKS,
        117,
        (End::Budget, 4, 2, &[1, 2, 4, 8, 15, 12], 117, 4),
    ),
    (
        CLEAR_OF_FOUR_BLOCKS,
        118,
        (End::Design, 4, 2, &[1, 2, 4, 8, 15, 12], 118, 4),
    ),
    (
        CLEAR_OF_FOUR_BLOCKS,
        119,
        (End::Design, 4, 2, &[1, 2, 4, 8, 15, 12], 118, 4),
    ),
    (LEAST_PATTERN, 30, (End::Budget, 5, 0, &[], 30, 0)),
    (
        LEAST_PATTERN,
        55,
        (End::Budget, 5, 0, &[1, 2, 4, 8, 16, 31, 28], 55, 0),
    ),
    (
        LEAST_PATTERN,
        56,
        (End::Budget, 5, 0, &[1, 2, 4, 8, 16, 30, 29], 56, 0),
    ),
    (
        LEAST_PATTERN,
        281,
        (End::Budget, 5, 0, &[1, 2, 4, 8, 16, 30, 29], 281, 0),
    ),
    (
        LEAST_PATTERN,
        282,
        (End::Design, 5, 0, &[1, 2, 4, 8, 16, 30, 29], 282, 3),
    ),
    (
        ";factors A B C D E;size design=8;model resolution=4;",
        10,
        (End::NoDesign, 3, 0, &[], 10, 0),
    ),
    (CONSTANT, 728, (End::Budget, 2, 0, &[], 728, 0)),
    (CONSTANT, 729, (End::NoDesign, 2, 0, &[], 729, 0)),
    (CONSTANT, 730, (End::NoDesign, 2, 0, &[], 729, 0)),
];

/// The text of a step with this budget.
pub(crate) fn text_of(rt: &impl Abort, alloc: Global, budget: u64, step: &str) -> Bytes {
    let mut text = Bytes::from_slice(alloc, b"proc factex nodes=").expect(rt, "memory");
    put_number(&mut text, u128::from(budget)).expect(rt, "memory");
    put(&mut text, step.as_bytes()).expect(rt, "memory");
    text
}

/// The program of a text.
pub(crate) fn program_of(rt: &impl Abort, alloc: Global, text: &[u8]) -> Program {
    assert!(rt; text.len() <= 1_048_576);
    let tokens = lex(alloc, text).expect(rt, "tokens");
    parse(alloc, text, &tokens).expect(rt, "a program")
}

/// Whether these are the rows of a matrix, or there are none of both.
fn has_rows(matrix: &Option<Matrix>, rows: &[u16]) -> bool {
    let Some(matrix) = matrix else {
        return rows.is_empty();
    };
    for (i, row) in rows.iter().enumerate() {
        if i >= matrix.len() || matrix.row(i) != *row {
            return false;
        }
    }
    matrix.len() == rows.len()
}

/// Whether an outcome is this one.
fn has_ended(outcome: &Outcome, (end, m, t, rows, nodes, reached): Ended) -> bool {
    outcome.end == end
        && outcome.shape.m == m
        && outcome.shape.t == t
        && outcome.nodes == nodes
        && outcome.reached == reached
        && has_rows(&outcome.matrix, rows)
}

/// Whether a step ends so, by so many threads.
fn step_ends_so<R: Abort + Threads + Sync>(
    rt: &R,
    alloc: Global,
    step: &Step,
    threads: u8,
    expected: Ended,
) -> bool
    requires { (0 < threads) × (threads ≤ 64) }
{
    let outcome = answer(rt, alloc, step, threads, &FreeGate).expect(rt, "memory");
    has_ended(&outcome, expected)
}

/// Whether the step of a text ends so by one thread and by three.
fn ends_so<R: Abort + Threads + Sync>(rt: &R, alloc: Global, text: &[u8], expected: Ended) -> bool {
    let program = program_of(rt, alloc, text);
    match program.as_slice() {
        [step] => step_ends_so(rt, alloc, step, 1, expected)
            && step_ends_so(rt, alloc, step, 3, expected),
        _ => false,
    }
}

/// Tests that each step ends so within its budget.
fn all_end_so<R: Threads + Sync + Abort>(rt: &R, alloc: Global, cases: &[(&str, u64, Ended)]) {
    for (step, budget, expected) in cases {
        let text = text_of(rt, alloc, *budget, step);
        assert!(rt;
            ends_so(rt, alloc, text.as_slice(), *expected),
            "{budget}{step}"
        );
    }
}

#[test]
fn budgets_end_at_the_last_node_of_each_question(rt: HostRuntime) {
    all_end_so(&rt, rt.alloc(), STEPS);
}

/// Holds each piece of a search for a while, until two have been in hand at one time.
#[derive(Drop)]
struct Waiting {
    in_hand: AtomicU64,
    met: AtomicU64,
}

/// How often a held piece looks for another, before it goes on alone. The first pieces are walked by one
/// thread, so each of these is held in vain.
const LOOKS: u64 = 20_000_000;

impl Gate for Waiting {
    fn began(&self, _n: u64) {
        if self.in_hand.fetch_add(1, Ordering::SeqCst) != 0 {
            self.met.store(1, Ordering::SeqCst);
        }
        for _look in 0..LOOKS {
            if self.met.load(Ordering::SeqCst) == 1 {
                return;
            }
        }
    }

    fn ended(&self, _end: &fx_board::Ended) {
        self.in_hand.fetch_sub(1, Ordering::SeqCst);
    }
}

/// Steps with many nodes: without a least pattern, and with one.
const LARGE: [&str; 2] = [
    ";factors X1-X20;size design=128;model resolution=5;",
    ";factors X1-X12;size design=64;model resolution=max/minabs;",
];

/// Whether two threads work side by side on a step whose nodes are more than its budget.
fn is_shared<R: Threads + Sync + Abort>(rt: &R, alloc: Global, step: &str) -> bool {
    let text = text_of(rt, alloc, 100_000, step);
    let program = program_of(rt, alloc, text.as_slice());
    let gate = Waiting {
        in_hand: AtomicU64::new(0),
        met: AtomicU64::new(0),
    };
    match program.as_slice() {
        [step] => {
            let outcome = answer(rt, alloc, step, 2, &gate).expect(rt, "memory");
            outcome.end == End::Budget
                && outcome.nodes == 100_000
                && gate.met.load(Ordering::SeqCst) == 1
        }
        _ => false,
    }
}

#[test]
fn large_questions_are_shared(rt: HostRuntime) {
    for step in LARGE {
        assert!(rt; is_shared(&rt, rt.alloc(), step), "{step}");
    }
}

ghost use Rattle.std.specs.Prelude.{◌≤◌};
ghost use Rattle.fx_vectors.specs.Question.{IsValid};

use crate::board::Holding;
use crate::questions::{main_effects, question, shape_of};
use crate::rows_of;
use crate::searches::are_same_marks;
use fx_board::{Alone, Asked, FreeGate, ask, ask_after, walking};
use fx_search::{ask_alone, forbidden_vectors_of};
use fx_vectors::Question;
use std::alloc::Global;
use std::process::Abort;
use std::sync::atomic::{AtomicU64, Ordering};
use std::thread::Threads;

/// Whether both answers are the same, with the same nodes and marks.
fn are_same(one: &Asked, other: &Asked) -> bool {
    match (one, other) {
        (
            Asked::Found {
                matrix,
                nodes,
                marks,
            },
            Asked::Found {
                matrix: design,
                nodes: count,
                marks: list,
            },
        ) => matrix == design && nodes == count && are_same_marks(marks, list),
        (
            Asked::Nothing { nodes, marks },
            Asked::Nothing {
                nodes: count,
                marks: list,
            },
        ) => nodes == count && are_same_marks(marks, list),
        (Asked::Budget { best }, Asked::Budget { best: left }) => best == left,
        (Asked::Found { .. }, _) | (Asked::Nothing { .. }, _) | (Asked::Budget { .. }, _) => false,
    }
}

/// How many nodes a search that was not ended by its budget came by.
fn nodes_of(asked: &Asked) -> u64 {
    match asked {
        Asked::Found { nodes, .. } | Asked::Nothing { nodes, .. } => *nodes,
        Asked::Budget { .. } => 0,
    }
}

/// Numbers of threads, and how many nodes are walked alone before jobs or pieces are shared out.
const THREADS: [(u8, Alone); 7] = [
    (1, Alone { first: 0, later: 0 }),
    (2, Alone { first: 0, later: 0 }),
    (2, Alone { first: 5, later: 5 }),
    (
        3,
        Alone {
            first: 0,
            later: 40,
        },
    ),
    (5, Alone { first: 5, later: 0 }),
    (8, Alone { first: 0, later: 0 }),
    (64, Alone { first: 0, later: 1 }),
];

/// Whether so many threads answer so, under a budget.
fn answer_so<R: Threads + Sync + Abort>(
    rt: &R,
    alloc: Global,
    question: &Question,
    budget: u64,
    threads: u8,
    nodes: Alone,
    alone: &Asked,
) -> bool
    requires valid { IsValid question.now }
    requires budget { budget ≤ 5000000 }
{
    let threads = threads.clamp(1, 64);
    let words = forbidden_vectors_of(alloc, question).expect(rt, "memory");
    let asked = ask_after(
        rt, alloc, question, &words, budget, threads, nodes, &FreeGate,
    );
    are_same(&asked.expect(rt, "memory"), alone)
}

/// Whether each number of threads answers so, under a budget.
fn all_answer_so<R: Threads + Sync + Abort>(
    rt: &R,
    alloc: Global,
    question: &Question,
    budget: u64,
    alone: &Asked,
) -> bool
    requires valid { IsValid question.now }
    requires budget { budget ≤ 5000000 }
{
    for (threads, nodes) in rows_of(&THREADS) {
        if !answer_so(rt, alloc, question, budget, *threads, *nodes, alone) {
            return false;
        }
    }
    let asked = ask(rt, alloc, question, budget, 4, &FreeGate).expect(rt, "memory");
    are_same(&asked, alone) && answer_so(rt, alloc, question, budget, 4, Alone::few(), alone)
}

/// Whether each number of threads answers as one does, under a budget.
fn threads_agree<R: Threads + Sync + Abort>(
    rt: &R,
    alloc: Global,
    question: &Question,
    budget: u64,
) -> bool
    requires valid { IsValid question.now }
    requires budget { budget ≤ 5000000 }
{
    let alone = ask_alone(alloc, question, budget).expect(rt, "memory");
    all_answer_so(rt, alloc, question, budget, &alone)
}

/// Whether they do under the budget of just the nodes, one more, and one less.
fn threads_agree_at_the_nodes<R: Threads + Sync + Abort>(
    rt: &R,
    alloc: Global,
    question: &Question,
) -> bool
    requires { IsValid question.now }
{
    let asked = ask_alone(alloc, question, 1_000_000).expect(rt, "memory");
    let nodes = nodes_of(&asked).min(1_000_000);
    threads_agree(rt, alloc, question, nodes)
        && threads_agree(rt, alloc, question, nodes + 1)
        && threads_agree(rt, alloc, question, nodes.saturating_sub(1))
}

/// Levels, run indexes, factors, block factors, the resolution, or 0 for the main effects of A and B, and
/// whether a least pattern is asked.
type Case = (u8, u8, u8, u8, u8, bool);

const WITHOUT_A_LEAST_PATTERN: [Case; 8] = [
    (2, 4, 7, 0, 4, false),
    (2, 4, 8, 0, 5, false),
    (2, 4, 8, 0, 4, false),
    (2, 5, 9, 0, 4, false),
    (3, 3, 6, 0, 3, false),
    (4, 2, 6, 0, 3, false),
    (2, 4, 16, 0, 3, false),
    (2, 5, 17, 0, 4, false),
];

/// With more pieces on one level than are shared at once.
const WITH_MANY_SIBLINGS: [Case; 1] = [(2, 8, 10, 0, 7, false)];

const WITH_A_LEAST_PATTERN: [Case; 5] = [
    (2, 5, 7, 0, 3, true),
    (2, 5, 9, 0, 3, true),
    (2, 4, 7, 0, 4, true),
    (3, 3, 6, 0, 3, true),
    (3, 2, 5, 0, 3, true),
];

const IN_BLOCKS_OR_FOR_EFFECTS: [Case; 6] = [
    (2, 3, 3, 2, 3, false),
    (2, 4, 5, 2, 3, false),
    (2, 4, 6, 2, 4, false),
    (2, 3, 5, 0, 0, false),
    (2, 2, 4, 1, 0, false),
    (3, 2, 4, 0, 0, false),
];

fn each_agrees<R: Threads + Sync + Abort>(rt: &R, alloc: Global, asked: &Case) -> bool {
    let (q, m, s, t, r, least) = *asked;
    let shape = shape_of(rt, (q, m, s, t));
    if r > 0 {
        return threads_agree_at_the_nodes(rt, alloc, &question(rt, shape, r, least));
    }
    assert!(rt; shape.s >= 2);
    let question = main_effects(alloc, shape).expect(rt, "memory");
    threads_agree_at_the_nodes(rt, alloc, &question)
}

/// Tests each of these questions.
fn all_agree<R: Threads + Sync + Abort>(rt: &R, alloc: Global, cases: &[Case]) {
    for asked in cases {
        assert!(rt; each_agrees(rt, alloc, asked));
    }
}

#[test]
fn any_number_of_threads_answers_as_one(rt: HostRuntime) {
    all_agree(&rt, rt.alloc(), &WITHOUT_A_LEAST_PATTERN);
}

#[test]
fn any_number_of_threads_goes_through_many_siblings(rt: HostRuntime) {
    all_agree(&rt, rt.alloc(), &WITH_MANY_SIBLINGS);
}

#[test]
fn any_number_of_threads_finds_the_same_least_pattern(rt: HostRuntime) {
    all_agree(&rt, rt.alloc(), &WITH_A_LEAST_PATTERN);
}

#[test]
fn any_number_of_threads_answers_the_same_for_effects_and_blocks(rt: HostRuntime) {
    all_agree(&rt, rt.alloc(), &IN_BLOCKS_OR_FOR_EFFECTS);
}

/// While one worker is held at the first of ten jobs, which are all closed, another ends the nine others.
#[test]
fn a_second_thread_works_off_jobs(rt: HostRuntime) {
    let gate = Holding {
        held: AtomicU64::new(0),
        ended: AtomicU64::new(0),
        met: AtomicU64::new(0),
    };
    let question = question(&rt, shape_of(&rt, (2, 4, 7, 0)), 4, false);
    let asked = ask(&rt, rt.alloc(), &question, 1_000_000, 2, &gate).expect(&rt, "memory");
    assert!(rt; matches!(asked, Asked::Found { nodes: 19, .. }));
    assert!(rt; gate.met.load(Ordering::SeqCst) == 1);
}

/// The same for a question that asks for a least pattern.
#[test]
fn a_second_thread_works_off_jobs_of_a_least_question(rt: HostRuntime) {
    let gate = Holding {
        held: AtomicU64::new(0),
        ended: AtomicU64::new(0),
        met: AtomicU64::new(0),
    };
    let question = question(&rt, shape_of(&rt, (2, 4, 7, 0)), 4, true);
    let asked = ask(&rt, rt.alloc(), &question, 1_000_000, 2, &gate).expect(&rt, "memory");
    assert!(rt; matches!(asked, Asked::Found { nodes: 80, .. }));
    assert!(rt; gate.met.load(Ordering::SeqCst) == 1);
}

#[test]
fn few_threads_walk_where_more_would_walk_in_vain(rt: HostRuntime) {
    assert!(rt; walking(64, false, 0) == 64);
    assert!(rt; walking(64, false, 1) == 2);
    assert!(rt; walking(64, true, 0) == 2);
    assert!(rt; walking(64, false, 131_072) == 2);
    assert!(rt; walking(64, false, 131_073) == 1);
    assert!(rt; walking(1, true, 131_072) == 1);
}

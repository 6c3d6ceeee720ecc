//! Searches whose gate counts what their workers begin and end.
use crate::answer::{program_of, text_of};
use crate::questions::{question, shape_of};
use crate::rows_of;
use fx_answer::answer;
use fx_board::{Alone, Ended, Gate, ask_after};
use fx_catalogue::least_line;
use fx_search::forbidden_vectors_of;
use std::alloc::Global;
use std::process::Abort;
use std::sync::atomic::{AtomicU64, Ordering};
use std::thread::Threads;

/// How often each number was begun and ended. A board has at most 1,024 numbers, and the next board begins with 0 again.
#[derive(Drop)]
struct Watching {
    begun: Vec<AtomicU64>,
    ended: Vec<AtomicU64>,
    /// How often a number was begun again before it had ended, or ended before it was begun.
    wrong: AtomicU64,
}

/// As many counts as a board has numbers.
fn counts(rt: &impl Abort, alloc: Global) -> Vec<AtomicU64> {
    let mut counts = Vec::new(alloc);
    for _n in 0..1024 {
        counts.push(AtomicU64::new(0)).expect(rt, "memory");
    }
    counts
}

/// The count of a number.
fn count_of(counts: &[AtomicU64], n: u64) -> u64 {
    match counts.get(n as usize) {
        Some(count) => count.load(Ordering::SeqCst),
        None => 0,
    }
}

/// Adds one to the count of a number, and returns what it was.
fn add(counts: &[AtomicU64], n: u64) -> u64 {
    match counts.get(n as usize) {
        Some(count) => count.fetch_add(1, Ordering::SeqCst),
        None => 0,
    }
}

impl Watching {
    fn new(rt: &impl Abort, alloc: Global) -> Watching {
        Watching {
            begun: counts(rt, alloc),
            ended: counts(rt, alloc),
            wrong: AtomicU64::new(0),
        }
    }

    fn note(&self, is_right: bool) {
        if !is_right {
            self.wrong.store(1, Ordering::SeqCst);
        }
    }

    /// Whether each number from 0 on was begun and ended once on each board, up to one that no worker came to, and on
    /// some board so many were.
    fn is_orderly(&self, most: u64) -> bool {
        for n in 0..1023 {
            let begun = count_of(self.begun.as_slice(), n);
            if begun != count_of(self.ended.as_slice(), n)
                || begun < count_of(self.begun.as_slice(), n + 1)
            {
                return false;
            }
        }
        self.wrong.load(Ordering::SeqCst) == 0
            && 0 < count_of(self.begun.as_slice(), most.saturating_sub(1))
    }
}

impl Gate for Watching {
    fn began(&self, n: u64) {
        let earlier = add(self.begun.as_slice(), n);
        self.note(n < 1024 && earlier == count_of(self.ended.as_slice(), n));
    }

    fn ended(&self, end: &Ended) {
        let earlier = add(self.ended.as_slice(), end.n);
        self.note(earlier < count_of(self.begun.as_slice(), end.n));
    }
}

/// Levels, run indexes, factors, the resolution, whether a least pattern is asked, and so many numbers at least some board has.
const QUESTIONS: [(u8, u8, u8, u8, bool, u64); 4] = [
    (2, 8, 10, 7, false, 12),
    (2, 5, 9, 3, true, 12),
    (3, 4, 11, 4, false, 3),
    (3, 3, 7, 3, true, 3),
];

/// Each piece and each job of a question is begun and ended once, also past the tenth.
#[test]
fn each_number_of_a_question_is_begun_and_ended_once(rt: HostRuntime) {
    for (q, m, s, r, least, most) in rows_of(&QUESTIONS) {
        let gate = Watching::new(&rt, rt.alloc());
        let question = question(&rt, shape_of(&rt, (*q, *m, *s, 0)), *r, *least);
        let words = forbidden_vectors_of(rt.alloc(), &question).expect(&rt, "memory");
        let alone = Alone { first: 0, later: 0 };
        ask_after(
            &rt,
            rt.alloc(),
            &question,
            &words,
            1_000_000,
            3,
            alone,
            &gate,
        )
        .expect(&rt, "memory");
        assert!(rt; gate.is_orderly(*most), "{q} {least}");
    }
}

/// Steps with more nodes than one thread walks alone.
const STEPS: [&str; 4] = [
    ";factors X1-X20;size design=128;model resolution=5;",
    ";factors X1-X10;size design=32;model resolution=3/minabs;",
    ";factors X1-X11/nlev=3;size design=81;model resolution=4;",
    ";factors X1-X8/nlev=3;size design=81;model resolution=3/minabs;",
];

/// Whether what is begun for a step is ended once.
fn is_step_shared<R: Threads + Sync + Abort>(rt: &R, alloc: Global, step: &str) -> bool {
    let text = text_of(rt, alloc, 12_000, step);
    let program = program_of(rt, alloc, text.as_slice());
    let gate = Watching::new(rt, alloc);
    match program.as_slice() {
        [step] => {
            answer(rt, alloc, step, 2, &gate).expect(rt, "memory");
            gate.is_orderly(1)
        }
        _ => false,
    }
}

/// Two threads share what a step asks.
#[test]
fn each_number_of_a_step_is_begun_and_ended_once(rt: HostRuntime) {
    for step in rows_of(&STEPS) {
        assert!(rt; is_step_shared(&rt, rt.alloc(), step), "{step}");
    }
}

/// And a line of a catalogue, of two levels and of three.
#[test]
fn each_number_of_a_line_is_begun_and_ended_once(rt: HostRuntime) {
    for (q, m, s) in [(2, 6, 12), (3, 4, 12)] {
        let gate = Watching::new(&rt, rt.alloc());
        let shape = shape_of(&rt, (q, m, s, 0));
        assert!(rt; shape.t == 0 && shape.m < shape.s);
        least_line(&rt, rt.alloc(), shape, 12_000, 2, &gate).expect(&rt, "memory");
        assert!(rt; gate.is_orderly(1), "{q}");
    }
}

//! Catalogues as they are listed, for more and more factors.
ghost use Rattle.std.specs.Prelude.{◌<◌, ◌≤◌};
ghost use Rattle.fx_vectors.specs.Shape.{IsShape};

use crate::questions::shape_of;
use fx_base::Bytes;
use fx_board::FreeGate;
use fx_catalogue::{Line, least_line, put_head, put_line};
use fx_vectors::Shape;
use std::alloc::Global;
use std::process::Abort;
use std::thread::Threads;

/// Appends the line of a shape, and returns whether more factors may have a design.
fn put_shape<R: Threads + Sync + Abort>(
    rt: &R,
    alloc: Global,
    out: &mut Bytes,
    shape: Shape,
    budget: u64,
    threads: u8,
) -> bool
    requires shaped { IsShape shape }
    requires budget { budget ≤ 5000000 }
    requires threads { (0 < threads) × (threads ≤ 64) }
{
    assert!(rt; shape.t == 0 && shape.m < shape.s);
    let line = least_line(rt, alloc, shape, budget, threads, &FreeGate).expect(rt, "memory");
    put_line(out, shape.s, &line, budget).expect(rt, "memory");
    match line {
        Line::Nothing { .. } => false,
        Line::Least { .. } | Line::Budget => true,
    }
}

/// The listing of a catalogue: `numbers` are those of levels and run indexes, and the most factors.
fn listed<R: Threads + Sync + Abort>(
    rt: &R,
    alloc: Global,
    numbers: (u8, u8, u8),
    budget: u64,
    threads: u8,
) -> Bytes
    requires budget { budget ≤ 5000000 }
    requires threads { (0 < threads) × (threads ≤ 64) }
{
    let (q, m, most) = numbers;
    let mut out = Bytes::new(alloc);
    put_head(&mut out, shape_of(rt, (q, m, 1, 0))).expect(rt, "memory");
    for s in 1..=most {
        if m < s {
            let shape = shape_of(rt, (q, m, s, 0));
            if !put_shape(rt, alloc, &mut out, shape, budget, threads) {
                return out;
            }
        }
    }
    out
}

#[test]
fn two_levels_in_eight_runs(rt: HostRuntime) {
    let text = listed(&rt, rt.alloc(), (2, 3, 5), 1_000_000, 1);
    let want =
        b"catalogue levels 2 runs 8\nfactors 4 nodes 7 resolution 4 A4 1\nfactors 5 nodes 13 resolution 3 A3 2 A4 1\n";
    assert!(rt; text.as_slice() == want.as_slice());
}

#[test]
fn three_levels_in_nine_runs_end_with_none(rt: HostRuntime) {
    let text = listed(&rt, rt.alloc(), (3, 2, 6), 1_000_000, 8);
    let want =
        b"catalogue levels 3 runs 9\nfactors 3 nodes 4 resolution 3 A3 1\nfactors 4 nodes 5 resolution 3 A3 4\nfactors 5 nodes 5 none\n";
    assert!(rt; text.as_slice() == want.as_slice());
}

#[test]
fn a_budget_ends_a_line(rt: HostRuntime) {
    let text = listed(&rt, rt.alloc(), (2, 3, 4), 6, 1);
    let want = b"catalogue levels 2 runs 8\nfactors 4 budget ended after 6 nodes\n";
    assert!(rt; text.as_slice() == want.as_slice());
}

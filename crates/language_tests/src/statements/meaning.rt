//! What the steps of an accepted text are.
use crate::rows_of;
use crate::statements::{read, text_of};
use fx_statements::{Blocks, Criterion, Demands, Examine, Program, Rep, Shuffle, Size, Step};
use fx_text::Names;
use fx_vectors::Effects;
use std::alloc::Global;
use std::process::Abort;

/// Whether the only step of a program has these settings.
fn has_settings(
    program: &Program,
    size: Size,
    wanted: Criterion,
    least: bool,
    blocks: Blocks,
) -> bool {
    match program.as_slice() {
        [step] => step.settings.size == size
            && step.settings.criterion == wanted
            && step.settings.least == least
            && step.settings.blocks == blocks,
        _ => false,
    }
}

/// Whether the SIZE, MODEL and BLOCKS statements of a step give these settings.
fn gives(
    rt: &impl Abort,
    alloc: Global,
    rest: &str,
    size: Size,
    wanted: Criterion,
    least: bool,
    blocks: Blocks,
) -> bool {
    let text = text_of(rt, alloc, "proc factex;factors A B C D;", rest);
    match read(rt, alloc, text.as_slice()) {
        Ok(program) => has_settings(&program, size, wanted, least, blocks),
        Err(_stop) => false,
    }
}

#[test]
fn sizes_and_models_have_their_meanings(rt: HostRuntime) {
    const THREE: Criterion = Criterion::Resolution { r: 3 };
    const CASES: [(&str, Size, Criterion, bool); 8] = [
        ("", Size::Runs { m: 4 }, Criterion::Highest, false),
        (
            "size design=8;model r=max/minabs;",
            Size::Runs { m: 3 },
            Criterion::Highest,
            true,
        ),
        (
            "model res=3 / minabs;size fraction=4;",
            Size::Runs { m: 2 },
            THREE,
            true,
        ),
        (
            "size nrunfacs=5;",
            Size::Runs { m: 5 },
            Criterion::Highest,
            false,
        ),
        (
            "size design=minimum;model r=3;",
            Size::Minimum,
            THREE,
            false,
        ),
        (
            "size fraction=maximum;model resolution=3;",
            Size::Minimum,
            THREE,
            false,
        ),
        (
            "model estimate=(A|B);size design=8;",
            Size::Runs { m: 3 },
            Criterion::Effects,
            false,
        ),
        (
            "size design=min;model e=(A) nonnegligible=(B);",
            Size::Minimum,
            Criterion::Effects,
            false,
        ),
    ];
    for (text, size, wanted, least) in rows_of(&CASES) {
        assert!(rt;
            gives(
                &rt,
                rt.alloc(),
                text,
                *size,
                *wanted,
                *least,
                Blocks::Without
            ),
            "{text}"
        );
    }
}

#[test]
fn blocks_have_their_meanings(rt: HostRuntime) {
    const RUNS: Size = Size::Runs { m: 4 };
    const CASES: [(&str, Size, Blocks); 8] = [
        (
            "model r=5;blocks nblkfacs=2;",
            RUNS,
            Blocks::Factors { t: 2 },
        ),
        (
            "model r=5;blocks nblocks=8;",
            RUNS,
            Blocks::Factors { t: 3 },
        ),
        ("model r=5;blocks size=8;", RUNS, Blocks::Factors { t: 1 }),
        ("model r=5;blocks nblkfacs=max;", RUNS, Blocks::Most),
        ("model r=5;blocks nblocks=maximum;", RUNS, Blocks::Most),
        ("model r=5;blocks size=min;", RUNS, Blocks::Most),
        (
            "model r=5;blocks size=8;size nrunfacs=min;",
            Size::Minimum,
            Blocks::PerBlock { k: 3 },
        ),
        (
            "model r=5;blocks nblocks=8;size nrunfacs=min;",
            Size::Minimum,
            Blocks::Factors { t: 3 },
        ),
    ];
    for (text, size, blocks) in rows_of(&CASES) {
        let wanted = Criterion::Resolution { r: 5 };
        assert!(rt;
            gives(&rt, rt.alloc(), text, *size, wanted, false, *blocks),
            "{text}"
        );
    }
}

#[test]
fn blocks_stand_with_effects(rt: HostRuntime) {
    const CASES: [(&str, Size, Blocks); 3] = [
        (
            "model e=(A);blocks nblkfacs=2;",
            Size::Runs { m: 4 },
            Blocks::Factors { t: 2 },
        ),
        (
            "model e=(A);blocks size=min;",
            Size::Runs { m: 4 },
            Blocks::Most,
        ),
        (
            "model e=(A);size design=min;blocks size=4;",
            Size::Minimum,
            Blocks::PerBlock { k: 2 },
        ),
    ];
    for (text, size, blocks) in rows_of(&CASES) {
        let wanted = Criterion::Effects;
        assert!(rt;
            gives(&rt, rt.alloc(), text, *size, wanted, false, *blocks),
            "{text}"
        );
    }
}

/// Whether these are the effects, in order.
fn are_effects(effects: &Effects, numbers: &[u64]) -> bool {
    if effects.len() != numbers.len() {
        return false;
    }
    for (effect, number) in effects.as_slice().iter().zip(numbers) {
        if effect.0 != *number {
            return false;
        }
    }
    true
}

#[test]
fn effects_are_those_of_the_lists(rt: HostRuntime) {
    const CASES: &[(&str, &[u64], &[u64])] = &[
        (
            "size design=4;model estimate=(A|B|C @2) nonneg=(A*B*C);",
            &[1, 2, 4, 3, 5, 6],
            &[7],
        ),
        (
            "model e=(A B) nonnegligible=(A|B|C);",
            &[1, 2],
            &[4, 3, 5, 6, 7],
        ),
        (
            "examine aliasing;model estimate=(B*A*A C) n=(B);",
            &[4, 3],
            &[2],
        ),
        ("model est=(C);", &[4], &[]),
    ];
    for (text, estimate, nonnegligible) in rows_of(CASES) {
        assert!(rt;
            asks_for(&rt, rt.alloc(), text, estimate, nonnegligible),
            "{text}"
        );
    }
}

/// Whether the only step of a program asks for these effects.
fn has_effects(program: &Program, estimate: &[u64], nonnegligible: &[u64]) -> bool {
    match program.as_slice() {
        [step] => match &step.demands {
            Demands::Effects {
                estimate: first,
                nonnegligible: second,
            } => are_effects(first, estimate) && are_effects(second, nonnegligible),
            Demands::Resolution { .. } => false,
        },
        _ => false,
    }
}

/// Whether the MODEL statement of a step asks for these effects.
fn asks_for(
    rt: &impl Abort,
    alloc: Global,
    rest: &str,
    estimate: &[u64],
    nonnegligible: &[u64],
) -> bool {
    let text = text_of(rt, alloc, "proc factex;factors A B C;", rest);
    match read(rt, alloc, text.as_slice()) {
        Ok(program) => has_effects(&program, estimate, nonnegligible),
        Err(_stop) => false,
    }
}

/// Whether these are the names, in order, between blanks.
fn are(names: &Names, text: &str) -> bool {
    let mut wanted = text.split_whitespace();
    for name in names.as_slice() {
        if wanted.next().map(|word| word.as_bytes()) != Some(name.as_slice()) {
            return false;
        }
    }
    wanted.next().is_none()
}

/// Two steps, the first with a plan whose values of a factor are changed.
const TWO_STEPS: &str = "\
    run; Proc FACTEX Nodes=20000; Factors Pressure x9-X11 / NLEV=3; examine design aliasing confounding;\
    size design=9; model r=3; output out=Plan randomize(7) x10 nvals=(1 2 3); examine aliasing; quit;\
    proc factex; model r=4; factors Size; run; examine blocked aberration; output out=q pointrep=3;";

fn has_first_settings(step: &Step) -> bool {
    let listed = Examine {
        aliasing: true,
        blocked: false,
        design: true,
        aberration: false,
    };
    are(&step.factors, "Pressure x9 x10 x11")
        && step.settings.q == 3
        && step.settings.budget == 20000
        && step.settings.size == Size::Runs { m: 2 }
        && step.settings.criterion == Criterion::Resolution { r: 3 }
        && step.examine == listed
}

fn has_first_plan(step: &Step) -> bool {
    let [plan] = step.outputs.as_slice() else {
        return false;
    };
    let shuffle = Shuffle::Seed {
        seed: 7,
        values: true,
    };
    let [recode] = plan.recodes.as_slice() else {
        return false;
    };
    plan.name.as_slice() == b"Plan".as_slice()
        && plan.shuffle == shuffle
        && recode.place == 3
        && are(&recode.values, "1 2 3")
}

fn is_second(step: &Step) -> bool {
    let listed = Examine {
        aliasing: false,
        blocked: true,
        design: false,
        aberration: true,
    };
    are(&step.factors, "Size")
        && step.settings.q == 2
        && step.settings.budget == 1_000_000
        && step.settings.size == Size::Runs { m: 1 }
        && step.settings.criterion == Criterion::Resolution { r: 4 }
        && step.examine == listed
        && matches!(step.outputs.as_slice(), [plan] if plan.pointrep == Rep::Times(3))
}

fn are_both(program: &Program) -> bool {
    match program.as_slice() {
        [first, second] => has_first_settings(first) && has_first_plan(first) && is_second(second),
        _ => false,
    }
}

#[test]
fn steps_have_what_is_written(rt: HostRuntime) {
    let program = read(&rt, rt.alloc(), TWO_STEPS.as_bytes()).expect(&rt, "a program");
    assert!(rt; are_both(&program));
}

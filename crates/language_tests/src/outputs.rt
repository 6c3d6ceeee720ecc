use crate::names_in;
use fx_base::Bytes;
use fx_language::symbols;
use fx_lexer::lex;
use fx_outputs::{
    BlockCount, EarlierPlans, OutputContext, OutputSpec, Outputs, Rep, Shuffle, outputs,
};
use fx_text::{Names, ParseStop, lexemes, statements};
use std::alloc::Global;
use std::process::Abort;

/// What a text gives after these plans, in a step with these factors, with two levels and 16 runs.
fn read_after(
    rt: &impl Abort,
    alloc: Global,
    factors: &[Bytes],
    earlier: &mut EarlierPlans,
    blocks: BlockCount,
    text: &[u8],
) -> Result<Outputs, ParseStop> {
    assert!(rt; text.len() <= 1048576 && factors.len() < 256);
    let tokens = lex(alloc, text).expect(rt, "tokens");
    let symbols = symbols(alloc, text, &tokens).expect(rt, "memory");
    let lexemes = lexemes(alloc, text, &tokens, symbols.as_slice()).expect(rt, "memory");
    let statements = statements(alloc, lexemes.as_slice()).expect(rt, "memory");
    let context = OutputContext::new(factors, 2, 16, blocks);
    outputs(alloc, &context, earlier, statements.as_slice())
}

/// The plan `old` of an earlier step, with the column X.
fn earlier_plans(rt: &impl Abort, alloc: Global) -> EarlierPlans {
    let factors = names_in(rt, alloc, "X");
    let mut earlier = EarlierPlans::new(alloc);
    let text = b"output out=old;";
    let read = read_after(
        rt,
        alloc,
        factors.as_slice(),
        &mut earlier,
        BlockCount::Without,
        text,
    );
    assert!(rt; read.expect(rt, "an output").len() == 1);
    earlier
}

/// What a text gives after the plan `old`, in a step with the factors A and Block.
fn read(
    rt: &impl Abort,
    alloc: Global,
    blocks: BlockCount,
    text: &str,
) -> Result<Outputs, ParseStop> {
    let factors = names_in(rt, alloc, "A Block");
    let mut earlier = earlier_plans(rt, alloc);
    let text = text.as_bytes();
    read_after(rt, alloc, factors.as_slice(), &mut earlier, blocks, text)
}

/// The code of a refusal, and its column in the first line.
fn refusal(rt: &impl Abort, alloc: Global, blocks: BlockCount, text: &str) -> Option<(u8, u32)> {
    match read(rt, alloc, blocks, text) {
        Err(ParseStop::Refused(refusal)) => Some((refusal.code, refusal.column)),
        Err(ParseStop::NoMemory) | Ok(_) => None,
    }
}

/// Tests that each text is refused by this code at this column.
fn are_refused(rt: &impl Abort, alloc: Global, cases: &[(BlockCount, &str, u8, u32)]) {
    for (blocks, text, code, column) in cases {
        let found = refusal(rt, alloc, *blocks, text);
        assert!(rt; found == Some((*code, *column)), "{text}");
    }
}

#[test]
fn refused_where_the_rule_is_broken(rt: HostRuntime) {
    const CASES: [(BlockCount, &str, u8, u32); 14] = [
        (BlockCount::Without, "output out=OLD pointrep=0;", 18, 12),
        (BlockCount::Without, "output out=b;output out=B;", 18, 25),
        (
            BlockCount::Without,
            "output out=b designrep=0 pointrep=200001;",
            20,
            35,
        ),
        (BlockCount::Without, "output out=b designrep=0;", 20, 24),
        (BlockCount::Without, "output out=b pointrep=12501;", 21, 12),
        (
            BlockCount::Without,
            "output out=b randomize(18446744073709551616);",
            19,
            24,
        ),
        (
            BlockCount::Without,
            "output out=b A nvals=(1) blockname=A;",
            31,
            26,
        ),
        (BlockCount::Fixed(4), "output out=b blockname=a;", 5, 24),
        (BlockCount::Fixed(4), "output out=b A nvals=(1);", 5, 1),
        (
            BlockCount::Fixed(4),
            "output out=b blockname=d nvals=(1 2 3);",
            17,
            26,
        ),
        (
            BlockCount::Open,
            "output out=b blockname=d cvals=('1');",
            17,
            26,
        ),
        (
            BlockCount::Without,
            "output out=b A cvals=('x' 'y') C nvals=(1);",
            4,
            32,
        ),
        (
            BlockCount::Without,
            "output out=b A cvals=('x' 'y') a nvals=(1);",
            28,
            32,
        ),
        (BlockCount::Without, "output out=b A nvals=(1);", 17, 16),
    ];
    are_refused(&rt, rt.alloc(), &CASES);
}

/// Whether these are the texts, in order, between blanks.
fn are(names: &Names, text: &str) -> bool {
    let mut wanted = text.split_whitespace();
    for name in names.as_slice() {
        if wanted.next().map(|word| word.as_bytes()) != Some(name.as_slice()) {
            return false;
        }
    }
    wanted.next().is_none()
}

/// Two outputs, the first with all that can be written of one.
const BOTH: &str = "\
    output out=Novalran novalran designrep=OLD randomize(18446744073709551615) pointrep=2 \
    block cvals=('it''s' \"'\"\"\") blockname=day nvals=(-1 2.5 07 -.5);run;output out=q blockname=out;";

fn is_first(output: &OutputSpec) -> bool {
    let shuffle = Shuffle::Seed {
        seed: u64::MAX,
        values: false,
    };
    let [recode] = output.recodes.as_slice() else {
        return false;
    };
    output.name.as_slice() == b"Novalran".as_slice()
        && output.pointrep == Rep::Times(2)
        && output.designrep == Rep::Plan(0)
        && output.shuffle == shuffle
        && recode.place == 2
        && are(&recode.values, "it's '\"")
        && output.block_name.as_slice() == b"day".as_slice()
        && are(&output.block_values, "-1 2.5 07 -.5")
}

fn is_second(output: &OutputSpec) -> bool {
    output.pointrep == Rep::Times(1)
        && output.designrep == Rep::Times(1)
        && output.shuffle == Shuffle::Kept
        && output.recodes.is_empty()
        && output.block_values.is_empty()
        && output.block_name.as_slice() == b"out".as_slice()
}

fn are_both(outputs: &Outputs) -> bool {
    match outputs.as_slice() {
        [first, second] => is_first(first) && is_second(second),
        _ => false,
    }
}

#[test]
fn output_has_what_is_written(rt: HostRuntime) {
    let outputs = read(&rt, rt.alloc(), BlockCount::Fixed(4), BOTH).expect(&rt, "outputs");
    assert!(rt; are_both(&outputs));
}

use crate::names_in;
use fx_effects::{ModelEffects, effects_of};
use fx_galois::Field;
use fx_language::symbols;
use fx_lexer::lex;
use fx_text::{ParseStop, Phrase, lexemes};
use fx_vectors::Effects;
use std::alloc::Global;
use std::process::Abort;

/// What a statement asks for in a step with these factors, with three levels.
fn read(
    rt: &impl Abort,
    alloc: Global,
    factors: &str,
    text: &[u8],
) -> Result<ModelEffects, ParseStop> {
    let field = Field::of(3).expect(rt, "a number of levels");
    let factors = names_in(rt, alloc, factors);
    assert!(rt; text.len() <= 1048576 && factors.len() <= 40);
    let tokens = lex(alloc, text).expect(rt, "tokens");
    let symbols = symbols(alloc, text, &tokens).expect(rt, "memory");
    let lexemes = lexemes(alloc, text, &tokens, symbols.as_slice()).expect(rt, "memory");
    let statement = Phrase::new(lexemes.as_slice());
    effects_of(alloc, field, factors.as_slice(), &statement)
}

/// Whether these are the effects, in order.
fn are(effects: &Effects, numbers: &[u64]) -> bool {
    if effects.len() != numbers.len() {
        return false;
    }
    for (effect, number) in effects.as_slice().iter().zip(numbers) {
        if effect.0 != *number {
            return false;
        }
    }
    true
}

/// Tests that a statement asks for these effects in a step with these factors.
fn asks_for(
    rt: &impl Abort,
    alloc: Global,
    factors: &str,
    text: &str,
    estimate: &[u64],
    nonnegligible: &[u64],
) {
    let effects = read(rt, alloc, factors, text.as_bytes()).expect(rt, "effects");
    assert!(rt; are(&effects.estimate, estimate) && are(&effects.nonnegligible, nonnegligible));
}

#[test]
fn both_lists_are_sets_in_effect_order(rt: HostRuntime) {
    let text = "model estimate=(a*b*A x1-X3 a|b@1 X1) nonnegligible=(A|x3|B@2 b)";
    let estimate = [1, 2, 4, 8, 16, 3];
    asks_for(&rt, rt.alloc(), "A B X1 X2 X3", text, &estimate, &[17, 18]);
}

#[test]
fn repeated_bars_are_read_once(rt: HostRuntime) {
    let text = "model estimate=(A|B@1 B|A A|B A*B|B) nonneg=(A|X1 X1|A|A*X1)";
    asks_for(&rt, rt.alloc(), "A B X1", text, &[1, 2, 3], &[4, 5]);
}

#[test]
fn refused_where_the_rule_is_broken(rt: HostRuntime) {
    const CASES: [(&str, u8, u32); 8] = [
        ("model estimate=(a c@0 x3-x1)", 4, 19),
        ("model estimate=(a x3-x1 c)", 30, 19),
        ("model estimate=(x1-x4)", 4, 17),
        ("model estimate=(a*b|x1*x2@1)", 29, 27),
        ("model estimate=(a) nonneg=(b@0)", 29, 30),
        ("model estimate=(a) n=(c)", 4, 23),
        ("model estimate=() n=(a)", 2, 7),
        ("model", 2, 1),
    ];
    are_refused(&rt, rt.alloc(), "A B X1 X2 X3", &CASES);
}

/// The names of seventeen factors.
const SEVENTEEN: &str = "A B C D E F G H I J K L M N O P Q";

#[test]
fn refused_where_there_are_too_many(rt: HostRuntime) {
    const CASES: [(&str, u8, u32); 4] = [
        ("model estimate=(A|B|C|D|E|F|G)", 22, 7),
        (
            "model estimate=(A|B|C|D|E|F) nonneg=(A|B|C|D|E|F|G|H)",
            22,
            7,
        ),
        ("model estimate=(A|B|C|D|E|F|G|H|I|J|K|L|M|N|O|P|Q)", 23, 7),
        (
            "model estimate=(A) nonneg=(A|B|C|D|E|F|G|H|I|J|K|L|M|N|O|P|Q)",
            23,
            20,
        ),
    ];
    are_refused(&rt, rt.alloc(), SEVENTEEN, &CASES);
    let text = "model estimate=(A|B|C|D|E|F) nonneg=(A|B|C|D|E|F|G)";
    let effects = read(&rt, rt.alloc(), SEVENTEEN, text.as_bytes()).expect(&rt, "effects");
    assert!(rt; effects.estimate.len() == 63 && effects.nonnegligible.len() == 64);
}

/// The code and column of a refusal, or None.
fn refusal(rt: &impl Abort, alloc: Global, factors: &str, text: &str) -> Option<(u8, u32)> {
    match read(rt, alloc, factors, text.as_bytes()) {
        Err(ParseStop::Refused(refusal)) => Some((refusal.code, refusal.column)),
        Err(ParseStop::NoMemory) | Ok(_) => None,
    }
}

/// Tests that each text is refused with this code at this column.
fn are_refused(rt: &impl Abort, alloc: Global, factors: &str, cases: &[(&str, u8, u32)]) {
    for (text, code, column) in cases {
        let found = refusal(rt, alloc, factors, text);
        assert!(rt; found == Some((*code, *column)), "{text}");
    }
}

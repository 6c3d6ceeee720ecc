mod effects;
mod factors;
mod folds;
mod grammar;
mod meaning;
mod order;
mod outputs;
mod settings;

use fx_base::{Bytes, put};
use fx_lexer::lex;
use fx_statements::{ParseStop, Program, parse};
use std::alloc::Global;
use std::process::Abort;

/// A text of two parts.
fn text_of(rt: &impl Abort, alloc: Global, front: &str, rest: &str) -> Bytes {
    let mut text = Bytes::from_slice(alloc, front.as_bytes()).expect(rt, "memory");
    put(&mut text, rest.as_bytes()).expect(rt, "memory");
    text
}

/// The program of a text, or its first refusal.
fn read(rt: &impl Abort, alloc: Global, text: &[u8]) -> Result<Program, ParseStop> {
    assert!(rt; text.len() <= 1_048_576);
    let tokens = lex(alloc, text).expect(rt, "tokens");
    parse(alloc, text, &tokens)
}

/// The code, line and column of what a text is refused for.
fn refusal(rt: &impl Abort, alloc: Global, text: &[u8]) -> Option<(u8, u32, u32)> {
    match read(rt, alloc, text) {
        Ok(_program) => None,
        Err(ParseStop::Refused(refusal)) => Some((refusal.code, refusal.line, refusal.column)),
        Err(ParseStop::NoMemory) => panic!(rt; "memory ran out"),
    }
}

/// The same for a text of two parts.
fn refusal_of_both(
    rt: &impl Abort,
    alloc: Global,
    front: &str,
    rest: &str,
) -> Option<(u8, u32, u32)> {
    refusal(rt, alloc, text_of(rt, alloc, front, rest).as_slice())
}

/// Tests that each text after the front is refused by this code, in this line and column.
fn are_refused(rt: &impl Abort, alloc: Global, front: &str, cases: &[(&str, u8, u32, u32)]) {
    for (text, code, line, column) in cases {
        let found = refusal_of_both(rt, alloc, front, text);
        assert!(rt; found == Some((*code, *line, *column)), "{text}");
    }
}

/// Tests that each text after the front is accepted.
fn are_accepted(rt: &impl Abort, alloc: Global, front: &str, texts: &[&str]) {
    for text in texts {
        assert!(rt; refusal_of_both(rt, alloc, front, text).is_none(), "{text}");
    }
}

use crate::rows_of;
use fx_lexer::{Kind, LexFault, LexStop, Token, lex};
use std::alloc::Global;
use std::process::Abort;

/// The kind, line and column of a text's first fault, or None where it has none.
fn fault(rt: &impl Abort, alloc: Global, text: &[u8]) -> Option<(u8, u32, u32)> {
    assert!(rt; text.len() <= 1048576);
    match lex(alloc, text) {
        Err(LexStop::Fault(LexFault { kind, line, column })) => Some((kind, line, column)),
        Err(LexStop::NoMemory) | Ok(_) => None,
    }
}

fn count(rt: &impl Abort, alloc: Global, text: &[u8]) -> usize {
    assert!(rt; text.len() <= 1048576);
    lex(alloc, text).expect(rt, "tokens").len()
}

/// Kinds of tokens, each with its line and column, and where it begins and ends.
const TOKENS: [(Kind, u32, u32, usize, usize); 25] = [
    (Kind::Word, 1, 1, 0, 4),
    (Kind::Word, 1, 6, 5, 11),
    (Kind::Sign, 1, 12, 11, 12),
    (Kind::Word, 3, 2, 30, 37),
    (Kind::Word, 3, 10, 38, 41),
    (Kind::Sign, 3, 13, 41, 42),
    (Kind::Word, 3, 14, 42, 44),
    (Kind::Sign, 3, 17, 45, 46),
    (Kind::Word, 3, 18, 46, 50),
    (Kind::Sign, 3, 22, 50, 51),
    (Kind::Whole, 3, 23, 51, 52),
    (Kind::Sign, 3, 24, 52, 53),
    (Kind::Word, 3, 31, 59, 64),
    (Kind::Sign, 3, 36, 64, 65),
    (Kind::Sign, 3, 37, 65, 66),
    (Kind::Sign, 3, 38, 66, 67),
    (Kind::Decimal, 3, 39, 67, 70),
    (Kind::Decimal, 3, 43, 71, 74),
    (Kind::Quoted, 3, 47, 75, 82),
    (Kind::Quoted, 3, 55, 83, 85),
    (Kind::Sign, 3, 57, 85, 86),
    (Kind::Sign, 3, 59, 87, 88),
    (Kind::Sign, 3, 60, 88, 89),
    (Kind::Sign, 3, 61, 89, 90),
    (Kind::Sign, 3, 62, 90, 91),
];

fn are(tokens: &[Token], wanted: &[(Kind, u32, u32, usize, usize)]) -> bool {
    for (own, (kind, line, column, from, upto)) in tokens.iter().zip(wanted) {
        let token = Token {
            kind: *kind,
            line: *line,
            column: *column,
            from: *from,
            upto: *upto,
        };
        if *own != token {
            return false;
        }
    }
    tokens.len() == wanted.len()
}

#[test]
fn program_has_its_tokens(rt: HostRuntime) {
    let text =
        "proc factex;\n\t*two | three;\r\n factors A_1-B2 /nlev=3;/*;*/ nvals=(-1.5 .25 'it''s' \"\") @*[]";
    let tokens = lex(rt.alloc(), text.as_bytes()).expect(&rt, "tokens");
    assert!(rt; are(tokens.as_slice(), &TOKENS));
}

/// Texts, each with the kind, line and column of its first fault. The last has two.
const FAULTS: [(&str, u8, u32, u32); 8] = [
    ("a;\n /*;", 1, 2, 2),
    ("a;\n *b", 1, 2, 2),
    ("proc factex;\nfactors A 'b", 2, 2, 11),
    ("a \"b'", 2, 1, 3),
    ("a = #", 3, 1, 5),
    ("\n\n1.;", 3, 3, 2),
    ("caf\u{e9}", 3, 1, 4),
    ("# '", 3, 1, 1),
];

fn have_faults(rt: &impl Abort, alloc: Global, cases: &[(&str, u8, u32, u32)]) {
    for (text, kind, line, column) in cases {
        let found = fault(rt, alloc, text.as_bytes());
        assert!(rt; found == Some((*kind, *line, *column)), "{text}");
    }
}

#[test]
fn each_fault_has_its_place(rt: HostRuntime) {
    have_faults(&rt, rt.alloc(), &FAULTS);
}

#[test]
fn limits_are_kept_on_both_sides(rt: HostRuntime) {
    let alloc = rt.alloc();
    const LONGEST: [&str; 3] = [
        " 12345678901234567890123456789012345678",
        "123456789012345678901234567890123456.8",
        " _bcdefghijklmnopqrstuvwxyzABCD12",
    ];
    for text in rows_of(&LONGEST) {
        assert!(rt; count(&rt, alloc, text.as_bytes()) == 1, "{text}");
    }
    have_faults(
        &rt,
        alloc,
        &[
            (" 123456789012345678901234567890123456789", 4, 1, 2),
            ("1234567890123456789012345678901234567.9", 4, 1, 1),
            (" _bcdefghijklmnopqrstuvwxyzABCD123", 5, 1, 2),
        ],
    );
}

/// How many tokens the longest text has, of blanks with these bytes at its beginning and its end.
fn count_of_longest(rt: &impl Abort, alloc: Global, open: &[u8; 2], close: &[u8; 2]) -> usize {
    let mut text = vec![in alloc; b' '; 1048576].expect(rt, "memory");
    text[0] = open[0];
    text[1] = open[1];
    text[1048574] = close[0];
    text[1048575] = close[1];
    count(rt, alloc, &text)
}

#[test]
fn longest_texts_end(rt: HostRuntime) {
    const ENDS: &[(&[u8; 2], &[u8; 2], usize)] = &[
        (b"  ", b"  ", 0),
        (b"/*", b"*/", 0),
        (b"* ", b" ;", 0),
        (b"' ", b" '", 1),
    ];
    for (open, close, tokens) in rows_of(ENDS) {
        assert!(rt; count_of_longest(&rt, rt.alloc(), open, close) == *tokens);
    }
}

use crate::rows_of;
use fx_language::{Symbol, symbols};
use fx_lexer::lex;
use std::alloc::Global;
use std::process::Abort;

/// Tests that these are the symbols of a text.
fn has_symbols(rt: &impl Abort, alloc: Global, text: &str, wanted: &[Symbol]) {
    assert!(rt; text.len() <= 1_048_576);
    let tokens = lex(alloc, text.as_bytes()).expect(rt, "tokens");
    let read = symbols(alloc, text.as_bytes(), &tokens).expect(rt, "memory");
    assert!(rt; read.as_slice() == wanted);
}

/// Each spelling of a keyword, in letters of either case, and its symbol.
const KEYWORDS: [(&str, Symbol); 47] = [
    ("proc", Symbol::Proc),
    ("faCtex", Symbol::Factex),
    ("nOdEs", Symbol::Nodes),
    ("rUN", Symbol::Run),
    ("QuiT", Symbol::Quit),
    ("fAcTOrS", Symbol::Factors),
    ("NleV", Symbol::Nlev),
    ("sizE", Symbol::Size),
    ("desiGN", Symbol::Design),
    ("FRACtIoN", Symbol::Fraction),
    ("NruNfaCs", Symbol::Nrunfacs),
    ("MinImUm", Symbol::Minimum),
    ("MAXiMum", Symbol::Maximum),
    ("mODel", Symbol::Model),
    ("EstiMaTE", Symbol::Estimate),
    ("noNneGLIGIblE", Symbol::Nonnegligible),
    ("ResoLutioN", Symbol::Resolution),
    ("mInaBs", Symbol::Minabs),
    ("bloCkS", Symbol::Blocks),
    ("nBlkfacs", Symbol::Nblkfacs),
    ("nbLoCKs", Symbol::Nblocks),
    ("exaMINe", Symbol::Examine),
    ("aLiasinG", Symbol::Aliasing),
    ("bLockEd", Symbol::Blocked),
    ("coNfOundinG", Symbol::Confounding),
    ("abeRration", Symbol::Aberration),
    ("oUtput", Symbol::Output),
    ("ouT", Symbol::Out),
    ("pointrep", Symbol::Pointrep),
    ("DEsiGnrEp", Symbol::Designrep),
    ("RANDOMIzE", Symbol::Randomize),
    ("noVaLrAn", Symbol::Novalran),
    ("BlOCkNaMe", Symbol::Blockname),
    ("nvals", Symbol::Nvals),
    ("CVals", Symbol::Cvals),
    ("tiMe", Symbol::Time),
    ("NOchEck", Symbol::Nocheck),
    ("NaMElEn", Symbol::Namelen),
    ("unItefFecT", Symbol::Uniteffect),
    ("eSt", Symbol::Estimate),
    ("e", Symbol::Estimate),
    ("NonNeG", Symbol::Nonnegligible),
    ("n", Symbol::Nonnegligible),
    ("rES", Symbol::Resolution),
    ("R", Symbol::Resolution),
    ("mAx", Symbol::Maximum),
    ("min", Symbol::Minimum),
];

#[test]
fn each_spelling_is_a_keyword(rt: HostRuntime) {
    for (spelling, symbol) in rows_of(&KEYWORDS) {
        has_symbols(&rt, rt.alloc(), spelling, &[*symbol]);
    }
}

/// The symbols of tokens that are no keywords.
const OTHERS: [Symbol; 19] = [
    Symbol::Name,
    Symbol::Name,
    Symbol::Whole,
    Symbol::Decimal,
    Symbol::Decimal,
    Symbol::Quoted,
    Symbol::Quoted,
    Symbol::Name,
    Symbol::Semicolon,
    Symbol::Equals,
    Symbol::Open,
    Symbol::Close,
    Symbol::OpenBracket,
    Symbol::CloseBracket,
    Symbol::Slash,
    Symbol::Star,
    Symbol::Bar,
    Symbol::At,
    Symbol::Minus,
];

#[test]
fn other_tokens_have_their_symbols(rt: HostRuntime) {
    let text = "procs _ 38 2.5 .5 'proc' \"\" x;=()[]/ *|@-";
    has_symbols(&rt, rt.alloc(), text, &OTHERS);
}

ghost use Rattle.std.specs.Prelude.{◌≡◌, ◌≤◌, ◌<◌, ◌+◌, ◌^◌, ◌||◌, []};
ghost use Rattle.fx_language.specs.Repeats.{begins_with, repeated};
ghost use Rattle.fx_language.specs.Pasts.{begun_after, brackets_after, is_option_of, options_after, past_after, past_of};
ghost use Rattle.fx_language.specs.Pasts.{rule_code, step_after};

use crate::code;
use crate::symbol::Symbol;
use crate::symbol_set::SymbolSet;

/// The most steps of a program.
const MOST_STEPS: usize = 100;

/// The first symbol that a rule on words that are repeated or too late refuses, with its code, and its
/// index from 0.
///
/// 26: a statement that its step has already. 27: a statement after a RUN of its step. 28: an option
/// that its statement has already. 32: the PROC of the 101st step.
pub fn first_by_rules(symbols: &[Symbol]) -> Option<(u8, usize)>
    ensures { result ≡ repeated [] 0 symbols.now }
{
    let mut past = Past::at_the_front();
    for (i, s) in symbols.iter().enumerate() {
        let factex_follows = begins_with(Symbol::Factex, &symbols[i + 1..]);
        if let Some(code) = past.rule(*s, factex_follows) {
            return Some((code, i));
        }
        past = past.after(*s);
    }
    None
}

fn begins_with(want: Symbol, symbols: &[Symbol]) -> bool
    ensures { result ≡ begins_with want symbols.now }
{
    !symbols.is_empty() && want.is(symbols[0])
}

/// What is kept of the symbols that were seen.
#[derive(Clone, Copy)]
pub struct Past {
    /// A statement starts here.
    pub start: bool,
    pub behind_equals: bool,
    pub in_brackets: bool,
    /// How many statements begin with PROC.
    pub procs: usize,
    /// The first words of the statements of the step.
    pub step: SymbolSet,
    /// The first word of the statement, `;` where none is begun.
    pub begun: Symbol,
    /// The words of the statement that are not names.
    pub options: SymbolSet,
}

impl Past {
    fn at_the_front() -> Past
        ensures { result ≡ past_of [] }
    {
        Past {
            start: true,
            behind_equals: false,
            in_brackets: false,
            procs: 0,
            step: SymbolSet::empty(),
            begun: Symbol::Semicolon,
            options: SymbolSet::empty(),
        }
    }

    /// The code by which the symbol `s` is refused.
    fn rule(self, s: Symbol, factex_follows: bool) -> Option<u8>
        ensures { result ≡ rule_code self s factex_follows }
    {
        if self.start && s.is_once() && self.step.has(Symbol::Run) {
            return Some(code::STATEMENT_AFTER_RUN);
        }
        if self.start && s.is_once() && self.step.has(s) {
            return Some(code::REPEATED_STATEMENT);
        }
        if self.start && Symbol::Proc.is(s) && factex_follows && MOST_STEPS <= self.procs {
            return Some(code::TOO_MANY_STEPS);
        }
        if !self.awaits_name() && is_option_of(self.begun, s) && self.options.has(s) {
            return Some(code::REPEATED_OPTION);
        }
        None
    }

    /// What is kept after the symbol `s`.
    fn after(self, s: Symbol) -> Past
        requires { self.procs + 1 < 2 ^ 64 }
        ensures value { result ≡ past_after self s }
        ensures procs { result.procs ≤ self.procs + 1 }
    {
        Past {
            start: Symbol::Semicolon.is(s),
            behind_equals: Symbol::Equals.is(s),
            in_brackets: brackets_after(s, self.in_brackets),
            procs: self.procs_after(s),
            step: step_after(self.start, s, self.step),
            begun: begun_after(self.start, s, self.begun),
            options: options_after(self.awaits_name(), s, self.options),
        }
    }

    /// Whether any word is a name here.
    fn awaits_name(self) -> bool
        ensures { result ≡ (self.behind_equals || self.in_brackets) }
    {
        self.behind_equals || self.in_brackets
    }

    fn procs_after(self, s: Symbol) -> usize
        requires { self.procs + 1 < 2 ^ 64 }
        ensures value { result ≡ (past_after self s).procs }
        ensures bound { result ≤ self.procs + 1 }
    {
        if self.start && Symbol::Proc.is(s) {
            self.procs + 1
        } else {
            self.procs
        }
    }
}

/// Whether it is an option of a statement with this first word.
fn is_option_of(begun: Symbol, s: Symbol) -> bool
    ensures { result ≡ is_option_of begun s }
{
    if Symbol::Nodes.is(s) {
        Symbol::Proc.is(begun)
    } else {
        s.is_output_option() && Symbol::Output.is(begun)
    }
}

/// The first words of the step's statements, after the symbol `s`.
fn step_after(start: bool, s: Symbol, words: SymbolSet) -> SymbolSet
    ensures { result ≡ step_after start s words }
{
    if !start {
        return words;
    }
    if Symbol::Proc.is(s) || Symbol::Quit.is(s) {
        return SymbolSet::empty();
    }
    words.with(s)
}

/// The first word of the statement, after the symbol `s`.
fn begun_after(start: bool, s: Symbol, begun: Symbol) -> Symbol
    ensures { result ≡ begun_after start s begun }
{
    if start || Symbol::Semicolon.is(s) {
        s
    } else {
        begun
    }
}

/// The words of the statement that are not names, after the symbol `s`, which is a name where `named`
/// is set.
fn options_after(named: bool, s: Symbol, options: SymbolSet) -> SymbolSet
    ensures { result ≡ options_after named s options }
{
    if Symbol::Semicolon.is(s) {
        return SymbolSet::empty();
    }
    if named {
        return options;
    }
    options.with(s)
}

/// Whether brackets are open after the symbol `s`.
fn brackets_after(s: Symbol, inside: bool) -> bool
    ensures { result ≡ brackets_after s inside }
{
    let closes = Symbol::CloseBracket.is(s) || Symbol::Semicolon.is(s);
    Symbol::OpenBracket.is(s) || (!closes && inside)
}

ghost use Rattle.std.specs.Prelude.{◌≡◌, ◌≤◌, not, drop, length, slice_get, MatchOption, None, Some};
ghost use Rattle.std.specs.List.{prefix_len};
ghost use Rattle.fx_language.specs.Symbols.{is};
ghost use Rattle.fx_text.specs.Phrases.{after, preceding, has_symbol, start_of};
ghost use Rattle.fx_text.specs.Statements.{ends_step};
ghost use Rattle.fx_text.specs.Written.{begins};

use crate::lexeme::Lexeme;
use fx_language::Symbol;
use fx_lexer::Place;
use std::marker::Model;

/// What is written side by side: a statement, or a part of one. Clauses see the list of it.
#[derive(Drop)]
pub struct Phrase<'a> {
    lexemes: &'a [Lexeme<'a>],
}

impl<'a> Model for Phrase<'a> {
    ghost use Rattle.std.specs.Prelude.{List};
    ghost use Rattle.fx_text.specs.Written.{Written};

    ghost Value = { List Written };

    ghost view = { λ p. p.lexemes.now };
}

impl<'a> Phrase<'a> {
    /// The phrase of these lexemes.
    pub fn new(lexemes: &'a [Lexeme<'a>]) -> Phrase<'a>
        ensures { result ≡ lexemes.now }
    {
        Phrase { lexemes }
    }

    /// What is written in it.
    pub fn lexemes(&self) -> &'a [Lexeme<'a>]
        ensures { result.now ≡ self.now }
    {
        self.lexemes
    }

    /// Whether it begins with this symbol.
    pub fn begins(&self, symbol: Symbol) -> bool
        ensures { result ≡ begins symbol self.now }
    {
        !self.lexemes.is_empty() && self.lexemes[0].is(symbol)
    }

    /// Whether it contains this symbol.
    pub fn has(&self, symbol: Symbol) -> bool
        ensures { result ≡ has_symbol symbol self.now }
    {
        self.lexemes.iter().any(|w| w.is(symbol))
    }

    /// The place of its first lexeme, and 1:1 where it is empty.
    pub fn place(&self) -> Place
        ensures { result ≡ start_of self.now }
    {
        if self.lexemes.is_empty() {
            Place { line: 1, column: 1 }
        } else {
            self.lexemes[0].place()
        }
    }

    /// The lexeme at index `i`, counted from 0.
    pub fn at(&self, i: usize) -> Option<&'a Lexeme<'a>>
        ensures { MatchOption result (slice_get self.now i ≡ None)
            (λ w. slice_get self.now i ≡ Some w.now) }
    {
        self.lexemes.get(i)
    }

    /// The rest of it from index `i` on, empty where it is shorter.
    pub fn from(&self, i: usize) -> Phrase<'a>
        ensures { result ≡ drop i self.now }
    {
        if i <= self.lexemes.len() {
            Phrase::new(&self.lexemes[i..])
        } else {
            Phrase::new(&[])
        }
    }

    /// The part before the first such symbol, all of it where there is none.
    pub fn before(&self, symbol: Symbol) -> Phrase<'a>
        ensures { result ≡ preceding symbol self.now }
    {
        Phrase::new(&self.lexemes[..self.len_before(symbol)])
    }

    fn len_before(&self, symbol: Symbol) -> usize
        ensures value { result ≡ prefix_len (λ w. not (is symbol w.symbol)) self.now }
        ensures bound { result ≤ length self.now }
    {
        self.lexemes.iter().take_while(|w| !w.is(symbol)).count()
    }

    /// The part after the first such symbol, empty where there is none.
    pub fn after(&self, symbol: Symbol) -> Phrase<'a>
        ensures { result ≡ after symbol self.now }
    {
        for (i, w) in self.lexemes.iter().enumerate() {
            if w.is(symbol) {
                return Phrase::new(&self.lexemes[i + 1..]);
            }
        }
        Phrase::new(&[])
    }

    /// Whether the step before it ends, where it is a statement.
    pub fn ends_step(&self) -> bool
        ensures { result ≡ ends_step self.now }
    {
        self.begins(Symbol::Proc) || self.begins(Symbol::Quit)
    }
}

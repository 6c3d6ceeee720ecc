ghost use Rattle.std.specs.Prelude.{◌≡◌, ◌≤◌, length, [], Ok, Err, IfOk, IfErr, OnOk};
ghost use Rattle.fx_text.specs.Refusals.{IsRefused};
ghost use Rattle.fx_vectors.specs.Effects.{numbers_of};
ghost use Rattle.fx_vectors.specs.declared.shape.TheConstants.{MOST_FACTORS};
ghost use Rattle.fx_demands.specs.Bars.{AreNumbers};
ghost use Rattle.fx_effects.specs.Expressions.{all_read, read, stars_of, with_name};

use crate::factor::main_effect;
use fx_base::{Bytes, NoMemory};
use fx_language::Symbol;
use fx_text::{Lexeme, ParseStop, Refusal, range_end};
use fx_vectors::{Effect, Effects};
use std::alloc::Global;
use std::marker::Model;

/// Stars that are read from left to right. Clauses see those that are whole, and the factors of the
/// next one.
#[derive(Drop)]
pub(crate) struct Stars {
    whole: Effects,
    next: Effect,
}

impl Model for Stars {
    ghost use Rattle.fx_vectors.specs.Effects.{numbers_of};
    ghost use Rattle.fx_effects.specs.Expressions.{Reading};
    ghost use Rattle.fx_demands.specs.Bars.{AreNumbers};

    ghost Value = { Reading };

    ghost view = { λ s. record { stars = numbers_of s.whole; star = s.next.0 } };

    ghost invariant = { λ s. AreNumbers (numbers_of s.whole) };
}

impl Stars {
    /// No star is read yet.
    pub(crate) fn new(alloc: Global) -> Stars
        ensures { result ≡ record { stars = []; star = 0 } }
    {
        Stars {
            whole: Effects::new(alloc),
            next: Effect(0),
        }
    }

    /// Reads what is written, from left to right.
    ///
    /// # Errors
    ///
    /// E4 at a name that is no factor's, and `NoMemory`.
    pub(crate) fn read_all(
        &mut self,
        factors: &[Bytes],
        written: &[Lexeme<'_>],
    ) -> Result<(), ParseStop>
        requires { length factors.now ≤ MOST_FACTORS }
        ensures ok { OnOk result (all_read factors.now self.old written.now ≡ Ok self.new) }
        ensures refused { IfErr result (IsRefused (all_read factors.now self.old written.now)) }
    {
        for (_i, w) in written.iter().enumerate() {
            self.read(factors, w)?;
        }
        Ok(())
    }

    /// Reads one more word or sign.
    pub(crate) fn read(&mut self, factors: &[Bytes], w: &Lexeme<'_>) -> Result<(), ParseStop>
        requires { length factors.now ≤ MOST_FACTORS }
        ensures ok { OnOk result (read factors.now self.old w.now ≡ Ok self.new) }
        ensures refused { IfErr result (IsRefused (read factors.now self.old w.now)) }
    {
        if w.is(Symbol::Bar) {
            self.end_star()?;
            return Ok(());
        }
        if w.symbol().is_word() {
            self.read_name(factors, w)?;
            return Ok(());
        }
        Ok(())
    }

    /// Adds a factor to the star.
    fn read_name(&mut self, factors: &[Bytes], w: &Lexeme<'_>) -> Result<(), Refusal>
        requires { length factors.now ≤ MOST_FACTORS }
        ensures ok { OnOk result (with_name factors.now self.old w.now ≡ Ok self.new) }
        ensures refused { IfErr result (λ refusal. with_name factors.now self.old w.now ≡ Err refusal) }
    {
        let main = main_effect(factors, w, w.text())?;
        self.next = Effect(self.next.0 | main.0);
        Ok(())
    }

    /// The stars, with the last one.
    pub(crate) fn finish(mut self) -> Result<Effects, NoMemory>
        ensures stars { IfOk result (λ stars. numbers_of stars ≡ stars_of self) }
        ensures numbers { IfOk result (λ stars. AreNumbers (numbers_of stars)) }
    {
        self.end_star()?;
        Ok(self.whole)
    }

    /// Ends a star, where a factor of it was read.
    #[tactic(auto, using(crate::proofs::Numbers::pushed))]
    fn end_star(&mut self) -> Result<(), NoMemory>
        ensures { OnOk result (self.new ≡ record { stars = stars_of self.old; star = 0 }) }
    {
        if self.next.0 != 0 {
            self.whole.push(self.next)?;
            self.next = Effect(0);
        }
        Ok(())
    }
}

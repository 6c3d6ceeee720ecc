//! What the grammar refuses and accepts, without a word on how a symbol is judged.
ghost use Rattle.std.specs.Prelude.{◌≡◌, ◌⊎◌, ◌↔◌, ◌∷◌, ℕ, true, Some, List, take, get_or};
ghost use Rattle.fx_language.specs.declared.symbol.Symbol.{Symbol};
ghost use Rattle.fx_language.specs.Shapes.{Shape, Before, Matches, derivative, ◌▸◌};
ghost use Rattle.fx_language.specs.declared.symbol.Symbol.TheVariants.{End};
ghost use Rattle.fx_language.specs.Grammar.{program};
ghost use Rattle.fx_language.specs.Refusals.{refused};
ghost use Rattle.fx_language.specs.Symbols.{is_word};
ghost use Rattle.fx_language.specs.Laws.{AcceptsPrograms, AwaitsStatement, HasItsCode, HasSameTexts, IsLeftOut, Names, RefusesTheFirst, ended};

/// The symbol that the grammar refuses is exactly the first with which the text begins no program.
pub fn refused_is_the_first()
    ensures { (symbols : List Symbol) (i : ℕ) → RefusesTheFirst symbols i }
{}

/// A text of which the grammar refuses no symbol, nor the end, is a program, and conversely.
pub fn accepted_is_a_program()
    ensures { (symbols : List Symbol) → AcceptsPrograms symbols }
{}

/// The grammar represents the same texts without its codes, and without its rule where a step ends.
pub fn codes_change_no_text()
    ensures { (text : List Symbol) → HasSameTexts text }
{}

/// A sequence represents the texts of its first part, each with one of its second part after it.
pub fn sequence_is_one_before_another()
    ensures { (a b : Shape) (text : List Symbol)
        → Matches (a ▸ b) text ↔ Matches (Before a b) text }
{}

/// What a description leaves after a symbol are its texts that begin with the symbol, without it.
pub fn after_is_what_follows()
    ensures { (s : Symbol) (a : Shape) (text : List Symbol)
        → Matches (derivative s a) text ↔ Matches a (s ∷ text) }
{}

/// A symbol that the grammar refuses has the code that the grammar names for it there. Where it names
/// none, the code is 3 for a word in the place of an option, and else 2.
pub fn refused_by_its_code()
    ensures { (symbols : List Symbol) (code i : ℕ) → refused 0 program symbols ≡ Some (code, i)
        → HasItsCode program (take i symbols) (get_or (ended symbols) i End) code }
{}

/// The grammar names 1 for a word alone, where the word of a statement or the procedure that PROC calls
/// is awaited; 24 for what is left out of the language alone; and no other code.
pub fn named_codes_in_words()
    ensures unknown { (text : List Symbol) (s : Symbol) → Names 1 program text s
        → (is_word s ≡ true) × AwaitsStatement text }
    ensures left_out { (text : List Symbol) (s : Symbol) → Names 24 program text s
        → IsLeftOut text s }
    ensures no_other { (code : ℕ) (text : List Symbol) (s : Symbol) → Names code program text s
        → (code ≡ 1) ⊎ (code ≡ 24) }
{}

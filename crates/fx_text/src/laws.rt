// What a text means is read from its statements. This law says that the statements of a text that is
// accepted are those that the grammar describes, each by its first word.

ghost use Rattle.std.specs.Prelude.{◌≡◌, None, List, ℕ, All};
ghost use Rattle.std.specs.List.{AllByRecursion};
ghost use Rattle.fx_lexer.specs.declared.token.Token.{Token};
ghost use Rattle.fx_lexer.specs.Tokens.{IsToken};
ghost use Rattle.fx_language.specs.Grammar.{program};
ghost use Rattle.fx_language.specs.Keywords.{symbols_of};
ghost use Rattle.fx_language.specs.Refusals.{refused};
ghost use Rattle.fx_text.specs.Sentences.{IsAccepted};
ghost use Rattle.fx_text.specs.Statements.{statements_of};
ghost use Rattle.fx_text.specs.Written.{written};

/// Each statement of a text of which the grammar refuses no symbol is what the grammar describes for
/// its first word, and its words are names.
pub fn statements_are_those_of_the_grammar()
    ensures { (text : List ℕ) (tokens : List Token) → All (IsToken text) tokens
        → refused 0 program (symbols_of text tokens) ≡ None
        → AllByRecursion IsAccepted (statements_of (written text tokens)) }
{}

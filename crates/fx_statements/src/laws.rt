ghost use Rattle.std.specs.Prelude.{◌≡◌, ◌⊎◌, ℕ, true, Ok, IfErr, List, drop};
ghost use Rattle.fx_lexer.specs.declared.token.Token.{Token};
ghost use Rattle.fx_lexer.specs.Lexing.{lexed};
ghost use Rattle.fx_lexer.specs.Places.{IsPlaceIn};
ghost use Rattle.fx_text.specs.Refusals.{IsByRule};
ghost use Rattle.fx_statements.specs.Programs.{program_of};
ghost use Rattle.fx_language.specs.declared.symbol.Symbol.TheVariants as symbol;
ghost use Rattle.fx_language.specs.Grammar as grammar;
ghost use Rattle.fx_text.specs.Written.{Written, begins};
ghost use Rattle.fx_text.specs.Sentences.{IsStatement};
ghost use Rattle.fx_statements.specs.Readings.{AreSectionsRead, IsModelRead};

/// The lists of effects that are read from a MODEL statement that the grammar describes are those
/// between its parentheses, each after its word, unless RESOLUTION is its second word.
pub fn model_is_read_by_the_grammar()
    ensures { (s : List Written) → IsStatement grammar.model s
        → IsModelRead s ⊎ (begins symbol.Resolution (drop 1 s) ≡ true) }
{}

/// What is read from an EXAMINE statement that the grammar describes are the sections that it names,
/// each a word after the first.
pub fn sections_are_read_by_the_grammar()
    ensures { (s : List Written) → IsStatement grammar.examine s → AreSectionsRead s }
{}

/// A text that is refused after its tokens are read is refused by a rule that has a number from 1 to 36,
/// and at a place in the text, that of one of its bytes or of its end.
pub fn refusals_have_a_rule_and_a_place()
    ensures { (text : List ℕ) (tokens : List Token) → lexed text ≡ Ok tokens
        → IfErr (program_of text tokens) (IsByRule (IsPlaceIn text)) }
{}

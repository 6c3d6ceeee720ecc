//! What the tokens and the fault of a text are, without a word on how they are found.
ghost use Rattle.std.specs.Prelude.{◌≡◌, ◌↔◌, Ok, Err, List, [], filter_map};
ghost use Rattle.fx_lexer.specs.declared.token.Token.{Token};
ghost use Rattle.fx_lexer.specs.declared.token.LexFault.{LexFault};
ghost use Rattle.fx_lexer.specs.Lexing.{lexed};
ghost use Rattle.fx_lexer.specs.TextPieces.{Piece, text_of, tokens_among, IsMadeOf};
ghost use Rattle.fx_lexer.specs.Tokens.{spans_of, token_text};
ghost use Rattle.fx_lexer.specs.Flaws.{BreaksOff, IsByLexicalRule};
ghost use Rattle.fx_lexer.specs.Places.{IsPlaceIn};
ghost use Rattle.std.specs.List.{AllByRecursion};

/// A text has tokens exactly where it is white space, comments and these tokens, one after
/// another, and a fault exactly where it is such pieces up to what is at fault.
pub fn text_is_pieces(text: &[u8])
    ensures tokens { (tokens : List Token)
        → (lexed text.now ≡ Ok tokens) ↔ IsMadeOf text.now tokens }
    ensures fault { (fault : LexFault) → (lexed text.now ≡ Err fault) ↔ BreaksOff text.now fault }
{}

/// The spans of the tokens among pieces hold the bytes of the pieces that are tokens.
pub fn spans_hold_the_pieces(text: &[u8])
    ensures { (pieces : List Piece) → text.now ≡ text_of pieces []
        → spans_of text.now (tokens_among [] pieces) ≡ filter_map token_text pieces }
{}

/// The tokens of a text and its first fault are at places in the text, and the fault is by one of the
/// lexical rules.
pub fn tokens_and_faults_have_places(text: &[u8])
    ensures tokens { (tokens : List Token) → lexed text.now ≡ Ok tokens
        → AllByRecursion (λ (t : Token). IsPlaceIn text.now t.line t.column) tokens }
    ensures fault { (fault : LexFault) → lexed text.now ≡ Err fault
        → IsByLexicalRule text.now fault }
{}

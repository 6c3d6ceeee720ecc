ghost use Rattle.std.specs.Prelude.{◌≡◌};
ghost use Rattle.fx_settings.specs.Items.{item_behind};

use fx_language::Symbol;
use fx_text::{Lexeme, range_end};
use std::marker::Model;

/// What FACTORS and FOLDOVER list: a name, or a range of names by its first and its last.
#[derive(Drop)]
pub struct NameItem<'a> {
    pub first: &'a Lexeme<'a>,
    pub last: Option<&'a Lexeme<'a>>,
}

impl<'a> Model for NameItem<'a> {
    ghost use Rattle.std.specs.Option.{option_map};
    ghost use Rattle.fx_settings.specs.Items.{Item, item_of};

    ghost Value = { Item };

    ghost view = { λ i. item_of i.first.now (option_map (λ w. w.now) i.last) };
}

/// The item that begins behind `before`, if one does.
pub fn item_behind<'a>(before: &Lexeme<'a>, rest: &'a [Lexeme<'a>]) -> Option<NameItem<'a>>
    ensures { result ≡ item_behind before.now rest.now }
{
    if rest.is_empty() || before.is(Symbol::Minus) || rest[0].is(Symbol::Minus) {
        return None;
    }
    Some(NameItem {
        first: &rest[0],
        last: range_end(&rest[1..]),
    })
}

ghost use Rattle.std.specs.Prelude.{◌≡◌, ◌&&◌};
ghost use Rattle.fx_language.specs.declared.symbol.Symbol.TheVariants as word;
ghost use Rattle.fx_text.specs.Written.{begins};
ghost use Rattle.fx_text.specs.Phrases.{has_symbol};
ghost use Rattle.fx_statements.specs.Steps.{asks, examine_of};

use fx_language::Symbol;
use fx_text::Statement;

/// The sections of the listing that are asked for besides the rules.
#[derive(Clone, Copy, PartialEq, Eq)]
pub struct Examine {
    /// The components that are aliased with each other.
    pub aliasing: bool,
    /// The components that are confounded with blocks.
    pub blocked: bool,
    /// The runs.
    pub design: bool,
    /// The word-length pattern.
    pub aberration: bool,
}

/// The sections that the EXAMINE statements of a step ask for.
pub(crate) fn examine_of(statements: &[Statement<'_>]) -> Examine
    ensures { result ≡ examine_of statements.now }
{
    Examine {
        aliasing: asks(Symbol::Aliasing, statements),
        blocked: asks(Symbol::Blocked, statements),
        design: asks(Symbol::Design, statements),
        aberration: asks(Symbol::Aberration, statements),
    }
}

/// Whether an EXAMINE statement has this word.
fn asks(section: Symbol, statements: &[Statement<'_>]) -> bool
    ensures { result ≡ asks section statements.now }
{
    statements.iter().any(|s| has_section(section, s))
}

fn has_section(section: Symbol, statement: &Statement<'_>) -> bool
    ensures { result ≡ (begins word.Examine statement.now && has_symbol section statement.now) }
{
    statement.begins(Symbol::Examine) && statement.has(section)
}

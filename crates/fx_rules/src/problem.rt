ghost use Rattle.std.specs.Prelude.{◌≡◌};
ghost use Rattle.fx_rules.specs.Problems.{code_of};

/// Why a text gives no rule matrix.
#[derive(Debug, Clone, Copy, PartialEq, Eq)]
pub enum Problem {
    /// It is not of the form of rules.
    Form,
    /// A name is that of no factor and of no block factor.
    Unknown,
    /// A rule stands behind that of a later factor, or a factor has a second rule.
    OutOfOrder,
    /// A factor of a product introduces no run index before the rule.
    NotBefore,
    /// A factor stands in a product twice.
    Repeated,
    /// A power is not from 1 to q - 1.
    Power,
    /// More factors have no rule than there are run indexes.
    TooMany,
    /// A block factor is said to introduce another run index than the next, or one more than there are.
    NotNext,
}

impl Problem {
    /// The number by which messages name the problem: 1 for P1.
    pub fn code(self) -> u8
        ensures { result ≡ code_of self }
    {
        match self {
            Problem::Form => 1,
            Problem::Unknown => 2,
            Problem::OutOfOrder => 3,
            Problem::NotBefore => 4,
            Problem::Repeated => 5,
            Problem::Power => 6,
            Problem::TooMany => 7,
            Problem::NotNext => 8,
        }
    }
}

/// The first thing that is wrong with a text of rules, and how many bytes stand before it.
#[derive(Debug, Clone, Copy, PartialEq, Eq)]
pub struct RulesFault {
    pub problem: Problem,
    pub at: usize,
}

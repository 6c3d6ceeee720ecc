ghost use Rattle.std.specs.Prelude.{◌≡◌};
ghost use Rattle.fx_book.specs.Versions.{most_factors_in, version_of};

use crate::part::is_word;
use fx_vectors::{MOST_FACTORS, MOST_FACTORS_OF_MANY_LEVELS};

/// The versions of the text of a book.
#[derive(Debug, Clone, Copy, PartialEq, Eq)]
pub enum Version {
    /// Words are written by their numbers.
    First,
    /// Short words are written by their places.
    Second,
}

impl Version {
    /// The most factors of a shape of q levels without block factors.
    pub(crate) fn most_factors(self, q: u128) -> u128
        ensures { result ≡ most_factors_in self q }
    {
        match self {
            Version::First => MOST_FACTORS_OF_MANY_LEVELS as u128,
            Version::Second => {
                if q <= 3 {
                    MOST_FACTORS as u128
                } else {
                    MOST_FACTORS_OF_MANY_LEVELS as u128
                }
            }
        }
    }
}

/// The version that line 1 names.
pub(crate) fn version_of(line: &[u8]) -> Option<Version>
    ensures { result ≡ version_of line.now }
{
    if is_word(line, b"factex-book 1") {
        Some(Version::First)
    } else if is_word(line, b"factex-book 2") {
        Some(Version::Second)
    } else {
        None
    }
}

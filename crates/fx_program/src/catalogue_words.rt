ghost use Rattle.std.specs.Prelude.{◌≡◌, ◌<◌, ◌≤◌, IfOk, IsTrue, false};
ghost use Rattle.fx_designs.specs.Galois.{is_order};
ghost use Rattle.fx_settings.specs.Powers.{greatest};
ghost use Rattle.fx_statements.specs.Valid.{most_factors_of};
ghost use Rattle.fx_program.specs.CommandLine.{
  HasOrder,
  HasShapes,
  HasThreads,
  bytes_of,
  catalogue_with,
  factors_of_catalogue,
  indexes_of_catalogue,
};

use crate::word_fault::{WordFault, WordFaultKind};
use crate::words::{Extra, Settings, number_at, options_in, order_at};
use fx_settings::greatest;
use fx_vectors::{MOST_FACTORS, MOST_FACTORS_OF_MANY_LEVELS};

/// How many nodes each question of a catalogue may have, where no option says it.
const USUAL_NODES: u64 = 1000000;

/// The settings of `catalogue`, by the words after it: the numbers of levels, of run indexes and of the most factors,
/// and then the options. Takes no memory.
pub(crate) fn catalogue_with(words: &[Vec<u8>]) -> Result<Settings, WordFault>
    ensures threads { IfOk result HasThreads }
    ensures order { IfOk result HasOrder }
    ensures shapes { IfOk result HasShapes }
    ensures settings { result ≡ catalogue_with (bytes_of words.now) }
{
    let Some((word, others)) = words.split_first() else {
        return Err(WordFault {
            kind: WordFaultKind::MissingNumber,
            word: 2,
        });
    };
    let q = order_at(2, word.as_slice())?;
    with_levels(q, others)
}

/// The same where the number of levels is read.
fn with_levels(q: u8, words: &[Vec<u8>]) -> Result<Settings, WordFault>
    requires { IsTrue (is_order q) }
    ensures threads { IfOk result HasThreads }
    ensures order { IfOk result HasOrder }
    ensures shapes { IfOk result HasShapes }
    ensures settings { result ≡ indexes_of_catalogue q (bytes_of words.now) }
{
    let Some((word, others)) = words.split_first() else {
        return Err(WordFault {
            kind: WordFaultKind::MissingNumber,
            word: 3,
        });
    };
    let m = number_at(3, 1, greatest(q), word.as_slice())?;
    with_indexes(q, m, others)
}

/// The same where the number of run indexes is read too. A catalogue is of designs with more factors.
fn with_indexes(q: u8, m: u8, words: &[Vec<u8>]) -> Result<Settings, WordFault>
    requires levels { IsTrue (is_order q) }
    requires indexes { (1 ≤ m) × (m ≤ greatest q) }
    ensures threads { IfOk result HasThreads }
    ensures order { IfOk result HasOrder }
    ensures shapes { IfOk result HasShapes }
    ensures settings { result ≡ factors_of_catalogue q m (bytes_of words.now) }
{
    let Some((word, options)) = words.split_first() else {
        return Err(WordFault {
            kind: WordFaultKind::MissingNumber,
            word: 4,
        });
    };
    let upto = number_at(4, m + 1, most_factors(q), word.as_slice())?;
    let given = options_in(5, Extra::Nodes, options)?;
    Ok(Settings::Catalogue {
        q,
        m,
        upto,
        threads: given.threads.unwrap_or(1),
        nodes: given.extra.unwrap_or(USUAL_NODES),
    })
}

/// The most factors of a design with so many levels.
pub(crate) fn most_factors(q: u8) -> u8
    ensures { result ≡ most_factors_of q false }
{
    if q == 2 || q == 3 {
        MOST_FACTORS as u8
    } else {
        MOST_FACTORS_OF_MANY_LEVELS as u8
    }
}

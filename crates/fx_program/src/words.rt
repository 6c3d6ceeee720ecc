ghost use Rattle.std.specs.Prelude.{◌≡◌, ◌≤◌, ◌+◌, ◌++◌, codes, length, true, false, Option, None, Some, MatchOption, is_some, IfErr, IfOk, IfSome, IsTrue};
ghost use Rattle.std.specs.List.{list_all};
ghost use Rattle.std.specs.Str.{bytes_eq};
ghost use Rattle.fx_designs.specs.Galois.{is_order};
ghost use Rattle.fx_lexer.specs.Bytes.{is_digit};
ghost use Rattle.fx_program.specs.CommandLine.{AreThreads, HasOrder, HasShapes, HasThreads, IsOfExtra, IsWordFault, after_threads, bytes_of, command_with, judge_with, large_with, make_with, option_count, options_in, plan_with, run_with, settings_of, steps_at, with_extra, with_option, without_options, word_line};
ghost use Rattle.fx_program.specs.Words.{after_prefix, is_decimal, number_at, once, order_at, order_of, within};
ghost use Rattle.fx_program.specs.declared.words.Extra.TheVariants as extra;

use crate::catalogue_words::catalogue_with;
use crate::table_words::{AskedTable, tables_with};
use crate::word_fault::{WordFault, WordFaultKind};
use arrayvec::ArrayVec;
use fx_galois::Field;
use fx_text::number;
use itoa::Buffer;

/// The room of a line that reports a fault: its two numbers have at most 40 digits each.
const LINE: usize = 128;

/// How the option for the number of threads begins.
const THREADS: &[u8] = b"--threads=";

/// How the option for the seed begins.
const SEED: &[u8] = b"--seed=";

/// How the option for the number of nodes begins.
const NODES: &[u8] = b"--nodes=";

/// The greatest number of nodes of a question.
const MOST_NODES: u64 = 5000000;

/// What the words of the command line ask for.
#[derive(Clone, Copy, PartialEq, Eq)]
pub enum Settings {
    /// Runs the program text that is read.
    Run {
        /// How many threads search, 1 to 64.
        threads: u8,
        /// What random numbers start from, where a statement has no seed of its own.
        seed: u64,
    },
    /// Gives the designs of the rules that stand in the text that is read before each of its steps.
    Plan {
        /// What random numbers start from, where a statement has no seed of its own.
        seed: u64,
    },
    /// Checks the book that is read.
    Check,
    /// Writes the text of the book that is read in version 2.
    Upgrade,
    /// Writes the program text of so many steps.
    Make {
        n: u8,
    },
    /// Runs the program text of so many steps, and writes how many have a design.
    Large {
        n: u8,
        /// How many threads search, 1 to 64.
        threads: u8,
    },
    /// Judges the plan that is read.
    Judge {
        /// How many levels its factors have.
        q: u8,
    },
    /// Lists the designs of least pattern for more and more factors.
    Catalogue {
        /// How many levels the factors have.
        q: u8,
        /// How many run indexes the designs have.
        m: u8,
        /// The greatest number of factors.
        upto: u8,
        /// How many threads search, 1 to 64.
        threads: u8,
        /// How many nodes each question may have.
        nodes: u64,
    },
    /// Lists the designs of least key for more and more factors: ordinary ones, in blocks or in split plots.
    Tables {
        asked: AskedTable,
    },
}

/// The settings that the words ask for, or the first fault. Takes no memory.
pub fn read_words(words: &[Vec<u8>]) -> Result<Settings, WordFault>
    ensures settings { result ≡ settings_of (bytes_of words.now) }
    ensures threads { IfOk result HasThreads }
    ensures order { IfOk result HasOrder }
    ensures shapes { IfOk result HasShapes }
    ensures fault { IfErr result (IsWordFault (length (bytes_of words.now) + 1)) }
{
    match words.split_first() {
        Some((command, options)) => command_with(command.as_slice(), options),
        None => Err(WordFault {
            kind: WordFaultKind::NoWord,
            word: 1,
        }),
    }
}

/// The options that a command allows: that for threads, alone or with one more, or the seed alone.
#[derive(Clone, Copy)]
pub(crate) enum Extra {
    Nothing,
    Seed,
    Nodes,
    SeedAlone,
}

/// The options of the words, as far as they are given.
#[derive(Clone, Copy)]
pub(crate) struct Options {
    pub(crate) threads: Option<u8>,
    /// The number of the extra option that the command allows.
    pub(crate) extra: Option<u64>,
}

/// The settings of a command with these options.
fn command_with(command: &[u8], options: &[Vec<u8>]) -> Result<Settings, WordFault>
    ensures settings { result ≡ command_with command.now (bytes_of options.now) }
    ensures threads { IfOk result HasThreads }
    ensures order { IfOk result HasOrder }
    ensures shapes { IfOk result HasShapes }
{
    if command == b"run".as_slice() {
        return run_with(options);
    }
    if command == b"plan".as_slice() {
        return plan_with(options);
    }
    if command == b"check".as_slice() {
        return without_options(Settings::Check, options);
    }
    if command == b"upgrade".as_slice() {
        return without_options(Settings::Upgrade, options);
    }
    if command == b"make".as_slice() {
        return make_with(options);
    }
    if command == b"large".as_slice() {
        return large_with(options);
    }
    if command == b"judge".as_slice() {
        return judge_with(options);
    }
    if command == b"catalogue".as_slice() {
        return catalogue_with(options);
    }
    if command == b"tables".as_slice() {
        return tables_with(options);
    }
    Err(WordFault {
        kind: WordFaultKind::UnknownCommand,
        word: 1,
    })
}

/// The settings of `run`, with one thread and the seed 0 where they are not given.
fn run_with(options: &[Vec<u8>]) -> Result<Settings, WordFault>
    ensures threads { IfOk result HasThreads }
    ensures order { IfOk result HasOrder }
    ensures shapes { IfOk result HasShapes }
    ensures settings { result ≡ run_with (options_in 2 extra.Seed (bytes_of options.now)) }
{
    let given = options_in(2, Extra::Seed, options)?;
    Ok(Settings::Run {
        threads: given.threads.unwrap_or(1),
        seed: given.extra.unwrap_or(0),
    })
}

/// The settings of `plan`, with the seed 0 where it is not given.
fn plan_with(options: &[Vec<u8>]) -> Result<Settings, WordFault>
    ensures threads { IfOk result HasThreads }
    ensures order { IfOk result HasOrder }
    ensures shapes { IfOk result HasShapes }
    ensures settings { result ≡ plan_with (options_in 2 extra.SeedAlone (bytes_of options.now)) }
{
    let given = options_in(2, Extra::SeedAlone, options)?;
    Ok(Settings::Plan {
        seed: given.extra.unwrap_or(0),
    })
}

/// These settings, for a command that no word follows.
fn without_options(settings: Settings, options: &[Vec<u8>]) -> Result<Settings, WordFault>
    ensures given { IfOk result (λ same. same ≡ settings) }
    ensures settings { result ≡ without_options settings (bytes_of options.now) }
{
    if options.is_empty() {
        Ok(settings)
    } else {
        Err(WordFault {
            kind: WordFaultKind::UnknownOption,
            word: 2,
        })
    }
}

/// The settings of `make`: the number of steps is the one word after the command.
fn make_with(words: &[Vec<u8>]) -> Result<Settings, WordFault>
    ensures threads { IfOk result HasThreads }
    ensures order { IfOk result HasOrder }
    ensures shapes { IfOk result HasShapes }
    ensures settings { result ≡ make_with (bytes_of words.now) }
{
    let Some((word, others)) = words.split_first() else {
        return Err(WordFault {
            kind: WordFaultKind::MissingNumber,
            word: 2,
        });
    };
    let n = steps_at(2, word.as_slice())?;
    if others.is_empty() {
        Ok(Settings::Make { n })
    } else {
        Err(WordFault {
            kind: WordFaultKind::UnknownOption,
            word: 3,
        })
    }
}

/// The settings of `large`: the number of steps, and then at most the number of threads.
fn large_with(words: &[Vec<u8>]) -> Result<Settings, WordFault>
    ensures threads { IfOk result HasThreads }
    ensures order { IfOk result HasOrder }
    ensures shapes { IfOk result HasShapes }
    ensures settings { result ≡ large_with (bytes_of words.now) }
{
    let Some((word, others)) = words.split_first() else {
        return Err(WordFault {
            kind: WordFaultKind::MissingNumber,
            word: 2,
        });
    };
    let n = steps_at(2, word.as_slice())?;
    let given = options_in(3, Extra::Nothing, others)?;
    Ok(Settings::Large {
        n,
        threads: given.threads.unwrap_or(1),
    })
}

/// The settings of `judge`: the number of levels is the one word after the command.
fn judge_with(words: &[Vec<u8>]) -> Result<Settings, WordFault>
    ensures threads { IfOk result HasThreads }
    ensures order { IfOk result HasOrder }
    ensures shapes { IfOk result HasShapes }
    ensures settings { result ≡ judge_with (bytes_of words.now) }
{
    let Some((word, others)) = words.split_first() else {
        return Err(WordFault {
            kind: WordFaultKind::MissingNumber,
            word: 2,
        });
    };
    let q = order_at(2, word.as_slice())?;
    if others.is_empty() {
        Ok(Settings::Judge { q })
    } else {
        Err(WordFault {
            kind: WordFaultKind::UnknownOption,
            word: 3,
        })
    }
}

/// The options of words from this place on.
pub(crate) fn options_in(
    place: u32,
    allowed: Extra,
    words: &[Vec<u8>],
) -> Result<Options, WordFault>
    requires { place ≤ 5 }
    ensures threads { IfOk result (λ given. IfSome given.threads AreThreads) }
    ensures extra { IfOk result (λ given. IfSome given.extra (IsOfExtra allowed)) }
    ensures options { result ≡ options_in place allowed (bytes_of words.now) }
{
    let mut given = Options {
        threads: None,
        extra: None,
    };
    let mut at = place;
    for word in words {
        given = with_option(at, allowed, given, word.as_slice())?;
        at += 1;
    }
    Ok(given)
}

/// The options with that of the word at this place.
fn with_option(
    place: u32,
    allowed: Extra,
    given: Options,
    word: &[u8],
) -> Result<Options, WordFault>
    requires threads { IfSome given.threads AreThreads }
    requires extra { IfSome given.extra (IsOfExtra allowed) }
    ensures threads { IfOk result (λ more. IfSome more.threads AreThreads) }
    ensures extra { IfOk result (λ more. IfSome more.extra (IsOfExtra allowed)) }
    ensures options { result ≡ with_option place allowed given word.now }
    ensures count { IfOk result (λ more. option_count more ≡ option_count given + 1) }
    ensures few { option_count given ≤ 2 }
{
    if let Some(digits) = after_threads(allowed, word) {
        let threads = once(place, given.threads.is_some(), few_within(1, 64, digits))?;
        return Ok(Options {
            threads: Some(threads),
            extra: given.extra,
        });
    }
    match allowed {
        Extra::Nothing => Err(WordFault {
            kind: WordFaultKind::UnknownOption,
            word: place,
        }),
        Extra::Seed => with_extra(place, given, SEED, 0, u64::MAX, word),
        Extra::SeedAlone => with_extra(place, given, SEED, 0, u64::MAX, word),
        Extra::Nodes => with_extra(place, given, NODES, 1, MOST_NODES, word),
    }
}

/// What follows `--threads=` in a word, for a command that allows this option.
fn after_threads(allowed: Extra, word: &[u8]) -> Option<&[u8]>
    ensures { MatchOption result (after_threads allowed word.now ≡ None)
        (λ digits. after_threads allowed word.now ≡ Some digits.now) }
{
    match allowed {
        Extra::Nothing | Extra::Seed | Extra::Nodes => word.strip_prefix(THREADS),
        Extra::SeedAlone => None,
    }
}

/// The options with an extra one of this name and within these limits, of the word at this place.
fn with_extra(
    place: u32,
    given: Options,
    name: &[u8],
    low: u64,
    high: u64,
    word: &[u8],
) -> Result<Options, WordFault>
    ensures threads { IfOk result (λ more. more.threads ≡ given.threads) }
    ensures extra { IfOk result (λ more. IfSome more.extra (λ n. (low ≤ n) × (n ≤ high))) }
    ensures options { result ≡ with_extra place given name.now low high word.now }
    ensures count { IfOk result (λ more. option_count more ≡ option_count given + 1) }
{
    let Some(digits) = word.strip_prefix(name) else {
        return Err(WordFault {
            kind: WordFaultKind::UnknownOption,
            word: place,
        });
    };
    let number = once(place, given.extra.is_some(), within(low, high, digits))?;
    Ok(Options {
        threads: given.threads,
        extra: Some(number),
    })
}

/// The number of steps of the word at this place, 1 to 100.
fn steps_at(place: u32, word: &[u8]) -> Result<u8, WordFault>
    ensures { result ≡ steps_at place word.now }
{
    number_at(place, 1, 100, word)
}

/// The number of the word at this place, within these limits.
pub(crate) fn number_at(place: u32, low: u8, high: u8, word: &[u8]) -> Result<u8, WordFault>
    ensures number { result ≡ number_at place low high word.now }
    ensures range { IfOk result (λ n. (low ≤ n) × (n ≤ high)) }
{
    match few_within(low, high, word) {
        Some(n) => Ok(n),
        None => Err(WordFault {
            kind: WordFaultKind::InvalidNumber,
            word: place,
        }),
    }
}

/// The number of levels of the word at this place.
pub(crate) fn order_at(place: u32, word: &[u8]) -> Result<u8, WordFault>
    ensures order { result ≡ order_at place word.now }
    ensures known { IfOk result (λ q. IsTrue (is_order q)) }
{
    match order_of(word) {
        Some(q) => Ok(q),
        None => Err(WordFault {
            kind: WordFaultKind::InvalidNumber,
            word: place,
        }),
    }
}

/// The number of levels that these digits write, one of the seven that there are.
fn order_of(digits: &[u8]) -> Option<u8>
    ensures order { result ≡ order_of digits.now }
    ensures known { IfSome result (λ q. IsTrue (is_order q)) }
{
    if !is_number(digits) {
        return None;
    }
    match u8::try_from(number(digits)) {
        Ok(q) if Field::of(q).is_some() => Some(q),
        _ => None,
    }
}

/// The value of an option of the word at this place, unless the option had one before.
pub(crate) fn once<T: Drop>(place: u32, had: bool, value: Option<T>) -> Result<T, WordFault>
    ensures once { (earlier : Option T) → is_some earlier ≡ had → result ≡ once place earlier value }
    ensures value { IfOk result (λ given. value ≡ Some given) }
    ensures new { IfOk result (λ given. had ≡ false) }
{
    if had {
        return Err(WordFault {
            kind: WordFaultKind::RepeatedOption,
            word: place,
        });
    }
    match value {
        Some(value) => Ok(value),
        None => Err(WordFault {
            kind: WordFaultKind::InvalidNumber,
            word: place,
        }),
    }
}

/// The number that these digits write, within these limits.
fn few_within(low: u8, high: u8, digits: &[u8]) -> Option<u8>
    ensures value { result ≡ within low high digits.now }
    ensures range { IfSome result (λ n. (low ≤ n) × (n ≤ high)) }
{
    if !is_number(digits) {
        return None;
    }
    match u8::try_from(number(digits)) {
        Ok(n) if low <= n && n <= high => Some(n),
        _ => None,
    }
}

/// The same of greater numbers.
pub(crate) fn within(low: u64, high: u64, digits: &[u8]) -> Option<u64>
    ensures value { result ≡ within low high digits.now }
    ensures range { IfSome result (λ n. (low ≤ n) × (n ≤ high)) }
{
    if !is_number(digits) {
        return None;
    }
    match u64::try_from(number(digits)) {
        Ok(n) if low <= n && n <= high => Some(n),
        _ => None,
    }
}

/// Whether these are 1 to 20 decimal digits.
fn is_number(digits: &[u8]) -> bool
    ensures { result ≡ is_decimal digits.now }
{
    are_digits(digits) && 1 <= digits.len() && digits.len() <= 20
}

fn are_digits(bytes: &[u8]) -> bool
    ensures { result ≡ list_all is_digit bytes.now }
{
    bytes.iter().all(|b| b.is_ascii_digit())
}

/// The line that reports a fault. It takes no memory, so that refused words are reported even where
/// there is none.
pub fn word_line(fault: WordFault) -> ArrayVec<u8, LINE>
    ensures { result.items ≡ word_line fault }
{
    let mut code = Buffer::new();
    let mut word = Buffer::new();
    let mut line = ArrayVec::new();
    append(&mut line, b"factex: C");
    append(&mut line, code.format(fault.kind.code()).as_bytes());
    append(&mut line, b" word ");
    append(&mut line, word.format(fault.word).as_bytes());
    append(&mut line, b"\n");
    line
}

/// Appends bytes for which there is room.
pub fn append<const N: usize>(line: &mut ArrayVec<u8, N>, bytes: &[u8])
    requires { length line.old.items + length bytes.now ≤ N }
    ensures { line.new.items ≡ line.old.items ++ bytes.now }
{
    for byte in bytes {
        line.push(*byte);
    }
}

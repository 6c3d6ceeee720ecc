ghost use Rattle.std.specs.Prelude.{◌≡◌};
ghost use Rattle.fx_program.specs.Words.{code_of};

/// What is wrong with words of the command line.
#[derive(Clone, Copy, PartialEq, Eq)]
pub enum WordFaultKind {
    /// There is no word.
    NoWord,
    /// The first word is no command.
    UnknownCommand,
    /// A word is no option of the command.
    UnknownOption,
    /// A number is none of 1 to 20 digits, or is not in its range, or an order has another name.
    InvalidNumber,
    /// An option is given already.
    RepeatedOption,
    /// A number of the command is missing, or `--inside` without `--whole-plots`, or the reverse.
    MissingNumber,
}

impl WordFaultKind {
    /// The number by which messages name the fault: 1 for C1.
    pub fn code(self) -> u8
        ensures { result ≡ code_of self }
    {
        match self {
            WordFaultKind::NoWord => 1,
            WordFaultKind::UnknownCommand => 2,
            WordFaultKind::UnknownOption => 3,
            WordFaultKind::InvalidNumber => 4,
            WordFaultKind::RepeatedOption => 5,
            WordFaultKind::MissingNumber => 6,
        }
    }
}

/// Why the words are refused.
#[derive(Clone, Copy, PartialEq, Eq)]
pub struct WordFault {
    pub kind: WordFaultKind,
    /// Which word, counted from 1; where one is missing, its place.
    pub word: u32,
}

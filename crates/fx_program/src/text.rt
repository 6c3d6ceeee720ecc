ghost use Rattle.std.specs.Prelude.{◌≡◌, ◌≤◌, length, Ok, Err, IfOk, IfErr, map};
ghost use Rattle.fx_statements.specs.Steps.{meaning_of};
ghost use Rattle.fx_program.specs.Texts.{IsFault, at_front, program_in};

use fx_lexer::{LexFault, LexStop, lex};
use fx_statements::{ParseStop, Program, Refusal, parse};
use std::alloc::Global;

/// The greatest number of bytes of a program text, with its rules or without.
pub(crate) const TEXT_LIMIT: usize = 1048576;

/// Why a text has no program.
#[derive(Debug, Clone, Copy)]
pub enum TextFault {
    /// Its first lexical fault.
    Lexical(LexFault),
    /// Its first refusal.
    Refused(Refusal),
}

/// Why no program is read.
#[derive(Debug, Clone, Copy)]
pub enum TextStop {
    /// The text has none, for this reason.
    Fault(TextFault),
    /// Memory ran out.
    NoMemory,
}

/// A refusal at the front of the text.
pub(crate) fn at_front(code: u8) -> TextFault
    ensures { result ≡ at_front code }
{
    TextFault::Refused(Refusal {
        code,
        line: 1,
        column: 1,
    })
}

/// The program of a text of at most 1,048,576 bytes.
///
/// # Errors
///
/// `Fault` with the first fault of the text; and `NoMemory`.
pub fn read_program(alloc: Global, text: &[u8]) -> Result<Program, TextStop>
    requires { length text.now ≤ 1048576 }
    ensures program { IfOk result (λ program. program_in text.now ≡ Ok (map meaning_of program)) }
    ensures fault { IfErr result (IsFault (program_in text.now)) }
{
    let tokens = match lex(alloc, text) {
        Ok(tokens) => tokens,
        Err(LexStop::Fault(fault)) => return Err(TextStop::Fault(TextFault::Lexical(fault))),
        Err(LexStop::NoMemory) => return Err(TextStop::NoMemory),
    };
    match parse(alloc, text, &tokens) {
        Ok(program) => Ok(program),
        Err(ParseStop::Refused(refusal)) => Err(TextStop::Fault(TextFault::Refused(refusal))),
        Err(ParseStop::NoMemory) => Err(TextStop::NoMemory),
    }
}

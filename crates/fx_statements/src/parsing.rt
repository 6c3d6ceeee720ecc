ghost use Rattle.std.specs.Prelude.{◌≡◌, ◌≤◌, ◌==◌, not, map, reverse, length, Ok, IfOk, IfErr, All};
ghost use Rattle.std.specs.List.{AllByRecursion, IsDistinct, prefix_len};
ghost use Rattle.std.specs.Option.{option_map};
ghost use Rattle.fx_lexer.specs.Tokens.{IsToken};
ghost use Rattle.fx_lexer.specs.Places.{column_after, line_after};
ghost use Rattle.fx_text.specs.Refusals.{IsRefused};
ghost use Rattle.fx_text.specs.Names.{is_same_name};
ghost use Rattle.fx_text.specs.Sentences.{IsAccepted};
ghost use Rattle.fx_text.specs.Statements.{ends_step};
ghost use Rattle.fx_statements.specs.Steps.{meaning_of};
ghost use Rattle.fx_statements.specs.Programs.{meaning_of_all, out_names, place_in, program_of};

use crate::step::Step;
use crate::stepping::step_of;
use fx_base::Items;
use fx_language::{Symbol, first_refusal, symbols};
use fx_lexer::{Token, Tokens};
use fx_outputs::EarlierPlans;
use fx_text::{ParseStop, Place, Refusal, Statement, lexemes, statements};
use std::alloc::Global;

/// The steps of a program, in order.
pub type Program = Items<Step>;

/// The program of a text of at most 1,048,576 bytes, whose tokens these are. No two OUT names of its
/// steps are the same, without regard to case.
///
/// # Errors
///
/// The first refusal: of the grammar and of words that are repeated or are too late, from left to right;
/// then of the meaning, step by step. And `NoMemory`.
#[tactic(auto, unfolding(crate::specs::Programs::program_of))]
pub fn parse(alloc: Global, text: &[u8], tokens: &Tokens) -> Result<Program, ParseStop>
    requires length { length text.now ≤ 1048576 }
    requires tokens { All (IsToken text.now) tokens.now }
    ensures program { IfOk result (λ program.
        program_of text.now tokens.now ≡ Ok (map meaning_of program)) }
    ensures out_names_differ { IfOk result (λ program. IsDistinct is_same_name (out_names program)) }
    ensures refused { IfErr result (IsRefused (program_of text.now tokens.now)) }
{
    let symbols = symbols(alloc, text, tokens)?;
    if let Some((code, at)) = first_refusal(symbols.as_slice()) {
        let place = place_in(text, tokens.as_slice().get(at));
        return Err(ParseStop::Refused(Refusal::at(place, code)));
    }
    let lexemes = lexemes(alloc, text, tokens, symbols.as_slice())?;
    let statements = statements(alloc, lexemes.as_slice())?;
    steps(alloc, statements.as_slice())
}

/// The place of a token, or that of the end of the text.
fn place_in(text: &[u8], token: Option<&Token>) -> Place
    requires { length text.now ≤ 1048576 }
    ensures { result ≡ place_in text.now (option_map (λ t. t.now) token.entry) }
{
    match token {
        Some(token) => Place {
            line: token.line,
            column: token.column,
        },
        None => Place {
            line: line_after(text),
            column: column_after(text),
        },
    }
}

fn line_after(text: &[u8]) -> u32
    requires { length text.now ≤ 1048576 }
    ensures { result ≡ line_after text.now }
{
    1 + text.iter().filter(|b| is_line_feed(**b)).count() as u32
}

fn column_after(text: &[u8]) -> u32
    requires { length text.now ≤ 1048576 }
    ensures { result ≡ column_after text.now }
{
    1 + last_line_len(text) as u32
}

/// How many bytes follow the last line feed.
fn last_line_len(text: &[u8]) -> usize
    ensures value { result ≡ prefix_len (λ b. not (b == 10)) (reverse text.now) }
    ensures bound { result ≤ length text.now }
{
    text.iter().rev().take_while(|b| !is_line_feed(**b)).count()
}

fn is_line_feed(b: u8) -> bool
    ensures { result ≡ (b == 10) }
{
    b == b'\n'
}

/// The steps among the statements of a text.
fn steps(alloc: Global, statements: &[Statement<'_>]) -> Result<Program, ParseStop>
    requires { AllByRecursion IsAccepted statements.now }
    ensures program { IfOk result (λ program.
        meaning_of_all statements.now ≡ Ok (map meaning_of program)) }
    ensures differ { IfOk result (λ program. IsDistinct is_same_name (out_names program)) }
    ensures refused { IfErr result (IsRefused (meaning_of_all statements.now)) }
{
    let mut earlier = EarlierPlans::new(alloc);
    let mut program = Program::new(alloc);
    for (i, statement) in statements.iter().enumerate() {
        if !statement.begins(Symbol::Proc) {
            continue;
        }
        let len = 1 + rest_len(&statements[i + 1..]);
        let step = step_of(alloc, &mut earlier, &statements[i..i + len])?;
        program.push(step)?;
    }
    Ok(program)
}

/// How many statements precede one that ends the step.
fn rest_len(statements: &[Statement<'_>]) -> usize
    ensures value { result ≡ prefix_len (λ s. not (ends_step s)) statements.now }
    ensures bound { result ≤ length statements.now }
{
    statements.iter().take_while(|s| !s.ends_step()).count()
}

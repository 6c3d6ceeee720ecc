ghost use Rattle.std.specs.Prelude.{◌≡◌, ◌++◌, map, OnOk};
ghost use Rattle.fx_program.specs.Reasons.{reason_row};
ghost use Rattle.fx_program.specs.Messages.{fault_line, lexical_reasons, line_at, listed_at, plan_fault_line, plan_line, problem_reason, reason_of, reasons};

use crate::plan_fault::PlanFault;
use crate::text::TextFault;
use fx_base::{Bytes, NoMemory, put, put_number};
use fx_language::code;
use fx_rules::Problem;
use fx_text::Place;

/// A row of a table of reasons: the number of a rule, and what it says.
#[derive(Clone, Copy)]
pub struct Reason {
    /// The number of the rule.
    pub code: u8,
    /// What it says, in one line without its end.
    pub text: &'static [u8],
}

/// Appends the line that tells where the text is refused, and why.
pub(crate) fn put_fault(out: &mut Bytes, fault: TextFault) -> Result<(), NoMemory>
    ensures { OnOk result (out.new ≡ out.old ++ fault_line fault) }
{
    match fault {
        TextFault::Lexical(fault) => {
            let reason = listed_at(&lexical_reasons(), fault.kind);
            put_line(out, b"L", fault.kind, fault.line, fault.column, reason)
        }
        TextFault::Refused(refusal) => {
            let reason = reason_of(refusal.code);
            put_line(
                out,
                b"E",
                refusal.code,
                refusal.line,
                refusal.column,
                reason,
            )
        }
    }
}

/// Appends the line that tells where a text with rules is refused, and why.
pub(crate) fn put_plan_fault(out: &mut Bytes, fault: PlanFault) -> Result<(), NoMemory>
    ensures { OnOk result (out.new ≡ out.old ++ plan_fault_line fault) }
{
    match fault {
        PlanFault::Program(fault) => put_fault(out, fault),
        PlanFault::Apart(place) => {
            let reason = b"a step has no rules, or rules have no step";
            put_plan_line(out, 9, place, reason)
        }
        PlanFault::Searching(place) => {
            let reason = b"a minimum, a maximum or MINABS with rules";
            put_plan_line(out, 10, place, reason)
        }
        PlanFault::Rules(problem, place) => {
            put_plan_line(out, problem.code(), place, problem_reason(problem))
        }
    }
}

/// Appends the line of a rule on rules that stand before a step.
fn put_plan_line(out: &mut Bytes, code: u8, place: Place, reason: &[u8]) -> Result<(), NoMemory>
    ensures { OnOk result (out.new ≡ out.old ++ plan_line code place reason.now) }
{
    put_line(out, b"P", code, place.line, place.column, reason)
}

/// Appends the line: the rule by its letter and number, the place, and what the rule says.
fn put_line(
    out: &mut Bytes,
    letter: &[u8],
    code: u8,
    line: u32,
    column: u32,
    reason: &[u8],
) -> Result<(), NoMemory>
    ensures { OnOk result (out.new ≡ out.old ++ line_at letter.now code line column reason.now) }
{
    put(out, b"factex: ")?;
    put(out, letter)?;
    put_number(out, u128::from(code))?;
    put(out, b" ")?;
    put_number(out, u128::from(line))?;
    put(out, b":")?;
    put_number(out, u128::from(column))?;
    put(out, b" ")?;
    put(out, reason)?;
    put(out, b"\n")
}

/// What the rule of this number says.
fn reason_of(code: u8) -> &'static [u8]
    ensures { result.now ≡ reason_of code }
{
    listed_at(&reasons(), code)
}

/// What stands beside the number in a table, or nothing.
fn listed_at(reasons: &[Reason], code: u8) -> &'static [u8]
    ensures { result.now ≡ listed_at (map reason_row reasons.now) code }
{
    for reason in reasons {
        if reason.code == code {
            return reason.text;
        }
    }
    b""
}

fn row(code: u8, text: &'static [u8]) -> Reason
    ensures { reason_row result ≡ (code, text.now) }
{
    Reason { code, text }
}

/// What the lexical rules say.
fn lexical_reasons() -> [Reason; 5]
    ensures { map reason_row result ≡ lexical_reasons }
{
    [
        row(1, b"comment is not closed"),
        row(2, b"string is not closed"),
        row(3, b"character is not allowed"),
        row(4, b"number is too long"),
        row(5, b"name is too long"),
    ]
}

/// What is wrong with rules.
fn problem_reason(problem: Problem) -> &'static [u8]
    ensures { result.now ≡ problem_reason problem }
{
    match problem {
        Problem::Form => b"rules are not of their form",
        Problem::Unknown => b"name is no factor and no block factor",
        Problem::OutOfOrder => b"rules are not in the order of the factors",
        Problem::NotBefore => b"factor has no run index before this product",
        Problem::Repeated => b"factor is twice in a product",
        Problem::Power => b"power is no code",
        Problem::TooMany => b"more factors without a rule than run indexes",
        Problem::NotNext => b"run factor is not the next",
    }
}

/// What the rules with the letter E say.
fn reasons() -> [Reason; 36]
    ensures { map reason_row result ≡ reasons }
{
    [
        row(code::UNKNOWN_STATEMENT, b"statement is not known"),
        row(code::UNEXPECTED_SYMBOL, b"unexpected word or end"),
        row(code::UNKNOWN_OPTION, b"option is not known"),
        row(code::UNKNOWN_FACTOR, b"factor is not known"),
        row(code::REPEATED_NAME, b"name is repeated"),
        row(
            code::INVALID_LEVELS,
            b"number of levels is not 2, 3, 4, 5, 7, 8 or 9",
        ),
        row(code::NO_FACTORS, b"step has no FACTORS statement"),
        row(
            code::SIZE_NOT_A_POWER,
            b"size is not a power of the number of levels",
        ),
        row(code::TOO_MANY_RUNS, b"more than 1024 runs"),
        row(code::TOO_MANY_FACTORS, b"too many factors"),
        row(code::INVALID_RESOLUTION, b"resolution is not from 3 to 99"),
        row(code::MINABS_WITH_ESTIMATE, b"MINABS with ESTIMATE"),
        row(
            code::MAXIMUM_WITH_BLOCKS,
            b"MINABS with BLOCKS, or two maxima",
        ),
        row(
            code::MINIMUM_WITH_MAXIMUM,
            b"minimum size with a maximum or MINABS",
        ),
        row(
            code::BLOCKS_NOT_A_POWER,
            b"blocks are not a power of the number of levels",
        ),
        row(code::TOO_MANY_BLOCKS, b"more blocks than runs"),
        row(
            code::WRONG_NUMBER_OF_VALUES,
            b"number of values differs from number of levels",
        ),
        row(code::REPEATED_OUT_NAME, b"OUT name is repeated"),
        row(code::SEED_TOO_LARGE, b"seed is too large"),
        row(
            code::INVALID_REPLICATION,
            b"replication is not from 1 to 200000",
        ),
        row(code::TOO_MANY_ROWS, b"more than 200000 rows"),
        row(code::TOO_MANY_DEMANDS, b"more than 2000000 demands"),
        row(code::TOO_MANY_EFFECTS, b"more than 100000 effects"),
        row(code::NOT_IN_PROFILE, b"not kept in this profile"),
        row(code::TEXT_TOO_LONG, b"text is over 1048576 bytes"),
        row(
            code::REPEATED_STATEMENT,
            b"statement is repeated in the step",
        ),
        row(code::STATEMENT_AFTER_RUN, b"statement after RUN"),
        row(code::REPEATED_OPTION, b"option is repeated"),
        row(code::NUMBER_OUT_OF_RANGE, b"number is out of range"),
        row(code::IRREGULAR_RANGE, b"range of names is not regular"),
        row(code::BLOCKNAME_WITHOUT_BLOCKS, b"BLOCKNAME without BLOCKS"),
        row(code::TOO_MANY_STEPS, b"more than 100 steps"),
        row(code::UNKNOWN_PLAN, b"plan is not known"),
        row(code::REPEATED_COLUMN, b"column is repeated"),
        row(
            code::INVALID_DERIVED_FACTOR,
            b"derived factor has too few or too many levels",
        ),
        row(
            code::FOLDOVER_NEEDS_TWO_LEVELS,
            b"FOLDOVER needs two levels and no BLOCKS",
        ),
    ]
}

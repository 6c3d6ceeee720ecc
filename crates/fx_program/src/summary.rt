ghost use Rattle.std.specs.Prelude.{◌≡◌, ◌<◌, ◌+◌, ◌^◌, ◌++◌, ℕ, Option, map, IfOk, OnOk};
ghost use Rattle.fx_vectors.specs.Matrix.{MatrixView};
ghost use Rattle.fx_statements.specs.Endings.{ending_by};
ghost use Rattle.fx_statements.specs.Steps.{meaning_of};
ghost use Rattle.fx_program.specs.Summaries.{counted, five_lines};
ghost use Rattle.fx_program.specs.Summed.{HasRoom, IsSummaryOf, with_ending};

use crate::session::Session;
use crate::status::{status_of, worse};
use fx_answer::answer;
use fx_base::{Bytes, NoMemory, put, put_number};
use fx_board::FreeGate;
use fx_statements::{End, Step};
use std::thread::Threads;

/// How the steps of a program end.
#[derive(Clone, Copy)]
pub struct Summary {
    /// How many have a design.
    pub designs: usize,
    /// How many have none.
    pub without: usize,
    /// How many ran out of their budget.
    pub cut_short: usize,
    /// The nodes of all together; a step that ran out of its budget counts with that.
    pub nodes: u128,
    /// The greatest of their statuses.
    pub status: u8,
}

/// The summary of the steps of a program, which are answered one after another.
pub(crate) fn summary_of<R: Threads + Sync>(
    session: &Session<'_, R>,
    steps: &[Step],
) -> Result<Summary, NoMemory>
    ensures summary { IfOk result (IsSummaryOf (map meaning_of steps.now)) }
    ensures low { IfOk result (λ summary. summary.status < 4) }
{
    let mut summary = Summary {
        designs: 0,
        without: 0,
        cut_short: 0,
        nodes: 0,
        status: 0,
    };
    for step in steps {
        let outcome = answer(session.rt, session.alloc, step, session.threads, &FreeGate)?;
        summary = with_ending(summary, outcome.end, outcome.nodes);
    }
    Ok(summary)
}

/// The summary with one step more, which ends so after so many nodes.
fn with_ending(summary: Summary, end: End, nodes: u64) -> Summary
    requires { HasRoom summary }
    ensures summary { (matrix : Option MatrixView)
        → result ≡ with_ending summary (ending_by end matrix nodes) }
    ensures few { result.nodes < summary.nodes + 2 ^ 64 }
{
    let nodes = summary.nodes + u128::from(nodes);
    let status = worse(summary.status, status_of(end));
    match end {
        End::Design => Summary {
            designs: summary.designs + 1,
            nodes,
            status,
            ..summary
        },
        End::NoDesign => Summary {
            without: summary.without + 1,
            nodes,
            status,
            ..summary
        },
        End::Budget => Summary {
            cut_short: summary.cut_short + 1,
            nodes,
            status,
            ..summary
        },
    }
}

/// Appends the lines of a summary of so many steps.
///
/// # Errors
///
/// `NoMemory`; `out` then holds some first bytes of the lines after what it held.
pub(crate) fn put_summary(out: &mut Bytes, steps: usize, summary: &Summary) -> Result<(), NoMemory>
    ensures { OnOk result (out.new ≡ out.old ++ five_lines steps summary.now.designs
        summary.now.without summary.now.cut_short summary.now.nodes) }
{
    put_counted(out, b"steps", steps as u128)?;
    put_counted(out, b"designs", summary.designs as u128)?;
    put_counted(out, b"none", summary.without as u128)?;
    put_counted(out, b"ended", summary.cut_short as u128)?;
    put_counted(out, b"nodes", summary.nodes)
}

/// Appends a line of a word and a number.
fn put_counted(out: &mut Bytes, word: &[u8], n: u128) -> Result<(), NoMemory>
    ensures { OnOk result (out.new ≡ out.old ++ counted word.now n) }
{
    put(out, word)?;
    put(out, b" ")?;
    put_number(out, n)?;
    put(out, b"\n")
}

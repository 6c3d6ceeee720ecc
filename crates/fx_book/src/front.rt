ghost use Rattle.std.specs.Prelude.{◌≡◌, ◌≤◌, length, drop, IfOk};
ghost use Rattle.fx_vectors.specs.Shape.{IsShape};
ghost use Rattle.fx_vectors.specs.Question.{is_resolution, requirement_of};
ghost use Rattle.fx_book.specs.Valid.{AreDemands, IsValidHead};
ghost use Rattle.fx_book.specs.Parts.{lines_of};
ghost use Rattle.fx_book.specs.Heads.{IsHeadOf, head_of, from_demands, from_beat, may_be_beaten};

use crate::beat::beat_of;
use crate::demands::demands_of;
use crate::fault::{BookStop, FaultKind};
use crate::head::shape_of;
use crate::part::next_stop;
use crate::reading::stop;
use crate::version::Version;
use fx_vectors::{Demands, Head, Question, Shape};
use std::alloc::Global;

/// What a text is about, and where the line after those that say it begins.
#[derive(Drop)]
pub struct Front {
    pub head: Head,
    pub from: usize,
}

/// What lines 2 to 4 say, where line 2 begins at `at`; it is valid. The work is linear in their bytes.
///
/// # Errors
///
/// `Fault`, the first of these lines, and `NoMemory`.
pub fn read_head(
    alloc: Global,
    version: Version,
    bytes: &[u8],
    at: usize,
) -> Result<Front, BookStop>
    requires { at ≤ length bytes.now }
    ensures read { IsHeadOf bytes.now (head_of version (lines_of (drop at bytes.now))) result }
    ensures valid { IfOk result (λ front. IsValidHead front.head) }
    ensures within { IfOk result (λ front. front.from ≤ length bytes.now) }
{
    let end = next_stop(bytes, at, b'\n');
    if end == bytes.len() {
        return Err(stop(FaultKind::Size, 2));
    }
    match shape_of(version, &bytes[at..end]) {
        None => Err(stop(FaultKind::Size, 2)),
        Some(shape) => from_demands(alloc, bytes, end + 1, shape),
    }
}

/// The head with this shape whose line 3 begins at `at`.
fn from_demands(alloc: Global, bytes: &[u8], at: usize, shape: Shape) -> Result<Front, BookStop>
    requires at { at ≤ length bytes.now }
    requires shaped { IsShape shape }
    ensures read { IsHeadOf bytes.now (from_demands shape (lines_of (drop at bytes.now))) result }
    ensures valid { IfOk result (λ front. IsValidHead front.head) }
    ensures within { IfOk result (λ front. front.from ≤ length bytes.now) }
{
    let end = next_stop(bytes, at, b'\n');
    if end == bytes.len() {
        return Err(stop(FaultKind::Demands, 3));
    }
    match demands_of(alloc, shape, &bytes[at..end])? {
        None => Err(stop(FaultKind::Demands, 3)),
        Some(demands) => from_beat(alloc, bytes, end + 1, shape, demands),
    }
}

/// The head with this shape and these demands whose line 4 begins at `at`.
fn from_beat(
    alloc: Global,
    bytes: &[u8],
    at: usize,
    shape: Shape,
    demands: Demands,
) -> Result<Front, BookStop>
    requires at { at ≤ length bytes.now }
    requires shaped { IsShape shape }
    requires asked { AreDemands shape demands }
    ensures read { IsHeadOf bytes.now (from_beat shape demands (lines_of (drop at bytes.now))) result }
    ensures valid { IfOk result (λ front. IsValidHead front.head) }
    ensures within { IfOk result (λ front. front.from ≤ length bytes.now) }
{
    let end = next_stop(bytes, at, b'\n');
    if end == bytes.len() {
        return Err(stop(FaultKind::Pattern, 4));
    }
    let allowed = may_be_beaten(shape, &demands);
    match beat_of(alloc, shape.s, allowed, &bytes[at..end])? {
        None => Err(stop(FaultKind::Pattern, 4)),
        Some(beat) => {
            let question = Question {
                shape,
                demands,
                least: beat.is_some(),
            };
            Ok(Front {
                head: Head { question, beat },
                from: end + 1,
            })
        }
    }
}

/// Whether there may be a pattern to beat: under a resolution, without block factors.
fn may_be_beaten(shape: Shape, demands: &Demands) -> bool
    ensures { result ≡ may_be_beaten shape demands.now }
{
    shape.t == 0 && is_resolution(demands)
}

fn is_resolution(demands: &Demands) -> bool
    ensures { result ≡ is_resolution (requirement_of demands.now) }
{
    match demands {
        Demands::Resolution { .. } => true,
        Demands::Effects { .. } => false,
    }
}

//! From a literal to clauses of a window.

ghost use Rattle.std.specs.Prelude.{◌≡◌, ◌≤◌, IfOk};
ghost use Rattle.base.specs.Budget.{Spends};
ghost use Rattle.graph.specs.Circuits.{variable};
ghost use Rattle.induction_windows.specs.declared.finding.Found.TheVariants.{Spent};

use crate::clauses::clauses_of;
use crate::history::History;
use base::{Budget, Refused, Seq};
use engine::Progress;
use graph::{Latch, Lit, Model};
use solver::{Sat, SatError};
use std::alloc::Global;
use window_search::{Frames, Noted, Resting, Window, find_window};

/// Latches that extend a circuit, and clauses over both.
#[derive(Drop)]
pub struct Extended {
    /// the latches, of the variables behind the circuit's
    pub latches: Vec<Latch>,
    /// the clauses
    pub clauses: Seq<Seq<Lit>>,
}

/// What is found of a literal.
#[derive(Drop)]
pub enum Found {
    /// Clauses that are said to be an inductive invariant, and to exclude the literal.
    Clauses(Extended),
    /// No window is long enough, as far as was asked, or the literal can be set at one of the first times.
    Open,
    /// There are more than 4,194,303 variables or clauses.
    TooMany,
    /// The budget is exhausted.
    Spent,
}

/// The clauses of what a window rests on.
fn extended_by(
    alloc: Global,
    circuit: &Model,
    frames: &Frames,
    resting: &Resting,
    length: u32,
) -> Result<Found, Refused>
    ensures { IfOk result (λ f. f ≡ Spent → ⊥) }
{
    let Some(history) = History::new(alloc, circuit, frames, resting, length)? else {
        return Ok(Found::TooMany);
    };
    let clauses = clauses_of(alloc, frames, resting, &history, length)?;
    if clauses.is_full {
        return Ok(Found::TooMany);
    }
    let latches = history.latches(alloc)?;
    Ok(Found::Clauses(Extended {
        latches,
        clauses: clauses.list,
    }))
}

/// The clauses of a window of so many times.
fn extended_for(
    alloc: Global,
    circuit: &Model,
    frames: &Frames,
    length: u32,
    budget: &mut Budget,
) -> Result<Found, SatError>
    ensures spends { Spends budget.old budget.new }
    ensures spent { IfOk result (λ f. f ≡ Spent → budget.new.left ≡ 0) }
{
    let mut resting = Resting::new(alloc, frames)?;
    match resting.note_window(alloc, frames, length, budget)? {
        Noted::All => Ok(extended_by(alloc, circuit, frames, &resting, length)?),
        Noted::Satisfied => Ok(Found::Open),
        Noted::TooMany => Ok(Found::TooMany),
        Noted::Spent => Ok(Found::Spent),
    }
}

/// Looks for the shortest window of at most so many times of a literal. It takes what the literal and the constraints rest on once
/// for each time.
pub fn find_clauses<S: Sat, P: Progress>(
    alloc: Global,
    circuit: &Model,
    bad: Lit,
    solver: &mut S,
    most: u8,
    progress: &mut P,
    budget: &mut Budget,
) -> Result<Found, SatError>
    requires bad { variable bad ≤ circuit.now.max_var }
    ensures spends { Spends budget.old budget.new }
    // A budget that is said to be exhausted is.
    ensures spent { IfOk result (λ f. f ≡ Spent → budget.new.left ≡ 0) }
{
    let frames = Frames::new(alloc, circuit, bad, u32::from(most) + 1)?;
    match find_window(solver, alloc, &frames, most, progress, budget)? {
        Window::Of(length) => extended_for(alloc, circuit, &frames, length, budget),
        Window::Open => Ok(Found::Open),
        Window::Spent => Ok(Found::Spent),
    }
}

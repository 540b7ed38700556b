//! The search for a window.

ghost use Rattle.std.specs.Prelude.{◌≡◌, IfOk, OnOk, All, Some};
ghost use Rattle.base.specs.Budget.{Spends};
ghost use Rattle.lrat.specs.Literals.{IsLiteral};
ghost use Rattle.window_search.specs.declared.window.Reply.TheVariants.{Spent};
ghost use Rattle.window_search.specs.declared.window.Window.TheVariants.{Spent as NoneLeft};

use crate::fact::When;
use crate::frames::Frames;
use base::{Budget, Refused, push};
use engine::Progress;
use solver::{Answer, Sat, SatError};
use std::alloc::Global;

/// So many clauses are added for one step of the budget.
const CLAUSES_A_STEP: usize = 64;

/// What a solver answers of a question.
#[derive(Clone, Copy)]
enum Reply {
    /// Nothing satisfies it.
    Refuted,
    /// Something does.
    Satisfied,
    /// The budget is exhausted.
    Spent,
}

/// What the search ends in.
#[derive(Clone, Copy)]
pub enum Window {
    /// A window of so many times is long enough.
    Of(u32),
    /// The literal is set in the first times, or no window is long enough.
    Open,
    /// The budget is exhausted.
    Spent,
}

/// Pays for the facts of so many times.
pub(crate) fn pay(frames: &Frames, times: u32, budget: &mut Budget)
    ensures { Spends budget.old budget.new }
{
    let steps = (frames.facts.len() / CLAUSES_A_STEP) as u64;
    budget.spend(steps.saturating_mul(u64::from(times)));
}

/// Adds the facts of a time.
fn add_time<S: Sat>(
    solver: &mut S,
    alloc: Global,
    frames: &Frames,
    delay: u32,
) -> Result<(), SatError>
    requires { S.vars solver.old ≡ frames.now }
    ensures { S.vars solver.new ≡ S.vars solver.old }
{
    let mut clause = Vec::new(alloc);
    'adding: for fact in frames.facts.iter() {
        if fact.is_at(delay) {
            frames.write(&mut clause, *fact, delay)?;
            solver.add(alloc, clause.as_slice())?;
        }
    }
    Ok(())
}

/// Adds the resets of a time to what is assumed.
fn assume_resets(assumed: &mut Vec<i32>, frames: &Frames, delay: u32) -> Result<(), Refused>
    requires { All (IsLiteral frames.now) assumed.old.items }
    ensures { OnOk result (All (IsLiteral frames.now) assumed.new.items) }
{
    'assuming: for fact in frames.facts.iter() {
        if fact.when == When::First {
            push(assumed, frames.literal(fact.lits[0], delay))?;
        }
    }
    Ok(())
}

/// The bad literal at the last time, and where a time is a first one, its resets.
fn assumptions(alloc: Global, frames: &Frames, first: Option<u32>) -> Result<Vec<i32>, Refused>
    ensures { IfOk result (λ v. All (IsLiteral frames.now) v.items) }
{
    let mut assumed = Vec::new(alloc);
    push(&mut assumed, frames.literal(frames.bad, 0))?;
    if let Some(delay) = first {
        assume_resets(&mut assumed, frames, delay)?;
    }
    Ok(assumed)
}

/// Asks whether the bad literal can be set at the last time, where a time may be a first one.
fn ask<S: Sat>(
    solver: &mut S,
    alloc: Global,
    frames: &Frames,
    first: Option<u32>,
    budget: &mut Budget,
) -> Result<Reply, SatError>
    requires vars { S.vars solver.old ≡ frames.now }
    ensures vars { S.vars solver.new ≡ S.vars solver.old }
    ensures spends { Spends budget.old budget.new }
    ensures spent { IfOk result (λ r. r ≡ Spent → budget.new.left ≡ 0) }
{
    let assumed = assumptions(alloc, frames, first)?;
    match solver.solve(alloc, assumed.as_slice(), budget)? {
        Answer::Core(_) => Ok(Reply::Refuted),
        Answer::Model(_) => Ok(Reply::Satisfied),
        Answer::Spent => Ok(Reply::Spent),
    }
}

/// Begins with the last time alone.
fn begin<S: Sat>(solver: &mut S, alloc: Global, frames: &Frames) -> Result<(), SatError>
    ensures { OnOk result (S.vars solver.new ≡ frames.now) }
{
    solver.reset(alloc, frames.vars())?;
    solver.add(alloc, &[frames.truth()])?;
    add_time(solver, alloc, frames, 0)
}

/// Asks about the first run of so many times, and then, with one time more before these, about a window of so many. Open where
/// that is not long enough.
fn ask_length<S: Sat>(
    solver: &mut S,
    alloc: Global,
    frames: &Frames,
    length: u32,
    budget: &mut Budget,
) -> Result<Option<Window>, SatError>
    requires vars { S.vars solver.old ≡ frames.now }
    ensures vars { S.vars solver.new ≡ S.vars solver.old }
    ensures spends { Spends budget.old budget.new }
    ensures spent { IfOk result (λ w. w ≡ Some NoneLeft → budget.new.left ≡ 0) }
{
    match ask(
        solver,
        alloc,
        frames,
        Some(length.saturating_sub(1)),
        budget,
    )? {
        Reply::Refuted => {}
        Reply::Satisfied => return Ok(Some(Window::Open)),
        Reply::Spent => return Ok(Some(Window::Spent)),
    }
    add_time(solver, alloc, frames, length)?;
    match ask(solver, alloc, frames, None, budget)? {
        Reply::Refuted => Ok(Some(Window::Of(length))),
        Reply::Satisfied => Ok(None),
        Reply::Spent => Ok(Some(Window::Spent)),
    }
}

/// Looks for a window of at most so many times.
pub fn find_window<S: Sat, P: Progress>(
    solver: &mut S,
    alloc: Global,
    frames: &Frames,
    most: u8,
    progress: &mut P,
    budget: &mut Budget,
) -> Result<Window, SatError>
    ensures spends { Spends budget.old budget.new }
    ensures spent { IfOk result (λ w. w ≡ NoneLeft → budget.new.left ≡ 0) }
{
    begin(solver, alloc, frames)?;
    'widening: for before in 0..u32::from(most) {
        progress.depth_begun(before + 1, frames.variables(before + 1), budget);
        pay(frames, 1, budget);
        if let Some(window) = ask_length(solver, alloc, frames, before + 1, budget)? {
            return Ok(window);
        }
    }
    Ok(Window::Open)
}

//! What refutations rest on.

ghost use Rattle.std.specs.Prelude.{◌≡◌, ◌++◌, ◌∷◌, [], ℕ, All, IfOk, OnOk};
ghost use Rattle.base.specs.Budget.{Spends};
ghost use Rattle.lrat.specs.Literals.{IsLiteral};
ghost use Rattle.window_search.specs.declared.resting.Noted.TheVariants.{Spent};

use crate::fact::When;
use crate::frames::Frames;
use crate::window::pay;
use base::{Budget, Refused, Seq, filled_like, push};
use cdcl::{Refuted, refute};
use lrat::{Clause, Formula, Line};
use solver::SatError;
use std::alloc::Global;

/// How many clauses a formula may have.
const MOST_CLAUSES: usize = 4_294_967_295;

/// Where a clause comes from.
#[derive(Clone, Copy)]
struct Source {
    /// the place of a fact
    fact: usize,
    /// how long before the last time it is so
    delay: u32,
}

/// The clauses of a question about some times.
#[derive(Drop)]
struct Question {
    clauses: Seq<Clause>,
    /// where the first clauses come from, in their order
    sources: Vec<Source>,
}

/// What comes of a question.
#[derive(Clone, Copy)]
pub enum Noted {
    /// What its refutation rests on is noted.
    All,
    /// Something satisfies it.
    Satisfied,
    /// It has too many clauses.
    TooMany,
    /// The budget is exhausted.
    Spent,
}

/// A time in a question.
#[derive(Clone, Copy)]
struct Time {
    /// how long it is before the last one
    pub delay: u32,
    /// whether it is a first one
    pub is_first: bool,
}

/// Adds a clause.
fn push_clause(alloc: Global, to: &mut Seq<Clause>, clause: &[i32]) -> Result<(), Refused>
    ensures pushed { OnOk result (to.new ≡ to.old ++ clause.now ∷ []) }
    ensures within { (n : ℕ) → All (All (IsLiteral n)) to.old → All (IsLiteral n) clause.now → OnOk result (All (All (IsLiteral n)) to.new) }
{
    to.push(Clause::from_slice(alloc, clause)?)
}

impl Question {
    /// Adds the facts of a time.
    fn add_time(&mut self, alloc: Global, frames: &Frames, time: Time) -> Result<(), Refused>
        requires { All (All (IsLiteral frames.now)) self.old.clauses }
        ensures { OnOk result (All (All (IsLiteral frames.now)) self.new.clauses) }
    {
        let mut clause = Vec::new(alloc);
        'adding: for (place, fact) in frames.facts.iter().enumerate() {
            if fact.is_at(time.delay) || (time.is_first && fact.when == When::First) {
                frames.write(&mut clause, *fact, time.delay)?;
                push_clause(alloc, &mut self.clauses, clause.as_slice())?;
                let source = Source {
                    fact: place,
                    delay: time.delay,
                };
                push(&mut self.sources, source)?;
            }
        }
        Ok(())
    }

    /// Adds the facts of the times from the last one to this.
    fn add_times(&mut self, alloc: Global, frames: &Frames, earliest: Time) -> Result<(), Refused>
        requires { All (All (IsLiteral frames.now)) self.old.clauses }
        ensures { OnOk result (All (All (IsLiteral frames.now)) self.new.clauses) }
    {
        'adding: for delay in 0..earliest.delay {
            let is_first = false;
            self.add_time(alloc, frames, Time { delay, is_first })?;
        }
        self.add_time(alloc, frames, earliest)
    }

    /// What is so at the times from the last one to this, and that the bad literal is set at the last one.
    fn of(alloc: Global, frames: &Frames, earliest: Time) -> Result<Question, Refused>
        ensures { IfOk result (λ q. All (All (IsLiteral frames.now)) q.clauses) }
    {
        let mut question = Question {
            clauses: Seq::new(alloc),
            sources: Vec::new(alloc),
        };
        question.add_times(alloc, frames, earliest)?;
        let bad = frames.literal(frames.bad, 0);
        push_clause(alloc, &mut question.clauses, &[frames.truth()])?;
        push_clause(alloc, &mut question.clauses, &[bad])?;
        Ok(question)
    }
}

/// How long before the last time each fact is needed.
#[derive(Drop)]
pub struct Resting {
    /// for each fact the greatest delay, or 0
    pub delays: Vec<u32>,
}

impl Resting {
    /// Nothing is needed yet.
    pub fn new(alloc: Global, frames: &Frames) -> Result<Resting, Refused> {
        let delays = filled_like(alloc, 0, frames.facts.as_slice())?;
        Ok(Resting { delays })
    }

    /// Notes the facts of these hints.
    fn note_hints(&mut self, sources: &[Source], hints: &[i64]) {
        for hint in hints {
            let place = hint.unsigned_abs().saturating_sub(1) as usize;
            if let Some(source) = sources.get(place)
                && let Some(delay) = self.delays.get_mut(source.fact)
            {
                *delay = source.delay.max(*delay);
            }
        }
    }

    /// Notes the facts on which these lines rest.
    fn note_lines(&mut self, sources: &[Source], lines: &[Line]) {
        for line in lines {
            if let Line::Add { hints, .. } = line {
                self.note_hints(sources, hints.as_slice());
            }
        }
    }

    /// Notes what shows that the bad literal is not set at the last time, where the times up to this one are as they are.
    fn note(
        &mut self,
        alloc: Global,
        frames: &Frames,
        earliest: Time,
        budget: &mut Budget,
    ) -> Result<Noted, SatError>
        ensures spends { Spends budget.old budget.new }
        ensures spent { IfOk result (λ r. r ≡ Spent → budget.new.left ≡ 0) }
    {
        let Question { clauses, sources } = Question::of(alloc, frames, earliest)?;
        if clauses.len() > MOST_CLAUSES {
            return Ok(Noted::TooMany);
        }
        let vars = frames.vars();
        match refute(alloc, &Formula { vars, clauses }, budget)? {
            Refuted::Proof(proof) => {
                self.note_lines(sources.as_slice(), proof.lines());
                Ok(Noted::All)
            }
            Refuted::Model(_) => Ok(Noted::Satisfied),
            Refuted::Spent => Ok(Noted::Spent),
        }
    }

    /// Notes what the first times rest on before a window of so many times.
    fn note_first(
        &mut self,
        alloc: Global,
        frames: &Frames,
        length: u32,
        budget: &mut Budget,
    ) -> Result<Noted, SatError>
        ensures spends { Spends budget.old budget.new }
        ensures spent { IfOk result (λ r. r ≡ Spent → budget.new.left ≡ 0) }
    {
        'noting: for delay in 0..length {
            pay(frames, delay.saturating_add(1), budget);
            let is_first = true;
            match self.note(alloc, frames, Time { delay, is_first }, budget)? {
                Noted::All => {}
                other => return Ok(other),
            }
        }
        Ok(Noted::All)
    }

    /// Notes what a window of so many times rests on, and the first times that it leaves.
    pub fn note_window(
        &mut self,
        alloc: Global,
        frames: &Frames,
        length: u32,
        budget: &mut Budget,
    ) -> Result<Noted, SatError>
        ensures spends { Spends budget.old budget.new }
        ensures spent { IfOk result (λ r. r ≡ Spent → budget.new.left ≡ 0) }
    {
        match self.note_first(alloc, frames, length, budget)? {
            Noted::All => {}
            other => return Ok(other),
        }
        pay(frames, length.saturating_add(1), budget);
        let window = Time {
            delay: length,
            is_first: false,
        };
        self.note(alloc, frames, window, budget)
    }
}

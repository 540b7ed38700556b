//! Solvers and random simulation that spend the budget when the time is over.

ghost use Rattle.std.specs.Prelude.{◌≡◌, All, IfOk, IfErr, IfSome};
ghost use Rattle.base.specs.Budget.{Spends};
ghost use Rattle.lrat.specs.Literals.{IsLiteral};
ghost use Rattle.solver.specs.Answers.{IsLawful};
ghost use Rattle.solver.specs.Full.{full};
ghost use Rattle.solver.specs.declared.sat_error.SatError.TheVariants.{Limit};

use base::Budget;
use engine_random::Watch;
use solver::{Answer, Part, PartSat, Sat, SatError, Statistics};
use std::alloc::Global;
use std::io;
use std::time::Instant;

/// How many steps a question takes at a time, so that the clock is looked at between them.
const PIECE: u64 = 200_000;

/// When the time of a command is over, where it has a limit.
#[derive(Clone, Copy)]
pub struct Deadline {
    rt: HostRuntime,
    begun: Option<Instant>,
    seconds: u64,
}

impl Deadline {
    /// So many seconds from now, or never.
    pub fn after(rt: &HostRuntime, seconds: Option<u64>) -> io::Result<Deadline> {
        let begun = match seconds {
            Some(_) => Some(Instant::now(rt)?),
            None => None,
        };
        Ok(Deadline {
            rt: *rt,
            begun,
            seconds: seconds.unwrap_or(0),
        })
    }

    /// Whether there is one.
    pub fn is_set(&self) -> bool {
        self.begun.is_some()
    }

    /// Whether the time is over. Where the system refuses the clock, it is.
    pub fn is_over(&self) -> bool {
        let Some(begun) = self.begun else {
            return false;
        };
        match Instant::now(&self.rt) {
            Ok(now) => now.duration_since(begun).as_secs() >= self.seconds,
            Err(_) => true,
        }
    }
}

impl Watch for Deadline {
    fn is_over(&self) -> bool {
        Deadline::is_over(self)
    }
}

/// Spends what is left.
pub fn exhaust(budget: &mut Budget)
    ensures spends { Spends budget.old budget.new }
    ensures none { budget.new.left ≡ 0 }
{
    let left = budget.left();
    budget.spend(left);
}

/// A solver that is asked no more once the time is over: what is left of the budget is spent then.
#[derive(Drop)]
pub struct Timed<S> {
    solver: S,
    deadline: Deadline,
}

impl<S> Timed<S> {
    /// The solver, to be asked until then.
    pub fn new(solver: S, deadline: Deadline) -> Timed<S> {
        Timed { solver, deadline }
    }
}

/// Asks the solver with a piece of the budget.
fn ask_piece<S: Sat>(
    solver: &mut S,
    alloc: Global,
    assume: &[i32],
    budget: &mut Budget,
) -> Result<Option<Answer>, SatError>
    requires { All (IsLiteral (S.vars solver.old)) assume.now }
    ensures vars { S.vars solver.new ≡ S.vars solver.old }
    ensures clauses { S.clauses solver.new ≡ S.clauses solver.old }
    ensures spends { Spends budget.old budget.new }
    ensures lawful { IfOk result (λ r. IfSome r (IsLawful (S.vars solver.old) (S.clauses solver.old) assume.now budget.new)) }
    ensures limit { IfErr result (λ e. e ≡ Limit full → S.is_full solver.new) }
{
    let mut piece = Budget::new(budget.left().min(PIECE));
    let answer = solver.solve(alloc, assume, &mut piece)?;
    budget.spend(piece.spent());
    match answer {
        Answer::Spent => Ok(None),
        answer => Ok(Some(answer)),
    }
}

impl<S: Sat> Sat for Timed<S> {
    ghost vars = { λ t. S.vars t.solver };

    ghost clauses = { λ t. S.clauses t.solver };

    ghost is_full = { λ t. S.is_full t.solver };

    fn reset(&mut self, alloc: Global, count: u32) -> Result<(), SatError> {
        self.solver.reset(alloc, count)
    }

    fn vars(&self) -> u32 {
        self.solver.vars()
    }

    fn add(&mut self, alloc: Global, clause: &[i32]) -> Result<(), SatError> {
        self.solver.add(alloc, clause)
    }

    fn solve(
        &mut self,
        alloc: Global,
        assume: &[i32],
        budget: &mut Budget,
    ) -> Result<Answer, SatError> {
        if !self.deadline.is_set() {
            return self.solver.solve(alloc, assume, budget);
        }
        for _ in 0..=budget.left() / PIECE {
            if self.deadline.is_over() {
                break;
            }
            if let Some(answer) = ask_piece(&mut self.solver, alloc, assume, budget)? {
                return Ok(answer);
            }
        }
        exhaust(budget);
        Ok(Answer::Spent)
    }

    fn statistics(&self) -> Statistics {
        self.solver.statistics()
    }
}

impl<S: PartSat> PartSat for Timed<S> {
    fn solve_part(
        &mut self,
        alloc: Global,
        part: &Part,
        assume: &[i32],
        budget: &mut Budget,
    ) -> Result<Answer, SatError> {
        if self.deadline.is_over() {
            exhaust(budget);
            return Ok(Answer::Spent);
        }
        self.solver.solve_part(alloc, part, assume, budget)
    }
}

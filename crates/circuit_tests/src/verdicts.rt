//! What no clause says: which runs and invariants are believed, and that calls succeed where there is memory.

use crate::questions::{HOLD, Question, asked};
use base::{Budget, Refused, Seq, ToVec, boxed, push};
use checker2::check;
use engine::{Counters, Engine, EngineError, Finding, Reason};
use graph::{Lit, Model, Property};
use std::alloc::Global;
use std::test::Fail;
use verdict::{DecideError, Verdict, decide, show};

/// A latch that toggles, which is bad where it is set.
static TOGGLE: &[u8] = b"aag 1 0 1 0 0 1\n2 3\n2\n";

/// An engine that always finds the same, whether it is so or not.
#[derive(Clone, Copy, Drop)]
enum Insists {
    /// a run of one latch, by the latch's first value and how many times it has
    Run(bool, u8),
    /// that one clause of one literal is an invariant
    Invariant(u32),
    /// nothing, for this reason
    Unknown(Reason),
}

/// A run of one latch without inputs.
fn run(alloc: Global, first: bool, times: u8) -> Result<Finding, Refused> {
    let mut inputs = Seq::new(alloc);
    for _ in 0..times {
        inputs.push(Seq::new(alloc))?;
    }
    Ok(Finding::Run {
        initial: Seq::from_slice(alloc, &[first])?,
        inputs,
    })
}

/// One clause of one literal.
fn invariant(alloc: Global, literal: u32) -> Result<Finding, Refused> {
    let mut clauses = Seq::new(alloc);
    clauses.push(Seq::from_slice(alloc, &[Lit(literal)])?)?;
    Ok(Finding::Invariant(clauses))
}

impl Engine for Insists {
    ghost honest = { λ _. ⊥ };

    ghost answers = { λ _ _ _ _ _. Unit {0} };

    fn find(
        &mut self,
        alloc: Global,
        _circuit: &Model,
        _budget: &mut Budget,
    ) -> Result<Finding, EngineError> {
        match *self {
            Insists::Run(first, times) => Ok(run(alloc, first, times)?),
            Insists::Invariant(literal) => Ok(invariant(alloc, literal)?),
            Insists::Unknown(reason) => Ok(Finding::Unknown(reason)),
        }
    }

    fn count(&self, _counters: &mut Counters) -> Result<(), Refused> {
        Ok(())
    }
}

/// What is decided of the first bad literal by engines that insist, and how much of the budget is spent.
#[derive(Clone, Copy)]
struct Asked {
    engines: &'static [Insists],
    steps: u64,
}

impl Question for Asked {
    type Answer = (Result<Verdict, DecideError>, u64);

    fn answer(
        &self,
        alloc: Global,
        circuit: &Model,
    ) -> Result<(Result<Verdict, DecideError>, u64), Fail> {
        let mut engines: Vec<Box<dyn Engine>> = Vec::new(alloc);
        for insists in self.engines {
            let engine: Box<dyn Engine> = boxed(alloc, *insists)?;
            push(&mut engines, engine)?;
        }
        let mut budget = Budget::new(self.steps);
        let verdict = decide(
            alloc,
            circuit,
            Property::Bad(0),
            engines.as_mut_slice(),
            &mut budget,
        );
        Ok((verdict, budget.spent()))
    }
}

/// What is decided of the first bad literal.
fn decided(
    alloc: Global,
    circuit: &[u8],
    engines: &'static [Insists],
    steps: u64,
) -> Result<(Result<Verdict, DecideError>, u64), Fail> {
    let question = Asked { engines, steps };
    asked(alloc, circuit, &question)
}

/// A circuit, the runs that engines insist on, and the text of the verdict with its status.
static RUNS: [(&[u8], &[Insists], &[u8], u8); 5] = [
    (b"aag 1 0 1 0 0 1\n2 2\n2\n", &[], b"2\nb0\n.\n", 2),
    (
        b"aag 1 0 1 0 0 1\n2 2\n2\n",
        &[Insists::Run(true, 1)],
        b"2\nb0\n.\n",
        2,
    ),
    (
        b"aag 1 0 1 0 0 1\n2 3\n2\n",
        &[Insists::Run(false, 2)],
        b"1\nb0\n0\n\n\n.\n",
        1,
    ),
    (
        b"aag 1 0 1 0 0 1\n2 3\n2\n",
        &[Insists::Run(true, 1), Insists::Run(false, 4)],
        b"1\nb0\n0\n\n\n\n\n.\n",
        1,
    ),
    (
        b"aag 1 0 1 0 0 1\n2 3\n2\n",
        &[Insists::Run(false, 3), Insists::Run(false, 0)],
        b"2\nb0\n.\n",
        2,
    ),
];

/// The status of a verdict, and whether this text reports it.
fn shown(alloc: Global, verdict: &Verdict, text: &[u8]) -> Result<(u8, bool), Fail> {
    let mut out = ToVec::new(alloc);
    let status = show(Property::Bad(0), verdict, &mut out)?;
    Ok((status, out.as_slice() == text))
}

/// The same where engines insist on these runs, with what is spent.
fn run_shown(
    alloc: Global,
    circuit: &[u8],
    engines: &'static [Insists],
    text: &[u8],
) -> Result<((u8, bool), u64), Fail> {
    let (verdict, spent) = decided(alloc, circuit, engines, 7)?;
    Ok((shown(alloc, &verdict?, text)?, spent))
}

#[test]
fn runs_are_replayed(rt: HostRuntime) -> Result<(), Fail> {
    for (circuit, engines, text, status) in &RUNS {
        let answer = run_shown(rt.alloc(), circuit, engines, text)?;
        assert!(rt; answer == ((*status, true), 0), "{text:?}");
    }
    Ok(())
}

/// Engines that report reasons, and the reason that is reported in the end.
static REASONS: [(&[Insists], Reason); 6] = [
    (&[], Reason::NoEvidence),
    (
        &[
            Insists::Unknown(Reason::Depth(5)),
            Insists::Unknown(Reason::Depth(2)),
        ],
        Reason::Depth(5),
    ),
    (
        &[
            Insists::Unknown(Reason::Depth(2)),
            Insists::Unknown(Reason::Depth(5)),
        ],
        Reason::Depth(5),
    ),
    (
        &[
            Insists::Unknown(Reason::Budget),
            Insists::Unknown(Reason::Depth(2)),
        ],
        Reason::Budget,
    ),
    (
        &[
            Insists::Unknown(Reason::Depth(2)),
            Insists::Unknown(Reason::Budget),
        ],
        Reason::Budget,
    ),
    (
        &[
            Insists::Unknown(Reason::Depth(2)),
            Insists::Unknown(Reason::NoEvidence),
        ],
        Reason::Depth(2),
    ),
];

/// The reason of a verdict that is unknown.
fn reason_of(verdict: &Verdict) -> Option<Reason> {
    match verdict {
        Verdict::Unknown(reason) => Some(*reason),
        _ => None,
    }
}

/// The reason that is reported where engines insist on these.
fn reason_told(alloc: Global, engines: &'static [Insists]) -> Result<Option<Reason>, Fail> {
    let (verdict, _) = decided(alloc, HOLD, engines, 7)?;
    Ok(reason_of(&verdict?))
}

#[test]
fn reasons_are_weighed(rt: HostRuntime) -> Result<(), Fail> {
    for (engines, told) in &REASONS {
        assert!(rt; reason_told(rt.alloc(), engines)? == Some(*told));
    }
    Ok(())
}

/// Whether a verdict has a certificate that the checker accepts.
#[derive(Clone, Copy)]
struct Accepted<'a> {
    verdict: &'a Verdict,
}

impl Question for Accepted<'_> {
    type Answer = bool;

    fn answer(&self, alloc: Global, circuit: &Model) -> Result<bool, Fail> {
        match self.verdict {
            Verdict::Safe(certificate) => Ok(check(alloc, circuit, certificate).is_ok()),
            _ => Ok(false),
        }
    }
}

/// Whether the latch toggles, the engine that claims an invariant, the budget, and what is answered: the status, and
/// whether there is a certificate of that clause.
static CLAIMS: [(bool, &[Insists], u64, (u8, bool)); 5] = [
    (false, &[Insists::Invariant(3)], 1_000, (0, true)),
    (false, &[Insists::Invariant(3)], 0, (2, false)),
    (true, &[Insists::Invariant(3)], 1_000, (2, false)),
    (false, &[Insists::Invariant(2)], 1_000, (2, false)),
    (false, &[Insists::Invariant(1)], 1_000, (2, false)),
];

/// The verdict's status, and whether it has a certificate that the checker accepts.
fn weighed(alloc: Global, circuit: &[u8], verdict: &Verdict) -> Result<(u8, bool), Fail> {
    let (status, _) = shown(alloc, verdict, b"")?;
    let is_accepted = asked(alloc, circuit, &Accepted { verdict })?;
    Ok((status, is_accepted))
}

/// The same of the verdict that is decided where engines claim this.
fn claimed(
    alloc: Global,
    toggles: bool,
    engines: &'static [Insists],
    steps: u64,
) -> Result<(u8, bool), Fail> {
    let circuit = if toggles { TOGGLE } else { HOLD };
    let (verdict, _) = decided(alloc, circuit, engines, steps)?;
    weighed(alloc, circuit, &verdict?)
}

#[test]
fn invariants_are_certified(rt: HostRuntime) -> Result<(), Fail> {
    for (toggles, engines, steps, wanted) in &CLAIMS {
        assert!(rt; claimed(rt.alloc(), *toggles, engines, *steps)? == *wanted);
    }
    Ok(())
}

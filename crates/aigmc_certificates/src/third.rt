//! Certificates of version 3.

ghost use Rattle.std.specs.Prelude.{◌≡◌, ℕ};
ghost use Rattle.certify.specs.declared.counterexample.Case.TheVariants as earlier;
ghost use Rattle.inductive_proofs.specs.declared.counterexample.Case.TheVariants.{First, Step, Last};

use crate::counterexample::{Values, tell_case};
pub use aigmc_files::UNKNOWN;
use aigmc_files::{Claimed, DONE, ExitError, Role, about, make_bytes};
use base::{Budget, Refused, Seq};
use certify::Case as EarlierCase;
use certify3::{Case, Certified, Counterexample, Effort, Extension, certify};
use graph::Model;
use std::alloc::Global;

/// The status of clauses that are no inductive invariant which excludes the property's literal.
pub const NO_INVARIANT: u8 = 1;

/// The values of the circuit's latches.
fn state_of(alloc: Global, circuit: &Model, found: &Counterexample) -> Result<Seq<bool>, Refused> {
    let mut state = Seq::new(alloc);
    for latch in circuit.latches() {
        state.push(found.value(latch.lit))?;
    }
    Ok(state)
}

/// The values of the circuit's latches after a step.
fn next_of(alloc: Global, circuit: &Model, found: &Counterexample) -> Result<Seq<bool>, Refused> {
    let mut state = Seq::new(alloc);
    for latch in circuit.latches() {
        state.push(found.value(latch.next))?;
    }
    Ok(state)
}

/// The values of the circuit's inputs.
fn inputs_of(alloc: Global, circuit: &Model, found: &Counterexample) -> Result<Seq<bool>, Refused> {
    let mut inputs = Seq::new(alloc);
    for lit in circuit.inputs() {
        inputs.push(found.value(*lit))?;
    }
    Ok(inputs)
}

/// The case, as one of clauses over latches.
fn case_of(case: Case) -> EarlierCase
    ensures first { (k : ℕ) → case ≡ First k → result ≡ earlier.Initial k }
    ensures step { (k : ℕ) → case ≡ Step k → result ≡ earlier.Step k }
    ensures last { case ≡ Last → result ≡ earlier.Bad }
{
    match case {
        Case::First(clause) => EarlierCase::Initial(clause),
        Case::Step(clause) => EarlierCase::Step(clause),
        Case::Last => EarlierCase::Bad,
    }
}

/// The values of the circuit's latches and inputs, and of the latches after a step. All memory is taken before the first
/// word is told.
pub fn values_of(
    alloc: Global,
    circuit: &Model,
    found: &Counterexample,
) -> Result<Values, Refused> {
    Ok(Values {
        state: state_of(alloc, circuit, found)?,
        inputs: inputs_of(alloc, circuit, found)?,
        next: next_of(alloc, circuit, found)?,
    })
}

/// What came of what is claimed.
#[derive(Drop)]
pub enum Outcome {
    /// The certificate is made.
    Made,
    /// What satisfies a case of the clauses.
    NotInvariant(Counterexample),
    /// Standard error says why nothing is known.
    Unknown,
}

/// Makes the certificate of what is claimed about the circuit, in the file of that name.
pub fn outcome_of(
    rt: &HostRuntime,
    out: &str,
    circuit: &Model,
    claimed: Claimed,
    effort: Effort,
    steps: u64,
) -> Result<Outcome, ExitError> {
    let Claimed {
        format: _,
        claim,
        latches,
        gates,
        invariant,
    } = claimed;
    let extension = Extension {
        latches: latches.as_slice(),
        gates: gates.as_slice(),
    };
    let mut budget = Budget::new(steps);
    let outcome = certify(
        rt.alloc(),
        circuit,
        claim,
        extension,
        invariant,
        effort,
        &mut budget,
    );
    match about(Role::Circuit, outcome.map_err(ExitError::from))? {
        Certified::Certificate(text) => {
            make_bytes(rt, out, text.as_slice())?;
            Ok(Outcome::Made)
        }
        Certified::NotInvariant(found) => Ok(Outcome::NotInvariant(found)),
        Certified::Spent => {
            let _ = eprintln!(rt; "aigmc: the budget is exhausted");
            Ok(Outcome::Unknown)
        }
        Certified::Unaccepted => {
            let _ = eprintln!(rt; "aigmc: the certificate that was made is not accepted");
            Ok(Outcome::Unknown)
        }
    }
}

/// Makes the certificate of what is claimed about the circuit, in the file of that name. Where none was made,
/// standard error says why, by the state of the circuit that is shown.
pub fn kept(
    rt: &HostRuntime,
    out: &str,
    circuit: &Model,
    shown: &Model,
    claimed: Claimed,
    effort: Effort,
    steps: u64,
) -> Result<u8, ExitError> {
    match outcome_of(rt, out, circuit, claimed, effort, steps)? {
        Outcome::Made => Ok(DONE),
        Outcome::NotInvariant(found) => {
            let values = values_of(rt.alloc(), shown, &found)?;
            tell_case(rt, case_of(found.case), &values);
            Ok(NO_INVARIANT)
        }
        Outcome::Unknown => Ok(UNKNOWN),
    }
}

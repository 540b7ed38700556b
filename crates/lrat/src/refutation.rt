//! Whole proofs.

ghost use Rattle.base.specs.Witness.{witness};
ghost use Rattle.std.specs.Prelude.{◌≢◌, ℕ, Bool, IfErr, OnOk};
ghost use Rattle.lrat.specs.Limits.{IsFormula};
ghost use Rattle.lrat.specs.Proofs.{IsAcceptedProof, IsRefusedProof, Solves};
ghost use Rattle.lrat.specs.declared.fault.Fault.TheVariants.{OutOfMemory};

use crate::fault::Fault;
use crate::formula::Formula;
use crate::proof::Proof;
use crate::refuter::Refuter;
use crate::step_error::StepError;
use std::alloc::Global;

/// Checks a proof that nothing satisfies the formula (LRAT 2017, without RAT steps). It answers
/// Ok exactly where the proof is accepted, out of memory aside, and a refusal has the first
/// cause and its line. It costs the literals of the formula, of the lines, and of the clauses
/// that they hint, and the logarithm of the number of clauses for each id.
pub fn refutes(alloc: Global, formula: &Formula, proof: &Proof) -> Result<(), StepError>
    requires { IsFormula formula.now }
    ensures accepted { OnOk result (IsAcceptedProof formula.now proof.now) }
    ensures refused { IfErr result (λ e. IsRefusedProof formula.now proof.now e) }
    ensures complete { IfErr result (λ e. e.fault ≢ OutOfMemory witness → IsAcceptedProof formula.now proof.now → ⊥) }
    ensures sound { OnOk result ((v : ℕ → Bool) → Solves v formula.now → ⊥) }
{
    let mut refuter = match Refuter::new(alloc, formula) {
        Ok(refuter) => refuter,
        Err(refused) => return Err(StepError::at(Fault::OutOfMemory(refused), 0)),
    };
    let lines = proof.lines();
    for (i, line) in lines.iter().enumerate() {
        match refuter.feed(alloc, line.as_ref()) {
            Ok(()) => {}
            Err(fault) => return Err(StepError::at(fault, i as u64)),
        }
    }
    match refuter.finish() {
        Ok(()) => {}
        Err(fault) => return Err(StepError::at(fault, lines.len() as u64)),
    }
    Ok(())
}

//! Formulas with lemmas.

ghost use Rattle.base.specs.Witness.{witness};
ghost use Rattle.std.specs.Prelude.{◌≡◌, ◌≢◌, ℕ, Bool, [], IfErr, IfOk};
ghost use Rattle.std.specs.FinMap as fin;
ghost use Rattle.lrat.specs.Courses.{at_units};
ghost use Rattle.lrat.specs.Lemmas.{Extends, IsRefusedExtension, base_at};
ghost use Rattle.lrat.specs.Limits.{IsFormula};
ghost use Rattle.lrat.specs.Literals.{Satisfies};
ghost use Rattle.lrat.specs.Proofs.{first_stage, Solves};
ghost use Rattle.lrat.specs.Stages.{Stage};
ghost use Rattle.lrat.specs.declared.fault.Fault.TheVariants.{OutOfMemory};

use crate::fault::Fault;
use crate::formula::Formula;
use crate::proof::Proof;
use crate::refuter::Refuter;
use crate::step_error::StepError;
use std::alloc::Global;

/// A formula with lemmas, for refutations that share both: the lines of the proof are checked in
/// turn and shared, and none may add the empty clause. It answers Ok exactly where the lines lead
/// on, out of memory aside, and a refusal has the first cause and its line. Whatever satisfies the
/// formula satisfies what is shared. It costs the literals of the formula, of the lines, and of
/// the clauses that they hint, and the logarithm of the number of clauses for each id.
pub fn extends<'a>(
    alloc: Global,
    formula: &Formula,
    proof: &Proof,
) -> Result<Refuter<'a>, StepError>
    requires { IsFormula formula.now }
    ensures extended { IfOk result (λ r. (t : Stage) × Extends formula.now.vars (first_stage formula.now) proof.now t × (r ≡ at_units (base_at formula.now.vars t) [])) }
    ensures refused { IfErr result (λ e. IsRefusedExtension formula.now proof.now e) }
    ensures complete { IfErr result (λ e. e.fault ≢ OutOfMemory witness → (t : Stage) → Extends formula.now.vars (first_stage formula.now) proof.now t → ⊥) }
    ensures sound { IfOk result (λ r. (v : ℕ → Bool) → Solves v formula.now → Satisfies v (fin.get r.base.present)) }
{
    let mut refuter = match Refuter::new(alloc, formula) {
        Ok(refuter) => refuter,
        Err(refused) => return Err(StepError::at(Fault::OutOfMemory(refused), 0)),
    };
    let lines = proof.lines();
    for (i, line) in lines.iter().enumerate() {
        match refuter.lemma(line.as_ref()) {
            Ok(()) => {}
            Err(fault) => return Err(StepError::at(fault, i as u64)),
        }
    }
    match refuter.share() {
        Ok(()) => Ok(refuter),
        Err(_) => unreachable!(),
    }
}

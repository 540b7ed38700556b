//! A proof for each case of an invariant.

ghost use Rattle.std.specs.Prelude.{◌≡◌, ◌≤◌, ◌++◌, ◌∷◌, [], All, Contains, List, Some, map, length, IfErr, IfOk, OnOk};
ghost use Rattle.graph.specs.declared.circuit.Lit.{Lit};
ghost use Rattle.graph.specs.WellFormed.{used};
ghost use Rattle.base.specs.Budget.{Spends};
ghost use Rattle.lrat.specs.Literals.{IsLiteral};
ghost use Rattle.lrat.specs.Shared.{Base};
ghost use Rattle.cnf.specs.Clauses.{step_units};
ghost use Rattle.cnf.specs.Formulas.{IsInvariant, shared_formula, start_formula};
ghost use Rattle.cdcl_log.specs.Logged.{with_units};
ghost use Rattle.checker2.specs.Accepted.{Case as AnyCase, IsProofOf, IsShared, bad_case, cases, init_case, step_case};
ghost use Rattle.certify.specs.ProveErrors.{IsProveError, IsProveErrorOf};
ghost use Rattle.certify.specs.Sections.{AreClosed, AreProofs, case_over};

use crate::closed_cases::ClosedCases;
use crate::counterexample::{Case, Counterexample};
use crate::prove_error::ProveError;
use crate::sweeping::sweep_pairs;
use base::{Budget, Seq};
use cdcl::{Refuted, Refuter};
use cnf::{NextTable, bad_unit, init_units, shared_base, start_base, step_units};
use graph::{Lit, Model};
use lrat::Proof;
use std::alloc::Global;
use sweep::Near;

/// The proofs of an invariant's cases.
#[derive(Drop)]
pub struct Proofs {
    /// what the step cases and the bad case share
    pub lemmas: Proof,
    /// a section for each case
    pub sections: Seq<Proof>,
}

/// A proof that nothing satisfies what is loaded with these units, which are the case's.
fn prove(
    alloc: Global,
    refuter: &mut Refuter,
    case: Case,
    units: &[i32],
    budget: &mut Budget,
) -> Result<Proof, ProveError>
    requires literals { All (IsLiteral refuter.old.formula.vars) units.now }
    requires few { length units.now ≤ refuter.old.room }
    ensures same { refuter.new ≡ refuter.old }
    ensures spends { Spends budget.old budget.new }
    ensures proved { IfOk result (IsProofOf (case_over refuter.old.formula units.now)) }
    ensures halted { IfErr result (IsProveErrorOf (with_units refuter.old.formula units.now) case budget.new) }
{
    match refuter.refute(alloc, units, budget)? {
        Refuted::Proof(proof) => {
            // its lines are in the limits
            proof.lines();
            Ok(proof)
        }
        Refuted::Model(values) => Err(ProveError::NotInvariant(Counterexample { case, values })),
        Refuted::Spent => Err(ProveError::Spent),
    }
}

/// Adds a proof for the initial case of each clause, where the latches' resets are loaded.
fn prove_initial_cases(
    alloc: Global,
    circuit: &Model,
    invariant: &[Seq<Lit>],
    refuter: &mut Refuter,
    sections: &mut Seq<Proof>,
    budget: &mut Budget,
) -> Result<(), ProveError>
    requires invariant { IsInvariant circuit.now invariant.now }
    requires start { refuter.old.formula ≡ start_formula circuit.now }
    requires room { All (λ c. length c ≤ refuter.old.room) invariant.now }
    ensures spends { Spends budget.old budget.new }
    ensures proved { OnOk result ((cs : List AnyCase) → AreProofs cs sections.old → AreProofs (cs ++ map (init_case circuit.now) invariant.now) sections.new) }
    ensures halted { IfErr result (λ h. (a : Lit) → IsProveError circuit.now invariant.now a budget.new h) }
{
    for (place, clause) in invariant.iter().enumerate() {
        let units = init_units(alloc, circuit, clause.as_slice())?;
        let case = Case::Initial(place as u64);
        sections.push(prove(alloc, refuter, case, units.as_slice(), budget)?)?;
    }
    Ok(())
}

/// Adds a proof for the initial case of each clause. The latches' resets are loaded once.
fn prove_initial(
    alloc: Global,
    circuit: &Model,
    invariant: &[Seq<Lit>],
    sections: &mut Seq<Proof>,
    budget: &mut Budget,
) -> Result<(), ProveError>
    requires invariant { IsInvariant circuit.now invariant.now }
    ensures spends { Spends budget.old budget.new }
    ensures proved { OnOk result ((cs : List AnyCase) → AreProofs cs sections.old → AreProofs (cs ++ map (init_case circuit.now) invariant.now) sections.new) }
    ensures halted { IfErr result (λ h. (a : Lit) → IsProveError circuit.now invariant.now a budget.new h) }
{
    let start = start_base(alloc, circuit)?;
    let mut refuter = Refuter::new(alloc, &start, most_literals(invariant))?;
    prove_initial_cases(alloc, circuit, invariant, &mut refuter, sections, budget)
}

/// Closes the step case of each clause, where the circuit and the clauses are loaded.
fn close_steps(
    alloc: Global,
    circuit: &Model,
    invariant: &[Seq<Lit>],
    cases: &mut ClosedCases,
    budget: &mut Budget,
) -> Result<(), ProveError>
    requires invariant { IsInvariant circuit.now invariant.now }
    requires loaded { cases.old.refuter.formula ≡ shared_formula circuit.now invariant.now }
    requires none { cases.old.units ≡ [] }
    requires closed { AreClosed cases.old }
    ensures formula { cases.new.refuter.formula ≡ cases.old.refuter.formula }
    ensures spends { Spends budget.old budget.new }
    ensures closed { OnOk result (AreClosed cases.new) }
    ensures units { OnOk result (cases.new.units ≡ map (step_units circuit.now) invariant.now) }
    ensures halted { IfErr result (λ h. (a : Lit) → IsProveError circuit.now invariant.now a budget.new h) }
{
    let table = NextTable::new(alloc, circuit)?;
    let mut near = Near::new(alloc, circuit)?;
    for (place, clause) in invariant.iter().enumerate() {
        let units = step_units(alloc, circuit, &table, clause.as_slice())?;
        let part = near.part_of(alloc, circuit, units.as_slice())?;
        let case = Case::Step(place as u64);
        cases.close(alloc, case, Seq::from_vec(units), &part, budget)?;
    }
    Ok(())
}

/// The greatest number of literals of a clause, or 1 where that is 0.
fn most_literals(invariant: &[Seq<Lit>]) -> u32
    requires { All (λ c. length c ≤ 4194303) invariant.now }
    ensures one { 1 ≤ result }
    ensures few { result ≤ 4194303 }
    ensures all { All (λ c. length c ≤ result) invariant.now }
{
    let mut most = 1;
    for clause in invariant {
        most = most.max(clause.len() as u32);
    }
    most
}

/// Closes the step cases and the bad case, where the circuit and the clauses are loaded, adds a section
/// for each, and answers the lemmas that they share.
fn close_others(
    alloc: Global,
    circuit: &Model,
    invariant: &[Seq<Lit>],
    bad: Lit,
    cases: &mut ClosedCases,
    sections: &mut Seq<Proof>,
    budget: &mut Budget,
) -> Result<Proof, ProveError>
    requires invariant { IsInvariant circuit.now invariant.now }
    requires bad { Contains (used circuit.now) bad }
    requires loaded { cases.old.refuter.formula ≡ shared_formula circuit.now invariant.now }
    requires none { cases.old.units ≡ [] }
    requires closed { AreClosed cases.old }
    ensures spends { Spends budget.old budget.new }
    ensures proved { IfOk result (λ l. (b : Base) × IsShared circuit.now invariant.now (Some l) b × ((cs : List AnyCase) → AreProofs cs sections.old → AreProofs (cs ++ map (step_case circuit.now b) invariant.now ++ bad_case circuit.now b bad ∷ []) sections.new)) }
    ensures halted { IfErr result (IsProveError circuit.now invariant.now bad budget.new) }
{
    sweep_pairs(alloc, circuit, invariant, &mut cases.refuter, budget)?;
    close_steps(alloc, circuit, invariant, cases, budget)?;
    let units = Seq::from_slice(alloc, &[bad_unit(circuit, bad)])?;
    let part = Near::new(alloc, circuit)?.part_of(alloc, circuit, units.as_slice())?;
    cases.close(alloc, Case::Bad, units, &part, budget)?;
    Ok(cases.write(alloc, sections)?)
}

/// Adds proofs for the step cases and the bad case, and answers the lemmas that they share. The circuit and
/// the clauses are loaded once.
fn prove_others(
    alloc: Global,
    circuit: &Model,
    invariant: &[Seq<Lit>],
    bad: Lit,
    sections: &mut Seq<Proof>,
    budget: &mut Budget,
) -> Result<Proof, ProveError>
    requires invariant { IsInvariant circuit.now invariant.now }
    requires bad { Contains (used circuit.now) bad }
    ensures spends { Spends budget.old budget.new }
    ensures proved { IfOk result (λ l. (b : Base) × IsShared circuit.now invariant.now (Some l) b × ((cs : List AnyCase) → AreProofs cs sections.old → AreProofs (cs ++ map (step_case circuit.now b) invariant.now ++ bad_case circuit.now b bad ∷ []) sections.new)) }
    ensures halted { IfErr result (IsProveError circuit.now invariant.now bad budget.new) }
{
    let mut cases = ClosedCases::new(alloc, &shared_base(alloc, circuit, invariant)?)?;
    close_others(alloc, circuit, invariant, bad, &mut cases, sections, budget)
}

/// A proof for each case: those of the initial states, of the steps, and of the bad literal.
pub fn prove_cases(
    alloc: Global,
    circuit: &Model,
    invariant: &[Seq<Lit>],
    bad: Lit,
    budget: &mut Budget,
) -> Result<Proofs, ProveError>
    requires invariant { IsInvariant circuit.now invariant.now }
    requires bad { Contains (used circuit.now) bad }
    ensures spends { Spends budget.old budget.new }
    ensures proved { IfOk result (λ r. (b : Base) × IsShared circuit.now invariant.now (Some r.lemmas) b × AreProofs (cases circuit.now b invariant.now bad) r.sections) }
    ensures halted { IfErr result (IsProveError circuit.now invariant.now bad budget.new) }
{
    let mut sections = Seq::new(alloc);
    prove_initial(alloc, circuit, invariant, &mut sections, budget)?;
    let lemmas = prove_others(alloc, circuit, invariant, bad, &mut sections, budget)?;
    Ok(Proofs { lemmas, sections })
}

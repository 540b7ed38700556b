//! The sections of a certificate: the lemmas, and a proof for each case of the invariant.

ghost use Rattle.std.specs.Prelude.{◌≡◌, ◌+◌, ◌*◌, ◌<◌, ◌≤◌, All, Contains, IfErr, IfOk, List, None, OnOk, length};
ghost use Rattle.graph.specs.WellFormed.{used};
ghost use Rattle.graph.specs.declared.circuit.Lit.{Lit as ALit};
ghost use Rattle.cnf.specs.Formulas.{IsInvariant, start_formula};
ghost use Rattle.cnf.specs.Tables.{IsTableOf};
ghost use Rattle.lrat.specs.Courses.{at_formula};
ghost use Rattle.lrat.specs.Literals.{IsLiteral};
ghost use Rattle.lrat.specs.Shared.{Base, base_of};
ghost use Rattle.checker2.specs.Accepted.{Case, cases, IsProofOf, IsShared, RefuteBelow};
ghost use Rattle.checker2.specs.Causes.{IsCaseAt, IsCaseFault, IsRefusedCase, IsSectionError, IsSectionFault, lemma_sections as lemma_count};

use crate::check_error::CheckError;
use base::Refused;
use certificate::Certificate;
use cnf::{NextTable, bad_unit, init_units, shared_base, start_row, step_units};
use graph::{Lit, Model};
use lrat::{Fault, Proof, Refuter, StepError, extends};
use std::alloc::Global;

/// Whether a proof refutes what the refuter shares, with the units. It costs the units and the
/// proof.
fn refute(
    alloc: Global,
    refuter: &mut Refuter,
    units: &[i32],
    proof: &Proof,
) -> Result<(), StepError>
    requires fresh { refuter.old.refusal ≡ None }
    requires in_range { All (IsLiteral refuter.old.base.vars) units.now }
    ensures base { refuter.new.base ≡ refuter.old.base }
    ensures fresh { OnOk result (refuter.new.refusal ≡ None) }
    ensures accepted { OnOk result (IsProofOf (record { base = refuter.old.base; units = units.now }) proof.now) }
    ensures refused { IfErr result (IsRefusedCase (record { base = refuter.old.base; units = units.now }) proof.now) }
{
    match refuter.begin(alloc, units) {
        Ok(()) => {}
        Err(fault) => return Err(StepError::at(fault, 0)),
    }
    let lines = proof.lines();
    for (i, line) in lines.iter().enumerate() {
        match refuter.feed(alloc, line.as_ref()) {
            Ok(()) => {}
            Err(fault) => return Err(StepError::at(fault, i as u64)),
        }
    }
    match refuter.finish() {
        Ok(()) => {}
        Err(fault) => return Err(StepError::at(fault, lines.len() as u64)),
    }
    Ok(())
}

/// The refusal of a section; out of memory has no section.
fn section_error(error: StepError, section: usize) -> CheckError
    ensures { IsSectionError error section result }
{
    match error.fault {
        Fault::OutOfMemory(refused) => CheckError::OutOfMemory(refused),
        _ => CheckError::Section {
            error,
            section: section as u64,
        },
    }
}

/// How many sections stand before those of the cases: that of the lemmas, where there is one.
fn lemma_sections(certificate: &Certificate) -> usize
    ensures count { result ≡ lemma_count certificate.now.lemmas }
    ensures few { result ≤ 1 }
{
    match &certificate.lemmas {
        None => 0,
        Some(_) => 1,
    }
}

/// Whether a case's section refutes what the refuter shares, with the case's units. It costs the
/// units and the section.
fn check_case(
    alloc: Global,
    refuter: &mut Refuter,
    units: &[i32],
    certificate: &Certificate,
    index: usize,
) -> Result<(), CheckError>
    requires fresh { refuter.old.refusal ≡ None }
    requires in_range { All (IsLiteral refuter.old.base.vars) units.now }
    requires stands { index < length certificate.now.sections }
    ensures base { refuter.new.base ≡ refuter.old.base }
    ensures fresh { OnOk result (refuter.new.refusal ≡ None) }
    // Among cases whose earlier sections are proofs, it is the next proof, or the first that is refused.
    ensures proved { OnOk result ((cs : List Case) → IsCaseAt cs index (record { base = refuter.old.base; units = units.now }) → RefuteBelow cs certificate.now.sections index → RefuteBelow cs certificate.now.sections (index + 1)) }
    ensures refused { IfErr result (λ e. (cs : List Case) → IsCaseAt cs index (record { base = refuter.old.base; units = units.now }) → RefuteBelow cs certificate.now.sections index → IsCaseFault (lemma_count certificate.now.lemmas) cs certificate.now.sections e) }
{
    let sections = certificate.sections.as_slice();
    match refute(alloc, refuter, units, &sections[index]) {
        Ok(()) => Ok(()),
        Err(error) => Err(section_error(error, lemma_sections(certificate) + index)),
    }
}

/// The refuter of the initial cases.
pub fn start_refuter<'a>(alloc: Global, circuit: &Model) -> Result<Refuter<'a>, Refused>
    ensures { IfOk result (λ r. r ≡ at_formula (start_formula circuit.now)) }
{
    let clauses = start_row(alloc, circuit)?;
    Refuter::over(alloc, circuit.max_var() + 1, clauses)
}

/// The refuter of the step cases and the bad case, which has taken the lemmas where there are
/// some. It costs the circuit, the invariant and the lemmas.
fn shared_refuter<'a>(
    alloc: Global,
    circuit: &Model,
    certificate: &Certificate,
) -> Result<Refuter<'a>, CheckError>
    requires { IsInvariant circuit.now certificate.now.invariant }
    ensures fresh { IfOk result (λ r. r.refusal ≡ None) }
    ensures shared { IfOk result (λ r. IsShared circuit.now certificate.now.invariant certificate.now.lemmas r.base) }
    ensures refused { IfErr result (λ e. (a : ALit) → IsSectionFault circuit.now a certificate.now e) }
{
    let base = shared_base(alloc, circuit, certificate.invariant.as_slice())?;
    match &certificate.lemmas {
        None => Ok(Refuter::new(alloc, &base)?),
        Some(lemmas) => {
            // its lines are in the limits
            lemmas.lines();
            match extends(alloc, &base, lemmas) {
                Ok(refuter) => Ok(refuter),
                Err(error) => Err(section_error(error, 0)),
            }
        }
    }
}

/// Whether the first sections refute the initial cases.
fn check_initial(
    alloc: Global,
    circuit: &Model,
    certificate: &Certificate,
    refuter: &mut Refuter,
) -> Result<(), CheckError>
    requires invariant { IsInvariant circuit.now certificate.now.invariant }
    requires count { length certificate.now.sections ≡ 2 * length certificate.now.invariant + 1 }
    requires fresh { refuter.old.refusal ≡ None }
    requires base { refuter.old.base ≡ base_of (start_formula circuit.now) }
    ensures ok { OnOk result ((b : Base) (a : ALit) → RefuteBelow (cases circuit.now b certificate.now.invariant a) certificate.now.sections (length certificate.now.invariant)) }
    ensures err { IfErr result (λ e. (b : Base) (a : ALit) → IsCaseFault (lemma_count certificate.now.lemmas) (cases circuit.now b certificate.now.invariant a) certificate.now.sections e) }
{
    circuit.well_formed();
    let invariant = certificate.invariant.as_slice();
    for (k, clause) in invariant.iter().enumerate() {
        let units = init_units(alloc, circuit, clause.as_slice())?;
        check_case(alloc, refuter, units.as_slice(), certificate, k)?;
    }
    Ok(())
}

/// Whether the sections behind those of the initial cases refute the step cases and the bad case.
fn check_others(
    alloc: Global,
    circuit: &Model,
    table: &NextTable,
    certificate: &Certificate,
    bad: Lit,
    refuter: &mut Refuter,
) -> Result<(), CheckError>
    requires invariant { IsInvariant circuit.now certificate.now.invariant }
    requires table { IsTableOf circuit.now.latches table.now }
    requires bad { Contains (used circuit.now) bad }
    requires count { length certificate.now.sections ≡ 2 * length certificate.now.invariant + 1 }
    requires fresh { refuter.old.refusal ≡ None }
    requires vars { refuter.old.base.vars ≡ circuit.now.max_var + 1 }
    requires initial { RefuteBelow (cases circuit.now refuter.old.base certificate.now.invariant bad) certificate.now.sections (length certificate.now.invariant) }
    ensures ok { OnOk result (RefuteBelow (cases circuit.now refuter.old.base certificate.now.invariant bad) certificate.now.sections (length certificate.now.sections)) }
    ensures err { IfErr result (IsCaseFault (lemma_count certificate.now.lemmas) (cases circuit.now refuter.old.base certificate.now.invariant bad) certificate.now.sections) }
{
    let invariant = certificate.invariant.as_slice();
    let count = invariant.len();
    for (k, clause) in invariant.iter().enumerate() {
        let units = step_units(alloc, circuit, table, clause.as_slice())?;
        check_case(alloc, refuter, units.as_slice(), certificate, count + k)?;
    }
    let unit = bad_unit(circuit, bad);
    check_case(alloc, refuter, &[unit], certificate, 2 * count)
}

/// Whether the lemmas are shared and each section refutes its case. It costs the lemmas and the
/// sections, and the circuit and the invariant once.
pub fn check_sections(
    alloc: Global,
    circuit: &Model,
    table: &NextTable,
    certificate: &Certificate,
    bad: Lit,
) -> Result<(), CheckError>
    requires invariant { IsInvariant circuit.now certificate.now.invariant }
    requires table { IsTableOf circuit.now.latches table.now }
    requires bad { Contains (used circuit.now) bad }
    requires count { length certificate.now.sections ≡ 2 * length certificate.now.invariant + 1 }
    ensures ok { OnOk result ((b : Base) × IsShared circuit.now certificate.now.invariant certificate.now.lemmas b × RefuteBelow (cases circuit.now b certificate.now.invariant bad) certificate.now.sections (length certificate.now.sections)) }
    ensures err { IfErr result (IsSectionFault circuit.now bad certificate.now) }
{
    let mut shared = shared_refuter(alloc, circuit, certificate)?;
    let mut start = start_refuter(alloc, circuit)?;
    check_initial(alloc, circuit, certificate, &mut start)?;
    check_others(alloc, circuit, table, certificate, bad, &mut shared)
}

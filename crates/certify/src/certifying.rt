//! From clauses to a certificate.

ghost use Rattle.std.specs.Prelude.{◌≡◌, Contains, IfErr, IfOk};
ghost use Rattle.base.specs.Budget.{Spends};
ghost use Rattle.graph.specs.declared.circuit.Property.TheVariants.{Justice};
ghost use Rattle.graph.specs.Circuits.{HasProperty, position_of};
ghost use Rattle.graph.specs.WellFormed.{used};
ghost use Rattle.cnf.specs.Invariants.{IsInductive};
ghost use Rattle.checker2.specs.Accepted.{circuit_of, bad_of};
ghost use Rattle.live_safe.specs.Shadow.{shadow_of};
ghost use Rattle.certify.specs.Causes.{HasCause, HasCauseFor, IsUnspent};
ghost use Rattle.certify.specs.Outcomes.{IsCertified, IsCertifiedFor, of_proofs};
ghost use Rattle.certify.specs.declared.certified.Certified.TheVariants.{NotInvariant};
ghost use Rattle.certify.specs.declared.counterexample.Counterexample.{Counterexample};

use crate::certified::Certified;
use crate::certify_error::CertifyError;
use crate::examining::examine;
use crate::prove_error::ProveError;
use crate::proving::{Proofs, prove_cases};
use base::{Budget, Refused, Seq};
use certificate::Certificate;
use graph::{Lit, Model, Property};
use live_safe::{LiveError, to_safety};
use std::alloc::Global;

/// The clauses, in memory of their own.
fn copied(alloc: Global, invariant: &[Seq<Lit>]) -> Result<Seq<Seq<Lit>>, Refused>
    ensures { IfOk result (λ copy. copy ≡ invariant.now) }
{
    let mut copy = Seq::new(alloc);
    for clause in invariant {
        copy.push(Seq::from_slice(alloc, clause.as_slice())?)?;
    }
    Ok(copy)
}

/// What comes of the clauses' cases: a certificate where each has its proof, or else why there is none.
fn certified_of(
    property: Property,
    invariant: Seq<Seq<Lit>>,
    proved: Result<Proofs, ProveError>,
) -> Result<Certified, CertifyError>
    ensures { result ≡ of_proofs property invariant proved }
{
    match proved {
        Ok(proofs) => Ok(Certified::Certificate(Certificate {
            property,
            invariant,
            lemmas: Some(proofs.lemmas),
            sections: proofs.sections,
        })),
        Err(ProveError::NotInvariant(found)) => Ok(Certified::NotInvariant(found)),
        Err(ProveError::Spent) => Ok(Certified::Spent),
        Err(ProveError::IdsTaken(full)) => Err(CertifyError::IdsTaken(full)),
        Err(ProveError::OutOfMemory(refused)) => Err(CertifyError::OutOfMemory(refused)),
    }
}

/// A certificate of the property by clauses about this one of the circuit's literals, which no run is
/// to set.
fn certify_for(
    alloc: Global,
    circuit: &Model,
    bad: Lit,
    property: Property,
    invariant: &[Seq<Lit>],
    budget: &mut Budget,
) -> Result<Certified, CertifyError>
    requires { Contains (used circuit.now) bad }
    ensures spends { Spends budget.old budget.new }
    ensures certified { IfOk result (IsCertifiedFor circuit.now bad property invariant.now budget.new) }
    ensures refused { IfErr result (HasCauseFor circuit.now invariant.now) }
    ensures unspent { IfErr result (IsUnspent budget.old budget.new) }
{
    examine(alloc, circuit, invariant)?;
    let copy = copied(alloc, invariant)?;
    circuit.well_formed();
    let proved = prove_cases(alloc, circuit, invariant, bad, budget);
    certified_of(property, copy, proved)
}

/// A certificate of the justice property at position `n`, as `certify` makes it, for a caller that has the
/// shadow circuit already.
pub fn certify_shadow(
    alloc: Global,
    circuit: &Model,
    n: u32,
    shadow: &Model,
    invariant: &[Seq<Lit>],
    budget: &mut Budget,
) -> Result<Certified, CertifyError>
    requires there { HasProperty circuit.now (Justice n) }
    requires shadow { shadow.now ≡ shadow_of circuit.now n }
    ensures spends { Spends budget.old budget.new }
    ensures certified { IfOk result (IsCertified circuit.now (Justice n) invariant.now budget.new) }
    // What is inductive and excludes the bad literal is never called no invariant.
    ensures honest { IfOk result (λ r. (x : Counterexample) → r ≡ NotInvariant x → IsInductive (circuit_of circuit.now (Justice n)) invariant.now (bad_of circuit.now (Justice n)) → ⊥) }
    ensures refused { IfErr result (HasCause circuit.now (Justice n) invariant.now) }
    ensures unspent { IfErr result (IsUnspent budget.old budget.new) }
{
    shadow.well_formed();
    let bad = shadow.bad()[0];
    certify_for(alloc, shadow, bad, Property::Justice(n), invariant, budget)
}

/// A certificate of the justice property at position `n`, by clauses about its shadow circuit.
fn certify_justice(
    alloc: Global,
    circuit: &Model,
    n: u32,
    invariant: &[Seq<Lit>],
    budget: &mut Budget,
) -> Result<Certified, CertifyError>
    ensures spends { Spends budget.old budget.new }
    ensures certified { IfOk result (IsCertified circuit.now (Justice n) invariant.now budget.new) }
    ensures refused { IfErr result (HasCause circuit.now (Justice n) invariant.now) }
    ensures unspent { IfErr result (IsUnspent budget.old budget.new) }
{
    match to_safety(alloc, circuit, n) {
        Ok(shadow) => certify_shadow(alloc, circuit, n, &shadow, invariant, budget),
        Err(LiveError::NoProperty(_)) => Err(CertifyError::NoProperty(n)),
        Err(LiveError::Limit) => Err(CertifyError::Limit),
        Err(LiveError::OutOfMemory(refused)) => Err(CertifyError::OutOfMemory(refused)),
    }
}

/// The refusal of a property that the circuit has not.
fn no_property(property: Property) -> CertifyError
    ensures { result ≡ CertifyError.NoProperty (position_of property) }
{
    let (Property::Bad(n) | Property::Justice(n) | Property::Output(n)) = property;
    CertifyError::NoProperty(n)
}

/// A certificate of the property, where the circuit has it.
fn certify_property(
    alloc: Global,
    circuit: &Model,
    property: Property,
    invariant: &[Seq<Lit>],
    budget: &mut Budget,
) -> Result<Certified, CertifyError>
    ensures spends { Spends budget.old budget.new }
    ensures certified { IfOk result (IsCertified circuit.now property invariant.now budget.new) }
    ensures refused { IfErr result (HasCause circuit.now property invariant.now) }
    ensures unspent { IfErr result (IsUnspent budget.old budget.new) }
{
    if !circuit.parts().has_property(property) {
        return Err(no_property(property));
    }
    match property {
        Property::Bad(n) => {
            let bad = circuit.bad()[n as usize];
            certify_for(alloc, circuit, bad, property, invariant, budget)
        }
        Property::Justice(n) => certify_justice(alloc, circuit, n, invariant, budget),
        Property::Output(n) => {
            let output = circuit.outputs()[n as usize];
            certify_for(alloc, circuit, output, property, invariant, budget)
        }
    }
}

/// A certificate of the clauses for the property, of version 2, which the checker accepts. The clauses are not
/// believed: each of their cases is to be refuted, and where something satisfies one, the case and
/// the values are answered. They say that the clauses are no inductive invariant which excludes the
/// bad literal, and nothing of the property. For a justice property the clauses are about its shadow
/// circuit.
///
/// Refused are first a property that the circuit has not, then a shadow circuit with too many
/// variables, more than 4,194,303 clauses, and the first clause that is not over the latches or that
/// repeats or opposes a literal. Only then is anything spent.
///
/// The latches' resets are loaded once, for the `n` initial cases of `n` clauses, and the circuit and
/// all clauses once, for the `n + 1` other cases. Beside that a certificate costs what the refutations
/// spend of the budget, and the clauses in memory of their own.
pub fn certify(
    alloc: Global,
    circuit: &Model,
    property: Property,
    invariant: &[Seq<Lit>],
    budget: &mut Budget,
) -> Result<Certified, CertifyError>
    ensures spends { Spends budget.old budget.new }
    ensures certified { IfOk result (IsCertified circuit.now property invariant.now budget.new) }
    // What is inductive and excludes the bad literal is never called no invariant.
    ensures honest { IfOk result (λ r. (x : Counterexample) → r ≡ NotInvariant x → IsInductive (circuit_of circuit.now property) invariant.now (bad_of circuit.now property) → ⊥) }
    ensures refused { IfErr result (HasCause circuit.now property invariant.now) }
    ensures unspent { IfErr result (IsUnspent budget.old budget.new) }
{
    certify_property(alloc, circuit, property, invariant, budget)
}

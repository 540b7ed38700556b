//! From clauses to a witness circuit.

ghost use Rattle.std.specs.Prelude.{◌≡◌, ◌+◌, ◌^◌, ◌<◌, ◌≤◌, ◌↔◌, [], All, None, get_or, length, IfErr, IfNone, IfOk, IfSome, IsTrue, MatchOption, OnOk};
ghost use Rattle.graph.specs.declared.circuit.Lit.{Lit as ALit};
ghost use Rattle.graph.specs.declared.circuit.Property.{Property as AProperty};
ghost use Rattle.graph.specs.Circuits.{IsWatched, position_of as the_position};
ghost use Rattle.graph.specs.WellFormed.{only_bad};
ghost use Rattle.cnf.specs.Formulas.{IsInRange};
ghost use Rattle.extension.specs.Extended.{extended};
ghost use Rattle.extension.specs.Inductive.{IsOverAll};
ghost use Rattle.witness_circuits.specs.Causes.{HasCause, IsUnmade, size_of};
ghost use Rattle.witness_circuits.specs.Names.{shared_names as shared_names_of};
ghost use Rattle.witness_circuits.specs.Witnesses.{IsWitness, gate_count as gate_count_of, witness_parts as witness_parts_of};

use crate::error::MakeError;
use crate::property::push_property;
use crate::sizes::{gate_count, variables_left};
use crate::symbols::shared_names;
use base::{Lists, Refused, Seq, copied};
use extension::extended_parts;
use graph::{AigerFile, Gate, Latch, Lit, Model, Parts, Property};
use live_safe::negation;
use std::alloc::Global;

/// The literal that a property watches, where the circuit has that bad literal, or that output as one.
fn watched(circuit: &Model, property: Property) -> Option<Lit>
    ensures { MatchOption result ((a : ALit) → IsWatched circuit.now property a → ⊥) (IsWatched circuit.now property) }
{
    match property {
        Property::Bad(n) => circuit.bad().get(n as usize).copied(),
        Property::Output(n) if circuit.parts().are_outputs_bad() => {
            circuit.outputs().get(n as usize).copied()
        }
        _ => None,
    }
}

/// The property's position among those of its kind.
fn position_of(property: Property) -> u32
    ensures { result ≡ the_position property }
{
    match property {
        Property::Bad(n) => n,
        Property::Justice(n) => n,
        Property::Output(n) => n,
    }
}

/// Whether no literal is of a variable over the greatest one.
fn is_over(clause: &[Lit], max_var: u32) -> bool
    requires { max_var ≤ 4194303 }
    ensures { IsTrue result ↔ All (IsInRange max_var) clause.now }
{
    let most = 2 * max_var + 1;
    clause.iter().all(|lit| lit.0 <= most)
}

/// The first clause with a literal of a variable over the greatest one.
fn first_outside(invariant: &Lists<Lit>, max_var: u32) -> Option<u64>
    requires { max_var ≤ 4194303 }
    ensures none { IfNone result (All (All (IsInRange max_var)) invariant.now) }
    ensures some { IfSome result (λ k. (k < length invariant.now) × (All (IsInRange max_var) (get_or invariant.now k []) → ⊥)) }
{
    for k in 0..invariant.len() {
        if !is_over(invariant.list(k), max_var) {
            return Some(k as u64);
        }
    }
    None
}

/// Refuses clauses whose gates make too many variables, and then a clause that is not over the circuit with the latches
/// and gates. It takes no memory.
fn expect_fitting(
    circuit: &Model,
    latches: &[Latch],
    gates: &[Gate],
    invariant: &Lists<Lit>,
) -> Result<(), MakeError>
    ensures limit { OnOk result (size_of circuit.now latches.now gates.now invariant.now ≤ 4194303) }
    ensures over { OnOk result (All (IsOverAll (extended circuit.now latches.now gates.now)) invariant.now) }
    ensures refused { IfErr result (λ e. (p : AProperty) → HasCause circuit.now p latches.now gates.now invariant.now e) }
{
    circuit.well_formed();
    let max_var = circuit.max_var();
    let Some(left) = variables_left(max_var, latches.len(), gates.len()) else {
        return Err(MakeError::Limit);
    };
    let Some(_count) = gate_count(invariant, left) else {
        return Err(MakeError::Limit);
    };
    let greatest = max_var + latches.len() as u32 + gates.len() as u32;
    match first_outside(invariant, greatest) {
        Some(clause) => Err(MakeError::Outside(clause)),
        None => Ok(()),
    }
}

/// Leaves all properties out but this one bad literal.
fn watch(alloc: Global, parts: &mut Parts, bad: Lit) -> Result<(), Refused>
    ensures { OnOk result (parts.new ≡ only_bad parts.old bad) }
{
    parts.bad = Seq::from_slice(alloc, &[bad])?;
    parts.outputs = Seq::new(alloc);
    parts.justice = Seq::new(alloc);
    parts.fairness = Seq::new(alloc);
    Ok(())
}

/// The parts of the witness circuit.
fn witness_parts(
    alloc: Global,
    parts: &Parts,
    latches: &[Latch],
    gates: &[Gate],
    invariant: &Lists<Lit>,
    bad: Lit,
) -> Result<Parts, Refused>
    requires limit { size_of parts.now latches.now gates.now invariant.now ≤ 4194303 }
    requires small { All (All (λ a. a.0 + 1 < 2 ^ 32)) invariant.now }
    requires bad { bad.0 + 2 < 2 ^ 32 }
    ensures { IfOk result (λ p. p ≡ witness_parts_of parts.now latches.now gates.now invariant.now bad) }
{
    let first = parts.max_var + 1 + latches.len() as u32 + gates.len() as u32;
    let mut all = copied(alloc, gates)?;
    let holds = push_property(alloc, &mut all, invariant, negation(bad), first)?;
    let mut made = extended_parts(alloc, parts, latches, &all)?;
    watch(alloc, &mut made, negation(holds))?;
    Ok(made)
}

/// The witness circuit.
fn witness_model(
    alloc: Global,
    circuit: &Model,
    latches: &[Latch],
    gates: &[Gate],
    invariant: &Lists<Lit>,
    bad: Lit,
) -> Result<Model, MakeError>
    requires limit { size_of circuit.now latches.now gates.now invariant.now ≤ 4194303 }
    requires over { All (IsOverAll (extended circuit.now latches.now gates.now)) invariant.now }
    requires watched { (p : AProperty) × IsWatched circuit.now p bad }
    ensures made { IfOk result (λ m. m ≡ witness_parts_of circuit.now latches.now gates.now invariant.now bad) }
    ensures exact { IfOk result (IsWitness circuit.now latches.now gates.now invariant.now bad) }
    ensures refused { IfErr result IsUnmade }
{
    circuit.well_formed();
    let parts = witness_parts(alloc, circuit.parts(), latches, gates, invariant, bad)?;
    let model = Model::from_parts(alloc, parts)?;
    Ok(model)
}

/// The witness circuit of the clauses, over any literals of the circuit with these latches and gates behind its own, for
/// the literal that the property watches: a bad literal, or an output that is taken as one.
///
/// Refused are first a property that is not there or is of justice, then more than 4,194,303 variables, then the first
/// clause that is not over the circuit; and latches and gates that make no circuit. It costs the circuit and the clauses.
pub fn witness_of(
    alloc: Global,
    circuit: &Model,
    property: Property,
    latches: &[Latch],
    gates: &[Gate],
    invariant: &Lists<Lit>,
) -> Result<AigerFile, MakeError>
    ensures made { IfOk result (λ f. (a : ALit) × IsWatched circuit.now property a × (f.model ≡ witness_parts_of circuit.now latches.now gates.now invariant.now a) × IsWitness circuit.now latches.now gates.now invariant.now a f.model) }
    ensures names { IfOk result (λ f. f.symbols ≡ shared_names_of circuit.now) }
    ensures comment { IfOk result (λ f. f.comment ≡ None) }
    ensures refused { IfErr result (HasCause circuit.now property latches.now gates.now invariant.now) }
{
    let Some(bad) = watched(circuit, property) else {
        return Err(MakeError::NoProperty(position_of(property)));
    };
    expect_fitting(circuit, latches, gates, invariant)?;
    let model = witness_model(alloc, circuit, latches, gates, invariant, bad)?;
    let symbols = shared_names(alloc, circuit)?;
    let file = AigerFile::new(alloc, model, Seq::from_vec(symbols), None)?;
    Ok(file)
}

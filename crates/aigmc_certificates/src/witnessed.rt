//! The command `adopt-witness`: a witness circuit becomes a certificate of version 3.

use crate::conditions::first_failing;
use crate::counterexample::{Values, tell_inputs, tell_state, tell_step};
use crate::third::{NO_INVARIANT, Outcome, UNKNOWN, outcome_of, values_of};
use crate::witness_file::{adopted_of, witness_in};
use aigmc_files::{
    Claimed, DONE, ExitError, Role, about, asked_for, circuit, is_taken, property_in,
};
use arguments::Adoption;
use base::{Budget, Refused, Seq};
use certificate3::{Claim, Format};
use certify3::{Case, Counterexample, Effort};
use graph::{AigerFile, Latch, Lit, Model, Property};
use inputs::is_standard;
use reset_functions::Begun;
use std::alloc::Global;
use witness_adoption::Adopted;
use witness_conditions::Pair;
use witness_pairs::Shared;

/// The only bad literal of the circuit, or the only output of one whose outputs are taken as some.
fn only_property(circuit: &Model) -> Option<Property> {
    if circuit.bad().len() == 1 {
        return Some(Property::Bad(0));
    }
    if circuit.parts().are_outputs_bad() && circuit.outputs().len() == 1 {
        return Some(Property::Output(0));
    }
    None
}

/// The property that is asked for, or else the circuit's only one.
fn asked_property(
    rt: &HostRuntime,
    asked: Adoption<'_>,
    file: &AigerFile,
) -> Result<Property, ExitError> {
    if let Some(word) = asked.property {
        let word = asked_for(word)?;
        return property_in(rt, asked.file, file, word, asked.verbose);
    }
    match only_property(file.model()) {
        Some(property) => Ok(property),
        None => {
            let _ = eprintln!(rt;
                "aigmc: the circuit has not one bad literal: -p says which it is about"
            );
            Err(ExitError::Told)
        }
    }
}

/// What is claimed of the property by what a witness adds.
fn claimed_of(property: Property, adopted: Adopted) -> Claimed {
    let Adopted {
        latches,
        gates,
        invariant,
        of_property: _,
        agrees: _,
    } = adopted;
    Claimed {
        format: Format::Three,
        claim: Claim {
            property,
            rounds: 0,
        },
        latches,
        gates,
        invariant,
    }
}

/// Adds the values of the latches that the witness alone has, and those after a step.
fn add_own(values: &mut Values, latches: &[Latch], found: &Counterexample) -> Result<(), Refused> {
    for latch in latches {
        values.state.push(found.value(latch.lit))?;
        values.next.push(found.value(latch.next))?;
    }
    Ok(())
}

/// Says which clause is false: the first ones are the witness's property, and the others are its constraints.
fn tell_clause(
    rt: &HostRuntime,
    of_property: &str,
    of_constraint: &str,
    clause: u64,
    property_clauses: u64,
) {
    let _ = if clause < property_clauses {
        eprint!(rt; "  {of_property}: the witness's property is false")
    } else {
        eprint!(rt;
            "  {of_constraint}: the witness's constraint {} is false",
            clause.saturating_sub(property_clauses)
        )
    };
}

/// Says which of a witness's conditions the values break.
fn tell_condition(rt: &HostRuntime, case: Case, values: &Values, property_clauses: u64) {
    let _ = eprintln!(rt; "aigmc: the circuit is no witness of the property");
    match case {
        Case::First(clause) => {
            tell_clause(rt, "base", "reset", clause, property_clauses);
            tell_state(rt, values);
        }
        Case::Step(clause) => {
            tell_clause(rt, "step", "transition", clause, property_clauses);
            tell_step(rt, values);
        }
        Case::Last => {
            let _ = eprint!(rt; "  property: the property's literal is 1");
            tell_state(rt, values);
        }
    }
    tell_inputs(rt, values.inputs.as_slice());
}

/// Makes the certificate, or says which of the witness's conditions fails, by the latches of the circuit and then those
/// that the witness alone has.
fn kept_of(
    rt: &HostRuntime,
    out: &str,
    circuit: &Model,
    claimed: Claimed,
    property_clauses: u64,
    steps: u64,
) -> Result<u8, ExitError> {
    let own = Seq::from_slice(rt.alloc(), claimed.latches.as_slice())?;
    match outcome_of(rt, out, circuit, claimed, Effort::Quick, steps)? {
        Outcome::Made => Ok(DONE),
        Outcome::NotInvariant(found) => {
            let mut values = values_of(rt.alloc(), circuit, &found)?;
            add_own(&mut values, own.as_slice(), &found)?;
            tell_condition(rt, found.case, &values, property_clauses);
            Ok(NO_INVARIANT)
        }
        Outcome::Unknown => Ok(UNKNOWN),
    }
}

/// What a witness shares with the circuit, with its resets that are functions.
fn shared_of(
    alloc: Global,
    circuit: &Model,
    witness: &AigerFile,
    resets: Vec<Option<Lit>>,
) -> Result<Shared, ExitError> {
    let mut shared = Shared::of(alloc, circuit, witness)?;
    shared.resets = resets;
    Ok(shared)
}

/// The status of the first condition of the witness that does not hold, where there is one. Standard error says why.
fn failing(
    rt: &HostRuntime,
    circuit: &Model,
    bad: Lit,
    witness: &Model,
    shared: &Shared,
    budget: &mut Budget,
) -> Result<Option<u8>, ExitError> {
    let pair = Pair::of(circuit, bad, witness, shared)?;
    first_failing(rt, pair, budget)
}

/// The literal that a property of safety watches.
fn watched(circuit: &Model, property: Property) -> Option<Lit> {
    match property {
        Property::Bad(n) => circuit.bad().get(n as usize).copied(),
        Property::Output(n) => circuit.outputs().get(n as usize).copied(),
        Property::Justice(_) => None,
    }
}

/// The same as `adopt_witness` of circuits that were read. Where the witness agrees with the circuit, the cases of its
/// clauses are its conditions.
fn adopt_for(
    rt: &HostRuntime,
    asked: Adoption<'_>,
    circuit: &Model,
    property: Property,
    bad: Lit,
    witness: &Model,
    shared: &Shared,
) -> Result<u8, ExitError> {
    let adopted = about(Role::Other, adopted_of(rt, circuit, witness, shared))?;
    let mut budget = Budget::new(asked.budget);
    if !adopted.agrees {
        let failed = failing(rt, circuit, bad, witness, shared, &mut budget);
        if let Some(status) = about(Role::Other, failed)? {
            return Ok(status);
        }
    }
    let property_clauses = adopted.of_property as u64;
    let claimed = claimed_of(property, adopted);
    kept_of(
        rt,
        asked.out,
        circuit,
        claimed,
        property_clauses,
        budget.left(),
    )
}

/// The same as `adopt_witness` of a circuit that was read.
fn adopt_of(rt: &HostRuntime, asked: Adoption<'_>, file: &AigerFile) -> Result<u8, ExitError> {
    let property = asked_property(rt, asked, file)?;
    let Some(bad) = watched(file.model(), property) else {
        return Err(ExitError::BadArgument);
    };
    let circuit = file.model();
    let Begun {
        file: witness,
        resets,
    } = witness_in(rt, asked.witness)?;
    let shared = shared_of(rt.alloc(), circuit, &witness, resets);
    let shared = about(Role::Other, shared)?;
    adopt_for(rt, asked, circuit, property, bad, witness.model(), &shared)
}

/// Makes a certificate of version 3 of a witness circuit, in the file of that name.
pub fn adopt_witness(rt: &HostRuntime, asked: Adoption<'_>) -> Result<u8, ExitError> {
    if is_standard(asked.file) && is_standard(asked.witness) {
        return Err(ExitError::BadArgument);
    }
    let out = asked.out;
    if is_taken(rt, asked.file, out) || is_taken(rt, asked.witness, out) {
        return Err(ExitError::Taken);
    }
    let file = circuit(rt, asked.file)?;
    adopt_of(rt, asked, &file)
}

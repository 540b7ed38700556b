//! A circuit at one time, in a circuit that is being made: a list of what each of its variables is there.

ghost use Rattle.std.specs.Prelude.{◌≡◌, ◌++◌, All, IfErr, IfOk, OnOk, map};
ghost use Rattle.graph.specs.Circuits.{Fires, Valuation};
ghost use Rattle.witness_pairs.specs.Drafts.{Follows, GoesOn, IsUnasked, seen};
ghost use Rattle.witness_pairs.specs.Renamed.{renamed, renamed_gate};

use crate::drafting::Draft;
use crate::renaming::{gate_of, literal_of, name};
use crate::shared::given_at;
use base::{Refused, Seq, filled};
use graph::{Gate, Latch, Lit, Model};
use std::alloc::Global;
use witness_circuits::MakeError;

/// What is known, or else an input more.
fn known_or_input(draft: &mut Draft, known: Option<Lit>) -> Result<Lit, MakeError>
    ensures gates { OnOk result (draft.new.gates ≡ draft.old.gates) }
    ensures refused { IfErr result IsUnasked }
{
    match known {
        Some(lit) => Ok(lit),
        None => draft.input(),
    }
}

/// Names the inputs, each by what is known of it, or else by an input more.
fn name_inputs(
    draft: &mut Draft,
    names: &mut [Lit],
    inputs: &[Lit],
    known: &[Option<Lit>],
) -> Result<(), MakeError>
    ensures gates { OnOk result (draft.new.gates ≡ draft.old.gates) }
    ensures refused { IfErr result IsUnasked }
{
    for (position, lit) in inputs.iter().enumerate() {
        let given = known_or_input(draft, given_at(known, position))?;
        name(names, *lit, given);
    }
    Ok(())
}

/// Names the latches, each by what is known of it, or else by an input more.
fn name_latches(
    draft: &mut Draft,
    names: &mut [Lit],
    latches: &[Latch],
    known: &[Option<Lit>],
) -> Result<(), MakeError>
    ensures gates { OnOk result (draft.new.gates ≡ draft.old.gates) }
    ensures refused { IfErr result IsUnasked }
{
    for (position, latch) in latches.iter().enumerate() {
        let given = known_or_input(draft, given_at(known, position))?;
        name(names, latch.lit, given);
    }
    Ok(())
}

/// Names the gates by new variables, each behind those of the gates that it reads.
fn name_gates(draft: &mut Draft, names: &mut [Lit], circuit: &Model) -> Result<(), MakeError>
    ensures gates { OnOk result (draft.new.gates ≡ draft.old.gates) }
    ensures refused { IfErr result IsUnasked }
{
    for position in circuit.order() {
        if let Some(gate) = circuit.gates().get(*position as usize) {
            let given = draft.fresh()?;
            name(names, gate.lhs, given);
        }
    }
    Ok(())
}

/// Adds the gates under their names.
fn add_gates(draft: &mut Draft, names: &[Lit], gates: &[Gate]) -> Result<(), Refused>
    ensures { OnOk result (draft.new.gates ≡ draft.old.gates ++ map (renamed_gate names.now) gates.now) }
{
    for gate in gates {
        draft.gates.push(gate_of(names, *gate))?;
    }
    Ok(())
}

/// Names inputs and latches by what is known of them, or else by an input more, and the gates by new variables.
fn name_all(
    draft: &mut Draft,
    names: &mut [Lit],
    circuit: &Model,
    inputs: &[Option<Lit>],
    latches: &[Option<Lit>],
) -> Result<(), MakeError>
    ensures gates { OnOk result (draft.new.gates ≡ draft.old.gates) }
    ensures refused { IfErr result IsUnasked }
{
    name_inputs(draft, names, circuit.inputs(), inputs)?;
    name_latches(draft, names, circuit.latches(), latches)?;
    name_gates(draft, names, circuit)
}

/// The names of the circuit's variables.
fn names_of(
    alloc: Global,
    draft: &mut Draft,
    circuit: &Model,
    inputs: &[Option<Lit>],
    latches: &[Option<Lit>],
) -> Result<Vec<Lit>, MakeError>
    ensures gates { OnOk result (draft.new.gates ≡ draft.old.gates) }
    ensures refused { IfErr result IsUnasked }
{
    circuit.well_formed();
    let mut names = filled(alloc, Lit(0), circuit.max_var() as usize + 1)?;
    name_all(draft, names.as_mut_slice(), circuit, inputs, latches)?;
    Ok(names)
}

/// The circuit at one more time. Of its inputs and latches, by their positions, the one is known, and the other an input
/// more.
pub fn frame_of(
    alloc: Global,
    draft: &mut Draft,
    circuit: &Model,
    inputs: &[Option<Lit>],
    latches: &[Option<Lit>],
) -> Result<Vec<Lit>, MakeError>
    ensures goes_on { OnOk result (GoesOn draft.old.gates draft.new.gates) }
    ensures seen { IfOk result (λ names. (x : Valuation) → Follows draft.new.gates x → All (Fires (seen names.items x)) circuit.now.gates) }
    ensures refused { IfErr result IsUnasked }
{
    let names = names_of(alloc, draft, circuit, inputs, latches)?;
    add_gates(draft, &names, circuit.gates())?;
    Ok(names)
}

/// Adds what the literals are.
pub fn add_literals(facts: &mut Seq<Lit>, names: &[Lit], lits: &[Lit]) -> Result<(), Refused>
    ensures { OnOk result (facts.new ≡ facts.old ++ map (renamed names.now) lits.now) }
{
    for lit in lits {
        facts.push(literal_of(names, *lit))?;
    }
    Ok(())
}

//! A replay in three values: false, true and open.

ghost use Rattle.std.specs.Prelude.{◌≡◌, ◌≤◌, ◌<◌, ◌*◌, ◌+◌, ◌++◌, ℕ, slice_index_or, List, Bool, All, length, map, IfOk, OnOk};
ghost use Rattle.std.specs.List.{flat_map};
ghost use Rattle.graph.specs.declared.circuit.Latch.{Latch as ALatch};
ghost use Rattle.graph.specs.Circuits.{next_state, Valuation, variable};
ghost use Rattle.simulate.specs.Starts.{Starts};
ghost use Rattle.stimulus.specs.Courses.{Course, IsAt};
ghost use Rattle.stimulus.specs.Shown.{IsReplay};
ghost use Rattle.witness.specs.Completions.{Completes};
ghost use Rattle.witness.specs.Cleared.{CompleteAll};
ghost use Rattle.wave_signals.specs.Columns.{values_at};
ghost use Rattle.wave_signals.specs.OpenValues.{Stand, open_first, open_place, open_value_of};

use crate::bits::{Bit, latch_literals};
use crate::open_values::{evaluate, open_value};
use base::{Refused, Seq, copied, filled, push};
use graph::{Latch, Lit, Model};
use std::alloc::Global;

/// The value that a latch begins with: the one that is given, or else that of its reset.
fn first_value(latch: Latch, given: Option<bool>) -> Option<bool>
    ensures { result ≡ open_first latch given }
{
    match given {
        Some(value) => Some(value),
        None => match latch.reset.0 {
            0 => Some(false),
            1 => Some(true),
            _ => None,
        },
    }
}

/// What is known of a first state of which this is given: an open value of a latch that is reset to 0 or to 1 is known
/// too.
fn first_state(
    alloc: Global,
    latches: &[Latch],
    given: &[Option<bool>],
) -> Result<Vec<Option<bool>>, Refused>
    requires { length given.now ≡ length latches.now }
    ensures each { IfOk result (λ v. (k : ℕ) (d : ALatch) → k < length latches.now → open_place v.items k ≡ open_first (slice_index_or latches.now k d) (open_place given.now k)) }
    ensures stand { IfOk result (λ v. (st : List Bool) → Starts latches.now st → Completes given.now st → Completes v.items st) }
    ensures long { IfOk result (λ v. length v.items ≡ length latches.now) }
{
    let mut state = Vec::new(alloc);
    for (k, latch) in latches.iter().enumerate() {
        push(&mut state, first_value(*latch, given[k]))?;
    }
    Ok(state)
}

/// Gives each latch what is known of its next literal.
fn take_over(latches: &[Latch], values: &[Option<bool>], state: &mut [Option<bool>])
    requires lengths { length state.old ≡ length latches.now }
    requires in_range { All (λ l. variable l.next < length values.now) latches.now }
    ensures { state.new ≡ map (λ l. open_value_of values.now l.next) latches.now }
{
    for (i, latch) in latches.iter().enumerate() {
        state[i] = open_value(latch.next, values);
    }
}

/// The values at a time of this state and these inputs, and what is known of the next state.
fn step(
    circuit: &Model,
    latches: &[Lit],
    inputs: &[Option<bool>],
    state: &mut [Option<bool>],
    values: &mut [Option<bool>],
)
    requires latches { latches.now ≡ map (λ l. l.lit) circuit.now.latches }
    requires state { length state.old ≡ length circuit.now.latches }
    requires inputs { length inputs.now ≡ length circuit.now.inputs }
    requires places { length values.old ≡ circuit.now.max_var + 1 }
    ensures stand { (st line : List Bool) (w : Valuation) → Completes state.old st → Completes inputs.now line → IsAt circuit.now st line w → Stand values.new w }
    ensures moves { (st line : List Bool) (w : Valuation) → Completes state.old st → Completes inputs.now line → IsAt circuit.now st line w → Completes state.new (next_state circuit.now w) }
    ensures state_places { length state.new ≡ length state.old }
    ensures places { length values.new ≡ length values.old }
{
    circuit.well_formed();
    evaluate(circuit, latches, state, inputs, values);
    take_over(circuit.latches(), values, state);
}

/// Adds what is known of the bits at the time of these values.
fn push_open(
    rows: &mut Vec<Option<bool>>,
    values: &[Option<bool>],
    bits: &[Bit<'_>],
) -> Result<(), Refused>
    requires { All (λ b. variable b.lit < length values.now) bits.now }
    ensures { OnOk result (rows.new.items ≡ rows.old.items ++ map (λ b. open_value_of values.now b.lit) bits.now) }
{
    for bit in bits {
        push(rows, open_value(bit.lit, values))?;
    }
    Ok(())
}

/// What is known of the bits at each time, where the lines are stepped from this state on.
fn play_lines(
    alloc: Global,
    circuit: &Model,
    latches: &[Lit],
    lines: &[Seq<Option<bool>>],
    bits: &[Bit<'_>],
    state: &mut [Option<bool>],
    values: &mut [Option<bool>],
) -> Result<Vec<Option<bool>>, Refused>
    requires latches { latches.now ≡ map (λ l. l.lit) circuit.now.latches }
    requires lines_fit { All (λ line. length line ≡ length circuit.now.inputs) lines.now }
    requires in_range { All (λ b. variable b.lit ≤ circuit.now.max_var) bits.now }
    requires state { length state.old ≡ length circuit.now.latches }
    requires places { length values.old ≡ circuit.now.max_var + 1 }
    ensures stand { IfOk result (λ v. (st : List Bool) (inputs : List (List Bool)) (r : List Valuation) → Completes state.old st → CompleteAll lines.now inputs → Course circuit.now st inputs r → Completes v.items (flat_map (values_at bits.now) r)) }
    ensures long { IfOk result (λ v. length v.items ≡ length lines.now * length bits.now) }
{
    let mut rows = Vec::new(alloc);
    for line in lines {
        step(circuit, latches, line.as_slice(), state, values);
        push_open(&mut rows, values, bits)?;
    }
    Ok(rows)
}

/// What is known of the bits at each time of a replay of these lines, time after time: it is the value in each course
/// of lines that have what is known of these.
fn play_open(
    alloc: Global,
    circuit: &Model,
    initial: &[Option<bool>],
    lines: &[Seq<Option<bool>>],
    bits: &[Bit<'_>],
) -> Result<Vec<Option<bool>>, Refused>
    requires initial { length initial.now ≡ length circuit.now.latches }
    requires lines_fit { All (λ line. length line ≡ length circuit.now.inputs) lines.now }
    requires in_range { All (λ b. variable b.lit ≤ circuit.now.max_var) bits.now }
    ensures stand { IfOk result (λ v. (st : List Bool) (inputs : List (List Bool)) (r : List Valuation) → Completes initial.now st → CompleteAll lines.now inputs → Course circuit.now st inputs r → Completes v.items (flat_map (values_at bits.now) r)) }
    ensures long { IfOk result (λ v. length v.items ≡ length lines.now * length bits.now) }
{
    circuit.well_formed();
    let latches = latch_literals(alloc, circuit.latches())?;
    let mut state = copied(alloc, initial)?;
    let mut values = filled(alloc, None, circuit.max_var() as usize + 1)?;
    play_lines(
        alloc,
        circuit,
        &latches,
        lines,
        bits,
        &mut state,
        &mut values,
    )
}

/// What is known of the bits at each time of a replay of which this is given, time after time. What is known is the
/// value in each replay of each first state and lines that have what is given. A step touches each gate once.
pub fn open_rows(
    alloc: Global,
    circuit: &Model,
    initial: &[Option<bool>],
    lines: &[Seq<Option<bool>>],
    bits: &[Bit<'_>],
) -> Result<Vec<Option<bool>>, Refused>
    requires initial { length initial.now ≡ length circuit.now.latches }
    requires lines_fit { All (λ line. length line ≡ length circuit.now.inputs) lines.now }
    requires in_range { All (λ b. variable b.lit ≤ circuit.now.max_var) bits.now }
    ensures stand { IfOk result (λ v. (st : List Bool) (inputs : List (List Bool)) (r : List Valuation) → Starts circuit.now.latches st → Completes initial.now st → CompleteAll lines.now inputs → IsReplay circuit.now st inputs r → Completes v.items (flat_map (values_at bits.now) r)) }
    ensures long { IfOk result (λ v. length v.items ≡ length lines.now * length bits.now) }
{
    let state = first_state(alloc, circuit.latches(), initial)?;
    play_open(alloc, circuit, &state, lines, bits)
}

//! One time of a circuit in three values: false, true and open.

ghost use Rattle.std.specs.Prelude.{◌≡◌, ◌<◌, ◌%◌, ◌+◌, ◌≢◌, ℕ, false, List, Bool, All, AllPairs, Contains, None, length, map, slice_index_or, ◌⊎◌};
ghost use Rattle.graph.specs.declared.circuit.Lit.{Lit as ALit};
ghost use Rattle.graph.specs.Circuits.{Fires, Valuation, place, variable};
ghost use Rattle.graph.specs.WellFormed.{IsOrder};
ghost use Rattle.stimulus.specs.Courses.{IsAt};
ghost use Rattle.witness.specs.Completions.{Completes};
ghost use Rattle.wave_signals.specs.OpenValues.{AreGiven, OpenFires, Stand, open_and, open_place, open_value_of};

use graph::{Gate, Latch, Lit, Model};

/// The value of a literal.
pub fn open_value(lit: Lit, values: &[Option<bool>]) -> Option<bool>
    requires { variable lit < length values.now }
    ensures { result ≡ open_value_of values.now lit }
{
    match values[lit.variable() as usize] {
        None => None,
        Some(value) => Some(if lit.is_negated() { !value } else { value }),
    }
}

/// The conjunction of two values.
fn both(one: Option<bool>, other: Option<bool>) -> Option<bool>
    ensures { result ≡ open_and one other }
{
    match (one, other) {
        (None, None) => None,
        (None, Some(value)) | (Some(value), None) => { if value { None } else { Some(false) } }
        (Some(first), Some(second)) => Some(first && second),
    }
}

/// Makes every value open.
fn clear(out: &mut [Option<bool>])
    ensures cleared { (v : ℕ) → open_place out.new v ≡ None }
    ensures places { length out.new ≡ length out.old }
{
    for value in out.iter_mut() {
        *value = None;
    }
}

/// Gives the constant its value.
fn fill_constant(out: &mut [Option<bool>])
    requires { 0 < length out.old }
    ensures stand { (w : Valuation) → Stand out.old w → place w 0 ≡ false → Stand out.new w }
    ensures places { length out.new ≡ length out.old }
{
    out[0] = Some(false);
}

/// Gives the variables of these literals their values.
fn fill(lits: &[Lit], given: &[Option<bool>], out: &mut [Option<bool>])
    requires lengths { length given.now ≡ length lits.now }
    requires in_range { All (λ a. variable a < length out.old) lits.now }
    requires once { AllPairs (λ u v. u ≢ v) (map variable lits.now) }
    ensures written { (k : ℕ) (d : ALit) → k < length lits.now → open_place out.new (variable (slice_index_or lits.now k d)) ≡ open_place given.now k }
    ensures kept { (v : ℕ) → Contains (map variable lits.now) v ⊎ (open_place out.new v ≡ open_place out.old v) }
    ensures stand { (w : Valuation) → Stand out.old w → AreGiven lits.now given.now w → Stand out.new w }
    ensures places { length out.new ≡ length out.old }
{
    for (i, lit) in lits.iter().enumerate() {
        out[lit.variable() as usize] = given[i];
    }
}

/// The conjunction of the gate's right sides.
fn conjunction(gate: Gate, values: &[Option<bool>]) -> Option<bool>
    requires { (variable gate.rhs0 < length values.now) × (variable gate.rhs1 < length values.now) }
    ensures { result ≡ open_and (open_value_of values.now gate.rhs0) (open_value_of values.now gate.rhs1) }
{
    both(open_value(gate.rhs0, values), open_value(gate.rhs1, values))
}

/// Gives the gates their values, in an order in which each comes after those that it reads.
fn fill_gates(gates: &[Gate], order: &[u32], out: &mut [Option<bool>])
    requires in_range { All (λ g. (variable g.lhs < length out.old) × (variable g.rhs0 < length out.old) × (variable g.rhs1 < length out.old)) gates.now }
    requires even { All (λ g. g.lhs.0 % 2 ≡ 0) gates.now }
    requires once { AllPairs (λ u v. u ≢ v) (map (λ g. variable g.lhs) gates.now) }
    requires ordered { IsOrder gates.now order.now }
    ensures fires { All (OpenFires out.new) gates.now }
    ensures kept { (v : ℕ) → Contains (map (λ g. variable g.lhs) gates.now) v ⊎ (open_place out.new v ≡ open_place out.old v) }
    ensures stand { (w : Valuation) → Stand out.old w → All (Fires w) gates.now → Stand out.new w }
    ensures places { length out.new ≡ length out.old }
{
    for place in order {
        let gate = gates[*place as usize];
        out[gate.lhs.variable() as usize] = conjunction(gate, out);
    }
}

/// The values of the variables at a time of this state and these inputs: what is known is the value in each time whose
/// state and inputs have what is known of these. It touches each gate once.
pub fn evaluate(
    circuit: &Model,
    latches: &[Lit],
    state: &[Option<bool>],
    inputs: &[Option<bool>],
    out: &mut [Option<bool>],
)
    requires latches { latches.now ≡ map (λ l. l.lit) circuit.now.latches }
    requires state { length state.now ≡ length circuit.now.latches }
    requires inputs { length inputs.now ≡ length circuit.now.inputs }
    requires places { length out.old ≡ circuit.now.max_var + 1 }
    ensures state { (k : ℕ) (d : ALit) → k < length latches.now → open_place out.new (variable (slice_index_or latches.now k d)) ≡ open_place state.now k }
    ensures inputs { (k : ℕ) (d : ALit) → k < length circuit.now.inputs → open_place out.new (variable (slice_index_or circuit.now.inputs k d)) ≡ open_place inputs.now k }
    ensures fires { All (OpenFires out.new) circuit.now.gates }
    ensures stand { (st line : List Bool) (w : Valuation) → Completes state.now st → Completes inputs.now line → IsAt circuit.now st line w → Stand out.new w }
    ensures places { length out.new ≡ length out.old }
{
    circuit.well_formed();
    clear(out);
    fill_constant(out);
    fill(circuit.inputs(), inputs, out);
    fill(latches, state, out);
    fill_gates(circuit.gates(), circuit.order(), out);
}

//! The steps of an evaluation, over plain slices.

ghost use Rattle.std.specs.Prelude.{◌≡◌, ℕ, ◌<◌, ◌%◌, ◌≢◌, ◌⊎◌, ◌&&◌, length, map, false, All, AllPairs, Contains, slice_index_or, ◌+◌, List, Bool};
ghost use Rattle.graph.specs.Circuits.{variable, place, value_of, Fires, Agrees, state_of, inputs_of};
ghost use Rattle.graph.specs.WellFormed.{IsOrder, IsModel};

use crate::circuit::{Gate, Latch, Lit};
use crate::parts::Parts;

/// The truth value of a literal.
pub fn literal_value(lit: Lit, values: &[bool]) -> bool
    requires { variable lit < length values.now }
    ensures { result ≡ value_of values.now lit }
{
    let at = values[lit.variable() as usize];
    if lit.is_negated() { !at } else { at }
}

/// Makes every place false.
pub fn clear(out: &mut [bool])
    ensures { (v : ℕ) → place out.new v ≡ false }
{
    for x in out.iter_mut() {
        *x = false;
    }
}

/// Gives the inputs their values.
pub fn fill_inputs(lits: &[Lit], values: &[bool], out: &mut [bool])
    requires lengths { length values.now ≡ length lits.now }
    requires in_range { All (λ a. variable a < length out.old) lits.now }
    requires once { AllPairs (λ u v. u ≢ v) (map variable lits.now) }
    ensures written { (k : ℕ) (d : Lit) → k < length lits.now → place out.new (variable (slice_index_or lits.now k d)) ≡ place values.now k }
    ensures kept { (v : ℕ) → Contains (map variable lits.now) v ⊎ (place out.new v ≡ place out.old v) }
{
    for (i, lit) in lits.iter().enumerate() {
        out[lit.variable() as usize] = values[i];
    }
}

/// Gives the latches their values.
pub fn fill_latches(latches: &[Latch], values: &[bool], out: &mut [bool])
    requires lengths { length values.now ≡ length latches.now }
    requires in_range { All (λ l. variable l.lit < length out.old) latches.now }
    requires once { AllPairs (λ u v. u ≢ v) (map (λ l. variable l.lit) latches.now) }
    ensures written { (k : ℕ) (d : Latch) → k < length latches.now → place out.new (variable (slice_index_or latches.now k d).lit) ≡ place values.now k }
    ensures kept { (v : ℕ) → Contains (map (λ l. variable l.lit) latches.now) v ⊎ (place out.new v ≡ place out.old v) }
{
    for (i, latch) in latches.iter().enumerate() {
        out[latch.lit.variable() as usize] = values[i];
    }
}

/// The conjunction of the gate's right sides.
pub fn conjunction(gate: Gate, values: &[bool]) -> bool
    requires { (variable gate.rhs0 < length values.now) × (variable gate.rhs1 < length values.now) }
    ensures { result ≡ (value_of values.now gate.rhs0 && value_of values.now gate.rhs1) }
{
    // `&` reads both values: that costs less than a branch on the first.
    literal_value(gate.rhs0, values) & literal_value(gate.rhs1, values)
}

/// Gives the gates their values, in an order in which each comes after those that it reads.
pub fn fill_gates(gates: &[Gate], order: &[u32], out: &mut [bool])
    requires in_range { All (λ g. (variable g.lhs < length out.old) × (variable g.rhs0 < length out.old) × (variable g.rhs1 < length out.old)) gates.now }
    requires even { All (λ g. g.lhs.0 % 2 ≡ 0) gates.now }
    requires once { AllPairs (λ u v. u ≢ v) (map (λ g. variable g.lhs) gates.now) }
    requires ordered { IsOrder gates.now order.now }
    ensures fires { All (Fires out.new) gates.now }
    ensures kept { (v : ℕ) → Contains (map (λ g. variable g.lhs) gates.now) v ⊎ (place out.new v ≡ place out.old v) }
{
    for place in order {
        let gate = gates[*place as usize];
        out[gate.lhs.variable() as usize] = conjunction(gate, out);
    }
}

/// Fills in the one agreeing valuation with the given state and inputs.
pub fn evaluate(parts: &Parts, order: &[u32], state: &[bool], inputs: &[bool], out: &mut [bool])
    requires model { IsModel parts.now order.now }
    requires state { length state.now ≡ length parts.now.latches }
    requires inputs { length inputs.now ≡ length parts.now.inputs }
    requires places { length out.old ≡ parts.now.max_var + 1 }
    ensures agrees { Agrees parts.now out.new }
    ensures state { state_of parts.now out.new ≡ state.now }
    ensures inputs { inputs_of parts.now out.new ≡ inputs.now }
    ensures only { (w : List Bool) → Agrees parts.now w → state_of parts.now w ≡ state.now → inputs_of parts.now w ≡ inputs.now → w ≡ out.new }
{
    clear(out);
    fill_inputs(parts.inputs.as_slice(), inputs, out);
    fill_latches(parts.latches.as_slice(), state, out);
    fill_gates(parts.gates.as_slice(), order, out);
}

//! The steps of an evaluation of 256 runs, over plain slices.

ghost use Rattle.std.specs.Prelude.{◌≡◌, ℕ, ◌<◌, ◌+◌, ◌%◌, ◌≢◌, ◌⊎◌, ◌&&◌, length, map, All, AllPairs, Contains, IfOk, slice_index_or};
ghost use Rattle.graph.specs.Circuits.{variable, place, value_of, Fires};
ghost use Rattle.graph.specs.WellFormed.{IsOrder, IsWellFormed};
ghost use Rattle.simulate.specs.Lanes.{value_in, row_of};
ghost use Rattle.simulate.specs.Replays.{IsTheValuation};
ghost use Rattle.simulate.specs.Wides.{AreAfterWhatTheyRead, AreDefinedOnly, AreInOrder};

use crate::lanes::{both, negated_if};
use base::{Refused, push};
use graph::{Gate, Latch, Lit, Parts};
use std::alloc::Global;
use std::simd::u64x4;

/// The values of a literal.
pub fn literal_value(values: &[u64x4], lit: Lit) -> u64x4
    requires { variable lit < length values.now }
    ensures { (r : ℕ) → r < 256 → value_in result r ≡ value_of (row_of r values.now) lit }
{
    negated_if(values[lit.variable() as usize], lit.is_negated())
}

/// Gives the inputs their values.
fn fill_inputs(lits: &[Lit], values: &[u64x4], out: &mut [u64x4])
    requires lengths { length values.now ≡ length lits.now }
    requires in_range { All (λ a. variable a < length out.old) lits.now }
    requires once { AllPairs (λ u v. u ≢ v) (map variable lits.now) }
    ensures written { (r k : ℕ) (d : Lit) → k < length lits.now → place (row_of r out.new) (variable (slice_index_or lits.now k d)) ≡ place (row_of r values.now) k }
    ensures kept { (r v : ℕ) → Contains (map variable lits.now) v ⊎ (place (row_of r out.new) v ≡ place (row_of r out.old) v) }
{
    for (i, lit) in lits.iter().enumerate() {
        out[lit.variable() as usize] = values[i];
    }
}

/// Gives the latches their values.
fn fill_latches(latches: &[Latch], values: &[u64x4], out: &mut [u64x4])
    requires lengths { length values.now ≡ length latches.now }
    requires in_range { All (λ l. variable l.lit < length out.old) latches.now }
    requires once { AllPairs (λ u v. u ≢ v) (map (λ l. variable l.lit) latches.now) }
    ensures written { (r k : ℕ) (d : Latch) → k < length latches.now → place (row_of r out.new) (variable (slice_index_or latches.now k d).lit) ≡ place (row_of r values.now) k }
    ensures kept { (r v : ℕ) → Contains (map (λ l. variable l.lit) latches.now) v ⊎ (place (row_of r out.new) v ≡ place (row_of r out.old) v) }
{
    for (i, latch) in latches.iter().enumerate() {
        out[latch.lit.variable() as usize] = values[i];
    }
}

/// The conjunction of the gate's right sides.
fn conjunction(gate: Gate, values: &[u64x4]) -> u64x4
    requires { (variable gate.rhs0 < length values.now) × (variable gate.rhs1 < length values.now) }
    ensures { (r : ℕ) → r < 256 → value_in result r ≡ (value_of (row_of r values.now) gate.rhs0 && value_of (row_of r values.now) gate.rhs1) }
{
    both(
        literal_value(values, gate.rhs0),
        literal_value(values, gate.rhs1),
    )
}

/// The gates in this order.
pub fn in_order(alloc: Global, gates: &[Gate], order: &[u32]) -> Result<Vec<Gate>, Refused>
    requires { IsOrder gates.now order.now }
    ensures { IfOk result (λ sorted. AreInOrder gates.now sorted.items) }
{
    let mut sorted = Vec::new(alloc);
    for place in order {
        push(&mut sorted, gates[*place as usize])?;
    }
    Ok(sorted)
}

/// Gives the gates their values, each of which comes after those that it reads.
fn fill_gates(gates: &[Gate], out: &mut [u64x4])
    requires in_range { All (λ g. (variable g.lhs < length out.old) × (variable g.rhs0 < length out.old) × (variable g.rhs1 < length out.old)) gates.now }
    requires even { All (λ g. g.lhs.0 % 2 ≡ 0) gates.now }
    requires once { AllPairs (λ u v. u ≢ v) (map (λ g. variable g.lhs) gates.now) }
    requires after { AreAfterWhatTheyRead gates.now }
    ensures fires { (r : ℕ) → r < 256 → All (Fires (row_of r out.new)) gates.now }
    ensures kept { (r v : ℕ) → r < 256 → Contains (map (λ g. variable g.lhs) gates.now) v ⊎ (place (row_of r out.new) v ≡ place (row_of r out.old) v) }
{
    for gate in gates {
        out[gate.lhs.variable() as usize] = conjunction(*gate, out);
    }
}

/// Fills in, for each run, the one agreeing valuation with its state and inputs. The gates are those of the circuit, each after those
/// that it reads. What nothing defines is false before, and stays so.
pub fn evaluate(parts: &Parts, gates: &[Gate], state: &[u64x4], inputs: &[u64x4], out: &mut [u64x4])
    requires model { IsWellFormed parts.now }
    requires gates { AreInOrder parts.now.gates gates.now }
    requires state { length state.now ≡ length parts.now.latches }
    requires inputs { length inputs.now ≡ length parts.now.inputs }
    requires places { length out.old ≡ parts.now.max_var + 1 }
    requires defined_only { AreDefinedOnly parts.now out.old }
    ensures { (r : ℕ) → r < 256 → IsTheValuation parts.now (row_of r state.now) (row_of r inputs.now) (row_of r out.new) }
{
    fill_inputs(parts.inputs.as_slice(), inputs, out);
    fill_latches(parts.latches.as_slice(), state, out);
    fill_gates(gates, out);
}

/// Gives each latch the values of its next literal.
pub fn move_on(latches: &[Latch], values: &[u64x4], state: &mut [u64x4])
    requires lengths { length state.old ≡ length latches.now }
    requires in_range { All (λ l. variable l.next < length values.now) latches.now }
    ensures { (r : ℕ) → r < 256 → row_of r state.new ≡ map (λ l. value_of (row_of r values.now) l.next) latches.now }
{
    for (i, latch) in latches.iter().enumerate() {
        state[i] = literal_value(values, latch.next);
    }
}

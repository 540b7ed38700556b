//! The cut of each gate.

ghost use Rattle.std.specs.Prelude.{◌≡◌, ℕ, ◌+◌, ◌<◌, ◌≤◌, ◌⊎◌, All, IfOk, IfSome, Some, length};
ghost use Rattle.graph.specs.Circuits.{variable};
ghost use Rattle.cuts.specs.Cuts.{AreCuts, cut_at};
ghost use Rattle.cuts.specs.Joining.{IsInside, IsChosen, trivial};

use crate::combining::{joined, plain};
use crate::costs::{cost, uses_of};
use crate::cut::Cut;
use base::{Refused, filled};
use graph::{Gate, Model};
use std::alloc::Global;

/// The other cut, if there is one that costs no more, and else this one.
fn cheaper(flows: &[u32], cut: Cut, other: Option<Cut>) -> Cut
    requires cut { IsInside (length flows.now) cut }
    requires other { IfSome other (IsInside (length flows.now)) }
    ensures one { (result ≡ cut) ⊎ (other ≡ Some result) }
    ensures inside { IsInside (length flows.now) result }
{
    match other {
        Some(other) if cost(flows, other) <= cost(flows, cut) => other,
        _ => cut,
    }
}

/// The gate's cheapest cut: of each right side either its variable's cut or the variable itself goes into it. Of cuts that cost
/// the same it is the one with more gates inside, so that fewer variables are left.
fn cheapest(gate: Gate, cuts: &[Cut], flows: &[u32]) -> Cut
    requires places { length cuts.now ≡ length flows.now }
    requires first { variable gate.rhs0 < length cuts.now }
    requires second { variable gate.rhs1 < length cuts.now }
    requires inside { All (IsInside (length flows.now)) cuts.now }
    ensures chosen { IsChosen cuts.now gate result }
    ensures inside { IsInside (length flows.now) result }
{
    let first = gate.rhs0.variable();
    let second = gate.rhs1.variable();
    let one = cuts[first as usize];
    let other = cuts[second as usize];
    let cut = plain(gate);
    let cut = cheaper(flows, cut, joined(gate, one, Cut::itself(second)));
    let cut = cheaper(flows, cut, joined(gate, Cut::itself(first), other));
    cheaper(flows, cut, joined(gate, one, other))
}

/// For each variable the cut that has itself as its one leaf.
fn themselves(alloc: Global, max_var: u32) -> Result<Vec<Cut>, Refused>
    requires { max_var ≤ 4194303 }
    ensures places { IfOk result (λ cuts. length cuts.items ≡ max_var + 1) }
    ensures each { IfOk result (λ cuts. (v : ℕ) → v ≤ max_var → cut_at cuts.items v ≡ trivial v) }
{
    let mut cuts = filled(alloc, Cut::itself(0), max_var as usize + 1)?;
    for variable in 0..max_var + 1 {
        cuts[variable as usize] = Cut::itself(variable);
    }
    Ok(cuts)
}

/// Gives each gate its cheapest cut, in the order of the gates.
fn choose(circuit: &Model, uses: &[u32], flows: &mut [u32], cuts: &mut [Cut])
    requires uses { length uses.now ≡ circuit.now.max_var + 1 }
    requires flows { length flows.old ≡ circuit.now.max_var + 1 }
    requires cuts { length cuts.old ≡ circuit.now.max_var + 1 }
    requires each { (v : ℕ) → v ≤ circuit.now.max_var → cut_at cuts.old v ≡ trivial v }
    ensures { AreCuts circuit.now cuts.new }
{
    circuit.well_formed();
    let gates = circuit.gates();
    for position in circuit.order() {
        let gate = gates[*position as usize];
        let variable = gate.lhs.variable() as usize;
        let cut = cheapest(gate, cuts, flows);
        flows[variable] = cost(flows, cut) / uses[variable].max(1);
        cuts[variable] = cut;
    }
}

/// A cut for each variable: of a gate the cheapest of four, and of any other variable the variable itself. It costs the circuit.
pub fn cuts_of(alloc: Global, circuit: &Model) -> Result<Vec<Cut>, Refused>
    ensures { IfOk result (λ cuts. AreCuts circuit.now cuts.items) }
{
    circuit.well_formed();
    let uses = uses_of(alloc, circuit)?;
    let mut flows = filled(alloc, 0, circuit.max_var() as usize + 1)?;
    let mut cuts = themselves(alloc, circuit.max_var())?;
    choose(
        circuit,
        uses.as_slice(),
        flows.as_mut_slice(),
        cuts.as_mut_slice(),
    );
    Ok(cuts)
}

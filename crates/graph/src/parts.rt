//! Circuits as plain lists.

ghost use Rattle.std.specs.Mem.{type_size};
ghost use Rattle.std.specs.Prelude.{◌≡◌, ◌↔◌, [], IfOk, OnOk, IsTrue};
ghost use Rattle.base.specs.Sizes.{IsItemSize};
ghost use Rattle.graph.specs.Circuits.{AreOutputsBad, HasProperty};
ghost use Rattle.graph.specs.WellFormed.{only_bad as only_bad_of};

use crate::circuit::{Gate, Latch, Lit, Property};
use base::{Refused, Seq};
use std::alloc::Global;

/// A circuit as its lists, in the order of the file. Nothing is promised of them: `Model` is for
/// parts that are well formed.
#[derive(Drop)]
pub struct Parts {
    /// The greatest variable, `M`.
    pub max_var: u32,
    pub inputs: Seq<Lit>,
    pub latches: Seq<Latch>,
    pub outputs: Seq<Lit>,
    /// The bad literals, each a property of its own.
    pub bad: Seq<Lit>,
    /// The invariant constraints.
    pub constraints: Seq<Lit>,
    /// The literals of each justice property.
    pub justice: Seq<Seq<Lit>>,
    pub fairness: Seq<Lit>,
    /// The AND gates, in any order.
    pub gates: Seq<Gate>,
}

/// The same lists in memory of their own.
fn copy_lists(alloc: Global, lists: &[Seq<Lit>]) -> Result<Seq<Seq<Lit>>, Refused>
    ensures { IfOk result (λ copies. copies ≡ lists.now) }
{
    let mut copies = Seq::new(alloc);
    for list in lists {
        copies.push(list.copy(alloc)?)?;
    }
    Ok(copies)
}

/// Puts the items of one list into another.
fn copy_to<T: Copy>(alloc: Global, from: &Seq<T>, to: &mut Seq<T>) -> Result<(), Refused>
    requires { IsItemSize (type_size T.row) }
    ensures { OnOk result (to.new ≡ from.now) }
{
    *to = from.copy(alloc)?;
    Ok(())
}

impl Parts {
    /// Parts that are empty but for the greatest variable.
    fn empty(alloc: Global, max_var: u32) -> Parts
        ensures { result ≡ record { max_var = max_var; inputs = []; latches = []; outputs = []; bad = []; constraints = []; justice = []; fairness = []; gates = [] } }
    {
        Parts {
            max_var,
            inputs: Seq::new(alloc),
            latches: Seq::new(alloc),
            outputs: Seq::new(alloc),
            bad: Seq::new(alloc),
            constraints: Seq::new(alloc),
            justice: Seq::new(alloc),
            fairness: Seq::new(alloc),
            gates: Seq::new(alloc),
        }
    }

    /// Takes over what decides the runs: inputs, latches, constraints and gates.
    fn copy_runs(&mut self, alloc: Global, from: &Parts) -> Result<(), Refused>
        ensures { OnOk result (self.new ≡ record self.old { inputs = from.now.inputs; latches = from.now.latches; constraints = from.now.constraints; gates = from.now.gates }) }
    {
        copy_to(alloc, &from.inputs, &mut self.inputs)?;
        copy_to(alloc, &from.latches, &mut self.latches)?;
        copy_to(alloc, &from.constraints, &mut self.constraints)?;
        copy_to(alloc, &from.gates, &mut self.gates)
    }

    /// Takes over what is to be shown: outputs, bad literals, justice properties and fairness.
    fn copy_properties(&mut self, alloc: Global, from: &Parts) -> Result<(), Refused>
        ensures { OnOk result (self.new ≡ record self.old { outputs = from.now.outputs; bad = from.now.bad; justice = from.now.justice; fairness = from.now.fairness }) }
    {
        copy_to(alloc, &from.outputs, &mut self.outputs)?;
        copy_to(alloc, &from.bad, &mut self.bad)?;
        copy_to(alloc, &from.fairness, &mut self.fairness)?;
        self.justice = copy_lists(alloc, from.justice.as_slice())?;
        Ok(())
    }

    /// The same parts in memory of their own.
    pub fn copy(&self, alloc: Global) -> Result<Parts, Refused>
        ensures { IfOk result (λ m. m ≡ self.now) }
    {
        let mut parts = Parts::empty(alloc, self.max_var);
        parts.copy_runs(alloc, self)?;
        parts.copy_properties(alloc, self)?;
        Ok(parts)
    }

    /// Whether the outputs are taken as bad literals: there is no bad literal, constraint, justice
    /// property or fairness literal.
    pub fn are_outputs_bad(&self) -> bool
        ensures { IsTrue result ↔ AreOutputsBad self.now }
    {
        self.bad.is_empty()
            && self.constraints.is_empty()
            && self.justice.is_empty()
            && self.fairness.is_empty()
    }

    /// Whether there is this property.
    pub fn has_property(&self, property: Property) -> bool
        ensures { IsTrue result ↔ HasProperty self.now property }
    {
        match property {
            Property::Bad(n) => (n as usize) < self.bad.len(),
            Property::Justice(n) => (n as usize) < self.justice.len(),
            Property::Output(n) => self.are_outputs_bad() && (n as usize) < self.outputs.len(),
        }
    }

    /// The same circuit and constraints with this one bad literal, and no outputs, justice or
    /// fairness.
    pub(crate) fn only_bad(&self, alloc: Global, bad: Lit) -> Result<Parts, Refused>
        ensures { IfOk result (λ m. m ≡ only_bad_of self.now bad) }
    {
        let mut parts = Parts::empty(alloc, self.max_var);
        parts.copy_runs(alloc, self)?;
        parts.bad.push(bad)?;
        Ok(parts)
    }
}

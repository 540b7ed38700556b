//! Well-formed circuits.

ghost use Rattle.std.specs.Prelude.{◌≡◌, ◌≢◌, ◌+◌, ◌⊎◌, ◌↔◌, List, Bool, length, slice_get, IsTrue, IfOk, IfErr};
ghost use Rattle.base.specs.Witness.{witness};
ghost use Rattle.graph.specs.Faults.{HasCause};
ghost use Rattle.graph.specs.Circuits.{HasProperty, IsWatched, Agrees, state_of, inputs_of, IsOrdered};
ghost use Rattle.graph.specs.WellFormed.{IsAlone, IsWellFormed, IsOrder, only_bad};
ghost use Rattle.graph.specs.declared.circuit.Property.{Property};
ghost use Rattle.graph.specs.declared.circuit.Property.TheVariants.{Bad, Output};

use crate::check::check;
use crate::circuit::{Gate, Latch, Lit};
use crate::error::ReadError;
use crate::parts::Parts;
use crate::{fill, numbering};
use base::{Refused, Seq, copied};
use std::alloc::Global;

/// A circuit whose parts are well formed, with an order in which its gates can be evaluated.
/// Contracts see its `Parts`.
#[derive(Drop)]
pub struct Model {
    parts: Parts,
    // each gate's position once, each after the gates that define its right sides
    order: Vec<u32>,
}

impl std::marker::Model for Model {
    ghost use Rattle.graph.specs.declared.parts.Parts.{Parts};
    ghost use Rattle.graph.specs.WellFormed.{IsModel};

    ghost Value = { Parts };

    ghost view = { λ m. m.parts };

    ghost invariant = { λ m. IsModel m.parts m.order.items };
}

/// The literal at a position, if there is one.
fn nth(lits: &[Lit], n: u32) -> Option<Lit>
    ensures { result ≡ slice_get lits.now n }
{
    lits.get(n as usize).copied()
}

impl Model {
    /// The circuit of these parts, in memory of its own. It takes time and memory by the parts'
    /// length.
    pub fn build(alloc: Global, parts: &Parts) -> Result<Model, ReadError>
        ensures built { IfOk result (λ m. (m ≡ parts.now) × IsWellFormed parts.now) }
        ensures refused { IfErr result (HasCause parts.now) }
        ensures exact { IfErr result (λ e. e ≢ ReadError.OutOfMemory witness → IsWellFormed parts.now → ⊥) }
    {
        let order = check(alloc, parts)?;
        let parts = parts.copy(alloc)?;
        Ok(Model { parts, order })
    }

    /// The circuit of these parts, which are taken over as they are.
    pub fn from_parts(alloc: Global, parts: Parts) -> Result<Model, ReadError>
        ensures built { IfOk result (λ m. (m ≡ parts) × IsWellFormed parts) }
        ensures refused { IfErr result (HasCause parts) }
        ensures exact { IfErr result (λ e. e ≢ ReadError.OutOfMemory witness → IsWellFormed parts → ⊥) }
    {
        let order = check(alloc, &parts)?;
        Ok(Model { parts, order })
    }

    /// The parts, which are well formed.
    pub fn parts(&self) -> &Parts
        ensures parts { result.now ≡ self.now }
        ensures well_formed { IsWellFormed self.now }
    {
        &self.parts
    }

    /// That the circuit is well formed, for the proof of what calls it. It does nothing.
    pub fn well_formed(&self)
        ensures { IsWellFormed self.now }
    {
        let _ = &self.parts;
    }

    /// The greatest variable.
    pub fn max_var(&self) -> u32
        ensures { result ≡ self.now.max_var }
    {
        self.parts.max_var
    }

    /// The inputs.
    pub fn inputs(&self) -> &[Lit]
        ensures { result.now ≡ self.now.inputs }
    {
        self.parts.inputs.as_slice()
    }

    /// The latches.
    pub fn latches(&self) -> &[Latch]
        ensures { result.now ≡ self.now.latches }
    {
        self.parts.latches.as_slice()
    }

    /// The outputs.
    pub fn outputs(&self) -> &[Lit]
        ensures { result.now ≡ self.now.outputs }
    {
        self.parts.outputs.as_slice()
    }

    /// The bad literals.
    pub fn bad(&self) -> &[Lit]
        ensures { result.now ≡ self.now.bad }
    {
        self.parts.bad.as_slice()
    }

    /// The invariant constraints.
    pub fn constraints(&self) -> &[Lit]
        ensures { result.now ≡ self.now.constraints }
    {
        self.parts.constraints.as_slice()
    }

    /// The literals of each justice property.
    pub fn justice(&self) -> &[Seq<Lit>]
        ensures { result.now ≡ self.now.justice }
    {
        self.parts.justice.as_slice()
    }

    /// The fairness literals.
    pub fn fairness(&self) -> &[Lit]
        ensures { result.now ≡ self.now.fairness }
    {
        self.parts.fairness.as_slice()
    }

    /// The gates, in the order of the file.
    pub fn gates(&self) -> &[Gate]
        ensures { result.now ≡ self.now.gates }
    {
        self.parts.gates.as_slice()
    }

    /// The gates' positions, each once, each after the gates that define its right sides.
    pub fn order(&self) -> &[u32]
        ensures { IsOrder self.now.gates result.now }
    {
        self.order.as_slice()
    }

    /// Whether the circuit has the numbering of the binary layout: inputs, latches and gates have
    /// the literals 2, 4, 6 and so on, and each gate's literals descend.
    pub fn is_ordered(&self) -> bool
        ensures { IsTrue result ↔ IsOrdered self.now }
    {
        numbering::is_ordered(&self.parts)
    }

    /// The same circuit and constraints with this one bad literal, which a property watches, and no
    /// outputs, justice or fairness.
    fn with_bad(&self, alloc: Global, bad: Lit) -> Result<Model, Refused>
        requires { (p : Property) × IsWatched self.now p bad }
        ensures { IfOk result (λ m. m ≡ only_bad self.now bad) }
    {
        let parts = self.parts.only_bad(alloc, bad)?;
        let order = copied(alloc, &self.order)?;
        Ok(Model { parts, order })
    }

    /// The same circuit and constraints with the one bad literal at position `n`, and no outputs,
    /// justice or fairness.
    pub fn for_bad(&self, alloc: Global, n: u32) -> Result<Model, ReadError>
        ensures found { IfOk result (IsAlone self.now (Bad n)) }
        ensures refused { IfErr result (λ e. (e ≡ ReadError.OutOfMemory witness) ⊎ ((e ≡ ReadError.NoProperty n) × (HasProperty self.now (Bad n) → ⊥))) }
    {
        let Some(bad) = nth(self.parts.bad.as_slice(), n) else {
            return Err(ReadError::NoProperty(n));
        };
        Ok(self.with_bad(alloc, bad)?)
    }

    /// The same circuit with the output at position `n` as its one bad literal, and no outputs. The
    /// circuit has to have no bad literal, constraint, justice property or fairness literal.
    pub fn for_output(&self, alloc: Global, n: u32) -> Result<Model, ReadError>
        ensures found { IfOk result (IsAlone self.now (Output n)) }
        ensures refused { IfErr result (λ e. (e ≡ ReadError.OutOfMemory witness) ⊎ ((e ≡ ReadError.NoProperty n) × (HasProperty self.now (Output n) → ⊥))) }
    {
        if !self.parts.are_outputs_bad() {
            return Err(ReadError::NoProperty(n));
        }
        let Some(output) = nth(self.parts.outputs.as_slice(), n) else {
            return Err(ReadError::NoProperty(n));
        };
        Ok(self.with_bad(alloc, output)?)
    }

    /// Fills in the one valuation that agrees with the gates and has this state and these inputs.
    /// It touches each gate once and takes no memory.
    pub fn eval(&self, state: &[bool], inputs: &[bool], out: &mut [bool])
        requires state { length state.now ≡ length self.now.latches }
        requires inputs { length inputs.now ≡ length self.now.inputs }
        requires places { length out.old ≡ self.now.max_var + 1 }
        ensures agrees { Agrees self.now out.new }
        ensures state { state_of self.now out.new ≡ state.now }
        ensures inputs { inputs_of self.now out.new ≡ inputs.now }
        ensures only { (w : List Bool) → Agrees self.now w → state_of self.now w ≡ state.now → inputs_of self.now w ≡ inputs.now → w ≡ out.new }
    {
        fill::evaluate(&self.parts, self.order.as_slice(), state, inputs, out);
    }
}

//! Gates in place of latches whose resets are functions.

ghost use Rattle.std.specs.Prelude.{◌≡◌, ◌+◌, ◌<◌, ◌≤◌, ◌⊎◌, ◌++◌, ◌∷◌, [], IfErr, IfOk, OnOk, Some, drop, length};
ghost use Rattle.base.specs.Witness.{witness};
ghost use Rattle.graph.specs.Faults.{HasCause};
ghost use Rattle.live_safe.specs.Shadow.{negation as negation_of};
ghost use Rattle.reset_functions.specs.Begun.{RunsAs};
ghost use Rattle.reset_functions.specs.Made.{all_gates_for, behind, end_of, gates_for, head, latch_for, latches_for, with_gates};

use base::{Refused, Seq, copied, extend, push};
use graph::{Gate, Latch, Lit, Model, Parts, ReadError};
use live_safe::{cleared, joins, negative, positive};
use std::alloc::Global;

/// The greatest variable that a circuit may have.
const MAX_VAR: u32 = 4_194_303;

/// The latches and gates of a circuit, made latch by latch.
#[derive(Drop)]
struct Making {
    latches: Vec<Latch>,
    gates: Vec<Gate>,
    /// the next new variable
    next: u32,
}

/// The literal's negation.
fn flipped(lit: Lit) -> Lit
    ensures { result ≡ negation_of lit }
{
    if lit.is_negated() {
        Lit(lit.0 - 1)
    } else {
        Lit(lit.0 + 1)
    }
}

/// The reset of the latch at the position, where it is a function.
fn reset_at(resets: &[Option<Lit>], position: usize) -> Option<Lit>
    ensures { result ≡ head (drop position resets.now) }
{
    match resets.get(position) {
        Some(reset) => *reset,
        None => None,
    }
}

/// Adds the gates of a latch that begins with the value of the literal, from the variable on.
fn push_gates(
    gates: &mut Vec<Gate>,
    first: u32,
    latch: Latch,
    reset: Lit,
    v: u32,
) -> Result<(), Refused>
    requires fits { (first ≤ 4194304) × (v ≤ 4194304) }
    ensures { OnOk result (gates.new.items ≡ gates.old.items ++ gates_for first latch (Some reset) v) }
{
    extend(
        gates,
        &[
            joins(v + 1, positive(first), flipped(reset)),
            joins(v + 2, negative(first), negative(v)),
            Gate {
                lhs: latch.lit,
                rhs0: negative(v + 1),
                rhs1: negative(v + 2),
            },
        ],
    )
}

impl Making {
    /// Adds the latch that has the value of a latch whose reset is a function at all times but the first, and the gates that
    /// have it at all times.
    fn replace(&mut self, first: u32, latch: Latch, reset: Lit) -> Result<(), ReadError>
        requires { first ≤ 4194304 }
        ensures latches { OnOk result (self.new.latches.items ≡ self.old.latches.items ++ latch_for latch (Some reset) self.old.next ∷ []) }
        ensures gates { OnOk result (self.new.gates.items ≡ self.old.gates.items ++ gates_for first latch (Some reset) self.old.next) }
        ensures next { OnOk result ((self.new.next ≡ self.old.next + 3) × (self.new.next ≤ 4194304)) }
        ensures refused { IfErr result (λ e. (e ≡ ReadError.OutOfMemory witness) ⊎ ((e ≡ ReadError.Limit 0) × (4194304 < self.old.next + 3))) }
    {
        let v = self.next;
        if v > MAX_VAR - 2 {
            return Err(ReadError::Limit(0));
        }
        push(&mut self.latches, cleared(v, latch.next))?;
        push_gates(&mut self.gates, first, latch, reset, v)?;
        self.next = v + 3;
        Ok(())
    }

    /// Adds what stands for a latch.
    fn add(&mut self, first: u32, latch: Latch, reset: Option<Lit>) -> Result<(), ReadError>
        requires { first ≤ 4194304 }
        ensures latches { OnOk result (self.new.latches.items ≡ self.old.latches.items ++ latch_for latch reset self.old.next ∷ []) }
        ensures gates { OnOk result (self.new.gates.items ≡ self.old.gates.items ++ gates_for first latch reset self.old.next) }
        ensures next { OnOk result (self.new.next ≡ behind reset self.old.next) }
        ensures refused { IfErr result (λ e. (e ≡ ReadError.OutOfMemory witness) ⊎ ((e ≡ ReadError.Limit 0) × (4194304 < behind reset self.old.next))) }
    {
        match reset {
            Some(lit) => self.replace(first, latch, lit),
            None => Ok(push(&mut self.latches, latch)?),
        }
    }

    /// What stands for all latches, behind these gates.
    fn of(
        alloc: Global,
        first: u32,
        latches: &[Latch],
        gates: &[Gate],
        resets: &[Option<Lit>],
    ) -> Result<Making, ReadError>
        requires { first ≤ 4194304 }
        ensures latches { IfOk result (λ x. x.latches.items ≡ latches_for latches.now resets.now (first + 1)) }
        ensures gates { IfOk result (λ x. x.gates.items ≡ gates.now ++ all_gates_for first latches.now resets.now (first + 1)) }
        ensures next { IfOk result (λ x. x.next ≡ end_of latches.now resets.now (first + 1)) }
        ensures refused { IfErr result (λ e. (e ≡ ReadError.OutOfMemory witness) ⊎ ((e ≡ ReadError.Limit 0) × (4194304 < end_of latches.now resets.now (first + 1)))) }
    {
        let mut making = Making {
            latches: Vec::new(alloc),
            gates: copied(alloc, gates)?,
            next: first + 1,
        };
        for k in 0..latches.len() {
            let reset = reset_at(resets, k);
            making.add(first, latches[k], reset)?;
        }
        Ok(making)
    }
}

/// The parts of a circuit with other latches, gates and greatest variable.
fn parts_of(
    alloc: Global,
    parts: &Parts,
    max_var: u32,
    latches: Vec<Latch>,
    gates: Vec<Gate>,
) -> Result<Parts, Refused>
    ensures { IfOk result (λ m. m ≡ record parts.now { max_var = max_var; latches = latches.items; gates = gates.items }) }
{
    let mut made = parts.copy(alloc)?;
    made.max_var = max_var;
    made.latches = Seq::from_vec(latches);
    made.gates = Seq::from_vec(gates);
    Ok(made)
}

/// The parts with gates in place of the latches whose resets are functions.
#[tactic(auto, using(crate::proofs::Loops::end_more))]
fn with_gates_of(alloc: Global, model: &Model, resets: &[Option<Lit>]) -> Result<Parts, ReadError>
    ensures made { IfOk result (λ m. m ≡ with_gates model.now resets.now) }
    ensures refused { IfErr result (HasCause (with_gates model.now resets.now)) }
{
    model.well_formed();
    let first = model.max_var() + 1;
    let Making {
        mut latches,
        gates,
        next,
    } = Making::of(alloc, first, model.latches(), model.gates(), resets)?;
    let is_first = Latch {
        lit: positive(first),
        next: Lit(0),
        reset: Lit(1),
    };
    push(&mut latches, is_first)?;
    let parts = parts_of(alloc, model.parts(), next - 1, latches, gates)?;
    Ok(parts)
}

/// The circuit whose latches begin with the literals at their positions, where there are some, and else with their resets,
/// without such latches. The variable of each is a gate's: the first time it has the value of its literal, and later on that
/// of a latch that stands at its position. One latch more, the last one, says that the time is the first.
///
/// It is refused where a literal's variable is not defined, where the literals depend on one another, and where it would
/// have more than 4,194,303 variables: one, and three for each such latch, are new.
#[tactic(auto, using(crate::proofs::Runs::runs_of))]
pub fn resets_as_gates(
    alloc: Global,
    model: &Model,
    resets: &[Option<Lit>],
) -> Result<Model, ReadError>
    ensures made { IfOk result (λ m. m ≡ with_gates model.now resets.now) }
    ensures runs { IfOk result (RunsAs model.now resets.now) }
    ensures refused { IfErr result (HasCause (with_gates model.now resets.now)) }
{
    let parts = with_gates_of(alloc, model, resets)?;
    Model::from_parts(alloc, parts)
}

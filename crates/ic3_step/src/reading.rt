//! What is read off a solver's answer.

ghost use Rattle.std.specs.Prelude.{◌≡◌, ◌<◌, ◌≤◌, length, IfOk};
ghost use Rattle.graph.specs.Circuits.{variable};
ghost use Rattle.ic3_step.specs.Readings.{value_at, time_at, is_negation as is_negation_of, circuit_lit as circuit_lit_of, lit_for as lit_for_of, core_lits as core_lits_of};

use crate::assignment::Assignment;
use base::{Refused, Seq};
use graph::{Lit, Model};
use std::alloc::Global;

/// The value of a literal's variable.
fn value(values: &[bool], lit: Lit) -> bool
    requires { variable lit < length values.now }
    ensures { result ≡ value_at values.now lit }
{
    values[lit.variable() as usize]
}

/// The values of the latches.
fn state_in(alloc: Global, circuit: &Model, values: &[bool]) -> Result<Seq<bool>, Refused>
    requires { circuit.now.max_var < length values.now }
    ensures { IfOk result (λ s. s ≡ (time_at circuit.now values.now).state) }
{
    circuit.well_formed();
    let mut state = Seq::new(alloc);
    for latch in circuit.latches() {
        state.push(value(values, latch.lit))?;
    }
    Ok(state)
}

/// The values of the inputs.
fn inputs_in(alloc: Global, circuit: &Model, values: &[bool]) -> Result<Seq<bool>, Refused>
    requires { circuit.now.max_var < length values.now }
    ensures { IfOk result (λ s. s ≡ (time_at circuit.now values.now).inputs) }
{
    circuit.well_formed();
    let mut inputs = Seq::new(alloc);
    for lit in circuit.inputs() {
        inputs.push(value(values, *lit))?;
    }
    Ok(inputs)
}

/// The time that the values are.
pub(crate) fn time_in(
    alloc: Global,
    circuit: &Model,
    values: Vec<bool>,
) -> Result<Assignment, Refused>
    requires { circuit.now.max_var < length values.items }
    ensures { IfOk result (λ t. t ≡ time_at circuit.now values.items) }
{
    let values = Seq::from_vec(values);
    let state = state_in(alloc, circuit, values.as_slice())?;
    let inputs = inputs_in(alloc, circuit, values.as_slice())?;
    Ok(Assignment {
        state,
        inputs,
        values,
    })
}

/// Whether a literal of clauses is its variable's negation.
fn is_negation(literal: i32) -> bool
    ensures { result ≡ is_negation_of literal }
{
    literal < 0
}

/// The circuit's literal for a variable of clauses or its negation. A guard's variable has none.
fn circuit_lit(max_var: u32, is_negated: bool, variable: u32) -> Option<Lit>
    requires { max_var ≤ 4194303 }
    ensures { result ≡ circuit_lit_of max_var is_negated variable }
{
    if variable > max_var + 1 {
        None
    } else if variable == max_var + 1 {
        Some(if is_negated { Lit(0) } else { Lit(1) })
    } else {
        Some(if is_negated {
            Lit(2 * variable + 1)
        } else {
            Lit(2 * variable)
        })
    }
}

/// The circuit's literal for a literal of clauses. A guard's has none.
fn lit_for(max_var: u32, literal: i32) -> Option<Lit>
    requires { max_var ≤ 4194303 }
    ensures { result ≡ lit_for_of max_var literal }
{
    circuit_lit(max_var, is_negation(literal), literal.unsigned_abs())
}

/// The circuit's literals of a core. Those of guards are left out.
pub(crate) fn core_lits(alloc: Global, circuit: &Model, core: &[i32]) -> Result<Seq<Lit>, Refused>
    ensures { IfOk result (λ lits. lits ≡ core_lits_of circuit.now.max_var core.now) }
{
    circuit.well_formed();
    let mut lits = Seq::new(alloc);
    for literal in core {
        if let Some(lit) = lit_for(circuit.max_var(), *literal) {
            lits.push(lit)?;
        }
    }
    Ok(lits)
}

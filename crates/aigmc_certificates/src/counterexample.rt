//! What satisfies a case of clauses that are no invariant, in words.

use aigmc_files::ExitError;
use base::Seq;
use certify::{Case, Counterexample};
use graph::{Model, Property};
use live_safe::to_safety;
use std::fmt;

/// Values as a line of a stimulus has them.
#[derive(Clone, Copy)]
struct Bits<'a>(&'a [bool]);

impl fmt::Display for Bits<'_> {
    fn fmt<W: fmt::Write>(&self, f: &mut fmt::Formatter<W>) -> fmt::Result {
        for bit in self.0 {
            f.write_str(if *bit { "1" } else { "0" })?;
        }
        Ok(())
    }
}

/// The values that satisfy a case.
#[derive(Drop)]
pub struct Values {
    /// those of the latches
    pub state: Seq<bool>,
    /// those of the inputs
    pub inputs: Seq<bool>,
    /// those of the latches after a step
    pub next: Seq<bool>,
}

/// Says in which state it is so.
pub fn tell_state(rt: &HostRuntime, values: &Values) {
    let _ = eprint!(rt; " in the state {}", Bits(values.state.as_slice()));
}

/// Says after which step it is so.
pub fn tell_step(rt: &HostRuntime, values: &Values) {
    let (state, next) = (Bits(values.state.as_slice()), Bits(values.next.as_slice()));
    let _ = eprint!(rt; " after the step from {state} to {next}");
}

/// Says by which inputs, where there are some.
pub fn tell_inputs(rt: &HostRuntime, inputs: &[bool]) {
    if !inputs.is_empty() {
        let _ = eprint!(rt; " with the inputs {}", Bits(inputs));
    }
    let _ = eprintln!(rt);
}

/// Says by which inputs before and after a step, where there are some.
pub fn tell_both_inputs(rt: &HostRuntime, inputs: &[bool], later: &[bool]) {
    if !inputs.is_empty() {
        let (inputs, later) = (Bits(inputs), Bits(later));
        let _ = eprint!(rt; " with the inputs {inputs} and then {later}");
    }
    let _ = eprintln!(rt);
}

/// Says which case the values satisfy.
pub fn tell_case(rt: &HostRuntime, case: Case, values: &Values) {
    let _ = eprintln!(rt;
        "aigmc: the clauses are no inductive invariant that excludes the property's literal"
    );
    let _ = match case {
        Case::Initial(clause) => eprint!(rt; "  initial: clause {clause} is false"),
        Case::Step(clause) => eprint!(rt; "  step: clause {clause} is false"),
        Case::Bad => eprint!(rt; "  bad: the property's literal is 1"),
    };
    match case {
        Case::Step(_) => tell_step(rt, values),
        Case::Initial(_) | Case::Bad => tell_state(rt, values),
    }
    tell_inputs(rt, values.inputs.as_slice());
}

/// Says which case the values satisfy, and by which state of the clauses' circuit.
fn tell_values(rt: &HostRuntime, circuit: &Model, found: &Counterexample) -> Result<(), ExitError> {
    let inputs = match found.case {
        // the clauses are over latches alone
        Case::Initial(_) => Seq::new(rt.alloc()),
        Case::Step(_) | Case::Bad => found.inputs(rt.alloc(), circuit)?,
    };
    // all memory is taken before the first word
    let values = Values {
        state: found.state(rt.alloc(), circuit)?,
        inputs,
        next: found.next_state(rt.alloc(), circuit)?,
    };
    tell_case(rt, found.case, &values);
    Ok(())
}

/// Says which case the values satisfy. For a justice property they are of the shadow circuit.
pub fn tell_counterexample(
    rt: &HostRuntime,
    circuit: &Model,
    property: Property,
    found: &Counterexample,
) -> Result<(), ExitError> {
    match property {
        Property::Justice(position) => {
            let shadow = to_safety(rt.alloc(), circuit, position)?;
            tell_values(rt, &shadow, found)
        }
        Property::Bad(_) | Property::Output(_) => tell_values(rt, circuit, found),
    }
}

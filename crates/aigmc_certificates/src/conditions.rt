//! The conditions of a witness circuit, asked one after the other.

ghost use Rattle.std.specs.Prelude.{◌≡◌, IfOk, map};
ghost use Rattle.graph.specs.Circuits.{value_of};

use crate::counterexample::{Values, tell_both_inputs, tell_inputs, tell_state, tell_step};
use crate::third::{NO_INVARIANT, UNKNOWN};
use aigmc_files::ExitError;
use base::{Budget, Refused, Seq, filled};
use certify::{Certified, certify};
use graph::{Lit, Model, Property};
use shrink::{ShrinkError, shrink};
use std::alloc::Global;
use witness_conditions::{Condition, Pair, Question};

/// The conditions, in the order in which they are asked.
const CONDITIONS: [Condition; 5] = [
    Condition::Reset,
    Condition::Transition,
    Condition::Property,
    Condition::Base,
    Condition::Step,
];

/// No literals.
const NONE: &[Lit] = &[];

/// What came of a condition.
#[derive(Drop)]
enum Answer {
    /// It holds.
    Holds,
    /// It fails by these values.
    Fails(Broken),
    /// The budget is exhausted.
    Unknown,
}

/// Values by which a condition fails.
#[derive(Drop)]
struct Broken {
    /// which of the facts that are wanted is none
    fact: usize,
    /// the values of the model's latches and inputs, and those of the witness alone
    values: Values,
    /// those of the inputs after the step
    later: Seq<bool>,
}

/// The value of a literal. A variable beyond the values is false.
fn value(values: &[bool], lit: Lit) -> bool
    ensures { result ≡ value_of values.now lit }
{
    let at = match values.get(lit.variable() as usize) {
        Some(at) => *at,
        None => false,
    };
    if lit.is_negated() { !at } else { at }
}

/// The values of the literals.
fn values_at(alloc: Global, values: &[bool], lits: &[Lit]) -> Result<Seq<bool>, Refused>
    ensures { IfOk result (λ found. found ≡ map (value_of values.now) lits.now) }
{
    let mut found = Seq::new(alloc);
    for lit in lits {
        found.push(value(values, *lit))?;
    }
    Ok(found)
}

/// Puts the value of a literal's variable.
fn put(values: &mut [bool], lit: Lit, value: bool) {
    if let Some(place) = values.get_mut(lit.variable() as usize) {
        *place = value;
    }
}

/// Puts the values of the inputs.
fn put_inputs(values: &mut [bool], circuit: &Model, inputs: &[bool]) {
    for (position, lit) in circuit.inputs().iter().enumerate() {
        if let Some(input) = inputs.get(position) {
            put(values, *lit, *input);
        }
    }
}

/// Puts the values of the gates.
fn put_gates(values: &mut [bool], circuit: &Model) {
    for position in circuit.order() {
        if let Some(gate) = circuit.gates().get(*position as usize) {
            let is_set = value(values, gate.rhs0) && value(values, gate.rhs1);
            put(values, gate.lhs, is_set);
        }
    }
}

/// The values of a circuit's variables, by those of its inputs. It has no latches.
fn evaluated(alloc: Global, circuit: &Model, inputs: &[bool]) -> Result<Vec<bool>, Refused> {
    circuit.well_formed();
    let mut values = filled(alloc, false, circuit.max_var() as usize + 1)?;
    put_inputs(values.as_mut_slice(), circuit, inputs);
    put_gates(values.as_mut_slice(), circuit);
    Ok(values)
}

/// The position of the first literal that is false.
fn first_false(values: &[bool], lits: &[Lit]) -> usize {
    match lits.iter().position(|lit| !value(values, *lit)) {
        Some(position) => position,
        None => lits.len(),
    }
}

/// How a question's condition fails by these values.
fn broken_of(alloc: Global, question: &Question, values: &[bool]) -> Result<Broken, Refused> {
    let times = &question.times;
    let (next, later) = match &times.then {
        Some(then) => (then.state.as_slice(), then.inputs.as_slice()),
        None => (NONE, NONE),
    };
    Ok(Broken {
        fact: first_false(values, question.facts.wanted.as_slice()),
        values: Values {
            state: values_at(alloc, values, times.first.state.as_slice())?,
            inputs: values_at(alloc, values, times.first.inputs.as_slice())?,
            next: values_at(alloc, values, next)?,
        },
        later: values_at(alloc, values, later)?,
    })
}

/// The circuit, with equal gates made one.
fn smaller(alloc: Global, circuit: &Model) -> Result<Model, Refused> {
    match shrink(alloc, circuit) {
        Ok(smaller) => Ok(smaller),
        Err(ShrinkError::OutOfMemory(refused)) => Err(refused),
    }
}

/// What comes of a condition: without clauses and latches, the only case is that the bad literal is set.
fn answer_of(alloc: Global, question: &Question, budget: &mut Budget) -> Result<Answer, ExitError> {
    let circuit = smaller(alloc, &question.circuit)?;
    match certify(alloc, &circuit, Property::Bad(0), &[], budget)? {
        Certified::Certificate(_) => Ok(Answer::Holds),
        Certified::Spent => Ok(Answer::Unknown),
        Certified::NotInvariant(found) => {
            let inputs = found.inputs(alloc, &circuit)?;
            let values = evaluated(alloc, &question.circuit, inputs.as_slice())?;
            Ok(Answer::Fails(broken_of(alloc, question, values.as_slice())?))
        }
    }
}

/// Asks whether a condition holds.
fn ask(
    alloc: Global,
    pair: Pair<'_>,
    condition: Condition,
    budget: &mut Budget,
) -> Result<Answer, ExitError> {
    let question = pair.question(alloc, condition)?;
    answer_of(alloc, &question, budget)
}

/// Says which fact about one of the witness's latches or constraints is none.
fn tell_part(rt: &HostRuntime, condition: &str, wanted: &str, latches: usize, fact: usize) {
    let _ = if fact < latches {
        eprint!(rt; "  {condition}: the witness's latch {fact} has not its {wanted}")
    } else {
        let constraint = fact.saturating_sub(latches);
        eprint!(rt; "  {condition}: the witness's constraint {constraint} is false")
    };
}

/// Says which condition fails of a witness with so many latches.
fn tell_condition(rt: &HostRuntime, condition: Condition, latches: usize, fact: usize) {
    match condition {
        Condition::Reset => tell_part(rt, "reset", "reset", latches, fact),
        Condition::Transition => tell_part(rt, "transition", "next value", latches, fact),
        Condition::Property => {
            let _ = eprint!(rt; "  property: the property's literal is 1");
        }
        Condition::Base => {
            let _ = eprint!(rt; "  base: the witness's property is false");
        }
        Condition::Step => {
            let _ = eprint!(rt; "  step: the witness's property is false");
        }
    }
}

/// Says in which state it is so, or after which step, and by which inputs.
fn tell_values(rt: &HostRuntime, condition: Condition, broken: &Broken) {
    let (values, later) = (&broken.values, broken.later.as_slice());
    match condition {
        Condition::Transition | Condition::Step => {
            tell_step(rt, values);
            tell_both_inputs(rt, values.inputs.as_slice(), later);
        }
        Condition::Reset | Condition::Property | Condition::Base => {
            tell_state(rt, values);
            tell_inputs(rt, values.inputs.as_slice());
        }
    }
}

/// The status of a condition of a witness with so many latches, where it does not hold. Standard error says why.
fn status_of(
    rt: &HostRuntime,
    condition: Condition,
    latches: usize,
    answer: &Answer,
) -> Option<u8> {
    match answer {
        Answer::Holds => None,
        Answer::Fails(broken) => {
            let _ = eprintln!(rt; "aigmc: the circuit is no witness of the property");
            tell_condition(rt, condition, latches, broken.fact);
            tell_values(rt, condition, broken);
            Some(NO_INVARIANT)
        }
        Answer::Unknown => {
            let _ = eprintln!(rt; "aigmc: the budget is exhausted");
            Some(UNKNOWN)
        }
    }
}

/// The status of the first condition that does not hold, where there is one. Standard error says why.
pub fn first_failing(
    rt: &HostRuntime,
    pair: Pair<'_>,
    budget: &mut Budget,
) -> Result<Option<u8>, ExitError> {
    for condition in CONDITIONS.iter() {
        let answer = ask(rt.alloc(), pair, *condition, budget)?;
        let status = status_of(rt, *condition, pair.latches(), &answer);
        if status.is_some() {
            return Ok(status);
        }
    }
    Ok(None)
}

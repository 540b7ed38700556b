//! From a justice property and a number of rounds to a bad literal.

ghost use Rattle.std.specs.Prelude.{◌≡◌, ℕ, ◌+◌, ◌*◌, ◌^◌, ◌<◌, ◌≤◌, ◌++◌, ◌↔◌, length, All, IfOk, IfErr, IsTrue, OnOk};
ghost use Rattle.graph.specs.Circuits.{wanted_of};
ghost use Rattle.graph.specs.WellFormed.{IsWellFormed};
ghost use Rattle.live_safe.specs.Shadow.{chain_gates, chain_end};
ghost use Rattle.extension.specs.Rounds.{always, missing_gates, met_literals, open_gates, seen_latches, stage_gates, stage_latches, rounds_of};
ghost use Rattle.extension.specs.Rows.{AreSpaced, HasCause, IsCountable};

use crate::rows::{Rows, count_out};
use base::{Refused, Seq, copied, push};
use graph::{Gate, Latch, Lit, MOST_VARIABLES, Model, Parts, ReadError};
use live_safe::{
    LiveError, cleared, joins, negation, negative, positive, push_chain, wanted_count,
    wanted_literals,
};
use std::alloc::Global;

/// The greatest variable that a circuit may have.
const MAX_VAR: usize = MOST_VARIABLES as usize;

/// Adds the latches that say which wanted literals have been set; the gates of their next literals
/// begin at the variable.
fn push_seen(
    latches: &mut Vec<Latch>,
    wanted: &[Lit],
    seen: u32,
    variable: u32,
) -> Result<(), Refused>
    requires fits { (seen + length wanted.now < 2 ^ 31) × (variable + length wanted.now < 2 ^ 31) }
    ensures { OnOk result (latches.new.items ≡ latches.old.items ++ seen_latches wanted.now seen variable) }
{
    for (i, _lit) in wanted.iter().enumerate() {
        let next = positive(variable + i as u32);
        push(latches, cleared(seen + i as u32, next))?;
    }
    Ok(())
}

/// Adds this number of latches that count, whose gates begin at the variable.
fn push_counts(
    latches: &mut Vec<Latch>,
    stages: u32,
    count: u32,
    variable: u32,
) -> Result<(), Refused>
    requires fits { (count + stages < 2 ^ 31) × (variable + 2 * stages + 2 < 2 ^ 31) }
    ensures { OnOk result (latches.new.items ≡ latches.old.items ++ stage_latches stages count variable) }
{
    for i in 0..stages {
        let next = negative(variable + 2 * i + 1);
        push(latches, cleared(count + i, next))?;
    }
    Ok(())
}

/// Adds the gates that say which wanted literals are missing.
fn push_missing(
    gates: &mut Vec<Gate>,
    wanted: &[Lit],
    seen: u32,
    variable: u32,
) -> Result<(), Refused>
    requires fits { (seen + length wanted.now < 2 ^ 31) × (variable + length wanted.now < 2 ^ 31) }
    requires literals { All (λ a. a.0 + 1 < 2 ^ 32) wanted.now }
    ensures { OnOk result (gates.new.items ≡ gates.old.items ++ missing_gates wanted.now seen variable) }
{
    for (i, lit) in wanted.iter().enumerate() {
        let gate = joins(
            variable + i as u32,
            negative(seen + i as u32),
            negation(*lit),
        );
        push(gates, gate)?;
    }
    Ok(())
}

/// The literals that say which wanted literals are met.
fn met(alloc: Global, wanted: &[Lit], missing: u32) -> Result<Vec<Lit>, Refused>
    requires fits { missing + length wanted.now < 2 ^ 31 }
    ensures { IfOk result (λ v. v.items ≡ met_literals wanted.now missing) }
{
    let mut lits = Vec::new(alloc);
    for (i, _lit) in wanted.iter().enumerate() {
        push(&mut lits, negative(missing + i as u32))?;
    }
    Ok(lits)
}

/// Adds the gates that say which wanted literals are met where the round does not end.
fn push_opened(
    gates: &mut Vec<Gate>,
    ends: Lit,
    wanted: &[Lit],
    missing: u32,
    variable: u32,
) -> Result<(), Refused>
    requires fits { (missing + length wanted.now < 2 ^ 31) × (variable + length wanted.now < 2 ^ 31) }
    requires ends { ends.0 + 1 < 2 ^ 32 }
    ensures { OnOk result (gates.new.items ≡ gates.old.items ++ open_gates ends wanted.now missing variable) }
{
    for (i, _lit) in wanted.iter().enumerate() {
        let gate = joins(
            variable + i as u32,
            negative(missing + i as u32),
            negation(ends),
        );
        push(gates, gate)?;
    }
    Ok(())
}

/// Adds the two gates of each latch that counts: the one before is set and a round ends; neither
/// that nor this one.
fn push_stages(
    gates: &mut Vec<Gate>,
    ends: Lit,
    stages: u32,
    count: u32,
    variable: u32,
) -> Result<(), Refused>
    requires fits { (count + stages < 2 ^ 31) × (variable + 2 * stages + 2 < 2 ^ 31) }
    ensures { OnOk result (gates.new.items ≡ gates.old.items ++ stage_gates ends stages always count variable) }
{
    let mut before = Lit(1);
    for i in 0..stages {
        let first = variable + 2 * i;
        push(gates, joins(first, before, ends))?;
        let neither = joins(first + 1, negative(count + i), negative(first));
        push(gates, neither)?;
        before = positive(count + i);
    }
    Ok(())
}

/// The old latches, then the new ones.
fn all_latches(
    alloc: Global,
    latches: &[Latch],
    wanted: &[Lit],
    rounds: u32,
    n: Rows,
) -> Result<Vec<Latch>, Refused>
    requires { AreSpaced (length wanted.now) rounds n }
    ensures { IfOk result (λ v. v.items ≡ latches.now ++ (seen_latches wanted.now n.seen n.opened ++ stage_latches (rounds + 1) n.count n.stage)) }
{
    let mut all = copied(alloc, latches)?;
    push_seen(&mut all, wanted, n.seen, n.opened)?;
    push_counts(&mut all, rounds + 1, n.count, n.stage)?;
    Ok(all)
}

/// The gates that say which wanted literals are missing, and those that join what is met, whose end
/// says that the round ends.
fn push_joined(
    alloc: Global,
    gates: &mut Vec<Gate>,
    wanted: &[Lit],
    rounds: u32,
    n: Rows,
) -> Result<Lit, Refused>
    requires spaced { AreSpaced (length wanted.now) rounds n }
    requires literals { All (λ a. a.0 + 1 < 2 ^ 32) wanted.now }
    ensures gates { OnOk result (gates.new.items ≡ gates.old.items ++ (missing_gates wanted.now n.seen n.missing ++ chain_gates (met_literals wanted.now n.missing) always n.join)) }
    ensures ends { IfOk result (λ a. a ≡ chain_end (met_literals wanted.now n.missing) always n.join) }
    ensures small { IfOk result (λ a. a.0 + 1 < 2 ^ 32) }
{
    push_missing(gates, wanted, n.seen, n.missing)?;
    let mets = met(alloc, wanted, n.missing)?;
    let ends = push_chain(gates, &mets, Lit(1), n.join)?;
    Ok(ends)
}

/// The old gates, then the new ones.
fn all_gates(
    alloc: Global,
    gates: &[Gate],
    wanted: &[Lit],
    rounds: u32,
    n: Rows,
) -> Result<Vec<Gate>, Refused>
    requires spaced { AreSpaced (length wanted.now) rounds n }
    requires literals { All (λ a. a.0 + 1 < 2 ^ 32) wanted.now }
    ensures { IfOk result (λ v. v.items ≡ gates.now ++ (missing_gates wanted.now n.seen n.missing
        ++ (chain_gates (met_literals wanted.now n.missing) always n.join
        ++ (open_gates (chain_end (met_literals wanted.now n.missing) always n.join) wanted.now n.missing n.opened
        ++ stage_gates (chain_end (met_literals wanted.now n.missing) always n.join) (rounds + 1) always n.count n.stage)))) }
{
    let mut all = copied(alloc, gates)?;
    let ends = push_joined(alloc, &mut all, wanted, rounds, n)?;
    push_opened(&mut all, ends, wanted, n.missing, n.opened)?;
    push_stages(&mut all, ends, rounds + 1, n.count, n.stage)?;
    Ok(all)
}

/// The parts of the circuit that counts rounds of the property that wants these literals.
fn rounds_parts(alloc: Global, parts: &Parts, wanted: &[Lit], rounds: u32) -> Result<Parts, Refused>
    requires limit { parts.now.max_var + 4 * length wanted.now + 3 * (rounds + 1) ≤ 4194303 }
    requires literals { All (λ a. a.0 + 1 < 2 ^ 32) wanted.now }
    ensures { (j : ℕ) → wanted.now ≡ wanted_of parts.now j → IfOk result (λ p. p ≡ rounds_of parts.now j rounds) }
{
    let n = count_out(parts, wanted, rounds);
    let latches = all_latches(alloc, parts.latches.as_slice(), wanted, rounds, n)?;
    let gates = all_gates(alloc, parts.gates.as_slice(), wanted, rounds, n)?;
    let ended = negative(n.stage + 2 * rounds + 1);
    Ok(Parts {
        max_var: parts.max_var + 4 * wanted.len() as u32 + 3 * (rounds + 1),
        inputs: parts.inputs.copy(alloc)?,
        latches: Seq::from_vec(latches),
        outputs: Seq::new(alloc),
        bad: Seq::from_slice(alloc, &[ended])?,
        constraints: parts.constraints.copy(alloc)?,
        justice: Seq::new(alloc),
        fairness: Seq::new(alloc),
        gates: Seq::from_vec(gates),
    })
}

/// Whether the property is there, and the circuit that counts its rounds within the limit. It takes
/// no memory.
fn check(parts: &Parts, position: u32, rounds: u32) -> Result<(), LiveError>
    requires { IsWellFormed parts.now }
    ensures countable { OnOk result (IsCountable parts.now position rounds) }
    ensures refused { IfErr result (HasCause parts.now position rounds) }
{
    if position as usize >= parts.justice.len() {
        return Err(LiveError::NoProperty(position));
    }
    let wanted = wanted_count(parts, position);
    if parts.max_var as usize + 4 * wanted + 3 * (rounds as usize + 1) > MAX_VAR {
        return Err(LiveError::Limit);
    }
    Ok(())
}

/// The circuit of parts that are well formed.
fn model_of(alloc: Global, parts: Parts) -> Result<Model, Refused>
    requires { IsWellFormed parts }
    ensures { IfOk result (λ m. m ≡ parts) }
{
    match Model::from_parts(alloc, parts) {
        Ok(model) => Ok(model),
        Err(ReadError::OutOfMemory(refused)) => Err(refused),
        // Well-formed parts have no other cause.
        Err(_) => unreachable!(),
    }
}

/// The circuit that counts rounds, of a property that is there, within the limit.
fn rounds_model(alloc: Global, parts: &Parts, position: u32, rounds: u32) -> Result<Model, Refused>
    requires well_formed { IsWellFormed parts.now }
    requires countable { IsCountable parts.now position rounds }
    ensures { IfOk result (λ s. s ≡ rounds_of parts.now position rounds) }
{
    let wanted = wanted_literals(alloc, parts, position)?;
    let counting = rounds_parts(alloc, parts, &wanted, rounds)?;
    model_of(alloc, counting)
}

/// The circuit whose one bad literal is set exactly where a run that keeps the constraints holds
/// more rounds of the justice property than this number.
///
/// It has the old inputs, latches, gates and constraints, then a latch for each wanted literal and a
/// counter in unary, and their gates. A property that isn't there is refused, then more than 4194303
/// variables, both before memory is asked for.
pub fn count_rounds(
    alloc: Global,
    circuit: &Model,
    position: u32,
    rounds: u32,
) -> Result<Model, LiveError>
    ensures counter { IfOk result (λ s. s ≡ rounds_of circuit.now position rounds) }
    ensures countable { IfOk result (λ _. IsCountable circuit.now position rounds) }
    ensures refused { IfErr result (HasCause circuit.now position rounds) }
{
    let parts = circuit.parts();
    check(parts, position, rounds)?;
    let counter = rounds_model(alloc, parts, position, rounds)?;
    Ok(counter)
}

/// Whether the number is at most two to the power of the number of latches.
pub fn are_few_rounds(rounds: u32, latches: usize) -> bool
    ensures { IsTrue result ↔ rounds ≤ 2 ^ latches }
{
    latches >= 32 || u64::from(rounds) <= 1u64 << latches
}

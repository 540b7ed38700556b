//! A circuit at two times.

ghost use Rattle.std.specs.Prelude.{◌≡◌, ◌≤◌, ◌*◌, ◌+◌, ◌++◌, [], if◌then◌else◌, length, map, slice_index_or, IfOk, IfSome, OnOk};
ghost use Rattle.graph.specs.Circuits.{variable};
ghost use Rattle.cnf.specs.Tables.{IsTableOf};
ghost use Rattle.signal_classes.specs.Paired.{AreLater, IsPairOf, IsTwice, at_next, gate_next, later_in};

use crate::signal::{Signal, lits_of, negated_as, push_latches};
use base::{Refused, Seq, copied, extend, filled, push};
use cnf::NextTable;
use cones::GateTable;
use graph::{Gate, Lit, MOST_VARIABLES, Model, Parts, ReadError};
use std::alloc::Global;

/// A circuit at any time, and at the next one.
#[derive(Drop)]
pub struct Pair {
    /// the gates of both times. Its inputs are the latches, the inputs and the inputs of the next time
    pub circuit: Model,
    /// the circuit's gates, by their variables
    pub table: GateTable,
    /// the constraints of the first time
    pub first: Vec<Lit>,
    /// the constraints of both times
    pub both: Vec<Lit>,
    /// for each variable of one time its literal at the next time: a latch's is its next literal
    pub later: Vec<Lit>,
    /// for each variable of both times how many it is behind: what it is made of is before it
    pub ranks: Vec<u32>,
}

/// The literal of a variable at the next time: a latch's is its next literal, and each other variable is another one then.
fn later_lit(nexts: &NextTable, most: u32, variable: u32) -> Lit
    requires few { most ≤ 4194303 }
    requires there { variable ≤ most }
    ensures { result ≡ later_in nexts.now most variable }
{
    if nexts.is_latch(variable) {
        nexts.next_of(Lit(2 * variable))
    } else {
        Lit(2 * (variable + most))
    }
}

/// For each variable its literal at the next time, by a table of the latches.
fn lits_by(alloc: Global, nexts: &NextTable, circuit: &Model) -> Result<Vec<Lit>, Refused>
    requires table { IsTableOf circuit.now.latches nexts.now }
    ensures { IfOk result (λ ls. AreLater circuit.now ls.items) }
{
    circuit.well_formed();
    let most = circuit.max_var();
    let mut later = Vec::new(alloc);
    push(&mut later, Lit(0))?;
    for variable in 1..most + 1 {
        push(&mut later, later_lit(nexts, most, variable))?;
    }
    Ok(later)
}

/// For each variable its literal at the next time.
fn later_lits(alloc: Global, circuit: &Model) -> Result<Vec<Lit>, Refused>
    ensures { IfOk result (λ ls. AreLater circuit.now ls.items) }
{
    let nexts = NextTable::new(alloc, circuit)?;
    lits_by(alloc, &nexts, circuit)
}

/// The literal at the next time, by those of the variables.
fn at_next_time(later: &[Lit], lit: Lit) -> Lit
    ensures { result ≡ at_next later.now lit }
{
    let positive = match later.get(lit.variable() as usize) {
        Some(positive) => *positive,
        None => Lit(0),
    };
    negated_as(positive, lit)
}

/// The gate at the next time.
fn gate_at_next_time(later: &[Lit], gate: Gate) -> Gate
    ensures { result ≡ gate_next later.now gate }
{
    Gate {
        lhs: at_next_time(later, gate.lhs),
        rhs0: at_next_time(later, gate.rhs0),
        rhs1: at_next_time(later, gate.rhs1),
    }
}

/// Adds each of the literals at the next time.
fn push_next(to: &mut Vec<Lit>, later: &[Lit], lits: &[Lit]) -> Result<(), Refused>
    ensures { OnOk result (to.new.items ≡ to.old.items ++ map (at_next later.now) lits.now) }
{
    for lit in lits {
        push(to, at_next_time(later, *lit))?;
    }
    Ok(())
}

/// The latches, the inputs and those of the next time.
fn inputs_twice(alloc: Global, later: &[Lit], circuit: &Model) -> Result<Seq<Lit>, Refused>
    ensures { IfOk result (λ ls. ls ≡ map (λ l. l.lit) circuit.now.latches ++ circuit.now.inputs ++ map (at_next later.now) circuit.now.inputs) }
{
    let mut inputs = Vec::new(alloc);
    push_latches(&mut inputs, circuit.latches())?;
    extend(&mut inputs, circuit.inputs())?;
    push_next(&mut inputs, later, circuit.inputs())?;
    Ok(Seq::from_vec(inputs))
}

/// The gates, and behind them each at the next time.
fn gates_twice(alloc: Global, later: &[Lit], gates: &[Gate]) -> Result<Seq<Gate>, Refused>
    ensures { IfOk result (λ gs. gs ≡ gates.now ++ map (gate_next later.now) gates.now) }
{
    let mut twice = Seq::from_slice(alloc, gates)?;
    for gate in gates {
        twice.push(gate_at_next_time(later, *gate))?;
    }
    Ok(twice)
}

/// The parts of the circuit at both times, without its constraints.
fn parts_twice(alloc: Global, later: &[Lit], circuit: &Model) -> Result<Parts, Refused>
    ensures { IfOk result (IsTwice circuit.now later.now) }
{
    circuit.well_formed();
    Ok(Parts {
        max_var: 2 * circuit.max_var(),
        inputs: inputs_twice(alloc, later, circuit)?,
        latches: Seq::new(alloc),
        outputs: Seq::new(alloc),
        bad: Seq::new(alloc),
        constraints: Seq::new(alloc),
        justice: Seq::new(alloc),
        fairness: Seq::new(alloc),
        gates: gates_twice(alloc, later, circuit.gates())?,
    })
}

/// The literals, and behind them each at the next time.
fn lits_twice(alloc: Global, later: &[Lit], lits: &[Lit]) -> Result<Vec<Lit>, Refused>
    ensures { IfOk result (λ ls. ls.items ≡ lits.now ++ map (at_next later.now) lits.now) }
{
    let mut twice = copied(alloc, lits)?;
    push_next(&mut twice, later, lits)?;
    Ok(twice)
}

/// Puts the place of each literal at its variable.
fn put_ranks(ranks: &mut [u32], lits: &[Lit])
    ensures { length ranks.new ≡ length ranks.old }
{
    for (place, lit) in lits.iter().enumerate() {
        if let Some(rank) = ranks.get_mut(lit.variable() as usize) {
            *rank = u32::try_from(place).unwrap_or(u32::MAX);
        }
    }
}

/// How many variables each is behind, of both times: those of the first time come first. The next literals of latches have
/// their places among these.
fn ranks_of(alloc: Global, later: &[Lit], circuit: &Model) -> Result<Vec<u32>, Refused>
    ensures { IfOk result (λ ranks. length ranks.items ≡ 2 * circuit.now.max_var + 1) }
{
    circuit.well_formed();
    let lits = lits_of(alloc, circuit)?;
    let twice = lits_twice(alloc, later, lits.as_slice())?;
    let mut ranks = filled(alloc, 0, 2 * circuit.max_var() as usize + 1)?;
    put_ranks(ranks.as_mut_slice(), twice.as_slice());
    put_ranks(ranks.as_mut_slice(), lits.as_slice());
    Ok(ranks)
}

/// What stands beside the circuit of a pair.
#[derive(Drop)]
struct Beside {
    first: Vec<Lit>,
    both: Vec<Lit>,
    ranks: Vec<u32>,
}

/// The constraints and the ranks of a pair.
fn beside_of(alloc: Global, later: &[Lit], circuit: &Model) -> Result<Beside, Refused>
    ensures first { IfOk result (λ b. b.first.items ≡ circuit.now.constraints) }
    ensures both { IfOk result (λ b. b.both.items ≡ circuit.now.constraints ++ map (at_next later.now) circuit.now.constraints) }
{
    let first = copied(alloc, circuit.constraints())?;
    let both = lits_twice(alloc, later, circuit.constraints())?;
    let ranks = ranks_of(alloc, later, circuit)?;
    Ok(Beside { first, both, ranks })
}

/// The circuit at both times. None where it is refused.
fn circuit_twice(alloc: Global, later: &[Lit], circuit: &Model) -> Result<Option<Model>, Refused>
    ensures { IfOk result (λ r. IfSome r (IsTwice circuit.now later.now)) }
{
    let parts = parts_twice(alloc, later, circuit)?;
    match Model::from_parts(alloc, parts) {
        Ok(twice) => Ok(Some(twice)),
        Err(ReadError::OutOfMemory(refused)) => Err(refused),
        Err(_) => Ok(None),
    }
}

/// The pair of these parts.
fn joined(later: Vec<Lit>, beside: Beside, circuit: Model, table: GateTable) -> Pair
    ensures circuit { result.circuit ≡ circuit }
    ensures table { result.table ≡ table }
    ensures first { result.first.items ≡ beside.first.items }
    ensures both { result.both.items ≡ beside.both.items }
    ensures later { result.later.items ≡ later.items }
{
    let Beside { first, both, ranks } = beside;
    Pair {
        circuit,
        table,
        first,
        both,
        later,
        ranks,
    }
}

impl Pair {
    /// The circuit at two times. None where that has too many variables. That it is never None else is not proved, since
    /// whatever is found by a pair is judged by the circuit itself.
    pub fn of(alloc: Global, circuit: &Model) -> Result<Option<Pair>, Refused>
        ensures { IfOk result (λ r. IfSome r (IsPairOf circuit.now)) }
    {
        if circuit.max_var() > MOST_VARIABLES / 2 {
            return Ok(None);
        }
        let later = later_lits(alloc, circuit)?;
        let beside = beside_of(alloc, later.as_slice(), circuit)?;
        let Some(twice) = circuit_twice(alloc, later.as_slice(), circuit)? else {
            return Ok(None);
        };
        let table = GateTable::new(alloc, &twice)?;
        Ok(Some(joined(later, beside, twice, table)))
    }

    /// The signal of a literal.
    pub fn signal(&self, lit: Lit) -> Signal
        ensures now { result.now ≡ lit }
        ensures later { result.later ≡ at_next self.now.later.items lit }
    {
        Signal {
            now: lit,
            later: at_next_time(self.later.as_slice(), lit),
        }
    }

    /// The constraints of the first time, or of both.
    pub fn constraints(&self, is_later: bool) -> &[Lit]
        ensures { result.now ≡ (if is_later then self.now.both.items else self.now.first.items) }
    {
        if is_later {
            self.both.as_slice()
        } else {
            self.first.as_slice()
        }
    }

    /// How many variables the literal's is behind, or 0 of a variable that the pair does not have.
    pub fn rank(&self, lit: Lit) -> u32
        ensures { result ≡ slice_index_or self.now.ranks.items (variable lit) 0 }
    {
        match self.ranks.get(lit.variable() as usize) {
            Some(rank) => *rank,
            None => 0,
        }
    }
}

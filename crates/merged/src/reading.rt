//! A circuit's lists with each literal read as the table says.

ghost use Rattle.std.specs.Prelude.{◌≡◌, IfOk, map};
ghost use Rattle.merged.specs.Reading.{entry as entry_of, read_as, IsRoomy};
ghost use Rattle.merged.specs.Merged.{merged_gate, merged_latch, merged_parts};

use crate::equal::negated_as;
use base::{Refused, Seq};
use graph::{Gate, Latch, Lit, Model, Parts};
use std::alloc::Global;

/// What the table has for a variable.
fn entry(table: &[Option<Lit>], variable: u32) -> Option<Lit>
    ensures { result ≡ entry_of table.now variable }
{
    match table.get(variable as usize) {
        Some(entry) => *entry,
        None => None,
    }
}

/// The literal as which a literal is read.
fn read(table: &[Option<Lit>], lit: Lit) -> Lit
    requires { IsRoomy table.now }
    ensures { result ≡ read_as table.now lit }
{
    match entry(table, lit.variable()) {
        Some(same) => negated_as(same, lit),
        None => lit,
    }
}

/// The literals, read so.
fn read_all(alloc: Global, table: &[Option<Lit>], lits: &[Lit]) -> Result<Seq<Lit>, Refused>
    requires { IsRoomy table.now }
    ensures { IfOk result (λ s. s ≡ map (read_as table.now) lits.now) }
{
    let mut all = Seq::new(alloc);
    for lit in lits {
        all.push(read(table, *lit))?;
    }
    Ok(all)
}

/// A latch whose next literal is read so.
fn read_latch(table: &[Option<Lit>], latch: Latch) -> Latch
    requires { IsRoomy table.now }
    ensures { result ≡ merged_latch table.now latch }
{
    Latch {
        lit: latch.lit,
        next: read(table, latch.next),
        reset: latch.reset,
    }
}

/// The latches, with their next literals read so.
fn read_latches(
    alloc: Global,
    table: &[Option<Lit>],
    latches: &[Latch],
) -> Result<Seq<Latch>, Refused>
    requires { IsRoomy table.now }
    ensures { IfOk result (λ s. s ≡ map (merged_latch table.now) latches.now) }
{
    let mut all = Seq::new(alloc);
    for latch in latches {
        all.push(read_latch(table, *latch))?;
    }
    Ok(all)
}

/// A gate whose right sides are read so.
fn read_gate(table: &[Option<Lit>], gate: Gate) -> Gate
    requires { IsRoomy table.now }
    ensures { result ≡ merged_gate table.now gate }
{
    Gate {
        lhs: gate.lhs,
        rhs0: read(table, gate.rhs0),
        rhs1: read(table, gate.rhs1),
    }
}

/// The gates, with their right sides read so.
fn read_gates(alloc: Global, table: &[Option<Lit>], gates: &[Gate]) -> Result<Seq<Gate>, Refused>
    requires { IsRoomy table.now }
    ensures { IfOk result (λ s. s ≡ map (merged_gate table.now) gates.now) }
{
    let mut all = Seq::new(alloc);
    for gate in gates {
        all.push(read_gate(table, *gate))?;
    }
    Ok(all)
}

/// The circuit with all that it reads read so, and nothing but bad literals to show.
pub(crate) fn read_parts(
    alloc: Global,
    circuit: &Model,
    table: &[Option<Lit>],
) -> Result<Parts, Refused>
    requires { IsRoomy table.now }
    ensures { IfOk result (λ s. s ≡ merged_parts circuit.now table.now) }
{
    Ok(Parts {
        max_var: circuit.max_var(),
        inputs: Seq::from_slice(alloc, circuit.inputs())?,
        latches: read_latches(alloc, table, circuit.latches())?,
        outputs: Seq::new(alloc),
        bad: read_all(alloc, table, circuit.bad())?,
        constraints: read_all(alloc, table, circuit.constraints())?,
        justice: Seq::new(alloc),
        fairness: Seq::new(alloc),
        gates: read_gates(alloc, table, circuit.gates())?,
    })
}

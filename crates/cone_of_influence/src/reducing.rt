//! The circuit of the variables on which its bad literal and the constraints rest.

ghost use Rattle.std.specs.Prelude.{◌≡◌, ◌≤◌, ℕ, IfOk, IfSome, None, map};
ghost use Rattle.graph.specs.Circuits.{variable as variable_of};
ghost use Rattle.graph.specs.WellFormed.{IsWellFormed};
ghost use Rattle.cnf.specs.Formulas.{bad_literal};
ghost use Rattle.cones.specs.Marks.{IsMarked};
ghost use Rattle.engine.specs.Findings.{IsForBad};
ghost use Rattle.sequential_cones.specs.Cones.{IsConeOf};
ghost use Rattle.cone_of_influence.specs.Numbers.{IsSmall};
ghost use Rattle.cone_of_influence.specs.Reduced.{IsReduced, IsWhole, input_filler, latch_filler, reduced_parts as parts_of};
ghost use Rattle.cone_of_influence.specs.Laws.{AreLaws};

use crate::lists::{input_fillers, latch_fillers, reduced_parts};
use crate::numbering::{Numbering, number};
use crate::tables::Tables;
use base::{Refused, Seq};
use graph::{Lit, Model, Parts, ReadError};
use sequential_cones::cone_of;
use std::alloc::Global;

/// A circuit, reduced, and the tables by which a finding of it is carried back.
#[derive(Drop)]
pub struct Reduced {
    /// the circuit of the variables that are kept
    pub circuit: Model,
    /// by what a finding of it is carried back
    pub tables: Tables,
}

/// The circuit's one bad literal.
fn bad(circuit: &Model) -> Lit
    requires { IsForBad circuit.now }
    ensures bad { result ≡ bad_literal circuit.now 0 }
    ensures range { variable_of result ≤ circuit.now.max_var }
{
    circuit.well_formed();
    circuit.bad()[0]
}

/// The circuit of parts that are well formed.
fn model_of(alloc: Global, parts: Parts) -> Result<Model, Refused>
    requires { IsWellFormed parts }
    ensures { IfOk result (λ m. m ≡ parts) }
{
    match Model::from_parts(alloc, parts) {
        Ok(model) => Ok(model),
        Err(ReadError::OutOfMemory(refused)) => Err(refused),
        // Well-formed parts have no other cause.
        Err(_) => unreachable!(),
    }
}

/// The circuit with the marked variables, which have these numbers up to the greatest one.
fn part_of(
    alloc: Global,
    circuit: &Model,
    marks: &[bool],
    numbers: &[u32],
    greatest: u32,
) -> Result<Model, Refused>
    requires small { IsSmall numbers.now }
    requires well_formed { IsWellFormed (parts_of circuit.now marks.now numbers.now greatest) }
    ensures { IfOk result (λ s. s ≡ parts_of circuit.now marks.now numbers.now greatest) }
{
    let parts = reduced_parts(alloc, circuit, marks, numbers, greatest)?;
    let part = model_of(alloc, parts)?;
    Ok(part)
}

/// The tables of the marked variables, which are these.
fn tables_of(
    alloc: Global,
    circuit: &Model,
    marks: &[bool],
    kept: Seq<u32>,
) -> Result<Tables, Refused>
    ensures { IfOk result (λ t. t ≡ record { kept = kept; latches = map (latch_filler marks.now) circuit.now.latches; inputs = map (input_filler marks.now) circuit.now.inputs }) }
{
    Ok(Tables {
        kept,
        latches: latch_fillers(alloc, marks, circuit.latches())?,
        inputs: input_fillers(alloc, marks, circuit.inputs())?,
    })
}

/// The circuit with the marked variables, and its tables; none where all are marked.
#[tactic(auto, using(crate::proofs::Formed::some_marked, crate::proofs::Formed::formed_by, crate::proofs::Formed::all_marked_below, crate::proofs::Formed::reduced_by))]
fn reduced_to(alloc: Global, circuit: &Model, marks: &[bool]) -> Result<Option<Reduced>, Refused>
    requires for_bad { IsForBad circuit.now }
    requires cone { IsConeOf circuit.now (bad_literal circuit.now 0) marks.now }
    ensures reduced { IfOk result (λ r. IfSome r (λ p. IsReduced circuit.now p.circuit p.tables)) }
    ensures none { IfOk result (λ r. r ≡ None → (v : ℕ) → v ≤ circuit.now.max_var → IsMarked marks.now v) }
{
    circuit.well_formed();
    let count = circuit.max_var() as usize + 1;
    let numbering = number(alloc, marks, count)?;
    let Numbering { kept, numbers } = numbering;
    if kept.len() == count {
        return Ok(None);
    }
    let greatest = kept.len() as u32 - 1;
    let tables = tables_of(alloc, circuit, marks, kept)?;
    let part = part_of(alloc, circuit, marks, numbers.as_slice(), greatest)?;
    Ok(Some(Reduced {
        circuit: part,
        tables,
    }))
}

/// What the reduced circuit says of the circuit. It does nothing.
fn laws(circuit: &Model, part: &Reduced)
    requires for_bad { IsForBad circuit.now }
    requires reduced { IsReduced circuit.now part.now.circuit part.now.tables }
    ensures { AreLaws circuit.now part.now.circuit part.now.tables }
{
    circuit.well_formed();
    circuit.order();
    part.circuit.well_formed();
    part.circuit.order();
}

/// The circuit of the variables on which the bad literal and the constraints rest at any time, and the tables by which a
/// finding of it is carried back. None where they rest on all variables. It costs the circuit.
#[tactic(auto, using(crate::proofs::Formed::whole_by))]
pub fn reduce(alloc: Global, circuit: &Model) -> Result<Option<Reduced>, Refused>
    requires { IsForBad circuit.now }
    ensures reduced { IfOk result (λ r. IfSome r (λ p. IsReduced circuit.now p.circuit p.tables)) }
    ensures laws { IfOk result (λ r. IfSome r (λ p. AreLaws circuit.now p.circuit p.tables)) }
    ensures none { IfOk result (λ r. r ≡ None → IsWhole circuit.now) }
{
    let marks = cone_of(alloc, circuit, bad(circuit))?;
    match reduced_to(alloc, circuit, marks.as_slice())? {
        Some(part) => {
            laws(circuit, &part);
            Ok(Some(part))
        }
        None => Ok(None),
    }
}

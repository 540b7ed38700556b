//! Clauses that may matter to a property: those over the latches on which it rests.

ghost use Rattle.std.specs.Prelude.{◌≡◌, [], IfOk, Some, None, filter};
ghost use Rattle.graph.specs.declared.circuit.Lit.{Lit};
ghost use Rattle.sequential_cones.specs.Cones.{is_over as is_over_of};
ghost use Rattle.transforms.specs.Cones.{AreOverCone, literal_of};

use base::{Refused, Seq};
use graph::{Lit, Model, Property};
use sequential_cones::{cone_of, is_over};
use std::alloc::Global;

/// The literal at the property's position among those of its kind.
fn literal(circuit: &Model, property: Property) -> Option<Lit>
    ensures { result ≡ literal_of circuit.now property }
{
    match property {
        Property::Bad(n) => circuit.bad().get(n as usize).copied(),
        Property::Output(n) => circuit.outputs().get(n as usize).copied(),
        Property::Justice(_) => None,
    }
}

/// The clauses whose literals are all marked, in their order.
fn marked(alloc: Global, marks: &[bool], clauses: &[Seq<Lit>]) -> Result<Seq<Seq<Lit>>, Refused>
    ensures { IfOk result (λ kept. kept ≡ filter (is_over_of marks.now) clauses.now) }
{
    let mut kept = Seq::new(alloc);
    'choosing: for clause in clauses {
        if is_over(marks, clause.as_slice()) {
            kept.push(clause.copy(alloc)?)?;
        }
    }
    Ok(kept)
}

/// The clauses over latches on which the property, or a constraint, rests at some time. The others are
/// left out, so that certificates of properties that have nothing to do with each other stay small. It costs
/// the circuit and the clauses.
#[tactic(auto, using(crate::proofs::Over::literal_in_range))]
pub fn relevant_clauses(
    alloc: Global,
    circuit: &Model,
    property: Property,
    clauses: &[Seq<Lit>],
) -> Result<Seq<Seq<Lit>>, Refused>
    ensures over { IfOk result (λ kept. (a : Lit) → literal_of circuit.now property ≡ Some a → AreOverCone circuit.now a clauses.now kept) }
    ensures none { IfOk result (λ kept. literal_of circuit.now property ≡ None → kept ≡ []) }
{
    circuit.well_formed();
    let Some(watched) = literal(circuit, property) else {
        return Ok(Seq::new(alloc));
    };
    let marks = cone_of(alloc, circuit, watched)?;
    marked(alloc, &marks, clauses)
}

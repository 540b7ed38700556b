//! What is found of a reduced circuit, as a finding of the circuit.

ghost use Rattle.std.specs.Prelude.{◌≡◌, ◌<◌, IfOk, false, map, slice_index_or};
ghost use Rattle.cone_of_influence.specs.Numbers.{IsSmall, renamed};
ghost use Rattle.cone_of_influence.specs.Reduced.{filled, place_after as place_after_filler, value_for as value_of_filler};
ghost use Rattle.cone_of_influence.specs.Answered.{carried};

use crate::lists::rename_all;
use crate::tables::Tables;
use base::{Refused, Seq};
use engine::Finding;
use graph::Lit;
use std::alloc::Global;

/// The value at a place, and false behind the last one.
fn value_at(values: &[bool], place: usize) -> bool
    ensures { result ≡ slice_index_or values.now place false }
{
    match values.get(place) {
        Some(value) => *value,
        None => false,
    }
}

/// The value that is given, or else the one at the place.
fn value_for(filler: Option<bool>, values: &[bool], place: usize) -> bool
    ensures { result ≡ value_of_filler filler values.now place }
{
    match filler {
        Some(value) => value,
        None => value_at(values, place),
    }
}

/// The place of the next value, which is the same where one is given.
fn place_after(filler: Option<bool>, place: usize) -> usize
    requires { place < 18446744073709551615 }
    ensures { result ≡ place_after_filler filler place }
{
    match filler {
        Some(_) => place,
        None => place + 1,
    }
}

/// The values in their order, with those that are given at the other places.
#[tactic(auto, using(crate::proofs::Filling::fill_more))]
fn fill(alloc: Global, fillers: &[Option<bool>], values: &[bool]) -> Result<Seq<bool>, Refused>
    ensures { IfOk result (λ all. all ≡ filled fillers.now values.now) }
{
    let mut all = Seq::new(alloc);
    let mut next = 0;
    for filler in fillers {
        all.push(value_for(*filler, values, next))?;
        next = place_after(*filler, next);
    }
    Ok(all)
}

/// Each line, so.
fn fill_lines(
    alloc: Global,
    fillers: &[Option<bool>],
    lines: &[Seq<bool>],
) -> Result<Seq<Seq<bool>>, Refused>
    ensures { IfOk result (λ all. all ≡ map (filled fillers.now) lines.now) }
{
    let mut all = Seq::new(alloc);
    for line in lines {
        all.push(fill(alloc, fillers, line.as_slice())?)?;
    }
    Ok(all)
}

/// The clauses, renamed.
fn rename_clauses(
    alloc: Global,
    table: &[u32],
    clauses: &[Seq<Lit>],
) -> Result<Seq<Seq<Lit>>, Refused>
    requires { IsSmall table.now }
    ensures { IfOk result (λ all. all ≡ map (map (renamed table.now)) clauses.now) }
{
    let mut all = Seq::new(alloc);
    for clause in clauses {
        all.push(rename_all(alloc, table, clause.as_slice())?)?;
    }
    Ok(all)
}

impl Tables {
    /// What is found of the reduced circuit, as a finding of the circuit.
    pub(crate) fn carry(&self, alloc: Global, finding: Finding) -> Result<Finding, Refused>
        requires { IsSmall self.now.kept }
        ensures { IfOk result (λ f. f ≡ carried self.now finding) }
    {
        match finding {
            Finding::Invariant(invariant) => {
                let clauses = invariant.as_slice();
                let renamed = rename_clauses(alloc, self.kept.as_slice(), clauses)?;
                Ok(Finding::Invariant(renamed))
            }
            Finding::Run { initial, inputs } => Ok(Finding::Run {
                initial: fill(alloc, self.latches.as_slice(), initial.as_slice())?,
                inputs: fill_lines(alloc, self.inputs.as_slice(), inputs.as_slice())?,
            }),
            Finding::Unknown(reason) => Ok(Finding::Unknown(reason)),
        }
    }
}

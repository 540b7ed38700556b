//! Clauses in an order in which they are shown with less work.

ghost use Rattle.std.specs.Prelude.{◌≡◌, ◌++◌, ◌&&◌, IfOk, OnOk};
ghost use Rattle.graph.specs.Circuits.{Valuation};
ghost use Rattle.witness_circuits.specs.Witnesses.{is_true, are_true};

use crate::places::Places;
use base::{Lists, Refused};
use graph::Lit;
use std::alloc::Global;

/// Adds the lists behind the others.
pub fn append(to: &mut Lists<Lit>, more: &Lists<Lit>) -> Result<(), Refused>
    ensures { OnOk result (to.new ≡ to.old ++ more.now) }
{
    for k in 0..more.len() {
        to.push(more.list(k))?;
    }
    Ok(())
}

/// Whether the clause is one literal that is no latch's.
fn is_late(places: &Places, clause: &[Lit]) -> bool {
    match clause {
        [lit] => !places.is_latch(*lit),
        _ => false,
    }
}

/// Adds a clause to the early ones or, where it is one literal that is no latch's, to the late ones.
fn push_to(
    places: &Places,
    early: &mut Lists<Lit>,
    late: &mut Lists<Lit>,
    clause: &[Lit],
) -> Result<(), Refused>
    ensures { OnOk result ((w : Valuation) → (are_true w early.new && are_true w late.new) ≡ ((are_true w early.old && are_true w late.old) && is_true w clause.now)) }
{
    if is_late(places, clause) {
        late.push(clause)?;
        Ok(())
    } else {
        early.push(clause)?;
        Ok(())
    }
}

/// The same clauses, of which those of one literal that is no latch's come last: they mostly follow from the others.
pub fn arranged(alloc: Global, places: &Places, clauses: &Lists<Lit>) -> Result<Lists<Lit>, Refused>
    ensures { IfOk result (λ all. (w : Valuation) → are_true w all ≡ are_true w clauses.now) }
{
    let mut early = Lists::new(alloc);
    let mut late = Lists::new(alloc);
    for k in 0..clauses.len() {
        push_to(places, &mut early, &mut late, clauses.list(k))?;
    }
    append(&mut early, &late)?;
    Ok(early)
}

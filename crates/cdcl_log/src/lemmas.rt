//! Lines of a log that several refutations share, and the sections behind them.

ghost use Rattle.base.specs.Witness.{witness};
ghost use Rattle.std.specs.Prelude.{◌≡◌, ◌≤◌, ◌+◌, ◌⊎◌, ℕ, All, IfErr, IfOk, length};
ghost use Rattle.std.specs.List.{flat_map};
ghost use Rattle.lrat.specs.Stages.{Stage, GoAlong};
ghost use Rattle.cdcl_log.specs.Closings.{IsClosingOf, hints_of, section_of};
ghost use Rattle.cdcl_log.specs.Refuting.{Refuting};
ghost use Rattle.cdcl_log.specs.Selected.{IsAddition};
ghost use Rattle.solver.specs.declared.sat_error.SatError.TheVariants.{Limit, OutOfMemory};
ghost use Rattle.solver.specs.Full.{full};

use crate::closing::unit_ids;
use crate::numbering::Numbering;
use crate::shown::Closing;
use base::{Refused, Seq, extend};
use lrat::{Clause, Line, Proof};
use solver::{SatError, Taken};
use std::alloc::Global;

/// Lines that follow from a formula, the greatest id that is present behind them, and the ids of
/// which it is one.
#[derive(Drop)]
pub struct Lemmas {
    pub proof: Proof,
    pub top: u32,
    pub taken: Taken,
}

/// The section of a closing with the units that it was shown for, one line behind lemmas whose greatest
/// id is `top`, one of those that are taken. It is refused for `Limit` exactly where the line's id would be over 4,294,967,295.
pub fn section(
    alloc: Global,
    closing: &Closing,
    top: u32,
    taken: Taken,
    units: &[i32],
) -> Result<Proof, SatError>
    requires shown { (r : Refuting) × IsClosingOf r units.now closing.now }
    requires counted { top ≤ taken.ids }
    ensures line { IfOk result (λ p. p ≡ section_of top units.now closing.now) }
    ensures refused { IfErr result (λ e. ((e ≡ Limit full) × (4294967295 ≤ top + length units.now)) ⊎ (e ≡ OutOfMemory witness)) }
{
    let before = u64::from(top) + units.len() as u64;
    if before >= 4_294_967_295 {
        match taken.next_id(units) {
            Err(full) => return Err(SatError::Limit(full)),
            // the greatest id is one of those
            Ok(_) => unreachable!(),
        }
    }
    let numbering = Numbering {
        base: top,
        room: units.len() as u32,
        shared: 0,
    };
    let mut hints = unit_ids(alloc, numbering, closing.denied.as_slice())?;
    extend(&mut hints, closing.hints.as_slice())?;
    let mut proof = Proof::new(alloc);
    proof.push_line(Line::Add {
        id: before as u32 + 1,
        clause: Clause::from_slice(alloc, &[])?,
        hints: Seq::from_vec(hints),
    })?;
    Ok(proof)
}

/// The id of the last line, or else `base`.
pub fn greatest_id(lines: &[Line], base: u32) -> u32
    ensures { (n : ℕ) (s t : Stage) → s.top ≡ base → All IsAddition lines.now → GoAlong n s lines.now t → t.top ≡ result }
{
    match lines.last() {
        Some(Line::Add { id, .. }) => *id,
        Some(Line::Delete { .. }) => base,
        None => base,
    }
}

/// The hints of all closings, one closing after the other.
pub fn all_hints(alloc: Global, closings: &[Closing]) -> Result<Vec<i64>, Refused>
    ensures { IfOk result (λ v. v.items ≡ flat_map hints_of closings.now) }
{
    let mut hints = Vec::new(alloc);
    for closing in closings {
        extend(&mut hints, closing.hints.as_slice())?;
    }
    Ok(hints)
}

//! The lines of a log.

ghost use Rattle.std.specs.Prelude.{◌≡◌, ◌+◌, ◌≤◌, ◌<◌, All, IfOk, IfErr, OnOk, length, map, pos};
ghost use Rattle.lrat.specs.Limits.{IsLine};
ghost use Rattle.lrat.specs.declared.line.Line.TheVariants.{Add};
ghost use Rattle.cdcl_log.specs.Logged.{shifted};
ghost use Rattle.solver.specs.declared.sat_error.SatError.TheVariants.{Limit};
ghost use Rattle.solver.specs.Full.{full};

use crate::numbering::Numbering;
use base::{Refused, Seq, push};
use cdcl_kernel::Kernel;
use lrat::{Clause, Line, Proof};
use solver::SatError;
use std::alloc::Global;

/// The id that the next clause has in the log. It is refused where it would be over 4,294,967,295.
pub fn next_id(kernel: &Kernel, numbering: Numbering) -> Result<u32, SatError>
    requires { numbering.room ≤ 2147483647 }
    ensures value { IfOk result (λ id. id ≡ length kernel.now.kept + numbering.room + 1) }
    ensures few { OnOk result (length kernel.now.kept + numbering.room < 4294967295) }
    ensures small { kernel.now.vars ≤ 2147483647 }
    ensures limit { IfErr result (λ e. (e ≡ Limit full) × (4294967295 ≤ length kernel.now.kept + numbering.room)) }
{
    let _vars = kernel.vars();
    let id = kernel.taken(numbering.room).next_id(&[])?;
    Ok(id)
}

/// The greatest id, or 0.
#[inline]
pub fn last_id(kernel: &Kernel) -> u32
    ensures value { result ≡ length kernel.now.kept }
    ensures few { length kernel.now.kept ≤ 4294967295 }
{
    kernel.clauses() as u32
}

/// The line of a clause that these hints show, which are ids of the kernel.
pub fn added_line(
    alloc: Global,
    id: u32,
    clause: &[i32],
    hints: &[u32],
    numbering: Numbering,
) -> Result<Line, Refused>
    ensures { IfOk result (λ l. l ≡ Add id clause.now (map (λ h. pos (shifted numbering h)) hints.now)) }
{
    Ok(Line::Add {
        id,
        clause: Clause::from_slice(alloc, clause)?,
        hints: shifted_all(alloc, hints, numbering)?,
    })
}

/// The ids in the log of clauses of the kernel.
fn shifted_all(alloc: Global, hints: &[u32], numbering: Numbering) -> Result<Seq<i64>, Refused>
    ensures { IfOk result (λ s. s ≡ map (λ h. pos (shifted numbering h)) hints.now) }
{
    let mut ids = Vec::new(alloc);
    for hint in hints {
        push(&mut ids, numbering.shifted(*hint))?;
    }
    Ok(Seq::from_vec(ids))
}

/// The proof of these lines.
pub fn proof_of(alloc: Global, lines: Vec<Line>) -> Result<Proof, Refused>
    requires { All IsLine lines.items }
    ensures { IfOk result (λ p. p ≡ lines.items) }
{
    let mut proof = Proof::new(alloc);
    for line in lines {
        proof.push_line(line)?;
    }
    Ok(proof)
}

//! Whether there is anything wrong with the clauses.

ghost use Rattle.std.specs.Prelude.{◌≤◌, IfErr, OnOk, length};
ghost use Rattle.std.specs.List.{All};
ghost use Rattle.checker2.specs.Accepted.{IsGood};
ghost use Rattle.certify.specs.Causes.{IsFault};

use crate::certify_error::CertifyError;
use base::Seq;
use checker2::{ClauseError, check_clauses};
use cnf::NextTable;
use graph::{Lit, MOST_VARIABLES, Model};
use std::alloc::Global;

/// The most clauses that a certificate may have.
const MOST_CLAUSES: usize = MOST_VARIABLES as usize;

/// Whether the clauses are no more than a certificate may have, each over the latches and without a
/// literal that is repeated or opposed. A refusal has the first cause. It costs the literals and the
/// variables.
pub fn examine(alloc: Global, circuit: &Model, invariant: &[Seq<Lit>]) -> Result<(), CertifyError>
    ensures few { OnOk result (length invariant.now ≤ 4194303) }
    ensures good { OnOk result (All (IsGood circuit.now) invariant.now) }
    ensures refused { IfErr result (IsFault circuit.now invariant.now) }
{
    if invariant.len() > MOST_CLAUSES {
        return Err(CertifyError::Limit);
    }
    let table = NextTable::new(alloc, circuit)?;
    match check_clauses(alloc, circuit, &table, invariant) {
        Ok(()) => Ok(()),
        Err(ClauseError::NotLatch { clause }) => Err(CertifyError::NotLatch { clause }),
        Err(ClauseError::Repeated { clause }) => Err(CertifyError::Repeated { clause }),
        Err(ClauseError::OutOfMemory(refused)) => Err(CertifyError::OutOfMemory(refused)),
    }
}

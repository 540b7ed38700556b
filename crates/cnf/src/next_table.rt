//! The next literals of a circuit's latches.

ghost use Rattle.std.specs.Prelude.{◌≡◌, IfOk};
ghost use Rattle.cnf.specs.Clauses.{along as along_of};
ghost use Rattle.cnf.specs.Tables.{IsTableOf, is_latch_in, next_in};

use base::{Refused, filled};
use graph::{Lit, Model};
use std::alloc::Global;

/// The latches of a circuit and their next literals, by variable. It is made in one pass over the
/// latches, and asked in constant time.
#[derive(Drop)]
pub struct NextTable {
    /// the next literal of each variable that is a latch's
    entries: Vec<Option<Lit>>,
}

impl std::marker::Model for NextTable {
    ghost use Rattle.std.specs.Prelude.{List, Option};
    ghost use Rattle.graph.specs.declared.circuit.Lit.{Lit};

    ghost Value = { List (Option Lit) };

    ghost view = { λ t. t.entries.items };
}

/// The literal, or its negation.
fn along(negated: bool, lit: Lit) -> Lit
    ensures { result ≡ along_of negated lit }
{
    if !negated {
        lit
    } else if lit.is_negated() {
        Lit(lit.0 - 1)
    } else {
        Lit(lit.0 + 1)
    }
}

impl NextTable {
    /// The table of the circuit's latches.
    pub fn new(alloc: Global, circuit: &Model) -> Result<NextTable, Refused>
        ensures { IfOk result (λ t. IsTableOf circuit.now.latches t) }
    {
        circuit.well_formed();
        let mut entries = filled(alloc, None, circuit.max_var() as usize + 1)?;
        for latch in circuit.latches() {
            entries[latch.lit.variable() as usize] = Some(latch.next);
        }
        Ok(NextTable { entries })
    }

    /// Whether the variable is a latch's.
    pub fn is_latch(&self, variable: u32) -> bool
        ensures { result ≡ is_latch_in self.now variable }
    {
        matches!(self.entries.get(variable as usize), Some(Some(_)))
    }

    /// The literal with its latch replaced by that latch's next literal. A literal of no latch
    /// stays.
    pub fn next_of(&self, lit: Lit) -> Lit
        ensures { result ≡ next_in self.now lit }
    {
        match self.entries.get(lit.variable() as usize) {
            Some(Some(next)) => along(lit.is_negated(), *next),
            _ => lit,
        }
    }
}

//! The part of a circuit that a clause's case is about.

use base::{Refused, push};
use cnf::NextTable;
use graph::{Lit, Model};
use solver::Part;
use std::alloc::Global;
use sweep::Near;

/// Where the gates near a clause are found. Nothing rests on it: a part only says what a solver is to
/// look at first.
#[derive(Drop)]
pub struct Nearby {
    near: Near,
    table: NextTable,
}

impl Nearby {
    /// The gates of the circuit. It costs the circuit.
    pub fn new(alloc: Global, circuit: &Model) -> Result<Nearby, Refused> {
        Ok(Nearby {
            near: Near::new(alloc, circuit)?,
            table: NextTable::new(alloc, circuit)?,
        })
    }

    /// The variables of the literals; after a step of the next literals of their latches.
    fn variables(
        &self,
        alloc: Global,
        clause: &[Lit],
        after_step: bool,
    ) -> Result<Vec<u32>, Refused> {
        let mut variables = Vec::new(alloc);
        for lit in clause {
            let lit = if after_step {
                self.table.next_of(*lit)
            } else {
                *lit
            };
            push(&mut variables, lit.variable())?;
        }
        Ok(variables)
    }

    /// The part of the first time that the clause is made of there, or after a step.
    pub fn part(
        &mut self,
        alloc: Global,
        circuit: &Model,
        clause: &[Lit],
        after_step: bool,
    ) -> Result<Part, Refused> {
        let variables = self.variables(alloc, clause, after_step)?;
        self.near.part(
            alloc,
            variables.as_slice(),
            circuit.constraints(),
            usize::MAX,
        )
    }
}

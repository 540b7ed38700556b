//! Proofs over a part of a circuit, as proofs over the circuit: each clause over the part is one over the circuit.

use crate::cone::Cone;
use crate::proving::Proofs;
use base::{Lists, Refused, Seq, push};
use graph::{Latch, Model};
use lrat::{Clause, Line, LratError, Proof};
use lrat_trim::Derived;
use std::alloc::Global;

/// The ids that the clauses of a formula over the part have over the circuit.
#[derive(Drop)]
struct Ids {
    ids: Vec<u32>,
    /// how many clauses over the circuit were taken
    taken: u32,
}

impl Ids {
    /// None is taken yet.
    fn new(alloc: Global) -> Ids {
        Ids {
            ids: Vec::new(alloc),
            taken: 0,
        }
    }

    /// Takes so many clauses over the circuit, which are not over the part.
    fn pass(&mut self, count: usize) {
        let count = count.min(u32::MAX as usize) as u32;
        self.taken = self.taken.saturating_add(count);
    }

    /// Takes so many clauses, which are over the part too.
    fn take(&mut self, count: usize) -> Result<(), Refused> {
        for _ in 0..count {
            self.pass(1);
            push(&mut self.ids, self.taken)?;
        }
        Ok(())
    }

    /// Takes so many clauses for each of these things of the circuit, of which the part has those at the positions.
    fn take_each(&mut self, things: usize, each: u32, positions: &[u32]) -> Result<(), Refused> {
        let before = self.taken;
        for position in positions {
            self.taken = before.saturating_add(position.saturating_mul(each));
            self.take(each as usize)?;
        }
        self.taken = before;
        self.pass(things.saturating_mul(each as usize));
        Ok(())
    }

    /// Takes the clauses of the latches' resets.
    fn take_resets(&mut self, latches: &[Latch], positions: &[u32]) -> Result<(), Refused> {
        let mut next = 0;
        for (position, latch) in latches.iter().enumerate() {
            let count = usize::from(latch.reset.0 <= 1);
            match positions.get(next) {
                Some(kept) if *kept as usize == position => {
                    next = next.saturating_add(1);
                    self.take(count)?;
                }
                _ => self.pass(count),
            }
        }
        Ok(())
    }

    /// Takes the clauses of a time.
    fn take_time(&mut self, circuit: &Model, cone: &Cone) -> Result<(), Refused> {
        self.take(1)?;
        self.take_each(circuit.gates().len(), 3, &cone.gates)?;
        self.take(circuit.constraints().len())
    }

    /// Those of the formula of a first time.
    fn first(alloc: Global, circuit: &Model, cone: &Cone) -> Result<Ids, Refused> {
        let mut ids = Ids::new(alloc);
        ids.take_resets(circuit.latches(), &cone.latches)?;
        ids.take_time(circuit, cone)?;
        Ok(ids)
    }

    /// Those of the formula of a step.
    fn step(alloc: Global, circuit: &Model, cone: &Cone) -> Result<Ids, Refused> {
        let mut ids = Ids::new(alloc);
        ids.take_time(circuit, cone)?;
        ids.take_each(circuit.latches().len(), 2, &cone.latches)?;
        ids.take_time(circuit, cone)?;
        ids.take(cone.invariant.len())?;
        Ok(ids)
    }

    /// Those of the formula of the literal.
    fn last(alloc: Global, circuit: &Model, cone: &Cone) -> Result<Ids, Refused> {
        let mut ids = Ids::new(alloc);
        ids.take_time(circuit, cone)?;
        ids.take(cone.invariant.len())?;
        ids.take(1)?;
        Ok(ids)
    }
}

/// How the numbers of a proof over the part become those over the circuit.
#[derive(Clone, Copy)]
struct Translation<'a> {
    ids: &'a Ids,
    /// for each variable of the part the circuit's
    variables: &'a [u32],
    /// how many variables a time of the circuit has, of which the last one is true
    count: u32,
}

impl<'a> Translation<'a> {
    /// The translation of numbers of a formula with these ids.
    fn of(circuit: &Model, cone: &'a Cone, ids: &'a Ids) -> Translation<'a> {
        Translation {
            ids,
            variables: cone.variables.as_slice(),
            count: circuit.max_var().saturating_add(1),
        }
    }

    /// The id over the circuit. Those of lines stand behind those of clauses.
    fn id(self, id: u32) -> u32 {
        let known = &self.ids.ids;
        match known.get((id as usize).saturating_sub(1)) {
            Some(new) => *new,
            None => {
                let behind = (id as usize).saturating_sub(known.len());
                let new = (self.ids.taken as usize).saturating_add(behind);
                new.min(u32::MAX as usize) as u32
            }
        }
    }

    /// The ids over the circuit.
    fn ids(self, alloc: Global, ids: &[u32]) -> Result<Vec<u32>, Refused> {
        let mut new = Vec::new(alloc);
        for id in ids {
            push(&mut new, self.id(*id))?;
        }
        Ok(new)
    }

    /// The hints over the circuit.
    fn hints(self, alloc: Global, hints: &[i64]) -> Result<Vec<i64>, Refused> {
        let mut new = Vec::new(alloc);
        for hint in hints {
            let id = hint.unsigned_abs().min(u64::from(u32::MAX)) as u32;
            push(&mut new, i64::from(self.id(id)))?;
        }
        Ok(new)
    }

    /// The variable over the circuit. A time of the part has one for what is true, too.
    fn variable(self, variable: u32) -> u32 {
        let count = (self.variables.len().min(u32::MAX as usize) as u32).max(1);
        let place = variable.saturating_sub(1);
        let at = place % count;
        let own = match self.variables.get(at as usize + 1) {
            Some(own) => *own,
            None => self.count,
        };
        let before = (place / count).saturating_mul(self.count);
        before.saturating_add(own)
    }

    /// The literal over the circuit.
    fn literal(self, literal: i32) -> i32 {
        let new = self.variable(literal.unsigned_abs()).min(i32::MAX as u32) as i32;
        if literal < 0 { -new } else { new }
    }

    /// The clause over the circuit.
    fn clause(self, alloc: Global, clause: &[i32]) -> Result<Clause, Refused> {
        let mut new = Vec::new(alloc);
        for literal in clause {
            push(&mut new, self.literal(*literal))?;
        }
        Clause::from_slice(alloc, new.as_slice())
    }

    /// The line over the circuit.
    fn line(self, alloc: Global, line: &Line) -> Result<Line, Refused> {
        match line {
            Line::Add { id, clause, hints } => Ok(Line::Add {
                id: self.id(*id),
                clause: self.clause(alloc, clause.as_slice())?,
                hints: Seq::from_vec(self.hints(alloc, hints.as_slice())?),
            }),
            Line::Delete { id, ids } => Ok(Line::Delete {
                id: self.id(*id),
                ids: Seq::from_vec(self.ids(alloc, ids.as_slice())?),
            }),
        }
    }

    /// The lines over the circuit. One that is over a limit is left out.
    fn proof(self, alloc: Global, lines: &[Line]) -> Result<Proof, Refused> {
        let mut proof = Proof::new(alloc);
        for line in lines {
            match proof.push(self.line(alloc, line)?) {
                Ok(()) => {}
                Err(LratError::OutOfMemory(refused)) => return Err(refused),
                Err(_) => {}
            }
        }
        Ok(proof)
    }

    /// The lists of hints over the circuit.
    fn lists(self, alloc: Global, lists: &Lists<u32>) -> Result<Lists<u32>, Refused> {
        let mut new = Lists::new(alloc);
        for k in 0..lists.len() {
            let ids = self.ids(alloc, lists.list(k))?;
            new.push(ids.as_slice())?;
        }
        Ok(new)
    }

    /// What is derived over the circuit.
    fn derived(self, alloc: Global, derived: &Derived) -> Result<Derived, Refused> {
        Ok(Derived {
            lines: self.proof(alloc, derived.lines.lines())?,
            hints: self.lists(alloc, &derived.hints)?,
        })
    }
}

/// The proofs over the part, as proofs over the circuit. It costs the part, and the latches.
pub fn translated(
    alloc: Global,
    circuit: &Model,
    cone: &Cone,
    proofs: &Proofs,
) -> Result<Proofs, Refused> {
    let first = Ids::first(alloc, circuit, cone)?;
    let step = Ids::step(alloc, circuit, cone)?;
    let last = Ids::last(alloc, circuit, cone)?;
    Ok(Proofs {
        first: Translation::of(circuit, cone, &first).derived(alloc, &proofs.first)?,
        step: Translation::of(circuit, cone, &step).derived(alloc, &proofs.step)?,
        last: Translation::of(circuit, cone, &last).proof(alloc, proofs.last.lines())?,
    })
}

//! The part of a circuit that clauses are about: what they and the constraints are made of, and the next literals of the
//! latches among that. Nothing rests on it: a proof over it is judged over the circuit.

use crate::subject::Subject;
use base::{Lists, Refused, Seq, filled, push};
use graph::{Gate, Latch, Lit, Model, Parts, ReadError};
use std::alloc::Global;

/// More than any variable, position or literal.
const MOST: usize = 1 << 30;

/// Which variables of a circuit are of the part.
#[derive(Drop)]
struct Marks {
    marks: Vec<bool>,
}

impl Marks {
    /// Marks the literal's variable.
    fn mark(&mut self, lit: Lit) {
        if let Some(mark) = self.marks.get_mut(lit.variable() as usize) {
            *mark = true;
        }
    }

    /// Marks the variables of these literals.
    fn mark_all(&mut self, lits: &[Lit]) {
        for lit in lits {
            self.mark(*lit);
        }
    }

    /// Marks the variables of the clauses.
    fn mark_clauses(&mut self, clauses: &Lists<Lit>) {
        for k in 0..clauses.len() {
            self.mark_all(clauses.list(k));
        }
    }

    /// Whether the literal's variable is marked.
    fn has(&self, lit: Lit) -> bool {
        match self.marks.get(lit.variable() as usize) {
            Some(mark) => *mark,
            None => false,
        }
    }

    /// Marks what a marked gate reads.
    fn open(&mut self, gate: Gate) {
        if self.has(gate.lhs) {
            self.mark(gate.rhs0);
            self.mark(gate.rhs1);
        }
    }

    /// Marks all that marked gates are made of, the last gate first.
    fn close(&mut self, circuit: &Model) {
        let order = circuit.order();
        for k in (0..order.len()).rev() {
            if let Some(gate) = circuit.gates().get(order[k] as usize) {
                self.open(*gate);
            }
        }
    }

    /// The positions of the latches that are marked.
    fn latches(&self, alloc: Global, circuit: &Model) -> Result<Vec<u32>, Refused> {
        let mut positions = Vec::new(alloc);
        for (position, latch) in circuit.latches().iter().enumerate() {
            if self.has(latch.lit) {
                push(&mut positions, position.min(MOST) as u32)?;
            }
        }
        Ok(positions)
    }

    /// Marks the next literals of the latches at these positions.
    fn mark_next(&mut self, circuit: &Model, positions: &[u32]) {
        for position in positions {
            if let Some(latch) = circuit.latches().get(*position as usize) {
                self.mark(latch.next);
            }
        }
    }
}

/// New variables for those that are marked.
#[derive(Drop)]
struct Names {
    /// for each variable of the circuit its new literal, or false
    literals: Vec<Lit>,
    /// for each new variable, from 0 on, the circuit's
    variables: Vec<u32>,
}

impl Names {
    /// The new variables, in order.
    fn of(alloc: Global, marks: &[bool]) -> Result<Names, Refused> {
        let mut names = Names {
            literals: Vec::new(alloc),
            variables: Vec::new(alloc),
        };
        push(&mut names.variables, 0)?;
        for variable in 0..marks.len() {
            names.add(variable, variable > 0 && marks[variable])?;
        }
        Ok(names)
    }

    /// Adds the variable, by a new one where it is of the part.
    fn add(&mut self, variable: usize, is_marked: bool) -> Result<(), Refused> {
        if !is_marked {
            return push(&mut self.literals, Lit(0));
        }
        let new = self.variables.len().min(MOST) as u32;
        push(&mut self.literals, Lit(2 * new))?;
        push(&mut self.variables, variable.min(MOST) as u32)
    }

    /// The new literal.
    fn literal(&self, lit: Lit) -> Lit {
        let new = match self.literals.get(lit.variable() as usize) {
            Some(new) => new.0,
            None => 0,
        };
        Lit(new ^ (lit.0 & 1))
    }

    /// The new literals.
    fn list(&self, alloc: Global, lits: &[Lit]) -> Result<Vec<Lit>, Refused> {
        let mut new = Vec::new(alloc);
        for lit in lits {
            push(&mut new, self.literal(*lit))?;
        }
        Ok(new)
    }

    /// The clauses, by the new literals.
    fn clauses(&self, alloc: Global, clauses: &Lists<Lit>) -> Result<Lists<Lit>, Refused> {
        let mut new = Lists::new(alloc);
        for k in 0..clauses.len() {
            let clause = self.list(alloc, clauses.list(k))?;
            new.push(clause.as_slice())?;
        }
        Ok(new)
    }

    /// Adds those of the inputs that are of the part.
    fn add_inputs(&self, to: &mut Seq<Lit>, inputs: &[Lit]) -> Result<(), Refused> {
        for lit in inputs {
            let new = self.literal(*lit);
            if new.0 > 1 {
                to.push(new)?;
            }
        }
        Ok(())
    }

    /// Adds those of the latches that are of the part, and not among the marked ones: there each has any value.
    fn add_cut(&self, to: &mut Seq<Lit>, latches: &[Latch], kept: &[u32]) -> Result<(), Refused> {
        let mut next = 0;
        for (position, latch) in latches.iter().enumerate() {
            if kept.get(next).copied() == Some(position.min(MOST) as u32) {
                next = next.saturating_add(1);
            } else {
                self.add_inputs(to, &[latch.lit])?;
            }
        }
        Ok(())
    }

    /// The latches at these positions.
    fn latches(
        &self,
        alloc: Global,
        latches: &[Latch],
        positions: &[u32],
    ) -> Result<Seq<Latch>, Refused> {
        let mut new = Seq::new(alloc);
        for position in positions {
            if let Some(latch) = latches.get(*position as usize) {
                new.push(Latch {
                    lit: self.literal(latch.lit),
                    next: self.literal(latch.next),
                    reset: self.literal(latch.reset),
                })?;
            }
        }
        Ok(new)
    }

    /// The gates at these positions.
    fn gates(
        &self,
        alloc: Global,
        gates: &[Gate],
        positions: &[u32],
    ) -> Result<Seq<Gate>, Refused> {
        let mut new = Seq::new(alloc);
        for position in positions {
            if let Some(gate) = gates.get(*position as usize) {
                new.push(Gate {
                    lhs: self.literal(gate.lhs),
                    rhs0: self.literal(gate.rhs0),
                    rhs1: self.literal(gate.rhs1),
                })?;
            }
        }
        Ok(new)
    }
}

/// The part of a circuit that clauses are about.
#[derive(Drop)]
pub struct Cone {
    /// the part as a circuit, with the literal
    pub subject: Subject,
    /// the clauses, over the part
    pub invariant: Lists<Lit>,
    /// for each of its variables, from 0 on, the circuit's
    pub variables: Vec<u32>,
    /// the positions of its latches among the circuit's
    pub latches: Vec<u32>,
    /// the positions of its gates among the circuit's
    pub gates: Vec<u32>,
}

/// The positions of the gates that are marked.
fn gates_of(alloc: Global, marks: &Marks, gates: &[Gate]) -> Result<Vec<u32>, Refused> {
    let mut positions = Vec::new(alloc);
    for (position, gate) in gates.iter().enumerate() {
        if marks.has(gate.lhs) {
            push(&mut positions, position.min(MOST) as u32)?;
        }
    }
    Ok(positions)
}

/// The variables that the clauses, the constraints and the literal are made of.
fn marked(alloc: Global, subject: &Subject, invariant: &Lists<Lit>) -> Result<Marks, Refused> {
    let circuit = &subject.circuit;
    circuit.well_formed();
    let mut marks = Marks {
        marks: filled(alloc, false, circuit.max_var() as usize + 1)?,
    };
    marks.mark_clauses(invariant);
    marks.mark_all(circuit.constraints());
    marks.mark(subject.bad);
    marks.close(circuit);
    Ok(marks)
}

/// The part as a circuit, with the literal.
fn parts_of(
    alloc: Global,
    subject: &Subject,
    names: &Names,
    latches: &[u32],
    gates: &[u32],
) -> Result<Parts, Refused> {
    let circuit = &subject.circuit;
    let mut inputs = Seq::new(alloc);
    names.add_inputs(&mut inputs, circuit.inputs())?;
    names.add_cut(&mut inputs, circuit.latches(), latches)?;
    Ok(Parts {
        max_var: names.variables.len().saturating_sub(1).min(MOST) as u32,
        inputs,
        latches: names.latches(alloc, circuit.latches(), latches)?,
        outputs: Seq::new(alloc),
        bad: Seq::new(alloc),
        constraints: Seq::from_vec(names.list(alloc, circuit.constraints())?),
        justice: Seq::new(alloc),
        fairness: Seq::new(alloc),
        gates: names.gates(alloc, circuit.gates(), gates)?,
    })
}

/// The circuit of the parts, where they are one.
fn model_of(alloc: Global, parts: Parts) -> Result<Option<Model>, Refused> {
    match Model::from_parts(alloc, parts) {
        Ok(model) => Ok(Some(model)),
        Err(ReadError::OutOfMemory(refused)) => Err(refused),
        Err(_) => Ok(None),
    }
}

impl Cone {
    /// The part of the variables that are marked.
    fn of_marks(
        alloc: Global,
        subject: &Subject,
        invariant: &Lists<Lit>,
        marks: &Marks,
        latches: Vec<u32>,
        gates: Vec<u32>,
    ) -> Result<Option<Cone>, Refused> {
        let names = Names::of(alloc, &marks.marks)?;
        let parts = parts_of(alloc, subject, &names, &latches, &gates)?;
        let Some(circuit) = model_of(alloc, parts)? else {
            return Ok(None);
        };
        let bad = names.literal(subject.bad);
        let invariant = names.clauses(alloc, invariant)?;
        let Names {
            literals: _,
            variables,
        } = names;
        Ok(Some(Cone {
            subject: Subject { circuit, bad },
            invariant,
            variables,
            latches,
            gates,
        }))
    }

    /// The part that the clauses, the constraints and the literal are about, where it has less than half of the gates: what
    /// they are made of, with what latches among that go to. Any other latch is an input there.
    pub fn of(
        alloc: Global,
        subject: &Subject,
        invariant: &Lists<Lit>,
    ) -> Result<Option<Cone>, Refused> {
        let circuit = &subject.circuit;
        let mut marks = marked(alloc, subject, invariant)?;
        let latches = marks.latches(alloc, circuit)?;
        marks.mark_next(circuit, &latches);
        marks.close(circuit);
        let gates = gates_of(alloc, &marks, circuit.gates())?;
        if gates.len() >= circuit.gates().len() / 2 {
            return Ok(None);
        }
        Cone::of_marks(alloc, subject, invariant, &marks, latches, gates)
    }
}

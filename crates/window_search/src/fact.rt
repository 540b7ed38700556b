//! What a circuit says of its times, clause by clause.

use base::{Refused, push};
use graph::{Gate, Latch, Lit, Model};
use sequential_cones::is_marked;
use std::alloc::Global;

/// What is false, and what stands where a clause has no literal.
const NONE: Lit = Lit(0);

/// The times of which a clause is so.
#[derive(Clone, Copy, PartialEq, Eq)]
pub enum When {
    /// all
    Always,
    /// all but the last
    Before,
    /// a first one
    First,
}

/// A clause over literals at a time, and one at the time behind it.
#[derive(Clone, Copy)]
pub struct Fact {
    /// of which times it is so
    pub when: When,
    /// the literals at the time, and what is false
    pub lits: [Lit; 3],
    /// the literal at the time behind, or what is false
    pub after: Lit,
}

/// The literal's negation.
pub fn negated(lit: Lit) -> Lit {
    Lit(lit.0 ^ 1)
}

impl Fact {
    /// A clause over one time.
    fn of(when: When, lits: [Lit; 3]) -> Fact {
        let after = NONE;
        Fact { when, lits, after }
    }

    /// Whether the clause is so whatever the circuit: it has what is true, or two literals that are opposed.
    fn is_trivial(&self) -> bool {
        let [one, two, three] = self.lits;
        let is_true = one.0 == 1 || two.0 == 1 || three.0 == 1 || self.after.0 == 1;
        is_true || one == negated(two) || one == negated(three) || two == negated(three)
    }

    /// Whether it is so at each time that is so long before the last.
    pub(crate) fn is_at(&self, delay: u32) -> bool {
        match self.when {
            When::Always => true,
            When::Before => delay > 0,
            When::First => false,
        }
    }
}

/// Adds a clause, where it says something.
fn add(to: &mut Vec<Fact>, fact: Fact) -> Result<(), Refused> {
    if fact.is_trivial() {
        return Ok(());
    }
    push(to, fact)
}

/// Adds the clauses of a gate.
fn add_gate(to: &mut Vec<Fact>, gate: Gate) -> Result<(), Refused> {
    let (one, other) = (gate.rhs0, gate.rhs1);
    let false_other = if one == other { NONE } else { negated(other) };
    let always = When::Always;
    add(to, Fact::of(always, [negated(gate.lhs), one, NONE]))?;
    add(to, Fact::of(always, [negated(gate.lhs), other, NONE]))?;
    add(to, Fact::of(always, [gate.lhs, negated(one), false_other]))
}

/// Adds that a latch is what its next literal was.
fn add_step(to: &mut Vec<Fact>, latch: Latch) -> Result<(), Refused> {
    let when = When::Before;
    let low = Fact {
        when,
        lits: [latch.next, NONE, NONE],
        after: negated(latch.lit),
    };
    let high = Fact {
        when,
        lits: [negated(latch.next), NONE, NONE],
        after: latch.lit,
    };
    add(to, low)?;
    add(to, high)
}

/// Adds what a latch is reset to, where that is a constant.
fn add_reset(to: &mut Vec<Fact>, latch: Latch) -> Result<(), Refused> {
    if latch.reset.0 > 1 {
        return Ok(());
    }
    let lit = Lit(latch.lit.0 ^ 1 ^ latch.reset.0);
    add(to, Fact::of(When::First, [lit, NONE, NONE]))
}

/// Adds the clauses of the gates that are marked.
fn add_gates(to: &mut Vec<Fact>, gates: &[Gate], marks: &[bool]) -> Result<(), Refused> {
    for gate in gates {
        if is_marked(marks, gate.lhs.variable()) {
            add_gate(to, *gate)?;
        }
    }
    Ok(())
}

/// Adds the steps and resets of the latches that are marked.
fn add_latches(to: &mut Vec<Fact>, latches: &[Latch], marks: &[bool]) -> Result<(), Refused> {
    for latch in latches {
        if is_marked(marks, latch.lit.variable()) {
            add_step(to, *latch)?;
            add_reset(to, *latch)?;
        }
    }
    Ok(())
}

/// Adds the constraints.
fn add_constraints(to: &mut Vec<Fact>, constraints: &[Lit]) -> Result<(), Refused> {
    for constraint in constraints {
        add(to, Fact::of(When::Always, [*constraint, NONE, NONE]))?;
    }
    Ok(())
}

/// What the marked part of the circuit says, and that the bad literal was not set before.
pub(crate) fn facts_of(
    alloc: Global,
    circuit: &Model,
    marks: &[bool],
    bad: Lit,
) -> Result<Vec<Fact>, Refused> {
    let mut facts = Vec::new(alloc);
    add_gates(&mut facts, circuit.gates(), marks)?;
    add_constraints(&mut facts, circuit.constraints())?;
    add_latches(&mut facts, circuit.latches(), marks)?;
    add(
        &mut facts,
        Fact::of(When::Before, [negated(bad), NONE, NONE]),
    )?;
    Ok(facts)
}

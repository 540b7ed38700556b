//! Clauses over several times.

ghost use Rattle.std.specs.Prelude.{◌≡◌, ◌≤◌, ◌<◌, All, OnOk};
ghost use Rattle.graph.specs.Circuits.{variable as variable_of};
ghost use Rattle.lrat.specs.Literals.{IsLiteral};

use crate::fact::{Fact, facts_of};
use base::{Refused, push};
use graph::{Lit, Model};
use sequential_cones::cone_of;
use std::alloc::Global;

/// The variable that is true.
const TRUTH: u32 = 1;

/// The greatest variable of clauses.
const MOST: u32 = 2_147_483_647;

/// The times of what a literal rests on, as clauses have them. A contract sees the greatest variable of clauses.
#[derive(Drop)]
pub struct Frames {
    /// the literal
    pub bad: Lit,
    /// what is so
    pub facts: Vec<Fact>,
    /// for each variable its place at a time, from 1 on, or 0
    places: Vec<u32>,
    /// how many places a time has
    count: u32,
    /// the greatest variable of clauses
    vars: u32,
}

impl std::marker::Model for Frames {
    ghost use Rattle.std.specs.Prelude.{ℕ, ◌<◌, ◌≤◌};

    ghost Value = { ℕ };

    ghost view = { λ f. f.vars };

    ghost invariant = { λ f. (0 < f.vars) × (f.vars ≤ 2147483647) };
}

/// The literal of a variable, or its negation.
fn signed(variable: u32, is_negated: bool) -> i32
    requires some { 0 < variable }
    requires fits { variable ≤ 2147483647 }
    ensures { IsLiteral variable result }
{
    if is_negated {
        -(variable as i32)
    } else {
        variable as i32
    }
}

/// The places of the marked variables but the constant, and how many they are.
fn places_of(alloc: Global, marks: &[bool]) -> Result<(Vec<u32>, u32), Refused> {
    let mut places = Vec::new(alloc);
    let mut count = 0_u32;
    for (variable, mark) in marks.iter().enumerate() {
        if *mark && variable > 0 {
            count = count.saturating_add(1);
            push(&mut places, count)?;
        } else {
            push(&mut places, 0)?;
        }
    }
    Ok((places, count))
}

impl Frames {
    /// The times of what the literal and the constraints rest on, with room for so many. It costs the circuit.
    pub fn new(alloc: Global, circuit: &Model, bad: Lit, times: u32) -> Result<Frames, Refused>
        requires { variable_of bad ≤ circuit.now.max_var }
    {
        let marks = cone_of(alloc, circuit, bad)?;
        let (places, count) = places_of(alloc, marks.as_slice())?;
        let facts = facts_of(alloc, circuit, marks.as_slice(), bad)?;
        let vars = count.saturating_mul(times).clamp(TRUTH, MOST - 1) + 1;
        Ok(Frames {
            bad,
            facts,
            places,
            count,
            vars,
        })
    }

    /// How many variables clauses are over.
    pub(crate) fn vars(&self) -> u32
        ensures value { result ≡ self.now }
        ensures some { 0 < self.now }
        ensures fits { self.now ≤ 2147483647 }
    {
        self.vars
    }

    /// How many variables the clauses of so many times are over.
    pub(crate) fn variables(&self, times: u32) -> u32 {
        self.count.saturating_mul(times).saturating_add(TRUTH)
    }

    /// The literal of clauses for what is true.
    pub(crate) fn truth(&self) -> i32
        ensures { IsLiteral self.now result }
    {
        let _vars = self.vars();
        signed(TRUTH, false)
    }

    /// The place of a literal's variable, or 0.
    fn place(&self, lit: Lit) -> u32 {
        match self.places.get(lit.variable() as usize) {
            Some(place) => *place,
            None => 0,
        }
    }

    /// The variable of clauses for the place at a time.
    fn variable(&self, place: u32, delay: u32) -> u32
        ensures some { 0 < result }
        ensures inside { result ≤ self.now }
    {
        let variable = self.count.saturating_mul(delay).saturating_add(place);
        variable.min(self.vars - 1) + 1
    }

    /// The literal of clauses for a literal at a time.
    pub(crate) fn literal(&self, lit: Lit, delay: u32) -> i32
        ensures { IsLiteral self.now result }
    {
        let _vars = self.vars();
        let place = self.place(lit);
        if place > 0 {
            signed(self.variable(place, delay), lit.is_negated())
        } else {
            signed(TRUTH, !lit.is_negated())
        }
    }

    /// Adds the literals at a time that are not what is false.
    fn add_literals(&self, clause: &mut Vec<i32>, lits: &[Lit], delay: u32) -> Result<(), Refused>
        requires { All (IsLiteral self.now) clause.old.items }
        ensures { OnOk result (All (IsLiteral self.now) clause.new.items) }
    {
        for lit in lits {
            if lit.0 > 0 {
                push(clause, self.literal(*lit, delay))?;
            }
        }
        Ok(())
    }

    /// Writes the clause of a fact at a time.
    pub(crate) fn write(&self, clause: &mut Vec<i32>, fact: Fact, delay: u32) -> Result<(), Refused>
        ensures { OnOk result (All (IsLiteral self.now) clause.new.items) }
    {
        clause.clear();
        self.add_literals(clause, &fact.lits, delay)?;
        self.add_literals(clause, &[fact.after], delay.saturating_sub(1))?;
        if clause.is_empty() {
            push(clause, self.literal(Lit(0), delay))?;
        }
        Ok(())
    }
}

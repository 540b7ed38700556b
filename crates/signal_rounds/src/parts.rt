//! The part of a circuit that a question is about.

ghost use Rattle.std.specs.Prelude.{◌≡◌, ◌≤◌};
ghost use Rattle.lrat.specs.Literals.{IsLiteral};

use base::{Refused, filled, push};
use graph::{Gate, Lit};
use signal_classes::{Pair, Reduced, unit};
use solver::{AndGate, Part};
use std::alloc::Global;

/// How many gates a question is about at first.
const GATES: usize = 100;

/// A literal's variable that is taken to be equal to an earlier literal.
#[derive(Clone, Copy)]
pub(crate) struct Taken {
    pub variable: u32,
    pub equal: Lit,
}

/// Adds the literal's variable to those of the part that has this number, where it is not among them.
fn add_to(marks: &mut [u32], mark: u32, list: &mut Vec<u32>, lit: Lit) -> Result<(), Refused> {
    let variable = lit.variable();
    let place = variable as usize;
    if place < marks.len() && marks[place] != mark {
        marks[place] = mark;
        push(list, variable)?;
    }
    Ok(())
}

/// Adds the variables of these literals.
fn add_each(
    marks: &mut [u32],
    mark: u32,
    list: &mut Vec<u32>,
    lits: &[Lit],
) -> Result<(), Refused> {
    for lit in lits {
        add_to(marks, mark, list, *lit)?;
    }
    Ok(())
}

/// Adds the literals of clauses for these literals.
fn push_units(units: &mut Vec<i32>, truth: u32, lits: &[Lit]) -> Result<(), Refused> {
    for lit in lits {
        push(units, unit(truth, *lit))?;
    }
    Ok(())
}

/// The gates of a circuit as questions look at them: each by what its right sides are known to be equal to.
#[derive(Drop)]
pub(crate) struct Parts<'a> {
    reduced: Reduced<'a>,
    /// the part in question
    part: Part,
    /// the gates of it that the solver does not have yet
    missing: Vec<Gate>,
    /// for each variable whether the solver has its gate
    is_loaded: Vec<bool>,
    /// what variables are taken to be equal to
    taken: Vec<Taken>,
    /// for each variable whether questions are also about whether it is equal to what it is taken to be
    is_asked: Vec<bool>,
    /// what questions about more than a few gates are also about
    also: Vec<Lit>,
    /// what is to be true there
    wanted: Vec<Lit>,
    /// the variables of the part, the nearest first
    list: Vec<u32>,
    /// for each variable the number of the last part that has it
    marks: Vec<u32>,
    /// the number of the last part
    mark: u32,
    /// the literal of what is true
    truth: u32,
}

impl<'a> std::marker::Model for Parts<'a> {
    ghost use Rattle.std.specs.Prelude.{ℕ, ◌<◌, ◌≤◌};

    ghost Value = { ℕ };

    ghost view = { λ p. p.truth };

    ghost invariant = { λ p. (0 < p.truth) × (p.truth ≤ 2147483647) };
}

impl<'a> Parts<'a> {
    /// Nothing is known to be equal yet. It costs the circuit.
    pub(crate) fn new(alloc: Global, pair: &'a Pair) -> Result<Parts<'a>, Refused> {
        pair.circuit.well_formed();
        let count = pair.circuit.max_var() as usize + 1;
        Ok(Parts {
            reduced: Reduced::new(alloc, pair)?,
            part: Part {
                gates: Vec::new(alloc),
                literals: Vec::new(alloc),
            },
            missing: Vec::new(alloc),
            is_loaded: filled(alloc, false, count)?,
            taken: Vec::new(alloc),
            is_asked: filled(alloc, false, count)?,
            also: Vec::new(alloc),
            wanted: Vec::new(alloc),
            list: Vec::new(alloc),
            marks: filled(alloc, 0, count)?,
            mark: 0,
            truth: pair.circuit.max_var() + 1,
        })
    }

    /// How many variables clauses are over.
    pub(crate) fn variables(&self) -> u32
        ensures value { result ≡ self.now }
        ensures fits { self.now ≤ 2147483647 }
    {
        self.truth
    }

    /// The literal of clauses for a literal of the circuit.
    pub(crate) fn unit(&self, lit: Lit) -> i32
        ensures { IsLiteral self.now result }
    {
        unit(self.truth, lit)
    }

    /// The part in question.
    pub(crate) fn part(&self) -> &Part {
        &self.part
    }

    /// How many gates the part has.
    pub(crate) fn len(&self) -> usize {
        self.part.gates.len()
    }

    /// The gates of the part that the solver does not have yet.
    pub(crate) fn missing(&self) -> &[Gate] {
        self.missing.as_slice()
    }

    /// Notes that the solver has them.
    pub(crate) fn clear_missing(&mut self)
        ensures { self.new ≡ self.old }
    {
        self.missing.clear();
    }

    /// What variables are taken to be equal to.
    pub(crate) fn taken(&self) -> &[Taken] {
        self.taken.as_slice()
    }

    /// What the literal is known to be equal to.
    pub(crate) fn root(&self, lit: Lit) -> Lit {
        self.reduced.root(lit)
    }

    /// Notes that two literals are equal, but where the constraints are made of the later one.
    pub(crate) fn note(&mut self, one: Lit, other: Lit)
        ensures { self.new ≡ self.old }
    {
        self.reduced.merge(one, other);
    }

    /// Makes the gate of the literal's variable, where that is a gate's that is not kept.
    pub(crate) fn make(&mut self, lit: Lit) -> Result<(), Refused>
        ensures { self.new ≡ self.old }
    {
        let variable = lit.variable();
        if self.reduced.is_kept(variable) || self.reduced.equal(variable).is_some() {
            return Ok(());
        }
        if let Some(is_loaded) = self.is_loaded.get_mut(variable as usize) {
            *is_loaded = false;
        }
        self.reduced.make(variable)
    }

    /// Takes a literal to be equal to another one.
    pub(crate) fn take(&mut self, lit: Lit, other: Lit) -> Result<(), Refused>
        ensures { self.new ≡ self.old }
    {
        let equal = self.reduced.assume(lit, other)?;
        let variable = lit.variable();
        push(&mut self.taken, Taken { variable, equal })
    }

    /// Has questions about more than a few gates also be about whether a variable is equal to what it is taken to be. False
    /// where they are so already.
    pub(crate) fn ask_also(&mut self, taken: Taken) -> Result<bool, Refused>
        ensures { self.new ≡ self.old }
    {
        let Some(is_asked) = self.is_asked.get_mut(taken.variable as usize) else {
            return Ok(false);
        };
        if *is_asked {
            return Ok(false);
        }
        *is_asked = true;
        push(&mut self.also, Lit(taken.variable.saturating_mul(2)))?;
        push(&mut self.also, taken.equal)?;
        Ok(true)
    }

    /// Has questions about more than a few gates also be about these literals.
    pub(crate) fn ask_also_of(&mut self, one: Lit, other: Lit) -> Result<(), Refused>
        ensures { self.new ≡ self.old }
    {
        push(&mut self.also, one)?;
        push(&mut self.also, other)
    }

    /// Whether the last part has the variable.
    pub(crate) fn has(&self, variable: u32) -> bool {
        self.marks.get(variable as usize).copied() == Some(self.mark)
    }

    /// Begins another part, which has nothing yet.
    fn clear(&mut self)
        ensures { self.new ≡ self.old }
    {
        self.mark = self.mark.wrapping_add(1);
        self.list.clear();
        self.part.gates.clear();
        self.part.literals.clear();
    }

    /// Adds the variable to the part, where that does not have it.
    fn add(&mut self, lit: Lit) -> Result<(), Refused>
        ensures { self.new ≡ self.old }
    {
        add_to(self.marks.as_mut_slice(), self.mark, &mut self.list, lit)
    }

    /// Adds the variables of these literals.
    fn add_all(&mut self, lits: &[Lit]) -> Result<(), Refused>
        ensures { self.new ≡ self.old }
    {
        add_each(self.marks.as_mut_slice(), self.mark, &mut self.list, lits)
    }

    /// Adds what each question about more than a few gates is also about.
    fn add_also(&mut self) -> Result<(), Refused>
        ensures { self.new ≡ self.old }
    {
        let marks = self.marks.as_mut_slice();
        add_each(marks, self.mark, &mut self.list, self.also.as_slice())
    }

    /// Has the literal that is always true be true in the part.
    fn add_truth(&mut self) -> Result<(), Refused>
        ensures { self.new ≡ self.old }
    {
        push_units(&mut self.part.literals, self.truth, &[Lit(1)])
    }

    /// Has the constraints be true in the part.
    fn add_wanted(&mut self) -> Result<(), Refused>
        ensures { self.new ≡ self.old }
    {
        push_units(&mut self.part.literals, self.truth, self.wanted.as_slice())
    }

    /// What the variable is known to be equal to, but where questions are about that.
    fn equal(&self, variable: u32) -> Option<Lit> {
        match self.is_asked.get(variable as usize) {
            Some(true) => None,
            _ => self.reduced.equal(variable),
        }
    }

    /// Adds the variable as a gate of these right sides to the part.
    fn add_gate(&mut self, variable: u32, one: Lit, other: Lit) -> Result<(), Refused>
        ensures { self.new ≡ self.old }
    {
        let gate = AndGate {
            lhs: self.unit(Lit(variable.saturating_mul(2))),
            rhs0: self.unit(one),
            rhs1: self.unit(other),
        };
        push(&mut self.part.gates, gate)?;
        self.add(one)?;
        self.add(other)
    }

    /// Notes that the solver is to get the gate, where it does not have it.
    fn add_missing(&mut self, variable: u32, one: Lit, other: Lit) -> Result<(), Refused>
        ensures { self.new ≡ self.old }
    {
        if let Some(is_loaded) = self.is_loaded.get_mut(variable as usize)
            && !*is_loaded
        {
            *is_loaded = true;
            let gate = Gate {
                lhs: Lit(variable.saturating_mul(2)),
                rhs0: one,
                rhs1: other,
            };
            push(&mut self.missing, gate)?;
        }
        Ok(())
    }

    /// Adds what the variable is made of.
    fn visit(&mut self, variable: u32) -> Result<(), Refused>
        ensures { self.new ≡ self.old }
    {
        if let Some(equal) = self.equal(variable) {
            return self.add_gate(variable, equal, equal);
        }
        if let Some((one, other)) = self.reduced.sides(variable) {
            self.add_missing(variable, one, other)?;
            self.add_gate(variable, one, other)?;
        }
        Ok(())
    }

    /// The variable at a place of the part, where that has fewer gates than this.
    fn listed(&self, place: usize, most: usize) -> Option<u32> {
        if self.part.gates.len() >= most {
            return None;
        }
        self.list.get(place).copied()
    }

    /// Adds what the variables of the part are made of, the nearest first, as many gates at most.
    fn walk(&mut self, most: usize) -> Result<(), Refused>
        ensures { self.new ≡ self.old }
    {
        'walking: for place in 0..self.variables() as usize {
            let Some(variable) = self.listed(place, most) else {
                return Ok(());
            };
            self.visit(variable)?;
        }
        Ok(())
    }

    /// Gathers the gates of which these literals are made: the nearest alone, or all, with the constraints and what else
    /// questions are about.
    pub(crate) fn gather(&mut self, lits: &[Lit], is_whole: bool) -> Result<(), Refused>
        ensures { self.new ≡ self.old }
    {
        self.clear();
        self.add_truth()?;
        self.add_all(lits)?;
        if is_whole {
            self.add_also()?;
            self.add_wanted()?;
            return self.walk(usize::MAX);
        }
        self.walk(GATES)
    }

    /// Has a constraint be true in questions about more than a few gates. Answers what it is looked at as.
    pub(crate) fn constrain(&mut self, constraint: Lit) -> Result<Lit, Refused>
        ensures { self.new ≡ self.old }
    {
        let lit = self.root(constraint);
        push(&mut self.also, lit)?;
        push(&mut self.wanted, lit)?;
        Ok(lit)
    }

    /// Keeps what the constraints are made of.
    pub(crate) fn keep(&mut self) -> Result<(), Refused>
        ensures { self.new ≡ self.old }
    {
        self.gather(&[], true)?;
        self.reduced.keep(self.list.as_slice());
        Ok(())
    }
}

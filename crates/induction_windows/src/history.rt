//! Latches that say what was.

ghost use Rattle.std.specs.Prelude.{◌≡◌, ◌+◌, ◌≤◌, ◌++◌, ◌↔◌, IsTrue, OnOk};
ghost use Rattle.induction_windows.specs.Rows.{delayed as delayed_of, negated_literal, row_latches, variable_literal};

use base::{Refused, filled, push};
use graph::{Latch, Lit, MOST_VARIABLES, Model};
use std::alloc::Global;
use window_search::{Fact, Frames, Resting};

/// The latches of a variable.
#[derive(Clone, Copy)]
struct Row {
    /// the variable before that of the first latch
    base: u32,
    /// how many there are
    depth: u32,
}

/// Latches that say whether there were times so long ago, and what variables were then.
#[derive(Drop)]
pub(crate) struct History {
    /// those that say whether there were times
    times: Row,
    /// for each variable, those that say what it was
    rows: Vec<Row>,
}

/// The literal that is true where the variable is.
fn literal_of(variable: u32) -> Lit
    requires { variable ≤ 4194303 }
    ensures { result ≡ variable_literal variable }
{
    Lit(2 * variable)
}

/// The latch of a variable that has the value which a literal had a time before, and is 0 at first.
fn delayed(variable: u32, before: Lit) -> Latch
    requires { variable ≤ 4194303 }
    ensures { result ≡ delayed_of variable before }
{
    Latch {
        lit: literal_of(variable),
        next: before,
        reset: Lit(0),
    }
}

/// Adds latches of variables in a row: the first has the value that the literal had a time before, and each other one that of the
/// latch before it.
fn push_row(to: &mut Vec<Latch>, base: u32, literal: Lit, depth: u32) -> Result<(), Refused>
    requires { base + depth ≤ 4194303 }
    ensures { OnOk result (to.new.items ≡ to.old.items ++ row_latches base literal depth) }
{
    let mut before = literal;
    for index in 0..depth {
        let variable = base + index + 1;
        push(to, delayed(variable, before))?;
        before = literal_of(variable);
    }
    Ok(())
}

/// Notes that the literals are needed so long ago.
fn note_depth(depths: &mut [u32], lits: &[Lit], index: u32) {
    for lit in lits {
        if lit.0 > 1
            && let Some(depth) = depths.get_mut(lit.variable() as usize)
        {
            *depth = index.max(*depth);
        }
    }
}

/// How long ago variables are needed: with a delay of 1 that is now.
fn depths_of(
    alloc: Global,
    circuit: &Model,
    facts: &[Fact],
    delays: &[u32],
) -> Result<Vec<u32>, Refused> {
    circuit.well_formed();
    let mut depths = filled(alloc, 0, circuit.max_var() as usize + 1)?;
    for (fact, delay) in facts.iter().zip(delays.iter()) {
        let index = delay.saturating_sub(1);
        note_depth(depths.as_mut_slice(), &fact.lits, index);
        note_depth(
            depths.as_mut_slice(),
            &[fact.after],
            index.saturating_sub(1),
        );
    }
    Ok(depths)
}

/// The rows of so many latches each, behind a variable, and the last variable.
fn rows_of(alloc: Global, depths: &[u32], before: u32) -> Result<(Vec<Row>, u32), Refused> {
    let mut last = before;
    let mut rows = Vec::new(alloc);
    for depth in depths {
        let row = Row {
            base: last,
            depth: *depth,
        };
        push(&mut rows, row)?;
        last = last.saturating_add(*depth);
    }
    Ok((rows, last))
}

impl Row {
    /// Whether its variables are within the limit.
    fn is_within(self) -> bool
        ensures { IsTrue result ↔ self.base + self.depth ≤ 4194303 }
    {
        self.base <= MOST_VARIABLES && self.depth <= MOST_VARIABLES - self.base
    }

    /// Adds the latches, where they are within the limit. They say what the literal was.
    fn push_to(self, latches: &mut Vec<Latch>, literal: Lit) -> Result<(), Refused>
        ensures { self.base + self.depth ≤ 4194303 → OnOk result (latches.new.items ≡ latches.old.items ++ row_latches self.base literal self.depth) }
    {
        if self.is_within() {
            push_row(latches, self.base, literal, self.depth)?;
        }
        Ok(())
    }

    /// The literal of the latch for so long ago, from 1 on.
    fn literal(self, index: u32) -> Lit
        ensures value { self.base + index ≤ 4194303 → result ≡ variable_literal (self.base + index) }
        ensures fits { result.0 ≤ 8388606 }
    {
        literal_of(self.base.saturating_add(index).min(MOST_VARIABLES))
    }
}

impl History {
    /// The latches for what is needed of a window of so many times; none where there are too many.
    pub(crate) fn new(
        alloc: Global,
        circuit: &Model,
        frames: &Frames,
        resting: &Resting,
        length: u32,
    ) -> Result<Option<History>, Refused> {
        let facts = frames.facts.as_slice();
        let depths = depths_of(alloc, circuit, facts, resting.delays.as_slice())?;
        let times = Row {
            base: circuit.max_var(),
            depth: length.saturating_sub(1),
        };
        let before = times.base.saturating_add(times.depth);
        let (rows, last) = rows_of(alloc, depths.as_slice(), before)?;
        if last > MOST_VARIABLES {
            return Ok(None);
        }
        Ok(Some(History { times, rows }))
    }

    /// The literal that is true where there was a time so long ago, from 1 on.
    pub(crate) fn valid(&self, index: u32) -> Lit
        ensures value { self.now.times.base + index ≤ 4194303 → result ≡ variable_literal (self.now.times.base + index) }
        ensures fits { result.0 ≤ 8388606 }
    {
        self.times.literal(index)
    }

    /// The literal that is true where there was no such time.
    pub(crate) fn invalid(&self, index: u32) -> Lit
        ensures { self.now.times.base + index ≤ 4194303 → result ≡ negated_literal (self.now.times.base + index) }
    {
        Lit(self.valid(index).0 + 1)
    }

    /// The literal that says what this one was so long ago.
    pub(crate) fn literal(&self, lit: Lit, index: u32) -> Lit {
        if lit.0 < 2 || index == 0 {
            return lit;
        }
        match self.rows.get(lit.variable() as usize) {
            Some(row) => Lit(row.literal(index).0 | (lit.0 & 1)),
            None => lit,
        }
    }

    /// The latches, in the order of their variables.
    pub(crate) fn latches(&self, alloc: Global) -> Result<Vec<Latch>, Refused> {
        let mut latches = Vec::new(alloc);
        self.times.push_to(&mut latches, Lit(1))?;
        for (variable, row) in self.rows.iter().enumerate() {
            if variable <= MOST_VARIABLES as usize {
                row.push_to(&mut latches, literal_of(variable as u32))?;
            }
        }
        Ok(latches)
    }
}

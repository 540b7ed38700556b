//! The latches and gates of a witness that clauses need.

ghost use Rattle.std.specs.List.{list_all};
ghost use Rattle.std.specs.Prelude.{◌≡◌, ℕ, ◌<◌, ◌⊎◌, ◌++◌, [], Bool, true, List, All, IfOk, OnOk, get_or, length, map};
ghost use Rattle.graph.specs.declared.circuit.Lit.{Lit};
ghost use Rattle.witness_pairs.specs.Renamed.{renamed};
ghost use Rattle.witness_additions.specs.Trimmings.{AreKept, IsTrimmed, is_kept, is_needed, keeps_gate, keeps_latch, kept_latches, needed_gates, other_gates};

use crate::naming::Addition;
use crate::sizes::MAX_VAR;
use base::{Lists, Refused, Seq, copied, filled_like, push};
use graph::{Gate, Latch, Lit};
use std::alloc::Global;
use witness_pairs::{gate_of, latch_of, literal_of, name};

/// What is needed among the variables from the first one on.
#[derive(Drop)]
struct Cone {
    first: u32,
    /// for each variable whether it is needed
    needed: Vec<bool>,
    /// variables of which what they read is not marked yet
    open: Vec<u32>,
}

/// What the latch or the gate of the variable reads.
fn reads_of(addition: &Addition, first: u32, variable: u32) -> [Lit; 2] {
    let Some(place) = variable.checked_sub(first) else {
        return [Lit(0), Lit(0)];
    };
    if let Some(latch) = addition.latches.as_slice().get(place as usize) {
        return [latch.next, Lit(0)];
    }
    let place = (place as usize).saturating_sub(addition.latches.len());
    match addition.gates.as_slice().get(place) {
        Some(gate) => [gate.rhs0, gate.rhs1],
        None => [Lit(0), Lit(0)],
    }
}

impl Cone {
    /// Marks the literal's variable, where it is not one of the model.
    fn mark(&mut self, lit: Lit) -> Result<(), Refused> {
        if lit.variable() < self.first {
            return Ok(());
        }
        if let Some(needed) = self.needed.get_mut(lit.variable() as usize)
            && !*needed
        {
            *needed = true;
            push(&mut self.open, lit.variable())?;
        }
        Ok(())
    }

    /// Marks the variables of these literals.
    fn mark_all(&mut self, lits: &[Lit]) -> Result<(), Refused> {
        for lit in lits {
            self.mark(*lit)?;
        }
        Ok(())
    }

    /// Marks the variables of the clauses.
    fn mark_clauses(&mut self, clauses: &Lists<Lit>) -> Result<(), Refused> {
        for k in 0..clauses.len() {
            self.mark_all(clauses.list(k))?;
        }
        Ok(())
    }

    /// Marks all that what is marked reads. Each variable is opened once.
    fn close(&mut self, addition: &Addition) -> Result<(), Refused> {
        for _ in 0..self.needed.len() {
            let Some(variable) = self.open.pop() else {
                return Ok(());
            };
            self.mark_all(&reads_of(addition, self.first, variable))?;
        }
        Ok(())
    }
}

/// For each variable up to the last one of the addition its literal.
fn variables_of(alloc: Global, addition: &Addition, first: u32) -> Result<Vec<Lit>, Refused> {
    let count = addition.latches.len().saturating_add(addition.gates.len());
    let end = count.saturating_add(first as usize).min(MAX_VAR + 1) as u32;
    let mut variables = Vec::new(alloc);
    for variable in 0..end {
        push(&mut variables, Lit(variable.saturating_mul(2)))?;
    }
    Ok(variables)
}

/// Whether the literal's variable is needed.
fn is_needed(needed: &[bool], lit: Lit) -> bool
    ensures { result ≡ is_needed needed.now lit }
{
    match needed.get(lit.variable() as usize) {
        Some(needed) => *needed,
        None => false,
    }
}

/// Whether the literal's variable is one of the model's, or is needed.
fn is_kept(first: u32, needed: &[bool], lit: Lit) -> bool
    ensures { result ≡ is_kept first needed.now lit }
{
    lit.variable() < first || is_needed(needed, lit)
}

/// Whether what the latch goes to and begins with is kept, where the latch is needed.
fn keeps_latch(first: u32, needed: &[bool], latch: Latch) -> bool
    ensures { result ≡ keeps_latch first needed.now latch }
{
    !is_needed(needed, latch.lit)
        || (is_kept(first, needed, latch.next) && is_kept(first, needed, latch.reset))
}

/// Whether what the gate reads is kept, where the gate is needed.
fn keeps_gate(first: u32, needed: &[bool], gate: Gate) -> bool
    ensures { result ≡ keeps_gate first needed.now gate }
{
    !is_needed(needed, gate.lhs)
        || (is_kept(first, needed, gate.rhs0) && is_kept(first, needed, gate.rhs1))
}

/// Whether the variables of these literals are kept.
fn keeps_literals(first: u32, needed: &[bool], lits: &[Lit]) -> bool
    ensures { result ≡ list_all (is_kept first needed.now) lits.now }
{
    lits.iter().all(|lit| is_kept(first, needed, *lit))
}

/// Whether what these latches rest on is kept.
fn keeps_latches(first: u32, needed: &[bool], latches: &[Latch]) -> bool
    ensures { result ≡ list_all (keeps_latch first needed.now) latches.now }
{
    latches
        .iter()
        .all(|latch| keeps_latch(first, needed, *latch))
}

/// Whether what these gates rest on is kept.
fn keeps_gates(first: u32, needed: &[bool], gates: &[Gate]) -> bool
    ensures { result ≡ list_all (keeps_gate first needed.now) gates.now }
{
    gates.iter().all(|gate| keeps_gate(first, needed, *gate))
}

/// Whether the variables of the clauses are kept.
fn keeps_clauses(first: u32, needed: &[bool], clauses: &Lists<Lit>) -> bool
    ensures { result ≡ true → (k : ℕ) → k < length clauses.now → list_all (is_kept first needed.now) (get_or clauses.now k []) ≡ true }
{
    for k in 0..clauses.len() {
        if !keeps_literals(first, needed, clauses.list(k)) {
            return false;
        }
    }
    true
}

/// Whether the clauses' variables are kept, and what needed latches and gates rest on.
fn are_kept(first: u32, needed: &[bool], addition: &Addition, clauses: &Lists<Lit>) -> bool
    ensures { result ≡ true → AreKept first needed.now addition.now clauses.now }
{
    keeps_clauses(first, needed, clauses)
        && keeps_latches(first, needed, addition.latches.as_slice())
        && keeps_gates(first, needed, addition.gates.as_slice())
}

/// For each variable whether a walk from the clauses' variables marks it.
fn walked(
    alloc: Global,
    addition: &Addition,
    first: u32,
    variables: &[Lit],
    clauses: &Lists<Lit>,
) -> Result<Vec<bool>, Refused> {
    let mut cone = Cone {
        first,
        needed: filled_like(alloc, false, variables)?,
        open: Vec::new(alloc),
    };
    cone.mark_clauses(clauses)?;
    cone.close(addition)?;
    let Cone {
        first: _,
        needed,
        open: _,
    } = cone;
    Ok(needed)
}

/// For each variable whether the clauses need it, which are over the model and the addition: all that they rest on is
/// kept, or else each one is needed.
fn needed_by(
    alloc: Global,
    addition: &Addition,
    first: u32,
    variables: &[Lit],
    clauses: &Lists<Lit>,
) -> Result<Vec<bool>, Refused>
    ensures { IfOk result (λ v. AreKept first v.items addition.now clauses.now ⊎ All (λ b. b ≡ true) v.items) }
{
    let needed = walked(alloc, addition, first, variables, clauses)?;
    if are_kept(first, &needed, addition, clauses) {
        return Ok(needed);
    }
    let all = filled_like(alloc, true, variables)?;
    Ok(all)
}

/// New variables for those of an addition.
#[derive(Drop)]
struct Numbering {
    /// for each variable the literal that stands for it
    literals: Vec<Lit>,
    /// the next new variable
    next: u32,
}

impl Numbering {
    /// Gives the literal's variable the next new one.
    fn number(&mut self, lit: Lit) {
        let new = Lit(self.next.saturating_mul(2));
        name(self.literals.as_mut_slice(), lit, new);
        self.next = self.next.saturating_add(1);
    }

    /// Numbers the latches that are needed. The other ones are false.
    fn number_latches(&mut self, latches: &[Latch], needed: &[bool]) {
        for latch in latches {
            if is_needed(needed, latch.lit) {
                self.number(latch.lit);
            } else {
                name(self.literals.as_mut_slice(), latch.lit, Lit(0));
            }
        }
    }

    /// Numbers the gates that are needed, or those that are not.
    fn number_gates(&mut self, gates: &[Gate], needed: &[bool], are_needed: bool) {
        for gate in gates {
            if is_needed(needed, gate.lhs) == are_needed {
                self.number(gate.lhs);
            }
        }
    }

    /// The latches that are needed, by their new variables.
    fn latches(
        &self,
        alloc: Global,
        latches: &[Latch],
        needed: &[bool],
    ) -> Result<Seq<Latch>, Refused>
        ensures { IfOk result (λ ls. ls ≡ kept_latches self.now.literals.items needed.now latches.now) }
    {
        let mut found = Seq::new(alloc);
        for k in 0..latches.len() {
            if is_needed(needed, latches[k].lit) {
                found.push(latch_of(&self.literals, latches[k]))?;
            }
        }
        Ok(found)
    }

    /// Adds the gates that are needed, by their new variables.
    fn push_needed(
        &self,
        to: &mut Seq<Gate>,
        gates: &[Gate],
        needed: &[bool],
    ) -> Result<(), Refused>
        ensures { OnOk result (to.new ≡ to.old ++ needed_gates self.now.literals.items needed.now gates.now) }
    {
        for k in 0..gates.len() {
            if is_needed(needed, gates[k].lhs) {
                to.push(gate_of(&self.literals, gates[k]))?;
            }
        }
        Ok(())
    }

    /// Adds the gates that are not needed, by their new variables.
    fn push_others(
        &self,
        to: &mut Seq<Gate>,
        gates: &[Gate],
        needed: &[bool],
    ) -> Result<(), Refused>
        ensures { OnOk result (to.new ≡ to.old ++ other_gates self.now.literals.items needed.now gates.now) }
    {
        for k in 0..gates.len() {
            if !is_needed(needed, gates[k].lhs) {
                to.push(gate_of(&self.literals, gates[k]))?;
            }
        }
        Ok(())
    }

    /// The names, by the new variables.
    fn names(&self, alloc: Global, names: &[Lit]) -> Result<Vec<Lit>, Refused>
        ensures { IfOk result (λ v. v.items ≡ map (renamed self.now.literals.items) names.now) }
    {
        let mut found = Vec::new(alloc);
        for lit in names {
            push(&mut found, literal_of(&self.literals, *lit))?;
        }
        Ok(found)
    }
}

/// An addition whose first gates are needed.
#[derive(Drop)]
pub struct Trimmed {
    /// latches that are needed, and gates, of which the needed ones come first
    pub addition: Addition,
    /// how many gates are needed
    pub needed: usize,
}

/// The addition by the new variables.
fn renumbered(
    alloc: Global,
    addition: &Addition,
    numbering: &Numbering,
    needed: &[bool],
) -> Result<Trimmed, Refused>
    ensures { IfOk result (IsTrimmed numbering.now.literals.items needed.now addition.now) }
{
    let mut gates = Seq::new(alloc);
    numbering.push_needed(&mut gates, addition.gates.as_slice(), needed)?;
    let count = gates.len();
    numbering.push_others(&mut gates, addition.gates.as_slice(), needed)?;
    Ok(Trimmed {
        addition: Addition {
            names: numbering.names(alloc, &addition.names)?,
            latches: numbering.latches(alloc, addition.latches.as_slice(), needed)?,
            gates,
        },
        needed: count,
    })
}

/// The addition without the latches that the clauses do not need, and with the gates behind the others that they do not
/// need. What the clauses rest on is kept. The addition's variables are those from the first one on: latches, and then
/// gates.
pub fn trim(
    alloc: Global,
    addition: &Addition,
    first: u32,
    clauses: &Lists<Lit>,
) -> Result<Trimmed, Refused>
    ensures { IfOk result (λ t. (literals : List Lit) × (needed : List Bool) × IsTrimmed literals needed addition.now t × (AreKept first needed addition.now clauses.now ⊎ All (λ b. b ≡ true) needed)) }
{
    let variables = variables_of(alloc, addition, first)?;
    let needed = needed_by(alloc, addition, first, &variables, clauses)?;
    let mut numbering = Numbering {
        literals: copied(alloc, &variables)?,
        next: first,
    };
    numbering.number_latches(addition.latches.as_slice(), &needed);
    numbering.number_gates(addition.gates.as_slice(), &needed, true);
    numbering.number_gates(addition.gates.as_slice(), &needed, false);
    let trimmed = renumbered(alloc, addition, &numbering, &needed)?;
    Ok(trimmed)
}

//! The search for an order of the gates: depth-first with a stack and one mark for each variable.
//!
//! A gate is ordered after the gates that it reads. A variable whose right sides lead into a cycle
//! becomes stuck, and the search goes on, so that in the end exactly these are stuck. Each gate
//! enters and leaves the stack once, and is looked at three times at most.

ghost use Rattle.std.specs.Prelude.{◌≡◌, ℕ, ◌+◌, ◌<◌, ◌≤◌, ◌≢◌, ◌++◌, ◌∷◌, [], length, All, AllPairs, ◌-◌, ◌^◌, IfOk, OnOk, MatchResult, MatchOption, IsTrue, ◌↔◌, slice_index, slice_set, take, sum_by};
ghost use Rattle.graph.specs.Circuits.{variable};
ghost use Rattle.graph.specs.WellFormed.{IsOrder};
ghost use Rattle.graph.specs.Faults.{IsLeast, LeadsIntoCycle};
ghost use Rattle.graph.specs.Search.{lefts, mark_of, weight, ArePlaces, IsSearch, StepIs, Asks};
ghost use Rattle.graph.specs.declared.ordering.Mark.TheVariants.{Waiting, Open, Stuck};

use crate::circuit::{Gate, Lit};
use base::{Refused, filled, push};
use std::alloc::Global;

/// How far the search has come with a variable.
#[derive(Clone, Copy, PartialEq, Eq)]
pub enum Mark {
    /// It is a gate's, and not looked at yet.
    Waiting,
    /// It is on the stack.
    Open,
    /// It is no gate's, or its gate is in the order.
    Ordered,
    /// Its right sides lead into a cycle.
    Stuck,
}

/// What to do with the gate on top of the stack.
pub enum Step {
    Enter(u32),
    Finish,
    Stick,
}

/// The marks of the variables, the gates ordered so far, and the variables of the gates that wait for others.
#[derive(Drop)]
pub struct Search {
    marks: Vec<Mark>,
    order: Vec<u32>,
    stack: Vec<u32>,
}

fn step_at(lit: Lit, marks: &[Mark]) -> Step
    requires { variable lit < length marks.now }
    ensures { Asks marks.now (variable lit) result }
{
    let v = lit.variable();
    match marks[v as usize] {
        Mark::Waiting => Step::Enter(v),
        Mark::Open | Mark::Stuck => Step::Stick,
        Mark::Ordered => Step::Finish,
    }
}

/// Whether the variable is a gate's that nothing has looked at yet.
fn is_waiting(marks: &[Mark], v: u32) -> bool
    requires { v < length marks.now }
    ensures { IsTrue result ↔ (mark_of marks.now v ≡ Waiting) }
{
    marks[v as usize] == Mark::Waiting
}

/// What the marks of the gate's right sides ask for.
pub fn next_step(gate: Gate, marks: &[Mark]) -> Step
    requires { (variable gate.rhs0 < length marks.now) × (variable gate.rhs1 < length marks.now) }
    ensures { StepIs marks.now gate result }
{
    match step_at(gate.rhs0, marks) {
        Step::Finish => step_at(gate.rhs1, marks),
        step => step,
    }
}

impl Search {
    /// Puts a waiting variable on the stack.
    fn enter(&mut self, v: u32) -> Result<(), Refused>
        requires { v < length self.old.marks.items }
        ensures marks { self.new.marks.items ≡ slice_set self.old.marks.items v Open }
        ensures order { self.new.order.items ≡ self.old.order.items }
        ensures stack { OnOk result (self.new.stack.items ≡ self.old.stack.items ++ v ∷ []) }
    {
        self.marks[v as usize] = Mark::Open;
        push(&mut self.stack, v)
    }

    /// Takes the top from the stack and marks it.
    fn leave(&mut self, mark: Mark)
        requires some { 0 < length self.old.stack.items }
        requires in_range { slice_index self.old.stack.items (length self.old.stack.items - 1) < length self.old.marks.items }
        ensures marks { self.new.marks.items ≡ slice_set self.old.marks.items (slice_index self.old.stack.items (length self.old.stack.items - 1)) mark }
        ensures order { self.new.order.items ≡ self.old.order.items }
        ensures stack { self.new.stack.items ≡ take (length self.old.stack.items - 1) self.old.stack.items }
    {
        if let Some(top) = self.stack.pop() {
            self.marks[top as usize] = mark;
        }
    }

    /// Does what the gate on top of the stack asks for.
    fn advance(&mut self, gates: &[Gate], places: &[u32]) -> Result<(), Refused>
        requires search { IsSearch gates.now self.old.marks.items self.old.order.items self.old.stack.items }
        requires some { 0 < length self.old.stack.items }
        requires places { ArePlaces gates.now places.now }
        requires long { (length places.now ≡ length self.old.marks.items) × (length gates.now < 2 ^ 32) }
        requires in_range { All (λ g. (variable g.lhs < length places.now) × (variable g.rhs0 < length places.now) × (variable g.rhs1 < length places.now)) gates.now }
        ensures long { length self.new.marks.items ≡ length self.old.marks.items }
        ensures search { OnOk result (IsSearch gates.now self.new.marks.items self.new.order.items self.new.stack.items) }
        ensures less { OnOk result (sum_by weight self.new.marks.items < sum_by weight self.old.marks.items) }
        ensures waiting { (v : ℕ) → mark_of self.new.marks.items v ≡ Waiting → mark_of self.old.marks.items v ≡ Waiting }
    {
        let top = self.stack[self.stack.len() - 1];
        let place = places[top as usize];
        match next_step(gates[place as usize], &self.marks) {
            Step::Enter(v) => {
                self.enter(v)?;
            }
            Step::Finish => {
                self.leave(Mark::Ordered);
                push(&mut self.order, place)?;
            }
            Step::Stick => {
                self.leave(Mark::Stuck);
            }
        }
        Ok(())
    }

    /// Orders the gate of a variable and what it leads to, or finds what leads into a cycle.
    fn settle(&mut self, gates: &[Gate], places: &[u32], root: u32) -> Result<(), Refused>
        requires search { IsSearch gates.now self.old.marks.items self.old.order.items self.old.stack.items }
        requires empty { self.old.stack.items ≡ [] }
        requires places { ArePlaces gates.now places.now }
        requires long { (length places.now ≡ length self.old.marks.items) × (length gates.now < 2 ^ 32) }
        requires in_range { All (λ g. (variable g.lhs < length places.now) × (variable g.rhs0 < length places.now) × (variable g.rhs1 < length places.now)) gates.now }
        requires root { root < length self.old.marks.items }
        ensures long { length self.new.marks.items ≡ length self.old.marks.items }
        ensures search { OnOk result (IsSearch gates.now self.new.marks.items self.new.order.items self.new.stack.items) }
        ensures empty { OnOk result (self.new.stack.items ≡ []) }
        ensures waiting { (v : ℕ) → mark_of self.new.marks.items v ≡ Waiting → (mark_of self.old.marks.items v ≡ Waiting) × (v ≢ root) }
    {
        if !is_waiting(&self.marks, root) {
            return Ok(());
        }
        self.enter(root)?;
        'searching: while !self.stack.is_empty() {
            self.advance(gates, places)?;
        }
        Ok(())
    }
}

/// The place of the gate that defines each variable; 0 for the others.
fn places_of(alloc: Global, gates: &[Gate], max_var: u32) -> Result<Vec<u32>, Refused>
    requires few { length gates.now < 2 ^ 32 }
    requires small { max_var ≤ 4194303 }
    requires in_range { All (λ g. variable g.lhs ≤ max_var) gates.now }
    requires once { AllPairs (λ u v. u ≢ v) (lefts gates.now) }
    ensures { IfOk result (λ v. (length v.items ≡ max_var + 1) × ArePlaces gates.now v.items) }
{
    let mut places = filled(alloc, 0u32, max_var as usize + 1)?;
    for (place, gate) in gates.iter().enumerate() {
        places[gate.lhs.variable() as usize] = place as u32;
    }
    Ok(places)
}

/// Every gate's variable is waiting at first.
fn first_marks(alloc: Global, gates: &[Gate], max_var: u32) -> Result<Vec<Mark>, Refused>
    requires small { max_var ≤ 4194303 }
    requires in_range { All (λ g. variable g.lhs ≤ max_var) gates.now }
    ensures { IfOk result (λ v. (length v.items ≡ max_var + 1) × IsSearch gates.now v.items [] []) }
{
    let mut marks = filled(alloc, Mark::Ordered, max_var as usize + 1)?;
    for gate in gates {
        marks[gate.lhs.variable() as usize] = Mark::Waiting;
    }
    Ok(marks)
}

/// The smallest variable that is stuck.
fn first_stuck(marks: &[Mark]) -> Option<u32>
    requires { length marks.now ≤ 2 ^ 32 }
    ensures { MatchOption result ((v : ℕ) → mark_of marks.now v ≢ Stuck) (λ v. (mark_of marks.now v ≡ Stuck) × ((u : ℕ) → u < v → mark_of marks.now u ≢ Stuck)) }
{
    for (v, mark) in marks.iter().enumerate() {
        if *mark == Mark::Stuck {
            return Some(v as u32);
        }
    }
    None
}

/// The places of the gates, each after those of the gates that it reads, or the smallest variable from which right sides lead into a cycle.
pub fn find_order(
    alloc: Global,
    gates: &[Gate],
    max_var: u32,
) -> Result<Result<Vec<u32>, u32>, Refused>
    requires few { length gates.now < 2 ^ 32 }
    requires small { max_var ≤ 4194303 }
    requires in_range { All (λ g. (variable g.lhs ≤ max_var) × (variable g.rhs0 ≤ max_var) × (variable g.rhs1 ≤ max_var)) gates.now }
    requires once { AllPairs (λ u v. u ≢ v) (lefts gates.now) }
    ensures found { IfOk result (λ r. MatchResult r (λ order. IsOrder gates.now order.items) (IsLeast (LeadsIntoCycle gates.now))) }
{
    let places = places_of(alloc, gates, max_var)?;
    let marks = first_marks(alloc, gates, max_var)?;
    let mut search = Search {
        marks,
        order: Vec::new(alloc),
        stack: Vec::new(alloc),
    };
    for gate in gates {
        search.settle(gates, &places, gate.lhs.variable())?;
    }
    match first_stuck(&search.marks) {
        Some(v) => Ok(Err(v)),
        None => Ok(Ok(search.order)),
    }
}

//! The variables on which literals rest at any time.

ghost use Rattle.std.specs.Prelude.{◌≡◌, ◌≤◌, ◌↔◌, All, IfOk, IsTrue};
ghost use Rattle.graph.specs.Circuits.{variable as variable_of, place};
ghost use Rattle.cones.specs.Marks.{IsMarked};
ghost use Rattle.sequential_cones.specs.Cones.{IsConeOf, is_over as is_over_of};

use base::{Refused, filled, push};
use graph::{Gate, Latch, Lit, Model};
use std::alloc::Global;

/// The search for the variables on which literals rest, at any time (the sequential cone of influence).
#[derive(Drop)]
struct Search {
    /// for each variable two on which its value rests: those of a gate's right sides, or of a latch's
    /// next literal; else 0
    below: Vec<[u32; 2]>,
    marks: Vec<bool>,
    /// what is marked, and what it rests on is not yet
    open: Vec<u32>,
}

/// Notes for each gate's variable those of its right sides.
fn note_gates(below: &mut [[u32; 2]], gates: &[Gate]) {
    for gate in gates {
        if let Some(place) = below.get_mut(gate.lhs.variable() as usize) {
            *place = [gate.rhs0.variable(), gate.rhs1.variable()];
        }
    }
}

/// Notes for each latch's variable that of its next literal.
fn note_latches(below: &mut [[u32; 2]], latches: &[Latch]) {
    for latch in latches {
        if let Some(place) = below.get_mut(latch.lit.variable() as usize) {
            *place = [latch.next.variable(), 0];
        }
    }
}

impl Search {
    /// Nothing yet. It costs the circuit.
    fn new(alloc: Global, circuit: &Model) -> Result<Search, Refused> {
        circuit.well_formed();
        let places = circuit.max_var() as usize + 1;
        let mut below = filled(alloc, [0, 0], places)?;
        note_gates(below.as_mut_slice(), circuit.gates());
        note_latches(below.as_mut_slice(), circuit.latches());
        let marks = filled(alloc, false, places)?;
        let open = Vec::new(alloc);
        Ok(Search { below, marks, open })
    }

    /// Marks a variable.
    fn mark(&mut self, variable: u32) -> Result<(), Refused> {
        if let Some(mark) = self.marks.get_mut(variable as usize)
            && !*mark
        {
            *mark = true;
            push(&mut self.open, variable)?;
        }
        Ok(())
    }

    /// Marks the variables of all of the literals.
    fn mark_all(&mut self, lits: &[Lit]) -> Result<(), Refused> {
        for lit in lits {
            self.mark(lit.variable())?;
        }
        Ok(())
    }

    /// Marks all on which what is marked rests. Each variable is opened once.
    fn close(&mut self) -> Result<(), Refused> {
        for _ in 0..self.below.len() {
            let Some(variable) = self.open.pop() else {
                return Ok(());
            };
            let Some(below) = self.below.get(variable as usize) else {
                return Ok(());
            };
            let below = *below;
            self.mark(below[0])?;
            self.mark(below[1])?;
        }
        Ok(())
    }
}

/// Marks the constant, and what the literal and the constraints rest on.
fn searched(alloc: Global, circuit: &Model, watched: Lit) -> Result<Vec<bool>, Refused> {
    let mut search = Search::new(alloc, circuit)?;
    search.mark(0)?;
    search.mark(watched.variable())?;
    search.mark_all(circuit.constraints())?;
    search.close()?;
    let Search {
        below: _,
        marks,
        open: _,
    } = search;
    Ok(marks)
}

/// Whether the variable is marked.
pub fn is_marked(marks: &[bool], variable: u32) -> bool
    ensures { result ≡ place marks.now variable }
{
    match marks.get(variable as usize) {
        Some(mark) => *mark,
        None => false,
    }
}

/// Whether each literal's variable is marked.
fn are_marked(marks: &[bool], lits: &[Lit]) -> bool
    ensures { IsTrue result ↔ All (λ a. IsMarked marks.now (variable_of a)) lits.now }
{
    lits.iter().all(|lit| is_marked(marks, lit.variable()))
}

/// Whether all literals of the clause are marked.
pub fn is_over(marks: &[bool], clause: &[Lit]) -> bool
    ensures { result ≡ is_over_of marks.now clause.now }
{
    are_marked(marks, clause)
}

/// Whether with the gate its right sides are marked.
fn is_closed_at(marks: &[bool], gate: Gate) -> bool
    ensures { IsTrue result ↔ (IsMarked marks.now (variable_of gate.lhs) → IsMarked marks.now (variable_of gate.rhs0) × IsMarked marks.now (variable_of gate.rhs1)) }
{
    !is_marked(marks, gate.lhs.variable())
        || (is_marked(marks, gate.rhs0.variable()) && is_marked(marks, gate.rhs1.variable()))
}

/// Whether with the latch its next literal is marked.
fn is_closed_over(marks: &[bool], latch: Latch) -> bool
    ensures { IsTrue result ↔ (IsMarked marks.now (variable_of latch.lit) → IsMarked marks.now (variable_of latch.next)) }
{
    !is_marked(marks, latch.lit.variable()) || is_marked(marks, latch.next.variable())
}

/// Whether the gates' right sides are marked with them.
fn are_closed_at(marks: &[bool], gates: &[Gate]) -> bool
    ensures { IsTrue result ↔ All (λ g. IsMarked marks.now (variable_of g.lhs) → IsMarked marks.now (variable_of g.rhs0) × IsMarked marks.now (variable_of g.rhs1)) gates.now }
{
    gates.iter().all(|gate| is_closed_at(marks, *gate))
}

/// Whether the latches' next literals are marked with them.
fn are_closed_over(marks: &[bool], latches: &[Latch]) -> bool
    ensures { IsTrue result ↔ All (λ l. IsMarked marks.now (variable_of l.lit) → IsMarked marks.now (variable_of l.next)) latches.now }
{
    latches.iter().all(|latch| is_closed_over(marks, *latch))
}

/// Whether the constant, the literal, the constraints, and what the marked variables rest on are marked.
fn is_cone(circuit: &Model, watched: Lit, marks: &[bool]) -> bool
    ensures { IsTrue result → IsConeOf circuit.now watched marks.now }
{
    is_marked(marks, 0)
        && is_marked(marks, watched.variable())
        && are_marked(marks, circuit.constraints())
        && are_closed_at(marks, circuit.gates())
        && are_closed_over(marks, circuit.latches())
}

/// The constant, and the variables on which the literal and the constraints rest, at any time. It costs the circuit.
pub fn cone_of(alloc: Global, circuit: &Model, watched: Lit) -> Result<Vec<bool>, Refused>
    requires { variable_of watched ≤ circuit.now.max_var }
    ensures { IfOk result (λ marks. IsConeOf circuit.now watched marks.items) }
{
    circuit.well_formed();
    let marks = searched(alloc, circuit, watched)?;
    if is_cone(circuit, watched, &marks) {
        return Ok(marks);
    }
    // The search leaves nothing out, so this never comes; all variables would do.
    filled(alloc, true, circuit.max_var() as usize + 1)
}

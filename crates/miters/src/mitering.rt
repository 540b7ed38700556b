//! The miter of two circuits: a circuit with one bad literal, which is set where they differ.

use crate::matching::partners;
use base::{Refused, Seq, copied, extend, filled, filled_like};
use graph::{AigerFile, Gate, Latch, Lit, Model, Parts, Symbol, SymbolKind};
use std::alloc::Global;
use transforms::{TransformError, add_name};

/// The literal that is always false.
const FALSE: Lit = Lit(0);
/// The literal that is always true.
const TRUE: Lit = Lit(1);
/// The name of the bad literal.
const DIFFERS: &[u8] = b"differs";
/// What stands before the names of the first circuit's latches.
const FIRST: &str = "a.";
/// What stands before the names of the other circuit's latches.
const SECOND: &str = "b.";
/// The name of what has no symbol.
const NO_NAME: &[u8] = &[];

/// The literal's negation.
fn negated(lit: Lit) -> Lit {
    if lit.is_negated() {
        Lit(lit.0.saturating_sub(1))
    } else {
        Lit(lit.0.saturating_add(1))
    }
}

/// No circuit yet.
fn nothing(alloc: Global) -> Parts {
    Parts {
        max_var: 0,
        inputs: Seq::new(alloc),
        latches: Seq::new(alloc),
        outputs: Seq::new(alloc),
        bad: Seq::new(alloc),
        constraints: Seq::new(alloc),
        justice: Seq::new(alloc),
        fairness: Seq::new(alloc),
        gates: Seq::new(alloc),
    }
}

/// The literal of the next variable.
fn fresh(parts: &mut Parts) -> Lit {
    parts.max_var = parts.max_var.saturating_add(1);
    Lit(parts.max_var.saturating_mul(2))
}

/// Adds a gate of the next variable, and answers its literal. Its literals descend, as the binary layout wants them.
fn add_gate(parts: &mut Parts, one: Lit, other: Lit) -> Result<Lit, Refused> {
    let lhs = fresh(parts);
    let (rhs0, rhs1) = if one.0 < other.0 {
        (other, one)
    } else {
        (one, other)
    };
    parts.gates.push(Gate { lhs, rhs0, rhs1 })?;
    Ok(lhs)
}

/// Adds the gates that say whether two literals are equal, and answers their literal.
fn add_equal(parts: &mut Parts, one: Lit, other: Lit) -> Result<Lit, Refused> {
    let first_alone = add_gate(parts, one, negated(other))?;
    let second_alone = add_gate(parts, negated(one), other)?;
    add_gate(parts, negated(first_alone), negated(second_alone))
}

/// A circuit in the miter.
#[derive(Drop)]
struct Half<'a> {
    circuit: &'a Model,
    /// for each variable the literal that it is in the miter
    lits: Vec<Lit>,
}

impl<'a> Half<'a> {
    /// Nothing of the circuit yet.
    fn new(alloc: Global, circuit: &'a Model) -> Result<Half<'a>, Refused> {
        circuit.well_formed();
        let lits = filled(alloc, FALSE, circuit.max_var() as usize + 1)?;
        Ok(Half { circuit, lits })
    }

    /// Notes which literal a variable is.
    fn note(&mut self, old: Lit, new: Lit) {
        if let Some(place) = self.lits.get_mut(old.variable() as usize) {
            *place = new;
        }
    }

    /// What the literal is in the miter.
    fn at(&self, lit: Lit) -> Lit {
        match self.lits.get(lit.variable() as usize) {
            Some(new) if lit.is_negated() => negated(*new),
            Some(new) => *new,
            None => FALSE,
        }
    }

    /// Adds the inputs.
    fn add_inputs(&mut self, parts: &mut Parts) -> Result<(), Refused> {
        let circuit = self.circuit;
        for input in circuit.inputs() {
            let lit = fresh(parts);
            parts.inputs.push(lit)?;
            self.note(*input, lit);
        }
        Ok(())
    }

    /// Takes the inputs that are there, of which each is the one at this position.
    fn take_inputs(&mut self, parts: &Parts, places: &[u32]) {
        let circuit = self.circuit;
        for (position, input) in circuit.inputs().iter().enumerate() {
            let Some(place) = places.get(position) else {
                return;
            };
            if let Some(lit) = parts.inputs.as_slice().get(*place as usize) {
                self.note(*input, *lit);
            }
        }
    }

    /// Gives the latches their variables.
    fn number_latches(&mut self, parts: &mut Parts) {
        let circuit = self.circuit;
        for latch in circuit.latches() {
            let lit = fresh(parts);
            self.note(latch.lit, lit);
        }
    }

    /// Adds the gates, each behind those that it reads.
    fn add_gates(&mut self, parts: &mut Parts) -> Result<(), Refused> {
        let circuit = self.circuit;
        for place in circuit.order() {
            let Some(gate) = circuit.gates().get(*place as usize) else {
                return Ok(());
            };
            let lit = add_gate(parts, self.at(gate.rhs0), self.at(gate.rhs1))?;
            self.note(gate.lhs, lit);
        }
        Ok(())
    }

    /// Adds the latches, whose variables are given.
    fn add_latches(&self, parts: &mut Parts) -> Result<(), Refused> {
        for latch in self.circuit.latches() {
            let lit = self.at(latch.lit);
            let reset = if latch.reset == latch.lit {
                lit
            } else {
                latch.reset
            };
            let next = self.at(latch.next);
            parts.latches.push(Latch { lit, next, reset })?;
        }
        Ok(())
    }

    /// Adds the constraints.
    fn add_constraints(&self, parts: &mut Parts) -> Result<(), Refused> {
        for lit in self.circuit.constraints() {
            parts.constraints.push(self.at(*lit))?;
        }
        Ok(())
    }
}

/// What belongs together: for each input, output and bad literal of the other circuit the position of the first circuit's.
#[derive(Drop)]
struct Matching {
    inputs: Vec<u32>,
    outputs: Vec<u32>,
    bad: Vec<u32>,
}

impl Matching {
    /// What belongs together in the two circuits, which have as many of each.
    fn of<'a>(
        alloc: Global,
        one: &'a AigerFile,
        other: &'a AigerFile,
    ) -> Result<Matching, Refused> {
        let circuit = other.model();
        Ok(Matching {
            inputs: partners(alloc, one, other, SymbolKind::Input, circuit.inputs())?,
            outputs: partners(alloc, one, other, SymbolKind::Output, circuit.outputs())?,
            bad: partners(alloc, one, other, SymbolKind::Bad, circuit.bad())?,
        })
    }
}

/// Two circuits in the miter, and what it has of them so far.
#[derive(Drop)]
struct Halves<'a> {
    one: Half<'a>,
    other: Half<'a>,
    parts: Parts,
}

impl<'a> Halves<'a> {
    /// Nothing of the two circuits yet.
    fn new(alloc: Global, one: &'a Model, other: &'a Model) -> Result<Halves<'a>, Refused> {
        let one = Half::new(alloc, one)?;
        let other = Half::new(alloc, other)?;
        let parts = nothing(alloc);
        Ok(Halves { one, other, parts })
    }

    /// Adds the inputs, of which those at these positions belong together, and gives the latches their variables.
    fn add_inputs(&mut self, places: &[u32]) -> Result<(), Refused> {
        self.one.add_inputs(&mut self.parts)?;
        self.other.take_inputs(&self.parts, places);
        self.one.number_latches(&mut self.parts);
        self.other.number_latches(&mut self.parts);
        Ok(())
    }

    /// Adds the gates of both.
    fn add_gates(&mut self) -> Result<(), Refused> {
        self.one.add_gates(&mut self.parts)?;
        self.other.add_gates(&mut self.parts)
    }

    /// Adds the latches of both.
    fn add_latches(&mut self) -> Result<(), Refused> {
        self.one.add_latches(&mut self.parts)?;
        self.other.add_latches(&mut self.parts)
    }

    /// Adds the constraints of both.
    fn add_constraints(&mut self) -> Result<(), Refused> {
        self.one.add_constraints(&mut self.parts)?;
        self.other.add_constraints(&mut self.parts)
    }

    /// Adds the bad literal, which is set where two that belong together differ.
    fn add_bad(&mut self, matching: &Matching) -> Result<(), Refused> {
        let (one, other) = (self.one.circuit, self.other.circuit);
        let outputs = matching.outputs.as_slice();
        let equal = self.add_all_equal(TRUE, one.outputs(), other.outputs(), outputs)?;
        let equal = self.add_all_equal(equal, one.bad(), other.bad(), matching.bad.as_slice())?;
        self.parts.bad.push(negated(equal))
    }

    /// Adds the two circuits and the literal that says where they differ. Inputs, latches and gates have the numbering of the
    /// binary layout.
    fn join(&mut self, matching: &Matching) -> Result<(), Refused> {
        self.add_inputs(matching.inputs.as_slice())?;
        self.add_gates()?;
        self.add_latches()?;
        self.add_constraints()?;
        self.add_bad(matching)
    }

    /// Adds the gates that say whether this literal is set and the literals that belong together are equal, and answers
    /// their literal. The constant needs none. What belongs to nothing is not equal.
    fn add_all_equal(
        &mut self,
        before: Lit,
        ones: &[Lit],
        others: &[Lit],
        places: &[u32],
    ) -> Result<Lit, Refused> {
        let mut all = before;
        for (position, lit) in others.iter().enumerate() {
            let Some(place) = places.get(position) else {
                return Ok(FALSE);
            };
            let Some(partner) = ones.get(*place as usize) else {
                return Ok(FALSE);
            };
            let (one, other) = (self.one.at(*partner), self.other.at(*lit));
            let equal = add_equal(&mut self.parts, one, other)?;
            all = if all == TRUE {
                equal
            } else {
                add_gate(&mut self.parts, all, equal)?
            };
        }
        Ok(all)
    }
}

/// The miter of two circuits.
fn joined<'a>(alloc: Global, one: &'a AigerFile, other: &'a AigerFile) -> Result<Parts, Refused> {
    let matching = Matching::of(alloc, one, other)?;
    let mut halves = Halves::new(alloc, one.model(), other.model())?;
    halves.join(&matching)?;
    let Halves {
        one: _,
        other: _,
        parts,
    } = halves;
    Ok(parts)
}

/// What a latch is called in the miter: behind the letter its name, or `lo` and its position where it has none.
fn called(
    alloc: Global,
    letter: &str,
    name: &[u8],
    position: u32,
) -> Result<Vec<u8>, TransformError> {
    if name.is_empty() {
        let Ok(text) = format!(in alloc; "{letter}lo{position}") else {
            return Err(TransformError::Name);
        };
        let called = copied(alloc, text.as_bytes())?;
        return Ok(called);
    }
    let mut called = copied(alloc, letter.as_bytes())?;
    extend(&mut called, name)?;
    Ok(called)
}

/// The name of each latch, empty where it has none.
fn latch_names<'a>(alloc: Global, file: &'a AigerFile) -> Result<Vec<&'a [u8]>, Refused> {
    let mut names: Vec<&'a [u8]> = filled_like(alloc, NO_NAME, file.model().latches())?;
    for symbol in file.symbols() {
        if let Some(name) = names.get_mut(symbol.position as usize)
            && symbol.kind == SymbolKind::Latch
        {
            *name = symbol.name.as_slice();
        }
    }
    Ok(names)
}

/// Adds the names of a circuit's latches, which stand in the miter from this position on, and answers the position behind them.
fn add_latches(
    alloc: Global,
    symbols: &mut Vec<Symbol>,
    file: &AigerFile,
    letter: &str,
    first: u32,
) -> Result<u32, TransformError> {
    let names = latch_names(alloc, file)?;
    let mut position = 0u32;
    for name in names.as_slice() {
        let text = called(alloc, letter, *name, position)?;
        let place = first.saturating_add(position);
        add_name(alloc, symbols, SymbolKind::Latch, place, text.as_slice())?;
        position = position.saturating_add(1);
    }
    Ok(first.saturating_add(position))
}

/// Adds the names of a circuit's inputs.
fn add_inputs(alloc: Global, symbols: &mut Vec<Symbol>, file: &AigerFile) -> Result<(), Refused> {
    for symbol in file.symbols() {
        if symbol.kind == SymbolKind::Input {
            let name = symbol.name.as_slice();
            add_name(alloc, symbols, symbol.kind, symbol.position, name)?;
        }
    }
    Ok(())
}

/// Adds the names in the miter: those of the first circuit's inputs, of all latches and of the bad literal.
fn add_names(
    alloc: Global,
    symbols: &mut Vec<Symbol>,
    one: &AigerFile,
    other: &AigerFile,
) -> Result<(), TransformError> {
    add_inputs(alloc, symbols, one)?;
    let latches = add_latches(alloc, symbols, one, FIRST, 0)?;
    add_latches(alloc, symbols, other, SECOND, latches)?;
    add_name(alloc, symbols, SymbolKind::Bad, 0, DIFFERS)?;
    Ok(())
}

/// The file of the miter of two circuits, which have as many inputs, outputs and bad literals each. It has the numbering of the
/// binary layout, and takes time by the length of both and the order of their names.
pub fn miter_of<'a>(
    alloc: Global,
    one: &'a AigerFile,
    other: &'a AigerFile,
) -> Result<AigerFile, TransformError> {
    let parts = joined(alloc, one, other)?;
    let miter = Model::from_parts(alloc, parts)?;
    let mut symbols = Vec::new(alloc);
    add_names(alloc, &mut symbols, one, other)?;
    let file = AigerFile::new(alloc, miter, Seq::from_vec(symbols), None)?;
    Ok(file)
}

//! Names for the variables of a witness: literals of the model, and new variables for what the model has not.

ghost use Rattle.std.specs.Prelude.{IfErr};
ghost use Rattle.witness_pairs.specs.Pairs.{IsOther};

use crate::conjunctions::Conjunctions;
use crate::sizes::MAX_VAR;
use base::{Refused, Seq, filled};
use graph::{Gate, Latch, Lit, Model};
use std::alloc::Global;
use witness_pairs::{PairError, Shared, given_at, latch_of, literal_of, name};

/// What a witness adds to the model: latches and gates of the variables behind the model's.
#[derive(Drop)]
pub struct Addition {
    /// for each variable of the witness the literal that stands for it
    pub names: Vec<Lit>,
    /// the witness's own latches
    pub latches: Seq<Latch>,
    /// gates behind these, each after the gates that it reads
    pub gates: Seq<Gate>,
}

/// Names that are given one after the other.
#[derive(Drop)]
pub struct Naming {
    /// for each variable of the model the first one that has the same value
    pub same: Vec<Lit>,
    conjunctions: Conjunctions,
    /// for each variable of the witness the literal that stands for it
    pub names: Vec<Lit>,
    /// the new gates
    gates: Seq<Gate>,
    /// the greatest variable so far
    last: u32,
}

impl Naming {
    /// No names yet: each variable of the witness is false.
    fn new(alloc: Global, model: &Model, witness: &Model) -> Result<Naming, Refused> {
        witness.well_formed();
        let names = filled(alloc, Lit(0), witness.max_var() as usize + 1)?;
        let mut conjunctions = Conjunctions::new(alloc);
        let same = conjunctions.add_model(alloc, model)?;
        Ok(Naming {
            same,
            conjunctions,
            names,
            gates: Seq::new(alloc),
            last: model.max_var(),
        })
    }

    /// The literal of a new variable.
    fn new_literal(&mut self) -> Result<Lit, PairError>
        ensures { IfErr result IsOther }
    {
        if self.last as usize >= MAX_VAR {
            return Err(PairError::Limit);
        }
        self.last = self.last.saturating_add(1);
        Ok(Lit(self.last.saturating_mul(2)))
    }

    /// The literal of a new gate with these right sides, of which the greater one comes first.
    fn new_gate(&mut self, one: Lit, other: Lit) -> Result<Lit, PairError>
        ensures { IfErr result IsOther }
    {
        let lhs = self.new_literal()?;
        let (rhs0, rhs1) = if one.0 < other.0 {
            (other, one)
        } else {
            (one, other)
        };
        self.gates.push(Gate { lhs, rhs0, rhs1 })?;
        self.conjunctions.add(one, other, lhs)?;
        Ok(lhs)
    }

    /// Gives a gate of the witness the literal that has its value, or else a new variable.
    fn name_gate(&mut self, gate: Gate) -> Result<(), PairError>
        ensures { IfErr result IsOther }
    {
        let one = literal_of(&self.names, gate.rhs0);
        let other = literal_of(&self.names, gate.rhs1);
        let given = match self.conjunctions.literal(one, other) {
            Some(known) => known,
            None => self.new_gate(one, other)?,
        };
        name(self.names.as_mut_slice(), gate.lhs, given);
        Ok(())
    }

    /// Gives the gates of the witness their names, in an order in which each comes after those that it reads.
    fn name_gates(&mut self, witness: &Model) -> Result<(), PairError>
        ensures { IfErr result IsOther }
    {
        for position in witness.order() {
            if let Some(gate) = witness.gates().get(*position as usize) {
                self.name_gate(*gate)?;
            }
        }
        Ok(())
    }

    /// Gives the shared inputs the names of the model's. The other ones are false.
    fn name_inputs(&mut self, witness: &Model, shared: &[Option<Lit>]) {
        for (position, lit) in witness.inputs().iter().enumerate() {
            if let Some(given) = given_at(shared, position) {
                name(self.names.as_mut_slice(), *lit, given);
            }
        }
    }

    /// Gives the latch the name of the model's, or else a new variable.
    fn name_latch(&mut self, latch: Latch, given: Option<Lit>) -> Result<(), PairError>
        ensures { IfErr result IsOther }
    {
        let given = match given {
            Some(given) => given,
            None => self.new_literal()?,
        };
        name(self.names.as_mut_slice(), latch.lit, given);
        Ok(())
    }

    /// Gives the shared latches the names of the model's, and the other ones new variables.
    fn name_latches(&mut self, witness: &Model, shared: &[Option<Lit>]) -> Result<(), PairError>
        ensures { IfErr result IsOther }
    {
        for (position, latch) in witness.latches().iter().enumerate() {
            self.name_latch(*latch, given_at(shared, position))?;
        }
        Ok(())
    }

    /// The names of the witness's variables, where the new ones are within the limit.
    pub fn of(
        alloc: Global,
        model: &Model,
        witness: &Model,
        shared: &Shared,
    ) -> Result<Naming, PairError>
        ensures { IfErr result IsOther }
    {
        let mut naming = Naming::new(alloc, model, witness)?;
        naming.name_inputs(witness, &shared.inputs);
        naming.name_latches(witness, &shared.latches)?;
        naming.name_gates(witness)?;
        Ok(naming)
    }

    /// What the witness adds by these names.
    pub fn addition(
        self,
        alloc: Global,
        witness: &Model,
        shared: &Shared,
    ) -> Result<Addition, Refused> {
        let Naming {
            same: _,
            conjunctions: _,
            names,
            gates,
            last: _,
        } = self;
        let latches = own_latches(alloc, &names, witness.latches(), &shared.latches)?;
        Ok(Addition {
            names,
            latches,
            gates,
        })
    }
}

/// The latches that the witness does not share.
fn own_latches(
    alloc: Global,
    names: &[Lit],
    latches: &[Latch],
    shared: &[Option<Lit>],
) -> Result<Seq<Latch>, Refused> {
    let mut own = Seq::new(alloc);
    for (position, latch) in latches.iter().enumerate() {
        if given_at(shared, position).is_none() {
            own.push(latch_of(names, *latch))?;
        }
    }
    Ok(own)
}

/// What a witness adds, where its names are within the limit, and whether it agrees with the model.
pub fn addition_of(
    alloc: Global,
    model: &Model,
    own: &Model,
    shared: &Shared,
) -> Result<(Addition, bool), PairError>
    ensures { IfErr result IsOther }
{
    let naming = Naming::of(alloc, model, own, shared)?;
    let agrees = naming.agrees(alloc, model, own, shared)?;
    let addition = naming.addition(alloc, own, shared)?;
    Ok((addition, agrees))
}

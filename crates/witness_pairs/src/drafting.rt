//! A circuit of inputs and gates, made one after another.

ghost use Rattle.std.specs.Prelude.{◌≡◌, ◌+◌, ◌≤◌, ◌&&◌, ◌++◌, ◌∷◌, [], not, IfErr, IfOk, OnOk};
ghost use Rattle.graph.specs.Circuits.{Valuation, value_of};
ghost use Rattle.witness_pairs.specs.Drafts.{Follows, GoesOn, IsUnasked, all_true, same};

use crate::renaming::flipped;
use base::Seq;
use graph::{Gate, Lit, MOST_VARIABLES, Model, Parts};
use std::alloc::Global;
use witness_circuits::MakeError;

/// The greatest variable that a circuit may have.
const MAX_VAR: usize = MOST_VARIABLES as usize;

/// The literal that is always true.
pub const TRUE: Lit = Lit(1);

/// Inputs and gates that are made one after another, of the variables 1, 2 and so on.
#[derive(Drop)]
pub struct Draft {
    /// the last variable so far
    pub last: u32,
    /// the inputs so far
    pub inputs: Seq<Lit>,
    /// the gates so far
    pub gates: Seq<Gate>,
}

impl Draft {
    /// Nothing.
    pub fn new(alloc: Global) -> Draft
        ensures { result ≡ record { last = 0; inputs = []; gates = [] } }
    {
        Draft {
            last: 0,
            inputs: Seq::new(alloc),
            gates: Seq::new(alloc),
        }
    }

    /// The literal of the next variable, where that is within the limit.
    pub fn fresh(&mut self) -> Result<Lit, MakeError>
        ensures made { OnOk result (self.new ≡ record self.old { last = self.old.last + 1 }) }
        ensures limit { IfErr result (λ _. 4194303 ≤ self.old.last) }
        ensures refused { IfErr result IsUnasked }
    {
        if self.last as usize >= MAX_VAR {
            return Err(MakeError::Limit);
        }
        self.last += 1;
        Ok(Lit(2 * self.last))
    }

    /// The literal of an input more.
    pub fn input(&mut self) -> Result<Lit, MakeError>
        ensures gates { OnOk result (self.new.gates ≡ self.old.gates) }
        ensures refused { IfErr result IsUnasked }
    {
        let lit = self.fresh()?;
        self.inputs.push(lit)?;
        Ok(lit)
    }

    /// The literal of a gate more, the conjunction of the two.
    pub fn and(&mut self, one: Lit, other: Lit) -> Result<Lit, MakeError>
        ensures gate { IfOk result (λ c. self.new.gates ≡ self.old.gates ++ record { lhs = c; rhs0 = one; rhs1 = other } ∷ []) }
        ensures refused { IfErr result IsUnasked }
    {
        let lhs = self.fresh()?;
        self.gates.push(Gate {
            lhs,
            rhs0: one,
            rhs1: other,
        })?;
        Ok(lhs)
    }

    /// The literal that says, by three gates more, that the two are equal.
    pub fn equal(&mut self, one: Lit, other: Lit) -> Result<Lit, MakeError>
        ensures goes_on { OnOk result (GoesOn self.old.gates self.new.gates) }
        ensures value { IfOk result (λ c. (x : Valuation) → Follows self.new.gates x → value_of x c ≡ same (value_of x one) (value_of x other)) }
        ensures refused { IfErr result IsUnasked }
    {
        let not_one = flipped(one);
        let not_other = flipped(other);
        let first = self.and(one, not_other)?;
        let second = self.and(not_one, other)?;
        let not_first = flipped(first);
        let not_second = flipped(second);
        let equal = self.and(not_first, not_second)?;
        Ok(equal)
    }

    /// The literal that says, by a gate more for each, that all of them are true.
    pub fn all(&mut self, lits: &[Lit]) -> Result<Lit, MakeError>
        ensures goes_on { OnOk result (GoesOn self.old.gates self.new.gates) }
        ensures value { IfOk result (λ c. (x : Valuation) → Follows self.new.gates x → value_of x c ≡ all_true x lits.now) }
        ensures refused { IfErr result IsUnasked }
    {
        let mut so_far = TRUE;
        for lit in lits {
            let joined = self.and(so_far, *lit)?;
            so_far = joined;
        }
        Ok(so_far)
    }

    /// The literal that says that all of the first are true, and one of the others is not.
    pub fn breaks(&mut self, given: &[Lit], wanted: &[Lit]) -> Result<Lit, MakeError>
        ensures value { IfOk result (λ c. (x : Valuation) → Follows self.new.gates x → value_of x c ≡ (all_true x given.now && not (all_true x wanted.now))) }
        ensures goes_on { OnOk result (GoesOn self.old.gates self.new.gates) }
        ensures refused { IfErr result IsUnasked }
    {
        let are_given = self.all(given)?;
        let are_wanted = self.all(wanted)?;
        let not_wanted = flipped(are_wanted);
        let breaks = self.and(are_given, not_wanted)?;
        Ok(breaks)
    }

    /// The circuit with this one bad literal.
    pub fn model(self, alloc: Global, bad: Lit) -> Result<Model, MakeError>
        ensures made { IfOk result (λ m. m ≡ record { max_var = self.last; inputs = self.inputs; latches = []; outputs = []; bad = bad ∷ []; constraints = []; justice = []; fairness = []; gates = self.gates }) }
        ensures refused { IfErr result IsUnasked }
    {
        let Draft {
            last,
            inputs,
            gates,
        } = self;
        let model = Model::from_parts(
            alloc,
            Parts {
                max_var: last,
                inputs,
                latches: Seq::new(alloc),
                outputs: Seq::new(alloc),
                bad: Seq::from_slice(alloc, &[bad])?,
                constraints: Seq::new(alloc),
                justice: Seq::new(alloc),
                fairness: Seq::new(alloc),
                gates,
            },
        )?;
        Ok(model)
    }
}

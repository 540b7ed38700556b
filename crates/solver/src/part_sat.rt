//! What a solver keeps to that answers a question by part of its clauses.

ghost use Rattle.std.specs.Prelude.{◌≡◌, All, IfOk, IfErr};
ghost use Rattle.base.specs.Budget.{Spends};
ghost use Rattle.lrat.specs.Literals.{IsLiteral};
ghost use Rattle.solver.specs.Parts.{IsLawfulPart};
ghost use Rattle.solver.specs.declared.sat_error.SatError.TheVariants.{Limit};
ghost use Rattle.solver.specs.Full.{full};

use crate::answer::Answer;
use crate::part::Part;
use crate::sat::Sat;
use crate::sat_error::SatError;
use base::Budget;
use std::alloc::Global;

/// A solver that has clauses of a large circuit, and answers a question about a few of its gates at
/// the cost of these.
pub trait PartSat: Sat {
    /// As `solve`, but that the values it finds are wanted of this part alone: each gate of it has its value by its
    /// right sides, and each literal of it is true. A variable of the part is decided, and no other; what stands at the
    /// places of others means nothing, and their clauses may be false. A core is one of all clauses. Where the clauses do not
    /// settle the part, since those of its gates are not among them, it may go on until the budget is exhausted.
    fn solve_part(
        &mut self,
        alloc: Global,
        part: &Part,
        assume: &[i32],
        budget: &mut Budget,
    ) -> Result<Answer, SatError>
        requires { All (IsLiteral (Self.vars self.old)) assume.now }
        ensures vars { Self.vars self.new ≡ Self.vars self.old }
        ensures clauses { Self.clauses self.new ≡ Self.clauses self.old }
        ensures spends { Spends budget.old budget.new }
        ensures lawful { IfOk result (IsLawfulPart (Self.vars self.old) (Self.clauses self.old) part.now assume.now budget.new) }
        ensures limit { IfErr result (λ e. e ≡ Limit full → Self.is_full self.new) };
}

//! What marks say of a circuit's values, as laws: no call of the search makes these functions run.

ghost use Rattle.cones.specs.Marks.{LiftingLaw, LiftedLaw, ConeLaw, ExistenceLaw};
ghost use Rattle.cones.specs.Partial.{PartialLaw, CompletionLaw, AnswerLaw, PartLaw, GrowthLaw, ListedLaw, ModelLaw};

use graph::Model;

/// Valuations that are the same at the leaves of a justification, or of a cone, are the same at all of it.
pub fn value_laws(circuit: &Model)
    ensures lifting { LiftingLaw circuit.now }
    ensures lifted { LiftedLaw circuit.now }
    ensures cone { ConeLaw circuit.now }
    ensures existence { ExistenceLaw circuit.now }
{
    circuit.well_formed();
    circuit.order();
}

/// What satisfies the clauses of a cone alone extends to a valuation of the whole circuit.
pub fn clause_laws(circuit: &Model)
    ensures partial { PartialLaw circuit.now }
    ensures completion { CompletionLaw circuit.now }
    ensures answer { AnswerLaw circuit.now }
    ensures part { PartLaw }
    ensures growth { GrowthLaw circuit.now }
    ensures listed { ListedLaw circuit.now }
    ensures served { ModelLaw circuit.now }
{
    circuit.well_formed();
    circuit.order();
}

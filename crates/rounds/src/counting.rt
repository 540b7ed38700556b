//! One number of rounds after the other.

ghost use Rattle.std.specs.Prelude.{◌≡◌, ◌+◌, ◌*◌, ◌^◌, ◌<◌, ◌≤◌, length, IfOk, IfErr, OnOk};
ghost use Rattle.base.specs.Budget.{Spends};
ghost use Rattle.graph.specs.Circuits.{HasProperty};
ghost use Rattle.graph.specs.declared.circuit.Property.TheVariants.{Justice};
ghost use Rattle.verdict.specs.Causes.{HasCause};
ghost use Rattle.rounds.specs.Counted.{IsBacked, IsMeant};

use crate::asking::{Tried, try_rounds};
use crate::counted::{Cause, Counted};
use crate::progress::RoundsProgress;
use base::Budget;
use engine::Engine;
use extension::are_few_rounds;
use graph::{Model, Property};
use std::alloc::Global;
use verdict::DecideError;

/// The number that is asked about behind this one.
fn next_of(rounds: u32) -> u32
    requires fits { rounds ≤ 4194303 }
    ensures first { rounds ≡ 0 → result ≡ 1 }
    ensures later { 0 < rounds → result ≡ 2 * rounds }
{
    if rounds == 0 { 1 } else { 2 * rounds }
}

/// Looks for a number of rounds of a justice property beyond which no run of the circuit that keeps the constraints goes: 0, 1, 2, 4
/// and so on. The engine is asked about the circuit that counts so many rounds, and is not believed: clauses that it finds are
/// proved, and the text of the certificate is answered only where it is accepted; a run that it finds is replayed, and
/// then the next number is asked about. A refusal of the engine ends the call.
///
/// A property that isn't there is refused before all else. Where nothing is known, as where the circuit that counts the next
/// number has too many variables, the answer has a number of rounds that a run holds.
///
/// Beside what the engine costs it takes, for each number, a copy of the circuit with three variables more for each round, the
/// replay of a run, and in the end the certificate.
pub fn decide_rounds<E: Engine, P: RoundsProgress>(
    alloc: Global,
    circuit: &Model,
    position: u32,
    engine: &mut E,
    progress: &mut P,
    budget: &mut Budget,
) -> Result<Counted, DecideError>
    ensures spends { Spends budget.old budget.new }
    // Whatever engine was handed in, what is answered has its evidence.
    ensures backed { IfOk result (IsBacked circuit.now position) }
    // Where it is honest, the unknown means what it says.
    ensures meant { E.honest engine.old → IfOk result (IsMeant circuit.now position budget.new) }
    ensures exists { OnOk result (HasProperty circuit.now (Justice position)) }
    ensures refused { IfErr result (HasCause circuit.now (Justice position)) }
{
    if !circuit.parts().has_property(Property::Justice(position)) {
        return Err(DecideError::NoProperty(position));
    }
    let latches = circuit.latches().len();
    let mut rounds = 0;
    let mut held = 0;
    'counting: while budget.tick() {
        progress.rounds_begun(rounds, budget);
        match try_rounds(engine, alloc, circuit, position, rounds, budget)? {
            Tried::Bounded(certificate) => {
                return Ok(Counted::Bounded {
                    rounds,
                    certificate,
                });
            }
            Tried::Unknown(cause) => return Ok(Counted::Unknown { cause, held }),
            Tried::TooLarge => {
                let cause = Cause::Variables;
                return Ok(Counted::Unknown { cause, held });
            }
            Tried::Exceeded => held = rounds + 1,
        }
        rounds = next_of(rounds);
        if !are_few_rounds(rounds, latches) {
            let cause = Cause::Unbounded;
            return Ok(Counted::Unknown { cause, held });
        }
    }
    let cause = Cause::Budget;
    Ok(Counted::Unknown { cause, held })
}

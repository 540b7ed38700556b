//! From a witness circuit to latches, gates and clauses.

ghost use Rattle.std.specs.Prelude.{◌≡◌, ◌⊎◌, ◌≤◌, [], IfErr, IfOk, drop, length, take};
ghost use Rattle.extension.specs.Extended.{IsExtension};
ghost use Rattle.witness_pairs.specs.Pairs.{IsRefused};
ghost use Rattle.witness_adoption.specs.Adoptions.{AreAdopted, IsAdopted};

use base::{Lists, Refused, Seq};
use extension::is_extension;
use graph::{Gate, Latch, Lit, Model};
use std::alloc::Global;
use witness_additions::{Addition, Trimmed, Wanted, addition_of, trim};
use witness_circuits::variables_left;
use witness_pairs::{PairError, Shared, bad_of};

/// What a witness circuit adds to the model, and what is to be inductive.
#[derive(Drop)]
pub struct Adopted {
    /// latches of the witness's own, of the variables behind the model's
    pub latches: Seq<Latch>,
    /// gates that the model has not, of the variables behind those, each after the gates that it reads
    pub gates: Seq<Gate>,
    /// that the witness's bad literal is 0, and then that each of its constraints is 1
    pub invariant: Lists<Lit>,
    /// how many clauses say that the bad literal is 0
    pub of_property: usize,
    /// whether the witness has no input of its own, no reset that is a function, the model's constraints, and the next
    /// literal and the reset of each latch that it shares, by what structural hashing finds to be the same
    pub agrees: bool,
}

/// How many of the gates are kept: those that are needed, where these come first and all gates extend the model with
/// the latches, or else all.
fn kept_of(model: &Model, latches: &Seq<Latch>, gates: &Seq<Gate>, needed: usize) -> usize
    ensures few { result ≤ length gates.now }
    ensures extends { (drop result gates.now ≡ []) ⊎ IsExtension model.now latches.now gates.now }
{
    model.well_formed();
    let Some(_) = variables_left(model.max_var(), latches.len(), gates.len()) else {
        return gates.len();
    };
    if is_extension(model.parts(), latches.as_slice(), gates.as_slice()) {
        needed.min(gates.len())
    } else {
        gates.len()
    }
}

/// The first ones of the gates.
fn first_of(alloc: Global, gates: &Seq<Gate>, count: usize) -> Result<Seq<Gate>, Refused>
    requires { count ≤ length gates.now }
    ensures { IfOk result (λ s. s ≡ take count gates.now) }
{
    let first = Seq::from_slice(alloc, &gates.as_slice()[..count])?;
    Ok(first)
}

/// The addition without what the witness's bad literal and constraints do not need once they are clauses.
fn trimmed_of(
    alloc: Global,
    model: &Model,
    witness: &Model,
    bad: Lit,
    addition: &Addition,
) -> Result<Trimmed, Refused> {
    let wanted = Wanted::of(
        alloc,
        model,
        &addition.names,
        addition.gates.as_slice(),
        bad,
        witness.constraints(),
    )?;
    let first = model.max_var().saturating_add(1);
    trim(alloc, addition, first, &wanted.clauses)
}

/// What is adopted of an addition.
fn adopted_of(
    alloc: Global,
    model: &Model,
    witness: &Model,
    bad: Lit,
    trimmed: Trimmed,
    agrees: bool,
) -> Result<Adopted, Refused>
    ensures { IfOk result (λ x. AreAdopted model.now witness.now bad x.latches x.gates x.of_property x.invariant) }
{
    let Trimmed { addition, needed } = trimmed;
    let Addition {
        names,
        latches,
        gates,
    } = addition;
    let constraints = witness.constraints();
    let Wanted {
        clauses,
        of_property,
    } = Wanted::of(alloc, model, &names, gates.as_slice(), bad, constraints)?;
    let kept = kept_of(model, &latches, &gates, needed);
    let gates = first_of(alloc, &gates, kept)?;
    Ok(Adopted {
        latches,
        gates,
        invariant: clauses,
        of_property,
        agrees,
    })
}

/// What a witness circuit adds to the model, and what is to be inductive then: latches of its own, gates, and clauses
/// that say that its bad literal is 0 and its constraints are 1. A shared input or latch is the model's; an input of the
/// witness alone is 0, since its property has to hold whatever that is. A gate that has the right sides of another one,
/// of the model or of the witness, is that one. What the clauses do not need is left out. Nothing is believed of the
/// witness.
///
/// Refused are first a witness with another number of bad literals than one, then more than 4,194,303 variables, with those
/// of what is left out. It costs both circuits.
pub fn adopt(
    alloc: Global,
    model: &Model,
    witness: &Model,
    shared: &Shared,
) -> Result<Adopted, PairError>
    ensures clauses { IfOk result (λ x. IsAdopted model.now witness.now x.latches x.gates x.of_property x.invariant) }
    ensures refused { IfErr result (IsRefused witness.now) }
{
    let bad = bad_of(witness)?;
    let (addition, agrees) = addition_of(alloc, model, witness, shared)?;
    let trimmed = trimmed_of(alloc, model, witness, bad, &addition)?;
    let adopted = adopted_of(alloc, model, witness, bad, trimmed, agrees)?;
    Ok(adopted)
}

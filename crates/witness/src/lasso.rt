//! Where a lasso first closes.

ghost use Rattle.std.specs.Prelude.{◌≡◌, ◌≤◌, ◌<◌, ◌↔◌, ◌∷◌, ◌++◌, [], Bool, List, All, length, replicate, IsSome, IsTrue, Some, IfErr, IfOk, MatchOption};
ghost use Rattle.graph.specs.declared.circuit.Property.TheVariants.{Justice};
ghost use Rattle.graph.specs.Circuits.{Valuation, wanted_of, variable};
ghost use Rattle.stimulus.specs.Causes.{HasFitLines};
ghost use Rattle.witness.specs.Cutting.{Closes, EndsFirst, IsNoStart, NeverEnds, NeverShows, ShowsFirst};
ghost use Rattle.witness.specs.Lassos.{AreAbove, HasSeen, IsFirstAt, Notes};

use base::{Refused, Seq, copied, extend, filled_like, insert};
use graph::{Lit, Model, Parts};
use simulate::Replay;
use std::alloc::Global;
use std::collections::BTreeMap;
use stimulus::JudgeError;

/// The literals of a justice property, then the fairness literals.
fn wanted(alloc: Global, parts: &Parts, j: u32) -> Result<Vec<Lit>, Refused>
    requires { j < length parts.now.justice }
    ensures { IfOk result (λ v. v.items ≡ wanted_of parts.now j) }
{
    let mut wanted = Vec::new(alloc);
    let lits = &parts.justice.as_slice()[j as usize];
    extend(&mut wanted, lits.as_slice())?;
    extend(&mut wanted, parts.fairness.as_slice())?;
    Ok(wanted)
}

/// Notes, of each literal that is set at the time stepped last, how many times have passed.
fn note_set(replay: &Replay<'_>, wanted: &[Lit], passed: usize, last: &mut [usize])
    requires stepped { IsSome replay.now.now }
    requires in_range { All (λ a. variable a ≤ replay.now.circuit.max_var) wanted.now }
    requires lengths { length last.old ≡ length wanted.now }
    ensures { (w : Valuation) → replay.now.now ≡ Some w → Notes wanted.now w passed last.old last.new }
{
    for (k, lit) in wanted.iter().enumerate() {
        if replay.value(*lit) {
            last[k] = passed;
        }
    }
}

/// Whether each literal was set after as many times had passed.
fn are_set_since(last: &[usize], first: usize) -> bool
    ensures { IsTrue result ↔ AreAbove last.now first }
{
    for passed in last {
        if *passed <= first {
            return false;
        }
    }
    true
}

/// Whether the state was there before, after `first` times, and each literal was set since.
fn closes(last: &[usize], first: usize, passed: usize) -> bool
    ensures { IsTrue result ↔ ((first < passed) × AreAbove last.now first) }
{
    first < passed && are_set_since(last, first)
}

/// How many times had passed when the state was first there. A state that is new is noted.
fn first_passed(
    alloc: Global,
    seen: &mut BTreeMap<Vec<bool>, usize>,
    state: &[bool],
    passed: usize,
) -> Result<usize, Refused>
    ensures { (states : List (List Bool)) → length states ≡ passed → HasSeen seen.old states → IfOk result (λ first. HasSeen seen.new (states ++ state.now ∷ []) × IsFirstAt (states ++ state.now ∷ []) state.now first) }
{
    let state = copied(alloc, state)?;
    if let Some(first) = seen.get(&state) {
        return Ok(*first);
    }
    insert(seen, state, passed)?;
    Ok(passed)
}

/// How many times pass until the replay closes a lasso in which each literal is set. No literal was set yet, and only the first
/// state seen.
fn times_to_close(
    alloc: Global,
    replay: &mut Replay<'_>,
    wanted: &[Lit],
    seen: &mut BTreeMap<Vec<bool>, usize>,
    last: &mut [usize],
    lines: &[Seq<bool>],
) -> Result<Option<usize>, Refused>
    requires lengths { All (λ line. length line ≡ length replay.old.circuit.inputs) lines.now }
    requires in_range { All (λ a. variable a ≤ replay.old.circuit.max_var) wanted.now }
    requires seen { HasSeen seen.old (replay.old.state ∷ []) }
    requires last { last.old ≡ replicate (length wanted.now) 0 }
    ensures { IfOk result (λ times. MatchOption times (NeverEnds (Closes replay.old.circuit wanted.now) replay.old.circuit replay.old.state lines.now) (EndsFirst (Closes replay.old.circuit wanted.now) replay.old.circuit replay.old.state lines.now)) }
{
    for (t, line) in lines.iter().enumerate() {
        replay.step(line.as_slice());
        note_set(replay, wanted, t + 1, last);
        let first = first_passed(alloc, seen, replay.state(), t + 1)?;
        if closes(last, first, t + 1) {
            return Ok(Some(t + 1));
        }
    }
    Ok(None)
}

/// How many times pass until the replay, from its first state on, closes a lasso in which each literal is set.
fn times_to_lasso(
    alloc: Global,
    replay: &mut Replay<'_>,
    wanted: &[Lit],
    lines: &[Seq<bool>],
) -> Result<Option<usize>, Refused>
    requires lengths { All (λ line. length line ≡ length replay.old.circuit.inputs) lines.now }
    requires in_range { All (λ a. variable a ≤ replay.old.circuit.max_var) wanted.now }
    ensures { IfOk result (λ times. MatchOption times (NeverEnds (Closes replay.old.circuit wanted.now) replay.old.circuit replay.old.state lines.now) (EndsFirst (Closes replay.old.circuit wanted.now) replay.old.circuit replay.old.state lines.now)) }
{
    let mut seen = BTreeMap::new(alloc);
    let mut last = filled_like(alloc, 0, wanted)?;
    first_passed(alloc, &mut seen, replay.state(), 0)?;
    times_to_close(alloc, replay, wanted, &mut seen, &mut last, lines)
}

/// How many times pass until the run of these lines first closes a lasso of the justice property.
pub fn first_lasso(
    alloc: Global,
    circuit: &Model,
    j: u32,
    initial: &[bool],
    lines: &[Seq<bool>],
) -> Result<Option<usize>, JudgeError>
    requires there { j < length circuit.now.justice }
    requires fit { HasFitLines circuit.now initial.now lines.now }
    ensures first { IfOk result (λ times. MatchOption times (NeverShows circuit.now (Justice j) initial.now lines.now) (ShowsFirst circuit.now (Justice j) initial.now lines.now)) }
    ensures refused { IfErr result (IsNoStart circuit.now initial.now) }
{
    let wanted = wanted(alloc, circuit.parts(), j)?;
    let mut replay = Replay::new(alloc, circuit, initial)?;
    Ok(times_to_lasso(alloc, &mut replay, &wanted, lines)?)
}

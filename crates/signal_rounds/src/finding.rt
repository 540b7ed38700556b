//! The clauses of equal signals.

ghost use Rattle.std.specs.Prelude.{◌≡◌, ◌≤◌, IfOk};
ghost use Rattle.base.specs.Budget.{Spends};
ghost use Rattle.graph.specs.Circuits.{variable};
ghost use Rattle.signal_rounds.specs.declared.asking.Round.TheVariants.{Spent as RoundSpent};
ghost use Rattle.signal_rounds.specs.declared.finding.Found.TheVariants.{Spent};

use crate::asking::Round;
use crate::search::Search;
use base::{Budget, Refused, Seq};
use engine::Progress;
use graph::{Lit, Model};
use sequential_cones::cone_of;
use signal_classes::{Classes, Pair};
use solver::{PartSat, SatError};
use std::alloc::Global;

/// Implications are looked for with one of so many parts of what is left of the budget.
const IMPLIED_PARTS: u64 = 2;

/// How many steps that may cost, times the circuit's variables.
const IMPLIED_STEPS: u64 = 12_000_000_000;

/// In a circuit with more variables they are not looked for: it takes so many steps to sample its signals.
const MOST_VARIABLES: u32 = 10_000;

/// What is found of a circuit's signals.
#[derive(Drop)]
pub enum Found {
    /// Clauses that say which signals are equal, and which are true wherever others are. They exclude the literal.
    Clauses(Seq<Seq<Lit>>),
    /// Signals that are equal don't exclude the literal, nor do implications, as far as these were looked for.
    Open,
    /// The circuit at two times has too many variables.
    Variables,
    /// The budget is exhausted.
    Spent,
}

/// What rounds of induction end in: with classes that stay, with the first ones that don't exclude the literal, or where the
/// budget is exhausted.
fn induce<S: PartSat, P: Progress>(
    solver: &mut S,
    alloc: Global,
    search: &mut Search,
    bad: Lit,
    progress: &mut P,
    budget: &mut Budget,
) -> Result<Round, SatError>
    ensures spends { Spends budget.old budget.new }
    ensures spent { IfOk result (λ r. r ≡ RoundSpent → budget.new.left ≡ 0) }
{
    let mut rounds = 0_u64;
    'inducing: while budget.tick() {
        rounds = rounds.saturating_add(1);
        progress.round_begun(rounds, search.classes.count(), budget);
        match search.ask_all(solver, alloc, true, bad, budget)? {
            Round::Split => {}
            ended => return Ok(ended),
        }
    }
    Ok(Round::Spent)
}

/// What the rounds end in, behind simulation and a look at the first states.
fn correspond<S: PartSat, P: Progress>(
    solver: &mut S,
    alloc: Global,
    search: &mut Search,
    bad: Lit,
    progress: &mut P,
    budget: &mut Budget,
) -> Result<Round, SatError>
    ensures spends { Spends budget.old budget.new }
    ensures spent { IfOk result (λ r. r ≡ RoundSpent → budget.new.left ≡ 0) }
{
    search.simulate(alloc, budget)?;
    if !search.excludes(bad) {
        return Ok(Round::Open);
    }
    match search.ask_all(solver, alloc, false, bad, budget)? {
        Round::Spent => Ok(Round::Spent),
        Round::Open => Ok(Round::Open),
        _ => induce(solver, alloc, search, bad, progress, budget),
    }
}

/// The clauses of the classes, without those that follow at each time from others.
fn needed<S: PartSat>(
    solver: &mut S,
    alloc: Global,
    search: &Search,
    budget: &mut Budget,
) -> Result<Found, SatError>
    ensures spends { Spends budget.old budget.new }
    ensures spent { IfOk result (λ r. r ≡ Spent → budget.new.left ≡ 0) }
{
    match search.ask_now(solver, alloc, budget)? {
        Some(places) => {
            let mut clauses = search.classes.clauses(alloc, places.as_slice())?;
            search.implications.push_clauses(alloc, &mut clauses)?;
            Ok(Found::Clauses(clauses))
        }
        None => Ok(Found::Spent),
    }
}

/// What is found where the rounds ended so.
fn found_of<S: PartSat>(
    solver: &mut S,
    alloc: Global,
    search: &Search,
    round: Round,
    budget: &mut Budget,
) -> Result<Found, SatError>
    requires spent { round ≡ RoundSpent → budget.old.left ≡ 0 }
    ensures spends { Spends budget.old budget.new }
    ensures spent { IfOk result (λ r. r ≡ Spent → budget.new.left ≡ 0) }
{
    match round {
        Round::Stays => needed(solver, alloc, search, budget),
        Round::Spent => Ok(Found::Spent),
        Round::Open | Round::Split => Ok(Found::Open),
    }
}

/// What is found by a search that has no run yet.
fn found_by<S: PartSat, P: Progress>(
    solver: &mut S,
    alloc: Global,
    search: &mut Search,
    bad: Lit,
    progress: &mut P,
    budget: &mut Budget,
) -> Result<Found, SatError>
    ensures spends { Spends budget.old budget.new }
    ensures spent { IfOk result (λ r. r ≡ Spent → budget.new.left ≡ 0) }
{
    let round = correspond(solver, alloc, search, bad, progress, budget)?;
    found_of(solver, alloc, search, round, budget)
}

/// A search through the signals of the circuit, in which those of which the literal is made may be equal. None where the circuit
/// at both times cannot run.
fn search_for<'a>(
    alloc: Global,
    circuit: &'a Model,
    pair: &'a Pair,
    bad: Lit,
) -> Result<Option<Search<'a>>, Refused>
    requires { variable bad ≤ circuit.now.max_var }
{
    let marks = cone_of(alloc, circuit, bad)?;
    let classes = Classes::new(alloc, circuit, pair, marks.as_slice(), bad)?;
    Search::new(alloc, circuit, pair, classes)
}

/// What is found of the signals of the circuit, which is the pair's.
fn found_in<S: PartSat, P: Progress>(
    alloc: Global,
    circuit: &Model,
    pair: &Pair,
    bad: Lit,
    solver: &mut S,
    progress: &mut P,
    budget: &mut Budget,
) -> Result<Found, SatError>
    requires { variable bad ≤ circuit.now.max_var }
    ensures spends { Spends budget.old budget.new }
    ensures spent { IfOk result (λ r. r ≡ Spent → budget.new.left ≡ 0) }
{
    let Some(mut search) = search_for(alloc, circuit, pair, bad)? else {
        return Ok(Found::Open);
    };
    match found_by(solver, alloc, &mut search, bad, progress, budget)? {
        Found::Open if circuit.max_var() <= MOST_VARIABLES => found_behind(
            alloc, circuit, pair, bad, solver, progress, budget,
        ),
        found => Ok(found),
    }
}

/// What is found with implications and a part of the budget.
fn found_behind<S: PartSat, P: Progress>(
    alloc: Global,
    circuit: &Model,
    pair: &Pair,
    bad: Lit,
    solver: &mut S,
    progress: &mut P,
    budget: &mut Budget,
) -> Result<Found, SatError>
    requires { variable bad ≤ circuit.now.max_var }
    ensures spends { Spends budget.old budget.new }
    ensures spent { IfOk result (λ r. r ≡ Spent → budget.new.left ≡ 0) }
{
    let most = IMPLIED_STEPS / u64::from(circuit.max_var()).max(1);
    let mut piece = Budget::new((budget.left() / IMPLIED_PARTS).min(most));
    let found = found_implied(alloc, circuit, pair, bad, solver, progress, &mut piece)?;
    budget.spend(piece.spent());
    match found {
        Found::Spent => Ok(Found::Open),
        found => Ok(found),
    }
}

/// What the rounds end in with implications: in the end they are shown by no others than they need.
fn induce_implied<S: PartSat, P: Progress>(
    solver: &mut S,
    alloc: Global,
    search: &mut Search,
    bad: Lit,
    progress: &mut P,
    budget: &mut Budget,
) -> Result<Round, SatError>
    ensures spends { Spends budget.old budget.new }
    ensures spent { IfOk result (λ r. r ≡ RoundSpent → budget.new.left ≡ 0) }
{
    match induce(solver, alloc, search, bad, progress, budget)? {
        Round::Stays => {}
        ended => return Ok(ended),
    }
    search.implications.forget();
    induce(solver, alloc, search, bad, progress, budget)
}

/// What the rounds end in with implications, where the first states keep to those that are used.
fn correspond_implied<S: PartSat, P: Progress>(
    solver: &mut S,
    alloc: Global,
    search: &mut Search,
    bad: Lit,
    progress: &mut P,
    budget: &mut Budget,
) -> Result<Round, SatError>
    ensures spends { Spends budget.old budget.new }
    ensures spent { IfOk result (λ r. r ≡ RoundSpent → budget.new.left ≡ 0) }
{
    'corresponding: while budget.tick() {
        match induce_implied(solver, alloc, search, bad, progress, budget)? {
            Round::Stays => {}
            ended => return Ok(ended),
        }
        match search.ask_all(solver, alloc, false, bad, budget)? {
            Round::Split => {}
            ended => return Ok(ended),
        }
    }
    Ok(Round::Spent)
}

/// What is found of the signals of the circuit with implications.
fn found_implied<S: PartSat, P: Progress>(
    alloc: Global,
    circuit: &Model,
    pair: &Pair,
    bad: Lit,
    solver: &mut S,
    progress: &mut P,
    budget: &mut Budget,
) -> Result<Found, SatError>
    requires { variable bad ≤ circuit.now.max_var }
    ensures spends { Spends budget.old budget.new }
    ensures spent { IfOk result (λ r. r ≡ Spent → budget.new.left ≡ 0) }
{
    let Some(mut search) = search_for(alloc, circuit, pair, bad)? else {
        return Ok(Found::Open);
    };
    search.simulate(alloc, budget)?;
    search.sample(alloc, bad, budget)?;
    if search.implications.len() == 0 || !search.excludes(bad) {
        return Ok(Found::Open);
    }
    match search.ask_all(solver, alloc, false, bad, budget)? {
        Round::Spent => return Ok(Found::Spent),
        Round::Open => return Ok(Found::Open),
        Round::Stays | Round::Split => {}
    }
    let round = correspond_implied(solver, alloc, &mut search, bad, progress, budget)?;
    found_of(solver, alloc, &search, round, budget)
}

/// Looks for signals of the circuit that are equal at each time, and exclude the literal; where they don't, for signals that are true
/// wherever others are too, with half of what is left of the budget and a limit. Neither the solver nor what is found is
/// believed: whoever asks proves the clauses. A literal of a variable that the circuit does not have is not looked at.
///
/// It takes the circuit twice, with its clauses.
pub fn find_equal_signals<S: PartSat, P: Progress>(
    alloc: Global,
    circuit: &Model,
    bad: Lit,
    solver: &mut S,
    progress: &mut P,
    budget: &mut Budget,
) -> Result<Found, SatError>
    ensures spends { Spends budget.old budget.new }
    // A budget that is said to be exhausted is.
    ensures spent { IfOk result (λ r. r ≡ Spent → budget.new.left ≡ 0) }
{
    if bad.variable() > circuit.max_var() {
        return Ok(Found::Open);
    }
    match Pair::of(alloc, circuit)? {
        Some(pair) => found_in(alloc, circuit, &pair, bad, solver, progress, budget),
        None => Ok(Found::Variables),
    }
}

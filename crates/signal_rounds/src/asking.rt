//! Asking a solver whether signals are equal.

ghost use Rattle.std.specs.Prelude.{◌≡◌, IfOk, OnOk, None, false};
ghost use Rattle.base.specs.Budget.{Spends};
ghost use Rattle.signal_rounds.specs.declared.asking.Round.TheVariants.{Spent};

use crate::implied::{add_implication, ask_implication};
use crate::parts::{Parts, Taken};
use crate::search::Search;
use base::{Budget, Refused, copied, push};
use graph::{Gate, Latch, Lit};
use signal_classes::Equal;
use solver::{Answer, PartSat, Sat, SatError};
use std::alloc::Global;

/// How many steps a question about a few gates may cost.
const NEAR_STEPS: u64 = 2_000;

/// How many steps a question may cost behind that.
const MOST_STEPS: u64 = 300_000;

/// How many steps the question about the literal may cost that stands before those about equal signals.
const SOON_STEPS: u64 = 20_000;

/// A circuit is large where it has more variables than this.
const LARGE: u32 = 4_000;

/// Of so many signals of a large circuit three may be first in their classes.
const SIGNALS: usize = 5;

/// So many gates are made, or gathered for a question, for one step of the budget.
const GATES_A_STEP: usize = 8;

/// What a round says of the classes and implications.
#[derive(Clone, Copy)]
pub(crate) enum Round {
    /// Signals that are equal stay equal, and what implies others still does.
    Stays,
    /// A class was split, or an implication violated.
    Split,
    /// The classes don't exclude the literal, so no later ones do; or they are so many that it is not worth while to go on.
    Open,
    /// The budget is exhausted.
    Spent,
}

/// What is asked: whether the signal at a place is equal to the first of its class.
#[derive(Clone, Copy)]
pub(crate) struct Question {
    pub place: usize,
    /// whether that is a step later
    pub is_later: bool,
}

/// What is found of two signals.
#[derive(Drop)]
pub(crate) enum Reply {
    /// They are equal.
    Equal,
    /// They differ where the variables have these values.
    Differ(Vec<bool>),
    /// Nothing, with so many steps.
    Unknown,
}

/// The literal's negation.
pub(crate) fn negated(lit: Lit) -> Lit {
    Lit(lit.0 ^ 1)
}

/// Pays for so many gates.
fn pay(gates: usize, budget: &mut Budget)
    ensures { Spends budget.old budget.new }
{
    budget.spend((gates / GATES_A_STEP) as u64);
}

/// Begins anew with what is true alone.
fn begin<S: Sat>(solver: &mut S, alloc: Global, parts: &Parts) -> Result<(), SatError>
    ensures { OnOk result (S.vars solver.new ≡ parts.now) }
{
    solver.reset(alloc, parts.variables())?;
    solver.add(alloc, &[parts.unit(Lit(1))])
}

/// Adds that a gate is true where both its right sides are.
fn add_conjunction<S: Sat>(
    solver: &mut S,
    alloc: Global,
    parts: &Parts,
    gate: Gate,
) -> Result<(), SatError>
    requires vars { S.vars solver.old ≡ parts.now }
    ensures vars { S.vars solver.new ≡ S.vars solver.old }
{
    let lhs = parts.unit(gate.lhs);
    let not_one = parts.unit(negated(gate.rhs0));
    let not_other = parts.unit(negated(gate.rhs1));
    solver.add(alloc, &[lhs, not_one, not_other])
}

/// Adds a gate.
fn add_gate<S: Sat>(
    solver: &mut S,
    alloc: Global,
    parts: &Parts,
    gate: Gate,
) -> Result<(), SatError>
    requires vars { S.vars solver.old ≡ parts.now }
    ensures vars { S.vars solver.new ≡ S.vars solver.old }
{
    add_implication(solver, alloc, parts, gate.lhs, gate.rhs0)?;
    add_implication(solver, alloc, parts, gate.lhs, gate.rhs1)?;
    add_conjunction(solver, alloc, parts, gate)
}

/// Adds the gates that the solver is to get.
fn add_gates<S: Sat>(solver: &mut S, alloc: Global, parts: &Parts) -> Result<(), SatError>
    requires vars { S.vars solver.old ≡ parts.now }
    ensures vars { S.vars solver.new ≡ S.vars solver.old }
{
    'adding: for gate in parts.missing() {
        add_gate(solver, alloc, parts, *gate)?;
    }
    Ok(())
}

/// Adds the gates that the solver is to get, and notes that it has them.
fn add_missing<S: Sat>(solver: &mut S, alloc: Global, parts: &mut Parts) -> Result<(), SatError>
    requires vars { S.vars solver.old ≡ parts.old }
    ensures vars { S.vars solver.new ≡ S.vars solver.old }
    ensures parts { parts.new ≡ parts.old }
{
    add_gates(solver, alloc, parts)?;
    parts.clear_missing();
    Ok(())
}

/// Adds that two literals are equal.
fn add_equal<S: Sat>(
    solver: &mut S,
    alloc: Global,
    parts: &Parts,
    one: Lit,
    other: Lit,
) -> Result<(), SatError>
    requires vars { S.vars solver.old ≡ parts.now }
    ensures vars { S.vars solver.new ≡ S.vars solver.old }
{
    add_implication(solver, alloc, parts, one, other)?;
    add_implication(solver, alloc, parts, other, one)
}

/// Asks whether the literals can be true together, by a few gates, or by all of which they are made.
fn ask_part<S: PartSat>(
    solver: &mut S,
    alloc: Global,
    parts: &mut Parts,
    lits: [Lit; 2],
    is_whole: bool,
    budget: &mut Budget,
) -> Result<Answer, SatError>
    requires vars { S.vars solver.old ≡ parts.old }
    ensures vars { S.vars solver.new ≡ S.vars solver.old }
    ensures parts { parts.new ≡ parts.old }
    ensures spends { Spends budget.old budget.new }
{
    parts.gather(&lits, is_whole)?;
    pay(parts.len(), budget);
    add_missing(solver, alloc, parts)?;
    let units = [parts.unit(lits[0]), parts.unit(lits[1])];
    let most = if is_whole { MOST_STEPS } else { NEAR_STEPS };
    let mut piece = Budget::new(budget.left().min(most));
    let answer = solver.solve_part(alloc, parts.part(), &units, &mut piece)?;
    budget.spend(piece.spent());
    Ok(answer)
}

/// Whether the literals can be true together: by a few gates first.
pub(crate) fn look<S: PartSat>(
    solver: &mut S,
    alloc: Global,
    parts: &mut Parts,
    lits: [Lit; 2],
    budget: &mut Budget,
) -> Result<Answer, SatError>
    requires vars { S.vars solver.old ≡ parts.old }
    ensures vars { S.vars solver.new ≡ S.vars solver.old }
    ensures parts { parts.new ≡ parts.old }
    ensures spends { Spends budget.old budget.new }
{
    let answer = ask_part(solver, alloc, parts, lits, false, budget)?;
    if let Answer::Core(_) = &answer {
        return Ok(answer);
    }
    ask_part(solver, alloc, parts, lits, true, budget)
}

/// Whether two literals are equal. Where that is so, the solver is told.
fn ask_equal<S: PartSat>(
    solver: &mut S,
    alloc: Global,
    parts: &mut Parts,
    one: Lit,
    other: Lit,
    budget: &mut Budget,
) -> Result<Reply, SatError>
    requires vars { S.vars solver.old ≡ parts.old }
    ensures vars { S.vars solver.new ≡ S.vars solver.old }
    ensures parts { parts.new ≡ parts.old }
    ensures spends { Spends budget.old budget.new }
{
    let (one, other) = (parts.root(one), parts.root(other));
    if one == other {
        return Ok(Reply::Equal);
    }
    match ask_implication(solver, alloc, parts, one, other, budget)? {
        Reply::Equal => {}
        reply => return Ok(reply),
    }
    let reply = ask_implication(solver, alloc, parts, other, one, budget)?;
    if let Reply::Equal = &reply {
        parts.note(one, other);
    }
    Ok(reply)
}

/// Has questions about more than a few gates also be about these. False where they all are so already.
fn ask_also<S: Sat>(
    solver: &mut S,
    alloc: Global,
    parts: &mut Parts,
    violated: &[Taken],
) -> Result<bool, SatError>
    requires vars { S.vars solver.old ≡ parts.old }
    ensures vars { S.vars solver.new ≡ S.vars solver.old }
    ensures parts { parts.new ≡ parts.old }
{
    let mut is_new = false;
    'adding: for taken in violated {
        if parts.ask_also(*taken)? {
            is_new = true;
            let lit = Lit(taken.variable.saturating_mul(2));
            add_equal(solver, alloc, parts, lit, taken.equal)?;
        }
    }
    Ok(is_new)
}

/// The value of a literal.
fn value_of(values: &[bool], lit: Lit) -> bool {
    let value = values.get(lit.variable() as usize).copied();
    (lit.variable() > 0 && value.unwrap_or(false)) != lit.is_negated()
}

/// Has the constraints be true.
fn constrain<S: Sat>(
    solver: &mut S,
    alloc: Global,
    parts: &mut Parts,
    constraints: &[Lit],
) -> Result<(), SatError>
    requires vars { S.vars solver.old ≡ parts.old }
    ensures vars { S.vars solver.new ≡ S.vars solver.old }
    ensures parts { parts.new ≡ parts.old }
{
    'adding: for constraint in constraints {
        let lit = parts.constrain(*constraint)?;
        solver.add(alloc, &[parts.unit(lit)])?;
    }
    Ok(())
}

/// Takes latches to be what they begin with.
fn take_resets(parts: &mut Parts, latches: &[Latch]) -> Result<(), Refused>
    ensures { parts.new ≡ parts.old }
{
    'taking: for latch in latches {
        if latch.reset.0 < 2 {
            parts.take(latch.lit, latch.reset)?;
        }
    }
    Ok(())
}

impl<'a> Search<'a> {
    /// Takes the signals of each class to be equal now, and makes the others.
    fn take_classes(&self, parts: &mut Parts) -> Result<(), Refused>
        ensures { parts.new ≡ parts.old }
    {
        'taking: for place in 0..self.classes.len() {
            match self.classes.equal_at(place) {
                Some(equal) => parts.take(equal.one.now, equal.other.now)?,
                None => parts.make(self.classes.signal(place).now)?,
            }
        }
        Ok(())
    }

    /// Makes each signal as it is, a step later where that is wanted.
    fn make_all(&self, parts: &mut Parts, is_later: bool) -> Result<(), Refused>
        ensures { parts.new ≡ parts.old }
    {
        'making: for place in 0..self.classes.len() {
            parts.make(self.classes.signal(place).at(is_later))?;
        }
        Ok(())
    }

    /// Begins anew with the constraints alone, which are looked at as they are.
    fn begin_round<S: Sat>(
        &self,
        solver: &mut S,
        alloc: Global,
        parts: &mut Parts,
        is_later: bool,
        budget: &mut Budget,
    ) -> Result<(), SatError>
        ensures vars { OnOk result (S.vars solver.new ≡ parts.new) }
        ensures parts { parts.new ≡ parts.old }
        ensures spends { Spends budget.old budget.new }
    {
        begin(solver, alloc, parts)?;
        pay(self.pair.circuit.gates().len(), budget);
        let constraints = self.pair.constraints(is_later);
        if !constraints.is_empty() {
            self.make_all(parts, is_later)?;
            constrain(solver, alloc, parts, constraints)?;
            parts.keep()?;
        }
        Ok(())
    }

    /// Splits the classes by a situation in which the signal differs from the first of its class. False where these still are in
    /// one class.
    fn is_split_by(
        &mut self,
        alloc: Global,
        situation: &[bool],
        question: Question,
        budget: &mut Budget,
    ) -> Result<bool, Refused>
        ensures spends { Spends budget.old budget.new }
    {
        let lead = self.classes.lead(question.place);
        let first = copied(alloc, situation)?;
        self.chase(alloc, first, question.is_later, budget)?;
        Ok(self.classes.lead(question.place) != lead)
    }

    /// Has the next questions also be about what is taken to hold and does not so in a situation. False where there is no such
    /// thing.
    pub(crate) fn doubt<S: Sat>(
        &mut self,
        solver: &mut S,
        alloc: Global,
        parts: &mut Parts,
        situation: &[bool],
        is_later: bool,
        budget: &mut Budget,
    ) -> Result<bool, SatError>
        requires vars { S.vars solver.old ≡ parts.old }
        ensures vars { S.vars solver.new ≡ S.vars solver.old }
        ensures parts { parts.new ≡ parts.old }
        ensures spends { Spends budget.old budget.new }
    {
        let violated = self.violated(alloc, parts.taken(), situation, is_later, budget)?;
        let is_new = ask_also(solver, alloc, parts, violated.taken.as_slice())?;
        let places = violated.implications.as_slice();
        Ok(self.use_implications(solver, alloc, parts, places)? || is_new)
    }

    /// The value of an input of the pair, or where there are implications in the first run, if the last part does not have it.
    fn value_in(&self, parts: &Parts, values: &[bool], input: Lit) -> bool {
        let root = parts.root(input);
        if self.implications.len() == 0 || root.variable() == 0 || parts.has(root.variable()) {
            return value_of(values, root);
        }
        let signal = self.classes.signal(self.pair.rank(input) as usize);
        signal.now.variable() == input.variable() && signal.now.is_negated()
    }

    /// The values of the inputs of the pair, or those in the first run of what the last part does not have.
    pub(crate) fn situation_of(
        &self,
        alloc: Global,
        parts: &Parts,
        values: &[bool],
    ) -> Result<Vec<bool>, Refused> {
        let mut row = Vec::new(alloc);
        for input in self.pair.circuit.inputs() {
            push(&mut row, self.value_in(parts, values, *input))?;
        }
        Ok(row)
    }

    /// Splits the classes by values by which the signal differs from the first of its class. Where these are none of a situation
    /// in which the signals of each class are equal, the next questions are about that too. Where that is no reason, the signal
    /// comes into a class of its own.
    fn split_by<S: Sat>(
        &mut self,
        solver: &mut S,
        alloc: Global,
        parts: &mut Parts,
        question: Question,
        values: &[bool],
        budget: &mut Budget,
    ) -> Result<(), SatError>
        requires vars { S.vars solver.old ≡ parts.old }
        ensures vars { S.vars solver.new ≡ S.vars solver.old }
        ensures parts { parts.new ≡ parts.old }
        ensures spends { Spends budget.old budget.new }
    {
        let situation = self.situation_of(alloc, parts, values)?;
        if self.is_split_by(alloc, situation.as_slice(), question, budget)? {
            return Ok(());
        }
        let (situation, is_later) = (situation.as_slice(), question.is_later);
        if !self.doubt(solver, alloc, parts, situation, is_later, budget)? {
            self.classes.part(question.place);
        }
        Ok(())
    }

    /// Asks until the signal is equal to the first of its class, or has no other before it. False where the budget is exhausted.
    fn ask_place<S: PartSat>(
        &mut self,
        solver: &mut S,
        alloc: Global,
        parts: &mut Parts,
        question: Question,
        budget: &mut Budget,
    ) -> Result<bool, SatError>
        requires vars { S.vars solver.old ≡ parts.old }
        ensures vars { S.vars solver.new ≡ S.vars solver.old }
        ensures parts { parts.new ≡ parts.old }
        ensures spends { Spends budget.old budget.new }
        ensures spent { IfOk result (λ b. b ≡ false → budget.new.left ≡ 0) }
    {
        let Question { place, is_later } = question;
        'asking: while budget.tick() {
            let Some(equal) = self.classes.equal_at(place) else {
                return Ok(true);
            };
            let (one, other) = (equal.one.at(is_later), equal.other.at(is_later));
            match ask_equal(solver, alloc, parts, one, other, budget)? {
                Reply::Equal => return Ok(true),
                Reply::Differ(values) => {
                    self.split_by(solver, alloc, parts, question, values.as_slice(), budget)?;
                }
                Reply::Unknown => self.classes.part(place),
            }
        }
        Ok(false)
    }

    /// Makes the signal, where it is a gate.
    fn make(&self, parts: &mut Parts, question: Question) -> Result<(), Refused>
        ensures { parts.new ≡ parts.old }
    {
        if self.is_gate(question.place) {
            return parts.make(self.classes.signal(question.place).at(question.is_later));
        }
        Ok(())
    }

    /// Whether the signal is the same as the first of its class by its structure, or is this itself.
    fn is_same(&self, parts: &Parts, question: Question) -> bool {
        match self.classes.equal_at(question.place) {
            Some(equal) => {
                let (one, other) = (equal.one, equal.other);
                parts.root(one.at(question.is_later)) == parts.root(other.at(question.is_later))
            }
            None => true,
        }
    }

    /// Asks of the signal, where it is not the same by its structure. Answers whether the classes still exclude the literal.
    fn round_at<S: PartSat>(
        &mut self,
        solver: &mut S,
        alloc: Global,
        parts: &mut Parts,
        question: Question,
        bad: Lit,
        budget: &mut Budget,
    ) -> Result<Round, SatError>
        requires vars { S.vars solver.old ≡ parts.old }
        ensures vars { S.vars solver.new ≡ S.vars solver.old }
        ensures parts { parts.new ≡ parts.old }
        ensures spends { Spends budget.old budget.new }
        ensures spent { IfOk result (λ r. r ≡ Spent → budget.new.left ≡ 0) }
    {
        self.make(parts, question)?;
        if self.is_same(parts, question) {
            return Ok(Round::Stays);
        }
        if !self.ask_place(solver, alloc, parts, question, budget)? {
            return Ok(Round::Spent);
        }
        if self.excludes(bad) && !self.is_scattered() {
            Ok(Round::Stays)
        } else {
            Ok(Round::Open)
        }
    }

    /// Asks so of each signal. Answers whether a class was split.
    fn ask_places<S: PartSat>(
        &mut self,
        solver: &mut S,
        alloc: Global,
        parts: &mut Parts,
        is_later: bool,
        bad: Lit,
        budget: &mut Budget,
    ) -> Result<Round, SatError>
        requires vars { S.vars solver.old ≡ parts.old }
        ensures spends { Spends budget.old budget.new }
        ensures spent { IfOk result (λ r. r ≡ Spent → budget.new.left ≡ 0) }
    {
        let count = self.classes.count();
        'asking: for place in 0..self.classes.len() {
            let question = Question { place, is_later };
            match self.round_at(solver, alloc, parts, question, bad, budget)? {
                Round::Stays => {}
                ended => return Ok(ended),
            }
        }
        if self.classes.count() != count {
            return Ok(Round::Split);
        }
        self.round_of_used(solver, alloc, parts, is_later, bad, budget)
    }

    /// Makes the gates a step later.
    fn make_gates(&self, parts: &mut Parts) -> Result<(), Refused>
        ensures { parts.new ≡ parts.old }
    {
        'making: for place in 0..self.classes.len() {
            self.make(
                parts,
                Question {
                    place,
                    is_later: true,
                },
            )?;
        }
        Ok(())
    }

    /// Asks with few steps whether the literal is false a step later. Where it is not, splits the classes by that. Answers whether they
    /// still exclude it.
    fn still_excludes<S: PartSat>(
        &mut self,
        solver: &mut S,
        alloc: Global,
        parts: &mut Parts,
        bad: Lit,
        budget: &mut Budget,
    ) -> Result<bool, SatError>
        requires vars { S.vars solver.old ≡ parts.old }
        ensures vars { S.vars solver.new ≡ S.vars solver.old }
        ensures parts { parts.new ≡ parts.old }
        ensures spends { Spends budget.old budget.new }
    {
        self.make_gates(parts)?;
        let later = parts.root(self.pair.signal(bad).later);
        let mut piece = Budget::new(budget.left().min(SOON_STEPS));
        let reply = ask_implication(solver, alloc, parts, later, Lit(0), &mut piece)?;
        budget.spend(piece.spent());
        if let Reply::Differ(values) = reply {
            let situation = self.situation_of(alloc, parts, values.as_slice())?;
            self.chase(alloc, situation, true, budget)?;
        }
        Ok(self.excludes(bad))
    }

    /// Asks so of the first states that keep the constraints, or a step after the signals of each class were equal.
    fn ask_round<S: PartSat>(
        &mut self,
        solver: &mut S,
        alloc: Global,
        parts: &mut Parts,
        is_later: bool,
        bad: Lit,
        budget: &mut Budget,
    ) -> Result<Round, SatError>
        ensures spends { Spends budget.old budget.new }
        ensures spent { IfOk result (λ r. r ≡ Spent → budget.new.left ≡ 0) }
    {
        if is_later {
            self.take_classes(parts)?;
        } else {
            take_resets(parts, self.circuit.latches())?;
        }
        self.begin_round(solver, alloc, parts, is_later, budget)?;
        if is_later {
            self.add_all_used(solver, alloc, parts)?;
            if !self.still_excludes(solver, alloc, parts, bad, budget)? {
                return Ok(Round::Open);
            }
        }
        self.ask_places(solver, alloc, parts, is_later, bad, budget)
    }

    /// Asks whether the signals of each class are equal in each first state that keeps the constraints, or a step after they were.
    pub(crate) fn ask_all<S: PartSat>(
        &mut self,
        solver: &mut S,
        alloc: Global,
        is_later: bool,
        bad: Lit,
        budget: &mut Budget,
    ) -> Result<Round, SatError>
        ensures spends { Spends budget.old budget.new }
        ensures spent { IfOk result (λ r. r ≡ Spent → budget.new.left ≡ 0) }
    {
        let mut parts = Parts::new(alloc, self.pair)?;
        self.ask_round(solver, alloc, &mut parts, is_later, bad, budget)
    }

    /// Whether the signal at a place is a latch.
    pub(crate) fn is_latch(&self, place: usize) -> bool {
        let inputs = self.circuit.inputs().len();
        inputs < place && !self.is_gate(place)
    }

    /// Whether the signal at a place is a gate.
    fn is_gate(&self, place: usize) -> bool {
        let (inputs, latches) = (self.circuit.inputs().len(), self.circuit.latches().len());
        inputs.saturating_add(latches) < place
    }

    /// Whether the classes say that the literal is false.
    pub(crate) fn excludes(&self, bad: Lit) -> bool {
        let signal = self.classes.signal(self.pair.rank(bad) as usize);
        self.classes.lead(self.pair.rank(bad) as usize) == 0 && signal.now == bad
    }

    /// Whether most signals of a large circuit are equal to no other. Of two copies of a circuit about half are.
    fn is_scattered(&self) -> bool {
        let most = (self.classes.len() / SIGNALS).saturating_mul(3);
        self.circuit.max_var() > LARGE && self.classes.count() > most
    }

    /// Whether the signal at a place is equal to the first of its class, as far as the signals before it and the gates say.
    fn follows<S: PartSat>(
        &self,
        solver: &mut S,
        alloc: Global,
        parts: &mut Parts,
        place: usize,
        equal: Equal,
        budget: &mut Budget,
    ) -> Result<bool, SatError>
        requires vars { S.vars solver.old ≡ parts.old }
        ensures vars { S.vars solver.new ≡ S.vars solver.old }
        ensures parts { parts.new ≡ parts.old }
        ensures spends { Spends budget.old budget.new }
    {
        if self.is_latch(place) {
            return Ok(false);
        }
        parts.make(equal.one.now)?;
        let reply = ask_equal(solver, alloc, parts, equal.one.now, equal.other.now, budget)?;
        Ok(matches!(reply, Reply::Equal))
    }

    /// Whether the clauses that the signal at a place is equal to the first of its class are needed: they don't follow from those
    /// before them. They are taken to hold then.
    fn is_needed<S: PartSat>(
        &self,
        solver: &mut S,
        alloc: Global,
        parts: &mut Parts,
        place: usize,
        budget: &mut Budget,
    ) -> Result<bool, SatError>
        requires vars { S.vars solver.old ≡ parts.old }
        ensures vars { S.vars solver.new ≡ S.vars solver.old }
        ensures parts { parts.new ≡ parts.old }
        ensures spends { Spends budget.old budget.new }
    {
        let Some(equal) = self.classes.equal_at(place) else {
            parts.make(self.classes.signal(place).now)?;
            return Ok(false);
        };
        if self.follows(solver, alloc, parts, place, equal, budget)? {
            return Ok(false);
        }
        let (one, other) = (parts.root(equal.one.now), parts.root(equal.other.now));
        add_equal(solver, alloc, parts, one, other)?;
        parts.note(one, other);
        Ok(true)
    }

    /// The places of the signals whose clauses are needed. None where the budget is exhausted.
    fn needed_places<S: PartSat>(
        &self,
        solver: &mut S,
        alloc: Global,
        parts: &mut Parts,
        budget: &mut Budget,
    ) -> Result<Option<Vec<usize>>, SatError>
        requires vars { S.vars solver.old ≡ parts.old }
        ensures spends { Spends budget.old budget.new }
        ensures spent { IfOk result (λ r. r ≡ None → budget.new.left ≡ 0) }
    {
        let mut places = Vec::new(alloc);
        'asking: for place in 0..self.classes.len() {
            if budget.left() == 0 {
                return Ok(None);
            }
            if self.is_needed(solver, alloc, parts, place, budget)? {
                push(&mut places, place)?;
            }
        }
        Ok(Some(places))
    }

    /// The places of the signals that are equal to the first of their class, but don't follow to be from those before them. None
    /// where the budget is exhausted.
    pub(crate) fn ask_now<S: PartSat>(
        &self,
        solver: &mut S,
        alloc: Global,
        budget: &mut Budget,
    ) -> Result<Option<Vec<usize>>, SatError>
        ensures spends { Spends budget.old budget.new }
        ensures spent { IfOk result (λ r. r ≡ None → budget.new.left ≡ 0) }
    {
        let mut parts = Parts::new(alloc, self.pair)?;
        self.begin_round(solver, alloc, &mut parts, false, budget)?;
        self.add_all_used(solver, alloc, &mut parts)?;
        self.needed_places(solver, alloc, &mut parts, budget)
    }
}

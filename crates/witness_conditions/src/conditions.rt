//! The conditions under which a circuit is a witness that a literal of another one, the model, is never set.

ghost use Rattle.std.specs.Prelude.{◌≡◌, ◌++◌, ◌&&◌, map, not, IfErr, IfOk, OnOk};
ghost use Rattle.graph.specs.Circuits.{Valuation, value_of};
ghost use Rattle.witness_conditions.specs.Conditions.{AreNext, AreOfStep, Asks, has_next};
ghost use Rattle.witness_pairs.specs.Drafts.{Follows, GoesOn, IsUnasked, all_true, seen};
ghost use Rattle.witness_pairs.specs.Pairs.{IsRefused};
ghost use Rattle.witness_pairs.specs.Renamed.{renamed};

use crate::known::{nexts, resets, shared_by};
use base::{Refused, Seq, filled, filled_like, push};
use graph::{Latch, Lit, Model};
use std::alloc::Global;
use witness_circuits::MakeError;
use witness_pairs::{
    Draft, PairError, Shared, TRUE, add_literals, bad_of, denial_of, frame_of, given_at,
    literal_of, name,
};

/// What has to follow from what. All speak of the shared latches K of both circuits, of their resets R, next values F,
/// constraints C and properties P, which say that the bad literal is 0; a ' is the witness's, and a 1 is for the time after.
#[derive(Clone, Copy, PartialEq, Eq)]
pub enum Condition {
    /// R(K) and C follow to R'(K) and C'.
    Reset,
    /// F(K), C, C1 and C' follow to F'(K) and C1'.
    Transition,
    /// C, C' and P' follow to P.
    Property,
    /// R' and C' follow to P'.
    Base,
    /// P', F', C' and C1' follow to P1'.
    Step,
}

/// A time in a question's circuit: its literals of the model's latches and inputs, each with the witness's own behind.
#[derive(Drop)]
pub struct Moment {
    /// those of the latches
    pub state: Seq<Lit>,
    /// those of the inputs
    pub inputs: Seq<Lit>,
}

/// The times that a condition is about.
#[derive(Drop)]
pub struct Times {
    /// the first one
    pub first: Moment,
    /// the time after, where it is about that too
    pub then: Option<Moment>,
}

/// What is given, and what is wanted of each latch of the witness, where that is wanted, and each constraint; or of the
/// property alone.
#[derive(Drop)]
pub struct Facts {
    pub given: Seq<Lit>,
    pub wanted: Seq<Lit>,
}

/// Whether a condition fails, as a question about a circuit.
#[derive(Drop)]
pub struct Question {
    /// Inputs and gates alone: its one bad literal is set exactly where all that is given is true, and something that is
    /// wanted is not.
    pub circuit: Model,
    /// what is given and wanted, as literals of the circuit
    pub facts: Facts,
    /// the times that it is about
    pub times: Times,
}

/// A condition in a draft.
#[derive(Drop)]
struct Drafted {
    times: Times,
    /// the literal that says that it fails
    breaks: Lit,
}

/// Both circuits at one time: what their variables are.
#[derive(Drop)]
struct Joined {
    model: Vec<Lit>,
    witness: Vec<Lit>,
}

/// A model with its bad literal, and a witness with its only one.
#[derive(Clone, Copy)]
pub struct Pair<'a> {
    model: &'a Model,
    bad: Lit,
    witness: &'a Model,
    own_bad: Lit,
    shared: &'a Shared,
}

/// Marks the variables of these literals.
fn mark(marks: &mut [bool], lits: &[Option<Lit>]) {
    for given in lits {
        if let Some(lit) = given
            && let Some(place) = marks.get_mut(lit.variable() as usize)
        {
            *place = true;
        }
    }
}

/// Whether the variable is marked.
fn is_marked(marks: &[bool], lit: Lit) -> bool {
    match marks.get(lit.variable() as usize) {
        Some(is_marked) => *is_marked,
        None => false,
    }
}

/// Which of the latches are marked.
fn marked_latches(alloc: Global, marks: &[bool], latches: &[Latch]) -> Result<Vec<bool>, Refused> {
    let mut marked = Vec::new(alloc);
    for latch in latches {
        push(&mut marked, is_marked(marks, latch.lit))?;
    }
    Ok(marked)
}

/// Which of the model's latches are shared.
fn shared_latches(
    alloc: Global,
    model: &Model,
    shared: &[Option<Lit>],
) -> Result<Vec<bool>, Refused> {
    model.well_formed();
    let mut marks = filled(alloc, false, model.max_var() as usize + 1)?;
    mark(marks.as_mut_slice(), shared);
    marked_latches(alloc, marks.as_slice(), model.latches())
}

/// That a latch has its reset, where that is no function.
fn has_constant(names: &[Lit], latch: Latch) -> Lit {
    if latch.reset == latch.lit {
        TRUE
    } else if latch.reset.is_negated() {
        literal_of(names, latch.lit)
    } else {
        denial_of(names, latch.lit)
    }
}

/// That a latch has its reset, or the value of the function that is its reset.
fn has_reset(
    draft: &mut Draft,
    names: &[Lit],
    latch: Latch,
    function: Option<Lit>,
) -> Result<Lit, MakeError>
    ensures { IfErr result IsUnasked }
{
    match function {
        Some(lit) => draft.equal(literal_of(names, latch.lit), literal_of(names, lit)),
        None => Ok(has_constant(names, latch)),
    }
}

/// Adds that each shared latch has its reset, and of each other one nothing.
fn add_resets(
    draft: &mut Draft,
    facts: &mut Seq<Lit>,
    names: &[Lit],
    latches: &[Latch],
    shared: &Shared,
) -> Result<(), MakeError>
    ensures { IfErr result IsUnasked }
{
    for (position, latch) in latches.iter().enumerate() {
        let fact = match given_at(&shared.latches, position) {
            Some(_) => has_reset(draft, names, *latch, given_at(&shared.resets, position))?,
            None => TRUE,
        };
        facts.push(fact)?;
    }
    Ok(())
}

/// Adds that each latch whose reset is a function has its value.
fn add_functions(
    draft: &mut Draft,
    facts: &mut Seq<Lit>,
    names: &[Lit],
    latches: &[Latch],
    functions: &[Option<Lit>],
) -> Result<(), MakeError>
    ensures { IfErr result IsUnasked }
{
    for (position, latch) in latches.iter().enumerate() {
        let function = given_at(functions, position);
        if function.is_some() {
            let fact = has_reset(draft, names, *latch, function)?;
            facts.push(fact)?;
        }
    }
    Ok(())
}

/// That a latch goes to its next value, where it is shared.
fn goes_on(
    draft: &mut Draft,
    first: &[Lit],
    then: &[Lit],
    latch: Latch,
    shared: Option<Lit>,
) -> Result<Lit, MakeError>
    ensures goes_on { OnOk result (GoesOn draft.old.gates draft.new.gates) }
    ensures value { IfOk result (λ a. (x : Valuation) → Follows draft.new.gates x → value_of x a ≡ has_next (seen first.now x) (seen then.now x) latch shared) }
    ensures refused { IfErr result IsUnasked }
{
    match shared {
        Some(_) => {
            let fact = draft.equal(literal_of(then, latch.lit), literal_of(first, latch.next))?;
            Ok(fact)
        }
        None => Ok(TRUE),
    }
}

/// Adds that each shared latch goes to its next value, and of each other one nothing.
fn add_steps(
    draft: &mut Draft,
    facts: &mut Seq<Lit>,
    first: &[Lit],
    then: &[Lit],
    latches: &[Latch],
    shared: &[Option<Lit>],
) -> Result<(), MakeError>
    ensures goes_on { OnOk result (GoesOn draft.old.gates draft.new.gates) }
    ensures facts { OnOk result (AreNext draft.new.gates first.now then.now latches.now shared.now facts.old facts.new) }
    ensures refused { IfErr result IsUnasked }
{
    for position in 0..latches.len() {
        let given = given_at(shared, position);
        let fact = goes_on(draft, first, then, latches[position], given)?;
        facts.push(fact)?;
    }
    Ok(())
}

/// Adds what the latches are.
fn add_latches(lits: &mut Seq<Lit>, names: &[Lit], latches: &[Latch]) -> Result<(), Refused> {
    for latch in latches {
        lits.push(literal_of(names, latch.lit))?;
    }
    Ok(())
}

/// Adds what the latches are that are not shared.
fn add_own_latches(
    lits: &mut Seq<Lit>,
    names: &[Lit],
    latches: &[Latch],
    shared: &[Option<Lit>],
) -> Result<(), Refused> {
    for (position, latch) in latches.iter().enumerate() {
        if given_at(shared, position).is_none() {
            lits.push(literal_of(names, latch.lit))?;
        }
    }
    Ok(())
}

/// Adds what the inputs are that are not shared.
fn add_own_inputs(
    lits: &mut Seq<Lit>,
    names: &[Lit],
    inputs: &[Lit],
    shared: &[Option<Lit>],
) -> Result<(), Refused> {
    for (position, lit) in inputs.iter().enumerate() {
        if given_at(shared, position).is_none() {
            lits.push(literal_of(names, *lit))?;
        }
    }
    Ok(())
}

/// Names the inputs that are shared as these are named.
fn show_inputs(shown: &mut [Lit], names: &[Lit], inputs: &[Lit], shared: &[Option<Lit>]) {
    for (position, lit) in inputs.iter().enumerate() {
        if let Some(theirs) = given_at(shared, position) {
            name(shown, theirs, literal_of(names, *lit));
        }
    }
}

/// Names the latches that are shared as these are named.
fn show_latches(shown: &mut [Lit], names: &[Lit], latches: &[Latch], shared: &[Option<Lit>]) {
    for (position, latch) in latches.iter().enumerate() {
        if let Some(theirs) = given_at(shared, position) {
            name(shown, theirs, literal_of(names, latch.lit));
        }
    }
}

impl<'a> Pair<'a> {
    /// The model with this bad literal, and the witness with what it shares. A witness with another number of bad literals
    /// than one is refused.
    pub fn of(
        model: &'a Model,
        bad: Lit,
        witness: &'a Model,
        shared: &'a Shared,
    ) -> Result<Pair<'a>, PairError>
        ensures { IfErr result (IsRefused witness.now) }
    {
        let own_bad = bad_of(witness)?;
        Ok(Pair {
            model,
            bad,
            witness,
            own_bad,
            shared,
        })
    }

    /// How many latches the witness has.
    pub fn latches(self) -> usize {
        self.witness.latches().len()
    }

    /// The witness at a time of the model. What is shared has the same values.
    fn witness_with(
        self,
        alloc: Global,
        draft: &mut Draft,
        model: &[Lit],
    ) -> Result<Vec<Lit>, MakeError>
        ensures refused { IfErr result IsUnasked }
    {
        let inputs = shared_by(alloc, model, self.shared.inputs.as_slice())?;
        let latches = shared_by(alloc, model, self.shared.latches.as_slice())?;
        frame_of(
            alloc,
            draft,
            self.witness,
            inputs.as_slice(),
            latches.as_slice(),
        )
    }

    /// Both circuits at one more time, where this is known of the model's latches.
    fn joined(
        self,
        alloc: Global,
        draft: &mut Draft,
        known: &[Option<Lit>],
    ) -> Result<Joined, MakeError>
        ensures refused { IfErr result IsUnasked }
    {
        let model = frame_of(alloc, draft, self.model, &[], known)?;
        let witness = self.witness_with(alloc, draft, model.as_slice())?;
        Ok(Joined { model, witness })
    }

    /// What of the model is shared, as the witness has it. The rest is false.
    fn shown(self, alloc: Global, witness: &[Lit]) -> Result<Vec<Lit>, Refused> {
        let (model, own) = (self.model, self.witness);
        model.well_formed();
        let mut shown = filled(alloc, Lit(0), model.max_var() as usize + 1)?;
        let inputs = self.shared.inputs.as_slice();
        show_inputs(shown.as_mut_slice(), witness, own.inputs(), inputs);
        let latches = self.shared.latches.as_slice();
        show_latches(shown.as_mut_slice(), witness, own.latches(), latches);
        Ok(shown)
    }

    /// The witness at one more time, where this is known of its latches.
    fn alone(
        self,
        alloc: Global,
        draft: &mut Draft,
        known: &[Option<Lit>],
    ) -> Result<Joined, MakeError>
        ensures refused { IfErr result IsUnasked }
    {
        let witness = frame_of(alloc, draft, self.witness, &[], known)?;
        let model = self.shown(alloc, witness.as_slice())?;
        Ok(Joined { model, witness })
    }

    /// What the latches are, those of the witness alone behind the model's.
    fn state_at(self, alloc: Global, at: &Joined) -> Result<Seq<Lit>, Refused> {
        let (own, shared) = (self.witness.latches(), self.shared.latches.as_slice());
        let mut state = Seq::new(alloc);
        add_latches(&mut state, at.model.as_slice(), self.model.latches())?;
        add_own_latches(&mut state, at.witness.as_slice(), own, shared)?;
        Ok(state)
    }

    /// What the inputs are, those of the witness alone behind the model's.
    fn inputs_at(self, alloc: Global, at: &Joined) -> Result<Seq<Lit>, Refused> {
        let (own, shared) = (self.witness.inputs(), self.shared.inputs.as_slice());
        let mut inputs = Seq::new(alloc);
        add_literals(&mut inputs, at.model.as_slice(), self.model.inputs())?;
        add_own_inputs(&mut inputs, at.witness.as_slice(), own, shared)?;
        Ok(inputs)
    }

    /// The time.
    fn moment(self, alloc: Global, at: &Joined) -> Result<Moment, Refused> {
        Ok(Moment {
            state: self.state_at(alloc, at)?,
            inputs: self.inputs_at(alloc, at)?,
        })
    }

    /// The times, of which the first is alone.
    fn once(self, alloc: Global, at: &Joined) -> Result<Times, MakeError>
        ensures { IfErr result IsUnasked }
    {
        let first = self.moment(alloc, at)?;
        Ok(Times { first, then: None })
    }

    /// The two times.
    fn twice(self, alloc: Global, first: &Joined, later: &Joined) -> Result<Times, MakeError>
        ensures { IfErr result IsUnasked }
    {
        let first = self.moment(alloc, first)?;
        let then = Some(self.moment(alloc, later)?);
        Ok(Times { first, then })
    }

    /// Adds the model's constraints.
    fn add_constraints(self, facts: &mut Seq<Lit>, at: &Joined) -> Result<(), Refused> {
        add_literals(facts, at.model.as_slice(), self.model.constraints())
    }

    /// Adds the witness's constraints.
    fn add_own_constraints(self, facts: &mut Seq<Lit>, at: &Joined) -> Result<(), Refused>
        ensures { OnOk result (facts.new ≡ facts.old ++ map (renamed at.now.witness.items) self.entry.witness.now.constraints) }
    {
        add_literals(facts, at.witness.as_slice(), self.witness.constraints())
    }

    /// Adds the witness's property.
    fn add_own_property(self, facts: &mut Seq<Lit>, at: &Joined) -> Result<(), Refused> {
        facts.push(denial_of(at.witness.as_slice(), self.own_bad))
    }

    /// Both circuits at one more time, at which the model's shared latches have their resets.
    fn at_first(self, alloc: Global, draft: &mut Draft) -> Result<Joined, MakeError>
        ensures { IfErr result IsUnasked }
    {
        let begin = shared_latches(alloc, self.model, self.shared.latches.as_slice())?;
        let known = resets(alloc, self.model.latches(), begin.as_slice())?;
        self.joined(alloc, draft, known.as_slice())
    }

    /// Both circuits at the time after, to which the model's shared latches go.
    fn after(self, alloc: Global, draft: &mut Draft, at: &Joined) -> Result<Joined, MakeError>
        ensures { IfErr result IsUnasked }
    {
        let go_on = shared_latches(alloc, self.model, self.shared.latches.as_slice())?;
        let latches = self.model.latches();
        let known = nexts(alloc, at.model.as_slice(), latches, go_on.as_slice())?;
        self.joined(alloc, draft, known.as_slice())
    }

    /// The witness at one more time, at which all of its latches have their resets, but for functions.
    fn own_first(self, alloc: Global, draft: &mut Draft) -> Result<Joined, MakeError>
        ensures { IfErr result IsUnasked }
    {
        let latches = self.witness.latches();
        let begin = filled_like(alloc, true, latches)?;
        let known = resets(alloc, latches, begin.as_slice())?;
        self.alone(alloc, draft, known.as_slice())
    }

    /// The witness at the time after, to which all of its latches go.
    fn own_after(self, alloc: Global, draft: &mut Draft, at: &Joined) -> Result<Joined, MakeError>
        ensures { IfErr result IsUnasked }
    {
        let latches = self.witness.latches();
        let go_on = filled_like(alloc, true, latches)?;
        let known = nexts(alloc, at.witness.as_slice(), latches, go_on.as_slice())?;
        self.alone(alloc, draft, known.as_slice())
    }

    /// The resets and constraints of the model have to give those of the witness.
    fn say_reset(self, draft: &mut Draft, facts: &mut Facts, at: &Joined) -> Result<(), MakeError>
        ensures { IfErr result IsUnasked }
    {
        let (own, names) = (self.witness.latches(), at.witness.as_slice());
        self.add_constraints(&mut facts.given, at)?;
        add_resets(draft, &mut facts.wanted, names, own, self.shared)?;
        self.add_own_constraints(&mut facts.wanted, at)?;
        Ok(())
    }

    /// A step of the model has to be one of the witness.
    fn say_transition(
        self,
        draft: &mut Draft,
        facts: &mut Facts,
        at: &Joined,
        later: &Joined,
    ) -> Result<(), MakeError>
        ensures goes_on { OnOk result (GoesOn draft.old.gates draft.new.gates) }
        ensures wanted { OnOk result (AreOfStep draft.new.gates at.now.witness.items later.now.witness.items self.entry.witness.now.latches self.entry.shared.now.latches.items self.entry.witness.now.constraints facts.old.wanted facts.new.wanted) }
        ensures refused { IfErr result IsUnasked }
    {
        let (own, shared) = (self.witness.latches(), self.shared.latches.as_slice());
        let (first, then) = (at.witness.as_slice(), later.witness.as_slice());
        self.add_constraints(&mut facts.given, at)?;
        self.add_constraints(&mut facts.given, later)?;
        self.add_own_constraints(&mut facts.given, at)?;
        add_steps(draft, &mut facts.wanted, first, then, own, shared)?;
        self.add_own_constraints(&mut facts.wanted, later)?;
        Ok(())
    }

    /// The property of the witness has to give that of the model.
    fn say_property(self, facts: &mut Facts, at: &Joined) -> Result<(), Refused> {
        self.add_constraints(&mut facts.given, at)?;
        self.add_own_constraints(&mut facts.given, at)?;
        self.add_own_property(&mut facts.given, at)?;
        facts.wanted.push(denial_of(at.model.as_slice(), self.bad))
    }

    /// The witness's property has to hold at first.
    fn say_base(self, draft: &mut Draft, facts: &mut Facts, at: &Joined) -> Result<(), MakeError>
        ensures { IfErr result IsUnasked }
    {
        let (own, names) = (self.witness.latches(), at.witness.as_slice());
        add_functions(draft, &mut facts.given, names, own, &self.shared.resets)?;
        self.add_own_constraints(&mut facts.given, at)?;
        self.add_own_property(&mut facts.wanted, at)?;
        Ok(())
    }

    /// The witness's property has to hold on.
    fn say_step(self, facts: &mut Facts, at: &Joined, later: &Joined) -> Result<(), Refused> {
        self.add_own_property(&mut facts.given, at)?;
        self.add_own_constraints(&mut facts.given, at)?;
        self.add_own_constraints(&mut facts.given, later)?;
        self.add_own_property(&mut facts.wanted, later)
    }

    /// Puts what the reset says into the draft.
    fn reset(self, alloc: Global, draft: &mut Draft, facts: &mut Facts) -> Result<Times, MakeError>
        ensures { IfErr result IsUnasked }
    {
        let both = self.at_first(alloc, draft)?;
        self.say_reset(draft, facts, &both)?;
        self.once(alloc, &both)
    }

    /// Puts what the transition says into the draft.
    fn transition(
        self,
        alloc: Global,
        draft: &mut Draft,
        facts: &mut Facts,
    ) -> Result<Times, MakeError>
        ensures { IfErr result IsUnasked }
    {
        let both = self.joined(alloc, draft, &[])?;
        let later = self.after(alloc, draft, &both)?;
        self.say_transition(draft, facts, &both, &later)?;
        self.twice(alloc, &both, &later)
    }

    /// Puts what the property says into the draft.
    fn property(
        self,
        alloc: Global,
        draft: &mut Draft,
        facts: &mut Facts,
    ) -> Result<Times, MakeError>
        ensures { IfErr result IsUnasked }
    {
        let both = self.joined(alloc, draft, &[])?;
        self.say_property(facts, &both)?;
        self.once(alloc, &both)
    }

    /// Puts what the base says into the draft.
    fn base(self, alloc: Global, draft: &mut Draft, facts: &mut Facts) -> Result<Times, MakeError>
        ensures { IfErr result IsUnasked }
    {
        let alone = self.own_first(alloc, draft)?;
        self.say_base(draft, facts, &alone)?;
        self.once(alloc, &alone)
    }

    /// Puts what the step says into the draft.
    fn step(self, alloc: Global, draft: &mut Draft, facts: &mut Facts) -> Result<Times, MakeError>
        ensures { IfErr result IsUnasked }
    {
        let alone = self.alone(alloc, draft, &[])?;
        let later = self.own_after(alloc, draft, &alone)?;
        self.say_step(facts, &alone, &later)?;
        self.twice(alloc, &alone, &later)
    }

    /// Puts what the condition says into the draft.
    fn say(
        self,
        alloc: Global,
        condition: Condition,
        draft: &mut Draft,
        facts: &mut Facts,
    ) -> Result<Times, MakeError>
        ensures { IfErr result IsUnasked }
    {
        match condition {
            Condition::Reset => self.reset(alloc, draft, facts),
            Condition::Transition => self.transition(alloc, draft, facts),
            Condition::Property => self.property(alloc, draft, facts),
            Condition::Base => self.base(alloc, draft, facts),
            Condition::Step => self.step(alloc, draft, facts),
        }
    }

    /// Puts into the draft what the condition says, and that it fails.
    fn drafted(
        self,
        alloc: Global,
        condition: Condition,
        draft: &mut Draft,
        facts: &mut Facts,
    ) -> Result<Drafted, MakeError>
        ensures value { IfOk result (λ d. (x : Valuation) → Follows draft.new.gates x → value_of x d.breaks ≡ (all_true x facts.new.given && not (all_true x facts.new.wanted))) }
        ensures refused { IfErr result IsUnasked }
    {
        let times = self.say(alloc, condition, draft, facts)?;
        let given = facts.given.as_slice();
        let wanted = facts.wanted.as_slice();
        let breaks = draft.breaks(given, wanted)?;
        Ok(Drafted { times, breaks })
    }

    /// Whether the condition fails, as a question about a circuit. More than 4,194,303 variables of that are refused. It
    /// costs both circuits.
    pub fn question(self, alloc: Global, condition: Condition) -> Result<Question, MakeError>
        ensures asks { IfOk result (λ q. Asks q.facts.given q.facts.wanted q.circuit) }
        ensures refused { IfErr result IsUnasked }
    {
        let mut draft = Draft::new(alloc);
        let mut facts = Facts {
            given: Seq::new(alloc),
            wanted: Seq::new(alloc),
        };
        let drafted = self.drafted(alloc, condition, &mut draft, &mut facts)?;
        let Drafted { times, breaks } = drafted;
        let circuit = draft.model(alloc, breaks)?;
        Ok(Question {
            circuit,
            facts,
            times,
        })
    }
}

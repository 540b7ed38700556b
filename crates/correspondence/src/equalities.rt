//! The clauses that say that the latches of a class are equal.

ghost use Rattle.std.specs.Prelude.{◌≡◌, ◌<◌, ◌≤◌, ◌+◌, ◌*◌, [], All, OnOk, IfOk, length};
ghost use Rattle.graph.specs.declared.parts.Parts.{Parts};
ghost use Rattle.correspondence.specs.Equal.{high_of, low_of, IsEquality};

use base::{Refused, Seq, push};
use graph::{Latch, Lit, Model};
use latch_classes::Classes;
use std::alloc::Global;

/// What a clause is about: the latch at a position, and its class.
#[derive(Clone, Copy)]
pub(crate) struct Member {
    pub place: usize,
    pub class: usize,
}

/// Clauses that say that the latches of each class are equal, and those of the first class false.
#[derive(Drop)]
pub(crate) struct Equalities {
    pub clauses: Seq<Seq<Lit>>,
    /// what each clause is about
    pub members: Vec<Member>,
}

/// The literal of a latch that is reset to 0 or 1 which is false at first.
fn low(latch: Latch) -> Lit
    requires { latch.lit.0 < 4294967295 }
    ensures { result ≡ low_of latch }
{
    if latch.reset.0 == 1 {
        Lit(latch.lit.0 + 1)
    } else {
        latch.lit
    }
}

/// The literal of a latch that is reset to 0 or 1 which is true at first.
fn high(latch: Latch) -> Lit
    requires { latch.lit.0 < 4294967295 }
    ensures { result ≡ high_of latch }
{
    if latch.reset.0 == 1 {
        latch.lit
    } else {
        Lit(latch.lit.0 + 1)
    }
}

/// Adds the clause that the latch keeps its first value.
fn push_constant(
    alloc: Global,
    circuit: &Model,
    clauses: &mut Seq<Seq<Lit>>,
    place: usize,
) -> Result<bool, Refused>
    requires place { place < length circuit.now.latches }
    requires all { All (IsEquality circuit.now) clauses.old }
    ensures all { OnOk result (All (IsEquality circuit.now) clauses.new) }
    ensures few { OnOk result (length clauses.new ≤ length clauses.old + 1) }
{
    circuit.well_formed();
    let latch = circuit.latches()[place];
    if latch.reset.0 >= 2 {
        return Ok(false);
    }
    clauses.push(Seq::from_slice(alloc, &[high(latch)])?)?;
    Ok(true)
}

/// Adds the clause that a latch keeps its first value where another does.
fn push_implication(
    alloc: Global,
    circuit: &Model,
    clauses: &mut Seq<Seq<Lit>>,
    place: usize,
    lead: usize,
) -> Result<bool, Refused>
    requires place { place < length circuit.now.latches }
    requires lead { lead < length circuit.now.latches }
    requires all { All (IsEquality circuit.now) clauses.old }
    ensures all { OnOk result (All (IsEquality circuit.now) clauses.new) }
    ensures few { OnOk result (length clauses.new ≤ length clauses.old + 1) }
{
    circuit.well_formed();
    let latch = circuit.latches()[place];
    let other = circuit.latches()[lead];
    if latch.reset.0 >= 2 || latch.lit.variable() == other.lit.variable() {
        return Ok(false);
    }
    clauses.push(Seq::from_slice(alloc, &[high(latch), low(other)])?)?;
    Ok(true)
}

impl Equalities {
    /// The allocator of the clauses.
    pub(crate) fn allocator(&self) -> Global {
        *self.members.allocator()
    }

    /// None yet.
    fn new(alloc: Global) -> Equalities
        ensures all { (m : Parts) → All (IsEquality m) result.clauses }
        ensures none { result.clauses ≡ [] }
    {
        Equalities {
            clauses: Seq::new(alloc),
            members: Vec::new(alloc),
        }
    }

    /// Adds that the latch is constant.
    fn add_constant(
        &mut self,
        alloc: Global,
        circuit: &Model,
        member: Member,
    ) -> Result<(), Refused>
        requires all { All (IsEquality circuit.now) self.old.clauses }
        ensures all { OnOk result (All (IsEquality circuit.now) self.new.clauses) }
        ensures few { OnOk result (length self.new.clauses ≤ length self.old.clauses + 2) }
    {
        let place = member.place;
        if place < circuit.latches().len()
            && push_constant(alloc, circuit, &mut self.clauses, place)?
        {
            push(&mut self.members, member)?;
        }
        Ok(())
    }

    /// Adds that the latch is equal to another.
    fn add_pair(
        &mut self,
        alloc: Global,
        circuit: &Model,
        member: Member,
        lead: usize,
    ) -> Result<(), Refused>
        requires all { All (IsEquality circuit.now) self.old.clauses }
        ensures all { OnOk result (All (IsEquality circuit.now) self.new.clauses) }
        ensures few { OnOk result (length self.new.clauses ≤ length self.old.clauses + 2) }
    {
        let place = member.place;
        if place >= circuit.latches().len() || lead >= circuit.latches().len() {
            return Ok(());
        }
        if push_implication(alloc, circuit, &mut self.clauses, place, lead)? {
            push(&mut self.members, member)?;
        }
        if push_implication(alloc, circuit, &mut self.clauses, lead, place)? {
            push(&mut self.members, member)?;
        }
        Ok(())
    }

    /// Adds what the latch's class says of it.
    fn add(
        &mut self,
        alloc: Global,
        circuit: &Model,
        classes: &Classes,
        place: usize,
    ) -> Result<(), Refused>
        requires all { All (IsEquality circuit.now) self.old.clauses }
        ensures all { OnOk result (All (IsEquality circuit.now) self.new.clauses) }
        ensures few { OnOk result (length self.new.clauses ≤ length self.old.clauses + 2) }
    {
        let Some(class) = classes.class_of(place) else {
            return Ok(());
        };
        let member = Member { place, class };
        match classes.lead_of(class) {
            None => self.add_constant(alloc, circuit, member),
            Some(lead) => self.add_pair(alloc, circuit, member, lead),
        }
    }

    /// The clauses of the classes, at most two for each latch.
    pub(crate) fn of(
        alloc: Global,
        circuit: &Model,
        classes: &Classes,
    ) -> Result<Equalities, Refused>
        ensures all { IfOk result (λ e. All (IsEquality circuit.now) e.clauses) }
        ensures few { IfOk result (λ e. length e.clauses ≤ 2 * length circuit.now.latches) }
    {
        let mut equalities = Equalities::new(alloc);
        for place in 0..circuit.latches().len() {
            equalities.add(alloc, circuit, classes, place)?;
        }
        Ok(equalities)
    }
}

//! Proofs that nothing satisfies a formula with some units, for many lists of units.

ghost use Rattle.std.specs.Prelude.{◌≡◌, ◌≢◌, ◌≤◌, ◌⊎◌, [], ℤ, true, All, IfErr, IfOk, List, length};
ghost use Rattle.base.specs.Budget.{Spends};
ghost use Rattle.base.specs.Witness.{witness};
ghost use Rattle.cdcl_log.specs.Closings.{AreLemmas, IsClosingOf, IsShown, StaysShown};
ghost use Rattle.cdcl_log.specs.Refuting.{refuting};
ghost use Rattle.solver.specs.declared.sat_error.SatError.TheVariants.{Limit, OutOfMemory};
ghost use Rattle.solver.specs.Full.{full};
ghost use Rattle.cdcl_kernel.specs.Verdicts.{IsOpposed};
ghost use Rattle.cdcl_log.specs.Keeping.{Keeps};
ghost use Rattle.cdcl_log.specs.Logged.{EndDenies, added_to, is_wanted, with_units, IsFull};
ghost use Rattle.cdcl.specs.Refutations.{IsProved};
ghost use Rattle.cdcl_search.specs.Settled.{EndsWith};
ghost use Rattle.lrat.specs.Limits.{IsFormula};
ghost use Rattle.lrat.specs.Literals.{IsLiteral};
ghost use Rattle.lrat.specs.Proofs.{IsAcceptedProof};
ghost use Rattle.solver.specs.Answers.{IsLawful};
ghost use Rattle.solver.specs.Parts.{IsLawfulPart};

use crate::refuted::Refuted;
use base::Budget;
use cdcl_log::{Closing, Lemmas, LoggedKernel, Shown, opposed_closing};
use cdcl_search::{Guide, search};
use lrat::{Formula, Proof};
use solver::{Answer, Part, SatError};
use std::alloc::Global;
use std::marker::Model;

/// A conflict-driven solver over one formula, which refutes it with one list of units after the
/// other. The formula is loaded once, and what is learned serves all calls.
#[derive(Drop)]
pub struct Refuter {
    kernel: LoggedKernel,
    guide: Guide,
}

impl Model for Refuter {
    ghost use Rattle.std.specs.Prelude.{◌≡◌, true};
    ghost use Rattle.cdcl_log.specs.Logged.{is_wanted};
    ghost use Rattle.cdcl_log.specs.Refuting.{Refuting, refuting};

    ghost Value = { Refuting };

    ghost view = { λ s. refuting s.kernel };

    ghost invariant = { λ s. is_wanted s.kernel.log ≡ true };
}

impl Refuter {
    /// A solver that has loaded the formula, for lists of at most `room` units, which is less than half of all
    /// ids. It is refused only when out of memory.
    pub fn new(alloc: Global, formula: &Formula, room: u32) -> Result<Refuter, SatError>
        requires formula { IsFormula formula.now }
        requires small { room ≤ 2147483647 }
        ensures formula { IfOk result (λ r. r.formula ≡ formula.now) }
        ensures room { IfOk result (λ r. r.room ≡ room) }
        ensures log { IfOk result (λ r. r.log ≡ []) }
        ensures unlimited { IfErr result (λ e. e ≢ Limit full) }
    {
        Ok(Refuter {
            kernel: LoggedKernel::of_formula(alloc, formula, room)?,
            guide: Guide::new(alloc),
        })
    }

    /// Finds a proof that nothing satisfies the formula with these literals as further clauses (LRAT
    /// 2017, without RAT steps), or else a model. The steps of the budget are those of `Cdcl`. The
    /// proof is what the empty clause rests on of the log of all calls; so it is accepted as it is,
    /// and is not checked again. It deletes nothing. `Limit` is answered where a clause would be
    /// learned and 4,294,967,295 ids are taken, with the room for units. After a refusal the
    /// clauses are watched anew.
    pub fn refute(
        &mut self,
        alloc: Global,
        units: &[i32],
        budget: &mut Budget,
    ) -> Result<Refuted, SatError>
        requires literals { All (IsLiteral self.old.formula.vars) units.now }
        requires few { length units.now ≤ self.old.room }
        ensures same { self.new ≡ self.old }
        ensures spends { Spends budget.old budget.new }
        ensures lawful { IfOk result (IsProved (with_units self.old.formula units.now) budget.new) }
    {
        match searched(alloc, &mut self.kernel, &mut self.guide, units, budget)? {
            Answer::Model(values) => Ok(Refuted::Model(values)),
            Answer::Core(_) => Ok(Refuted::Proof(proof(alloc, &self.kernel, units)?)),
            Answer::Spent => Ok(Refuted::Spent),
        }
    }

    /// Finds what shows that nothing satisfies the formula with these literals as further clauses, or
    /// else a model, as `refute` does. A closing is small: `lemmas` writes the lines that many of
    /// them share, and `section` the one line that is then left of each. What an earlier call
    /// showed stays shown. The units need no room, so a refuter made with room 0 serves.
    pub fn show(
        &mut self,
        alloc: Global,
        units: &[i32],
        budget: &mut Budget,
    ) -> Result<Shown, SatError>
        requires { All (IsLiteral self.old.formula.vars) units.now }
        ensures formula { self.new.formula ≡ self.old.formula }
        ensures room { self.new.room ≡ self.old.room }
        ensures stays { StaysShown self.old self.new }
        ensures spends { Spends budget.old budget.new }
        ensures lawful { IfOk result (IsShown self.new units.now budget.new) }
    {
        match searched(alloc, &mut self.kernel, &mut self.guide, units, budget)? {
            Answer::Model(values) => Ok(Shown::Model(values)),
            Answer::Core(_) => Ok(Shown::Closing(closing(alloc, &mut self.kernel, units)?)),
            Answer::Spent => Ok(Shown::Spent),
        }
    }

    /// As `show`, but that the part is asked about first. Where nothing satisfies the formula with the units, it mostly costs the
    /// part alone.
    pub fn show_part(
        &mut self,
        alloc: Global,
        part: &Part,
        units: &[i32],
        budget: &mut Budget,
    ) -> Result<Shown, SatError>
        requires { All (IsLiteral self.old.formula.vars) units.now }
        ensures formula { self.new.formula ≡ self.old.formula }
        ensures room { self.new.room ≡ self.old.room }
        ensures stays { StaysShown self.old self.new }
        ensures spends { Spends budget.old budget.new }
        ensures lawful { IfOk result (IsShown self.new units.now budget.new) }
    {
        match searched_part(
            alloc,
            &mut self.kernel,
            &mut self.guide,
            part,
            units,
            budget,
        )? {
            Answer::Model(_) => self.show(alloc, units, budget),
            Answer::Core(_) => Ok(Shown::Closing(closing(alloc, &mut self.kernel, units)?)),
            Answer::Spent => Ok(Shown::Spent),
        }
    }

    /// Asks about the part with these units, for what is learned of it: whether they are shown to be opposed. Nothing is made of
    /// the answer.
    pub fn learn(
        &mut self,
        alloc: Global,
        part: &Part,
        units: &[i32],
        budget: &mut Budget,
    ) -> Result<bool, SatError>
        requires { All (IsLiteral self.old.formula.vars) units.now }
        ensures same { self.new ≡ self.old }
        ensures spends { Spends budget.old budget.new }
    {
        let answer = searched_part(
            alloc,
            &mut self.kernel,
            &mut self.guide,
            part,
            units,
            budget,
        )?;
        Ok(matches!(answer, Answer::Core(_)))
    }

    /// The lines of the log that these closings rest on through hints, in their order, as lemmas of
    /// the formula: over what they lead to, the section of each closing is accepted, with the units
    /// that it was shown for. It costs the lines that it takes and their hints, whatever the
    /// length of the log.
    pub fn lemmas(&self, alloc: Global, closings: &[Closing]) -> Result<Lemmas, SatError>
        requires { All (λ k. (us : List ℤ) × IsClosingOf self.now us k) closings.now }
        ensures lemmas { IfOk result (AreLemmas self.now closings.now) }
        ensures memory { IfErr result (λ e. e ≡ OutOfMemory witness) }
    {
        Ok(self.kernel.lemmas(alloc, closings)?)
    }
}

/// What a search under the units comes to. After a refusal nothing guides the next one.
fn searched(
    alloc: Global,
    kernel: &mut LoggedKernel,
    guide: &mut Guide,
    units: &[i32],
    budget: &mut Budget,
) -> Result<Answer, SatError>
    requires { All (IsLiteral kernel.old.vars) units.now }
    ensures keeps { Keeps kernel.old kernel.new }
    ensures spends { Spends budget.old budget.new }
    ensures lawful { IfOk result (IsLawful kernel.old.vars kernel.old.clauses units.now budget.new) }
    ensures ends { IfOk result (EndsWith kernel.old kernel.new units.now) }
    ensures limit { IfErr result (λ e. e ≡ Limit full → IsFull kernel.new) }
{
    let answer = search(kernel, guide, None, units, budget);
    if answer.is_err() {
        guide.renew(alloc);
    }
    answer
}

/// What a search about a part comes to under the units. After a refusal nothing guides the next one.
fn searched_part(
    alloc: Global,
    kernel: &mut LoggedKernel,
    guide: &mut Guide,
    part: &Part,
    units: &[i32],
    budget: &mut Budget,
) -> Result<Answer, SatError>
    requires { All (IsLiteral kernel.old.vars) units.now }
    ensures keeps { Keeps kernel.old kernel.new }
    ensures spends { Spends budget.old budget.new }
    ensures lawful { IfOk result (IsLawfulPart kernel.old.vars kernel.old.clauses part.now units.now budget.new) }
    ensures ends { IfOk result (EndsWith kernel.old kernel.new units.now) }
    ensures limit { IfErr result (λ e. e ≡ Limit full → IsFull kernel.new) }
{
    let answer = search(kernel, guide, Some(part), units, budget);
    if answer.is_err() {
        guide.renew(alloc);
    }
    answer
}

/// What shows that nothing satisfies the clauses with the units, once a search has come to it.
fn closing(alloc: Global, kernel: &mut LoggedKernel, units: &[i32]) -> Result<Closing, SatError>
    requires wanted { is_wanted kernel.old.log ≡ true }
    requires literals { All (IsLiteral kernel.old.vars) units.now }
    requires shown { ((l : ℤ) × IsOpposed units.now l) ⊎ EndDenies kernel.old units.now }
    ensures vars { kernel.new.vars ≡ kernel.old.vars }
    ensures clauses { kernel.new.clauses ≡ kernel.old.clauses }
    ensures log { kernel.new.log ≡ kernel.old.log }
    ensures room { kernel.new.room ≡ kernel.old.room }
    ensures stays { StaysShown (refuting kernel.old) (refuting kernel.new) }
    ensures closing { IfOk result (IsClosingOf (refuting kernel.new) units.now) }
    ensures refused { IfErr result (λ e. e ≡ OutOfMemory witness) }
{
    let known = kernel.known();
    let _vars = known.vars();
    match known.opposed_of(alloc, units)? {
        Some(pair) => Ok(opposed_closing(alloc, units, pair[0])?),
        None => Ok(kernel.closing(alloc, units)?),
    }
}

/// The proof that nothing satisfies the clauses with the units, once a search has shown it.
fn proof(alloc: Global, kernel: &LoggedKernel, units: &[i32]) -> Result<Proof, SatError>
    requires wanted { is_wanted kernel.now.log ≡ true }
    requires literals { All (IsLiteral kernel.now.vars) units.now }
    requires few { length units.now ≤ kernel.now.room }
    requires shown { ((l : ℤ) × IsOpposed units.now l) ⊎ EndDenies kernel.now units.now }
    ensures accepted { IfOk result (IsAcceptedProof (with_units (added_to kernel.now) units.now)) }
    ensures limit { IfErr result (λ e. e ≡ Limit full → IsFull kernel.now) }
{
    let known = kernel.known();
    let _vars = known.vars();
    match known.opposed_of(alloc, units)? {
        Some(pair) => kernel.opposed_refutation(alloc, units, pair[0]),
        None => Ok(kernel.refutation(alloc, units)?),
    }
}

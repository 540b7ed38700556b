//! Cases over one formula that is loaded once, and the lemmas that their proofs share.

ghost use Rattle.std.specs.Prelude.{◌≡◌, ◌≤◌, ◌++◌, ◌∷◌, [], All, List, map, IfErr, IfOk, OnOk};
ghost use Rattle.base.specs.Budget.{Spends};
ghost use Rattle.lrat.specs.Limits.{IsFormula};
ghost use Rattle.lrat.specs.Literals.{IsLiteral};
ghost use Rattle.lrat.specs.Shared.{Base};
ghost use Rattle.cdcl_log.specs.Logged.{with_units};
ghost use Rattle.checker2.specs.Accepted.{Case as AnyCase};
ghost use Rattle.certify.specs.ProveErrors.{IsProveErrorOf};
ghost use Rattle.certify.specs.Sections.{AreClosed, AreProofs, AreSectionsOver, IsSharedBy, case_with};

use crate::counterexample::{Case, Counterexample};
use crate::prove_error::ProveError;
use base::{Budget, Seq};
use cdcl::{Closing, Refuter, Shown, section};
use lrat::{Formula, Proof};
use solver::{Part, SatError, Taken};
use std::alloc::Global;

/// Cases that nothing satisfies. They share a formula, which a solver has loaded, and each has units
/// of its own.
#[derive(Drop)]
pub struct ClosedCases {
    /// the solver, which has loaded the formula
    pub refuter: Refuter,
    /// the units of each case
    pub units: Seq<Seq<i32>>,
    /// for each case what shows that nothing satisfies it
    pub closings: Seq<Closing>,
}

impl ClosedCases {
    /// No case yet.
    pub fn new(alloc: Global, formula: &Formula) -> Result<ClosedCases, SatError>
        requires { IsFormula formula.now }
        ensures loaded { IfOk result (λ s. s.refuter.formula ≡ formula.now) }
        ensures none { IfOk result (λ s. s.units ≡ []) }
        ensures closed { IfOk result AreClosed }
    {
        Ok(ClosedCases {
            refuter: Refuter::new(alloc, formula, 0)?,
            units: Seq::new(alloc),
            closings: Seq::new(alloc),
        })
    }

    /// One more case, which has these units, where nothing satisfies it. The part is asked about first.
    pub fn close(
        &mut self,
        alloc: Global,
        case: Case,
        units: Seq<i32>,
        part: &Part,
        budget: &mut Budget,
    ) -> Result<(), ProveError>
        requires literals { All (IsLiteral self.old.refuter.formula.vars) units }
        requires closed { AreClosed self.old }
        ensures formula { self.new.refuter.formula ≡ self.old.refuter.formula }
        ensures spends { Spends budget.old budget.new }
        ensures closed { OnOk result (AreClosed self.new) }
        ensures one_more { OnOk result (self.new.units ≡ self.old.units ++ units ∷ []) }
        ensures halted { IfErr result (IsProveErrorOf (with_units self.old.refuter.formula units) case budget.new) }
    {
        match self
            .refuter
            .show_part(alloc, part, units.as_slice(), budget)?
        {
            Shown::Closing(closing) => {
                self.units.push(units)?;
                self.closings.push(closing)?;
                Ok(())
            }
            Shown::Model(values) => Err(ProveError::NotInvariant(Counterexample { case, values })),
            Shown::Spent => Err(ProveError::Spent),
        }
    }

    /// The lemmas that the cases share. Behind them a section is added for each case.
    pub fn write(&self, alloc: Global, sections: &mut Seq<Proof>) -> Result<Proof, SatError>
        requires closed { AreClosed self.now }
        ensures proved { IfOk result (λ l. (b : Base) × IsSharedBy self.now.refuter.formula l b × ((cs : List AnyCase) → AreProofs cs sections.old → AreProofs (cs ++ map (case_with b) self.now.units) sections.new)) }
    {
        let lemmas = self.refuter.lemmas(alloc, self.closings.as_slice())?;
        self.write_sections(alloc, lemmas.top, lemmas.taken, sections)?;
        Ok(lemmas.proof)
    }

    /// Adds the section of each case, one line behind lemmas whose greatest id is `top`, one of those
    /// that are taken.
    fn write_sections(
        &self,
        alloc: Global,
        top: u32,
        taken: Taken,
        sections: &mut Seq<Proof>,
    ) -> Result<(), SatError>
        requires closed { AreClosed self.now }
        requires counted { top ≤ taken.ids }
        ensures proved { OnOk result ((b : Base) → AreSectionsOver b top self.now → (cs : List AnyCase) → AreProofs cs sections.old → AreProofs (cs ++ map (case_with b) self.now.units) sections.new) }
    {
        for place in 0..self.closings.len() {
            let units = self.units.as_slice()[place].as_slice();
            let section = section(alloc, &self.closings.as_slice()[place], top, taken, units)?;
            // its lines are in the limits
            section.lines();
            sections.push(section)?;
        }
        Ok(())
    }
}

//! Proofs, checked line by line.

ghost use Rattle.base.specs.Witness.{witness};
ghost use Rattle.std.specs.Prelude.{◌≡◌, ◌≢◌, ◌+◌, ◌≤◌, ◌<◌, ◌^◌, ◌⊎◌, ◌↔◌, pos, true, false, [], None, Some, length, All, IfOk, IfErr, IfSome, IsTrue, OnOk};
ghost use Rattle.lrat.specs.Buffered.{lent_line};
ghost use Rattle.lrat.specs.Courses.{at_formula, at_units};
ghost use Rattle.lrat.specs.Halts.{Halts, LacksOne};
ghost use Rattle.lrat.specs.Lemmas.{AddsEmpty, IsNoLemma, base_at};
ghost use Rattle.lrat.specs.Limits.{IsFormula, IsHint, IsLine};
ghost use Rattle.lrat.specs.Lines.{IsAcceptedLine};
ghost use Rattle.lrat.specs.Refusals.{IsRefusedLine};
ghost use Rattle.std.specs.FinMap as fin;
ghost use Rattle.lrat.specs.Literals.{IsLiteral};
ghost use Rattle.lrat.specs.Stages.{Stage, Goes, IsPositive, TakesOut};
ghost use Rattle.lrat.specs.declared.fault.Fault.TheVariants.{OutOfMemory, NoEmptyClause, NoIds, UnknownId};
ghost use Rattle.lrat.specs.declared.line.Line.TheVariants.{Add};

use crate::clause_row::ClauseRow;
use crate::derivation::{derive_hinted, derive_with};
use crate::fault::Fault;
use crate::formula::Formula;
use crate::line_ref::LineRef;
use crate::stack::Stack;
use crate::trail::Trail;
use base::Refused;
use std::alloc::Global;
use std::marker::Model;

/// A refutation in progress, of a formula or of a formula with some literals as further clauses.
/// Lemmas may come first: lines that all later refutations share, as they share the formula.
/// After a refusal every further call answers that refusal.
///
/// It keeps one mark for each variable through all lines and all refutations. A line costs the
/// literals of its clause and of the clauses that it hints, and for each id the logarithm of the
/// number of clauses, or a constant where no id up to it is missing, or none behind it. The first
/// deletion of a clause of the formula costs all clauses.
#[derive(Drop)]
pub struct Refuter<'a> {
    /// holds nothing between lines
    trail: Trail,
    /// the clauses that are present, over those that all refutations share
    stack: Stack<'a>,
    /// whether the empty clause was added
    closed: bool,
    /// the first refusal
    refusal: Option<Fault>,
}

impl<'a> Model for Refuter<'a> {
    ghost use Rattle.lrat.specs.Courses.{Course, course_code, course_of, IsSteady};
    ghost use Rattle.lrat.specs.contracts.fault.Fault as fault;

    ghost Value = { Course };

    ghost coded = { course_code fault.the_row.coded };

    ghost view = { λ r. course_of r.stack r.closed r.refusal };

    ghost invariant = { λ r. IsSteady r.trail r.stack };
}

impl<'a> Refuter<'a> {
    /// At the formula, before the first line. It costs the formula's literals and variables.
    pub fn new(alloc: Global, formula: &Formula) -> Result<Refuter<'a>, Refused>
        requires { IsFormula formula.now }
        ensures { IfOk result (λ r. r ≡ at_formula formula.now) }
    {
        Ok(Refuter {
            trail: Trail::new(alloc, formula.vars)?,
            stack: Stack::new(alloc, formula)?,
            closed: false,
            refusal: None,
        })
    }

    /// At the formula of these clauses, before the first line. It takes the clauses over, and costs
    /// the variables.
    pub fn over(alloc: Global, vars: u32, clauses: ClauseRow<'a>) -> Result<Refuter<'a>, Refused>
        requires { IsFormula (record { vars = vars; clauses = clauses }) }
        ensures { IfOk result (λ r. r ≡ at_formula (record { vars = vars; clauses = clauses.entry })) }
    {
        let trail = Trail::new(alloc, vars)?;
        Ok(Refuter {
            trail,
            stack: Stack::over(alloc, vars, clauses),
            closed: false,
            refusal: None,
        })
    }

    /// Checks the next line as a lemma: as `feed`, but a line that adds the empty clause is refused
    /// before anything else about it is looked at.
    pub fn lemma(&mut self, line: LineRef<'_>) -> Result<(), Fault>
        requires { IsLine (lent_line line) }
        ensures base { self.new.base ≡ self.old.base }
        ensures stands { IfSome self.old.refusal (λ e. (result ≡ Err e) × (self.new ≡ self.old)) }
        ensures ok { OnOk result ((self.old.refusal ≡ None) × (self.new.refusal ≡ None) × Goes self.old.base.vars self.old.stage (lent_line line.entry) self.new.stage) }
        ensures not_empty { OnOk result (AddsEmpty (lent_line line.entry) → ⊥) }
        ensures stays_open { OnOk result (self.new.stage.closed ≡ false) }
        ensures refused { IfErr result (λ e. self.old.refusal ≡ None → IsNoLemma self.old.base.vars self.old.stage (lent_line line.entry) e) }
        ensures complete { IfErr result (λ e. self.old.refusal ≡ None → e ≢ OutOfMemory witness → (AddsEmpty (lent_line line.entry) → ⊥) → (t : Stage) → Goes self.old.base.vars self.old.stage (lent_line line.entry) t → ⊥) }
        ensures from_then { IfErr result (λ e. self.new.refusal ≡ Some e) }
    {
        if let Some(fault) = self.refusal {
            return Err(fault);
        }
        let answer = self.advance_lemma(line);
        if let Err(fault) = answer {
            self.refusal = Some(fault);
        }
        answer
    }

    /// Says that no lemma is left: the clauses that are present now are those that all further
    /// refutations begin with, and the first of these begins, without units. It takes no memory,
    /// and costs the clauses that are present or were deleted.
    pub fn share(&mut self) -> Result<(), Fault>
        ensures stands { IfSome self.old.refusal (λ e. (result ≡ Err e) × (self.new ≡ self.old)) }
        ensures ok { OnOk result ((self.old.refusal ≡ None) × (self.new ≡ at_units (base_at self.old.base.vars self.old.stage) [])) }
        ensures refused { IfErr result (λ e. self.old.refusal ≡ Some e) }
    {
        if let Some(fault) = self.refusal {
            return Err(fault);
        }
        self.closed = false;
        self.stack.share();
        Ok(())
    }

    /// Begins anew at the clauses that are shared, those of the formula of `new` before `share`,
    /// with each of these literals as a clause of its own under the next ids. Where these ids would
    /// pass 4,294,967,295 it is refused, and nothing else changes. It costs what was fed since the
    /// last beginning, and the units.
    pub fn begin(&mut self, _alloc: Global, units: &[i32]) -> Result<(), Fault>
        requires in_range { All (IsLiteral self.old.base.vars) units.now }
        ensures base { self.new.base ≡ self.old.base }
        ensures stands { IfSome self.old.refusal (λ e. (result ≡ Err e) × (self.new ≡ self.old)) }
        ensures ok { OnOk result ((self.old.refusal ≡ None) × (self.new ≡ at_units self.old.base units.now)) }
        ensures few { OnOk result (self.old.base.top + length units.now < 2 ^ 32) }
        ensures memory { IfErr result (λ e. self.old.refusal ≡ None → ((e ≡ OutOfMemory witness) × (self.old.base.top + length units.now < 2 ^ 32)) ⊎ ((e ≡ NoIds) × (2 ^ 32 ≤ self.old.base.top + length units.now))) }
        ensures no_ids { IfErr result (λ e. e ≡ NoIds → self.new ≡ record self.old { refusal = Some e }) }
        ensures from_then { IfErr result (λ e. self.new.refusal ≡ Some e) }
    {
        if let Some(fault) = self.refusal {
            return Err(fault);
        }
        if units.len() > (u32::MAX - self.stack.shared_top()) as usize {
            self.refusal = Some(Fault::NoIds);
            return Err(Fault::NoIds);
        }
        self.closed = false;
        self.stack.rewind();
        if let Err(refused) = self.stack.add_units(units) {
            self.refusal = Some(Fault::OutOfMemory(refused));
            return Err(Fault::OutOfMemory(refused));
        }
        Ok(())
    }

    /// Checks the next line.
    #[inline(always)]
    pub fn feed(&mut self, _alloc: Global, line: LineRef<'_>) -> Result<(), Fault>
        requires { IsLine (lent_line line) }
        ensures base { self.new.base ≡ self.old.base }
        ensures stands { IfSome self.old.refusal (λ e. (result ≡ Err e) × (self.new ≡ self.old)) }
        ensures ok { OnOk result ((self.old.refusal ≡ None) × (self.new.refusal ≡ None) × Goes self.old.base.vars self.old.stage (lent_line line.entry) self.new.stage) }
        ensures refused { IfErr result (λ e. self.old.refusal ≡ None → Halts self.old.base.vars self.old.stage (lent_line line.entry) e) }
        ensures complete { IfErr result (λ e. self.old.refusal ≡ None → e ≢ OutOfMemory witness → (t : Stage) → Goes self.old.base.vars self.old.stage (lent_line line.entry) t → ⊥) }
        ensures from_then { IfErr result (λ e. self.new.refusal ≡ Some e) }
    {
        if let Some(fault) = self.refusal {
            return Err(fault);
        }
        let answer = self.advance(line);
        if let Err(fault) = answer {
            self.refusal = Some(fault);
        }
        answer
    }

    /// Checks that hints show a clause from the clauses that are present, and adds nothing: as a
    /// line that adds it would be checked, but for its id, and also behind the empty clause.
    pub fn shows(&mut self, clause: &[i32], hints: &[u32]) -> Result<(), Fault>
        requires not_zero { All (λ l. l ≢ pos 0) clause.now }
        ensures same { self.new ≡ self.old }
        ensures stands { IfSome self.old.refusal (λ e. result ≡ Err e) }
        ensures ok { OnOk result ((self.old.refusal ≡ None) × IsAcceptedLine self.old.base.vars (fin.get self.old.stage.present) clause.now hints.now) }
        ensures refused { IfErr result (λ e. self.old.refusal ≡ None → IsRefusedLine self.old.base.vars (fin.get self.old.stage.present) clause.now hints.now e) }
        ensures complete { IfErr result (λ e. self.old.refusal ≡ None → e ≢ OutOfMemory witness → IsAcceptedLine self.old.base.vars (fin.get self.old.stage.present) clause.now hints.now → ⊥) }
    {
        if let Some(fault) = self.refusal {
            return Err(fault);
        }
        derive_with(&mut self.trail, &self.stack, clause, hints)
    }

    /// Says that no line is left. The empty clause must have been added.
    pub fn finish(&mut self) -> Result<(), Fault>
        ensures same { OnOk result (self.new ≡ self.old) }
        ensures stands { IfSome self.old.refusal (λ e. (result ≡ Err e) × (self.new ≡ self.old)) }
        ensures ok { OnOk result ((self.old.refusal ≡ None) × (self.old.stage.closed ≡ true)) }
        ensures open_end { IfErr result (λ e. self.old.refusal ≡ None → (e ≡ NoEmptyClause) × (self.old.stage.closed ≡ false)) }
        ensures from_then { IfErr result (λ e. self.new ≡ record self.old { refusal = Some e }) }
    {
        if let Some(fault) = self.refusal {
            return Err(fault);
        }
        if !self.closed {
            self.refusal = Some(Fault::NoEmptyClause);
            return Err(Fault::NoEmptyClause);
        }
        Ok(())
    }

    /// Takes a line where nothing was refused yet.
    #[inline(always)]
    fn advance(&mut self, line: LineRef<'_>) -> Result<(), Fault>
        requires { IsLine (lent_line line) }
        ensures base { self.new.base ≡ self.old.base }
        ensures refusal { self.new.refusal ≡ self.old.refusal }
        ensures ok { OnOk result (Goes self.old.base.vars self.old.stage (lent_line line.entry) self.new.stage) }
        ensures refused { IfErr result (λ e. Halts self.old.base.vars self.old.stage (lent_line line.entry) e) }
    {
        if self.closed {
            return Err(Fault::AfterEmpty);
        }
        match line {
            LineRef::Add { id, clause, hints } => self.add(id, clause, hints),
            LineRef::Delete { ids, .. } => take_out(&mut self.stack, ids),
        }
    }

    /// Takes a line as a lemma where nothing was refused yet.
    fn advance_lemma(&mut self, line: LineRef<'_>) -> Result<(), Fault>
        requires { IsLine (lent_line line) }
        ensures base { self.new.base ≡ self.old.base }
        ensures refusal { self.new.refusal ≡ self.old.refusal }
        ensures ok { OnOk result (Goes self.old.base.vars self.old.stage (lent_line line.entry) self.new.stage) }
        ensures not_empty { OnOk result (AddsEmpty (lent_line line.entry) → ⊥) }
        ensures refused { IfErr result (λ e. IsNoLemma self.old.base.vars self.old.stage (lent_line line.entry) e) }
    {
        if adds_empty(line) {
            return Err(Fault::EmptyLemma);
        }
        self.advance(line)
    }

    /// Adds a clause where the empty clause wasn't added yet.
    fn add(&mut self, id: u32, clause: &[i32], hints: &[i64]) -> Result<(), Fault>
        requires are_open { self.old.stage.closed ≡ false }
        requires literals { All (IsLiteral 2147483647) clause.now }
        requires hints { All IsHint hints.now }
        ensures base { self.new.base ≡ self.old.base }
        ensures refusal { self.new.refusal ≡ self.old.refusal }
        ensures ok { OnOk result (Goes self.old.base.vars self.old.stage (Add id clause.now hints.now) self.new.stage) }
        ensures refused { IfErr result (λ e. Halts self.old.base.vars self.old.stage (Add id clause.now hints.now) e) }
    {
        if id <= self.stack.top() {
            return Err(Fault::IdOrder);
        }
        if !are_positive(hints) {
            return Err(Fault::NegativeHint);
        }
        derive_hinted(&mut self.trail, &self.stack, clause, hints)?;
        self.stack.add(id, clause)?;
        self.closed = clause.is_empty();
        Ok(())
    }
}

/// Whether the line adds the empty clause.
fn adds_empty(line: LineRef<'_>) -> bool
    ensures { IsTrue result ↔ AddsEmpty (lent_line line.entry) }
{
    match line {
        LineRef::Add { clause, .. } => clause.is_empty(),
        LineRef::Delete { .. } => false,
    }
}

/// Takes the clauses with these ids out, one after the other.
fn take_out(stack: &mut Stack<'_>, ids: &[u32]) -> Result<(), Fault>
    ensures base { stack.new.base ≡ stack.old.base }
    ensures top { stack.new.top ≡ stack.old.top }
    ensures ok { OnOk result (TakesOut stack.old.present ids.now stack.new.present) }
    ensures refused { IfErr result (λ e. (e ≡ OutOfMemory witness) ⊎ ((e ≡ UnknownId) × LacksOne stack.old.present ids.now)) }
{
    for id in ids {
        let was_present = stack.remove(*id)?;
        if !was_present {
            return Err(Fault::UnknownId);
        }
    }
    Ok(())
}

/// Whether each hint is positive.
fn are_positive(hints: &[i64]) -> bool
    ensures { IsTrue result ↔ All IsPositive hints.now }
{
    hints.iter().all(|hint| *hint > 0)
}

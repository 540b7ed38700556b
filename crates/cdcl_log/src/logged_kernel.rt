//! The kernel, and a log of what it learns (proof logging, LRAT 2017).
//!
//! Each clause that is learned is a line with the hints by which the kernel took it. So the lines
//! lead from the clauses that were added to those that the kernel has. The clause that a core
//! denies is a line that may follow. With the units of those assumptions it leads to the empty clause,
//! and the lines that this rests on are a proof that is accepted. What is forgotten stays in the
//! log, since a later line may rest on what rests on it. Where no log is wanted nothing is kept.

ghost use Rattle.std.specs.Prelude.{◌≡◌, ◌+◌, ◌≢◌, ◌≤◌, ◌<◌, ◌++◌, ◌∷◌, [], None, Some, ℤ, false, true, if◌then◌else◌, All, List, IfOk, IfErr, IfSome, IsOk, OnOk, OnErr, length, unsigned_abs};
ghost use Rattle.std.specs.Vec.{vec_capacity, vec_len};
ghost use Rattle.cdcl_log.specs.Closings.{AreLemmas, IsClosingOf, StaysShown};
ghost use Rattle.cdcl_log.specs.Keeping.{Keeps};
ghost use Rattle.cdcl_log.specs.Logged.{Logged, EndDenies, Ends, added_to, is_wanted, with_units, IsFull};
ghost use Rattle.cdcl_log.specs.Refuting.{refuting};
ghost use Rattle.cdcl_log.specs.declared.logging.Logging.TheVariants.{Unwanted, Open};
ghost use Rattle.cdcl_kernel.specs.Kept.{added};
ghost use Rattle.cdcl_kernel.specs.Verdicts.{IsOpposed};
ghost use Rattle.lrat.specs.Limits.{IsFormula};
ghost use Rattle.lrat.specs.Literals.{IsLiteral};
ghost use Rattle.lrat.specs.Proofs.{IsAcceptedProof};
ghost use Rattle.solver.specs.Answers.{IsCore};
ghost use Rattle.solver.specs.declared.sat_error.SatError.TheVariants.{Limit, OutOfMemory};
ghost use Rattle.solver.specs.Full.{full};
ghost use Rattle.base.specs.Witness.{witness};

use crate::closing::{closing_line, denied_indices, opposed_line};
use crate::lemmas::{Lemmas, all_hints, greatest_id};
use crate::lines::{added_line, next_id};
use crate::loading::load;
use crate::logging::Logging;
use crate::numbering::Numbering;
use crate::selection::{selected, wanted_lines};
use crate::shown::Closing;
use base::{Refused, Seq, push, reserve_one};
use cdcl_kernel::Kernel;
use lrat::{Formula, Line, Proof};
use solver::SatError;
use std::alloc::Global;
use std::marker::Model;

/// A kernel, and where one is wanted a log of its clauses.
#[derive(Drop)]
pub struct LoggedKernel {
    kernel: Kernel,
    /// the lines so far
    lines: Vec<Line>,
    /// a line that may follow them: for the clause that the last core denies, or the empty clause
    end: Option<Line>,
    numbering: Numbering,
    log: Logging,
}

impl Model for LoggedKernel {
    ghost use Rattle.std.specs.Prelude.{◌+◌, length, option_map, take};
    ghost use Rattle.cdcl_log.specs.Logged.{Logged, IsLog, clause_of};
    ghost use Rattle.cdcl_kernel.specs.Kept.{added};

    ghost Value = { Logged };

    ghost view = { λ s. record { vars = s.kernel.vars; clauses = added s.kernel.kept; log = s.log; room = s.numbering.room; shared = take s.numbering.shared s.lines.items; end = option_map clause_of s.end; ids = length s.kernel.kept + s.numbering.room } };

    ghost invariant = { λ s. IsLog s.log s.numbering s.kernel.vars s.kernel.kept s.lines.items s.end };
}

impl LoggedKernel {
    /// No variables, no clauses and no log, which take no memory.
    pub fn new(alloc: Global) -> LoggedKernel
        ensures { result ≡ record { vars = 0; clauses = []; log = Unwanted; room = 0; shared = []; end = None; ids = 0 } }
    {
        LoggedKernel {
            kernel: Kernel::new(alloc),
            lines: Vec::new(alloc),
            end: None,
            numbering: Numbering {
                base: 0,
                room: 0,
                shared: 0,
            },
            log: Logging::Unwanted,
        }
    }

    /// The clauses of the formula, and a log without lines, which has room for this number of units.
    pub fn of_formula(alloc: Global, formula: &Formula, room: u32) -> Result<LoggedKernel, SatError>
        requires formula { IsFormula formula.now }
        requires small { room ≤ 2147483647 }
        ensures loaded { IfOk result (λ k. k ≡ record { vars = formula.now.vars; clauses = formula.now.clauses; log = Open; room = room; shared = []; end = None; ids = length formula.now.clauses + room }) }
        ensures unlimited { IfErr result (λ e. e ≢ Limit full) }
    {
        let base = formula.clauses.len() as u32;
        Ok(LoggedKernel {
            kernel: load(alloc, formula)?,
            lines: Vec::new(alloc),
            end: None,
            numbering: Numbering {
                base,
                room,
                shared: 0,
            },
            log: Logging::Open,
        })
    }

    /// The kernel, to look at.
    #[inline]
    pub fn known(&self) -> &Kernel
        ensures vars { result.now.vars ≡ self.now.vars }
        ensures clauses { added result.now.kept ≡ self.now.clauses }
    {
        &self.kernel
    }

    /// `Kernel::reset`, where no log is wanted.
    pub fn reset(&mut self, alloc: Global, vars: u32) -> Result<(), SatError>
        requires small { vars ≤ 2147483647 }
        requires unlogged { is_wanted self.old.log ≡ false }
        ensures ok { OnOk result (self.new ≡ record { vars = vars; clauses = []; log = Unwanted; room = self.old.room; shared = self.old.shared; end = self.old.end; ids = self.old.room }) }
        ensures err { OnErr result (self.new ≡ self.old) }
        ensures refused { IfErr result (λ e. e ≡ OutOfMemory witness) }
    {
        self.kernel.reset(alloc, vars)
    }

    /// `Kernel::add`, where no log is wanted.
    pub fn add(&mut self, clause: &[i32]) -> Result<(), SatError>
        requires literals { All (IsLiteral self.old.vars) clause.now }
        requires unlogged { is_wanted self.old.log ≡ false }
        ensures vars { self.new.vars ≡ self.old.vars }
        ensures log { self.new.log ≡ self.old.log }
        ensures room { self.new.room ≡ self.old.room }
        ensures shared { self.new.shared ≡ self.old.shared }
        ensures ok { OnOk result (self.new.clauses ≡ self.old.clauses ++ clause.now ∷ []) }
        ensures taken { OnOk result (self.new.ids ≡ self.old.ids + 1) }
        ensures err { OnErr result (self.new ≡ self.old) }
        ensures limit { IfErr result (λ e. e ≡ Limit full → IsFull self.old) }
    {
        self.kernel.add(clause)
    }

    /// `Kernel::learn`, and a line of the log for the clause. A refusal changes nothing, and is `Limit`
    /// only where all ids are taken.
    pub fn learn(&mut self, alloc: Global, clause: &[i32], hints: &[u32]) -> Result<bool, SatError>
        ensures keeps { Keeps self.old self.new }
        ensures limit { IfErr result (λ e. e ≡ Limit full → IsFull self.new) }
    {
        match self.log {
            Logging::Open => self.learn_logged(alloc, clause, hints),
            _ => self.kernel.learn(clause, hints),
        }
    }

    /// Learns the clause where the hints show it, and logs it. It is refused for `Limit` exactly
    /// where 4,294,967,295 ids are taken.
    fn learn_logged(
        &mut self,
        alloc: Global,
        clause: &[i32],
        hints: &[u32],
    ) -> Result<bool, SatError>
        requires { self.old.log ≡ Open }
        ensures keeps { Keeps self.old self.new }
        ensures limit { IfErr result (λ e. e ≡ Limit full → IsFull self.new) }
    {
        let id = next_id(&self.kernel, self.numbering)?;
        let line = added_line(alloc, id, clause, hints, self.numbering)?;
        reserve_one(&mut self.lines)?;
        if !self.kernel.learn(clause, hints)? {
            return Ok(false);
        }
        let closes = clause.is_empty();
        put(&mut self.lines, &mut self.end, line, closes)?;
        if closes {
            self.log = Logging::Closed;
        }
        Ok(true)
    }

    /// `Kernel::forget`. The log keeps the lines.
    pub fn forget(&mut self, ids: &[u32])
        ensures { Keeps self.old self.new }
    {
        self.kernel.forget(ids);
    }

    /// `Kernel::core_of`. The clause that the core denies is the line that may follow the log.
    pub fn core_of(
        &mut self,
        alloc: Global,
        clause: &[i32],
        hints: &[u32],
        assume: &[i32],
    ) -> Result<Option<Vec<i32>>, SatError>
        ensures keeps { Keeps self.old self.new }
        ensures core { IfOk result (λ r. IfSome r (λ core. IsCore self.old.clauses assume.now core.items)) }
        ensures ends { IfOk result (λ r. IfSome r (λ core. Ends self.old self.new assume.now)) }
        ensures limit { IfErr result (λ e. e ≡ Limit full → IsFull self.new) }
    {
        let Some(core) = self.kernel.core_of(alloc, clause, hints, assume)? else {
            return Ok(None);
        };
        let Logging::Open = self.log else {
            return Ok(Some(core));
        };
        let id = next_id(&self.kernel, self.numbering)?;
        let line = added_line(alloc, id, clause, hints, self.numbering)?;
        self.end = Some(line);
        Ok(Some(core))
    }

    /// The proof that nothing satisfies the clauses with these units, where the clause that may follow
    /// the log denies some of them: what the empty clause rests on of the log.
    pub fn refutation(&self, alloc: Global, units: &[i32]) -> Result<Proof, Refused>
        requires wanted { is_wanted self.now.log ≡ true }
        requires denies { EndDenies self.now units.now }
        requires few { length units.now ≤ self.now.room }
        ensures { IfOk result (λ p. IsAcceptedProof (with_units (added_to self.now) units.now) p) }
    {
        let Some(Line::Add { id, clause, hints }) = &self.end else {
            unreachable!();
        };
        let last = closing_line(
            alloc,
            self.numbering,
            units,
            *id,
            clause.as_slice(),
            hints.as_slice(),
        )?;
        selected(
            alloc,
            self.lines.as_slice(),
            self.numbering.first_id(),
            last,
        )
    }

    /// The proof that nothing satisfies the clauses with these units, of which two are opposed.
    pub fn opposed_refutation(
        &self,
        alloc: Global,
        units: &[i32],
        literal: i32,
    ) -> Result<Proof, SatError>
        requires wanted { is_wanted self.now.log ≡ true }
        requires opposed { IsOpposed units.now literal }
        requires in_range { unsigned_abs literal ≤ 2147483647 }
        requires few { length units.now ≤ self.now.room }
        ensures accepted { IfOk result (λ p. IsAcceptedProof (with_units (added_to self.now) units.now) p) }
        ensures limit { IfErr result (λ e. e ≡ Limit full → IsFull self.now) }
    {
        let id = next_id(&self.kernel, self.numbering)?;
        let line = opposed_line(alloc, self.numbering, units, id, literal)?;
        let mut proof = Proof::new(alloc);
        proof.push_line(line)?;
        Ok(proof)
    }

    /// What shows that nothing satisfies the clauses with these units, where the clause that may
    /// follow the log denies some of them. Closings then rest on all lines so far.
    pub fn closing(&mut self, alloc: Global, units: &[i32]) -> Result<Closing, Refused>
        requires wanted { is_wanted self.old.log ≡ true }
        requires denies { EndDenies self.old units.now }
        ensures vars { self.new.vars ≡ self.old.vars }
        ensures clauses { self.new.clauses ≡ self.old.clauses }
        ensures log { self.new.log ≡ self.old.log }
        ensures room { self.new.room ≡ self.old.room }
        ensures stays { StaysShown (refuting self.old) (refuting self.new) }
        ensures shown { IfOk result (IsClosingOf (refuting self.new) units.now) }
    {
        let Some(Line::Add { clause, hints, .. }) = &self.end else {
            unreachable!();
        };
        let denied = denied_indices(alloc, units, clause.as_slice())?;
        let hints = Seq::from_slice(alloc, hints.as_slice())?;
        self.numbering.shared = self.lines.len();
        Ok(Closing {
            denied: Seq::from_vec(denied),
            hints,
        })
    }

    /// The lines that these closings rest on, in their order, and the greatest id behind them.
    pub fn lemmas(&self, alloc: Global, closings: &[Closing]) -> Result<Lemmas, Refused>
        requires wanted { is_wanted self.now.log ≡ true }
        requires shown { All (λ k. (us : List ℤ) × IsClosingOf (refuting self.now) us k) closings.now }
        ensures { IfOk result (AreLemmas (refuting self.now) closings.now) }
    {
        let hints = all_hints(alloc, closings)?;
        let lines = self.lines.as_slice();
        let proof = wanted_lines(alloc, lines, self.numbering.first_id(), hints)?;
        let top = greatest_id(proof.lines(), self.numbering.base);
        let taken = self.kernel.taken(self.numbering.room);
        Ok(Lemmas { proof, top, taken })
    }
}

/// Puts a line behind the others, or keeps it as the one that may follow, where it closes the log.
fn put(
    lines: &mut Vec<Line>,
    end: &mut Option<Line>,
    line: Line,
    closes: bool,
) -> Result<(), Refused>
    ensures succeeds { vec_len lines.old < vec_capacity lines.old → IsOk result }
    ensures lines { OnOk result (lines.new.items ≡ (if closes then lines.old.items else lines.old.items ++ line ∷ [])) }
    ensures end { OnOk result (end.new ≡ (if closes then Some line else None)) }
{
    if closes {
        *end = Some(line);
    } else {
        push(lines, line)?;
        *end = None;
    }
    Ok(())
}

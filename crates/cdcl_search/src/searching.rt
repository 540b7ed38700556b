//! The search: propagate, learn from a conflict, decide.

ghost use Rattle.std.specs.Prelude.{◌≡◌, All, IfOk, IfSome, IfErr, option_map};
ghost use Rattle.base.specs.Budget.{Spends};
ghost use Rattle.cdcl_log.specs.Keeping.{Keeps};
ghost use Rattle.lrat.specs.Literals.{IsLiteral};
ghost use Rattle.cdcl_search.specs.Settled.{EndsWith, IsSettled, IsCoreAnswer, IsAnswer};
ghost use Rattle.solver.specs.declared.sat_error.SatError.TheVariants.{Limit};
ghost use Rattle.solver.specs.Full.{full};
ghost use Rattle.cdcl_log.specs.Logged.{IsFull};

use crate::analysis::conflict_level;
use crate::attaching::{attach_new_clauses, recheck_pending_conflict};
use crate::clause_status::{ClauseStatus, replacement_watch};
use crate::final_analysis::{core_of_failed_assumption, empty_core};
use crate::guide::Guide;
use crate::justification::unjustified;
use crate::learning::learn;
use crate::levels::{backtrack, decide};
use crate::propagation::{Propagated, propagate};
use crate::reduction::{least_between, reduce};
use crate::trail_reuse::reuse_trail;
use crate::units::{learn_root_units, propagate_unit};
use base::{Budget, Refused};
use cdcl_kernel::{Kernel, values_of};
use cdcl_log::LoggedKernel;
use solver::{Answer, Part, SatError, count};

/// What to do where propagation found no conflict.
enum Next {
    /// begin a level, and decide the literal where it is unassigned
    Decide(i32),
    /// the assumption is false
    FailedAssumption(i32),
    /// each variable of a clause has a value: a model may have been found
    AllAssigned,
}

/// Finds a model under the assumptions, of all clauses or of a part, or some of them that can't hold. Where a log is
/// wanted, the clause that denies these may follow it then. It is refused for `Limit` only where all ids are
/// taken then.
pub fn search(
    kernel: &mut LoggedKernel,
    guide: &mut Guide,
    part: Option<&Part>,
    assume: &[i32],
    budget: &mut Budget,
) -> Result<Answer, SatError>
    requires { All (IsLiteral kernel.old.vars) assume.now }
    ensures keeps { Keeps kernel.old kernel.new }
    ensures spends { Spends budget.old budget.new }
    ensures lawful { IfOk result (IsAnswer kernel.old (option_map (λ p. p.now) part.entry) assume.now budget.new) }
    ensures ends { IfOk result (EndsWith kernel.old kernel.new assume.now) }
    ensures limit { IfErr result (λ e. e ≡ Limit full → IsFull kernel.new) }
{
    reuse_trail(guide, part.is_some(), assume)?;
    guide.grow_to(assume)?;
    attach_new_clauses(kernel.known(), guide)?;
    learn_root_units(kernel, guide)?;
    guide.decisions.begin(part, &guide.assignment)?;
    recheck_pending_conflict(kernel.known(), guide)?;
    'searching: while budget.tick() {
        if let Some(answer) = search_step(kernel, guide, part, assume, budget)? {
            return Ok(answer);
        }
    }
    Ok(Answer::Spent)
}

/// Propagates, and then learns from a conflict, decides or answers.
fn search_step(
    kernel: &mut LoggedKernel,
    guide: &mut Guide,
    part: Option<&Part>,
    assume: &[i32],
    budget: &mut Budget,
) -> Result<Option<Answer>, SatError>
    requires { All (IsLiteral kernel.old.vars) assume.now }
    ensures keeps { Keeps kernel.old kernel.new }
    ensures spends { Spends budget.old budget.new }
    ensures lawful { IfOk result (λ r. IfSome r (IsSettled kernel.old (option_map (λ p. p.now) part.entry) assume.now)) }
    ensures ends { IfOk result (λ r. IfSome r (EndsWith kernel.old kernel.new assume.now)) }
    ensures limit { IfErr result (λ e. e ≡ Limit full → IsFull kernel.new) }
{
    if let Some(conflict) = guide.pending_conflict {
        return handle_conflict(kernel, guide, conflict, assume);
    }
    let outcome = propagate(kernel.known(), guide, budget)?;
    learn_root_units(kernel, guide)?;
    match outcome {
        Propagated::Spent => Ok(None),
        Propagated::Conflict(conflict) => handle_conflict(kernel, guide, conflict, assume),
        Propagated::NoConflict => decide_or_answer(kernel, guide, part, assume),
    }
}

/// Learns from a clause that is false. At level 0 nothing satisfies the clauses.
fn handle_conflict(
    kernel: &mut LoggedKernel,
    guide: &mut Guide,
    conflict: u32,
    assume: &[i32],
) -> Result<Option<Answer>, SatError>
    ensures keeps { Keeps kernel.old kernel.new }
    ensures lawful { IfOk result (λ r. IfSome r (IsCoreAnswer kernel.old assume.now)) }
    ensures ends { IfOk result (λ r. IfSome r (EndsWith kernel.old kernel.new assume.now)) }
    ensures limit { IfErr result (λ e. e ≡ Limit full → IsFull kernel.new) }
{
    count(&mut guide.statistics.conflicts);
    let level = conflict_level(kernel.known(), &guide.assignment, conflict);
    if level == 0 {
        guide.pending_conflict = Some(conflict);
        let core = empty_core(kernel, guide, conflict, assume)?;
        return Ok(core.map(Answer::Core));
    }
    guide.pending_conflict = None;
    learn(kernel, guide, conflict, level)?;
    let clauses = kernel.known().clauses();
    let least = least_between(clauses, guide.decisions.parts.is_part, assume);
    if guide.analysis.clause.len() > 2 && guide.learned.reductions.is_due(least) {
        count(&mut guide.statistics.reductions);
        reduce(kernel, guide)?;
    }
    if guide.restarts.is_due() {
        count(&mut guide.statistics.restarts);
        let level = assume.len().min(guide.assignment.levels.current());
        backtrack(guide, level)?;
    }
    Ok(None)
}

/// Decides where nothing more follows, or answers.
fn decide_or_answer(
    kernel: &mut LoggedKernel,
    guide: &mut Guide,
    part: Option<&Part>,
    assume: &[i32],
) -> Result<Option<Answer>, SatError>
    requires { All (IsLiteral kernel.old.vars) assume.now }
    ensures keeps { Keeps kernel.old kernel.new }
    ensures lawful { IfOk result (λ r. IfSome r (IsSettled kernel.old (option_map (λ p. p.now) part.entry) assume.now)) }
    ensures ends { IfOk result (λ r. IfSome r (EndsWith kernel.old kernel.new assume.now)) }
    ensures limit { IfErr result (λ e. e ≡ Limit full → IsFull kernel.new) }
{
    match pick_decision(guide, assume)? {
        Next::Decide(literal) => {
            decide(guide, literal)?;
            Ok(None)
        }
        Next::FailedAssumption(literal) => {
            let core = core_of_failed_assumption(kernel, guide, literal, assume)?;
            Ok(core.map(Answer::Core))
        }
        Next::AllAssigned => check_model(kernel, guide, part, assume),
    }
}

/// Picks the next assumption that is not true, or else, in a part, a gate without a false side that needs one, or
/// else the most active unassigned variable.
fn pick_decision(guide: &mut Guide, assume: &[i32]) -> Result<Next, Refused> {
    if let Some(literal) = assume.get(guide.assignment.levels.current()) {
        if guide.assignment.values.is_false(*literal) {
            return Ok(Next::FailedAssumption(*literal));
        }
        return Ok(Next::Decide(*literal));
    }
    if !guide.decisions.parts.is_part {
        return Ok(pick_most_active(guide));
    }
    if let Some(literal) = unjustified(&guide.assignment, &mut guide.decisions) {
        return Ok(Next::Decide(literal));
    }
    if !guide.decisions.is_filled {
        guide.decisions.fill_heap(&guide.assignment.values)?;
    }
    Ok(pick_most_active(guide))
}

/// Picks the most active unassigned variable.
fn pick_most_active(guide: &mut Guide) -> Next {
    match guide.decisions.most_active(&guide.assignment.values) {
        Some(literal) => Next::Decide(literal),
        None => Next::AllAssigned,
    }
}

/// Answers the values on the trail where they satisfy the clauses, or the part. Else a clause without a true
/// literal is a pending conflict, or one of its unassigned literals comes on the trail.
fn check_model(
    kernel: &mut LoggedKernel,
    guide: &mut Guide,
    part: Option<&Part>,
    assume: &[i32],
) -> Result<Option<Answer>, SatError>
    requires { All (IsLiteral kernel.old.vars) assume.now }
    ensures keeps { Keeps kernel.old kernel.new }
    ensures lawful { IfOk result (λ r. IfSome r (IsSettled kernel.old (option_map (λ p. p.now) part.entry) assume.now)) }
    ensures ends { IfOk result (λ r. IfSome r (EndsWith kernel.old kernel.new assume.now)) }
    ensures limit { IfErr result (λ e. e ≡ Limit full → IsFull kernel.new) }
{
    let values = match part {
        Some(part) => {
            let literals = guide.assignment.trail.literals();
            kernel
                .known()
                .part_model(guide.alloc, literals, part, assume)?
        }
        None => kernel
            .known()
            .model_of(guide.alloc, guide.assignment.trail.literals(), assume)?,
    };
    if values.is_none() {
        propagate_missed_clause(kernel.known(), guide)?;
    }
    Ok(values.map(Answer::Model))
}

/// Propagates a clause that has no true literal although no variable seemed unassigned: the watches missed it.
fn propagate_missed_clause(kernel: &Kernel, guide: &mut Guide) -> Result<(), Refused> {
    let values = values_of(
        guide.alloc,
        kernel.vars(),
        guide.assignment.trail.literals(),
    )?;
    let Some(id) = kernel.unsatisfied(values.as_slice()) else {
        return Ok(());
    };
    match propagate_unit(kernel, &mut guide.assignment, id)? {
        ClauseStatus::Conflict => guide.pending_conflict = Some(id),
        ClauseStatus::Several => {
            if let Some(literal) = replacement_watch(kernel, &guide.assignment.values, id, 0) {
                decide(guide, literal)?;
            }
        }
        _ => {}
    }
    Ok(())
}

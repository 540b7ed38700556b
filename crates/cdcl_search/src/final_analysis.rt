//! Final analysis: the failed assumptions.
//!
//! Where an assumption is false, the reasons behind it lead to assumptions decided before it;
//! the clause that denies those and the assumption itself follows. Where a clause is false at
//! level 0, the empty clause follows. The kernel checks the clause by its hints, as if it were to
//! be learned, and that what it denies is assumed.

ghost use Rattle.std.specs.Prelude.{◌≡◌, All, IfOk, IfSome, IfErr};
ghost use Rattle.cdcl_log.specs.Keeping.{Keeps};
ghost use Rattle.cdcl_log.specs.Logged.{Ends, IsFull};
ghost use Rattle.lrat.specs.Literals.{IsLiteral};
ghost use Rattle.solver.specs.Answers.{IsCore};
ghost use Rattle.solver.specs.declared.sat_error.SatError.TheVariants.{Limit};
ghost use Rattle.solver.specs.Full.{full};

use crate::analysis::Analysis;
use crate::assignment::Assignment;
use crate::guide::Guide;
use crate::learning::attach;
use base::{Refused, push};
use cdcl_kernel::Kernel;
use cdcl_log::{LoggedKernel, last_id};
use solver::SatError;

/// The core where a clause is false at level 0, which has no assumption.
pub fn empty_core(
    kernel: &mut LoggedKernel,
    guide: &mut Guide,
    conflict: u32,
    assume: &[i32],
) -> Result<Option<Vec<i32>>, SatError>
    ensures keeps { Keeps kernel.old kernel.new }
    ensures core { IfOk result (λ r. IfSome r (λ core. IsCore kernel.old.clauses assume.now core.items)) }
    ensures ends { IfOk result (λ r. IfSome r (λ core. Ends kernel.old kernel.new assume.now)) }
    ensures limit { IfErr result (λ e. e ≡ Limit full → IsFull kernel.new) }
{
    guide.analysis.begin();
    mark_clause_seen(
        kernel.known(),
        &guide.assignment,
        &mut guide.analysis,
        conflict,
    )?;
    guide.analysis.finish(conflict)?;
    checked_core(kernel, guide, assume)
}

/// The core where an assumption is false.
pub fn core_of_failed_assumption(
    kernel: &mut LoggedKernel,
    guide: &mut Guide,
    literal: i32,
    assume: &[i32],
) -> Result<Option<Vec<i32>>, SatError>
    requires { All (IsLiteral kernel.old.vars) assume.now }
    ensures keeps { Keeps kernel.old kernel.new }
    ensures core { IfOk result (λ r. IfSome r (λ core. IsCore kernel.old.clauses assume.now core.items)) }
    ensures ends { IfOk result (λ r. IfSome r (λ core. Ends kernel.old kernel.new assume.now)) }
    ensures limit { IfErr result (λ e. e ≡ Limit full → IsFull kernel.new) }
{
    let trail_index = guide.assignment.levels.trail_index_of(literal);
    let Some(reason) = guide.assignment.trail.reason(trail_index) else {
        return kernel.known().opposed_of(guide.alloc, assume);
    };
    let assignment = &guide.assignment;
    let analysis = &mut guide.analysis;
    analysis.begin();
    analysis.mark_seen(literal)?;
    push(&mut analysis.clause, literal.wrapping_neg())?;
    if assignment.level_of(literal) == 0 {
        analysis.finish(assignment.unit_id(literal))?;
    } else {
        analyse_final(kernel.known(), assignment, analysis, trail_index, reason)?;
    }
    learn_binary(kernel, guide, assume)?;
    checked_core(kernel, guide, assume)
}

/// Learns the clause in progress where it has two literals and denies two assumptions about a part, unless one clause says it
/// already: so it is asked whether two signals differ, and in other parts this clause alone says that they don't.
fn learn_binary(
    kernel: &mut LoggedKernel,
    guide: &mut Guide,
    assume: &[i32],
) -> Result<(), SatError>
    ensures keeps { Keeps kernel.old kernel.new }
    ensures limit { IfErr result (λ e. e ≡ Limit full → IsFull kernel.new) }
{
    let analysis = &guide.analysis;
    let is_about_two = guide.decisions.parts.is_part && assume.len() == 2;
    if !is_about_two || analysis.clause.len() != 2 || analysis.hints.len() < 2 {
        return Ok(());
    }
    let (clause, hints) = (analysis.clause.as_slice(), analysis.hints.as_slice());
    let is_kept = kernel.learn(guide.alloc, clause, hints)?;
    guide.statistics.count_learned(is_kept);
    if is_kept {
        attach(guide, last_id(kernel.known()))?;
    }
    Ok(())
}

/// The core that the clause in progress denies, where its hints show it.
fn checked_core(
    kernel: &mut LoggedKernel,
    guide: &mut Guide,
    assume: &[i32],
) -> Result<Option<Vec<i32>>, SatError>
    ensures keeps { Keeps kernel.old kernel.new }
    ensures core { IfOk result (λ r. IfSome r (λ core. IsCore kernel.old.clauses assume.now core.items)) }
    ensures ends { IfOk result (λ r. IfSome r (λ core. Ends kernel.old kernel.new assume.now)) }
    ensures limit { IfErr result (λ e. e ≡ Limit full → IsFull kernel.new) }
{
    let core = kernel.core_of(
        guide.alloc,
        guide.analysis.clause.as_slice(),
        guide.analysis.hints.as_slice(),
        assume,
    )?;
    guide.statistics.count_core(core.is_some());
    Ok(core)
}

/// Follows the reasons behind the literal at a trail index back to decisions, whose denials join the
/// clause in progress.
fn analyse_final(
    kernel: &Kernel,
    assignment: &Assignment,
    analysis: &mut Analysis,
    trail_index: usize,
    reason: u32,
) -> Result<(), Refused> {
    mark_clause_seen(kernel, assignment, analysis, reason)?;
    let mut before = trail_index;
    for _ in 0..trail_index {
        before = before.saturating_sub(1);
        let Some(literal) = assignment.trail.literal(before) else {
            break;
        };
        if assignment.level_of(literal) == 0 {
            break;
        }
        if !analysis.is_seen(literal) {
            continue;
        }
        match assignment.trail.reason(before) {
            None => push(&mut analysis.clause, literal.wrapping_neg())?,
            Some(id) => {
                analysis.push_antecedent(before, id)?;
                mark_clause_seen(kernel, assignment, analysis, id)?;
            }
        }
    }
    analysis.finish(reason)
}

/// Marks the clause's literals as seen, and hints what holds without decisions.
fn mark_clause_seen(
    kernel: &Kernel,
    assignment: &Assignment,
    analysis: &mut Analysis,
    id: u32,
) -> Result<(), Refused> {
    let Some(clause) = kernel.clause(id) else {
        return Ok(());
    };
    for literal in clause {
        if analysis.is_seen(*literal) {
            continue;
        }
        analysis.mark_seen(*literal)?;
        if assignment.level_of(*literal) == 0 {
            analysis.hint(assignment.unit_id(*literal))?;
        }
    }
    Ok(())
}

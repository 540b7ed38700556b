//! One line of a proof.

ghost use Rattle.base.specs.Witness.{witness};
ghost use Rattle.std.specs.Prelude.{◌≡◌, ◌≢◌, ◌<◌, ◌^◌, ℕ, pos, Bool, [], map, All, MatchResult, IfOk, IfErr};
ghost use Rattle.lrat.specs.Literals.{IsSatisfied, Satisfies};
ghost use Rattle.lrat.specs.Lines.{Leads, Conflicts, IsAcceptedLine};
ghost use Rattle.lrat.specs.Refusals.{IsRefusedLine};
ghost use Rattle.lrat.specs.Store.{find_in};
ghost use Rattle.lrat.specs.declared.fault.Fault.TheVariants.{OutOfMemory};
ghost use Rattle.lrat.specs.Faults.{StopsWithin, StopsLast};

use crate::clauses::Clauses;
use crate::fault::Fault;
use crate::hint::Hint;
use crate::look::{Left, look_found};
use crate::lookup::Lookup;
use crate::step_error::StepError;
use crate::trail::Trail;
use std::alloc::Global;

/// Checks that the hints show the clause (LRAT 2017): with its literals supposed false, the
/// clause of each hint but the last leaves one literal, which is set, and the last is false. A
/// refusal has the first cause: the literals from the left, the want of hints, then the hints in
/// order. The trail holds nothing before and after. It costs the literals of the clause and of
/// the hinted clauses, and their look-up.
pub fn derive_with<C: Lookup>(
    trail: &mut Trail,
    clauses: &C,
    clause: &[i32],
    hints: &[u32],
) -> Result<(), Fault>
    requires same_vars { trail.old.vars ≡ C.vars clauses.now }
    requires clear { trail.old.literals ≡ [] }
    requires not_zero { All (λ l. l ≢ pos 0) clause.now }
    ensures same { trail.new ≡ trail.old }
    ensures accepted { IfOk result (λ _. IsAcceptedLine (C.vars clauses.now) (C.find clauses.now) clause.now hints.now) }
    ensures refused { IfErr result (λ e. IsRefusedLine (C.vars clauses.now) (C.find clauses.now) clause.now hints.now e) }
    ensures complete { IfErr result (λ e. e ≢ OutOfMemory witness → IsAcceptedLine (C.vars clauses.now) (C.find clauses.now) clause.now hints.now → ⊥) }
    ensures sound { IfOk result (λ _. (v : ℕ → Bool) → Satisfies v (C.find clauses.now) → IsSatisfied v clause.now) }
{
    derive_hinted(trail, clauses, clause, hints)
}

/// `derive_with` by hints as the line has them.
pub(crate) fn derive_hinted<C: Lookup, H: Hint>(
    trail: &mut Trail,
    clauses: &C,
    clause: &[i32],
    hints: &[H],
) -> Result<(), Fault>
    requires same_vars { trail.old.vars ≡ C.vars clauses.now }
    requires clear { trail.old.literals ≡ [] }
    requires not_zero { All (λ l. l ≢ pos 0) clause.now }
    requires allowed { All H.allows hints.now }
    ensures same { trail.new ≡ trail.old }
    ensures accepted { IfOk result (λ _. IsAcceptedLine (C.vars clauses.now) (C.find clauses.now) clause.now (map H.named hints.now)) }
    ensures refused { IfErr result (λ e. IsRefusedLine (C.vars clauses.now) (C.find clauses.now) clause.now (map H.named hints.now) e) }
{
    let answer = check(trail, clauses, clause, hints);
    trail.clear();
    answer
}

/// `derive_with` on a trail of its own, which costs the number of variables. The refusal's line
/// is 0.
pub fn derive(
    alloc: Global,
    clauses: &Clauses,
    clause: &[i32],
    hints: &[u32],
) -> Result<(), StepError>
    requires few { clauses.now.vars < 2 ^ 31 }
    requires not_zero { All (λ l. l ≢ pos 0) clause.now }
    ensures accepted { IfOk result (λ _. IsAcceptedLine clauses.now.vars (find_in clauses.now) clause.now hints.now) }
    ensures refused { IfErr result (λ e. IsRefusedLine clauses.now.vars (find_in clauses.now) clause.now hints.now e.fault) }
    ensures place { IfErr result (λ e. e.line ≡ 0) }
    ensures complete { IfErr result (λ e. e.fault ≢ OutOfMemory witness → IsAcceptedLine clauses.now.vars (find_in clauses.now) clause.now hints.now → ⊥) }
    ensures sound { IfOk result (λ _. (v : ℕ → Bool) → Satisfies v (find_in clauses.now) → IsSatisfied v clause.now) }
{
    let mut trail = match Trail::new(alloc, clauses.vars()) {
        Ok(trail) => trail,
        Err(refused) => return Err(StepError::at(Fault::OutOfMemory(refused), 0)),
    };
    if let Err(fault) = derive_with(&mut trail, clauses, clause, hints) {
        return Err(StepError::at(fault, 0));
    }
    Ok(())
}

/// What `derive_with` answers. The trail stays as the check left it.
fn check<C: Lookup, H: Hint>(
    trail: &mut Trail,
    clauses: &C,
    clause: &[i32],
    hints: &[H],
) -> Result<(), Fault>
    requires same_vars { trail.old.vars ≡ C.vars clauses.now }
    requires clear { trail.old.literals ≡ [] }
    requires not_zero { All (λ l. l ≢ pos 0) clause.now }
    requires allowed { All H.allows hints.now }
    ensures vars { trail.new.vars ≡ trail.old.vars }
    ensures accepted { IfOk result (λ _. IsAcceptedLine (C.vars clauses.now) (C.find clauses.now) clause.now (map H.named hints.now)) }
    ensures refused { IfErr result (λ e. IsRefusedLine (C.vars clauses.now) (C.find clauses.now) clause.now (map H.named hints.now) e) }
{
    trail.suppose(clause)?;
    let Some((last, first)) = hints.split_last() else {
        return Err(Fault::NoHints);
    };
    follow(trail, clauses, first)?;
    conclude(trail, clauses, last.id())
}

/// Sets the one literal that the clause of each hint leaves. Many lines have one hint in all, and none here: then
/// nothing is called.
#[inline(always)]
fn follow<C: Lookup, H: Hint>(trail: &mut Trail, clauses: &C, hints: &[H]) -> Result<(), Fault>
    requires same_vars { trail.old.vars ≡ C.vars clauses.now }
    requires allowed { All H.allows hints.now }
    ensures vars { trail.new.vars ≡ trail.old.vars }
    ensures answer { MatchResult result (λ _. Leads (C.find clauses.now) trail.old.literals (map H.named hints.now) trail.new.literals) (λ e. StopsWithin (C.find clauses.now) trail.old.literals (map H.named hints.now) e) }
{
    if hints.is_empty() {
        return Ok(());
    }
    walk(trail, clauses, hints)
}

/// The same, hint by hint.
#[inline(never)]
fn walk<C: Lookup, H: Hint>(trail: &mut Trail, clauses: &C, hints: &[H]) -> Result<(), Fault>
    requires same_vars { trail.old.vars ≡ C.vars clauses.now }
    requires allowed { All H.allows hints.now }
    ensures vars { trail.new.vars ≡ trail.old.vars }
    ensures answer { MatchResult result (λ _. Leads (C.find clauses.now) trail.old.literals (map H.named hints.now) trail.new.literals) (λ e. StopsWithin (C.find clauses.now) trail.old.literals (map H.named hints.now) e) }
{
    for hint in hints {
        let Some(clause) = clauses.get(hint.id()) else {
            return Err(Fault::UnknownId);
        };
        match look_found(trail, clause) {
            Left::False => return Err(Fault::EarlyConflict),
            Left::Several => return Err(Fault::SeveralLeft),
            Left::One(literal) => {
                if trail.holds(literal) {
                    return Err(Fault::TrueAlready);
                }
                trail.set(literal)?;
            }
        }
    }
    Ok(())
}

/// Looks whether the clause of the last hint is false.
#[inline(always)]
fn conclude<C: Lookup>(trail: &Trail, clauses: &C, hint: u32) -> Result<(), Fault>
    requires { trail.now.vars ≡ C.vars clauses.now }
    ensures { MatchResult result (λ _. Conflicts (C.find clauses.now) trail.now.literals hint) (λ e. StopsLast (C.find clauses.now) trail.now.literals hint e) }
{
    let Some(clause) = clauses.get(hint) else {
        return Err(Fault::UnknownId);
    };
    match look_found(trail, clause) {
        Left::False => Ok(()),
        Left::One(_) => Err(Fault::NotFalse),
        Left::Several => Err(Fault::NotFalse),
    }
}

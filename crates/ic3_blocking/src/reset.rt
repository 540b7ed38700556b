//! Literals that every initial state sets.

ghost use Rattle.std.specs.Prelude.{◌≡◌, ◌↔◌, IsTrue, None, All, Contains, IfSome};
ghost use Rattle.ic3_frames.specs.Clauses.{IsResetLit};

use graph::Latch;
use states::StateLit;

/// Whether the literal's latch is reset to its value.
fn is_reset(latches: &[Latch], lit: StateLit) -> bool
    ensures { IsTrue result ↔ IsResetLit latches.now lit }
{
    match latches.get(lit.latch as usize) {
        Some(latch) => latch.reset.0 == if lit.value { 1 } else { 0 },
        None => false,
    }
}

/// A literal of the clause that every initial state sets, if it has one.
pub(crate) fn reset_literal(latches: &[Latch], clause: &[StateLit]) -> Option<StateLit>
    ensures some { IfSome result (λ a. Contains clause.now a × IsResetLit latches.now a) }
    ensures none { result ≡ None → All (λ a. IsResetLit latches.now a → ⊥) clause.now }
{
    'looking: for lit in clause {
        if is_reset(latches, *lit) {
            return Some(*lit);
        }
    }
    None
}

//! Where clauses lie in a flat list.

ghost use Rattle.std.specs.Prelude.{◌≡◌, ◌+◌, ◌≤◌, All, Contains, length, take};
ghost use Rattle.cdcl_kernel.specs.ClauseRefs.{AreInOrder, parts_at};

/// A clause reference: where the clause's literals lie in the flat list.
#[derive(Clone, Copy)]
pub struct ClauseRef {
    pub start: usize,
    pub len: usize,
}

/// Moves the clauses together at the front of the list, in their order, and answers how many
/// literals they have.
pub fn close_up(literals: &mut [i32], clause_refs: &mut [ClauseRef]) -> usize
    requires inside { All (λ p. p.start + p.len ≤ length literals.old) clause_refs.old }
    requires in_order { AreInOrder 0 clause_refs.old }
    ensures same { parts_at (take result literals.new) clause_refs.new ≡ parts_at literals.old clause_refs.old }
    ensures inside { All (λ p. p.start + p.len ≤ result) clause_refs.new }
    ensures in_order { AreInOrder 0 clause_refs.new }
    ensures fits { result ≤ length literals.old }
    ensures among { All (Contains literals.old) literals.new }
{
    let mut end = 0;
    for index in 0..clause_refs.len() {
        let clause_ref = clause_refs[index];
        literals.copy_within(clause_ref.start..clause_ref.start + clause_ref.len, end);
        clause_refs[index] = ClauseRef {
            start: end,
            len: clause_ref.len,
        };
        end += clause_ref.len;
    }
    end
}

//! Lines of proofs whose lists are borrowed.

/// A line of a proof, as `Line`, whose lists belong to something else.
#[derive(Clone, Copy)]
pub enum LineRef<'a> {
    /// The clause joins the others under the id. The hints are the ids of the clauses that show
    /// it, in the order in which they do.
    Add {
        id: u32,
        clause: &'a [i32],
        hints: &'a [i64],
    },
    /// The clauses with these ids are taken out. The line's own id says nothing.
    Delete {
        id: u32,
        ids: &'a [u32],
    },
}

//! Lines of proofs.

ghost use Rattle.std.specs.Prelude.{◌≡◌};
ghost use Rattle.lrat.specs.Buffered.{lent_line};

use crate::clause::Clause;
use crate::line_ref::LineRef;
use base::Seq;

/// A line of a proof.
#[derive(Drop)]
pub enum Line {
    /// The clause joins the others under the id. The hints are the ids of the clauses that show
    /// it, in the order in which they do.
    Add {
        id: u32,
        clause: Clause,
        hints: Seq<i64>,
    },
    /// The clauses with these ids are taken out. The line's own id says nothing.
    Delete {
        id: u32,
        ids: Seq<u32>,
    },
}

impl Line {
    /// The line, whose lists stay here.
    pub fn as_ref(&self) -> LineRef<'_>
        ensures { lent_line result ≡ self.now }
    {
        match self {
            Line::Add { id, clause, hints } => LineRef::Add {
                id: *id,
                clause: clause.as_slice(),
                hints: hints.as_slice(),
            },
            Line::Delete { id, ids } => LineRef::Delete {
                id: *id,
                ids: ids.as_slice(),
            },
        }
    }
}

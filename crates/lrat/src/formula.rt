//! Formulas in conjunctive form.

use crate::clause::Clause;
use base::Seq;

/// Clauses over the variables 1 to `vars`; in a proof their ids are 1, 2 and so on in order.
#[derive(Drop)]
pub struct Formula {
    /// the greatest variable that a literal may have
    pub vars: u32,
    /// the clauses, each of which is to have a true literal
    pub clauses: Seq<Clause>,
}

//! The answer to a query.

use crate::assignment::Assignment;
use base::Seq;
use graph::Lit;

/// What is known of the times at which some literals are true.
#[derive(Drop)]
pub enum Reply {
    /// There is one, with this state and these inputs.
    Found(Assignment),
    /// There is none at which these of the literals are true.
    Core(Seq<Lit>),
    /// The budget is exhausted.
    Spent,
}

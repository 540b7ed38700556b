//! What an invariant over any literals of a circuit, or of one that it is extended to, shows of a property.
//!
//! `show` has a certificate of version 3 made of the clauses (`certify3`). Nothing is assumed of whoever wrote them: its text is
//! answered only where it is accepted for the property that was asked about (`IsShown`).
#![tactic(auto)]

mod answer;
mod refusing;
mod showing;

pub use answer::{Cause, Shown};
pub use refusing::{no_property, refusal};
pub use showing::show;

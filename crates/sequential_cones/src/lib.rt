//! The variables on which literals rest at any time: a gate rests on its right sides, a latch on its next literal.
//!
//! `cone_of` marks those of a literal and of the constraints. It is a search that is tested: where the marks are no cone, all
//! variables would be one. `is_marked` and `is_over` read the marks.
#![tactic(auto)]

mod cone;

pub use cone::{cone_of, is_marked, is_over};

//! What is answered of a property, when engines are asked.
//!
//! - `decide` asks each engine once, in order, up to the first that has evidence or refuses (`Asks`). Whoever wrote the engines, a violation is answered only
//!   where its replay shows it, and that a property holds only with a certificate that is accepted
//!   (`IsBacked`). If all of them are honest, what is not known means what
//!   it says (`IsMeant`): that the budget is exhausted, or how far no run sets the bad literal.
//! - `decide_by` asks one engine so.
//! - `show` puts a verdict as the text of a stimulus, and answers its status: 0, 1 or 2.
#![tactic(auto)]

mod asking;
mod decide_error;
mod deciding;
mod reasons;
mod showing;
mod verdict;

pub use decide_error::DecideError;
pub use deciding::{decide, decide_by};
pub use showing::show;
pub use verdict::Verdict;

//! The commands of `aigmc` that look for evidence. `portfolio` says which engines are asked.
#![tactic(auto)]

mod checking;
mod covering;
mod mapping;
mod showing;
mod strengthening;
mod telling;
mod timing;
mod vacuity;

pub use checking::{check, check_all, check_miter};
pub use covering::cover;
pub use mapping::MapFile;
pub use strengthening::certify_clauses;
pub use timing::begin;

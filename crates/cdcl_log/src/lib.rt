//! The kernel of a conflict-driven solver with a log of what it learns, and what is made of that log.
//!
//! `LoggedKernel` is `cdcl_kernel`'s `Kernel`, where one is wanted with a line for each clause that is learned. From
//! the log come refutations of the clauses with some units: a proof for one list of units, or for many
//! lists what shows each (`Closing`), the lines that they share (`Lemmas`) and the one line that is
//! then left of each (`section`). What steers the search stands above, and no proof rests on it.
#![tactic(auto)]

mod closing;
mod lemmas;
mod lines;
mod loading;
mod logged_kernel;
mod logging;
mod numbering;
mod selection;
mod shown;

pub use closing::opposed_closing;
pub use lemmas::{Lemmas, section};
pub use lines::last_id;
pub use logged_kernel::LoggedKernel;
pub use shown::{Closing, Shown};

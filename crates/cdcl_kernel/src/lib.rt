//! The proved core of a conflict-driven solver.
//!
//! `Kernel` keeps clauses by their ids, and nothing else: no trail, no reasons, no levels. The
//! search above it may choose what it likes, for nothing that it asks can make an answer wrong:
//!
//! - A learned clause joins only where its hints show it (LRAT 2017), so every clause that is
//!   kept follows from those that were added.
//! - Values are answered only where they satisfy each added clause and all assumptions, or fit
//!   each gate of the part that is asked for. The search gives the literals that have these
//!   values, and it does not matter how it came to them.
//! - A core is answered only where a clause that denies assumptions alone is shown.
//!
//! Ids are 1, 2 and so on, and never shift. Forgotten clauses leave room in the flat list of
//! literals, which is closed up, without memory, where more than half of it is dead.
#![tactic(auto)]

mod clause_ref;
mod kernel;
mod literals;
mod origin;
mod sorted;
mod store;
mod values;
mod verdict;

pub use kernel::Kernel;
pub use origin::Origin;
pub use values::values_of;

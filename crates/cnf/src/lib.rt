//! Circuits as clauses (Tseitin 1968), and the cases that show an invariant.
//!
//! - `frame` is satisfied exactly by the valuations that agree with the circuit's gates.
//! - `start_base` and `shared_base` are what the cases of an invariant begin with, a list of clauses
//!   over the latches, and `init_units`, `step_units` and `bad_unit` the literals that follow, each
//!   as a clause of its own. So all cases can be checked over two formulas. Where nothing satisfies
//!   any case, the circuit is safe: no run that keeps the constraints sets the literal that is asked
//!   about.
//! - `begin_row`, `pair_row` and `bad_row` are the same for clauses over any variables of the
//!   circuit, gates and inputs too: over one time, over two times and over one.
//! - `unroll` is satisfied exactly by the runs of a number of steps that keep the constraints, and
//!   `extension` is what it has beyond that of one step less.
//!
//! Each formula is the list of clauses that `specs/` names, in its order. Variable `v` of the
//! circuit is variable `v` of the clauses, and the one above the greatest is true. Each call costs
//! what the formula is long; a case costs its circuit and its invariant.
//! Only `unroll` and `extension` have a limit; every other call is refused only when out of memory.
#![tactic(auto)]

mod bases;
mod error;
mod next_table;
mod push;
mod rows;
mod time_frame;
mod units;
mod unrolling;

pub use bases::{frame, shared_base, shared_row, start_base, start_row};
pub use error::CnfError;
pub use next_table::NextTable;
pub use push::gates_of;
pub use rows::{bad_row, begin_row, clause_into, pair_row};
pub use time_frame::TimeFrame;
pub use units::{bad_unit, init_units, init_units_into, step_units, step_units_into};
pub use unrolling::{extension, unroll};

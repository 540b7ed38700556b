//! The times of a circuit in a solver, one after the other, as bounded search wants them (Biere, Cimatti, Clarke, Zhu 1999).
//!
//! `cone_of` says what is encoded of each time, `begin` begins with none, and `Unrolling::encode` adds the next: the solver gets its
//! constraints, and the functions on which these and the bad literals depend. `literal` is a literal of the circuit at that time.
//!
//! Only the cone of the bad literals and the constraints is
//! encoded, by cuts (`cuts`): a gate is a function of at most four variables, its leaves, and a gate that
//! only lies inside of others' cuts is not encoded. A table has the literal of clauses for each variable that
//! is encoded: a latch has that of its next literal at the time before, or the constant that it is reset to;
//! a gate has that of its function of the leaves' literals: a constant, one of these, or a variable that it
//! shares with all equal functions, at any time (structural hashing). The solver gets the clauses of those
//! functions alone on which a constraint or a bad literal depends at its own time, once each: those of a
//! cover of the function, and of a cover of its complement (`truth_tables`). What satisfies the clauses is
//! completed to a run, by proof.
#![tactic(auto)]

mod clauses;
mod cone;
mod demand;
mod encoder;
mod frame;
mod function;
mod representatives;
mod sweeping;
mod unrolling;

pub use cone::{Cone, cone_of};
pub use frame::literal;
pub use sweeping::Sweeping;
pub use unrolling::{Unrolling, begin};

//! Guessing which latches are equal, opposite or constant, as where two circuits are compared.
//!
//! `Guessing` is an engine that answers clauses which say so, and of which nothing is proved: it is not honest, and who asks it has a
//! certificate made (`verdict::decide_by`). So it may leave out what register correspondence (`correspondence`) cannot:
//!
//! - It asks about a circuit in which the latches of a class are read as one of them, and gates that read the same as the first
//!   of them (`Reduced`). What is the same literal there is not asked about. Of two copies hardly anything is left.
//! - A round behind the first asks about those latches alone of which a class changed that they or their leads are made of
//!   (`affected`), and has the gates of these alone.
//! - A state in which a class splits is one of the gates that a question is about: other latches have any values in it.
//! - The last round is the certificate's.
//!
//! It gives up where the simulated classes are not those of two copies, or those of the first round don't exclude the bad literal.
#![tactic(auto)]

mod affected;
mod clauses;
mod guessing;
mod loading;
mod marks;
mod pairs;
mod reduced;
mod rounds;
mod sweeping;
mod unit;

pub use guessing::Guessing;

//! Witness circuits, as the hardware model checking competition takes them (Certifaiger; Yu, Biere, Heljanko 2021):
//! circuits that have the inputs and latches of another one, the model, and whose property is inductive.
//!
//! - `witness_of` makes one of the clauses of a certificate of any version. It has the model's inputs,
//!   latches, gates and constraints, the latches and gates that the certificate adds, and gates that say
//!   whether all clauses are true. Its one bad literal is set exactly where the model's is, or where a
//!   clause is false (`IsWitness`). Its symbols say which input or latch of the model each one is.
//! - Nothing is believed of the clauses, and nothing is said of them: a circuit is a witness where they are
//!   inductive, which a certificate shows.
#![tactic(auto)]

mod error;
mod property;
mod sizes;
mod symbols;
mod writing;

pub use error::MakeError;
pub use sizes::variables_left;
pub use writing::witness_of;

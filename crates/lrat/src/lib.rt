//! Clause proofs and their check.
//!
//! A proof is a list of lines in a strict profile of LRAT without RAT steps (Cruz-Filipe, Heule,
//! Hunt, Kaufmann, Schneider-Kamp 2017): a line adds a clause with the ids of the clauses that
//! show it, or deletes clauses.
//!
//! - `derive_with` checks one line over any clauses with ids (`Lookup`). It answers Ok exactly
//!   where the line is accepted; then whatever satisfies the clauses satisfies the line's clause.
//! - `refutes` checks a proof of a formula. It answers Ok exactly where the proof is accepted;
//!   then nothing satisfies the formula. Each refusal has its first cause and that line.
//! - `Refuter` does the same line by line, for many refutations that begin with one formula, or
//!   with one formula and lemmas.
//! - `ClauseRow` is a list of clauses for a `Refuter` to take over. AND gates stand among them as they
//!   are kept elsewhere, as three literals each, for one time or for several.
//! - `extends` checks lines that follow from a formula, as lemmas that many refutations share.
//! - `read` and `parse_line` answer Ok exactly on the texts that spell a proof and a line, want of
//!   memory aside; `write` puts the one text that spells a proof. `next_line` is for readers of
//!   texts that have lines of proofs among other things.
//!
//! Literals are integers: `n` is the variable `n`, and `-n` says that it is false.
#![tactic(auto)]

mod clause;
mod clause_row;
mod clauses;
mod derivation;
mod extension;
mod fault;
mod formula;
mod found_clause;
mod gate_literals;
mod hint;
mod line;
mod line_buffer;
mod line_ref;
mod look;
mod lookup;
mod lrat_error;
mod lrat_write_error;
mod mark;
mod place;
mod proof;
mod reading;
mod refutation;
mod refuter;
mod row;
mod run;
mod shelf;
mod stack;
mod step_error;
mod text;
mod trail;
mod writing;

pub use clause::Clause;
pub use clause_row::{AddClause, ClauseRow};
pub use clauses::Clauses;
pub use derivation::{derive, derive_with};
pub use extension::extends;
pub use fault::Fault;
pub use formula::Formula;
pub use found_clause::FoundClause;
pub use gate_literals::GateLiterals;
pub use line::Line;
pub use line_buffer::LineBuffer;
pub use line_ref::LineRef;
pub use look::{Left, look as look_at};
pub use lookup::Lookup;
pub use lrat_error::LratError;
pub use lrat_write_error::LratWriteError;
pub use proof::Proof;
pub use reading::next_line;
pub use refutation::refutes;
pub use refuter::Refuter;
pub use step_error::StepError;
pub use text::{parse_line, read};
pub use trail::Trail;
pub use writing::write;

//! A safe inductive subset of an invariant: clauses of it that are an invariant by themselves and exclude the
//! bad literal (Ivrii, Gurfinkel, Belov: Small Inductive Safe Invariants, FMCAD 2014).
//!
//! IC3 finds an invariant with clauses that the proof does not need. Each clause gets a guard in one incremental
//! solver. The core of the bad case says which clauses exclude the bad literal; the core of each of these
//! clauses' step cases says which ones keep it; and so on, until no clause is new. What is left is fewer cases to
//! prove, and a shorter certificate.
//!
//! It asks as many queries as clauses are needed, and one more. It costs the circuit once, and the invariant at
//! each query.
#![tactic(auto)]

mod asking;
mod loading;
mod needed;
mod subset;

pub use subset::safe_inductive_subset;

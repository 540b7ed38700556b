//! Signal correspondence (van Eijk 2000): signals of a circuit that are equal at every time, or true wherever others are.
//!
//! - `decide_signals` looks for such signals (`signal_rounds`). Where their clauses exclude the property's literal, they
//!   are the clauses of a certificate of version 3. Its text is answered only where it is accepted for the property that was
//!   asked about.
#![tactic(auto)]

mod deciding;

pub use deciding::decide_signals;

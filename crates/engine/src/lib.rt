//! Engines: what looks for evidence about a circuit with one bad literal, and what it may answer.
//!
//! - `Finding` is a run, an invariant, or an honest unknown with its `Reason`.
//! - `Engine` is what every engine keeps to. Its meaning says of each object whether it is honest;
//!   what an honest one answers is so (`IsSo`): its run shows the bad literal, its invariant is
//!   inductive, its unknown means what it says. A caller's own engine may be dishonest, so
//!   whoever asks it checks what it answers. Each engine also says itself what it may answer (`answers`).
//! - `InOrder` asks one engine, and another one behind it.
//! - `Counters` are what engines counted, to watch a search by.
//! - `Progress` is told how far a search has come, and `Silent` is one that does nothing.
#![tactic(auto)]

mod counters;
mod engine;
mod engine_error;
mod finding;
mod in_order;
mod progress;

pub use counters::{Counter, Counters};
pub use engine::Engine;
pub use engine_error::EngineError;
pub use finding::{Finding, Reason};
pub use in_order::InOrder;
pub use progress::{Progress, Silent};

//! The commands of `aigmc` that search for nothing: circuits that are made of circuits or of certificates, stimuli of
//! counterexamples, and traces.
#![tactic(auto)]

mod certifying;
mod comparing;
mod making;
mod tracing;
mod witnessing;

pub use certifying::make_witness_circuit;
pub use comparing::{Miter, Pair};
pub use making::{extract, make_fitting, make_shadow};
pub use tracing::trace;
pub use witnessing::make_witness;

//! Properties shown by induction over several times (k-induction; Sheeran, Singh, Stålmarck 2000).
//!
//! `decide_by_induction` looks for a window that is long enough (`induction_windows`). The solver is not believed: that the property
//! holds is answered only with a certificate of version 3 that is accepted (`shown`). Its latches say what the circuit was
//! like before.
#![tactic(auto)]

mod deciding;

pub use deciding::decide_by_induction;

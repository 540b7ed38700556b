//! What is answered of a property.

use certificate::Certificate;
use engine::Reason;
use stimulus::Stimulus;

/// What is answered of a property of a circuit.
#[derive(Drop)]
pub enum Verdict {
    /// No run violates it, as the certificate shows.
    Safe(Certificate),
    /// A run violates it, as the replay of the stimulus shows.
    Unsafe(Stimulus),
    /// Nothing is known.
    Unknown(Reason),
}

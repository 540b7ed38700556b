//! What is answered of a justice property.

use base::Seq;

/// Why nothing is known.
#[derive(Clone, Copy)]
pub enum Cause {
    /// The budget is exhausted.
    Budget,
    /// No run of at most one time more than this holds more rounds than were asked about last.
    Depth(u32),
    /// The engine had no evidence.
    NoEvidence,
    /// The certificate that was made is not accepted.
    Unaccepted,
    /// A run holds more rounds than there are states. So some run violates the property.
    Unbounded,
    /// The circuit that counts the next number of rounds has more than 4,194,303 variables.
    Variables,
}

/// What is answered of a justice property.
#[derive(Drop)]
pub enum Counted {
    /// No run that keeps the constraints holds more rounds than this number.
    Bounded {
        /// the number
        rounds: u32,
        /// the text of a certificate of version 3 that says so
        certificate: Seq<u8>,
    },
    /// Nothing is known.
    Unknown {
        /// why
        cause: Cause,
        /// how many rounds a run holds, as its replay showed
        held: u32,
    },
}

//! What is answered of a property.

use base::Seq;

/// Why nothing is known.
#[derive(Clone, Copy)]
pub enum Cause {
    /// The budget is exhausted.
    Budget,
    /// What was found does not show the property, as far as was asked.
    Open,
    /// A circuit that is to be looked at has more than 4,194,303 variables.
    Variables,
    /// The certificate that was made is not accepted.
    Unaccepted,
}

/// What is answered of a property.
#[derive(Drop)]
pub enum Shown {
    /// The property holds, as this text of a certificate of version 3 says.
    Holds(Seq<u8>),
    /// Nothing is known.
    Unknown(Cause),
}

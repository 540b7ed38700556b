//! The limits of a circuit. AIGER 1.9 sets none; these are the project's.

/// The greatest variable, and the greatest count of anything that a circuit or a certificate has.
pub const MOST_VARIABLES: u32 = 4_194_303;

/// How many bytes the text of a circuit may have, in either layout.
pub const LONGEST_TEXT: usize = 67_108_864;

//! How many variables there may be.

use graph::MOST_VARIABLES;

/// The greatest variable that a circuit may have.
pub const MAX_VAR: usize = MOST_VARIABLES as usize;

//! Whether a run keeps the constraints at all.

use aigmc_files::{CommandError, ExitError};
use graph::Model;
use portfolio::{Deadline, is_shown_safe};
use std::alloc::Global;
use transforms::always_bad;

/// Whether a certificate that is found in time shows that no run keeps the circuit's constraints: then every property holds,
/// whatever the circuit does.
pub fn is_vacuous(alloc: Global, circuit: &Model, deadline: Deadline) -> Result<bool, ExitError> {
    if circuit.constraints().is_empty() {
        return Ok(false);
    }
    let covered = always_bad(alloc, circuit)?;
    let is_shown = is_shown_safe(alloc, &covered, deadline).map_err(CommandError::from)?;
    Ok(is_shown)
}

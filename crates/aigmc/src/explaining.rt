//! The command `explain`.

use aigmc_files::{DONE, ExitError, finished};
use explanations::explained;

/// Prints what the number means, and what to do about it.
pub fn explain(rt: &HostRuntime, number: u8) -> Result<u8, ExitError> {
    let row = explained(number).ok_or(ExitError::BadArgument)?;
    finished(println!(rt; "{number}: {}", row.meaning))?;
    finished(println!(rt; "{}", row.remedy))?;
    Ok(DONE)
}

//! The command `recertify`: a certificate of any version becomes one of version 3.

use crate::third::kept;
use aigmc_files::{Claimed, ExitError, circuit, claimed_in, is_taken};
use arguments::Recertification;
use certificate3::Format;
use certify3::Effort;
use graph::{Model, Property};
use inputs::is_standard;

/// Refuses a certificate of version 1 or 2 of a justice property: its clauses are over another circuit than those of
/// version 3.
fn expect_same_circuit(rt: &HostRuntime, claimed: &Claimed) -> Result<(), ExitError> {
    match (claimed.format, claimed.claim.property) {
        (Format::Earlier(_), Property::Justice(_)) => {
            let _ = eprintln!(rt;
                "aigmc: of a justice property the clauses are over another circuit than those of version 3"
            );
            Err(ExitError::Told)
        }
        _ => Ok(()),
    }
}

/// The same as `recertify` of a circuit that was read.
fn recertify_over(
    rt: &HostRuntime,
    asked: Recertification<'_>,
    circuit: &Model,
) -> Result<u8, ExitError> {
    let (_text, claimed) = claimed_in(rt, asked.certificate)?;
    expect_same_circuit(rt, &claimed)?;
    let effort = Effort::Thorough;
    kept(
        rt,
        asked.out,
        circuit,
        circuit,
        claimed,
        effort,
        asked.budget,
    )
}

/// Makes a certificate of version 3 of the claim and the clauses of a certificate, in the file of that name.
pub fn recertify(rt: &HostRuntime, asked: Recertification<'_>) -> Result<u8, ExitError> {
    if is_standard(asked.file) && is_standard(asked.certificate) {
        return Err(ExitError::BadArgument);
    }
    let out = asked.out;
    if is_taken(rt, asked.file, out) || is_taken(rt, asked.certificate, out) {
        return Err(ExitError::Taken);
    }
    let file = circuit(rt, asked.file)?;
    recertify_over(rt, asked, file.model())
}

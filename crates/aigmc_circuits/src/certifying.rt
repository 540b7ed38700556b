//! The command `to-witness`: an accepted certificate becomes a witness circuit.

use aiger::Layout;
use aigmc_files::{
    Claimed, DONE, ExitError, Fitted, Role, about, circuit, claimed_in, expect_safety,
    fitted_witness, is_same, make, path_of, refused_text,
};
use arguments::WitnessCircuit;
use base::FromBytes;
use certificate3::Format;
use checker2::check;
use graph::Model;
use inputs::is_standard;
use std::alloc::Global;

/// Refuses a certificate of version 1 or 2 that is not accepted for the circuit.
fn expect_earlier(alloc: Global, circuit: &Model, text: &[u8]) -> Result<(), ExitError> {
    let certificate = match certificate::read(alloc, text) {
        Ok(certificate) => certificate,
        Err(error) => {
            return Err(ExitError::Fault {
                number: error.number(),
                place: error.place(),
            });
        }
    };
    match check(alloc, circuit, &certificate) {
        Ok(()) => Ok(()),
        Err(error) => Err(ExitError::Fault {
            number: error.number(),
            place: error.place(),
        }),
    }
}

/// Refuses a certificate of version 3 that is not accepted for the circuit.
fn expect_third(alloc: Global, circuit: &Model, text: &[u8]) -> Result<(), ExitError> {
    let outcome = match checker3::check_source(alloc, circuit, &mut FromBytes::new(text)) {
        Ok(outcome) => outcome,
        Err(error) => return Err(refused_text(error)),
    };
    match outcome.refusal {
        None => Ok(()),
        Some(refusal) => Err(ExitError::Fault {
            number: refusal.number(),
            place: refusal.place(),
        }),
    }
}

/// Refuses a certificate that is not accepted for the circuit.
fn expect_accepted(
    alloc: Global,
    circuit: &Model,
    format: Format,
    text: &[u8],
) -> Result<(), ExitError> {
    match format {
        Format::Earlier(_) => expect_earlier(alloc, circuit, text),
        Format::Three => expect_third(alloc, circuit, text),
    }
}

/// Refuses a certificate of this text that claims this, where it is of a justice property or not accepted for the circuit.
fn expect_claim(
    rt: &HostRuntime,
    circuit: &Model,
    claimed: &Claimed,
    text: &[u8],
) -> Result<(), ExitError> {
    expect_safety(rt, claimed.claim.property)?;
    let accepted = expect_accepted(rt.alloc(), circuit, claimed.format, text);
    about(Role::Invariant, accepted)
}

/// The witness circuit of what is claimed about the circuit.
fn witness_of_claim(
    alloc: Global,
    circuit: &Model,
    claimed: &Claimed,
    layout: Layout,
) -> Result<Fitted, ExitError> {
    fitted_witness(
        alloc,
        circuit,
        claimed.claim.property,
        claimed.latches.as_slice(),
        claimed.gates.as_slice(),
        &claimed.invariant,
        layout,
    )
}

/// The witness circuit of the certificate in the file of this name, which is accepted for the circuit.
fn witness_in(
    rt: &HostRuntime,
    name: &str,
    circuit: &Model,
    layout: Layout,
) -> Result<Fitted, ExitError> {
    let (text, claimed) = claimed_in(rt, name)?;
    expect_claim(rt, circuit, &claimed, text.as_slice())?;
    witness_of_claim(rt.alloc(), circuit, &claimed, layout)
}

/// The same of the circuit and the certificate in the files that are named.
fn witness_of(
    rt: &HostRuntime,
    asked: WitnessCircuit<'_>,
    layout: Layout,
) -> Result<Fitted, ExitError> {
    let file = circuit(rt, asked.file)?;
    witness_in(rt, asked.certificate, file.model(), layout)
}

/// Makes the file of that name with the witness circuit.
fn keep_witness(
    rt: &HostRuntime,
    out: &str,
    fitted: &Fitted,
    layout: Layout,
) -> Result<u8, ExitError> {
    make(rt, out, &fitted.file, layout)?;
    Ok(DONE)
}

/// Makes the file of that name with the witness circuit of a certificate that is accepted.
pub fn make_witness_circuit(rt: &HostRuntime, asked: WitnessCircuit<'_>) -> Result<u8, ExitError> {
    let out = asked.out;
    let layout = Layout::of_name(out).ok_or(ExitError::BadArgument)?;
    if is_standard(asked.file) && is_standard(asked.certificate) {
        return Err(ExitError::BadArgument);
    }
    if is_same(rt, out, path_of(asked.file)) || is_same(rt, out, path_of(asked.certificate)) {
        return Err(ExitError::Taken);
    }
    let fitted = witness_of(rt, asked, layout)?;
    keep_witness(rt, out, &fitted, layout)
}

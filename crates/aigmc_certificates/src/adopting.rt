//! The command `certify`: what other engines found becomes evidence.

use crate::counterexample::tell_counterexample;
use crate::extending::claimed_over;
use crate::third::{NO_INVARIANT, kept};
use aigmc_files::{
    DONE, EvidenceFile, ExitError, Role, UNKNOWN, about, asked_for, circuit, circuit_of, is_taken,
    keep, property_in, read_of, read_text,
};
use arguments::Claim;
use base::{Budget, Seq};
use certify::{Certified, certify};
use certify3::Effort;
use graph::{AigerFile, Lit, Model, Property};
use inputs::is_standard;
use std::alloc::Global;
use transforms::shadow_file;
use verdict::Verdict;

/// What became of the clauses.
#[derive(Drop)]
pub enum Adopted {
    /// A certificate was made, or standard error says why none was: the status.
    Ended(u8),
    /// They are no invariant, and one that begins with them is to be looked for.
    Strengthen {
        /// the circuit
        file: AigerFile,
        /// the property
        property: Property,
        /// the clauses
        clauses: Seq<Seq<Lit>>,
    },
}

/// Whether the text begins as a PLA does, and as no line of clauses and no certificate.
fn is_pla(text: &[u8]) -> bool {
    matches!(text, [b'.' | b'#', ..])
}

/// The clauses that the PLA spells, over the latches of the circuit in `file`.
fn pla_over(alloc: Global, file: &AigerFile, text: &[u8]) -> Result<Seq<Seq<Lit>>, ExitError> {
    let clauses = invariant::read_pla(alloc, file, text)?;
    Ok(clauses)
}

/// The clauses that the PLA spells, over the latches of the circuit that is asked about: of a justice property its shadow
/// circuit.
fn pla_clauses(
    alloc: Global,
    file: &AigerFile,
    property: Property,
    text: &[u8],
) -> Result<Seq<Seq<Lit>>, ExitError> {
    let Property::Justice(position) = property else {
        return about(Role::Invariant, pla_over(alloc, file, text));
    };
    let shadow = shadow_file(alloc, file, position).map_err(ExitError::from);
    let shadow = about(Role::Circuit, shadow)?;
    about(Role::Invariant, pla_over(alloc, &shadow, text))
}

/// The clauses that the text spells, a line for each or in a certificate.
fn line_clauses(alloc: Global, text: &[u8]) -> Result<Seq<Seq<Lit>>, ExitError> {
    let clauses = invariant::read(alloc, text)?;
    Ok(clauses)
}

/// Refuses a certificate of version 3: its clauses may be over more than the circuit, and of a justice property they are over the
/// circuit that counts its rounds.
fn expect_earlier(rt: &HostRuntime, text: &[u8]) -> Result<(), ExitError> {
    if text.starts_with(b"aigcert 3\n") {
        let _ = eprintln!(rt;
            "aigmc: certify takes the clauses of certificates of version 1 and 2, recertify those of version 3"
        );
        return Err(ExitError::Told);
    }
    Ok(())
}

/// The clauses in the text, over the latches of the circuit that is asked about.
fn clauses_in(
    rt: &HostRuntime,
    text: &[u8],
    file: &AigerFile,
    property: Property,
) -> Result<Seq<Seq<Lit>>, ExitError> {
    expect_earlier(rt, text)?;
    if is_pla(text) {
        pla_clauses(rt.alloc(), file, property, text)
    } else {
        about(Role::Invariant, line_clauses(rt.alloc(), text))
    }
}

/// The clauses in the file of this name, over the latches of the circuit that is asked about.
fn clauses_of(
    rt: &HostRuntime,
    name: &str,
    file: &AigerFile,
    property: Property,
) -> Result<Seq<Seq<Lit>>, ExitError> {
    let text = read_of(Role::Invariant, read_text(rt, name))?;
    clauses_in(rt, text.as_slice(), file, property)
}

/// Makes a certificate of the clauses, each case of which is proved. Where none was made, standard error says why; the
/// status is none where an invariant that begins with them is to be looked for.
fn certified(
    rt: &HostRuntime,
    asked: Claim<'_>,
    property: Property,
    file: &AigerFile,
    clauses: &[Seq<Lit>],
) -> Result<Option<u8>, ExitError> {
    let mut budget = Budget::new(asked.budget);
    let outcome = certify(rt.alloc(), file.model(), property, clauses, &mut budget)?;
    match outcome {
        Certified::Certificate(certificate) => {
            let to = EvidenceFile::plain(asked.certificate);
            keep(rt, to, property, &Verdict::Safe(certificate))?;
            Ok(Some(DONE))
        }
        Certified::NotInvariant(_) if asked.strengthen => Ok(None),
        Certified::NotInvariant(found) => {
            tell_counterexample(rt, file.model(), property, &found)?;
            Ok(Some(NO_INVARIANT))
        }
        Certified::Spent => {
            let _ = eprintln!(rt; "aigmc: the budget is exhausted");
            Ok(Some(UNKNOWN))
        }
    }
}

/// What became of clauses over the circuit.
#[derive(Drop)]
enum Tried {
    /// A certificate was made, or standard error says why none was: the status.
    Ended(u8),
    /// They are no invariant, and one that begins with them is to be looked for.
    Open(Seq<Seq<Lit>>),
}

/// Makes a certificate of the clauses in the file that is named, of which each case is proved over the circuit.
fn tried_clauses(
    rt: &HostRuntime,
    asked: Claim<'_>,
    property: Property,
    file: &AigerFile,
) -> Result<Tried, ExitError> {
    let clauses = clauses_of(rt, asked.invariant, file, property)?;
    let made = certified(rt, asked, property, file, clauses.as_slice());
    match about(Role::Circuit, made)? {
        Some(status) => Ok(Tried::Ended(status)),
        None => Ok(Tried::Open(clauses)),
    }
}

/// The same, with the circuit where an invariant is to be looked for.
fn certified_clauses(
    rt: &HostRuntime,
    asked: Claim<'_>,
    property: Property,
    file: AigerFile,
) -> Result<Adopted, ExitError> {
    match tried_clauses(rt, asked, property, &file)? {
        Tried::Ended(status) => Ok(Adopted::Ended(status)),
        Tried::Open(clauses) => Ok(Adopted::Strengthen {
            file,
            property,
            clauses,
        }),
    }
}

/// Makes a certificate of version 3 of the clauses in the file that is named, over the extended circuit.
fn keep_over(
    rt: &HostRuntime,
    asked: Claim<'_>,
    property: Property,
    circuit: &Model,
    extended: &AigerFile,
) -> Result<u8, ExitError> {
    let clauses = clauses_of(rt, asked.invariant, extended, property)?;
    let claimed = claimed_over(rt, circuit, extended.model(), property, clauses)?;
    let out = asked.certificate;
    let shown = extended.model();
    kept(
        rt,
        out,
        circuit,
        shown,
        claimed,
        Effort::Quick,
        asked.budget,
    )
}

/// Makes a certificate of version 3 of the clauses in the file that is named, over the circuit in the file of the
/// extension's name.
fn certified_over(
    rt: &HostRuntime,
    asked: Claim<'_>,
    property: Property,
    file: &AigerFile,
    extension: &str,
) -> Result<u8, ExitError> {
    if let Property::Justice(_) = property {
        return Err(ExitError::BadArgument);
    }
    if asked.strengthen || is_standard(extension) {
        return Err(ExitError::BadArgument);
    }
    if is_taken(rt, extension, asked.certificate) {
        return Err(ExitError::Taken);
    }
    let extended = circuit_of(rt, extension, Role::Other)?;
    keep_over(rt, asked, property, file.model(), &extended)
}

/// Makes a certificate of the clauses in a file, in the file of that name.
pub fn certify_clauses(rt: &HostRuntime, asked: Claim<'_>) -> Result<Adopted, ExitError> {
    let word = asked_for(asked.property)?;
    if is_standard(asked.file) && is_standard(asked.invariant) {
        return Err(ExitError::BadArgument);
    }
    let out = asked.certificate;
    if is_taken(rt, asked.file, out) || is_taken(rt, asked.invariant, out) {
        return Err(ExitError::Taken);
    }
    let file = circuit(rt, asked.file)?;
    let property = property_in(rt, asked.file, &file, word, asked.verbose)?;
    match asked.extension {
        None => certified_clauses(rt, asked, property, file),
        Some(extension) => certified_over(rt, asked, property, &file, extension).map(
            Adopted::Ended,
        ),
    }
}

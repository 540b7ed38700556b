//! Refusals by number and place, and their words: what no line of a command has.

use aag::AagWriteError;
use aig::AigWriteError;
use aiger::LoadError;
use certificate::{CertError, CertWriteError};
use cnf::CnfError;
use graph::ReadError;
use live_safe::LiveError;
use lrat::{Fault, LratError, LratWriteError, StepError};
use simulate::ReplayError;
use std::alloc::Global;
use std::fmt::Display;
use std::test::Fail;

/// Whether those of a circuit that is written have their numbers, and no place.
fn writing_has_numbers() -> bool {
    let (unordered, device) = (AigWriteError::Unordered, AigWriteError::Device);
    let are_numbered = unordered.number() == 17 && device.number() == 21;
    are_numbered && unordered.place() == 0 && device.place() == 0
}

/// Whether those of a certificate that is written, and of a circuit that is loaded, have their numbers and places.
fn sections_have_numbers() -> bool {
    let (sections, load) = (CertWriteError::Sections { found: 2 }, LoadError::Device);
    let are_numbered = sections.number() == 34 && load.number() == 21;
    are_numbered && sections.place() == 2 && load.place() == 0
}

/// Whether those of steps and of shadow circuits have their numbers and places.
fn limits_have_numbers() -> bool {
    let missing = LiveError::NoProperty(4_294_967_295);
    let (shadow, steps) = (LiveError::Limit, CnfError::Limit);
    let are_numbered = missing.number() == 30 && shadow.number() == 4 && steps.number() == 4;
    are_numbered && missing.place() == 4_294_967_295 && shadow.place() == 0 && steps.place() == 0
}

/// Whether those of texts and of a replay have their numbers and places.
fn texts_have_numbers() -> bool {
    let against = ReplayError::InitialReset { latch: 1 };
    let long = ReadError::TooLong;
    let line = LratError::Number { place: 0 };
    let are_numbered = against.number() == 60 && long.number() == 1 && line.number() == 3;
    are_numbered && against.place() == 1 && long.place() == 67_108_864 && line.place() == 0
}

#[test]
fn refusals_have_numbers(rt: HostRuntime) {
    assert!(rt; writing_has_numbers());
    assert!(rt; sections_have_numbers());
    assert!(rt; limits_have_numbers());
    assert!(rt; texts_have_numbers());
}

/// Whether a refusal is reported in these words.
fn is_told<E: Display>(alloc: Global, e: &E, words: &str) -> Result<bool, Fail> {
    Ok(format!(in alloc; "{e}")?.as_str() == words)
}

/// Whether those of a sink that failed are reported in their words.
fn sinks_have_words(alloc: Global) -> Result<bool, Fail> {
    let words = "the device failed";
    Ok(
        is_told(alloc, &AagWriteError::Device, words)?
            && is_told(alloc, &AigWriteError::Device, words)?
            && is_told(alloc, &LratWriteError::Device, words)?,
    )
}

/// Whether those of what is written and of certificates are reported in their words.
fn writing_has_words(alloc: Global) -> Result<bool, Fail> {
    let unordered = AigWriteError::Unordered;
    let section = CertError::Section { place: 19 };
    let sections = CertWriteError::Sections { found: 2 };
    Ok(
        is_told(alloc, &unordered, "the circuit is not ordered")?
            && is_told(alloc, &section, "byte 19: not the section that is due")?
            && is_told(
                alloc,
                &sections,
                "2 sections are not those of the invariant",
            )?,
    )
}

/// Whether those of circuits are reported in their words.
fn circuits_have_words(alloc: Global) -> Result<bool, Fail> {
    let cyclic = ReadError::Cyclic(7);
    Ok(
        is_told(alloc, &cyclic, "variable 7 leads into a cycle")?
            && is_told(alloc, &CnfError::Limit, "more than 255 steps")?,
    )
}

/// Whether those of proofs are reported in their words.
fn proofs_have_words(alloc: Global) -> Result<bool, Fail> {
    let step = StepError {
        fault: Fault::SeveralLeft,
        line: 12,
    };
    let line = LratError::Truncated { place: 5 };
    Ok(
        is_told(alloc, &step, "line 12: a hint leaves several literals")?
            && is_told(alloc, &line, "byte 5: the text ends too early")?,
    )
}

#[test]
fn refusals_have_words(rt: HostRuntime) -> Result<(), Fail> {
    assert!(rt; circuits_have_words(rt.alloc())?);
    assert!(rt; proofs_have_words(rt.alloc())?);
    assert!(rt; sinks_have_words(rt.alloc())?);
    assert!(rt; writing_has_words(rt.alloc())?);
    Ok(())
}

/// The number and the place of a refusal, where there is one.
type Numbered = Option<(u8, u64)>;

/// Texts that the two readers see otherwise than by their second byte, with the refusals of the ASCII and of the
/// binary one.
static EITHER: [(&[u8], Numbered, Numbered); 4] = [
    (b"", Some((6, 0)), Some((6, 0))),
    (b"a", Some((6, 1)), Some((6, 1))),
    (b"aag 0 0 0 0 0\n", None, Some((2, 1))),
    (b"aig 0 0 0 0 0\n", Some((2, 1)), None),
];

/// The number and the place of a refusal.
fn told(error: Option<ReadError>) -> Numbered {
    let error = error?;
    Some((error.number(), error.place()))
}

/// The refusal of a text by the ASCII reader.
fn ascii_refusal(alloc: Global, text: &[u8]) -> Numbered {
    told(aag::read(alloc, text).err())
}

/// The refusal by the binary reader.
fn binary_refusal(alloc: Global, text: &[u8]) -> Numbered {
    told(aig::read(alloc, text).err())
}

#[test]
fn a_text_of_the_other_layout_is_refused(rt: HostRuntime) {
    for (text, ascii, binary) in &EITHER {
        assert!(rt; ascii_refusal(rt.alloc(), text) == *ascii, "{text:?}");
        assert!(rt; binary_refusal(rt.alloc(), text) == *binary, "{text:?}");
    }
}

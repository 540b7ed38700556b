//! The first line of certificates of any version.

ghost use Rattle.scan.specs.Reading.{Gives};
ghost use Rattle.certificate3.specs.Formats.{digit_at, format_at};

use certificate::{CertFault, IN_VERSION, Version};
use scan::{Fault, LineKind, byte, tag};
use std::alloc::Global;

/// The version of a certificate, of those that there are.
#[derive(Clone, Copy)]
pub enum Format {
    /// version 1 or 2
    Earlier(Version),
    /// version 3
    Three,
}

/// The digit of the version, and what follows it.
#[tactic(auto, unfolding(crate::specs::Formats::digit_at))]
fn digit(text: &[u8]) -> Result<(Format, &[u8]), Fault<CertFault>>
    ensures { Gives (λ x. (x.0, x.1.now)) result (digit_at text.now) }
{
    match text {
        [b'3', behind @ ..] => Ok((Format::Three, behind)),
        [b'2', behind @ ..] => Ok((Format::Earlier(Version::Two), behind)),
        _ => {
            let behind = byte(text, b'1', IN_VERSION)?;
            Ok((Format::Earlier(Version::One), behind))
        }
    }
}

/// The first line, of any version.
pub struct AnyFirstLine;

impl LineKind for AnyFirstLine {
    type Item = Format;

    type Context = ();

    type Fault = CertFault;

    ghost allows = { λ _. Unit {0} };

    ghost at = { λ _ bytes. format_at bytes };

    #[tactic(auto, unfolding(crate::specs::Formats::format_at))]
    fn line(
        _alloc: Global,
        text: &[u8],
        _context: (),
    ) -> Result<(Format, &[u8]), Fault<CertFault>> {
        let rest = tag(text, b"aigcert ", IN_VERSION)?;
        let (format, rest) = digit(rest)?;
        let rest = byte(rest, b'\n', IN_VERSION)?;
        Ok((format, rest))
    }
}

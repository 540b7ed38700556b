//! What a certificate claims.

ghost use Rattle.scan.specs.Reading.{Gives};
ghost use Rattle.certificate3.specs.Reading.{claim_at};

use certificate::{CertFault, IN_PROPERTY};
use graph::Property;
use scan::{Fault, byte, field};

/// The property, for justice with the number of rounds that no run goes beyond; else that is 0.
#[derive(Clone, Copy)]
pub struct Claim {
    pub property: Property,
    pub rounds: u32,
}

/// What the second line claims, and what follows that line.
#[tactic(auto, unfolding(crate::specs::Reading::claim_at, crate::specs::Reading::bad_at, crate::specs::Reading::justice_at, crate::specs::Reading::output_at))]
pub fn read_claim(text: &[u8]) -> Result<(Claim, &[u8]), Fault<CertFault>>
    ensures { Gives (λ x. (x.0, x.1.now)) result (claim_at text.now) }
{
    match text {
        [b'b', behind @ ..] => {
            let (position, rest) = field(behind, u32::MAX, b'\n', IN_PROPERTY)?;
            let property = Property::Bad(position);
            Ok((
                Claim {
                    property,
                    rounds: 0,
                },
                rest,
            ))
        }
        [b'j', behind @ ..] => {
            let (position, rest) = field(behind, u32::MAX, b' ', IN_PROPERTY)?;
            let (rounds, rest) = field(rest, u32::MAX, b'\n', IN_PROPERTY)?;
            let property = Property::Justice(position);
            Ok((Claim { property, rounds }, rest))
        }
        _ => {
            let behind = byte(text, b'o', IN_PROPERTY)?;
            let (position, rest) = field(behind, u32::MAX, b'\n', IN_PROPERTY)?;
            let property = Property::Output(position);
            Ok((
                Claim {
                    property,
                    rounds: 0,
                },
                rest,
            ))
        }
    }
}

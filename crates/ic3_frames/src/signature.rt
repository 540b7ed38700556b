//! Signatures of clauses, which show in one look of most clauses that they are no part of another.

ghost use Rattle.std.specs.Prelude.{◌≡◌, ◌≢◌, ◌↔◌, ◌<◌, ℕ, List, IsTrue, IfOk};
ghost use Rattle.std.specs.Int.{bit_at};
ghost use Rattle.states.specs.declared.state_lit.StateLit.{StateLit as Lit};
ghost use Rattle.states.specs.States.{IsPartOf};
ghost use Rattle.ic3_frames.specs.Signatures.{signature_bit, IsSignature, AreSignatures};

use crate::frames::Entry;
use crate::marks::mark_of;
use base::{Refused, push};
use states::StateLit;
use std::alloc::Global;

/// The literal's bit in a signature.
fn bit_of(lit: StateLit) -> usize
    ensures is { result ≡ signature_bit lit }
    ensures few { result < 64 }
{
    mark_of(lit) % 64
}

/// The word with one bit more.
fn with_bit(word: u64, place: usize) -> u64
    requires { place < 64 }
    ensures set { bit_at result place ≡ 1 }
    ensures others { (i : ℕ) → i ≢ place → bit_at result i ≡ bit_at word i }
{
    word | 1 << place
}

/// The signature of a clause: each of its literals sets one of 64 bits.
pub(crate) fn signature_of(clause: &[StateLit]) -> u64
    ensures { IsSignature clause.now result }
{
    let mut signature = 0;
    'signing: for lit in clause {
        signature = with_bit(signature, bit_of(*lit));
    }
    signature
}

/// Whether the first signature has each bit of the second. Where it has not, the second's clause is no part of the first's.
pub(crate) fn covers(whole: u64, part: u64) -> bool
    ensures is { IsTrue result ↔ ((i : ℕ) → bit_at part i ≡ 1 → bit_at whole i ≡ 1) }
    ensures parts { (c d : List Lit) → IsSignature c whole → IsSignature d part → IsPartOf d c → IsTrue result }
{
    part & !whole == 0
}

/// The signatures of the entries' clauses, by the entries' places.
pub(crate) fn signatures_of(alloc: Global, entries: &[Entry]) -> Result<Vec<u64>, Refused>
    ensures { IfOk result (λ v. AreSignatures entries.now v.items) }
{
    let mut signatures = Vec::new(alloc);
    'signing: for entry in entries {
        push(&mut signatures, signature_of(entry.clause.as_slice()))?;
    }
    Ok(signatures)
}

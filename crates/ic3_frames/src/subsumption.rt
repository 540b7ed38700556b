//! A clause more, and those that it subsumes.

ghost use Rattle.std.specs.Prelude.{◌≡◌, ◌⊎◌, ◌<◌, ◌≤◌, ℕ, Some, length, slice_index_or, take, IsTrue, All, Contains, OnOk, OnErr};
ghost use Rattle.std.specs.Vec.{vec_len, vec_capacity};
ghost use Rattle.std.specs.List.{SwappedAt};
ghost use Rattle.states.specs.States.{IsPartOf};
ghost use Rattle.ic3_frames.specs.declared.frames.Entry.{Entry as Kept};
ghost use Rattle.ic3_frames.specs.Frames.{IsRising, IsSubsumed, IsNotSubsumed, IsExcepted, IsAdded};
ghost use Rattle.ic3_frames.specs.Signatures.{IsSignature, AreSignatures};

use crate::frames::Entry;
use crate::signature::{covers, signature_of};
use crate::uses::Uses;
use base::{Refused, Seq, push, reserve_one};
use states::StateLit;

/// Whether the literal is one of the clause, which is in rising order. It costs the logarithm of the clause's length.
fn has(clause: &[StateLit], lit: StateLit) -> bool
    ensures sound { IsTrue result → Contains clause.now lit }
    ensures complete { IsRising clause.now → Contains clause.now lit → IsTrue result }
{
    match clause.binary_search_by_key(&lit.latch, |other| other.latch) {
        Ok(place) => clause[place] == lit,
        Err(_) => false,
    }
}

/// Whether each literal of the first clause is one of the second, which is in rising order. The
/// first literal that is missing ends it; each one before costs the logarithm of the second's length.
fn is_part(part: &[StateLit], clause: &[StateLit]) -> bool
    ensures sound { IsTrue result → IsPartOf part.now clause.now }
    ensures complete { IsRising clause.now → IsPartOf part.now clause.now → IsTrue result }
{
    part.iter().all(|lit| has(clause, *lit))
}

/// Whether the entry is of no greater level and has all the clause's literals. Where the two signatures show that it has not,
/// nothing else is read.
fn is_subsumed(
    entry: &Entry,
    entry_signature: u64,
    clause: &[StateLit],
    signature: u64,
    level: u32,
) -> bool
    requires entry { IsSignature entry.now.clause entry_signature }
    requires clause { IsSignature clause.now signature }
    ensures sound { IsTrue result → IsSubsumed clause.now level entry.now }
    ensures complete { IsRising clause.now → IsRising entry.now.clause → IsSubsumed clause.now level entry.now → IsTrue result }
{
    covers(entry_signature, signature)
        && entry.level <= level
        && is_part(clause, entry.clause.as_slice())
}

/// Moves an entry and its signature to a place further in front, unless they are there already.
fn keep(entries: &mut Vec<Entry>, signatures: &mut Vec<u64>, kept: usize, i: usize)
    requires behind { kept ≤ i }
    requires entry { i < length entries.old.items }
    requires signature { i < length signatures.old.items }
    ensures entries { SwappedAt entries.old.items entries.new.items kept i }
    ensures signatures { SwappedAt signatures.old.items signatures.new.items kept i }
    ensures len { vec_len entries.new ≡ vec_len entries.old }
    ensures capacity { vec_capacity entries.new ≡ vec_capacity entries.old }
    ensures signatures_len { vec_len signatures.new ≡ vec_len signatures.old }
    ensures signatures_capacity { vec_capacity signatures.new ≡ vec_capacity signatures.old }
{
    if kept < i {
        entries.swap(kept, i);
        signatures.swap(kept, i);
    }
}

/// Leaves the entries that the clause does not subsume, and the one at the place that is excepted, and counts the others out. It answers where the excepted one is
/// then, no further back. What is in front of that then was in front of it before.
pub(crate) fn remove_subsumed(
    entries: &mut Vec<Entry>,
    signatures: &mut Vec<u64>,
    uses: &mut Uses,
    clause: &[StateLit],
    signature: u64,
    level: u32,
    except: Option<usize>,
) -> usize
    requires signatures { AreSignatures entries.old.items signatures.old.items }
    requires clause { IsSignature clause.now signature }
    ensures signatures { AreSignatures entries.new.items signatures.new.items }
    ensures only { All (Contains entries.old.items) entries.new.items }
    ensures each { All (λ e. Contains entries.new.items e ⊎ IsSubsumed clause.now level e) entries.old.items }
    ensures lean { All (λ e. IsNotSubsumed clause.now level e ⊎ IsExcepted entries.old.items except e) entries.new.items }
    ensures place { (p : ℕ) (d : Kept) → except ≡ Some p → p < length entries.old.items →
        (result < length entries.new.items) × (slice_index_or entries.new.items result d ≡ slice_index_or entries.old.items p d) }
    ensures front { (p : ℕ) → except ≡ Some p → p < length entries.old.items → result ≤ p }
    ensures before { (p : ℕ) → except ≡ Some p → p < length entries.old.items → All (Contains (take p entries.old.items)) (take result entries.new.items) }
    ensures len { vec_len entries.new ≤ vec_len entries.old }
    ensures capacity { vec_capacity entries.new ≡ vec_capacity entries.old }
    ensures signatures_len { vec_len signatures.new ≤ vec_len signatures.old }
    ensures signatures_capacity { vec_capacity signatures.new ≡ vec_capacity signatures.old }
{
    let mut kept = 0;
    let mut place = 0;
    'sifting: for i in 0..entries.len() {
        let stays = except == Some(i);
        if !stays && is_subsumed(&entries[i], signatures[i], clause, signature, level) {
            uses.remove(entries[i].clause.as_slice());
        } else {
            if stays {
                place = kept;
            }
            keep(entries, signatures, kept, i);
            kept += 1;
        }
    }
    entries.truncate(kept);
    signatures.truncate(kept);
    place
}

/// Adds a clause, and drops those that it subsumes.
pub(crate) fn insert(
    entries: &mut Vec<Entry>,
    signatures: &mut Vec<u64>,
    uses: &mut Uses,
    clause: Seq<StateLit>,
    level: u32,
) -> Result<(), Refused>
    requires { AreSignatures entries.old.items signatures.old.items }
    ensures signatures { AreSignatures entries.new.items signatures.new.items }
    ensures added { OnOk result (IsAdded entries.old.items entries.new.items (record { clause = clause; level = level })) }
    ensures err { OnErr result (entries.new.items ≡ entries.old.items) }
{
    reserve_one(entries)?;
    reserve_one(signatures)?;
    let signature = signature_of(clause.as_slice());
    remove_subsumed(
        entries,
        signatures,
        uses,
        clause.as_slice(),
        signature,
        level,
        None,
    );
    uses.add(clause.as_slice());
    push(signatures, signature)?;
    push(entries, Entry { clause, level })?;
    Ok(())
}

//! The literals of a clause, marked, so that whether a literal is one of them is one look. The clause's signature is kept with
//! them: where another clause's signature has a bit more, that clause is no part of this one, and its literals are not read.

ghost use Rattle.std.specs.Prelude.{◌≡◌, ◌≢◌, ◌↔◌, ◌<◌, ◌≤◌, ◌/◌, ℕ, None, length, slice_index_or, List, All, Any, IsTrue, IfOk, IfSome};
ghost use Rattle.states.specs.declared.state_lit.StateLit.{StateLit as Lit};
ghost use Rattle.ic3_frames.specs.declared.frames.Entry.{Entry as Kept};
ghost use Rattle.ic3_frames.specs.Marks.{mark_of as place_of_mark, mark_at, IsMarked, AreMarks};
ghost use Rattle.ic3_frames.specs.Signatures.{IsSignature, AreSignatures};

use crate::frames::Entry;
use crate::signature::{covers, signature_of};
use base::{Refused, filled};
use states::StateLit;
use std::alloc::Global;

/// The place of a literal's mark.
pub(crate) fn mark_of(lit: StateLit) -> usize
    ensures is { result ≡ place_of_mark lit }
    ensures few { result < 8589934592 }
{
    let first = 2 * lit.latch as usize;
    if lit.value { first + 1 } else { first }
}

/// Sets the bit at a place.
fn mark(words: &mut [u64], place: usize)
    requires { place / 64 < length words.old }
    ensures places { length words.new ≡ length words.old }
    ensures set { mark_at words.new place ≡ 1 }
    ensures others { (p : ℕ) → p ≢ place → mark_at words.new p ≡ mark_at words.old p }
{
    words[place / 64] |= 1 << (place % 64);
}

/// Whether the bit at a place is set.
fn is_set(words: &[u64], place: usize) -> bool
    ensures { IsTrue result ↔ (mark_at words.now place ≡ 1) }
{
    match words.get(place / 64) {
        Some(word) => (*word >> (place % 64)) & 1 == 1,
        None => false,
    }
}

/// How many words reach as far as the clause's literals.
fn words_for(clause: &[StateLit]) -> usize
    ensures reach { All (λ a. place_of_mark a / 64 < result) clause.now }
    ensures few { result < 134217729 }
{
    let mut words = 0;
    'looking: for lit in clause {
        words = words.max(mark_of(*lit) / 64 + 1);
    }
    words
}

/// The literals of a clause, of which each has its bit, and the clause's signature.
#[derive(Drop)]
pub(crate) struct Marks {
    words: Vec<u64>,
    signature: u64,
}

impl Marks {
    /// Marks the clause's literals. It takes two bits for each latch up to the clause's greatest.
    pub(crate) fn new(alloc: Global, clause: &[StateLit]) -> Result<Marks, Refused>
        ensures marks { IfOk result (λ m. AreMarks clause.now m.words.items) }
        ensures signature { IfOk result (λ m. IsSignature clause.now m.signature) }
    {
        let mut words = filled(alloc, 0u64, words_for(clause))?;
        'marking: for lit in clause {
            mark(words.as_mut_slice(), mark_of(*lit));
        }
        Ok(Marks {
            words,
            signature: signature_of(clause),
        })
    }

    /// Whether the literal is marked.
    fn has(&self, lit: StateLit) -> bool
        ensures { IsTrue result ↔ IsMarked self.now.words.items lit }
    {
        is_set(self.words.as_slice(), mark_of(lit))
    }

    /// Whether each literal of a clause is marked. The first that is not ends it.
    fn have(&self, part: &[StateLit]) -> bool
        ensures { IsTrue result ↔ All (IsMarked self.now.words.items) part.now }
    {
        part.iter().all(|lit| self.has(*lit))
    }

    /// Whether the entry, whose clause has this signature, is at the level or above and has marked literals alone.
    fn have_entry(&self, entry: &Entry, signature: u64, level: u32) -> bool
        ensures sound { IsTrue result → (level ≤ entry.now.level) × All (IsMarked self.now.words.items) entry.now.clause }
        ensures complete { (c : List Lit) → AreMarks c self.now.words.items → IsSignature c self.now.signature → IsSignature entry.now.clause signature →
            (level ≤ entry.now.level) × All (IsMarked self.now.words.items) entry.now.clause → IsTrue result }
    {
        covers(self.signature, signature)
            && level <= entry.level
            && self.have(entry.clause.as_slice())
    }

    /// Whether one of the clauses at the level or above, which have these signatures, has marked literals alone.
    pub(crate) fn have_one(&self, entries: &[Entry], signatures: &[u64], level: u32) -> bool
        requires { AreSignatures entries.now signatures.now }
        ensures sound { IsTrue result → Any (λ e. (level ≤ e.level) × All (IsMarked self.now.words.items) e.clause) entries.now }
        ensures complete { (c : List Lit) → AreMarks c self.now.words.items → IsSignature c self.now.signature →
            Any (λ e. (level ≤ e.level) × All (IsMarked self.now.words.items) e.clause) entries.now → IsTrue result }
    {
        'looking: for (i, signature) in signatures.iter().enumerate() {
            if self.have_entry(&entries[i], *signature, level) {
                return true;
            }
        }
        false
    }

    /// Whether the entry, whose clause has this signature, ends at the level and has this many literals or more, all marked.
    fn have_ending(&self, entry: &Entry, signature: u64, level: u32, least: usize) -> bool
        ensures sound { IsTrue result → (entry.now.level ≡ level) × (least ≤ length entry.now.clause) × All (IsMarked self.now.words.items) entry.now.clause }
        ensures complete { (c : List Lit) → AreMarks c self.now.words.items → IsSignature c self.now.signature → IsSignature entry.now.clause signature →
            entry.now.level ≡ level → least ≤ length entry.now.clause → All (IsMarked self.now.words.items) entry.now.clause → IsTrue result }
    {
        covers(self.signature, signature)
            && entry.level == level
            && least <= entry.clause.len()
            && self.have(entry.clause.as_slice())
    }

    /// Where the longest is of the clauses that end at the level and have marked literals alone, or one of several. The
    /// clauses have these signatures.
    pub(crate) fn longest(&self, entries: &[Entry], signatures: &[u64], level: u32) -> Option<usize>
        requires { AreSignatures entries.now signatures.now }
        ensures part { (d : Kept) → IfSome result (λ p. (p < length entries.now) × ((slice_index_or entries.now p d).level ≡ level) ×
            All (IsMarked self.now.words.items) (slice_index_or entries.now p d).clause) }
        ensures longest { (c : List Lit) (d : Kept) → AreMarks c self.now.words.items → IsSignature c self.now.signature →
            IfSome result (λ p. All (λ e. e.level ≡ level → All (IsMarked self.now.words.items) e.clause → length e.clause ≤ length (slice_index_or entries.now p d).clause) entries.now) }
        ensures none { (c : List Lit) → AreMarks c self.now.words.items → IsSignature c self.now.signature → result ≡ None →
            All (λ e. e.level ≡ level → All (IsMarked self.now.words.items) e.clause → ⊥) entries.now }
    {
        let mut longest = None;
        let mut least = 0;
        'looking: for (i, signature) in signatures.iter().enumerate() {
            let entry = &entries[i];
            if self.have_ending(entry, *signature, level, least) {
                longest = Some(i);
                least = entry.clause.as_slice().len() + 1;
            }
        }
        longest
    }
}

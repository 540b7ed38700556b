//! Reading the lines of proofs.

ghost use Rattle.std.specs.Prelude.{nat_lt};
ghost use Rattle.scan.specs.Reading.{Gives};
ghost use Rattle.scan.specs.Words.{field_at};
ghost use Rattle.lrat.specs.Reading.{added_at, deleted_at, line_at};

use crate::clause::Clause;
use crate::line::Line;
use base::Seq;
use scan::{Fault, ItemKind, Kinds, byte, items, number, signed};
use std::alloc::Global;
use std::marker::PhantomData;

/// The literals of a clause, up to the 0 behind the last.
pub struct Literals<K> {
    kinds: PhantomData<K>,
}

impl<K: Copy> ItemKind for Literals<K> {
    ghost use Rattle.lrat.specs.Reading.{literal_at};

    type Item = i32;

    type Context = Kinds<K>;

    type Fault = K;

    ghost allows = { λ _. Unit {0} };

    ghost at = { λ _ bytes. literal_at bytes };

    fn item(
        _alloc: Global,
        text: &[u8],
        kinds: Kinds<K>,
    ) -> Result<(Option<i32>, &[u8]), Fault<K>> {
        match signed(text, 2_147_483_647, b' ', kinds)? {
            (None, rest) => Ok((None, rest)),
            (Some(literal), rest) => Ok((Some(literal as i32), rest)),
        }
    }
}

/// The hints of an addition, up to the 0 at the line's end.
pub struct Hints<K> {
    kinds: PhantomData<K>,
}

impl<K: Copy> ItemKind for Hints<K> {
    ghost use Rattle.lrat.specs.Reading.{hint_at};

    type Item = i64;

    type Context = Kinds<K>;

    type Fault = K;

    ghost allows = { λ _. Unit {0} };

    ghost at = { λ _ bytes. hint_at bytes };

    fn item(
        _alloc: Global,
        text: &[u8],
        kinds: Kinds<K>,
    ) -> Result<(Option<i64>, &[u8]), Fault<K>> {
        signed(text, u32::MAX, b'\n', kinds)
    }
}

/// The ids of a deletion, up to the 0 at the line's end.
pub struct Ids<K> {
    kinds: PhantomData<K>,
}

impl<K: Copy> ItemKind for Ids<K> {
    ghost use Rattle.lrat.specs.Reading.{id_at};

    type Item = u32;

    type Context = Kinds<K>;

    type Fault = K;

    ghost allows = { λ _. Unit {0} };

    ghost at = { λ _ bytes. id_at bytes };

    #[tactic(auto, unfolding(crate::specs::Reading::id_at))]
    fn item(
        _alloc: Global,
        text: &[u8],
        kinds: Kinds<K>,
    ) -> Result<(Option<u32>, &[u8]), Fault<K>> {
        let (value, rest) = number(text, u32::MAX, kinds)?;
        if value == 0 {
            let rest = byte(rest, b'\n', kinds)?;
            return Ok((None, rest));
        }
        let rest = byte(rest, b' ', kinds)?;
        Ok((Some(value), rest))
    }
}

/// A line's id, and what follows the space behind it.
#[tactic(auto, unfolding(scan::specs::Words::field_at))]
#[inline(always)]
pub fn line_id<K: Copy>(text: &[u8], kinds: Kinds<K>) -> Result<(u32, &[u8]), Fault<K>>
    ensures { Gives (λ x. (x.0, x.1.now)) result (field_at 4294967295 (nat_lt 0) 32 text.now) }
{
    let (id, rest) = number(text, u32::MAX, kinds)?;
    if id == 0 {
        return Err(Fault::Text {
            kind: kinds.number,
            left: text.len(),
        });
    }
    let rest = byte(rest, b' ', kinds)?;
    Ok((id, rest))
}

/// What follows the id of an addition, and what follows its line.
#[tactic(auto, unfolding(crate::specs::Reading::added_at))]
fn added<K: Copy>(
    alloc: Global,
    id: u32,
    text: &[u8],
    kinds: Kinds<K>,
) -> Result<(Line, &[u8]), Fault<K>>
    ensures { Gives (λ x. (x.0, x.1.now)) result (added_at id text.now) }
{
    let (literals, rest) = items::<Literals<K>>(alloc, text, kinds)?;
    let clause = Clause::from_slice(alloc, literals.as_slice())?;
    let (hints, rest) = items::<Hints<K>>(alloc, rest, kinds)?;
    let hints = Seq::from_vec(hints);
    Ok((Line::Add { id, clause, hints }, rest))
}

/// What follows the `d` of a deletion, and what follows its line.
#[tactic(auto, unfolding(crate::specs::Reading::deleted_at))]
fn deleted<K: Copy>(
    alloc: Global,
    id: u32,
    text: &[u8],
    kinds: Kinds<K>,
) -> Result<(Line, &[u8]), Fault<K>>
    ensures { Gives (λ x. (x.0, x.1.now)) result (deleted_at id text.now) }
{
    let rest = byte(text, b' ', kinds)?;
    let (ids, rest) = items::<Ids<K>>(alloc, rest, kinds)?;
    let ids = Seq::from_vec(ids);
    Ok((Line::Delete { id, ids }, rest))
}

/// The line that a text begins with, to its line end, and what follows it. The refusals are those
/// that the reader of the text calls so: a number that is missing, 0 in place of an id, or over its
/// limit is reported at its first byte, which may be a minus (LRAT, 2017). One pass; the memory is the
/// line's lists and, while a clause is read, a list of its literals.
#[tactic(auto, unfolding(crate::specs::Reading::line_at))]
pub fn next_line<K: Copy>(
    alloc: Global,
    text: &[u8],
    kinds: Kinds<K>,
) -> Result<(Line, &[u8]), Fault<K>>
    ensures { Gives (λ x. (x.0, x.1.now)) result (line_at text.now) }
{
    let (id, rest) = line_id(text, kinds)?;
    match rest {
        [b'd', after @ ..] => deleted(alloc, id, after, kinds),
        _ => added(alloc, id, rest, kinds),
    }
}

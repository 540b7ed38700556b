//! Which inputs, outputs and bad literals of two circuits belong together.

use base::{Refused, push};
use graph::{AigerFile, Lit, Symbol, SymbolKind};
use std::alloc::Global;
use std::cmp::Ordering;

/// What comes before the first name. No name is so short.
const NO_NAME: &[u8] = &[];

/// The name of what stands at a position among its kind.
#[derive(Clone, Copy)]
struct Named<'a> {
    name: &'a [u8],
    position: u32,
}

/// Orders names, and equal ones by their position.
fn by_name(one: &Named<'_>, other: &Named<'_>) -> Ordering {
    one.name
        .cmp(other.name)
        .then(one.position.cmp(&other.position))
}

/// The names of a kind, in their order.
fn names_of(
    alloc: Global,
    symbols: &[Symbol],
    kind: SymbolKind,
) -> Result<Vec<Named<'_>>, Refused> {
    let mut names = Vec::new(alloc);
    for symbol in symbols {
        if symbol.kind == kind {
            let name = symbol.name.as_slice();
            let position = symbol.position;
            push(&mut names, Named { name, position })?;
        }
    }
    names.sort_unstable_by(by_name);
    Ok(names)
}

/// Whether there are as many of both, each name has another one that is equal, and no two of them are equal.
fn are_same<'a>(ones: &[Named<'a>], others: &[Named<'a>]) -> bool {
    if ones.len() != others.len() {
        return false;
    }
    let mut before = NO_NAME;
    for (place, one) in ones.iter().enumerate() {
        let Some(other) = others.get(place) else {
            return false;
        };
        if one.name != other.name || one.name == before {
            return false;
        }
        before = one.name;
    }
    true
}

/// The positions from 0 on, one for each literal.
fn positions(alloc: Global, lits: &[Lit]) -> Result<Vec<u32>, Refused> {
    let mut positions = Vec::new(alloc);
    let mut position = 0u32;
    for _ in lits {
        push(&mut positions, position)?;
        position = position.saturating_add(1);
    }
    Ok(positions)
}

/// Gives each of the others the position of the one that stands at its place in the order of the names.
fn pair_by_name<'a>(partners: &mut [u32], ones: &[Named<'a>], others: &[Named<'a>]) {
    for (place, other) in others.iter().enumerate() {
        let Some(one) = ones.get(place) else {
            return;
        };
        if let Some(partner) = partners.get_mut(other.position as usize) {
            *partner = one.position;
        }
    }
}

/// For each of the other circuit's literals of a kind the position of that of the first circuit which belongs to it, where
/// both have as many as `lits`: that of the same name, where both name all of them and with the same names, and else
/// that at the same position.
pub fn partners<'a>(
    alloc: Global,
    one: &'a AigerFile,
    other: &'a AigerFile,
    kind: SymbolKind,
    lits: &[Lit],
) -> Result<Vec<u32>, Refused> {
    let mut partners = positions(alloc, lits)?;
    let ones = names_of(alloc, one.symbols(), kind)?;
    let others = names_of(alloc, other.symbols(), kind)?;
    if ones.len() == lits.len() && are_same(ones.as_slice(), others.as_slice()) {
        pair_by_name(partners.as_mut_slice(), ones.as_slice(), others.as_slice());
    }
    Ok(partners)
}

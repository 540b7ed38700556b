//! Gates in place of literals that many clauses share.
//!
//! A gate that is set where two literals are not is added to the circuit, and its negation stands in place of both in each clause
//! that has them.

ghost use Rattle.std.specs.Prelude.{◌<◌, ◌≤◌, length};
ghost use Rattle.base.specs.Budget.{Spends};

use base::{Budget, Refused, Seq, push};
use graph::{Gate, Lit, Model};
use std::alloc::Global;

/// At most so many gates are added.
const MOST_GATES: u32 = 64;

/// A gate is added for two literals that so many clauses share.
const FEWEST_CLAUSES: usize = 10;

/// Of clauses with more literals than this no pairs are looked at.
const MOST_LITERALS: usize = 128;

/// Of clauses with more pairs of literals than this no pair is counted.
const MOST_PAIRS: u64 = 2_000_000;

/// So many pairs of literals are looked at in one step.
const PAIRS: u64 = 16;

/// The lower half of a number of two literals.
const LOWER: u64 = 0xffff_ffff;

/// Clauses over a circuit with gates. Nothing is claimed of them: they are to be proved.
#[derive(Drop)]
pub struct Shared {
    /// the clauses
    pub clauses: Vec<Seq<Lit>>,
    /// the gates
    pub gates: Vec<Gate>,
}

/// Two literals, as one number.
fn pair_of(one: Lit, other: Lit) -> u64 {
    (u64::from(one.0.min(other.0)) << 32) | u64::from(one.0.max(other.0))
}

/// The literal that a half of such a number is.
fn literal_of(half: u64) -> Lit {
    Lit(u32::try_from(half).unwrap_or(0))
}

/// How many pairs of literals of the clauses are looked at.
fn count_of_pairs(clauses: &[Seq<Lit>]) -> u64 {
    let mut count: u64 = 0;
    for clause in clauses {
        let literals = clause.len();
        if literals <= MOST_LITERALS {
            count = count.saturating_add((literals * literals.saturating_sub(1) / 2) as u64);
        }
    }
    count
}

/// Adds the pairs of a literal with those behind it.
fn push_pairs(pairs: &mut Vec<u64>, clause: &[Lit], place: usize) -> Result<(), Refused>
    requires { place < length clause.now }
{
    for later in place + 1..clause.len() {
        push(pairs, pair_of(clause[place], clause[later]))?;
    }
    Ok(())
}

/// Adds the pairs of a clause's literals.
fn push_all_pairs(pairs: &mut Vec<u64>, clause: &[Lit]) -> Result<(), Refused> {
    if clause.len() > MOST_LITERALS {
        return Ok(());
    }
    for place in 0..clause.len() {
        push_pairs(pairs, clause, place)?;
    }
    Ok(())
}

/// The pairs of literals of each clause, in order.
fn pairs_of(alloc: Global, clauses: &[Seq<Lit>]) -> Result<Vec<u64>, Refused> {
    let mut pairs = Vec::new(alloc);
    for clause in clauses {
        push_all_pairs(&mut pairs, clause.as_slice())?;
    }
    pairs.as_mut_slice().sort_unstable();
    Ok(pairs)
}

/// The number that stands most often in an ordered list, the least one of several, where it stands often enough.
fn most_frequent(pairs: &[u64]) -> Option<u64> {
    let (mut best, mut most) = (None, FEWEST_CLAUSES);
    let mut first = 0;
    for place in 0..pairs.len() {
        if pairs[first.min(place)] != pairs[place] {
            first = place;
        }
        let count = place - first.min(place) + 1;
        if count >= most {
            best = Some(pairs[place]);
            most = count + 1;
        }
    }
    best
}

/// Whether the clause has both literals.
fn has_both(clause: &[Lit], pair: [Lit; 2]) -> bool {
    clause.contains(&pair[0]) && clause.contains(&pair[1])
}

/// The same clauses.
fn copied(alloc: Global, clauses: &[Seq<Lit>]) -> Result<Seq<Seq<Lit>>, Refused> {
    let mut copied = Seq::new(alloc);
    for clause in clauses {
        copied.push(clause.copy(alloc)?)?;
    }
    Ok(copied)
}

/// The clause with this literal in place of the two.
fn replaced(alloc: Global, clause: &[Lit], pair: [Lit; 2], by: Lit) -> Result<Seq<Lit>, Refused> {
    let mut literals = Vec::new(alloc);
    for lit in clause {
        if !pair.contains(lit) {
            push(&mut literals, *lit)?;
        }
    }
    push(&mut literals, by)?;
    Ok(Seq::from_vec(literals))
}

/// Puts this literal in place of the two in each clause that has both.
fn replace_in_all(
    alloc: Global,
    clauses: &mut Vec<Seq<Lit>>,
    pair: [Lit; 2],
    by: Lit,
) -> Result<(), Refused> {
    for clause in clauses.iter_mut() {
        if has_both(clause.as_slice(), pair) {
            *clause = replaced(alloc, clause.as_slice(), pair, by)?;
        }
    }
    Ok(())
}

/// The clauses, with the negation of a gate of the circuit in place of the negations of its two sides. Nothing is claimed of them:
/// they are to be proved.
pub fn with_own_gates(
    alloc: Global,
    circuit: &Model,
    clauses: &[Seq<Lit>],
    budget: &mut Budget,
) -> Result<Seq<Seq<Lit>>, Refused>
    ensures { Spends budget.old budget.new }
{
    let mut found = copied(alloc, clauses)?.into_vec();
    'replacing: for gate in circuit.gates() {
        if !budget.tick() {
            return Ok(Seq::from_vec(found));
        }
        budget.spend(clauses.len() as u64 / PAIRS);
        let pair = [Lit(gate.rhs0.0 ^ 1), Lit(gate.rhs1.0 ^ 1)];
        replace_in_all(alloc, &mut found, pair, Lit(gate.lhs.0 ^ 1))?;
    }
    Ok(Seq::from_vec(found))
}

impl Shared {
    /// Adds a gate of this variable for two literals.
    fn add_gate(&mut self, alloc: Global, variable: u32, pair: [Lit; 2]) -> Result<(), Refused>
        requires { variable ≤ 4194367 }
    {
        let by = Lit(2 * variable + 1);
        replace_in_all(alloc, &mut self.clauses, pair, by)?;
        push(
            &mut self.gates,
            Gate {
                lhs: Lit(2 * variable),
                rhs0: Lit(pair[1].0 ^ 1),
                rhs1: Lit(pair[0].0 ^ 1),
            },
        )
    }
}

/// The clauses, with gates of the variables from this one on in place of literals that many share. Nothing is claimed of them: they
/// are to be proved.
pub fn with_gates(
    alloc: Global,
    clauses: Seq<Seq<Lit>>,
    first: u32,
    budget: &mut Budget,
) -> Result<Shared, Refused>
    requires { first ≤ 4194304 }
    ensures { Spends budget.old budget.new }
{
    let mut shared = Shared {
        clauses: clauses.into_vec(),
        gates: Vec::new(alloc),
    };
    'sharing: for k in 0..MOST_GATES {
        let count = count_of_pairs(shared.clauses.as_slice());
        budget.spend(count / PAIRS);
        if count > MOST_PAIRS || budget.left() == 0 {
            return Ok(shared);
        }
        let pairs = pairs_of(alloc, shared.clauses.as_slice())?;
        let Some(pair) = most_frequent(pairs.as_slice()) else {
            return Ok(shared);
        };
        let literals = [literal_of(pair >> 32), literal_of(pair & LOWER)];
        shared.add_gate(alloc, first + k, literals)?;
    }
    Ok(shared)
}

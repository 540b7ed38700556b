//! Worked proofs as texts: the accepted one, and edited copies with their answers.

ghost use Rattle.std.specs.Prelude.{IfOk};
ghost use Rattle.lrat.specs.Limits.{IsFormula};

mod pigeons;
mod random;

use crate::literals::are_literals;
use base::{Refused, Seq, copied, extend};
use lrat::{Clause, Formula, Line, LratError, read, refutes};
use pigeons::{FIVE_PIGEONS, SIX_PIGEONS};
use random::{RANDOM_10, RANDOM_20};
use std::alloc::Global;

/// Where a text is edited, how many bytes are cut there, what is put in their place, and the
/// number and the line of the refusal.
type Edit<'a> = (usize, usize, &'a [u8], (u8, u64));

/// A formula over the variables 1 to `vars`, whose clauses are those that the lines of a text add,
/// with an accepted proof and edits of it.
struct Worked<'a> {
    vars: u16,
    clauses: &'a [u8],
    proof: &'a [u8],
    edits: &'a [Edit<'a>],
}

/// The formula of the clauses that the lines of a text add, where their literals are in range.
fn formula(alloc: Global, vars: u16, text: &[u8]) -> Result<Formula, LratError>
    ensures { IfOk result IsFormula }
{
    let vars = u32::from(vars);
    let lines = read(alloc, text)?;
    let mut clauses = Seq::new(alloc);
    for line in lines.lines() {
        if let Line::Add { clause, .. } = line {
            if !are_literals(clause.as_slice(), vars) {
                return Err(LratError::Number { place: 0 });
            }
            clauses.push(Clause::from_slice(alloc, clause.as_slice())?)?;
        }
    }
    if clauses.len() > 4_294_967_295 {
        return Err(LratError::Number { place: 0 });
    }
    Ok(Formula { vars, clauses })
}

/// The text after an edit.
fn edited(alloc: Global, text: &[u8], edit: Edit) -> Result<Vec<u8>, Refused> {
    let (at, cut, new, _) = edit;
    let at = at.min(text.len());
    let (front, back) = text.split_at(at);
    let mut whole = copied(alloc, front)?;
    extend(&mut whole, new)?;
    extend(&mut whole, &back[cut.min(back.len())..])?;
    Ok(whole)
}

/// The number and the line of a proof's refusal, where it is refused.
fn refusal(alloc: Global, formula: &Formula, text: &[u8]) -> Result<Option<(u8, u64)>, LratError>
    requires { IsFormula formula.now }
{
    let proof = read(alloc, text)?;
    match refutes(alloc, formula, &proof) {
        Ok(()) => Ok(None),
        Err(e) => Ok(Some((e.number(), e.place()))),
    }
}

/// The same of a proof after an edit.
fn edited_refusal(
    alloc: Global,
    formula: &Formula,
    text: &[u8],
    edit: Edit,
) -> Result<Option<(u8, u64)>, LratError>
    requires { IsFormula formula.now }
{
    let changed = edited(alloc, text, edit)?;
    refusal(alloc, formula, changed.as_slice())
}

/// The first edit whose refusal is another than stands beside it.
fn first_other(
    alloc: Global,
    formula: &Formula,
    worked: &Worked,
) -> Result<Option<usize>, LratError>
    requires { IsFormula formula.now }
{
    for (i, edit) in worked.edits.iter().enumerate() {
        if edited_refusal(alloc, formula, worked.proof, *edit)? != Some(edit.3) {
            return Ok(Some(i));
        }
    }
    Ok(None)
}

/// The proof's refusal, which is to be accepted, and the first edit whose refusal is another than stands beside it.
fn answers(
    alloc: Global,
    worked: &Worked,
) -> Result<(Option<(u8, u64)>, Option<usize>), LratError> {
    let formula = formula(alloc, worked.vars, worked.clauses)?;
    let accepted = refusal(alloc, &formula, worked.proof)?;
    Ok((accepted, first_other(alloc, &formula, worked)?))
}

static EMPTY_CLAUSE: Worked<'static> = Worked {
    vars: 0,
    clauses: b"1 0 0\n",
    proof: b"2 0 1 0\n",
    edits: &[
        (4, 2, b"", (46, 0)),
        (6, 0, b"1 ", (45, 0)),
        (4, 0, b"-", (47, 0)),
    ],
};

static FOUR_CLAUSES: Worked<'static> = Worked {
    vars: 2,
    clauses: b"1 1 2 0 0\n2 1 -2 0 0\n3 -1 2 0 0\n4 -1 -2 0 0\n",
    proof: b"5 1 0 1 2 0\n6 0 5 3 4 0\n",
    edits: &[
        (20, 2, b"", (44, 1)),
        (16, 2, b"", (42, 1)),
        (22, 0, b"4 ", (45, 1)),
        (18, 0, b"5 ", (43, 1)),
        (16, 0, b"3 ", (42, 1)),
        (16, 3, b"3 5", (42, 1)),
        (0, 12, b"", (40, 0)),
        (12, 12, b"", (49, 1)),
        (2, 2, b"", (42, 0)),
        (12, 1, b"5", (41, 1)),
        (16, 0, b"-", (47, 1)),
    ],
};

static UNITS: Worked<'static> = Worked {
    vars: 3,
    clauses: b"1 1 0 0\n2 -1 2 0 0\n3 -2 3 0 0\n4 -3 0 0\n",
    proof: b"5 0 1 2 3 4 0\n",
    edits: &[
        (8, 2, b"", (44, 0)),
        (6, 2, b"", (42, 0)),
        (8, 0, b"1 ", (43, 0)),
        (4, 0, b"2 ", (42, 0)),
        (12, 0, b"4 ", (45, 0)),
        (6, 3, b"3 2", (42, 0)),
        (4, 0, b"-", (47, 0)),
    ],
};

static THREE_PIGEONS: Worked<'static> = Worked {
    vars: 6,
    clauses: b"\
        1 1 2 0 0\n\
        2 3 4 0 0\n\
        3 5 6 0 0\n\
        4 -3 -1 0 0\n\
        5 -5 -1 0 0\n\
        6 -5 -3 0 0\n\
        7 -4 -2 0 0\n\
        8 -6 -2 0 0\n\
        9 -6 -4 0 0\n\
        ",
    proof: b"10 -2 0 7 8 2 3 6 0\n11 0 10 1 4 5 2 3 9 0\n",
    edits: &[
        (14, 2, b"", (44, 0)),
        (10, 2, b"", (42, 0)),
        (8, 0, b"2 ", (42, 0)),
        (36, 0, b"2 ", (43, 1)),
        (12, 5, b"6 3 2", (42, 0)),
        (1, 20, b"", (40, 0)),
        (20, 22, b"", (49, 1)),
        (3, 3, b"", (42, 0)),
        (21, 1, b"0", (41, 1)),
        (25, 0, b"-", (47, 1)),
    ],
};

static FOUR_PIGEONS: Worked<'static> = Worked {
    vars: 12,
    clauses: b"\
        1 1 2 3 0 0\n\
        2 4 5 6 0 0\n\
        3 7 8 9 0 0\n\
        4 10 11 12 0 0\n\
        5 -4 -1 0 0\n\
        6 -7 -1 0 0\n\
        7 -7 -4 0 0\n\
        8 -10 -1 0 0\n\
        9 -10 -4 0 0\n\
        10 -10 -7 0 0\n\
        11 -5 -2 0 0\n\
        12 -8 -2 0 0\n\
        13 -8 -5 0 0\n\
        14 -11 -2 0 0\n\
        15 -11 -5 0 0\n\
        16 -11 -8 0 0\n\
        17 -6 -3 0 0\n\
        18 -9 -3 0 0\n\
        19 -9 -6 0 0\n\
        20 -12 -3 0 0\n\
        21 -12 -6 0 0\n\
        22 -12 -9 0 0\n\
        ",
    proof: b"\
        23 -5 12 9 0 13 15 3 4 10 0\n\
        24 -3 0 17 18 20 23 2 7 9 3 4 16 0\n\
        25 -9 5 0 24 19 22 2 5 9 1 4 14 0\n\
        26 -4 9 0 24 5 7 1 3 12 0\n\
        27 -8 12 0 24 12 16 1 4 8 0\n\
        28 5 0 24 25 26 2 21 27 3 6 10 1 4 14 0\n\
        29 0 24 28 11 13 15 1 6 8 3 4 22 0\n\
        ",
    edits: &[
        (73, 3, b"", (42, 2)),
        (90, 2, b"", (44, 2)),
        (13, 0, b"4 ", (42, 0)),
        (56, 0, b"16 ", (45, 1)),
        (112, 0, b"5 ", (43, 3)),
        (177, 11, b"14 10 1 4 6", (42, 5)),
        (124, 28, b"", (40, 4)),
        (191, 35, b"", (49, 6)),
        (100, 3, b"", (42, 3)),
        (192, 1, b"8", (41, 6)),
        (36, 0, b"-", (47, 1)),
    ],
};

#[test]
fn proofs_and_edits_of_them(rt: HostRuntime) {
    let short = [
        &EMPTY_CLAUSE,
        &FOUR_CLAUSES,
        &UNITS,
        &THREE_PIGEONS,
        &FOUR_PIGEONS,
    ];
    for worked in short {
        assert!(rt; answers(rt.alloc(), worked) == Ok((None, None)));
    }
    let long = [&FIVE_PIGEONS, &SIX_PIGEONS, &RANDOM_10, &RANDOM_20];
    for worked in long {
        assert!(rt; answers(rt.alloc(), worked) == Ok((None, None)));
    }
}

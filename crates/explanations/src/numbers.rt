//! What the numbers of faults mean.

/// What a number means, and what to do.
#[derive(Clone, Copy)]
pub struct Explanation {
    /// the number of a fault or of a no
    pub number: u8,
    /// what it means
    pub meaning: &'static str,
    /// what to do about it
    pub remedy: &'static str,
}

/// The numbers of faults and of a no, in rising order: the lines of docs/faults.tsv.
static ROWS: [Explanation; 56] = [
    Explanation {
        number: 1,
        meaning: "the text is longer than 67,108,864 bytes, or as a stimulus or clauses than 1,073,741,824",
        remedy: "check a smaller part of the design, or the cone of one property",
    },
    Explanation {
        number: 2,
        meaning: "no header",
        remedy: "see that the file begins with aag or aig and 5 to 9 counts with one space between; aigmc convert reads no BTOR2 and no Verilog",
    },
    Explanation {
        number: 3,
        meaning: "no number, or one out of its limits",
        remedy: "look at that byte: numbers are decimal without leading zeros, with one space between",
    },
    Explanation {
        number: 4,
        meaning: "over a limit",
        remedy: "check a smaller part of the design; for justice M + 4 + 8L + 4K variables are needed",
    },
    Explanation {
        number: 5,
        meaning: "another byte is needed",
        remedy: "write the file with line ends of one byte (10), and without spaces at line ends",
    },
    Explanation {
        number: 6,
        meaning: "the text ends too early",
        remedy: "make or copy the file again; see that the header's counts are right",
    },
    Explanation {
        number: 7,
        meaning: "a literal above twice the greatest variable and one",
        remedy: "make the header's first count the greatest variable",
    },
    Explanation {
        number: 8,
        meaning: "a literal that defines nothing",
        remedy: "define variables by even literals from 2 on",
    },
    Explanation {
        number: 9,
        meaning: "a variable that is defined twice",
        remedy: "give each input, latch and gate a variable of its own",
    },
    Explanation {
        number: 10,
        meaning: "a variable that is used and not defined",
        remedy: "drive the net, or make it an input",
    },
    Explanation {
        number: 11,
        meaning: "a variable that leads into a cycle of gates",
        remedy: "break the loop by a latch; Yosys names the nets by check",
    },
    Explanation {
        number: 12,
        meaning: "a reset that is neither 0, 1 nor the latch's literal",
        remedy: "write 0, 1, or the latch's own literal (any first value)",
    },
    Explanation {
        number: 13,
        meaning: "no difference of literals (binary format)",
        remedy: "make the file again; copy it as binary",
    },
    Explanation {
        number: 14,
        meaning: "no symbol",
        remedy: "mend or leave out the symbol, or begin a comment with a line c",
    },
    Explanation {
        number: 16,
        meaning: "the counts of the header don't fit each other",
        remedy: "make the first count the greatest variable",
    },
    Explanation {
        number: 17,
        meaning: "the circuit is not in the numbering of the binary format",
        remedy: "write it in ASCII, or number it anew (aigmc convert does)",
    },
    Explanation {
        number: 20,
        meaning: "out of memory",
        remedy: "give the program more memory, or ask for less at a time (one property, a smaller depth)",
    },
    Explanation {
        number: 21,
        meaning: "read or write failed",
        remedy: "see that the file is there and may be read or written, and that the disk has room",
    },
    Explanation {
        number: 30,
        meaning: "the circuit has no such property, or the evidence is of another one",
        remedy: "bin/properties FILE lists the properties; the second line of evidence names its own",
    },
    Explanation {
        number: 32,
        meaning: "a literal of the invariant, or a column of a PLA, is not a latch's",
        remedy: "write the invariant over latches alone",
    },
    Explanation {
        number: 33,
        meaning: "a clause of the invariant repeats a literal, or has its negation",
        remedy: "leave out the second literal; leave out a clause that is always true",
    },
    Explanation {
        number: 34,
        meaning: "another number of sections than the invariant needs",
        remedy: "n sections i, n sections s, one section b, for n clauses",
    },
    Explanation {
        number: 40,
        meaning: "no clause has this id",
        remedy: "number the clauses as docs/CERTIFICATE.md says",
    },
    Explanation {
        number: 41,
        meaning: "an id that is not above all ids so far",
        remedy: "let ids rise; they may skip numbers",
    },
    Explanation {
        number: 42,
        meaning: "a hint leaves two or more literals",
        remedy: "order the hints so that each but the last leaves one literal",
    },
    Explanation {
        number: 43,
        meaning: "the literal that a hint leaves is true already",
        remedy: "leave the hint out",
    },
    Explanation {
        number: 44,
        meaning: "the last hint's clause is not false",
        remedy: "end the hints with the clause that is false",
    },
    Explanation {
        number: 45,
        meaning: "the clause of a hint before the last is false already",
        remedy: "leave out what comes behind",
    },
    Explanation {
        number: 46,
        meaning: "an added clause has no hints",
        remedy: "make hints (LRAT)",
    },
    Explanation {
        number: 47,
        meaning: "a negative hint",
        remedy: "let the solver make a proof without RAT",
    },
    Explanation {
        number: 48,
        meaning: "a clause repeats a literal, or has its negation",
        remedy: "leave out the second literal",
    },
    Explanation {
        number: 49,
        meaning: "no line adds the empty clause",
        remedy: "end each section with the empty clause",
    },
    Explanation {
        number: 50,
        meaning: "a line follows the empty clause",
        remedy: "leave out what follows",
    },
    Explanation {
        number: 51,
        meaning: "a variable above the formula's",
        remedy: "use variables 1 to M + 1 alone",
    },
    Explanation {
        number: 52,
        meaning: "the empty clause is a lemma",
        remedy: "leave l before its empty clause, and end each section with its own",
    },
    Explanation {
        number: 53,
        meaning: "the ids of a section's units would pass 4,294,967,295",
        remedy: "number the lemmas anew, from the formula's end on",
    },
    Explanation {
        number: 54,
        meaning: "the latches and gates do not extend the circuit",
        remedy: "number latches from M + 1 on and gates behind them; a gate reads lesser variables alone",
    },
    Explanation {
        number: 55,
        meaning: "a clause has a literal outside of the extended circuit",
        remedy: "name variables of the circuit and of its extension alone",
    },
    Explanation {
        number: 56,
        meaning: "more rounds of justice than states",
        remedy: "claim 2^L rounds at most",
    },
    Explanation {
        number: 57,
        meaning: "a witness circuit's = LITERAL names no input or latch of the circuit, or one twice",
        remedy: "name the literals of inputs and latches, each once",
    },
    Explanation {
        number: 58,
        meaning: "a witness circuit has another number of bad literals than one",
        remedy: "give it one bad literal",
    },
    Explanation {
        number: 60,
        meaning: "a first value of a latch is against its reset",
        remedy: "take the first state that the resets say",
    },
    Explanation {
        number: 61,
        meaning: "a constraint is broken",
        remedy: "search with the constraints of the circuit",
    },
    Explanation {
        number: 62,
        meaning: "the bad literal is not set at the last time",
        remedy: "end the stimulus at the time at which the bad literal is set",
    },
    Explanation {
        number: 63,
        meaning: "no lasso",
        remedy: "let the run go on until it closes",
    },
    Explanation {
        number: 64,
        meaning: "there is no input line",
        remedy: "give at least one line of inputs, an empty one where there are no inputs",
    },
    Explanation {
        number: 65,
        meaning: "the stimulus is of no violation",
        remedy: "for 0 (holds) have the certificate checked by aigcheck safe; of 2 (unknown) there is nothing to check",
    },
    Explanation {
        number: 66,
        meaning: "a line has another number of values than the circuit has latches or inputs",
        remedy: "make the stimulus again for this file",
    },
    Explanation {
        number: 70,
        meaning: "the first line is neither aigcert 1 nor aigcert 2, nor in aigcheck aigcert 3",
        remedy: "give circuit and certificate in this order",
    },
    Explanation {
        number: 71,
        meaning: "the second line names no property",
        remedy: "write for instance b0",
    },
    Explanation {
        number: 72,
        meaning: "another section is due, or none",
        remedy: "n sections i, n sections s, one section b; in version 3 one of each",
    },
    Explanation {
        number: 80,
        meaning: "the first line is not 0, 1 or 2",
        remedy: "give circuit and stimulus in this order; put the lines 1 and b0 before an old one",
    },
    Explanation {
        number: 81,
        meaning: "the second line is no property",
        remedy: "write for instance b0",
    },
    Explanation {
        number: 83,
        meaning: "another character than 0 or 1, or a line end of two bytes",
        remedy: "put 0 or 1 for each x, and leave comments out",
    },
    Explanation {
        number: 84,
        meaning: "the stimulus ends too early",
        remedy: "end it with a line .",
    },
    Explanation {
        number: 85,
        meaning: "bytes follow the stimulus",
        remedy: "one stimulus a file, nothing behind the dot's line",
    },
];

/// What the number means and what to do, where there is such a number.
pub fn explained(number: u8) -> Option<Explanation> {
    ROWS.iter().find(|row| row.number == number).copied()
}

/// What the number means, or nothing.
pub fn meaning(number: u8) -> &'static str {
    match explained(number) {
        Some(row) => row.meaning,
        None => "",
    }
}

/// Whether the place of a refusal with this number is a byte of the text. Where a circuit is over a limit that no text
/// is, its place is 0.
pub fn is_at_byte(number: u8, place: u64) -> bool {
    match number {
        2 | 3 | 5..=8 | 12..=14 | 16 | 70..=72 | 80..=85 => true,
        4 => place > 0,
        _ => false,
    }
}

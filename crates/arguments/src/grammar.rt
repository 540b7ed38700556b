//! The commands and their words, and what `--help` says beside them.
//!
//! The words of each command are a static, and a function makes its row, since the proof of a large static costs more
//! than those of its parts.

mod circuits;
mod evidence;
mod searches;
mod shared;

use crate::words::Argument;
use circuits::{convert, explain, extract, to_safety};
use clap::Command;
use evidence::{adopt_witness, certify, recertify, sim, to_witness, trace, witness};
use explanations::VERSION;
use searches::{all, check, cover, equal};
use std::alloc::{AllocError, Global};

/// A command: its name, what `--help` says of it before and behind its arguments, and these in their order.
#[derive(Clone, Copy)]
struct Row {
    name: &'static str,
    about: &'static str,
    behind: &'static str,
    words: &'static [Argument],
}

static STATUSES: &str =
    "Status: 0 done, 1 a violation (check, all), a difference (equal), no run (cover), no invariant (certify, recertify), no witness (adopt-witness) or none shown (witness), 2 nothing is known (check, all, equal, cover, certify, recertify, adopt-witness), 3 failed.
A file called - is the standard input or output. Each command has a help of its own: aigmc check --help.";

/// The commands, in the order of `--help`.
fn rows() -> [Row; 15] {
    [
        check(),
        all(),
        certify(),
        convert(),
        to_safety(),
        equal(),
        cover(),
        to_witness(),
        adopt_witness(),
        recertify(),
        extract(),
        witness(),
        sim(),
        trace(),
        explain(),
    ]
}

impl Row {
    /// The clap command of a row.
    fn command<'a>(&self, alloc: Global) -> Result<Command<'a>, AllocError> {
        let mut command = Command::new(alloc, self.name)
            .about(self.about)
            .after_help(self.behind);
        for word in self.words {
            command = command.arg(word.arg(alloc))?;
        }
        Ok(command)
    }
}

/// Adds the commands of a table.
fn add_rows<'a>(
    mut command: Command<'a>,
    alloc: Global,
    rows: &[Row],
) -> Result<Command<'a>, AllocError> {
    for row in rows {
        command = command.subcommand(row.command(alloc)?)?;
    }
    Ok(command)
}

/// The command line.
pub fn command<'a>(alloc: Global) -> Result<Command<'a>, AllocError> {
    let command = Command::new(alloc, "aigmc")
        .about("Looks for evidence about AIGER circuits")
        .version(VERSION)
        .after_help(STATUSES)
        .subcommand_required(true);
    add_rows(command, alloc, &rows())
}

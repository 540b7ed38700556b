//! `aigmc`: evidence about circuits.
//!
//! `aigmc convert FILE OUT` writes the circuit FILE (AIGER 1.9, binary where its second byte is `i`,
//! else ASCII) to OUT: in ASCII where that ends in `.aag`, and in binary where it ends in `.aig`, or else as `--ascii` or
//! `--binary` says. For the binary layout a circuit that is not in its numbering is made smaller by structural hashing. OUT
//! is the old file until the new one is whole.
//!
//! `aigmc sim FILE STIM` prints the values in the replay of the stimulus STIM, a line for each time:
//! `TIME STATE INPUTS OUTPUTS BAD`, and `TIME STATE` for the state after the last; it looks at neither
//! constraints nor the property.
//!
//! `aigmc trace FILE STIM` prints the same replay by the names of the circuit's symbols, a line for each signal with its value at
//! each time. Names that begin with `$` are left out without `--all`. With `--vcd OUT` nothing is printed, and the replay goes to
//! OUT as a waveform (VCD): a variable for each signal, in the scopes of its name. OUT may name neither the circuit's nor the
//! stimulus's file.
//!
//! `aigmc explain NUMBER` says what the number of a fault means, and what to do.
//!
//! `aigmc check FILE -p P` looks for evidence about the property P of the circuit FILE (`b0` for the first
//! bad literal, `j0` for the first justice property, `o0` for the first output of a circuit without bad
//! literals, constraints, justice properties and fairness literals), and prints what it found as a stimulus:
//! `1`, P and a run that violates it, `0` and P where it holds, or `2` and P where nothing is known.
//! `--engine` says what looks: `bmc`, bounded search through runs of at most `--depth` steps; `ic3`;
//! `corr`, register correspondence and then bounded search; `all`, the default, which is bounded search and IC3 with few
//! steps, then random simulation of long runs, then register correspondence, then the two again; or `random`, random
//! simulation from `--seed`.
//! `--budget` is how many steps the search may cost. With `--cert OUT` the certificate of a property that
//! holds is written to OUT before anything is printed; OUT may name neither the circuit's file nor the file
//! that standard output goes to. With `--witness OUT` OUT gets the certificate's witness circuit, in the layouts of `convert`.
//! With `--out DIR` evidence goes to the folder DIR, as with `all`. What is said is
//! `verdict::decide`'s. `--timeout` ends the search after so many seconds, of `all` for all properties together: what is left of
//! the budget is spent then. `--quiet` leaves out a run, and `--json` prints a line of JSON for each property instead. P may
//! be a name of the symbol table here and in all other commands, where exactly one property has it.
//!
//! `aigmc all FILE` does the same for all properties of the circuit, in their order
//! (`properties::all_properties`), and prints one stimulus after the other. The budget is for each. With
//! `--out DIR` the evidence about each is written to the folder DIR before its verdict is printed: a
//! certificate to `P.cert`, a stimulus to `P.stim`.
//!
//! `aigmc equal A B` looks for a run in which two circuits differ: it does what `check` does of the bad literal of their miter
//! (`miters::miter_of`). With `--out DIR` that is `miter.aig` in the folder DIR, and the evidence `b0.cert` or `b0.stim`. With
//! `--map OUT` the latches that the certificate's clauses say are equal (`latch_map::latch_map`) go to OUT before anything is
//! printed. Where there is no certificate, standard error says that nothing is known of them.
//!
//! `aigmc cover FILE` prints a run of `--depth` steps that keeps the constraints. Where bounded search shows that there is none,
//! the status is 1 and standard error says so.
//!
//! `aigmc certify FILE -p P --invariant INV --cert OUT` makes a certificate of the clauses that INV has (a line for each, or a
//! certificate): `certify::certify` proves each case of them, and believes nothing. `--budget` is how many steps the proofs may
//! cost. Where the clauses are no inductive invariant that excludes the property's literal, or the budget is exhausted,
//! nothing is written, standard error says so, and the status is 1 or 2. With `--strengthen` IC3 looks for an invariant where the
//! clauses are none, and begins with those of them that it can use. With `--extension EXT` the clauses are over any literals of
//! the circuit EXT, which begins with FILE's inputs, latches and gates, and the certificate is of version 3.
//!
//! `aigmc recertify FILE CERT OUT` makes a certificate of version 3 of the clauses of the certificate CERT, of any version
//! (`certify3::certify`), and says what `certify` says where there is none.
//!
//! `aigmc to-witness FILE CERT OUT` writes the witness circuit of the certificate CERT, which has to be accepted, to OUT, in the
//! layouts of `convert` (`witness_circuits::witness_of`). OUT is neither FILE nor CERT.
//!
//! `aigmc adopt-witness FILE WITNESS OUT` makes a certificate of version 3 of the witness circuit WITNESS, of the property that
//! `-p` names or else FILE's only one (`witness_adoption::adopt`, `certify3::certify`). Where WITNESS is none, standard error says
//! which condition fails, by which state.
//!
//! `aigmc to-safety FILE -p jN OUT` writes the shadow circuit of a justice property to OUT, in the layouts of
//! `convert`. OUT is not FILE.
//!
//! `aigmc extract FILE -p P OUT` writes the circuit of a bad literal, or of an output as one, to OUT, in the layouts of `convert`: all inputs and
//! latches, each with a name, the constraints, and the gates on which they and the property rest. A latch on which they don't rest keeps
//! its value. OUT is not FILE.
//!
//! `aigmc witness FILE STIM OUT` makes the strict stimulus OUT of the counterexample STIM, as another tool wrote it, of the property that
//! `-p` or STIM names, or else of any: what doesn't matter is taken as 0 or as 1, and what follows the violation is cut
//! (`witness::strict`). It prints `yes run P`. Where no choice shows a violation the status is 1, standard error says why, and nothing is
//! written. With `--clear` OUT has an `x` for each value that the violation does not rest on.
//!
//! FILE, A, B, STIM and INV may be `-`, the standard input, but one of them alone. OUT of `convert` and `trace` may be `-`, the standard output.
//!
//! With `-v` the fault of a file has a second line, with the file, the reason, and the line and column of a text.
//!
//! The status of `check` is 0 where the property holds, 1 for a violation and 2 where nothing is known. That
//! of `all` is 1 where a property is violated, else 2 where nothing is known of one or the circuit has none, and else
//! 0. Else the status is 0, and 3 where the command failed.
#![tactic(auto)]

mod detail;
mod explaining;

use aiger::Layout;
use aigmc_certificates::{adopt_witness, recertify};
use aigmc_circuits::{
    Miter, Pair, extract, make_fitting, make_shadow, make_witness, make_witness_circuit, trace,
};
use aigmc_commands::{MapFile, begin, certify_clauses, check, check_all, check_miter, cover};
use aigmc_files::{DONE, ExitError, FAULT, circuit, finished, print_table, stimulus_of, tell};
use arguments::{AskedLayout, Request, Search, UsageError, parse};
use base::push;
use detail::tell_detail;
use explaining::explain;
use graph::AigerFile;
use inputs::is_standard;
use std::env;
use std::process::ExitCode;

/// The layout that is asked for, by itself or by the name of the file to make.
fn layout_of(asked: AskedLayout, out: &str) -> Option<Layout> {
    match asked {
        AskedLayout::Named => Layout::of_name(out),
        AskedLayout::Ascii => Some(Layout::Ascii),
        AskedLayout::Binary => Some(Layout::Binary),
    }
}

/// Writes a circuit in the layout that is asked for.
fn convert(rt: &HostRuntime, name: &str, out: &str, asked: AskedLayout) -> Result<u8, ExitError> {
    let layout = layout_of(asked, out).ok_or(ExitError::BadArgument)?;
    let file = circuit(rt, name)?;
    make_fitting(rt, out, file, layout)?;
    Ok(DONE)
}

/// The same as `sim` of a circuit that was read.
fn print_values(rt: &HostRuntime, file: &AigerFile, stimulus: &str) -> Result<(), ExitError> {
    let stimulus = stimulus_of(rt, stimulus)?;
    print_table(rt, file, &stimulus)
}

/// Prints the values in the replay of a stimulus.
fn sim(rt: &HostRuntime, name: &str, stimulus: &str) -> Result<u8, ExitError> {
    if is_standard(name) && is_standard(stimulus) {
        return Err(ExitError::BadArgument);
    }
    let file = circuit(rt, name)?;
    print_values(rt, &file, stimulus)?;
    Ok(DONE)
}

/// Looks for a run in which two circuits differ.
fn compare(
    rt: &HostRuntime,
    one: &str,
    other: &str,
    folder: Option<&str>,
    map: Option<&str>,
    search: Search,
) -> Result<u8, ExitError> {
    let pair = Pair {
        one,
        other,
        folder,
        map,
        verbose: search.verbose,
    };
    let timing = begin(rt, search)?;
    let name = pair.name(rt.alloc())?;
    let Miter { file, position } = pair.made(rt)?;
    let map = map.map(|name| MapFile { name, position });
    check_miter(rt, name.as_str(), &file, pair.folder, map, timing)
}

/// Does what is asked for.
fn done(rt: &HostRuntime, request: Request<'_>) -> Result<u8, ExitError> {
    match request {
        Request::Convert { file, out, layout } => convert(rt, file, out, layout),
        Request::Sim { file, stimulus } => sim(rt, file, stimulus),
        Request::Trace {
            file,
            stimulus,
            all,
            waveform,
        } => trace(rt, file, stimulus, all, waveform),
        Request::Explain { number } => explain(rt, number),
        Request::Certify(asked) => certify_clauses(rt, asked),
        Request::Recertify(asked) => recertify(rt, asked),
        Request::ToSafety(asked) => make_shadow(rt, asked),
        Request::AdoptWitness(asked) => adopt_witness(rt, asked),
        Request::ToWitness(asked) => make_witness_circuit(rt, asked),
        Request::Extract(asked) => extract(rt, asked),
        Request::Witness(asked) => make_witness(rt, asked),
        Request::Check {
            file,
            property,
            kept,
            search,
        } => check(rt, file, property, kept, search),
        Request::Equal {
            file,
            other,
            folder,
            map,
            search,
        } => compare(rt, file, other, folder, map, search),
        Request::Cover { file, search } => cover(rt, file, search),
        Request::All {
            file,
            folder,
            search,
        } => check_all(rt, file, folder, search),
    }
}

/// Tells what is wrong with the words, or the help that they ask for.
fn refuse(rt: &HostRuntime, wrong: &UsageError) -> ExitCode {
    if wrong.is_out_of_memory() {
        return tell(rt, ExitError::Memory);
    }
    let is_help = wrong.is_help();
    match finished(wrong.print(rt)) {
        Ok(()) if is_help => ExitCode::from(DONE),
        Err(stop) if is_help => tell(rt, stop),
        _ => ExitCode::from(FAULT),
    }
}

/// Does what the words ask for, and answers the status.
fn answer(rt: &HostRuntime, words: &[String]) -> ExitCode {
    let asked = match parse(rt.alloc(), words) {
        Ok(Some(asked)) => asked,
        Ok(None) => return tell(rt, ExitError::BadArgument),
        Err(error) => return refuse(rt, &error),
    };
    match done(rt, asked.request) {
        Ok(status) => ExitCode::from(status),
        Err(stop) => {
            let status = tell(rt, stop);
            tell_detail(rt, asked, stop);
            status
        }
    }
}

fn main(rt: HostRuntime) -> ExitCode {
    let args = match env::args(&rt) {
        Ok(args) => args,
        Err(error) => {
            let _ = eprintln!(rt; "aigmc: {error}");
            return ExitCode::from(FAULT);
        }
    };
    let mut words: Vec<String> = Vec::new(rt.alloc());
    for word in args {
        if push(&mut words, word).is_err() {
            return tell(&rt, ExitError::Memory);
        }
    }
    answer(&rt, words.as_slice())
}

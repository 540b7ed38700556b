//! The checker over memory, for C and other languages: a static library. `include/aigcheck.h` says the contracts in
//! words, and `examples/c/check.c` calls it.
//!
//! What is answered is `checker`'s: `run_safe` of a circuit and a certificate, `run_stimulus` of a circuit and a stimulus.
#![tactic(auto)]

ghost use Rattle.std.specs.Prelude.{◌≡◌, ◌≢◌, ◌⊎◌, ◌<◌, ◌≤◌, ℕ, IsErr, Ok, false, true, length, take};
ghost use Rattle.graph.specs.declared.circuit.Property.{Property as AProperty};
ghost use Rattle.checker.specs.Lines.{yes_line, no_line};
ghost use Rattle.checker.specs.Replayed.{Confirms, IsRunRefusal};
ghost use Rattle.checker.specs.Verdicts.{Accepts, IsRefusal, IsUpheldText};
ghost use Rattle.checker.specs.declared.line.Question.TheVariants.{Safe, Run};

use base::{FromBytes, ToVec};
use checker::{RunError, run_safe, run_stimulus};
use std::alloc::Global;

/// The status of a yes.
const YES: u8 = 0;
/// The status of a no.
const NO: u8 = 1;
/// The status where there is no answer.
const NONE: u8 = 3;

/// Copies the line that was put, and answers the status: that there is none where the line has no room.
fn told(answer: Result<bool, RunError>, put: &[u8], line: &mut [u8], count: &mut usize) -> u8
    ensures status { (result ≡ 0) ⊎ (result ≡ 1) ⊎ (result ≡ 3) }
    ensures yes { result ≡ 0 → (answer ≡ Ok true) × (count.new ≤ length line.new) × (take count.new line.new ≡ put.now) }
    ensures no { result ≡ 1 → (answer ≡ Ok false) × (count.new ≤ length line.new) × (take count.new line.new ≡ put.now) }
    ensures none { result ≡ 3 → (count.new ≡ 0) × (IsErr answer ⊎ (length line.old < length put.now)) }
{
    let Ok(yes) = answer else {
        *count = 0;
        return NONE;
    };
    if put.len() > line.len() {
        *count = 0;
        return NONE;
    }
    line[..put.len()].copy_from_slice(put);
    *count = put.len();
    if yes { YES } else { NO }
}

/// Whether the certificate is accepted for the circuit, by the bytes of both: 0 for a yes, 1 for a no, and 3 where memory is refused
/// or the line is longer than its room. The first `count` bytes of `line` are the line of the answer (`yes safe P`, or
/// `no NUMBER`, and a line end), which takes 32 bytes at most.
#[unsafe(no_mangle)]
pub extern "C" fn aigcheck_safe(
    alloc: Global,
    circuit: &[u8],
    certificate: &[u8],
    line: &mut [u8],
    count: &mut usize,
) -> u8
    ensures status { (result ≡ 0) ⊎ (result ≡ 1) ⊎ (result ≡ 3) }
    ensures yes { result ≡ 0 → (p : AProperty) × Accepts circuit.now certificate.now p × IsUpheldText circuit.now p × (count.new ≤ length line.new) × (take count.new line.new ≡ yes_line Safe p) }
    ensures no { result ≡ 1 → (n : ℕ) × IsRefusal circuit.now certificate.now n × (count.new ≤ length line.new) × (take count.new line.new ≡ no_line n) }
    ensures none { result ≡ 3 → count.new ≡ 0 }
    // What is accepted never gets a no.
    ensures exact { (p : AProperty) → Accepts circuit.now certificate.now p → result ≢ 1 }
{
    let mut out = ToVec::new(alloc);
    let mut circuit = FromBytes::new(circuit);
    let mut certificate = FromBytes::new(certificate);
    let answer = run_safe(alloc, &mut circuit, &mut certificate, &mut out);
    told(answer, out.as_slice(), line, count)
}

/// Whether the stimulus shows its violation in the circuit, by the bytes of both; as `aigcheck_safe`, with the line `yes run P`.
#[unsafe(no_mangle)]
pub extern "C" fn aigcheck_run(
    alloc: Global,
    circuit: &[u8],
    stimulus: &[u8],
    line: &mut [u8],
    count: &mut usize,
) -> u8
    ensures status { (result ≡ 0) ⊎ (result ≡ 1) ⊎ (result ≡ 3) }
    ensures yes { result ≡ 0 → (p : AProperty) × Confirms circuit.now stimulus.now p × (count.new ≤ length line.new) × (take count.new line.new ≡ yes_line Run p) }
    ensures no { result ≡ 1 → (n : ℕ) × IsRunRefusal circuit.now stimulus.now n × (count.new ≤ length line.new) × (take count.new line.new ≡ no_line n) }
    ensures none { result ≡ 3 → count.new ≡ 0 }
    // What shows its violation never gets a no.
    ensures exact { (p : AProperty) → Confirms circuit.now stimulus.now p → result ≢ 1 }
{
    let mut out = ToVec::new(alloc);
    let mut circuit = FromBytes::new(circuit);
    let mut stimulus = FromBytes::new(stimulus);
    let answer = run_stimulus(alloc, &mut circuit, &mut stimulus, &mut out);
    told(answer, out.as_slice(), line, count)
}

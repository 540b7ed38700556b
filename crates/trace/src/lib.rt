//! A replay by the names of its signals.
//!
//! - A *bit* is an input, a latch, an output, a bad literal, a constraint or a fairness literal of a circuit, with its
//!   symbol's name, or where it has none `i0`, `l3`, `o1` and so on.
//! - A *signal* is a bit, or the bits `a[l]`, `a[l + 1]`, .. of one kind, which are shown as one number.
//! - `put_trace` puts a line for each signal with its value at each time of a stimulus's replay, in columns
//!   (`trace_text`).
//! - `put_vcd` puts the same replay as a waveform: a value change dump of IEEE 1364, with a variable for each signal
//!   (`wave_text`).
//! - Both tell the time at which the loop of a lasso begins (`IsLoopStart`).
//! - `put_open_trace` and `put_open_vcd` put what is known of all replays of which only some values are given, and `x`
//!   for what is open (`PutsOpenTrace`).
//!
//! Replaying costs the gates for each time, for a justice property at most twice that, and n log n for the order of the
//! names. The memory is that of the bits, and a value of each bit and a width at each time; a waveform's text is in
//! memory too before it is put.
#![tactic(auto)]

mod lines;
mod table;
mod waves;
mod widths;

pub use table::{put_open_trace, put_trace};
pub use waves::{put_open_vcd, put_vcd};

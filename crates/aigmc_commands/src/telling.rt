//! What standard error says of a search when it ends.

use engine::{Counter, Reason};
use explanations::Printable;
use graph::Property;
use portfolio::Conclusion;
use property_names::Name;
use rounds::{Cause, Counted};
use std::fmt;
use stimulus::Stimulus;
use verdict::Verdict;

/// Says what the engines counted, a line for each counter but those that are 0.
pub fn tell_counters(rt: &HostRuntime, counters: &[Counter]) {
    for counter in counters {
        if counter.count > 0 {
            let _ = eprintln!(rt; "{}: {}: {}", counter.engine, counter.name, counter.count);
        }
    }
}

/// Why nothing is known of a property, in words.
#[derive(Clone, Copy)]
pub struct Why {
    /// why the search ended
    pub reason: Reason,
    /// whether the time is over
    pub is_over: bool,
}

impl fmt::Display for Why {
    fn fmt<W: fmt::Write>(&self, f: &mut fmt::Formatter<W>) -> fmt::Result {
        match self.reason {
            Reason::Depth(depth) => {
                let times = depth.saturating_add(1);
                write!(
                    f,
                    "no run of at most {times} times; a greater --depth looks further"
                )
            }
            Reason::Budget if self.is_over => f.write_str(
                "the time is over; a greater --timeout looks further",
            ),
            Reason::Budget => f.write_str("the budget is spent; a greater --budget looks further"),
            Reason::NoEvidence => f.write_str("no engine had evidence"),
        }
    }
}

/// Why nothing is known of a justice property whose rounds were counted, in words.
#[derive(Clone, Copy)]
pub struct CountedWhy {
    /// why the counting ended
    pub cause: Cause,
    /// how many rounds a run holds
    pub held: u32,
    /// whether the time is over
    pub is_over: bool,
}

impl fmt::Display for CountedWhy {
    fn fmt<W: fmt::Write>(&self, f: &mut fmt::Formatter<W>) -> fmt::Result {
        write!(f, "a run holds {} rounds; ", self.held)?;
        let reason = match self.cause {
            Cause::Budget => Reason::Budget,
            Cause::Depth(steps) => Reason::Depth(steps),
            Cause::NoEvidence => Reason::NoEvidence,
            Cause::Unaccepted => return f.write_str(
                "the certificate that was made is not accepted",
            ),
            Cause::Unbounded => {
                return f.write_str(
                    "these are more than there are states, so the property is violated",
                );
            }
            Cause::Variables => {
                return f.write_str("the circuit that counts more has over 4194303 variables");
            }
        };
        write!(
            f,
            "{}",
            Why {
                reason,
                is_over: self.is_over
            }
        )
    }
}

/// Says what counting the rounds of the property came to.
fn tell_counted(rt: &HostRuntime, property: Property, counted: &Counted, is_over: bool) {
    let name = Name(property);
    let _ = match counted {
        Counted::Bounded { rounds, .. } => {
            eprint!(rt; "{name}: holds, since no run holds more than {rounds} rounds")
        }
        Counted::Unknown { cause, held } => {
            let (cause, held) = (*cause, *held);
            eprint!(rt;
                "{name}: {}",
                CountedWhy {
                    cause,
                    held,
                    is_over
                }
            )
        }
    };
}

/// Says that a certificate of version 3 shows the property.
fn tell_shown(rt: &HostRuntime, property: Property) {
    let name = Name(property);
    let _ = eprint!(rt; "{name}: holds, by a certificate of version 3");
}

/// Says what was found of the property, and why nothing is known of it.
fn tell_found(rt: &HostRuntime, property: Property, verdict: &Verdict, is_over: bool) {
    let name = Name(property);
    let _ = match verdict {
        Verdict::Safe(certificate) => {
            let clauses = certificate.invariant.as_slice().len();
            eprint!(rt; "{name}: holds, by an invariant of {clauses} clauses")
        }
        Verdict::Unsafe(Stimulus::Violated { inputs, .. }) => {
            let times = inputs.as_slice().len();
            eprint!(rt; "{name}: violated, by a run of {times} times")
        }
        Verdict::Unsafe(_) => eprint!(rt; "{name}: violated"),
        Verdict::Unknown(reason) => {
            let reason = *reason;
            eprint!(rt; "{name}: {}", Why { reason, is_over })
        }
    };
}

/// Says what was found of the property, and why nothing is known of it, and its name where it has one.
pub fn conclude(
    rt: &HostRuntime,
    property: Property,
    conclusion: &Conclusion,
    symbol: Option<&[u8]>,
    is_over: bool,
) {
    match conclusion {
        Conclusion::Decided(verdict) => tell_found(rt, property, verdict, is_over),
        Conclusion::Counted(counted) => tell_counted(rt, property, counted, is_over),
        Conclusion::Shown(_) => tell_shown(rt, property),
    }
    let _ = match symbol {
        Some(symbol) => eprintln!(rt; " ({})", Printable(symbol)),
        None => eprintln!(rt),
    };
}

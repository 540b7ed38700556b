//! What standard error says of a search: how far it is.

use base::Budget;
use engine::Progress;
use rounds::RoundsProgress;
use std::time::Instant;

/// How long the one line stays as it is.
const MILLISECONDS: u128 = 500;

/// Steps are shown in millions, with one place behind the point.
const MILLION: u64 = 1_000_000;

const TENTH: u64 = 100_000;

/// How a search is shown.
#[derive(Clone, Copy, PartialEq, Eq)]
pub enum Shown {
    /// Not at all.
    Nothing,
    /// By a line for each frame or depth.
    Lines,
    /// By one line, which is written over each half second and is gone at the end.
    OneLine,
}

impl Shown {
    /// Takes the one line away.
    pub fn wipe(self, rt: &HostRuntime) {
        if self == Shown::OneLine {
            let _ = eprint!(rt; "\r\x1b[K");
        }
    }
}

/// The engines of a search.
#[derive(Clone, Copy, PartialEq, Eq)]
pub enum Reported {
    /// Bounded search, IC3, register correspondence and the counting of rounds.
    Several,
    /// k-induction.
    KInduction,
    /// Signal correspondence.
    Signals,
}

impl Reported {
    /// What the engine is called that looks at one depth after the other.
    fn deepening(self) -> &'static str {
        if self == Reported::KInduction {
            "kind"
        } else {
            "bmc"
        }
    }

    /// What the engine is called that has rounds of induction.
    fn inducing(self) -> &'static str {
        if self == Reported::Signals {
            "scorr"
        } else {
            "corr"
        }
    }
}

/// Shows on standard error how far a search is. A line that cannot be written is left out.
#[derive(Drop)]
pub struct Reporter {
    rt: HostRuntime,
    shown: Shown,
    reported: Reported,
    /// the frame that was opened last
    frame: u32,
    /// the clauses that the frames had then
    clauses: usize,
    /// when the one line was written
    written: Option<Instant>,
}

impl Reporter {
    /// A reporter that shows a search in this way.
    pub fn new(rt: &HostRuntime, shown: Shown) -> Reporter {
        Reporter {
            rt: *rt,
            shown,
            reported: Reported::Several,
            frame: 0,
            clauses: 0,
            written: None,
        }
    }

    /// A reporter that shows a search by these engines in this way.
    pub fn of(reported: Reported, rt: &HostRuntime, shown: Shown) -> Reporter {
        let mut reporter = Reporter::new(rt, shown);
        reporter.reported = reported;
        reporter
    }

    /// Whether the one line is due: half a second after it was written, or after the first query.
    fn is_due(&mut self) -> bool {
        let Ok(now) = Instant::now(&self.rt) else {
            return false;
        };
        let is_due = match self.written {
            Some(before) => now.duration_since(before).as_millis() >= MILLISECONDS,
            None => false,
        };
        if is_due || self.written.is_none() {
            self.written = Some(now);
        }
        is_due
    }

    /// Says in which frame the search is, between these two texts.
    fn say_frame(&self, before: &str, behind: &str, budget: &Budget) {
        let spent = budget.spent();
        let all = spent.saturating_add(budget.left());
        let _ = eprint!(self.rt;
            "{before}ic3: frame {}, {} clauses, {}.{} of {}.{} million steps{behind}",
            self.frame,
            self.clauses,
            spent / MILLION,
            spent % MILLION / TENTH,
            all / MILLION,
            all % MILLION / TENTH
        );
    }

    /// Says which depth the search has come to, between these two texts.
    fn say_depth(&self, before: &str, depth: u32, variables: u32, behind: &str, budget: &Budget) {
        let spent = budget.spent();
        let all = spent.saturating_add(budget.left());
        let _ = eprint!(self.rt;
            "{before}{}: depth {depth}, {variables} variables, {}.{} of {}.{} million steps{behind}",
            self.reported.deepening(),
            spent / MILLION,
            spent % MILLION / TENTH,
            all / MILLION,
            all % MILLION / TENTH
        );
    }

    /// Says which round of induction has begun, between these two texts.
    fn say_round(&self, before: &str, round: u64, clauses: usize, behind: &str, budget: &Budget) {
        let spent = budget.spent();
        let all = spent.saturating_add(budget.left());
        let _ = eprint!(self.rt;
            "{before}{}: round {round}, {clauses} clauses, {}.{} of {}.{} million steps{behind}",
            self.reported.inducing(),
            spent / MILLION,
            spent % MILLION / TENTH,
            all / MILLION,
            all % MILLION / TENTH
        );
    }

    /// Says which number of rounds is asked about, between these two texts.
    fn say_rounds(&self, before: &str, rounds: u32, behind: &str, budget: &Budget) {
        let spent = budget.spent();
        let all = spent.saturating_add(budget.left());
        let _ = eprint!(self.rt;
            "{before}rounds: at most {rounds}, {}.{} of {}.{} million steps{behind}",
            spent / MILLION,
            spent % MILLION / TENTH,
            all / MILLION,
            all % MILLION / TENTH
        );
    }
}

impl RoundsProgress for Reporter {
    fn rounds_begun(&mut self, rounds: u32, budget: &Budget) {
        if self.shown == Shown::Lines {
            self.say_rounds("", rounds, "\n", budget);
        } else if self.shown == Shown::OneLine && self.is_due() {
            self.say_rounds("\r", rounds, "\x1b[K", budget);
        }
    }
}

impl Progress for Reporter {
    fn frame_opened(&mut self, frame: u32, clauses: usize, budget: &Budget) {
        self.frame = frame;
        self.clauses = clauses;
        if self.shown == Shown::Lines {
            self.say_frame("", "\n", budget);
        }
    }

    fn depth_begun(&mut self, steps: u32, variables: u32, budget: &Budget) {
        if self.shown == Shown::Lines {
            self.say_depth("", steps, variables, "\n", budget);
        } else if self.shown == Shown::OneLine && self.is_due() {
            self.say_depth("\r", steps, variables, "\x1b[K", budget);
        }
    }

    fn query_asked(&mut self, budget: &Budget) {
        if self.shown == Shown::OneLine && self.is_due() {
            self.say_frame("\r", "\x1b[K", budget);
        }
    }

    fn round_begun(&mut self, round: u64, clauses: usize, budget: &Budget) {
        if self.shown == Shown::Lines {
            self.say_round("", round, clauses, "\n", budget);
        } else if self.shown == Shown::OneLine && self.is_due() {
            self.say_round("\r", round, clauses, "\x1b[K", budget);
        }
    }
}

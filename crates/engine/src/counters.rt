//! What engines count.

use base::{Refused, push};
use solver::Statistics;
use std::alloc::Global;

/// A counter of an engine.
#[derive(Clone, Copy)]
pub struct Counter {
    /// whose it is: `bmc`, say
    pub engine: &'static str,
    /// what is counted, in words
    pub name: &'static str,
    /// how many
    pub count: u64,
}

/// What engines counted, in the order in which they are asked. Engines of one name are counted together. No answer depends
/// on it.
#[derive(Drop)]
pub struct Counters {
    list: Vec<Counter>,
}

impl Counters {
    /// No counters, which take no memory.
    pub fn new(alloc: Global) -> Counters {
        Counters {
            list: Vec::new(alloc),
        }
    }

    /// Adds so many to the counter of this name, which is made where it is new. The only refusal is out of memory.
    pub fn add(
        &mut self,
        engine: &'static str,
        name: &'static str,
        count: u64,
    ) -> Result<(), Refused> {
        for counter in self.list.iter_mut() {
            if counter.engine == engine && counter.name == name {
                counter.count = counter.count.saturating_add(count);
                return Ok(());
            }
        }
        push(
            &mut self.list,
            Counter {
                engine,
                name,
                count,
            },
        )
    }

    /// Adds what the engine's solver counted.
    pub fn add_statistics(
        &mut self,
        engine: &'static str,
        statistics: &Statistics,
    ) -> Result<(), Refused> {
        self.add(engine, "decisions", statistics.decisions)?;
        self.add(engine, "propagations", statistics.propagations)?;
        self.add(engine, "conflicts", statistics.conflicts)?;
        self.add(engine, "restarts", statistics.restarts)?;
        self.add(engine, "reductions", statistics.reductions)?;
        self.add(engine, "learned clauses", statistics.kept_learned)?;
        self.add(
            engine,
            "refused learned clauses",
            statistics.refused_learned,
        )?;
        self.add(engine, "refused cores", statistics.refused_cores)
    }

    /// All of them.
    pub fn as_slice(&self) -> &[Counter] {
        self.list.as_slice()
    }
}

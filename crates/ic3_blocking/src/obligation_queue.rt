//! The queue of proof obligations (Een, Mishchenko, Brayton 2011).

ghost use Rattle.std.specs.Prelude.{◌≡◌, ◌+◌, ◌<◌, ℕ, [], length, replicate, IfOk, IfSome, OnOk, OnErr};
ghost use Rattle.ic3_blocking.specs.Queue.{AreQueued, queued_in, IsEnqueued, IsPopped};

use base::{Refused, push};
use std::alloc::Global;

/// The obligations that are to be blocked in each frame, by their indices, the one that was added last at the end.
#[derive(Drop)]
pub(crate) struct ObligationQueue {
    frames: Vec<Vec<usize>>,
}

impl ObligationQueue {
    /// The empty queue of the frames up to the top.
    pub(crate) fn new(alloc: Global, top: u32) -> Result<ObligationQueue, Refused>
        ensures frames { IfOk result (λ w. length w.frames.items ≡ top + 1) }
        ensures none { (count : ℕ) → IfOk result (AreQueued count) }
        ensures empty { IfOk result (λ w. queued_in w ≡ replicate (top + 1) []) }
    {
        let mut frames = Vec::new(alloc);
        'opening: for _ in 0..top as usize + 1 {
            push(&mut frames, Vec::new(alloc))?;
        }
        Ok(ObligationQueue { frames })
    }

    /// Adds the obligation with this index to a frame, where it is the first to be popped. A refusal changes nothing.
    pub(crate) fn add(&mut self, level: u32, index: usize) -> Result<(), Refused>
        requires { level < length self.old.frames.items }
        ensures frames { length self.new.frames.items ≡ length self.old.frames.items }
        ensures queued { (count : ℕ) → AreQueued count self.old → index < count → OnOk result (AreQueued count self.new) }
        ensures added { OnOk result (IsEnqueued (queued_in self.old) (queued_in self.new) level index) }
        ensures err { OnErr result (queued_in self.new ≡ queued_in self.old) }
    {
        push(&mut self.frames[level as usize], index)
    }

    /// Pops the obligation that was added last of those in the lowest frame that has one. There is none only where the queue is empty.
    pub(crate) fn pop_min(&mut self) -> Option<(u32, usize)>
        requires { length self.old.frames.items < 4294967296 }
        ensures frames { length self.new.frames.items ≡ length self.old.frames.items }
        ensures level { IfSome result (λ r. r.0 < length self.old.frames.items) }
        ensures queued { (count : ℕ) → AreQueued count self.old → AreQueued count self.new }
        ensures index { (count : ℕ) → AreQueued count self.old → IfSome result (λ r. r.1 < count) }
        ensures popped { IsPopped (queued_in self.old) (queued_in self.new) result }
    {
        'looking: for level in 0..self.frames.len() {
            if let Some(index) = self.frames[level].pop() {
                return Some((level as u32, index));
            }
        }
        None
    }
}

//! What is asked of the circuit of a text.

use graph::Model;
use std::alloc::Global;
use std::test::Fail;

/// A latch that keeps its value 0, which is bad where it is set.
pub static HOLD: &[u8] = b"aag 1 0 1 0 0 1\n2 2\n2\n";

/// A question about a circuit.
pub trait Question {
    type Answer;

    fn answer(&self, alloc: Global, circuit: &Model) -> Result<Self::Answer, Fail>;
}

/// The answer to a question about the circuit of a text.
pub fn asked<Q: Question>(alloc: Global, text: &[u8], question: &Q) -> Result<Q::Answer, Fail> {
    let file = aiger::read(alloc, text)?;
    question.answer(alloc, file.model())
}

//! What is known of a property when the engines were asked.

use base::Seq;
use rounds::Counted;
use verdict::Verdict;

/// What is known of a property.
#[derive(Drop)]
pub enum Conclusion {
    /// what the circuit's bad literal or output, or its shadow circuit, was decided by
    Decided(Verdict),
    /// what counting the rounds of a justice property came to
    Counted(Counted),
    /// that the circuit's bad literal or output is never set, as the text of a certificate of version 3 says
    Shown(Seq<u8>),
}

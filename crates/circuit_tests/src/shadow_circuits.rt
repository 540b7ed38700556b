//! Stimuli of a shadow circuit that no lasso belongs to.

use crate::questions::{Question, asked};
use graph::Model;
use live_safe::lasso_of;
use std::alloc::Global;
use std::test::Fail;
use stimulus::{Stimulus, read};

/// A circuit of one input, which its justice property wants.
static WANTED: &[u8] = b"aag 1 1 0 0 0 0 0 1\n2\n1\n2\n";

/// Violations of the shadow circuit of an input that is wanted, which have not its lengths.
static UNFIT: [&[u8]; 4] = [
    b"1\nb0\n0\n11\n00\n.\n",
    b"1\nb0\n000\n11\n00\n.\n",
    b"1\nb0\n00\n11\n0\n.\n",
    b"1\nb0\n00\n.\n",
];

/// Whether no lasso belongs to the violation.
#[derive(Clone, Copy)]
struct NoLasso<'a> {
    stimulus: &'a Stimulus,
}

impl Question for NoLasso<'_> {
    type Answer = bool;

    fn answer(&self, alloc: Global, circuit: &Model) -> Result<bool, Fail> {
        match self.stimulus {
            Stimulus::Violated {
                initial,
                inputs,
                ..
            } => Ok(lasso_of(alloc, circuit, 0, initial.as_slice(), inputs.as_slice())?.is_none()),
            _ => Ok(false),
        }
    }
}

/// Whether no lasso belongs to the stimulus that a text spells.
fn has_no_lasso(alloc: Global, text: &[u8]) -> Result<bool, Fail> {
    let stimulus = read(alloc, text)?;
    asked(
        alloc,
        WANTED,
        &NoLasso {
            stimulus: &stimulus,
        },
    )
}

#[test]
fn other_lengths_have_no_lasso(rt: HostRuntime) -> Result<(), Fail> {
    for text in &UNFIT {
        assert!(rt; has_no_lasso(rt.alloc(), text)?);
    }
    Ok(())
}

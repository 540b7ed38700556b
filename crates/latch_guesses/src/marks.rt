//! Marks of variables.

use graph::Lit;

/// Whether the literal's variable is marked.
pub(crate) fn is_marked(marks: &[bool], lit: Lit) -> bool {
    match marks.get(lit.variable() as usize) {
        Some(mark) => *mark,
        None => false,
    }
}

/// Marks the literal's variable.
pub(crate) fn mark(marks: &mut [bool], lit: Lit) {
    if let Some(mark) = marks.get_mut(lit.variable() as usize) {
        *mark = true;
    }
}

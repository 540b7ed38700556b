//! How large an extension is.

/// How many latches and gates an extension has.
#[derive(Clone, Copy)]
pub struct Sizes {
    pub latches: u32,
    pub gates: u32,
}

//! Ranges of native code.

// Native code of a function, by its number: from an offset up to, and without, another.
#[derive(Clone, Copy)]
pub(crate) struct CodeRange {
    pub(crate) function: usize,
    pub(crate) start: usize,
    pub(crate) end: usize,
}

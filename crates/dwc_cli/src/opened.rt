//! A place in a file of a source in memory.

// The number of the file that is open, and how many of its bytes were given.
#[derive(Clone, Copy)]
pub(crate) struct Opened {
    pub(crate) file: usize,
    pub(crate) place: usize,
}

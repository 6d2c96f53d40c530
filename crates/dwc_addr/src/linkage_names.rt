//! The names of the functions that a debugger calls.

/// The names of two functions of the run time, which debug information refers to. They have no zero byte.
#[derive(Clone, Copy)]
pub struct LinkageNames<'a> {
    /// The one that tells which memory addresses are of.
    pub set_memory: &'a str,
    /// The one that turns an address of that memory into a native one.
    pub resolve_memory: &'a str,
}

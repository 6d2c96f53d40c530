//! Where a module's memory is found at run time.

/// Where the record of a module's context has what leads to its memory, in bytes from the record's begin.
#[derive(Clone, Copy)]
pub enum ModuleMemoryOffset {
    /// The module has no memory.
    None,
    /// The address of a memory of its own is there.
    Defined(u32),
    /// The memory is another module's.
    Imported {
        /// Where the address of that memory's definition is.
        offset_to_vm_memory_definition: u32,
        /// Where the memory's address is in its definition.
        offset_to_memory_base: u32,
    },
}

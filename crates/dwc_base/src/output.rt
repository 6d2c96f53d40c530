//! The sections that are written, with the places in them that a linker fills in.

/// A section of an output: its name, its bytes, and its relocations in the order of their offsets.
#[derive(Drop)]
pub struct DwarfSection {
    pub name: &'static str,
    pub body: Vec<u8>,
    pub relocs: Vec<DwarfSectionReloc>,
}

/// A field of `size` bytes at `offset` that is to hold the target's address plus the addend, which it holds already.
#[derive(Clone, Copy, Debug, PartialEq, Eq)]
pub struct DwarfSectionReloc {
    pub target: DwarfSectionRelocTarget,
    pub offset: u32,
    pub addend: i32,
    pub size: u8,
}

/// What a field refers to: a function by its number among all functions, or a section by its name.
#[derive(Clone, Copy, Debug, PartialEq, Eq)]
pub enum DwarfSectionRelocTarget {
    Func(usize),
    Section(&'static str),
}

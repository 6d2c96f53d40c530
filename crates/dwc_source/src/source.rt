//! What the entries of a unit are cloned with.
use crate::{CompiledModule, Places, UnitFiles};
use dwc_addr::AddressTransform;
use dwc_read::Unit;
use dwc_unit::DebugInfoRef;

/// What the entries of a unit are cloned with: the unit, the functions of its module and what is told of them, where the module's entries
/// stand in the output, the types of a pointer to the module's context and of an address in its memory, the files that the unit's entries
/// name, and whether the target has the highest byte of a number first.
#[derive(Clone, Copy)]
pub struct CloneSource<'c, 'd> {
    pub unit: &'c Unit<'d>,
    pub transform: &'c AddressTransform<'c>,
    pub module: CompiledModule<'c>,
    pub places: &'c Places,
    pub vmctx_ptr: DebugInfoRef,
    pub wasm_ptr: DebugInfoRef,
    pub files: UnitFiles,
    pub big_endian: bool,
}

//! Clones the kept entries of a unit into a unit of the output: what each attribute becomes, and the entries that references go to.
#![tactic(auto)]

mod attribute;
mod begun_numbers;
mod code;
mod context;
mod entry;
mod made;
mod object_pointer;
mod reference;
mod unit;
mod value;
mod walk;
mod wrapped;
mod wrapper;

pub use context::append_vmctx_info;
pub use dwc_extents::InheritedAttr;
pub use dwc_source::{
    CloneError, CloneSource, CompiledModule, KnownTexts, OutputPlace, Places, UnitFiles,
};
pub use object_pointer::SubprogramContext;
pub use unit::clone_unit;

//! Carries the DWARF of a compilation over to the native code of its functions.
#![tactic(auto)]

mod begun_unit;
mod carry_modules;
mod carry_units;
mod compiled_module;
mod dependencies;
mod die_ref;
mod emit;
mod error;
mod frames;
mod label_location;
mod last_lines;
mod lengths;
mod local_types;
mod made_entries;
mod module_places;
mod output_form;
mod simulated_code;
mod simulated_entries;
mod simulated_functions;
mod simulated_modules;
mod simulated_names;
mod simulated_root;
mod simulated_texts;
mod simulated_unit;
mod simulated_variables;
mod synthetic_entries;
mod synthetic_unit;
mod transform;
mod unit_path;

pub use dependencies::build_dependencies;
pub use die_ref::resolve_die_ref;
pub use dwc_clone::{InheritedAttr, SubprogramContext, append_vmctx_info};
pub use emit::{CarriedDwarf, carry_dwarf, emit_dwarf};
pub use error::DebugError;
pub use simulated_unit::generate_simulated_dwarf;
pub use synthetic_unit::ModuleSyntheticUnit;
pub use transform::transform_dwarf;

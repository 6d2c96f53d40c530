//! What the entries of a unit are cloned with: the unit and its module, where entries stand in the output, texts, and errors.
#![tactic(auto)]

mod compiled_module;
mod error;
mod files;
mod known_texts;
mod names;
mod noted_offsets;
mod places;
mod source;
mod text;

pub use compiled_module::CompiledModule;
pub use error::{CloneError, of_memory};
pub use files::UnitFiles;
pub use known_texts::KnownTexts;
pub use names::{
    is_bound_name, is_dropped_name, is_file_name, is_gone, is_location_name, is_wrapped,
};
pub use places::{OutputPlace, Places};
pub use source::CloneSource;
pub use text::{add_text, check_text, text_of, text_place_of};

//! A set of texts in the order of their first use. A look-up takes a logarithm of their number, whatever they say.
#![tactic(auto)]

mod index;
mod text;
mod texts;

pub use text::Text;
pub use texts::Texts;

//! One section as it is written: the bytes of numbers and texts, addresses and offsets with their relocations, and what limits it.
#![tactic(auto)]

pub mod append;
pub mod digits;
mod error;
pub mod growth;
pub mod leb_sizes;
pub mod writer;

pub use append::put_uleb;
pub use error::WriteError;
pub use writer::{Writer, WriterRelocate};

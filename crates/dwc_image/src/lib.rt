//! Images of line tables: the rows of a table, over the code that was compiled from what they describe.
#![tactic(auto)]

mod image;
mod lines;
mod open_lines;
mod sequence;
mod simulated;

pub use lines::carried_lines;
pub use open_lines::carried_open_lines;
pub use simulated::{add_simulated, simulated_lines};

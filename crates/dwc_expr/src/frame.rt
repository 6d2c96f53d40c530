//! What is known of the function in whose frame an expression is evaluated.
use dwc_isa::{ModuleMemoryOffset, ValueLabelsRanges};

/// What a function tells to the expressions of its entries.
#[derive(Clone, Copy)]
pub struct FunctionFrameInfo<'a> {
    /// Where its values lie, by their labels.
    pub value_ranges: &'a ValueLabelsRanges,
    /// Where the linear memory of its module is found.
    pub memory_offset: ModuleMemoryOffset,
    /// Its number among the functions of all modules, if it has a symbol. Values have places in its own code alone.
    pub symbol: Option<usize>,
}

//! Expressions of the input: what they compile to, where the values lie that they need, and what is built of them over the native
//! code of a scope. (DWARF 4 and 5, sections 2.5 and 2.6.)
#![tactic(auto)]

mod build;
mod compile;
mod error;
mod expression;
mod frame;
mod part;
mod ranges;

pub use build::built::BuiltCompiledExpression;
pub use build::over_intervals::put_locations;
pub use compile::compile_expression;
pub use error::ExprError;
pub use expression::CompiledExpression;
pub use frame::FunctionFrameInfo;
pub use part::CompiledExpressionPart;
pub use ranges::cached_range::CachedValueLabelRange;
pub use ranges::label_ranges::{BuiltValueLabelRanges, ValueLabelRangesBuilder};

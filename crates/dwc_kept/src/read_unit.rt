//! A unit of a module that was read.
ghost use Rattle.std.specs.Prelude.{◌≡◌, Some};
ghost use Rattle.std.specs.Option.{option_or};
ghost use Rattle.dwc_base.specs.declared.constants.TheConstants.{DW_TAG_compile_unit};
ghost use Rattle.dwc_rules.specs.Refusals.{table_offset};
ghost use Rattle.dwc_read.specs.EntriesSeen.{entry_view};
ghost use Rattle.dwc_kept.specs.RootsSaid.{root_said, has_tag, table_named};

use dwc_base::constants::{DW_AT_stmt_list, DW_TAG_compile_unit};
use dwc_read::{AttributeValue, Entry, Unit};

/// A unit of a module whose entries were read.
#[derive(Drop)]
pub struct ReadUnit<'d> {
    pub unit: Unit<'d>,
    /// Whether its root is a compile unit.
    pub is_compile_unit: bool,
    /// The offset in `.debug_line` of the line table that its root names.
    pub line_table: Option<u64>,
}

/// What the root of a unit says: its tag, and the offset of the line table that it names.
#[derive(Clone, Copy)]
pub(crate) struct RootEntry {
    pub tag: u16,
    pub line_table: Option<u64>,
}

// The offset of the line table that an entry names.
fn line_table(entry: &Entry<'_>) -> Option<u64>
    ensures { result ≡ table_offset (Some (entry_view entry.now)) }
{
    match entry.attr(DW_AT_stmt_list)? {
        AttributeValue::LineRef(offset) => Some(offset),
        _ => None,
    }
}

/// What the root says: the first of the entries that are read.
pub(crate) fn root_or(root: Option<RootEntry>, entry: &Entry<'_>) -> Option<RootEntry>
    ensures { result ≡ option_or root (Some (root_said (entry_view entry.now))) }
{
    match root {
        Some(root) => Some(root),
        None => Some(RootEntry {
            tag: entry.tag,
            line_table: line_table(entry),
        }),
    }
}

/// Whether the root of a unit, if it has one, is a compile unit.
pub(crate) fn is_compile_unit(root: Option<RootEntry>) -> bool
    ensures { result ≡ has_tag DW_TAG_compile_unit root }
{
    match root {
        None => false,
        Some(root) => root.tag == DW_TAG_compile_unit,
    }
}

/// The offset of the line table that the root of a unit names.
pub(crate) fn table_named(root: Option<RootEntry>) -> Option<u64>
    ensures { result ≡ table_named root }
{
    root?.line_table
}

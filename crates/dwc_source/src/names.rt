//! Names of attributes that decide alone what becomes of a value, and tags that decide so of an entry.
ghost use Rattle.dwc_rules.specs.Kept.{Placed};
ghost use Rattle.dwc_rules.specs.EntryRules.{is_gone};
ghost use Rattle.dwc_rules.specs.Wrappers.{is_wrapped};
ghost use Rattle.dwc_read.specs.EntriesSeen.{entry_view};
ghost use Rattle.std.specs.Prelude.{◌≡◌};
ghost use Rattle.dwc_rules.specs.Clones.{is_dropped_name, is_bound_name, is_file_name};
ghost use Rattle.dwc_dwarf.specs.Values.{is_location_name};

use dwc_base::OutputFor;
use dwc_base::constants::{
    DW_AT_GNU_locviews, DW_AT_addr_base, DW_AT_call_file, DW_AT_containing_type,
    DW_AT_data_member_location, DW_AT_decl_file, DW_AT_dwo_name, DW_AT_frame_base, DW_AT_high_pc,
    DW_AT_location, DW_AT_loclists_base, DW_AT_low_pc, DW_AT_macro_info, DW_AT_macros,
    DW_AT_ranges, DW_AT_return_addr, DW_AT_rnglists_base, DW_AT_segment, DW_AT_sibling,
    DW_AT_static_link, DW_AT_str_offsets_base, DW_AT_string_length, DW_AT_use_location,
    DW_AT_vtable_elem_location, DW_TAG_pointer_type, DW_TAG_ptr_to_member_type,
    DW_TAG_reference_type, DW_TAG_rvalue_reference_type,
};
use dwc_read::Entry;

/// Whether an attribute of a name goes: what speaks of a place in the input, or of sections that are not carried.
pub fn is_dropped_name(name: u16) -> bool
    ensures { result ≡ is_dropped_name name }
{
    match name {
        DW_AT_sibling
        | DW_AT_macro_info
        | DW_AT_str_offsets_base
        | DW_AT_addr_base
        | DW_AT_rnglists_base
        | DW_AT_loclists_base
        | DW_AT_dwo_name
        | DW_AT_macros
        | DW_AT_GNU_locviews => true,
        _ => false,
    }
}

/// Whether an attribute of a name bounds its entry's code. (DWARF 4 and 5, section 2.17.)
pub fn is_bound_name(name: u16) -> bool
    ensures { result ≡ is_bound_name name }
{
    match name {
        DW_AT_low_pc | DW_AT_high_pc | DW_AT_ranges => true,
        _ => false,
    }
}

/// Whether a constant of a name numbers a file. (DWARF 4 and 5, sections 2.14 and 3.3.8.)
pub fn is_file_name(name: u16) -> bool
    ensures { result ≡ is_file_name name }
{
    name == DW_AT_decl_file || name == DW_AT_call_file
}

/// Whether an attribute of a name may have a location list. (DWARF 4, section 7.5.4; DWARF 5, table 7.5.)
pub fn is_location_name(name: u16) -> bool
    ensures { result ≡ is_location_name name }
{
    name == DW_AT_location
        || name == DW_AT_string_length
        || name == DW_AT_return_addr
        || name == DW_AT_data_member_location
        || name == DW_AT_frame_base
        || name == DW_AT_segment
        || name == DW_AT_static_link
        || name == DW_AT_use_location
        || name == DW_AT_vtable_elem_location
}

/// Whether an entry is wrapped: a pointer or a reference; of rvalue references those in an output for a debugger.
pub fn is_wrapped(output_for: OutputFor, entry: &Entry<'_>) -> bool
    ensures { (e : Placed) → e.entry ≡ entry_view entry.now → result ≡ is_wrapped output_for e }
{
    match entry.tag {
        DW_TAG_pointer_type | DW_TAG_reference_type => true,
        DW_TAG_rvalue_reference_type => matches!(output_for, OutputFor::Debugger),
        _ => false,
    }
}

/// Whether an attribute of an entry, by its name, goes behind its reading. For a debugger those go that lead it to take a wrapper for a
/// pointer: the type that virtual functions are found by, but not the class of a pointer to a member, and the place of a virtual function.
pub fn is_gone(output_for: OutputFor, entry: &Entry<'_>, name: u16) -> bool
    ensures { result ≡ is_gone output_for (entry_view entry.now) name }
{
    let leads_astray = match name {
        DW_AT_containing_type => entry.tag != DW_TAG_ptr_to_member_type,
        DW_AT_vtable_elem_location => true,
        _ => false,
    };
    leads_astray && matches!(output_for, OutputFor::Debugger)
}

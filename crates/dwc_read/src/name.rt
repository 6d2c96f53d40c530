//! What a section offset, a block and a constant mean under the name of their attribute. (DWARF 4 and 5, table 7.5.)
ghost use Rattle.std.specs.Prelude.{◌≡◌};
ghost use Rattle.dwc_dwarf.specs.Values.{is_location_name as location_named, is_range_name as range_named, is_expression_name as expression_named, section_offset as meant_offset, block_value as meant_block, constant_value as meant_constant};
ghost use Rattle.dwc_read.specs.ValuesSeen.{value_view};

use crate::AttributeValue;
use dwc_base::constants::{
    DW_AT_allocated, DW_AT_associated, DW_AT_bit_size, DW_AT_bit_stride, DW_AT_byte_size,
    DW_AT_byte_stride, DW_AT_count, DW_AT_data_location, DW_AT_data_member_location,
    DW_AT_frame_base, DW_AT_location, DW_AT_lower_bound, DW_AT_ranges, DW_AT_return_addr,
    DW_AT_segment, DW_AT_start_scope, DW_AT_static_link, DW_AT_stmt_list, DW_AT_string_length,
    DW_AT_upper_bound, DW_AT_use_location, DW_AT_vtable_elem_location, DW_FORM_data4,
};

// Whether an attribute may have a location list.
pub fn is_location_name(name: u16) -> bool
    ensures { result ≡ location_named name }
{
    name == DW_AT_location
        || name == DW_AT_string_length
        || name == DW_AT_return_addr
        || name == DW_AT_data_member_location
        || name == DW_AT_frame_base
        || name == DW_AT_segment
        || name == DW_AT_static_link
        || name == DW_AT_use_location
        || name == DW_AT_vtable_elem_location
}

// Whether an attribute may have a range list.
pub fn is_range_name(name: u16) -> bool
    ensures { result ≡ range_named name }
{
    name == DW_AT_ranges || name == DW_AT_start_scope
}

// Whether an attribute's block is an expression.
fn is_expression_name(name: u16) -> bool
    ensures { result ≡ expression_named name }
{
    is_location_name(name)
        || name == DW_AT_byte_size
        || name == DW_AT_bit_size
        || name == DW_AT_lower_bound
        || name == DW_AT_bit_stride
        || name == DW_AT_upper_bound
        || name == DW_AT_count
        || name == DW_AT_allocated
        || name == DW_AT_associated
        || name == DW_AT_data_location
        || name == DW_AT_byte_stride
}

// What a section offset means.
#[inline(always)]
pub fn section_offset<'d>(name: u16, offset: u64) -> AttributeValue<'d>
    ensures { value_view result ≡ meant_offset name offset }
{
    if is_location_name(name) {
        AttributeValue::LocRef(offset)
    } else if name == DW_AT_stmt_list {
        AttributeValue::LineRef(offset)
    } else if is_range_name(name) {
        AttributeValue::RangeRef(offset)
    } else {
        AttributeValue::Dropped
    }
}

// What a block means.
pub fn block_value<'d>(name: u16, bytes: &'d [u8]) -> AttributeValue<'d>
    ensures { value_view result ≡ meant_block name bytes.now }
{
    if is_expression_name(name) {
        AttributeValue::Exprloc(bytes)
    } else {
        AttributeValue::Block(bytes)
    }
}

// What a constant means: one of four bytes was a section offset in the versions 2 and 3, under the names that have one.
pub fn constant_value<'d>(version: u16, name: u16, form: u16, bits: u64) -> AttributeValue<'d>
    ensures { value_view result ≡ meant_constant version name form bits }
{
    if form == DW_FORM_data4
        && version < 4
        && (is_location_name(name) || name == DW_AT_stmt_list || is_range_name(name))
    {
        section_offset(name, bits)
    } else {
        AttributeValue::Constant { form, bits }
    }
}

//! The codes of DWARF by their standard names. (DWARF 5, section 7.)
#![allow(non_upper_case_globals)]

// Tags. (Table 7.3.)
pub const DW_TAG_array_type: u16 = 0x01;

pub const DW_TAG_entry_point: u16 = 0x03;

pub const DW_TAG_formal_parameter: u16 = 0x05;

pub const DW_TAG_label: u16 = 0x0a;

pub const DW_TAG_lexical_block: u16 = 0x0b;

pub const DW_TAG_member: u16 = 0x0d;

pub const DW_TAG_pointer_type: u16 = 0x0f;

pub const DW_TAG_reference_type: u16 = 0x10;

pub const DW_TAG_compile_unit: u16 = 0x11;

pub const DW_TAG_structure_type: u16 = 0x13;

pub const DW_TAG_unspecified_parameters: u16 = 0x18;

pub const DW_TAG_variant: u16 = 0x19;

pub const DW_TAG_inheritance: u16 = 0x1c;

pub const DW_TAG_inlined_subroutine: u16 = 0x1d;

pub const DW_TAG_ptr_to_member_type: u16 = 0x1f;

pub const DW_TAG_subrange_type: u16 = 0x21;

pub const DW_TAG_with_stmt: u16 = 0x22;

pub const DW_TAG_base_type: u16 = 0x24;

pub const DW_TAG_catch_block: u16 = 0x25;

pub const DW_TAG_const_type: u16 = 0x26;

pub const DW_TAG_constant: u16 = 0x27;

pub const DW_TAG_enumerator: u16 = 0x28;

pub const DW_TAG_subprogram: u16 = 0x2e;

pub const DW_TAG_template_type_parameter: u16 = 0x2f;

pub const DW_TAG_template_value_parameter: u16 = 0x30;

pub const DW_TAG_try_block: u16 = 0x32;

pub const DW_TAG_variant_part: u16 = 0x33;

pub const DW_TAG_variable: u16 = 0x34;

pub const DW_TAG_namespace: u16 = 0x39;

pub const DW_TAG_rvalue_reference_type: u16 = 0x42;

pub const DW_TAG_call_site: u16 = 0x48;

pub const DW_TAG_call_site_parameter: u16 = 0x49;

// Attributes. (Table 7.5.)
pub const DW_AT_sibling: u16 = 0x01;

pub const DW_AT_location: u16 = 0x02;

pub const DW_AT_name: u16 = 0x03;

pub const DW_AT_byte_size: u16 = 0x0b;

pub const DW_AT_bit_size: u16 = 0x0d;

pub const DW_AT_stmt_list: u16 = 0x10;

pub const DW_AT_low_pc: u16 = 0x11;

pub const DW_AT_high_pc: u16 = 0x12;

pub const DW_AT_language: u16 = 0x13;

pub const DW_AT_string_length: u16 = 0x19;

pub const DW_AT_comp_dir: u16 = 0x1b;

pub const DW_AT_containing_type: u16 = 0x1d;

pub const DW_AT_lower_bound: u16 = 0x22;

pub const DW_AT_producer: u16 = 0x25;

pub const DW_AT_return_addr: u16 = 0x2a;

pub const DW_AT_start_scope: u16 = 0x2c;

pub const DW_AT_bit_stride: u16 = 0x2e;

pub const DW_AT_upper_bound: u16 = 0x2f;

pub const DW_AT_artificial: u16 = 0x34;

pub const DW_AT_count: u16 = 0x37;

pub const DW_AT_decl_file: u16 = 0x3a;

pub const DW_AT_decl_line: u16 = 0x3b;

pub const DW_AT_data_member_location: u16 = 0x38;

pub const DW_AT_encoding: u16 = 0x3e;

pub const DW_AT_frame_base: u16 = 0x40;

pub const DW_AT_macro_info: u16 = 0x43;

pub const DW_AT_segment: u16 = 0x46;

pub const DW_AT_static_link: u16 = 0x48;

pub const DW_AT_type: u16 = 0x49;

pub const DW_AT_use_location: u16 = 0x4a;

pub const DW_AT_vtable_elem_location: u16 = 0x4d;

pub const DW_AT_allocated: u16 = 0x4e;

pub const DW_AT_associated: u16 = 0x4f;

pub const DW_AT_data_location: u16 = 0x50;

pub const DW_AT_byte_stride: u16 = 0x51;

pub const DW_AT_ranges: u16 = 0x55;

pub const DW_AT_call_file: u16 = 0x58;

pub const DW_AT_object_pointer: u16 = 0x64;

pub const DW_AT_endianity: u16 = 0x65;

pub const DW_AT_linkage_name: u16 = 0x6e;

pub const DW_AT_str_offsets_base: u16 = 0x72;

pub const DW_AT_addr_base: u16 = 0x73;

pub const DW_AT_rnglists_base: u16 = 0x74;

pub const DW_AT_dwo_name: u16 = 0x76;

pub const DW_AT_macros: u16 = 0x79;

pub const DW_AT_loclists_base: u16 = 0x8c;

// The one of these that is a vendor's.
pub const DW_AT_GNU_locviews: u16 = 0x2137;

// The encodings of a base type. (Table 7.11.)
pub const DW_ATE_float: u8 = 0x04;

pub const DW_ATE_signed: u8 = 0x05;

pub const DW_ATE_unsigned: u8 = 0x07;

// The byte orders of a base type. (Table 7.13.)
pub const DW_END_little: u8 = 0x02;

// The language of a unit. (Table 7.17.)
pub const DW_LANG_C11: u16 = 0x1d;

// Forms. (Table 7.6.)
pub const DW_FORM_addr: u16 = 0x01;

pub const DW_FORM_block2: u16 = 0x03;

pub const DW_FORM_block4: u16 = 0x04;

pub const DW_FORM_data2: u16 = 0x05;

pub const DW_FORM_data4: u16 = 0x06;

pub const DW_FORM_data8: u16 = 0x07;

pub const DW_FORM_string: u16 = 0x08;

pub const DW_FORM_block: u16 = 0x09;

pub const DW_FORM_block1: u16 = 0x0a;

pub const DW_FORM_data1: u16 = 0x0b;

pub const DW_FORM_flag: u16 = 0x0c;

pub const DW_FORM_sdata: u16 = 0x0d;

pub const DW_FORM_strp: u16 = 0x0e;

pub const DW_FORM_udata: u16 = 0x0f;

pub const DW_FORM_ref_addr: u16 = 0x10;

pub const DW_FORM_ref1: u16 = 0x11;

pub const DW_FORM_ref2: u16 = 0x12;

pub const DW_FORM_ref4: u16 = 0x13;

pub const DW_FORM_ref8: u16 = 0x14;

pub const DW_FORM_ref_udata: u16 = 0x15;

pub const DW_FORM_indirect: u16 = 0x16;

pub const DW_FORM_sec_offset: u16 = 0x17;

pub const DW_FORM_exprloc: u16 = 0x18;

pub const DW_FORM_flag_present: u16 = 0x19;

pub const DW_FORM_strx: u16 = 0x1a;

pub const DW_FORM_addrx: u16 = 0x1b;

pub const DW_FORM_ref_sup4: u16 = 0x1c;

pub const DW_FORM_strp_sup: u16 = 0x1d;

pub const DW_FORM_data16: u16 = 0x1e;

pub const DW_FORM_line_strp: u16 = 0x1f;

pub const DW_FORM_ref_sig8: u16 = 0x20;

pub const DW_FORM_implicit_const: u16 = 0x21;

pub const DW_FORM_loclistx: u16 = 0x22;

pub const DW_FORM_rnglistx: u16 = 0x23;

pub const DW_FORM_ref_sup8: u16 = 0x24;

pub const DW_FORM_strx1: u16 = 0x25;

pub const DW_FORM_strx2: u16 = 0x26;

pub const DW_FORM_strx3: u16 = 0x27;

pub const DW_FORM_strx4: u16 = 0x28;

pub const DW_FORM_addrx1: u16 = 0x29;

pub const DW_FORM_addrx2: u16 = 0x2a;

pub const DW_FORM_addrx3: u16 = 0x2b;

pub const DW_FORM_addrx4: u16 = 0x2c;

// Types of units. (Table 7.2.)
pub const DW_UT_compile: u8 = 0x01;

pub const DW_UT_type: u8 = 0x02;

pub const DW_UT_partial: u8 = 0x03;

pub const DW_UT_skeleton: u8 = 0x04;

pub const DW_UT_split_compile: u8 = 0x05;

pub const DW_UT_split_type: u8 = 0x06;

// Standard opcodes of line programs. (Table 7.25.)
pub const DW_LNS_copy: u8 = 0x01;

pub const DW_LNS_advance_pc: u8 = 0x02;

pub const DW_LNS_advance_line: u8 = 0x03;

pub const DW_LNS_set_file: u8 = 0x04;

pub const DW_LNS_set_column: u8 = 0x05;

pub const DW_LNS_negate_stmt: u8 = 0x06;

pub const DW_LNS_set_basic_block: u8 = 0x07;

pub const DW_LNS_const_add_pc: u8 = 0x08;

pub const DW_LNS_fixed_advance_pc: u8 = 0x09;

pub const DW_LNS_set_prologue_end: u8 = 0x0a;

pub const DW_LNS_set_epilogue_begin: u8 = 0x0b;

pub const DW_LNS_set_isa: u8 = 0x0c;

// Extended opcodes of line programs. (Table 7.26.)
pub const DW_LNE_end_sequence: u8 = 0x01;

pub const DW_LNE_set_address: u8 = 0x02;

pub const DW_LNE_define_file: u8 = 0x03;

pub const DW_LNE_set_discriminator: u8 = 0x04;

// Content types of the entries in a line table's header. (Table 7.27.)
pub const DW_LNCT_path: u16 = 0x01;

pub const DW_LNCT_directory_index: u16 = 0x02;

// Whether an entry has children. (Table 7.4.)
pub const DW_CHILDREN_no: u8 = 0x00;

pub const DW_CHILDREN_yes: u8 = 0x01;

// Operations of expressions, the last of which is one of WebAssembly's tools. (Table 7.9.)
pub const DW_OP_deref: u8 = 0x06;

pub const DW_OP_const1u: u8 = 0x08;

pub const DW_OP_const1s: u8 = 0x09;

pub const DW_OP_const2u: u8 = 0x0a;

pub const DW_OP_const2s: u8 = 0x0b;

pub const DW_OP_const4u: u8 = 0x0c;

pub const DW_OP_const4s: u8 = 0x0d;

pub const DW_OP_const8u: u8 = 0x0e;

pub const DW_OP_const8s: u8 = 0x0f;

pub const DW_OP_constu: u8 = 0x10;

pub const DW_OP_consts: u8 = 0x11;

pub const DW_OP_dup: u8 = 0x12;

pub const DW_OP_drop: u8 = 0x13;

pub const DW_OP_over: u8 = 0x14;

pub const DW_OP_pick: u8 = 0x15;

pub const DW_OP_swap: u8 = 0x16;

pub const DW_OP_rot: u8 = 0x17;

pub const DW_OP_xderef: u8 = 0x18;

pub const DW_OP_abs: u8 = 0x19;

pub const DW_OP_and: u8 = 0x1a;

pub const DW_OP_div: u8 = 0x1b;

pub const DW_OP_minus: u8 = 0x1c;

pub const DW_OP_mod: u8 = 0x1d;

pub const DW_OP_mul: u8 = 0x1e;

pub const DW_OP_neg: u8 = 0x1f;

pub const DW_OP_not: u8 = 0x20;

pub const DW_OP_or: u8 = 0x21;

pub const DW_OP_plus: u8 = 0x22;

pub const DW_OP_plus_uconst: u8 = 0x23;

pub const DW_OP_shl: u8 = 0x24;

pub const DW_OP_shr: u8 = 0x25;

pub const DW_OP_shra: u8 = 0x26;

pub const DW_OP_xor: u8 = 0x27;

pub const DW_OP_bra: u8 = 0x28;

pub const DW_OP_eq: u8 = 0x29;

pub const DW_OP_ge: u8 = 0x2a;

pub const DW_OP_gt: u8 = 0x2b;

pub const DW_OP_le: u8 = 0x2c;

pub const DW_OP_lt: u8 = 0x2d;

pub const DW_OP_ne: u8 = 0x2e;

pub const DW_OP_skip: u8 = 0x2f;

pub const DW_OP_lit0: u8 = 0x30;

pub const DW_OP_lit31: u8 = 0x4f;

pub const DW_OP_reg0: u8 = 0x50;

pub const DW_OP_breg0: u8 = 0x70;

pub const DW_OP_regx: u8 = 0x90;

pub const DW_OP_fbreg: u8 = 0x91;

pub const DW_OP_bregx: u8 = 0x92;

pub const DW_OP_piece: u8 = 0x93;

pub const DW_OP_deref_size: u8 = 0x94;

pub const DW_OP_xderef_size: u8 = 0x95;

pub const DW_OP_nop: u8 = 0x96;

pub const DW_OP_call_frame_cfa: u8 = 0x9c;

pub const DW_OP_bit_piece: u8 = 0x9d;

pub const DW_OP_stack_value: u8 = 0x9f;

pub const DW_OP_WASM_location: u8 = 0xed;

// Kinds of entries of range lists from version 5 on. (DWARF 5, section 7.25.)
pub const DW_RLE_end_of_list: u8 = 0x00;

pub const DW_RLE_base_addressx: u8 = 0x01;

pub const DW_RLE_startx_endx: u8 = 0x02;

pub const DW_RLE_startx_length: u8 = 0x03;

pub const DW_RLE_offset_pair: u8 = 0x04;

pub const DW_RLE_base_address: u8 = 0x05;

pub const DW_RLE_start_end: u8 = 0x06;

pub const DW_RLE_start_length: u8 = 0x07;

// Kinds of entries of location lists from version 5 on. (DWARF 5, section 7.7.3.)
pub const DW_LLE_end_of_list: u8 = 0x00;

pub const DW_LLE_base_addressx: u8 = 0x01;

pub const DW_LLE_startx_endx: u8 = 0x02;

pub const DW_LLE_startx_length: u8 = 0x03;

pub const DW_LLE_offset_pair: u8 = 0x04;

pub const DW_LLE_default_location: u8 = 0x05;

pub const DW_LLE_base_address: u8 = 0x06;

pub const DW_LLE_start_end: u8 = 0x07;

pub const DW_LLE_start_length: u8 = 0x08;

// Sections of split units in the index of a package, from version 5 on. (DWARF 5, section 7.3.5.3, table 7.1.)
pub const DW_SECT_INFO: u32 = 0x01;

pub const DW_SECT_ABBREV: u32 = 0x03;

pub const DW_SECT_LINE: u32 = 0x04;

pub const DW_SECT_LOCLISTS: u32 = 0x05;

pub const DW_SECT_STR_OFFSETS: u32 = 0x06;

pub const DW_SECT_MACRO: u32 = 0x07;

pub const DW_SECT_RNGLISTS: u32 = 0x08;

// Instructions of call frames; those with an operand in their low six bits stand with zeros there. (DWARF 5, section 7.24.)
pub const DW_CFA_nop: u8 = 0x00;

pub const DW_CFA_advance_loc1: u8 = 0x02;

pub const DW_CFA_advance_loc2: u8 = 0x03;

pub const DW_CFA_advance_loc4: u8 = 0x04;

pub const DW_CFA_offset_extended: u8 = 0x05;

pub const DW_CFA_restore_extended: u8 = 0x06;

pub const DW_CFA_undefined: u8 = 0x07;

pub const DW_CFA_same_value: u8 = 0x08;

pub const DW_CFA_remember_state: u8 = 0x0a;

pub const DW_CFA_restore_state: u8 = 0x0b;

pub const DW_CFA_def_cfa: u8 = 0x0c;

pub const DW_CFA_def_cfa_register: u8 = 0x0d;

pub const DW_CFA_def_cfa_offset: u8 = 0x0e;

pub const DW_CFA_offset_extended_sf: u8 = 0x11;

pub const DW_CFA_def_cfa_sf: u8 = 0x12;

pub const DW_CFA_def_cfa_offset_sf: u8 = 0x13;

pub const DW_CFA_advance_loc: u8 = 0x40;

pub const DW_CFA_offset: u8 = 0x80;

pub const DW_CFA_restore: u8 = 0xc0;

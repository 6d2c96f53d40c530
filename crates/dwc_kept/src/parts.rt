//! Which entries are parts of their parents.
ghost use Rattle.std.specs.Prelude.{◌≡◌};
ghost use Rattle.dwc_rules.specs.Kept.{is_part_tag};
ghost use Rattle.dwc_kept.specs.ReadEntries.{is_part_below};

use crate::last_at::LastAt;
use dwc_base::constants::{
    DW_TAG_call_site, DW_TAG_call_site_parameter, DW_TAG_catch_block, DW_TAG_constant,
    DW_TAG_enumerator, DW_TAG_formal_parameter, DW_TAG_inheritance, DW_TAG_inlined_subroutine,
    DW_TAG_label, DW_TAG_lexical_block, DW_TAG_member, DW_TAG_subrange_type,
    DW_TAG_template_type_parameter, DW_TAG_template_value_parameter, DW_TAG_try_block,
    DW_TAG_unspecified_parameters, DW_TAG_variable, DW_TAG_variant, DW_TAG_variant_part,
    DW_TAG_with_stmt,
};

// Whether children of a tag are parts of their parent, whatever that is.
fn is_part_tag(tag: u16) -> bool
    ensures { result ≡ is_part_tag tag }
{
    match tag {
        DW_TAG_formal_parameter
        | DW_TAG_label
        | DW_TAG_lexical_block
        | DW_TAG_member
        | DW_TAG_unspecified_parameters
        | DW_TAG_variant
        | DW_TAG_inheritance
        | DW_TAG_inlined_subroutine
        | DW_TAG_subrange_type
        | DW_TAG_with_stmt
        | DW_TAG_catch_block
        | DW_TAG_enumerator
        | DW_TAG_template_type_parameter
        | DW_TAG_template_value_parameter
        | DW_TAG_try_block
        | DW_TAG_variant_part
        | DW_TAG_call_site
        | DW_TAG_call_site_parameter => true,
        _ => false,
    }
}

// Whether an entry of a tag is a part of a parent: by its tag, or a variable or constant below anything but a root or a namespace.
fn is_part_of(parent: LastAt, tag: u16) -> bool
    ensures { result ≡ is_part_below (Some parent) tag }
{
    is_part_tag(tag) || ((tag == DW_TAG_variable || tag == DW_TAG_constant) && !parent.is_outer)
}

/// Whether an entry of a tag is a part of its parent, if it has one.
pub(crate) fn is_part_below(parent: Option<LastAt>, tag: u16) -> bool
    ensures { result ≡ is_part_below parent tag }
{
    match parent {
        None => false,
        Some(parent) => is_part_of(parent, tag),
    }
}

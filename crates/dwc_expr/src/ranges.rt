//! On which ranges of native code values lie at unchanged places. (DWARF 4 and 5, section 2.6.2, has lists of such.)

pub(crate) mod cached_range;
pub(crate) mod code_range;
pub(crate) mod cuts;
pub(crate) mod filled;
pub(crate) mod label_ranges;
pub(crate) mod narrowed;
pub(crate) mod native;
pub(crate) mod passed;
pub(crate) mod scope;
pub(crate) mod told;

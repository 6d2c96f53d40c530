//! The form of an output.
use dwc_base::Encoding;

/// The form of an output: the version and the address size of its units, and whether numbers have their highest byte first.
#[derive(Clone, Copy)]
pub(crate) struct OutputForm {
    pub encoding: Encoding,
    pub big_endian: bool,
}

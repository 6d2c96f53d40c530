//! An attribute of a declaration. (DWARF 4 and 5, section 7.5.3.)
ghost use Rattle.std.specs.Prelude.{◌≡◌};

/// An attribute of a declaration: its name, its form, and the value of an implicit constant.
#[derive(Clone, Copy)]
pub struct AttributeSpec {
    pub name: u16,
    // How many attributes, from this one on, lead nowhere and are always as long, and their bytes; 0 where this one does not.
    pub(crate) skip: u16,
    pub(crate) skip_bytes: u16,
    pub form: u64,
    pub implicit: i64,
}

impl AttributeSpec {
    /// An attribute by its name, its form and the value of an implicit constant.
    pub fn new(name: u16, form: u64, implicit: i64) -> AttributeSpec
        ensures { result ≡ record { name = name; skip = 0; skip_bytes = 0; form = form; implicit = implicit } }
    {
        AttributeSpec {
            name,
            skip: 0,
            skip_bytes: 0,
            form,
            implicit,
        }
    }
}

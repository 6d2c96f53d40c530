//! The bytes of one section.
ghost use Rattle.std.specs.Prelude.{◌<◌, ◌^◌, length};

/// The bytes of a section, lent. They are fewer than 2^32.
#[derive(Clone, Copy, Drop)]
pub struct SectionBytes<'d> {
    pub bytes: &'d [u8],
    ghost short: { length bytes.now < 2 ^ 32 },
}

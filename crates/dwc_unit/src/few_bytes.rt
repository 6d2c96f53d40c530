//! A few bytes that take no memory beside their own.
ghost use Rattle.std.specs.Prelude.{◌≡◌, ◌++◌, [], ◌+◌, ◌≤◌, length};

use std::marker::Model;

// So many bytes are few: with their number, and a tag and a name beside them, they take 16 bytes.
const FEW: usize = 11;

// At most so many bytes.
#[derive(Drop)]
pub(crate) struct FewBytes {
    count: u8,
    bytes: [u8; FEW],
}

impl Model for FewBytes {
    ghost use Rattle.std.specs.Prelude.{ℕ, List, take, ◌≤◌};

    ghost Value = { List ℕ };

    ghost view = { λ few. take few.count few.bytes };

    ghost invariant = { λ few. few.count ≤ 11 };
}

impl FewBytes {
    // No bytes.
    pub(crate) fn new() -> FewBytes
        ensures { result ≡ [] }
    {
        FewBytes {
            count: 0,
            bytes: [0; FEW],
        }
    }

    // The bytes.
    pub(crate) fn as_slice(&self) -> &[u8]
        ensures { result.now ≡ self.now }
    {
        &self.bytes[..usize::from(self.count)]
    }

    // How many bytes there are.
    pub(crate) fn len(&self) -> usize
        ensures count { result ≡ length self.now }
        ensures most { result ≤ 11 }
    {
        usize::from(self.count)
    }

    // How many bytes more there is room for.
    pub(crate) fn room(&self) -> usize
        ensures { result + length self.now ≡ 11 }
    {
        FEW - self.len()
    }

    // Puts bytes behind these.
    #[inline(always)]
    pub(crate) fn extend_from_slice(&mut self, more: &[u8])
        requires { length self.old + length more.now ≤ 11 }
        ensures { self.new ≡ self.old ++ more.now }
    {
        let start = usize::from(self.count);
        let end = start + more.len();
        self.bytes[start..end].copy_from_slice(more);
        self.count = end as u8;
    }
}

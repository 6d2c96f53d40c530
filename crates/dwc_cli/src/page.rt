//! Text on its way to a sink.
ghost use Rattle.std.specs.Prelude.{◌≡◌, ◌+◌, ◌*◌, ◌≤◌, ◌++◌, [], length, take, drop};
ghost use Rattle.hex.specs.Hex.{encode_lower};

use crate::backward::{LINE, ROOM};
use std::marker::Model;

/// How many bytes a page has room for.
pub(crate) const PAGE: usize = 65_536;

/// Text that is not yet written.
#[derive(Drop)]
pub(crate) struct Page {
    bytes: [u8; PAGE],
    filled: usize,
}

impl Model for Page {
    ghost use Rattle.std.specs.Prelude.{ℕ, List, take, ◌≤◌};

    ghost Value = { List ℕ };

    ghost view = { λ p. take p.filled p.bytes };

    ghost invariant = { λ p. p.filled ≤ 65536 };
}

impl Page {
    pub(crate) fn new() -> Page
        ensures { result ≡ [] }
    {
        Page {
            bytes: [0; PAGE],
            filled: 0,
        }
    }

    pub(crate) fn text(&self) -> &[u8]
        ensures { result.now ≡ self.now }
    {
        &self.bytes[..self.filled]
    }

    /// How many bytes more it has room for.
    pub(crate) fn room(&self) -> usize
        ensures { result + length self.now ≡ 65536 }
    {
        PAGE - self.filled
    }

    pub(crate) fn clear(&mut self)
        ensures { self.new ≡ [] }
    {
        self.filled = 0;
    }

    pub(crate) fn push(&mut self, text: &[u8])
        requires { length self.old + length text.now ≤ 65536 }
        ensures { self.new ≡ self.old ++ text.now }
    {
        let end = self.filled + text.len();
        self.bytes[self.filled..end].copy_from_slice(text);
        self.filled = end;
    }

    /// Pushes a line, which starts at a place of `line`. A copy of a size that is known is a few moves, and no call.
    #[inline(always)]
    pub(crate) fn push_line(&mut self, line: &[u8; ROOM], start: usize)
        requires { (start ≤ 64) × (length self.old + 64 ≤ 65536) }
        ensures { self.new ≡ self.old ++ drop start (take 64 line.now) }
    {
        let end = self.filled + LINE;
        self.bytes[self.filled..end].copy_from_slice(&line[start..start + LINE]);
        self.filled = end - start;
    }

    /// Pushes some bytes in lower-case hexadecimal.
    pub(crate) fn push_hex(&mut self, bytes: &[u8])
        requires { length self.old + 2 * length bytes.now ≤ 65536 }
        ensures { self.new ≡ self.old ++ encode_lower bytes.now }
    {
        let end = self.filled + 2 * bytes.len();
        write_hex(bytes, &mut self.bytes[self.filled..end]);
        self.filled = end;
    }
}

fn write_hex(bytes: &[u8], digits: &mut [u8])
    requires { length digits.old ≡ 2 * length bytes.now }
    ensures { digits.new ≡ encode_lower bytes.now }
{
    hex::encode_to_slice(bytes, digits).unwrap();
}

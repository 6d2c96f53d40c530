//! A cursor over bytes that are lent: numbers, texts and parts from the front of what is unread.
ghost use Rattle.std.specs.Prelude.{◌≡◌, ℕ, ◌+◌, ◌<◌, ◌^◌, length, drop, Some, None, ⊤, IfOk, IfSome, ◌==◌};
ghost use Rattle.std.specs.List.{position};
ghost use Rattle.dwc_base.specs.Reading.{bytes_at, part_at, number_at, text_at, uleb_at, sleb_at};
ghost use Rattle.dwc_base.specs.Cursors.{Reads};

use crate::leb128::{sleb_front, uleb_front};
use crate::{Endian, Flaw, NotRead};
use std::marker::Model;

/// Why a cursor cannot read. The offset is the cursor's place.
#[derive(Clone, Copy)]
pub enum CursorFault {
    /// Bytes are missing.
    End { offset: usize },
    /// A number of variable length does not fit 64 bits.
    Wide { offset: usize },
}

impl From<CursorFault> for Flaw {
    ghost use Rattle.std.specs.Prelude.{◌≡◌};
    ghost use Rattle.dwc_base.specs.Cursors.{flaw_of};

    ghost from_gives = { λ fault e. e ≡ flaw_of fault };

    fn from(fault: CursorFault) -> Flaw {
        match fault {
            CursorFault::End { .. } => Flaw::EndsEarly,
            CursorFault::Wide { .. } => Flaw::TooWide,
        }
    }
}

impl From<CursorFault> for NotRead {
    ghost use Rattle.std.specs.Prelude.{◌≡◌};
    ghost use Rattle.dwc_base.specs.Cursors.{flaw_of};
    ghost use Rattle.dwc_base.specs.declared.faults.NotRead.TheVariants.{Flawed};

    ghost from_gives = { λ fault e. e ≡ Flawed (flaw_of fault) };

    fn from(fault: CursorFault) -> NotRead {
        match fault {
            CursorFault::End { .. } => NotRead::Flawed(Flaw::EndsEarly),
            CursorFault::Wide { .. } => NotRead::Flawed(Flaw::TooWide),
        }
    }
}

/// Reads numbers, texts and parts from the front of what is unread. Each call that reads moves behind what it answers; after
/// a fault the cursor is as before. `End` comes exactly where bytes are missing.
#[derive(Drop)]
pub struct Cursor<'d> {
    left: &'d [u8],
    place: usize,
    order: Endian,
}

impl<'d> Model for Cursor<'d> {
    ghost use Rattle.std.specs.Prelude.{◌+◌, ◌<◌, ◌^◌, length};
    ghost use Rattle.dwc_base.specs.Reading.{Unread};

    ghost Value = { Unread };

    ghost view = { λ c. record { order = c.order; place = c.place; left = c.left.now } };

    ghost invariant = { λ c. c.place + length c.left.now < 2 ^ 64 };
}

impl<'d> Cursor<'d> {
    /// A cursor over some bytes, from place 0 on, with the order of the bytes of a number.
    pub fn new(bytes: &'d [u8], order: Endian) -> Cursor<'d>
        ensures { result ≡ record { order = order; place = 0; left = bytes.now } }
    {
        Cursor {
            left: bytes,
            place: 0,
            order,
        }
    }

    /// A cursor over the bytes from an offset on; past their end nothing is left.
    pub fn at(bytes: &'d [u8], offset: u32, order: Endian) -> Cursor<'d>
        requires { length bytes.now < 2 ^ 63 }
        ensures { result ≡ record { order = order; place = offset; left = drop offset bytes.now } }
    {
        let place = offset as usize;
        let start = place.min(bytes.len());
        let (_, left) = bytes.split_at(start);
        Cursor { left, place, order }
    }

    /// A second cursor at the same place.
    pub fn fork(&self) -> Cursor<'d>
        ensures { result ≡ self.now }
    {
        Cursor {
            left: self.left,
            place: self.place,
            order: self.order,
        }
    }

    /// How far behind the first byte it is.
    pub fn place(&self) -> usize
        ensures { result ≡ self.now.place }
    {
        self.place
    }

    /// The order of the bytes of a number.
    pub fn order(&self) -> Endian
        ensures { result ≡ self.now.order }
    {
        self.order
    }

    /// How many bytes are unread.
    pub fn left(&self) -> usize
        ensures { result ≡ length self.now.left }
    {
        self.left.len()
    }

    /// The bytes that are unread.
    pub fn unread(&self) -> &'d [u8]
        ensures { result.now ≡ self.now.left }
    {
        self.left
    }

    /// The next bytes, as many as said.
    pub fn take(&mut self, n: usize) -> Result<&'d [u8], CursorFault>
        ensures read { Reads (λ x. x.now) (bytes_at n self.old) self.old self.new result }
        ensures length { IfOk result (λ x. length x.now ≡ n) }
    {
        if self.left.len() < n {
            return Err(CursorFault::End { offset: self.place });
        }
        let (front, rest) = self.left.split_at(n);
        self.left = rest;
        self.place += n;
        Ok(front)
    }

    /// The next byte.
    pub fn u8(&mut self) -> Result<u8, CursorFault>
        ensures { Reads (λ x. x) (number_at 1 self.old) self.old self.new result }
    {
        let field = self.take(1)?;
        Ok(field[0])
    }

    /// The next bytes, as many as said, to be read on their own; their places are the same.
    pub fn part(&mut self, n: usize) -> Result<Cursor<'d>, CursorFault>
        ensures { Reads (λ x. x) (part_at n self.old) self.old self.new result }
    {
        if self.left.len() < n {
            return Err(CursorFault::End { offset: self.place });
        }
        let (front, rest) = self.left.split_at(n);
        let part = Cursor {
            left: front,
            place: self.place,
            order: self.order,
        };
        self.left = rest;
        self.place += n;
        Ok(part)
    }

    /// A number of 2 bytes in the cursor's order.
    pub fn u16(&mut self) -> Result<u16, CursorFault>
        ensures { Reads (λ x. x) (number_at 2 self.old) self.old self.new result }
    {
        let order = self.order;
        let field = self.take(2)?;
        let bytes = [field[0], field[1]];
        Ok(match order {
            Endian::Little => u16::from_le_bytes(bytes),
            Endian::Big => u16::from_be_bytes(bytes),
        })
    }

    /// A number of 4 bytes in the cursor's order.
    pub fn u32(&mut self) -> Result<u32, CursorFault>
        ensures { Reads (λ x. x) (number_at 4 self.old) self.old self.new result }
    {
        let order = self.order;
        let field = self.take(4)?;
        let bytes = [field[0], field[1], field[2], field[3]];
        Ok(match order {
            Endian::Little => u32::from_le_bytes(bytes),
            Endian::Big => u32::from_be_bytes(bytes),
        })
    }

    /// A number of 8 bytes in the cursor's order.
    pub fn u64(&mut self) -> Result<u64, CursorFault>
        ensures { Reads (λ x. x) (number_at 8 self.old) self.old self.new result }
    {
        let order = self.order;
        let field = self.take(8)?;
        let bytes = [
            field[0], field[1], field[2], field[3], field[4], field[5], field[6], field[7],
        ];
        Ok(match order {
            Endian::Little => u64::from_le_bytes(bytes),
            Endian::Big => u64::from_be_bytes(bytes),
        })
    }

    /// The bytes before the next 0, which is passed.
    pub fn text(&mut self) -> Result<&'d [u8], CursorFault>
        ensures { Reads (λ x. x.now) (text_at self.old) self.old self.new result }
    {
        let Some(n) = text_len(self.left) else {
            return Err(CursorFault::End { offset: self.place });
        };
        let (front, _) = self.left.split_at(n);
        let (_, rest) = self.left.split_at(n + 1);
        self.left = rest;
        self.place += n + 1;
        Ok(front)
    }

    /// A signed LEB128 number; `Wide` exactly where it does not fit 64 bits. (DWARF 4 and 5, section 7.6.)
    pub fn sleb(&mut self) -> Result<i64, CursorFault>
        ensures { Reads (λ x. x) (sleb_at self.old) self.old self.new result }
    {
        let Some((value, count)) = sleb_front(self.left) else {
            return Err(CursorFault::End { offset: self.place });
        };
        let Some(value) = value else {
            return Err(CursorFault::Wide { offset: self.place });
        };
        let (_, rest) = self.left.split_at(count);
        self.left = rest;
        self.place += count;
        Ok(value)
    }

    /// An unsigned LEB128 number; `Wide` exactly where it does not fit 64 bits. (DWARF 4 and 5, section 7.6.)
    pub fn uleb(&mut self) -> Result<u64, CursorFault>
        ensures { Reads (λ x. x) (uleb_at self.old) self.old self.new result }
    {
        let Some((value, count)) = uleb_front(self.left) else {
            return Err(CursorFault::End { offset: self.place });
        };
        let Some(value) = value else {
            return Err(CursorFault::Wide { offset: self.place });
        };
        let (_, rest) = self.left.split_at(count);
        self.left = rest;
        self.place += count;
        Ok(value)
    }
}

// How many bytes stand before the first 0.
fn text_len(bytes: &[u8]) -> Option<usize>
    ensures value { result ≡ position (λ b. b == 0) bytes.now }
    ensures inside { IfSome result (λ n. n < length bytes.now) }
{
    bytes.iter().position(|b| *b == 0)
}

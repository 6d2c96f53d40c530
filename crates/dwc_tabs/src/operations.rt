//! The operations of an expression. (DWARF 4 and 5, sections 2.5 and 7.7.1.)
ghost use Rattle.std.specs.Prelude.{◌≡◌};
ghost use Rattle.dwc_dwarf.specs.Operations.{operations as operations_of};
ghost use Rattle.dwc_tabs.specs.Operations.{GivesNextOperation};

use crate::operation::{Operation, read_operation};
use dwc_base::{Cursor, Encoding, Endian, SectionName, What};
use dwc_read::ReadFault;
use std::marker::Model;

/// The operations of an expression that are still to come. They take no memory.
#[derive(Drop)]
pub struct Operations<'d> {
    cursor: Cursor<'d>,
}

impl<'d> Model for Operations<'d> {
    ghost use Rattle.std.specs.Prelude.{ℕ};
    ghost use Rattle.dwc_base.specs.Listing.{Listing};
    ghost use Rattle.dwc_dwarf.specs.Operations.{Operation, operations_from};

    ghost Value = { Listing ℕ Operation };

    ghost view = { λ o. operations_from o.cursor };
}

impl<'d> Operations<'d> {
    /// The operations that some bytes are. No operand hangs on the encoding of the unit that they stand in.
    pub fn new(bytes: &'d [u8], _encoding: Encoding) -> Operations<'d>
        ensures { result ≡ operations_of bytes.now }
    {
        Operations {
            cursor: Cursor::new(bytes, Endian::Little),
        }
    }

    /// The next operation with its place in the expression; None at the end. An operation whose code is not known has no operands.
    ///
    /// Answers `Read` where an operand passes the end or does not fit 64 bits, with `.debug_info` and the place of the operation in
    /// the expression, since it does not know where that stands. At the end, and after this, each later call answers the same.
    pub fn next_op(&mut self) -> Result<Option<(usize, Operation<'d>)>, ReadFault>
        ensures { GivesNextOperation self.old self.new result }
    {
        if self.cursor.left() == 0 {
            return Ok(None);
        }
        let place = self.cursor.place();
        let mut ahead = self.cursor.fork();
        match read_operation(&mut ahead) {
            Ok(next) => {
                self.cursor = ahead;
                Ok(Some((place, next)))
            }
            Err(_) => Err(ReadFault::Read {
                what: What::Expression,
                section: SectionName::Info,
                offset: place as u64,
            }),
        }
    }
}

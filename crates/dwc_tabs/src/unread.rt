//! Where reading begins in a section.
ghost use Rattle.dwc_tabs.specs.Tables.{UnreadFrom};

use dwc_base::{Cursor, Endian};

/// What is unread of some bytes from an offset on; None where the offset is past their end.
pub fn unread_from<'d>(bytes: &'d [u8], order: Endian, offset: u64) -> Option<Cursor<'d>>
    ensures { UnreadFrom order bytes.now offset result }
{
    let mut cursor = Cursor::new(bytes, order);
    match cursor.take(offset as usize) {
        Ok(_) => Some(cursor),
        Err(_) => None,
    }
}

//! The text of a refusal, kept where no memory is wanted.
ghost use Rattle.std.specs.Prelude.{◌≡◌, true};
ghost use Rattle.dwc_cli.specs.Printed.{is_line};

use crate::front::line_front;
use std::fmt;
use std::fmt::{Display, Write};
use std::marker::Model;

// No refusal has a longer text: its name, kinds and names of sections, and numbers.
const ROOM: usize = 128;

// The text of a refusal: its name and its fields, with a space between, on one line.
#[derive(Drop)]
pub(crate) struct Refusal {
    bytes: [u8; ROOM],
    len: usize,
}

impl Model for Refusal {
    ghost use Rattle.std.specs.Prelude.{◌≡◌, ℕ, List, take, ◌≤◌, true};
    ghost use Rattle.dwc_cli.specs.Printed.{is_line};

    ghost Value = { List ℕ };

    ghost view = { λ r. take r.len r.bytes };

    ghost invariant = { λ r. (r.len ≤ 128) × (is_line (take r.len r.bytes) ≡ true) };
}

impl Refusal {
    // The text that a refusal displays; what is past the room is left out, and so is a piece with a line feed, which no
    // refusal displays.
    pub(crate) fn of<D: Display>(refusal: &D) -> Refusal {
        let mut text = Refusal {
            bytes: [0; ROOM],
            len: 0,
        };
        let _ = write!(text, "{refusal}");
        text
    }

    pub(crate) fn text(&self) -> &[u8]
        ensures text { result.now ≡ self.now }
        ensures line { is_line self.now ≡ true }
    {
        &self.bytes[..self.len]
    }
}

impl Write for Refusal {
    fn write_str(&mut self, s: &str) -> fmt::Result {
        let piece = line_front(s.as_bytes(), ROOM - self.len);
        let end = self.len + piece.len();
        self.bytes[self.len..end].copy_from_slice(piece);
        self.len = end;
        Ok(())
    }
}

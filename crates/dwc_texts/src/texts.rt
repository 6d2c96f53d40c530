//! Texts in the order in which they were added, each once.
ghost use Rattle.std.specs.Prelude.{◌≡◌, ◌<◌, [], OnOk, OnErr, IfOk};
ghost use Rattle.std.specs.List.{All, position, position_or_len};
ghost use Rattle.std.specs.Str.{bytes_eq};
ghost use Rattle.dwc_dwarf.specs.TreeLaws.{with_new_text};

use crate::index::{TextIndex, number_of};
use crate::text::Text;
use std::alloc::{AllocError, Global};
use std::marker::Model;

/// Texts in the order in which they were added, each once.
#[derive(Drop)]
pub struct Texts {
    texts: Vec<Text>,
    index: TextIndex,
}

impl Model for Texts {
    ghost use Rattle.std.specs.Prelude.{List, ℕ};
    ghost use Rattle.dwc_texts.specs.TextIndexes.{AreIndexed};

    ghost Value = { List (List ℕ) };

    ghost view = { λ t. t.texts.items };

    ghost invariant = { λ t. AreIndexed t.index t.texts.items };
}

impl Texts {
    /// No texts.
    pub fn new(alloc: Global) -> Texts
        ensures { result ≡ [] }
    {
        Texts {
            texts: Vec::new(alloc),
            index: TextIndex::new(alloc),
        }
    }

    /// Adds a text behind the others, unless it is there; its place among them. A contract sees besides that what it was given are bytes.
    ///
    /// # Errors
    /// `AllocError` for want of memory. The texts are then as they were.
    pub fn add(&mut self, text: &[u8]) -> Result<usize, AllocError>
        ensures ok { OnOk result (self.new ≡ with_new_text self.old text.now) }
        ensures place { IfOk result (λ place. place ≡ position_or_len (bytes_eq text.now) self.old) }
        ensures err { OnErr result (self.new ≡ self.old) }
        ensures bytes { All (λ b. b < 256) text.now }
    {
        let number = number_of(text);
        let known = self.index.known(number);
        if let Some(place) = self.index.find(&self.texts, known, text) {
            return Ok(place);
        }
        let alloc = *self.texts.allocator();
        self.texts.reserve(1)?;
        let owned = Text::new(alloc, text)?;
        let place = self.texts.len();
        self.index.note(alloc, place, number, known, text)?;
        self.texts.push_reserved(owned);
        Ok(place)
    }

    /// The place of a text among them, if it is one of them.
    pub fn find(&self, text: &[u8]) -> Option<usize>
        ensures { result ≡ position (bytes_eq text.now) self.now }
    {
        let number = number_of(text);
        let known = self.index.known(number);
        self.index.find(&self.texts, known, text)
    }

    /// The texts in their order.
    pub fn as_slice(&self) -> &[Text]
        ensures { result.now ≡ self.now }
    {
        &self.texts
    }
}

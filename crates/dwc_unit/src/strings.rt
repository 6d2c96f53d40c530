//! Texts that entries name, each once. (DWARF 4, section 7.5.4.)
ghost use Rattle.std.specs.Prelude.{◌≡◌, [], OnOk, OnErr, IfOk, IsOkUnless};
ghost use Rattle.std.specs.List.{position_or_len};
ghost use Rattle.std.specs.Str.{bytes_eq};
ghost use Rattle.dwc_dwarf.specs.TreeLaws.{with_new_text};
ghost use Rattle.dwc_unit.specs.TextTables.{AreTexts, IsText};
ghost use Rattle.dwc_section.specs.declared.error.WriteError.TheVariants.{OutOfMemory};

use dwc_section::WriteError;
use dwc_texts::{Text, Texts};
use std::alloc::Global;
use std::marker::Model;

/// A text of a table, by its number.
#[derive(Clone, Copy, PartialEq, Eq)]
pub struct StringId {
    /// Texts are numbered from 0 in the order in which they were added.
    pub index: usize,
}

/// Texts in the order in which they were added, each once.
#[derive(Drop)]
pub struct StringTable {
    texts: Texts,
}

impl Model for StringTable {
    ghost use Rattle.std.specs.Prelude.{List, ℕ};
    ghost use Rattle.dwc_unit.specs.TextTables.{AreTexts};

    ghost Value = { List (List ℕ) };

    ghost view = { λ t. t.texts };

    ghost invariant = { λ t. AreTexts t.texts };
}

impl StringTable {
    /// An empty table.
    pub fn new(alloc: Global) -> StringTable
        ensures { result ≡ [] }
    {
        StringTable {
            texts: Texts::new(alloc),
        }
    }

    /// Adds a text, which has no zero byte, behind the others, unless it is there; its number. No choice of texts makes it slow.
    ///
    /// # Errors
    /// `OutOfMemory` for want of memory. The table is then as it was.
    pub fn add(&mut self, text: &[u8]) -> Result<StringId, WriteError>
        requires { IsText text.now }
        ensures ok { OnOk result (self.new ≡ with_new_text self.old text.now) }
        ensures id { IfOk result (λ id. id ≡ record { index = position_or_len (bytes_eq text.now) self.old }) }
        ensures err { OnErr result (self.new ≡ self.old) }
        ensures memory { IsOkUnless result OutOfMemory }
    {
        let index = self.texts.add(text)?;
        Ok(StringId { index })
    }

    /// What is known of them.
    pub fn know_texts(&self)
        ensures { AreTexts self.now }
    {
        let _known = self.texts.as_slice();
    }

    /// The texts in their order.
    pub fn as_slice(&self) -> &[Text]
        ensures { result.now ≡ self.now }
    {
        self.texts.as_slice()
    }
}

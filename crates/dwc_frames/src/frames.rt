//! The frame table of an output. (DWARF 4 and 5, section 6.4.)
ghost use Rattle.std.specs.Prelude.{◌≡◌, ◌++◌, ◌∷◌, [], ◌⊎◌, IfOk, IfErr, IsOkUnless, OnErr, OnOk, Some, true};
ghost use Rattle.std.specs.List.{All};
ghost use Rattle.dwc_native.specs.CallFrames.{is_sound, is_sound_if};
ghost use Rattle.dwc_native.specs.FrameRefusals.{frame_refusals};
ghost use Rattle.dwc_output.specs.FramesCarried.{widest_frames};
ghost use Rattle.dwc_output.specs.FrameSections.{frame_section_if};
ghost use Rattle.dwc_isa.specs.CallFrames.{cie_view, description_view};
ghost use Rattle.dwc_frames.specs.Frames.{IsFrameRefusal, checked, common_given, descriptions_given, first_refusal, optional_section, refused_frames, table_view, told_refusal, widest_given_frames};
ghost use Rattle.dwc_section.specs.RisingRelocations.{DoRelocationsRise};
ghost use Rattle.dwc_section.specs.Writers.{IsSound};
ghost use Rattle.dwc_section.specs.declared.error.WriteError.TheVariants.{OutOfMemory};

use crate::frame_checks::{check_frames, know_common, know_functions};
use crate::frame_section::write_section;
use dwc_base::{DwarfSection, Endian};
use dwc_isa::{CfaUnwindInfo, Cie};
use dwc_section::WriteError;
use std::alloc::Global;

/// The frame table of an output: what the frames of all functions share, and how those of some functions change along their code.
#[derive(Drop)]
pub struct FrameTable {
    pub(crate) cie: Cie,
    pub(crate) functions: Vec<(usize, CfaUnwindInfo)>,
}

impl FrameTable {
    /// A table without functions.
    pub fn new(alloc: Global, cie: Cie) -> FrameTable
        ensures { table_view result ≡ (cie_view cie, []) }
    {
        FrameTable {
            cie,
            functions: Vec::new(alloc),
        }
    }

    /// Adds how the frame of a function changes, by the number of its symbol.
    ///
    /// # Errors
    /// `OutOfMemory` for want of memory; the table is then as before.
    pub fn add_fde(&mut self, symbol: usize, info: &CfaUnwindInfo) -> Result<(), WriteError>
        ensures ok { OnOk result (table_view self.new ≡ ((table_view self.old).0, (table_view self.old).1 ++ (symbol, description_view info.now) ∷ [])) }
        ensures err { OnErr result (table_view self.new ≡ table_view self.old) }
        ensures memory { IsOkUnless result OutOfMemory }
    {
        let ops = info.ops.to_vec(*self.functions.allocator())?;
        let copy = CfaUnwindInfo { len: info.len, ops };
        self.functions.push((symbol, copy))?;
        Ok(())
    }
}

/// Whether the descriptions of a table, if there is one, can be written; else the first that cannot.
pub fn check_table(frames: &Option<FrameTable>) -> Result<(), WriteError>
    requires { is_sound_if (common_given frames.now) ≡ true }
    ensures { result ≡ checked (refused_frames frames.now) }
{
    match frames {
        None => Ok(()),
        Some(table) => check_frames(&table.cie, &table.functions),
    }
}

/// The section `.debug_frame` of a table, if there is one; None where it has no function. `InvalidFrameCodeOffset` and
/// `InvalidFrameDataOffset` are answered exactly for the first description that cannot be written, before a byte is; `TooLarge` only
/// where the section would have more than 2^31 - 1 bytes, and `OutOfMemory` for want of memory.
pub fn write_table(
    alloc: Global,
    order: Endian,
    address_size: u8,
    frames: &Option<FrameTable>,
) -> Result<Option<DwarfSection>, WriteError>
    requires size { (address_size ≡ 4) ⊎ (address_size ≡ 8) }
    requires sound { is_sound_if (common_given frames.now) ≡ true }
    ensures sections { IfOk result (λ s. optional_section s ≡ frame_section_if order address_size (common_given frames.now) (descriptions_given frames.now)) }
    ensures sound { IfOk result (λ s. All (IsSound order) (optional_section s)) }
    ensures rise { IfOk result (λ s. All DoRelocationsRise (optional_section s)) }
    ensures refused { told_refusal result ≡ first_refusal (refused_frames frames.now) }
    ensures large { IfErr result (λ e. IsFrameRefusal (widest_given_frames frames.now) e) }
{
    match frames {
        None => Ok(None),
        Some(table) => write_frames(alloc, order, address_size, table),
    }
}

// The section of a table.
fn write_frames(
    alloc: Global,
    order: Endian,
    address_size: u8,
    table: &FrameTable,
) -> Result<Option<DwarfSection>, WriteError>
    requires size { (address_size ≡ 4) ⊎ (address_size ≡ 8) }
    requires sound { is_sound (table_view table.now).0 ≡ true }
    ensures sections { IfOk result (λ s. optional_section s ≡ frame_section_if order address_size (Some (table_view table.now).0) (table_view table.now).1) }
    ensures sound { IfOk result (λ s. All (IsSound order) (optional_section s)) }
    ensures rise { IfOk result (λ s. All DoRelocationsRise (optional_section s)) }
    ensures refused { told_refusal result ≡ first_refusal (frame_refusals (Some (table_view table.now).0) (table_view table.now).1) }
    ensures large { IfErr result (λ e. IsFrameRefusal (widest_frames (Some (table_view table.now).0) (table_view table.now).1) e) }
{
    let functions = table.functions.as_slice();
    check_frames(&table.cie, functions)?;
    if functions.is_empty() {
        return Ok(None);
    }
    know_common(&table.cie);
    know_functions(functions);
    let section = write_section(alloc, order, address_size, &table.cie, functions)?;
    Ok(Some(section))
}

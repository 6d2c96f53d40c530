//! The texts of the unit for functions without debugging information.
ghost use Rattle.std.specs.Prelude.{IfOk, IsOkUnless};
ghost use Rattle.std.specs.List.{AllZip};
ghost use Rattle.dwc_unit.specs.TextTables.{IsText};
ghost use Rattle.dwc_section.specs.declared.error.WriteError.TheVariants.{OutOfMemory};
ghost use Rattle.dwc_source.specs.KnownTexts.{IsNumbered};
ghost use Rattle.dwc_source.specs.MadeValues.{Grows};
ghost use Rattle.dwc_carry.specs.SimulatedAdditions.{root_names, root_texts_of, type_names, type_texts_of};

use crate::simulated_entries::TypeTexts;
use crate::simulated_root::RootTexts;
use crate::unit_path::{path_directory, path_name};
use dwc_section::WriteError;
use dwc_unit::{StringId, StringTable};

/// Adds a text, which has no zero byte, to a table; its number.
pub(crate) fn add_text(strings: &mut StringTable, text: &[u8]) -> Result<StringId, WriteError>
    requires { IsText text.now }
    ensures grows { Grows strings.old strings.new }
    ensures number { IfOk result (IsNumbered strings.new text.now) }
    ensures memory { IsOkUnless result OutOfMemory }
{
    strings.add(text)
}

/// Adds the names of the types of numbers.
pub(crate) fn type_texts(strings: &mut StringTable) -> Result<TypeTexts, WriteError>
    ensures grows { Grows strings.old strings.new }
    ensures known { IfOk result (λ t. AllZip (IsNumbered strings.new) type_names (type_texts_of t)) }
    ensures memory { IsOkUnless result OutOfMemory }
{
    let int32 = add_text(strings, b"i32")?;
    let int64 = add_text(strings, b"i64")?;
    let float32 = add_text(strings, b"f32")?;
    let float64 = add_text(strings, b"f64")?;
    Ok(TypeTexts {
        int32,
        int64,
        float32,
        float64,
    })
}

/// Adds the texts of the root of a unit of a path, which has no zero byte.
pub(crate) fn root_texts(strings: &mut StringTable, path: &[u8]) -> Result<RootTexts, WriteError>
    requires { IsText path.now }
    ensures grows { Grows strings.old strings.new }
    ensures known { IfOk result (λ t. AllZip (IsNumbered strings.new) (root_names path.now) (root_texts_of t)) }
    ensures memory { IsOkUnless result OutOfMemory }
{
    let producer = add_text(strings, b"wasmtime")?;
    let name = add_text(strings, path_name(path))?;
    let directory = add_text(strings, path_directory(path))?;
    Ok(RootTexts {
        producer,
        name,
        directory,
    })
}

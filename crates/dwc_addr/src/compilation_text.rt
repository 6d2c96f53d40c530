//! A compilation as a text for programmers.
ghost use Rattle.std.specs.Prelude.{◌++◌, map, option_map};
ghost use Rattle.std.specs.Fmt.{WritesOnOk};
ghost use Rattle.dwc_addr.specs.CompilationTexts.{module_name, module_text, modules_text, compilation_text, comma};

use dwc_base::ModuleTranslation;
use std::fmt;
use std::fmt::{Formatter, Write};

// Writes modules in brackets, each by its place and its name.
pub(crate) fn write_compilation<W: Write>(
    f: &mut Formatter<W>,
    translations: &[ModuleTranslation<'_>],
) -> fmt::Result
    ensures { WritesOnOk W.write_str_gives f.old result (compilation_text translations.now) f.new }
{
    f.write_str("[")?;
    write_modules(f, translations)?;
    f.write_str("]")
}

fn write_modules<W: Write>(
    f: &mut Formatter<W>,
    translations: &[ModuleTranslation<'_>],
) -> fmt::Result
    ensures { WritesOnOk W.write_str_gives f.old result (modules_text 0 (map module_name translations.now)) f.new }
{
    for i in 0..translations.len() {
        write_comma(f, i)?;
        write_module(f, i, translations[i].module_name)?;
    }
    Ok(())
}

// What stands before the module at a place.
fn write_comma<W: Write>(f: &mut Formatter<W>, place: usize) -> fmt::Result
    ensures { WritesOnOk W.write_str_gives f.old result (comma place) f.new }
{
    f.write_str(if place == 0 { "" } else { ", " })
}

fn write_module<W: Write>(f: &mut Formatter<W>, place: usize, name: Option<&str>) -> fmt::Result
    ensures { WritesOnOk W.write_str_gives f.old result (module_text place (option_map (λ n. n.now) name.entry)) f.new }
{
    match name {
        Some(name) => write!(f, "#{place}: {name}"),
        None => write!(f, "#{place}"),
    }
}

//! What a code generator tells of a module of a compilation.
ghost use Rattle.std.specs.Prelude.{◌≡◌, ◌<◌, ℕ, length, map, slice_get, Some};
ghost use Rattle.dwc_native.specs.Functions.{functions_of};
ghost use Rattle.dwc_compiled.specs.AddressMaps.{address_map_view};
ghost use Rattle.dwc_isa.specs.Registers.{Registers};
ghost use Rattle.dwc_addr.specs.Numbers.{first_number};
ghost use Rattle.dwc_addr.specs.Compilations.{functions_at};
ghost use Rattle.dwc_isa.specs.ToldModules.{memory_view};
ghost use Rattle.dwc_unit.specs.TextTables.{IsText};
ghost use Rattle.dwc_source.specs.CompiledModules.{told_by, HasFrames};
ghost use Rattle.dwc_carry.specs.Inputs.{names_of, told_from};
ghost use Rattle.dwc_carry.specs.SyntheticUnits.{memory_at};

use dwc_addr::Compilation;
use dwc_base::StaticModuleIndex;
use dwc_source::CompiledModule;

/// What is told of a module beside its address maps: whom the output is for, its functions, the number of the first of them, where its
/// memory is found, and the names of functions of the run time.
pub(crate) fn compiled_module<'a>(
    compilation: &Compilation<'a>,
    module: StaticModuleIndex,
) -> CompiledModule<'a>
    requires inside { «module».0 < length compilation.now.translations }
    requires counted { length compilation.now.functions ≡ length compilation.now.translations }
    ensures told { (registers : Registers) → slice_get (told_from compilation.now.tunables.output_for registers (names_of compilation.now) 0 0 compilation.now.functions compilation.now.memory_offsets) «module».0 ≡ Some (told_by registers result) }
    ensures set_memory { result.names.set_memory.now ≡ compilation.now.set_memory }
    ensures resolve_memory { IsText result.names.resolve_memory.now }
    ensures memory { memory_view result.memory ≡ memory_at compilation.now «module».0 }
    ensures frames { (code_offset : ℕ) → HasFrames result (functions_of compilation.now.tunables.output_for code_offset (first_number compilation.now.functions «module».0) (map address_map_view (functions_at compilation.now «module».0))) }
{
    CompiledModule {
        output_for: compilation.tunables().output_for,
        place: module.0,
        functions: compilation.functions_of(module),
        first_number: compilation.first_number(module),
        memory: *compilation.memory_offset(module),
        names: *compilation.names(),
    }
}

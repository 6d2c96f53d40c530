//! A compilation that is refused at its end, and given again.
ghost use Rattle.std.specs.Prelude.{◌≡◌, ◌∷◌, [], map, All};
ghost use Rattle.dwc_base.specs.TranslationNames.{HasSortedNames};

use crate::compiled::{compilation_of, framed_functions};
use crate::module_file::SMALL;
use crate::targets::framed_target;
use dwc_addr::Compilation;
use dwc_base::{DwarfSection, ModuleTranslation};
use dwc_carry::{DebugError, emit_dwarf};
use dwc_clif::{CfaUnwindInfo, FrameOp, TableIsa};
use dwc_wasm::split_wasm;
use std::alloc::{AllocError, Global};
use std::test::Fail;

// A description of a frame whose code offsets fall.
fn falling(alloc: Global) -> Result<CfaUnwindInfo, AllocError> {
    let mut ops = Vec::new(alloc);
    ops.push((4, FrameOp::CfaOffset(16)))?;
    ops.push((2, FrameOp::CfaOffset(8)))?;
    Ok(CfaUnwindInfo { len: 30, ops })
}

// Whether code offsets of the function 0 are refused.
fn is_refused(answer: Result<Vec<DwarfSection>, DebugError>) -> bool {
    matches!(
        answer,
        Err(DebugError::InvalidFrameCodeOffset { symbol: 0 })
    )
}

// Whether they are refused of a compilation that asks for version 4, which it does behind it too.
fn refuses(alloc: Global, isa: &TableIsa, compilation: &mut Compilation<'_>) -> bool
    requires { compilation.old.tunables.dwarf_version ≡ 4 }
    ensures { compilation.new.tunables.dwarf_version ≡ 4 }
{
    is_refused(emit_dwarf(alloc, isa, compilation))
}

// The answers to a compilation of a module whose function has that frame, given twice, and its counter behind each.
fn given_twice(alloc: Global, modules: &[ModuleTranslation<'_>]) -> Result<[(bool, u64); 2], Fail>
    requires modules { map (λ m. m.defined_funcs) modules.now ≡ 1 ∷ [] }
    requires sorted { All HasSortedNames modules.now }
{
    let entries = [(5, Some(25)), (8, None), (15, Some(30)), (23, None)];
    let functions = framed_functions(alloc, (22, 33), &entries, Some(falling(alloc)?))?;
    let isa = framed_target(alloc)?;
    let mut compilation = compilation_of(alloc, &isa, modules, &functions)?;
    let first = refuses(alloc, &isa, &mut compilation);
    let counted = compilation.next_id();
    let second = refuses(alloc, &isa, &mut compilation);
    Ok([(first, counted), (second, compilation.next_id())])
}

#[test]
fn is_refused_alike_when_given_again(rt: HostRuntime) -> Result<(), Fail> {
    let alloc = rt.alloc();
    let module = split_wasm(alloc, SMALL)?;
    if module.defined_funcs != 1 {
        return Err("not one function".into());
    }
    let answers = given_twice(alloc, std::slice::from_ref(&module))?;
    assert_eq!(rt; answers, [(true, 1), (true, 2)]);
    Ok(())
}

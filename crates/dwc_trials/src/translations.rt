//! Wasm offsets and intervals as native code, of a function with one run and of one with two.
ghost use Rattle.std.specs.Prelude.{◌≡◌, [], ◌∷◌, map, length, IfOk};
ghost use Rattle.dwc_base.specs.TranslationNames.{HasSortedNames};
ghost use Rattle.dwc_addr.specs.Compilations.{lists};

use crate::compiled::{Functions, MapEntry, functions_of, transform_of};
use crate::module_file::SMALL;
use dwc_addr::AddressTransform;
use dwc_base::{Address, ModuleTranslation, OutputFor};
use dwc_wasm::split_wasm;
use std::alloc::Global;
use std::slice;
use std::test::Fail;

// The function's source in the small module's file, where the contents of the code section begin at 20: the wasm offsets 10 to 20.
const SOURCE: (u32, u32) = (30, 40);

/// The code from 5 on has the wasm offset 12, that from 15 on 17; without a source are the codes from 8 and from 23 on.
pub(crate) const ONE_RUN: &[MapEntry] = &[(5, Some(32)), (8, None), (15, Some(37)), (23, None)];

// The same up to 23, where code of the wasm offset 12 begins once more; without a source is the code from 26 on.
const TWO_RUNS: &[MapEntry] = &[
    (5, Some(32)),
    (8, None),
    (15, Some(37)),
    (23, Some(32)),
    (26, None),
];

// Wasm offsets, and the native offsets that they become.
const OF_ONE_RUN: [(u64, Option<i64>); 10] = [
    (0, None),
    (9, None),
    (10, Some(0)),
    (12, Some(5)),
    (13, Some(8)),
    (18, Some(23)),
    (20, Some(30)),
    (25, Some(30)),
    (0xFFFF_FFFF, None),
    (0x1_0000_0000, Some(30)),
];

// Where two runs have an offset, the first counts.
const OF_TWO_RUNS: [(u64, Option<i64>); 7] = [
    (0, None),
    (10, Some(0)),
    (12, Some(5)),
    (17, Some(15)),
    (18, Some(26)),
    (20, Some(30)),
    (0xFFFF_FFFF, None),
];

// Intervals of wasm offsets, and the native ranges that they become, if their begin is in a function.
const RANGES_OF_ONE_RUN: [(u64, u64, Option<&[(usize, usize)]>); 8] = [
    (12, 17, Some(&[(5, 23)])),
    (13, 16, Some(&[(8, 15)])),
    (16, 16, Some(&[])),
    (17, 12, Some(&[])),
    (0, 20, None),
    (9, 20, None),
    (12, 0xFFFF_FFFF, Some(&[(5, 30)])),
    (0xFFFF_FFFF, 0x1_0000_0000, None),
];

const RANGES_OF_TWO_RUNS: [(u64, u64, Option<&[(usize, usize)]>); 6] = [
    (12, 20, Some(&[(5, 23), (23, 30)])),
    (10, 12, Some(&[(0, 8)])),
    (10, 13, Some(&[(0, 15), (23, 30)])),
    (18, 20, Some(&[(26, 30)])),
    (20, 10, Some(&[])),
    (0, 0xFFFF_FFFF, None),
];

// For a debugger a range has each byte that shows a source of the interval, its end left out: codes without a source show the one before
// them, and those in front of all the first.
const RANGES_FOR_A_DEBUGGER: [(u64, u64, Option<&[(usize, usize)]>); 7] = [
    (12, 17, Some(&[(0, 15), (23, 30)])),
    (12, 18, Some(&[(0, 30)])),
    (17, 18, Some(&[(15, 23)])),
    (10, 12, Some(&[])),
    (13, 17, Some(&[])),
    (20, 10, Some(&[])),
    (0, 20, None),
];

// Where the ranges begin and how long they are.
const LENGTHS_OF_TWO_RUNS: [(u64, u64, &[(i64, u64)]); 4] = [
    (12, 20, &[(5, 18), (23, 7)]),
    (18, 20, &[(26, 4)]),
    (20, 10, &[]),
    (0, 20, &[]),
];

/// The small module, whose function is compiled.
#[derive(Drop)]
pub(crate) struct SmallModule {
    translation: ModuleTranslation<'static>,
    functions: Functions,
    ghost one: { translation.defined_funcs ≡ 1 },
    ghost listed: { map length (lists functions.items) ≡ 1 ∷ [] },
}

impl SmallModule {
    /// The small module, whose function has 30 bytes and these entries.
    pub(crate) fn new(alloc: Global, entries: &[MapEntry]) -> Result<SmallModule, Fail>
        ensures { IfOk result (λ m. HasSortedNames m.translation) }
    {
        let translation = split_wasm(alloc, SMALL)?;
        if translation.defined_funcs != 1 {
            return Err("not one function".into());
        }
        let functions = functions_of(alloc, SOURCE, entries)?;
        Ok(SmallModule {
            translation,
            functions,
        })
    }

    /// Its transform, for an output.
    pub(crate) fn transform_for(
        &self,
        alloc: Global,
        output_for: OutputFor,
    ) -> Result<AddressTransform<'_>, Fail>
        requires { HasSortedNames self.now.translation }
    {
        let modules = slice::from_ref(&self.translation);
        transform_of(alloc, output_for, modules, &self.functions)
    }

    /// Its transform, by the rules that stand by default.
    pub(crate) fn transform(&self, alloc: Global) -> Result<AddressTransform<'_>, Fail>
        requires { HasSortedNames self.now.translation }
    {
        self.transform_for(alloc, OutputFor::Default)
    }
}

fn address(addend: i64) -> Address {
    Address::Symbol { symbol: 0, addend }
}

#[test]
fn addresses_of_one_run(rt: HostRuntime) -> Result<(), Fail> {
    let module = SmallModule::new(rt.alloc(), ONE_RUN)?;
    let transform = module.transform(rt.alloc())?;
    for (offset, wanted) in &OF_ONE_RUN {
        assert_eq!(rt;
            transform.can_translate_address(*offset),
            wanted.is_some(),
            "{offset}"
        );
        assert_eq!(rt;
            transform.translate(*offset),
            wanted.map(address),
            "{offset}"
        );
    }
    Ok(())
}

#[test]
fn addresses_of_two_runs(rt: HostRuntime) -> Result<(), Fail> {
    let module = SmallModule::new(rt.alloc(), TWO_RUNS)?;
    let transform = module.transform(rt.alloc())?;
    for (offset, wanted) in &OF_TWO_RUNS {
        assert_eq!(rt;
            transform.can_translate_address(*offset),
            wanted.is_some(),
            "{offset}"
        );
        assert_eq!(rt;
            transform.translate(*offset),
            wanted.map(address),
            "{offset}"
        );
    }
    Ok(())
}

// Whether an interval becomes these native ranges.
fn becomes(
    transform: &AddressTransform<'_>,
    start: u64,
    end: u64,
    wanted: Option<&[(usize, usize)]>,
) -> bool {
    match (transform.translate_ranges_raw(start, end), wanted) {
        (Some((symbol, ranges)), Some(wanted)) => symbol == 0 && ranges.eq(wanted.iter().copied()),
        (None, None) => true,
        _ => false,
    }
}

#[test]
fn ranges_of_one_run(rt: HostRuntime) -> Result<(), Fail> {
    let module = SmallModule::new(rt.alloc(), ONE_RUN)?;
    let transform = module.transform(rt.alloc())?;
    for (start, end, wanted) in &RANGES_OF_ONE_RUN {
        assert!(rt; becomes(&transform, *start, *end, *wanted), "{start} {end}");
    }
    Ok(())
}

#[test]
fn ranges_of_two_runs(rt: HostRuntime) -> Result<(), Fail> {
    let module = SmallModule::new(rt.alloc(), TWO_RUNS)?;
    let transform = module.transform(rt.alloc())?;
    for (start, end, wanted) in &RANGES_OF_TWO_RUNS {
        assert!(rt; becomes(&transform, *start, *end, *wanted), "{start} {end}");
    }
    Ok(())
}

#[test]
fn ranges_for_a_debugger(rt: HostRuntime) -> Result<(), Fail> {
    let module = SmallModule::new(rt.alloc(), TWO_RUNS)?;
    let transform = module.transform_for(rt.alloc(), OutputFor::Debugger)?;
    for (start, end, wanted) in &RANGES_FOR_A_DEBUGGER {
        assert!(rt; becomes(&transform, *start, *end, *wanted), "{start} {end}");
    }
    Ok(())
}

#[test]
fn ranges_have_lengths(rt: HostRuntime) -> Result<(), Fail> {
    let module = SmallModule::new(rt.alloc(), TWO_RUNS)?;
    let transform = module.transform(rt.alloc())?;
    for (start, end, wanted) in &LENGTHS_OF_TWO_RUNS {
        let mut ranges = transform.translate_ranges(*start, *end);
        for (begin, length) in *wanted {
            assert_eq!(rt;
                ranges.next(),
                Some((address(*begin), *length)),
                "{start} {end}"
            );
        }
        assert!(rt; ranges.next().is_none(), "{start} {end}");
    }
    Ok(())
}

//! What DWARF wants of a WebAssembly file, as it is told.
ghost use Rattle.std.specs.Prelude.{◌≡◌, length, map, slice_get};
ghost use Rattle.dwc_base.specs.TranslationNames.{param_types};
ghost use Rattle.dwc_base.specs.WasmFunctions.{value_type};

use crate::WasmSections;

// The bytes of the value types that are told apart.
const I32: u8 = 0x7F;

const I64: u8 = 0x7E;

const F32: u8 = 0x7D;

const F64: u8 = 0x7C;

/// The type of a value. (WebAssembly 1.0, section 5.3.1.)
#[derive(Clone, Copy)]
pub enum ValType {
    I32,
    I64,
    F32,
    F64,
    Other,
}

impl ValType {
    /// The value type of a byte.
    pub fn of_byte(byte: u8) -> ValType
        ensures { result ≡ value_type byte }
    {
        match byte {
            I32 => ValType::I32,
            I64 => ValType::I64,
            F32 => ValType::F32,
            F64 => ValType::F64,
            _ => ValType::Other,
        }
    }
}

/// The types of the parameters of a function type, as the bytes that the file has for them. Functions of one type share them.
#[derive(Clone, Copy)]
pub struct ParamTypes<'d> {
    bytes: &'d [u8],
}

impl<'d> ParamTypes<'d> {
    /// The value types of some bytes.
    pub fn new(bytes: &'d [u8]) -> ParamTypes<'d>
        ensures { param_types result ≡ map value_type bytes.now }
    {
        ParamTypes { bytes }
    }

    /// How many there are.
    pub fn len(&self) -> usize
        ensures { result ≡ length (param_types self.now) }
    {
        self.bytes.len()
    }

    /// The type of the parameter at a place; None where there is none.
    pub fn get(&self, place: usize) -> Option<ValType>
        ensures { result ≡ slice_get (param_types self.now) place }
    {
        match self.bytes.get(place) {
            Some(byte) => Some(ValType::of_byte(*byte)),
            None => None,
        }
    }
}

/// The parameters of a function, and its locals in groups of one type.
#[derive(Drop)]
pub struct FunctionMeta<'d> {
    pub params: ParamTypes<'d>,
    pub locals: Vec<(u32, ValType)>,
}

/// What DWARF wants of a WebAssembly file.
#[derive(Drop)]
pub struct ModuleTranslation<'d> {
    /// The sections of DWARF.
    pub sections: WasmSections<'d>,
    /// Those of split units, whose names end in `.dwo`: a package has them. (DWARF 5, section 7.3.2.2.) A module is read by `sections` alone.
    pub dwo_sections: WasmSections<'d>,
    /// The place of the first section whose name begins with `.zdebug_`, in the file.
    pub compressed: Option<u64>,
    /// The place of the contents of the code section in the file; 0 where there is none.
    pub code_section_offset: u64,
    /// How many functions are imported.
    pub imported_funcs: u32,
    /// How many functions the file defines.
    pub defined_funcs: u32,
    /// The name of the module, if one is told.
    pub module_name: Option<&'d str>,
    /// The names of functions by their numbers, imported functions first, in rising order; of two of one function the later counts.
    pub func_names: Vec<(u32, &'d str)>,
    /// The names of locals by the numbers of their function and their own, parameters first, likewise.
    pub local_names: Vec<(u32, u32, &'d str)>,
    /// The types of the locals of each defined function, in order; empty where they cannot be read.
    pub funcs: Vec<FunctionMeta<'d>>,
    /// The path of the file, which the caller sets.
    pub path: Option<&'d str>,
}

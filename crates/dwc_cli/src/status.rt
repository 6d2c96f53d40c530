//! How a run ends.
ghost use Rattle.std.specs.Prelude.{◌≡◌};
ghost use Rattle.dwc_cli.specs.Failures.{status_code};

/// The status that the program ends with. Status 1 is `main`'s own, where it cannot get the words.
#[derive(Clone, Copy)]
pub enum Status {
    Done = 0,
    /// The words are not in the grammar.
    Usage = 2,
    /// A file cannot be read.
    ReadFault = 3,
    /// A file has more than 2 ^ 28 bytes.
    TooLong = 4,
    /// A module is no WebAssembly file.
    MalformedWasm = 5,
    /// The map has no value.
    MalformedMap = 6,
    /// The text cannot be written whole.
    WriteFault = 8,
    OutOfMemory = 9,
    /// A place of the DWARF is outside its grammar.
    Read = 10,
    /// A place of the DWARF is of a kind that is refused.
    Unsupported = 11,
    /// A line table names a file or a directory that is not there, or one has an empty name.
    InvalidFileIndex = 12,
    /// A function's address map breaks a rule.
    BadAddressMap = 13,
    /// An expression needs a label that has a range which begins above its end.
    BadLabelRange = 14,
    /// An expression reads the memory of a module that has none.
    InvalidAttributeValue = 15,
    /// A value that an expression needs lies in a register without a number of DWARF.
    UnmappedRegister = 16,
    /// The code offsets of a function's frame fall, or one is no multiple of the code factor.
    InvalidFrameCodeOffset = 17,
    /// A factored offset of a function's frame is no multiple of the data factor.
    InvalidFrameDataOffset = 18,
    /// The path of the unit for functions without debugging information names no file.
    Path = 19,
    /// A section, a function or an expression is too long, a range ends at no address, a jump goes too far, or a memory is too far
    /// behind in its context.
    TooLarge = 20,
    /// Two functions have one symbol.
    SharedSymbol = 21,
}

impl Status {
    /// The number of the status.
    pub fn code(self) -> u8
        ensures { result ≡ status_code self }
    {
        self as u8
    }
}
